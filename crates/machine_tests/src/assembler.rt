//! Texts, assembled. The expected bytes are those of the GNU assembler, given the same instructions; its `la` is another,
//! so `auipc` and `addi` stood in its place there. Zeros that it puts at the end of its output are left out.
use rv_asm::{AsmFault, assemble};
use std::alloc::Global;
use std::test::Fail;

// A line of each mnemonic, and its word.
const LINES: &[(&str, u32)] = &[
    ("add zero, x31, tp", 0x004f_8033),
    ("sub ra, x30, a1", 0x40bf_00b3),
    ("sll sp, x29, s2", 0x012e_9133),
    ("slt gp, x28, s9", 0x019e_21b3),
    ("sltu tp, x27, zero", 0x000d_b233),
    ("xor t0, x26, t2", 0x007d_42b3),
    ("srl t1, x25, a4", 0x00ec_d333),
    ("sra t2, x24, s5", 0x415c_53b3),
    ("or s0, x23, t3", 0x01cb_e433),
    ("and s1, x22, gp", 0x003b_74b3),
    ("mul a0, x21, a0", 0x02aa_8533),
    ("mulh a1, x20, a7", 0x031a_15b3),
    ("mulhsu a2, x19, s8", 0x0389_a633),
    ("mulhu a3, x18, t6", 0x03f9_36b3),
    ("div a4, x17, t1", 0x0268_c733),
    ("divu a5, x16, a3", 0x02d8_57b3),
    ("rem a6, x15, s4", 0x0347_e833),
    ("remu a7, x14, s11", 0x03b7_78b3),
    ("addw s2, x13, sp", 0x0026_893b),
    ("subw s3, x12, s1", 0x4096_09bb),
    ("sllw s4, x11, a6", 0x0105_9a3b),
    ("srlw s5, x10, s7", 0x0175_5abb),
    ("sraw s6, x9, t5", 0x41e4_db3b),
    ("mulw s7, x8, t0", 0x0254_0bbb),
    ("divw s8, x7, a2", 0x02c3_cc3b),
    ("divuw s9, x6, s3", 0x0333_5cbb),
    ("remw s10, x5, s10", 0x03a2_ed3b),
    ("remuw s11, x4, ra", 0x0212_7dbb),
    ("slti t3, gp, -2048", 0x8001_ae13),
    ("sltiu t6, t2, 2047", 0x7ff3_bf93),
    ("xori sp, a1, -1", 0xfff5_c113),
    ("ori t0, a5, 0", 0x0007_e293),
    ("andi s0, s3, 1365", 0x5559_f413),
    ("addiw a1, s7, -5", 0xffbb_859b),
    ("addi a4, s11, 39", 0x027d_8713),
    ("addi a1, a1, 0xa0", 0x0a05_8593),
    ("addi sp, sp, -16", 0xff01_0113),
    ("slli s1, s4, 63", 0x03fa_1493),
    ("srli a0, s5, 32", 0x020a_d513),
    ("srai a1, s6, 33", 0x421b_5593),
    ("slliw a2, s7, 31", 0x01fb_961b),
    ("srliw a3, s8, 16", 0x010c_569b),
    ("sraiw a4, s9, 1", 0x401c_d71b),
    ("lb ra, -2048(t6)", 0x800f_8083),
    ("lh sp, 2047(t5)", 0x7fff_1103),
    ("lw gp, 0(t4)", 0x000e_a183),
    ("lw s4, 0x120(s3)", 0x1209_aa03),
    ("ld tp, -8(t3)", 0xff8e_3203),
    ("ld s1, 24(a0)", 0x0185_3483),
    ("lbu t0, 255(s11)", 0x0ffd_c283),
    ("lhu t1, -1(s10)", 0xfffd_5303),
    ("lwu t2, 16(s9)", 0x010c_e383),
    ("jalr s0, -4(s8)", 0xffcc_0467),
    ("jalr ra, 0(s2)", 0x0009_00e7),
    ("sb a1, -2048(s9)", 0x80bc_8023),
    ("sh a2, 2047(s8)", 0x7ecc_1fa3),
    ("sw a3, 31(s7)", 0x00db_afa3),
    ("sd a4, -33(s6)", 0xfceb_3fa3),
    ("sd t0, 8(sp)", 0x0051_3423),
    ("lui a0, 0xfffff", 0xffff_f537),
    ("auipc t6, 0x12345", 0x1234_5f97),
    ("auipc s0, 0", 0x0000_0417),
    ("lui x1, 0", 0x0000_00b7),
    ("beq t0, s4, -4096", 0x8142_8063),
    ("bne t1, s5, 4094", 0x7f53_1fe3),
    ("blt t2, s6, 2048", 0x0163_c0e3),
    ("bge s0, s7, -2", 0xff74_5fe3),
    ("bltu s1, s8, 30", 0x0184_ef63),
    ("bgeu a0, s9, -30", 0xff95_71e3),
    ("jal ra, -1048576", 0x8000_00ef),
    ("jal x0, 1048574", 0x7fff_f06f),
    ("jal t0, 2048", 0x0010_02ef),
    ("jal x31, -2", 0xffff_ffef),
    ("sc.w ra, sp, (gp)", 0x1821_a0af),
    ("amoswap.w.aq t1, t0, (a0)", 0x0c55_232f),
    ("amoadd.w.rl a1, s0, (a7)", 0x0288_a5af),
    ("amoxor.w.aqrl a6, a1, (s8)", 0x26bc_282f),
    ("amoand.w s5, a4, (t6)", 0x60ef_aaaf),
    ("amoor.w.aq s10, a7, (t1)", 0x4513_2d2f),
    ("amomin.w.rl t6, s4, (a3)", 0x8346_afaf),
    ("amomax.w.aqrl tp, s7, (s4)", 0xa77a_222f),
    ("amominu.w s1, s10, (s11)", 0xc1ad_a4af),
    ("amomaxu.w.aq a4, t4, (sp)", 0xe5d1_272f),
    ("sc.d.rl s3, zero, (s1)", 0x1a04_b9af),
    ("amoswap.d.aqrl s8, gp, (a6)", 0x0e38_3c2f),
    ("amoadd.d t4, t1, (s7)", 0x006b_beaf),
    ("amoxor.d.aq sp, s1, (t5)", 0x249f_312f),
    ("amoand.d.rl t2, a2, (t0)", 0x62c2_b3af),
    ("amoor.d.aqrl a2, a5, (a2)", 0x46f6_362f),
    ("amomin.d a7, s2, (s3)", 0x8129_b8af),
    ("amomax.d.aq s6, s5, (s10)", 0xa55d_3b2f),
    ("amominu.d.rl s11, s8, (ra)", 0xc380_bdaf),
    ("amomaxu.d.aqrl zero, s11, (s0)", 0xe7b4_302f),
    ("lr.w a0, (a1)", 0x1005_a52f),
    ("lr.w.rl a0, (a1)", 0x1205_a52f),
    ("lr.d.aq a0, (a1)", 0x1405_b52f),
    ("lr.d.aqrl a0, (a1)", 0x1605_b52f),
    ("ecall", 0x0000_0073),
    ("ebreak", 0x0010_0073),
    ("fence", 0x0ff0_000f),
    ("fence.i", 0x0000_100f),
];

// Texts, and their bytes.
const TEXTS: &[(&str, &[u8])] = &[
    // one instruction
    ("addi a7, zero, 39", &[0x93, 0x8, 0x70, 0x2]),
    // nothing
    ("", &[]),
    // comments, spaces and empty lines
    (
        "  # a comment\n\n  addi   a0 ,a0,  1# one\n   \nfence\n",
        &[0x13, 0x5, 0x15, 0x0, 0xf, 0x0, 0xf0, 0xf],
    ),
    // any text in a comment
    (
        "ecall #\t\"é\0\x7f # \r\n#\x1b\n  # \tecall\t\nfence",
        &[0x73, 0x0, 0x0, 0x0, 0xf, 0x0, 0xf0, 0xf],
    ),
    // labels before and behind their use, one of them with a register's name
    (
        "a0: beq a0, a1, _end2\njal zero, a0\nhere:\nbne a0, a1, here\n_end2:ecall",
        &[
            0x63, 0x6, 0xb5, 0x0, 0x6f, 0xf0, 0xdf, 0xff, 0x63, 0x10, 0xb5, 0x0, 0x73, 0x0, 0x0,
            0x0,
        ],
    ),
    // labels that a branch and a jump go to, and one of a number
    (
        "next: bgeu s0, s1, done\njal zero, next\ndone: .dword 6\n.word 0xffffffff",
        &[
            0x63, 0x74, 0x94, 0x0, 0x6f, 0xf0, 0xdf, 0xff, 0x6, 0x0, 0x0, 0x0, 0x0, 0x0, 0x0, 0x0,
            0xff, 0xff, 0xff, 0xff,
        ],
    ),
    // a comment sign, a colon and spaces inside quotation marks
    (
        ".ascii \"a#b: c \" # \"\n.ascii \"\"\n.ascii \"~!\"",
        &[0x61, 0x23, 0x62, 0x3a, 0x20, 0x63, 0x20, 0x7e, 0x21],
    ),
    // numbers
    (
        ".byte -128\n.byte 0xFf\n.byte 0\n.word -2147483648\n.word 4294967295\n.dword -9223372036854775808\n.dword 0xffffffffffffffff\n.zero 3\n.zero 0\n.byte -0",
        &[
            0x80, 0xff, 0x0, 0x0, 0x0, 0x0, 0x80, 0xff, 0xff, 0xff, 0xff, 0x0, 0x0, 0x0, 0x0, 0x0,
            0x0, 0x0, 0x80, 0xff, 0xff, 0xff, 0xff, 0xff, 0xff, 0xff, 0xff, 0x0, 0x0, 0x0, 0x0,
        ],
    ),
    // la of a label behind
    (
        "la a0, text\necall\ntext: .ascii \"hi\"",
        &[
            0x17, 0x5, 0x0, 0x0, 0x13, 0x5, 0xc5, 0x0, 0x73, 0x0, 0x0, 0x0, 0x68, 0x69,
        ],
    ),
    // la of a label before
    (
        "text: .zero 4\nla t6, text",
        &[
            0x0, 0x0, 0x0, 0x0, 0x97, 0xf, 0x0, 0x0, 0x93, 0x8f, 0xcf, 0xff,
        ],
    ),
];

// Texts, and the words that their bytes begin with.
const FRONTS: &[(&str, &[u32])] = &[
    // the branch that goes furthest
    ("beq a0, a1, b\n.zero 4090\nb:", &[0x7eb5_0fe3]),
    // la whose low part is the greatest
    ("la a0, b\n.zero 2039\nb:", &[0x0000_0517, 0x7ff5_0513]),
    // la whose low part is negative
    ("la a0, b\n.zero 2040\nb:", &[0x0000_1517, 0x8005_0513]),
    // la with both parts
    (
        "la a0, b\n.zero 65536\n.zero 65536\nb:",
        &[0x0002_0517, 0x0085_0513],
    ),
];

// Texts, and the number of the first line that is outside the grammar.
const FAULTS: &[(&str, u32)] = &[
    // an unknown mnemonic
    ("frob", 1),
    // an upper case mnemonic
    ("ECALL", 1),
    // two directives that don't exist
    (".half 1", 1),
    (".rvc", 1),
    // the first of two faults
    ("ecall\nfrob\nfrob", 2),
    // a label that is defined twice
    ("x:\necall\nx:", 3),
    // two labels
    ("a: b: ecall", 1),
    // labels that are none
    ("1a: ecall", 1),
    ("a : ecall", 1),
    (": ecall", 1),
    // an unknown label
    ("jal zero, nowhere", 1),
    ("la a0, nowhere", 1),
    ("la a0, 8", 1),
    // labels on a faulty line and behind one count as defined
    ("jal zero, x\nx: frob", 2),
    ("jal zero, x\nfrob\nx:", 2),
    // a label behind the first faulty line has no distance; one on that line or before it has one
    ("beq a0, a1, b\nfrob\n.zero 4096\nb:", 2),
    ("beq a0, a1, b\n.zero 4096\nfrob\nb:", 3),
    ("jal a0, b\nfrob\n.byte 0\nb:", 2),
    ("beq a0, a1, b\n.zero 4092\nb: frob", 1),
    ("beq a0, a1, b\n.zero 4092\nb:\nfrob", 1),
    ("b: .zero 4096\n.word 0\nbeq a0, a1, b\nfrob", 3),
    // of two lines that can't hold a distance, the first
    ("beq a0, a1, b\nbeq a0, a1, b\n.zero 4096\nb:", 1),
    // a number's distance is looked at
    ("beq a0, a1, 4096\nfrob", 1),
    // registers that are none
    ("addi fp, a0, 1", 1),
    ("addi x32, a0, 1", 1),
    ("addi x01, a0, 1", 1),
    // too few and too many operands
    ("addi a0, a0", 1),
    ("addi a0, a0, 1, 2", 1),
    ("ecall a0", 1),
    // numbers that are none
    ("addi a0, a0, -0x10", 1),
    ("addi a0, a0, 0x", 1),
    ("addi a0, a0, -", 1),
    ("addi a0, a0, +1", 1),
    ("addi a0, a0, 1f", 1),
    ("addi a0, a0, ", 1),
    // one past the limits
    ("addi a0, a0, 2048", 1),
    ("addi a0, a0, -2049", 1),
    ("lw a0, 2048(a1)", 1),
    ("sd a0, -2049(a1)", 1),
    ("slli a0, a0, 64", 1),
    ("sraiw a0, a0, 32", 1),
    ("srli a0, a0, -1", 1),
    ("lui a0, 0x100000", 1),
    ("auipc a0, -1", 1),
    ("beq a0, a1, 4096", 1),
    ("beq a0, a1, -4098", 1),
    ("jal a0, 1048576", 1),
    ("jal a0, -1048578", 1),
    ("beq a0, a1, b\n.zero 4092\nb:", 1),
    ("b: .zero 4096\n.word 0\nbeq a0, a1, b", 3),
    // an odd distance
    ("bne a0, a1, 3", 1),
    ("jal a0, b\n.byte 0\nb:", 1),
    // spaces inside an address
    ("lw a0, 4 (a1)", 1),
    ("lw a0, 4( a1)", 1),
    ("lw a0, 4(a1 )", 1),
    // an address without its parts
    ("lw a0, (a1)", 1),
    ("lw a0, 4(a1", 1),
    ("lw a0, 4", 1),
    ("sc.w a0, a1, 0(a2)", 1),
    ("sc.w a0, a1, a2", 1),
    // an order that is none
    ("lr.w.rlaq a0, (a1)", 1),
    ("lr.x a0, (a1)", 1),
    ("lr.w. a0, (a1)", 1),
    // control characters outside a comment
    ("\tecall", 1),
    ("addi\ta0, a0, 1", 1),
    ("ecall\t# x", 1),
    ("ecall\r\n", 1),
    ("#\t\n\t#", 2),
    (".ascii \"#\t\"", 1),
    // texts that are none
    (".ascii \"a", 1),
    (".ascii a\"", 1),
    (".ascii \"a\\n\"", 1),
    (".ascii \"a\" \"b\"", 1),
    (".ascii \"é\"", 1),
    // numbers that don't fit a directive
    (".byte 256", 1),
    (".byte -129", 1),
    (".word 4294967296", 1),
    (".word -2147483649", 1),
    (".dword 18446744073709551616", 1),
    (".dword -9223372036854775809", 1),
    (".zero 65537", 1),
    (".zero -1", 1),
    (".byte 1, 2", 1),
    // instructions that don't stand at a multiple of 4
    (".byte 1\necall", 2),
    (".zero 2\nx: la a0, x", 2),
];

// Whether a text has these bytes.
fn has_bytes(alloc: Global, text: &str, bytes: &[u8]) -> Result<bool, AsmFault> {
    Ok(assemble(alloc, text)?.as_slice() == bytes)
}

// Whether a text's bytes are this word.
fn is_word(alloc: Global, text: &str, word: u32) -> Result<bool, AsmFault> {
    has_bytes(alloc, text, &word.to_le_bytes())
}

// Whether a text's bytes begin with these words.
fn begins_with(alloc: Global, text: &str, words: &[u32]) -> Result<bool, AsmFault> {
    let bytes = assemble(alloc, text)?;
    let mut rest = bytes.as_slice();
    for word in words {
        if !rest.starts_with(&word.to_le_bytes()) {
            return Ok(false);
        }
        rest = rest.get(4..).unwrap_or(b"");
    }
    Ok(true)
}

#[test]
fn lines(rt: HostRuntime) -> Result<(), Fail> {
    for &(text, word) in LINES {
        assert_eq!(rt; is_word(rt.alloc(), text, word), Ok(true), "{text}");
    }
    Ok(())
}

#[test]
fn texts(rt: HostRuntime) -> Result<(), Fail> {
    for &(text, bytes) in TEXTS {
        assert_eq!(rt; has_bytes(rt.alloc(), text, bytes), Ok(true), "{text}");
    }
    Ok(())
}

#[test]
fn fronts(rt: HostRuntime) -> Result<(), Fail> {
    for &(text, words) in FRONTS {
        assert_eq!(rt; begins_with(rt.alloc(), text, words), Ok(true), "{text}");
    }
    Ok(())
}

#[test]
fn faults(rt: HostRuntime) -> Result<(), Fail> {
    for &(text, line) in FAULTS {
        let found = has_bytes(rt.alloc(), text, b"");
        assert_eq!(rt; found, Err(AsmFault::Line(line)), "{text}");
    }
    Ok(())
}
