//! What words are decoded to, and what operations on registers give, where no run of a guest shows it.
use rv_code::{Instr, Op, alu, decode};
use std::test::Fail;

// Words that go to no multiple of 4 where they jump, which is a trap wherever it is, with the operation, the registers rd, rs1 and
// rs2, and the immediate.
const WORDS: &[(u32, Op, [u32; 3], i64)] = &[
    (0x7fef_f06f, Op::Jal, [0, 0, 0], 1046526), // jal x0, .+0xff7fe
    (0x7f36_1fe3, Op::Bne, [0, 12, 19], 4094), // bne a2, s3, .+4094
    (0xff36_5fe3, Op::Bge, [0, 12, 19], -2), // bge a2, s3, .-2
    (0x0136_6f63, Op::Bltu, [0, 12, 19], 30), // bltu a2, s3, .+30
    (0xff36_71e3, Op::Bgeu, [0, 12, 19], -30), // bgeu a2, s3, .-30
];

// Operands of which the second is no immediate.
const OPERANDS: [(u64, u64); 2] = [
    (0x8000_0000, 0xffff_ffff),
    (0x1234_5678_9abc_def0, 0xfedc_ba98_7654_3f21),
];

// What operations with an immediate give for those operands, computed by the manual's rules in exact integers of another
// language.
const RESULTS: &[(Op, [u64; 2])] = &[
    (Op::Addi, [0x1_7fff_ffff, 0x1111_1111_1111_1e11]),
    (Op::Slti, [1, 0]),
    (Op::Sltiu, [1, 1]),
    (Op::Xori, [0x7fff_ffff, 0xece8_ece0_ece8_e1d1]),
    (Op::Ori, [0xffff_ffff, 0xfefc_fef8_fefc_fff1]),
    (Op::Andi, [0x8000_0000, 0x1214_1218_1214_1e20]),
    (Op::Addiw, [0x7fff_ffff, 0x1111_1e11]),
];

// What an operation gives for each of those operands.
fn results(op: Op) -> [u64; 2] {
    OPERANDS.map(|(a, b)| alu(op, a, b))
}

#[test]
fn operations(rt: HostRuntime) -> Result<(), Fail> {
    for (i, &(op, want)) in RESULTS.iter().enumerate() {
        assert_eq!(rt; results(op), want, "row {i}");
    }
    Ok(())
}

#[test]
fn words_of_an_assembler(rt: HostRuntime) -> Result<(), Fail> {
    for &(word, op, [rd, rs1, rs2], imm) in WORDS {
        let instr = Instr {
            op,
            rd,
            rs1,
            rs2,
            imm,
        };
        assert!(rt; decode(word) == Some(instr), "{word:x}");
    }
    Ok(())
}
