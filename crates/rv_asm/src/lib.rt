//! An assembler for programs of the RISC-V machine: RV64IM with A and Zifencei, and directives for data. It also writes ELF
//! files of code.
//!
//! A text is split into lines at its line feeds. `#` begins a comment outside quotation marks, and any text may stand in it.
//! Spaces at a line's ends are dropped, and an empty line stands for nothing. A line with a control character, such as a tab,
//! outside its comment is outside the grammar. A line is an optional label with a colon, and an optional instruction or
//! directive, whose operands stand behind spaces and are separated by commas, with spaces allowed round them.
//!
//! A label is a letter or `_` followed by letters, digits and `_`, and is defined once. It may have a register's name. A
//! label of a line that is outside the grammar counts as defined. Registers are `x0` to `x31`, or have the names of the
//! RISC-V ABI, but for `fp`. A number N is decimal, perhaps behind `-`, or hexadecimal behind `0x`.
//!
//! | operands | mnemonics |
//! |---|---|
//! | `rd, rs1, rs2` | the operations of opcodes 0x33 and 0x3b |
//! | `rd, rs1, N` | ADDI, SLTI, SLTIU, XORI, ORI, ANDI and ADDIW, with 12 bits; shifts, with 0 to 63, or 0 to 31 on words |
//! | `rd, N(rs1)` | loads and JALR, with 12 bits |
//! | `rs2, N(rs1)` | stores, with 12 bits |
//! | `rd, N` | LUI and AUIPC, with 0 to 0xfffff: bits 31 to 12 of the word |
//! | `rs1, rs2, T` | branches |
//! | `rd, T` | JAL |
//! | `rd, (rs1)` | LR, with `.w` or `.d`, and then nothing, `.aq`, `.rl` or `.aqrl` |
//! | `rd, rs2, (rs1)` | SC and the AMOs, likewise |
//! | none | ECALL, EBREAK, FENCE (0x0ff0000f) and FENCE.I (0x0000100f) |
//! | `rd, LABEL` | `la`: AUIPC and ADDI, which together put the label's address into the register |
//! | `N` | `.byte`, `.word` and `.dword`, with a signed or unsigned number of 8, 32 or 64 bits; `.zero`, with 0 to 65,536 |
//! | `"TEXT"` | `.ascii`, with ASCII from 0x20 to 0x7e but the quotation mark and the backslash |
//!
//! A target T is a label, or an even distance in bytes; the distance of a label, from the instruction, must be one that the
//! instruction can hold. A label behind a line that is outside the grammar wherever labels are has no distance, and no line
//! is outside the grammar for it. Addresses count from 0 at the text's start. An instruction stands at a multiple of 4. Numbers are
//! little-endian.
#![tactic(auto)]

pub use assembly::{AsmFault, assemble};
pub use elf_file::write_elf;

mod assembly;
mod directives;
mod elf_file;
mod instructions;
mod piece;
mod place;
mod statement;
