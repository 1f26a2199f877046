//! The operation of each row of the listings (RISC-V unprivileged manual, "RV32/64G Instruction Set Listings"). `None` exactly
//! for what the row lacks.
ghost use Rattle.std.specs.Prelude.{◌≡◌};
ghost use Rattle.rv_code.specs.Rows.{jump_row_of, branch_row_of, load_row_of, store_row_of, immediate_row_of, shift_row_of, word_immediate_row_of, word_shift_row_of, register_row_of, word_row_of, fence_row_of, system_row_of};

use crate::instr::Op;

/// Opcode 0x67, the jump to a register.
pub fn jump_row(funct3: u32) -> Option<Op>
    ensures { result ≡ jump_row_of funct3 }
{
    match funct3 {
        0 => Some(Op::Jalr),
        _ => None,
    }
}

/// Opcode 0x63, branches.
pub fn branch_row(funct3: u32) -> Option<Op>
    ensures { result ≡ branch_row_of funct3 }
{
    match funct3 {
        0 => Some(Op::Beq),
        1 => Some(Op::Bne),
        4 => Some(Op::Blt),
        5 => Some(Op::Bge),
        6 => Some(Op::Bltu),
        7 => Some(Op::Bgeu),
        _ => None,
    }
}

/// Opcode 0x03, loads.
pub fn load_row(funct3: u32) -> Option<Op>
    ensures { result ≡ load_row_of funct3 }
{
    match funct3 {
        0 => Some(Op::Lb),
        1 => Some(Op::Lh),
        2 => Some(Op::Lw),
        3 => Some(Op::Ld),
        4 => Some(Op::Lbu),
        5 => Some(Op::Lhu),
        6 => Some(Op::Lwu),
        _ => None,
    }
}

/// Opcode 0x23, stores.
pub fn store_row(funct3: u32) -> Option<Op>
    ensures { result ≡ store_row_of funct3 }
{
    match funct3 {
        0 => Some(Op::Sb),
        1 => Some(Op::Sh),
        2 => Some(Op::Sw),
        3 => Some(Op::Sd),
        _ => None,
    }
}

/// Opcode 0x13 with an immediate.
pub fn immediate_row(funct3: u32) -> Option<Op>
    ensures { result ≡ immediate_row_of funct3 }
{
    match funct3 {
        0 => Some(Op::Addi),
        2 => Some(Op::Slti),
        3 => Some(Op::Sltiu),
        4 => Some(Op::Xori),
        6 => Some(Op::Ori),
        7 => Some(Op::Andi),
        _ => None,
    }
}

/// Opcode 0x13, shifts.
pub fn shift_row(funct6: u32, funct3: u32) -> Option<Op>
    ensures { result ≡ shift_row_of funct6 funct3 }
{
    match (funct6, funct3) {
        (0, 1) => Some(Op::Slli),
        (0, 5) => Some(Op::Srli),
        (16, 5) => Some(Op::Srai),
        _ => None,
    }
}

/// Opcode 0x1b with an immediate.
pub fn word_immediate_row(funct3: u32) -> Option<Op>
    ensures { result ≡ word_immediate_row_of funct3 }
{
    match funct3 {
        0 => Some(Op::Addiw),
        _ => None,
    }
}

/// Opcode 0x1b, shifts of words.
pub fn word_shift_row(funct7: u32, funct3: u32) -> Option<Op>
    ensures { result ≡ word_shift_row_of funct7 funct3 }
{
    match (funct7, funct3) {
        (0, 1) => Some(Op::Slliw),
        (0, 5) => Some(Op::Srliw),
        (32, 5) => Some(Op::Sraiw),
        _ => None,
    }
}

/// Opcode 0x33, operations on two registers.
pub fn register_row(funct7: u32, funct3: u32) -> Option<Op>
    ensures { result ≡ register_row_of funct7 funct3 }
{
    match (funct7, funct3) {
        (0, 0) => Some(Op::Add),
        (0, 1) => Some(Op::Sll),
        (0, 2) => Some(Op::Slt),
        (0, 3) => Some(Op::Sltu),
        (0, 4) => Some(Op::Xor),
        (0, 5) => Some(Op::Srl),
        (0, 6) => Some(Op::Or),
        (0, 7) => Some(Op::And),
        (32, 0) => Some(Op::Sub),
        (32, 5) => Some(Op::Sra),
        (1, 0) => Some(Op::Mul),
        (1, 1) => Some(Op::Mulh),
        (1, 2) => Some(Op::Mulhsu),
        (1, 3) => Some(Op::Mulhu),
        (1, 4) => Some(Op::Div),
        (1, 5) => Some(Op::Divu),
        (1, 6) => Some(Op::Rem),
        (1, 7) => Some(Op::Remu),
        _ => None,
    }
}

/// Opcode 0x3b, operations on the words of two registers.
pub fn word_row(funct7: u32, funct3: u32) -> Option<Op>
    ensures { result ≡ word_row_of funct7 funct3 }
{
    match (funct7, funct3) {
        (0, 0) => Some(Op::Addw),
        (0, 1) => Some(Op::Sllw),
        (0, 5) => Some(Op::Srlw),
        (32, 0) => Some(Op::Subw),
        (32, 5) => Some(Op::Sraw),
        (1, 0) => Some(Op::Mulw),
        (1, 4) => Some(Op::Divw),
        (1, 5) => Some(Op::Divuw),
        (1, 6) => Some(Op::Remw),
        (1, 7) => Some(Op::Remuw),
        _ => None,
    }
}

/// Opcode 0x0f, fences.
pub fn fence_row(funct3: u32) -> Option<Op>
    ensures { result ≡ fence_row_of funct3 }
{
    match funct3 {
        0 => Some(Op::Fence),
        1 => Some(Op::FenceI),
        _ => None,
    }
}

/// Opcode 0x73, whose instructions are whole words.
pub fn system_row(word: u32) -> Option<Op>
    ensures { result ≡ system_row_of word }
{
    match word {
        0x73 => Some(Op::Ecall),
        0x10_0073 => Some(Op::Ebreak),
        _ => None,
    }
}
