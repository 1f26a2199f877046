//! The fields of a word that stand for its operation (RISC-V unprivileged manual, "RV32/64G Instruction Set Listings").
ghost use Rattle.std.specs.Prelude.{◌≡◌, ◌<◌, ◌/◌, ◌%◌, ◌==◌, ◌||◌, IsTrue, ℕ};
ghost use Rattle.rv_code.specs.Rows.{shift_row_of, word_shift_row_of, store_row_of, branch_row_of, atomic_row_of};
ghost use Rattle.rv_words.specs.Encoding.{register_operation, immediate_operation, upper_operation};
ghost use Rattle.rv_words.specs.Ops.{is_register, is_immediate, is_shift, is_word_shift, is_store, is_branch, is_atomic, is_reserve, is_upper};

use rv_code::Op;

/// The opcode, funct3 and funct7 of an operation.
#[derive(Clone, Copy)]
pub struct Row {
    pub opcode: u32,
    pub funct3: u32,
    pub funct7: u32,
}

/// Of an operation on two registers.
pub fn register_row(op: Op) -> Row
    requires { IsTrue (is_register op) }
    ensures bounds { (result.opcode < 128) × (result.funct3 < 8) × (result.funct7 < 128) }
    ensures operation { register_operation result.opcode result.funct3 result.funct7 ≡ Some op }
{
    let (opcode, funct3, funct7) = match op {
        Op::Add => (0x33, 0, 0),
        Op::Sub => (0x33, 0, 0x20),
        Op::Sll => (0x33, 1, 0),
        Op::Slt => (0x33, 2, 0),
        Op::Sltu => (0x33, 3, 0),
        Op::Xor => (0x33, 4, 0),
        Op::Srl => (0x33, 5, 0),
        Op::Sra => (0x33, 5, 0x20),
        Op::Or => (0x33, 6, 0),
        Op::And => (0x33, 7, 0),
        Op::Mul => (0x33, 0, 1),
        Op::Mulh => (0x33, 1, 1),
        Op::Mulhsu => (0x33, 2, 1),
        Op::Mulhu => (0x33, 3, 1),
        Op::Div => (0x33, 4, 1),
        Op::Divu => (0x33, 5, 1),
        Op::Rem => (0x33, 6, 1),
        Op::Remu => (0x33, 7, 1),
        Op::Addw => (0x3b, 0, 0),
        Op::Subw => (0x3b, 0, 0x20),
        Op::Sllw => (0x3b, 1, 0),
        Op::Srlw => (0x3b, 5, 0),
        Op::Sraw => (0x3b, 5, 0x20),
        Op::Mulw => (0x3b, 0, 1),
        Op::Divw => (0x3b, 4, 1),
        Op::Divuw => (0x3b, 5, 1),
        Op::Remw => (0x3b, 6, 1),
        Op::Remuw => (0x3b, 7, 1),
        _ => unreachable!(),
    };
    Row {
        opcode,
        funct3,
        funct7,
    }
}

/// Of an operation on a register and an immediate of 12 bits. It has no funct7.
pub fn immediate_row(op: Op) -> Row
    requires { IsTrue (is_immediate op) }
    ensures bounds { (result.opcode < 128) × (result.funct3 < 8) }
    ensures operation { immediate_operation result.opcode result.funct3 ≡ Some op }
{
    let (opcode, funct3) = match op {
        Op::Addi => (0x13, 0),
        Op::Slti => (0x13, 2),
        Op::Sltiu => (0x13, 3),
        Op::Xori => (0x13, 4),
        Op::Ori => (0x13, 6),
        Op::Andi => (0x13, 7),
        Op::Addiw => (0x1b, 0),
        Op::Lb => (0x03, 0),
        Op::Lh => (0x03, 1),
        Op::Lw => (0x03, 2),
        Op::Ld => (0x03, 3),
        Op::Lbu => (0x03, 4),
        Op::Lhu => (0x03, 5),
        Op::Lwu => (0x03, 6),
        Op::Jalr => (0x67, 0),
        _ => unreachable!(),
    };
    Row {
        opcode,
        funct3,
        funct7: 0,
    }
}

/// Of a shift of 64 bits. The lowest bit of its funct7 is the highest of the amount, and 0 here.
pub fn shift_row(op: Op) -> Row
    requires { IsTrue (is_shift op) }
    ensures bounds { (result.funct3 < 8) × (result.funct7 < 127) × (result.funct7 % 2 ≡ 0) }
    ensures opcode { result.opcode ≡ 0x13 }
    ensures operation { shift_row_of (result.funct7 / 2) result.funct3 ≡ Some op }
    ensures shifts { IsTrue (result.funct3 == 1 || result.funct3 == 5) }
{
    let (funct3, funct7) = match op {
        Op::Slli => (1, 0),
        Op::Srli => (5, 0),
        Op::Srai => (5, 0x20),
        _ => unreachable!(),
    };
    Row {
        opcode: 0x13,
        funct3,
        funct7,
    }
}

/// Of a shift of 32 bits.
pub fn word_shift_row(op: Op) -> Row
    requires { IsTrue (is_word_shift op) }
    ensures bounds { (result.funct3 < 8) × (result.funct7 < 128) }
    ensures opcode { result.opcode ≡ 0x1b }
    ensures operation { word_shift_row_of result.funct7 result.funct3 ≡ Some op }
    ensures shifts { IsTrue (result.funct3 == 1 || result.funct3 == 5) }
{
    let (funct3, funct7) = match op {
        Op::Slliw => (1, 0),
        Op::Srliw => (5, 0),
        Op::Sraiw => (5, 0x20),
        _ => unreachable!(),
    };
    Row {
        opcode: 0x1b,
        funct3,
        funct7,
    }
}

/// The opcode of LUI and AUIPC.
pub fn upper_opcode(op: Op) -> u32
    requires { IsTrue (is_upper op) }
    ensures bounds { result < 128 }
    ensures operation { upper_operation result ≡ Some op }
{
    match op {
        Op::Lui => 0x37,
        Op::Auipc => 0x17,
        _ => unreachable!(),
    }
}

/// The funct3 of a store.
pub fn store_funct3(op: Op) -> u32
    requires { IsTrue (is_store op) }
    ensures bounds { result < 8 }
    ensures operation { store_row_of result ≡ Some op }
{
    match op {
        Op::Sb => 0,
        Op::Sh => 1,
        Op::Sw => 2,
        Op::Sd => 3,
        _ => unreachable!(),
    }
}

/// The funct3 of a branch.
pub fn branch_funct3(op: Op) -> u32
    requires { IsTrue (is_branch op) }
    ensures bounds { result < 8 }
    ensures operation { branch_row_of result ≡ Some op }
{
    match op {
        Op::Beq => 0,
        Op::Bne => 1,
        Op::Blt => 4,
        Op::Bge => 5,
        Op::Bltu => 6,
        Op::Bgeu => 7,
        _ => unreachable!(),
    }
}

/// The funct3 and the five highest bits of an atomic instruction, but LR.
pub fn atomic_row(op: Op) -> (u32, u32)
    requires { IsTrue (is_atomic op) }
    ensures bounds { (result.0 < 8) × (result.1 < 32) }
    ensures operation { (rs2 : ℕ) → atomic_row_of result.0 result.1 rs2 ≡ Some op }
{
    match op {
        Op::AmoaddW => (2, 0),
        Op::AmoswapW => (2, 1),
        Op::ScW => (2, 3),
        Op::AmoxorW => (2, 4),
        Op::AmoorW => (2, 8),
        Op::AmoandW => (2, 12),
        Op::AmominW => (2, 16),
        Op::AmomaxW => (2, 20),
        Op::AmominuW => (2, 24),
        Op::AmomaxuW => (2, 28),
        Op::AmoaddD => (3, 0),
        Op::AmoswapD => (3, 1),
        Op::ScD => (3, 3),
        Op::AmoxorD => (3, 4),
        Op::AmoorD => (3, 8),
        Op::AmoandD => (3, 12),
        Op::AmominD => (3, 16),
        Op::AmomaxD => (3, 20),
        Op::AmominuD => (3, 24),
        Op::AmomaxuD => (3, 28),
        _ => unreachable!(),
    }
}

/// The funct3 of LR.
pub fn reserve_funct3(op: Op) -> u32
    requires { IsTrue (is_reserve op) }
    ensures bounds { result < 8 }
    ensures operation { atomic_row_of result 2 0 ≡ Some op }
{
    match op {
        Op::LrW => 2,
        Op::LrD => 3,
        _ => unreachable!(),
    }
}
