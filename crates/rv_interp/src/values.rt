//! What instructions decide and compute besides the operations on registers.
ghost use Rattle.std.specs.Prelude.{◌≡◌, ◌%◌, ◌^◌};
ghost use Rattle.rv_interp.specs.Values.{is_taken, extended_byte, extended_half, extended_word, loaded_value, word_value, double_value, atomic_value};

use rv_code::Op;

/// When a branch is taken, by the numbers of its two registers (RISC-V unprivileged manual, "Conditional Branches").
#[derive(Clone, Copy)]
pub enum Condition {
    /// BEQ: both are the same number.
    Equal,
    /// BNE: they are different numbers.
    NotEqual,
    /// BLT: the first is less, both in two's complement.
    Less,
    /// BGE: the first is greater or the same, both in two's complement.
    GreaterOrEqual,
    /// BLTU: the first is less, both below 2^64.
    LessUnsigned,
    /// BGEU: the first is greater or the same, both below 2^64.
    GreaterOrEqualUnsigned,
}

/// What an atomic instruction writes to memory, by what it read and the second register's number, both words or both
/// double words (RISC-V unprivileged manual, "Atomic Memory Operations").
#[derive(Clone, Copy)]
pub enum AtomicOperation {
    /// AMOSWAP: the second register's number.
    Swap,
    /// AMOADD: the sum, modulo 2^32 or 2^64.
    Add,
    /// AMOXOR: the exclusive or, bit by bit.
    Xor,
    /// AMOAND: the and, bit by bit.
    And,
    /// AMOOR: the or, bit by bit.
    Or,
    /// AMOMIN: the smaller, both in two's complement.
    Min,
    /// AMOMAX: the greater, both in two's complement.
    Max,
    /// AMOMINU: the smaller, both without a sign.
    MinUnsigned,
    /// AMOMAXU: the greater, both without a sign.
    MaxUnsigned,
}

/// Whether a branch on these two numbers is taken.
#[inline(always)]
pub fn is_taken(condition: Condition, a: u64, b: u64) -> bool
    ensures { result ≡ is_taken condition a b }
{
    match condition {
        Condition::Equal => a == b,
        Condition::NotEqual => a != b,
        Condition::Less => a.cast_signed() < b.cast_signed(),
        Condition::GreaterOrEqual => !(a.cast_signed() < b.cast_signed()),
        Condition::LessUnsigned => a < b,
        Condition::GreaterOrEqualUnsigned => !(a < b),
    }
}

// The low byte, sign-extended.
fn extended_byte(v: u64) -> u64
    ensures { result ≡ extended_byte v }
{
    i64::from(((v % 0x100) as u8).cast_signed()).cast_unsigned()
}

// The low half word, sign-extended.
fn extended_half(v: u64) -> u64
    ensures { result ≡ extended_half v }
{
    i64::from(((v % 0x1_0000) as u16).cast_signed()).cast_unsigned()
}

// The low word, sign-extended.
fn extended_word(v: u64) -> u64
    ensures { result ≡ extended_word v }
{
    i64::from(low(v).cast_signed()).cast_unsigned()
}

// The low word.
fn low(v: u64) -> u32
    ensures { result ≡ v % 2 ^ 32 }
{
    (v % 0x1_0000_0000) as u32
}

/// What a load or an atomic instruction writes to its register, where this number was read.
#[inline(always)]
pub fn loaded_value(op: Op, v: u64) -> u64
    ensures { result ≡ loaded_value op v }
{
    match op {
        Op::Lb => extended_byte(v),
        Op::Lh => extended_half(v),
        Op::Lw | Op::LrW | Op::AmoswapW | Op::AmoaddW | Op::AmoxorW | Op::AmoandW => extended_word(
            v,
        ),
        Op::AmoorW | Op::AmominW | Op::AmomaxW | Op::AmominuW | Op::AmomaxuW => extended_word(v),
        Op::Ld | Op::Lbu | Op::Lhu | Op::Lwu | Op::LrD | Op::ScW | Op::ScD | Op::AmoswapD => v,
        Op::AmoaddD | Op::AmoxorD | Op::AmoandD | Op::AmoorD | Op::AmominD | Op::AmomaxD => v,
        Op::AmominuD | Op::AmomaxuD => v,
        Op::Lui | Op::Auipc | Op::Jal | Op::Jalr | Op::Beq | Op::Bne | Op::Blt | Op::Bge => v,
        Op::Bltu | Op::Bgeu | Op::Sb | Op::Sh | Op::Sw | Op::Sd | Op::Addi | Op::Slti => v,
        Op::Sltiu | Op::Xori | Op::Ori | Op::Andi | Op::Slli | Op::Srli | Op::Srai => v,
        Op::Addiw | Op::Slliw | Op::Srliw | Op::Sraiw | Op::Add | Op::Sub | Op::Sll => v,
        Op::Slt | Op::Sltu | Op::Xor | Op::Srl | Op::Sra | Op::Or | Op::And | Op::Mul => v,
        Op::Mulh | Op::Mulhsu | Op::Mulhu | Op::Div | Op::Divu | Op::Rem | Op::Remu => v,
        Op::Addw | Op::Subw | Op::Sllw | Op::Srlw | Op::Sraw | Op::Mulw | Op::Divw => v,
        Op::Divuw | Op::Remw | Op::Remuw | Op::Fence | Op::FenceI | Op::Ecall | Op::Ebreak => v,
    }
}

// What an atomic instruction on words writes, where `a` was read and `b` is the second register's low word.
fn word_value(operation: AtomicOperation, a: u32, b: u32) -> u32
    ensures { result ≡ word_value operation a b }
{
    let is_less = a.cast_signed() < b.cast_signed();
    match operation {
        AtomicOperation::Swap => b,
        AtomicOperation::Add => a.wrapping_add(b),
        AtomicOperation::Xor => a ^ b,
        AtomicOperation::And => a & b,
        AtomicOperation::Or => a | b,
        AtomicOperation::Min => if is_less { a } else { b },
        AtomicOperation::Max => if is_less { b } else { a },
        AtomicOperation::MinUnsigned => if a < b { a } else { b },
        AtomicOperation::MaxUnsigned => if a < b { b } else { a },
    }
}

// What an atomic instruction on double words writes, where `a` was read and `b` is the second register's number.
fn double_value(operation: AtomicOperation, a: u64, b: u64) -> u64
    ensures { result ≡ double_value operation a b }
{
    let is_less = a.cast_signed() < b.cast_signed();
    match operation {
        AtomicOperation::Swap => b,
        AtomicOperation::Add => a.wrapping_add(b),
        AtomicOperation::Xor => a ^ b,
        AtomicOperation::And => a & b,
        AtomicOperation::Or => a | b,
        AtomicOperation::Min => if is_less { a } else { b },
        AtomicOperation::Max => if is_less { b } else { a },
        AtomicOperation::MinUnsigned => if a < b { a } else { b },
        AtomicOperation::MaxUnsigned => if a < b { b } else { a },
    }
}

/// What an atomic instruction of this width writes, where `a` was read and `b` is the second register's number.
pub fn atomic_value(width: u32, operation: AtomicOperation, a: u64, b: u64) -> u64
    ensures { result ≡ atomic_value width operation a b }
{
    if width == 4 {
        u64::from(word_value(operation, low(a), low(b)))
    } else {
        double_value(operation, a, b)
    }
}
