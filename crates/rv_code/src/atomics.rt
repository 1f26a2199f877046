//! The operations of opcode 0x2f (RISC-V unprivileged manual, "A" Extension for Atomic Instructions).
ghost use Rattle.std.specs.Prelude.{◌≡◌};
ghost use Rattle.rv_code.specs.Rows.{atomic_word_row_of, atomic_double_row_of, word_atomic_of, double_atomic_of, atomic_row_of};

use crate::instr::Op;

// Opcode 0x2f with f3 2, on words, but for LR.
fn atomic_word_row(funct5: u32) -> Option<Op>
    ensures { result ≡ atomic_word_row_of funct5 }
{
    match funct5 {
        3 => Some(Op::ScW),
        1 => Some(Op::AmoswapW),
        0 => Some(Op::AmoaddW),
        4 => Some(Op::AmoxorW),
        12 => Some(Op::AmoandW),
        8 => Some(Op::AmoorW),
        16 => Some(Op::AmominW),
        20 => Some(Op::AmomaxW),
        24 => Some(Op::AmominuW),
        28 => Some(Op::AmomaxuW),
        _ => None,
    }
}

// Opcode 0x2f with f3 3, on double words, but for LR.
fn atomic_double_row(funct5: u32) -> Option<Op>
    ensures { result ≡ atomic_double_row_of funct5 }
{
    match funct5 {
        3 => Some(Op::ScD),
        1 => Some(Op::AmoswapD),
        0 => Some(Op::AmoaddD),
        4 => Some(Op::AmoxorD),
        12 => Some(Op::AmoandD),
        8 => Some(Op::AmoorD),
        16 => Some(Op::AmominD),
        20 => Some(Op::AmomaxD),
        24 => Some(Op::AmominuD),
        28 => Some(Op::AmomaxuD),
        _ => None,
    }
}

// Opcode 0x2f with funct3 2, on words. LR names no second register.
fn word_atomic(funct5: u32, rs2: u32) -> Option<Op>
    ensures { result ≡ word_atomic_of funct5 rs2 }
{
    match (funct5, rs2) {
        (2, 0) => Some(Op::LrW),
        (2, _) => None,
        _ => atomic_word_row(funct5),
    }
}

// Opcode 0x2f with funct3 3, on double words. LR names no second register.
fn double_atomic(funct5: u32, rs2: u32) -> Option<Op>
    ensures { result ≡ double_atomic_of funct5 rs2 }
{
    match (funct5, rs2) {
        (2, 0) => Some(Op::LrD),
        (2, _) => None,
        _ => atomic_double_row(funct5),
    }
}

/// Opcode 0x2f, atomics.
pub fn atomic_row(funct3: u32, funct5: u32, rs2: u32) -> Option<Op>
    ensures { result ≡ atomic_row_of funct3 funct5 rs2 }
{
    match funct3 {
        2 => word_atomic(funct5, rs2),
        3 => double_atomic(funct5, rs2),
        _ => None,
    }
}
