//! What an operation on two registers gives (RISC-V unprivileged manual, "Integer Computational Instructions").
ghost use Rattle.std.specs.Prelude.{◌≡◌};
ghost use Rattle.rv_code.specs.Operations.{alu_of, sra_of, slt_of, sltu_of};

use crate::division::{div, divu, rem, remu};
use crate::instr::Op;
use crate::multiplication::{mulh, mulhsu, mulhu};
use crate::words::{addw, divuw, divw, low, mulw, remuw, remw, sllw, sraw, srlw, subw};

// SRA and SRAI.
fn sra(a: u64, b: u64) -> u64
    ensures { result ≡ sra_of a b }
{
    (a.cast_signed() >> (b % 64)).cast_unsigned()
}

// SLT and SLTI.
fn slt(a: u64, b: u64) -> u64
    ensures { result ≡ slt_of a b }
{
    u64::from(a.cast_signed() < b.cast_signed())
}

// SLTU and SLTIU.
fn sltu(a: u64, b: u64) -> u64
    ensures { result ≡ sltu_of a b }
{
    u64::from(a < b)
}

/// What the operation gives for two registers, or for a register and an immediate that is sign-extended. 0 for an
/// operation that is of no opcode among 0x13, 0x1b, 0x33 and 0x3b.
#[inline(always)]
pub fn alu(op: Op, a: u64, b: u64) -> u64
    ensures { result ≡ alu_of op a b }
{
    match op {
        Op::Addi | Op::Add => a.wrapping_add(b),
        Op::Sub => a.wrapping_sub(b),
        Op::Slti | Op::Slt => slt(a, b),
        Op::Sltiu | Op::Sltu => sltu(a, b),
        Op::Xori | Op::Xor => a ^ b,
        Op::Ori | Op::Or => a | b,
        Op::Andi | Op::And => a & b,
        Op::Slli | Op::Sll => a << (b % 64),
        Op::Srli | Op::Srl => a >> (b % 64),
        Op::Srai | Op::Sra => sra(a, b),
        Op::Mul => a.wrapping_mul(b),
        Op::Mulh => mulh(a, b),
        Op::Mulhsu => mulhsu(a, b),
        Op::Mulhu => mulhu(a, b),
        Op::Div => div(a, b),
        Op::Divu => divu(a, b),
        Op::Rem => rem(a, b),
        Op::Remu => remu(a, b),
        Op::Addiw | Op::Addw => addw(a, b),
        Op::Subw => subw(a, b),
        Op::Slliw | Op::Sllw => sllw(a, b),
        Op::Srliw | Op::Srlw => srlw(a, b),
        Op::Sraiw | Op::Sraw => sraw(a, b),
        Op::Mulw => mulw(a, b),
        Op::Divw => divw(low(a), low(b)),
        Op::Divuw => divuw(low(a), low(b)),
        Op::Remw => remw(low(a), low(b)),
        Op::Remuw => remuw(low(a), low(b)),
        _ => 0,
    }
}
