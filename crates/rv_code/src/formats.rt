//! Instructions of each format (RISC-V unprivileged manual, "Base Instruction Formats"). `None` for no operation.
ghost use Rattle.std.specs.Prelude.{◌≡◌, IfSome};
ghost use Rattle.rv_code.specs.Formats.{rd_of, rs1_of, rs2_of, format_r_of, format_i_of, shift_of, word_shift_of, format_s_of, format_b_of, format_u_of, format_j_of, bare_of, each, NamesRegisters};

use crate::immediates::{immediate_b, immediate_i, immediate_j, immediate_s, immediate_u};
use crate::instr::{Instr, Op};

// The register that is written: bits 11 to 7.
fn rd(word: u32) -> u32
    ensures { result ≡ rd_of word }
{
    (word >> 7) % 32
}

// The first register that is read: bits 19 to 15.
fn rs1(word: u32) -> u32
    ensures { result ≡ rs1_of word }
{
    (word >> 15) % 32
}

/// The second register that is read: bits 24 to 20.
pub fn rs2(word: u32) -> u32
    ensures { result ≡ rs2_of word }
{
    (word >> 20) % 32
}

/// Format R: two registers and no immediate.
pub fn format_r(word: u32, op: Option<Op>) -> Option<Instr>
    ensures exact { result ≡ each (format_r_of word) op }
    ensures registers { IfSome result NamesRegisters }
{
    let op = op?;
    Some(Instr {
        op,
        rd: rd(word),
        rs1: rs1(word),
        rs2: rs2(word),
        imm: 0,
    })
}

/// Format I.
pub fn format_i(word: u32, op: Option<Op>) -> Option<Instr>
    ensures exact { result ≡ each (format_i_of word) op }
    ensures registers { IfSome result NamesRegisters }
{
    let op = op?;
    Some(Instr {
        op,
        rd: rd(word),
        rs1: rs1(word),
        rs2: 0,
        imm: immediate_i(word),
    })
}

/// A shift of 64 bits by an amount.
pub fn shift(word: u32, op: Option<Op>) -> Option<Instr>
    ensures exact { result ≡ each (shift_of word) op }
    ensures registers { IfSome result NamesRegisters }
{
    let op = op?;
    Some(Instr {
        op,
        rd: rd(word),
        rs1: rs1(word),
        rs2: 0,
        imm: i64::from((word >> 20) % 64),
    })
}

/// A shift of 32 bits by an amount.
pub fn word_shift(word: u32, op: Option<Op>) -> Option<Instr>
    ensures exact { result ≡ each (word_shift_of word) op }
    ensures registers { IfSome result NamesRegisters }
{
    let op = op?;
    Some(Instr {
        op,
        rd: rd(word),
        rs1: rs1(word),
        rs2: 0,
        imm: i64::from((word >> 20) % 32),
    })
}

/// Format S.
pub fn format_s(word: u32, op: Option<Op>) -> Option<Instr>
    ensures exact { result ≡ each (format_s_of word) op }
    ensures registers { IfSome result NamesRegisters }
{
    let op = op?;
    Some(Instr {
        op,
        rd: 0,
        rs1: rs1(word),
        rs2: rs2(word),
        imm: immediate_s(word),
    })
}

/// Format B.
pub fn format_b(word: u32, op: Option<Op>) -> Option<Instr>
    ensures exact { result ≡ each (format_b_of word) op }
    ensures registers { IfSome result NamesRegisters }
{
    let op = op?;
    Some(Instr {
        op,
        rd: 0,
        rs1: rs1(word),
        rs2: rs2(word),
        imm: immediate_b(word),
    })
}

/// Format U.
pub fn format_u(word: u32, op: Option<Op>) -> Option<Instr>
    ensures exact { result ≡ each (format_u_of word) op }
    ensures registers { IfSome result NamesRegisters }
{
    let op = op?;
    Some(Instr {
        op,
        rd: rd(word),
        rs1: 0,
        rs2: 0,
        imm: immediate_u(word),
    })
}

/// Format J.
pub fn format_j(word: u32, op: Option<Op>) -> Option<Instr>
    ensures exact { result ≡ each (format_j_of word) op }
    ensures registers { IfSome result NamesRegisters }
{
    let op = op?;
    Some(Instr {
        op,
        rd: rd(word),
        rs1: 0,
        rs2: 0,
        imm: immediate_j(word),
    })
}

/// An instruction whose fields are nothing.
pub fn bare(op: Option<Op>) -> Option<Instr>
    ensures exact { result ≡ each bare_of op }
    ensures registers { IfSome result NamesRegisters }
{
    let op = op?;
    Some(Instr {
        op,
        rd: 0,
        rs1: 0,
        rs2: 0,
        imm: 0,
    })
}
