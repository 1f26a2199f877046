//! The instruction of a word (RISC-V unprivileged manual, "RV32/64G Instruction Set Listings").
ghost use Rattle.std.specs.Prelude.{◌≡◌, IfSome};
ghost use Rattle.rv_code.specs.Decoding.{decode_of, funct3_of, funct7_of, immediate_of, word_immediate_of};
ghost use Rattle.rv_code.specs.Formats.{NamesRegisters};

use crate::atomics::atomic_row;
use crate::formats::{
    bare, format_b, format_i, format_j, format_r, format_s, format_u, rs2, shift, word_shift,
};
use crate::instr::{Instr, Op};
use crate::rows::{
    branch_row, fence_row, immediate_row, jump_row, load_row, register_row, shift_row, store_row,
    system_row, word_immediate_row, word_row, word_shift_row,
};

// Bits 14 to 12.
fn funct3(word: u32) -> u32
    ensures { result ≡ funct3_of word }
{
    (word >> 12) % 8
}

// Bits 31 to 25.
fn funct7(word: u32) -> u32
    ensures { result ≡ funct7_of word }
{
    word >> 25
}

// Opcode 0x13, operations with an immediate.
fn immediate(word: u32) -> Option<Instr>
    ensures exact { result ≡ immediate_of word }
    ensures registers { IfSome result NamesRegisters }
{
    let funct3 = funct3(word);
    if funct3 == 1 || funct3 == 5 {
        shift(word, shift_row(word >> 26, funct3))
    } else {
        format_i(word, immediate_row(funct3))
    }
}

// Opcode 0x1b, operations on words with an immediate.
fn word_immediate(word: u32) -> Option<Instr>
    ensures exact { result ≡ word_immediate_of word }
    ensures registers { IfSome result NamesRegisters }
{
    let funct3 = funct3(word);
    if funct3 == 1 || funct3 == 5 {
        word_shift(word, word_shift_row(funct7(word), funct3))
    } else {
        format_i(word, word_immediate_row(funct3))
    }
}

/// The instruction of a word. `None` exactly for a word that is none of RV64IM, A and Zifencei, with EBREAK and ECALL.
#[tactic(auto, unfolding(crate::specs::Decoding::decode_of))]
pub fn decode(word: u32) -> Option<Instr>
    ensures exact { result ≡ decode_of word }
    ensures registers { IfSome result NamesRegisters }
{
    let funct3 = funct3(word);
    match word % 128 {
        0x37 => format_u(word, Some(Op::Lui)),
        0x17 => format_u(word, Some(Op::Auipc)),
        0x6f => format_j(word, Some(Op::Jal)),
        0x67 => format_i(word, jump_row(funct3)),
        0x63 => format_b(word, branch_row(funct3)),
        0x03 => format_i(word, load_row(funct3)),
        0x23 => format_s(word, store_row(funct3)),
        0x13 => immediate(word),
        0x1b => word_immediate(word),
        0x33 => format_r(word, register_row(funct7(word), funct3)),
        0x3b => format_r(word, word_row(funct7(word), funct3)),
        0x2f => format_r(word, atomic_row(funct3, word >> 27, rs2(word))),
        0x0f => bare(fence_row(funct3)),
        0x73 => bare(system_row(word)),
        _ => None,
    }
}
