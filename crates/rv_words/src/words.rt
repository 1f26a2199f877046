//! The words of instructions, by their formats (RISC-V unprivileged manual, "Base Instruction Formats").
ghost use Rattle.std.specs.Prelude.{◌≡◌, ◌<◌, ◌≤◌, ◌*◌, ◌/◌, ◌%◌, ◌^◌, ◌≤ℤ◌, ◌<ℤ◌, pos, neg_ℤ, IsTrue, Some, ℤ, true, negsuc, ◌*ℤ◌, ◌+ℤ◌};
ghost use Rattle.rv_code.specs.Decoding.{decode_of};
ghost use Rattle.rv_code.specs.Immediates.{signed_at};
ghost use Rattle.rv_words.specs.Words.{instr, is_even, order_bits, plain_word, ArePairOf};
ghost use Rattle.rv_words.specs.Ops.{is_register, is_immediate, is_shift, is_word_shift, is_store, is_upper, is_branch, is_atomic, is_reserve, is_plain};

use crate::fields::{Fields, word};
use crate::order::Order;
use crate::rows::{
    atomic_row, branch_funct3, immediate_row, register_row, reserve_funct3, shift_row,
    store_funct3, upper_opcode, word_shift_row,
};
use rv_code::Op;

// A signed number in two's complement, where `half` is the first number that is too great for it.
fn field(value: i64, half: u32) -> u32
    requires half { half ≤ 2 ^ 20 }
    requires low { neg_ℤ (pos half) ≤ℤ value }
    requires high { value <ℤ pos half }
    ensures signed { signed_at half result ≡ value }
    ensures small { result < 2 * half }
{
    if value < 0 {
        (value + 2 * i64::from(half)) as u32
    } else {
        value as u32
    }
}

/// An operation on two registers.
pub fn register_word(op: Op, rd: u32, rs1: u32, rs2: u32) -> u32
    requires op { IsTrue (is_register op) }
    requires registers { (rd < 32) × (rs1 < 32) × (rs2 < 32) }
    ensures { decode_of result ≡ Some (instr op rd rs1 rs2 (pos 0)) }
{
    let row = register_row(op);
    word(Fields {
        opcode: row.opcode,
        rd,
        funct3: row.funct3,
        rs1,
        rs2,
        funct7: row.funct7,
    })
}

/// An operation on a register and an immediate, but a shift; a load; or JALR.
pub fn immediate_word(op: Op, rd: u32, rs1: u32, value: i64) -> u32
    requires op { IsTrue (is_immediate op) }
    requires registers { (rd < 32) × (rs1 < 32) }
    requires low { neg_ℤ (pos 2048) ≤ℤ value }
    requires high { value <ℤ pos 2048 }
    ensures { decode_of result ≡ Some (instr op rd rs1 0 value) }
{
    let row = immediate_row(op);
    let field = field(value, 2048);
    word(Fields {
        opcode: row.opcode,
        rd,
        funct3: row.funct3,
        rs1,
        rs2: field % 32,
        funct7: field / 32,
    })
}

/// A shift of 64 bits.
pub fn shift_word(op: Op, rd: u32, rs1: u32, amount: u32) -> u32
    requires op { IsTrue (is_shift op) }
    requires registers { (rd < 32) × (rs1 < 32) }
    requires amount { amount < 64 }
    ensures { decode_of result ≡ Some (instr op rd rs1 0 (pos amount)) }
{
    let row = shift_row(op);
    word(Fields {
        opcode: row.opcode,
        rd,
        funct3: row.funct3,
        rs1,
        rs2: amount % 32,
        funct7: row.funct7 + amount / 32,
    })
}

/// A shift of 32 bits.
pub fn word_shift_word(op: Op, rd: u32, rs1: u32, amount: u32) -> u32
    requires op { IsTrue (is_word_shift op) }
    requires registers { (rd < 32) × (rs1 < 32) }
    requires amount { amount < 32 }
    ensures { decode_of result ≡ Some (instr op rd rs1 0 (pos amount)) }
{
    let row = word_shift_row(op);
    word(Fields {
        opcode: row.opcode,
        rd,
        funct3: row.funct3,
        rs1,
        rs2: amount,
        funct7: row.funct7,
    })
}

/// A store.
pub fn store_word(op: Op, rs1: u32, rs2: u32, value: i64) -> u32
    requires op { IsTrue (is_store op) }
    requires registers { (rs1 < 32) × (rs2 < 32) }
    requires low { neg_ℤ (pos 2048) ≤ℤ value }
    requires high { value <ℤ pos 2048 }
    ensures { decode_of result ≡ Some (instr op 0 rs1 rs2 value) }
{
    let field = field(value, 2048);
    word(Fields {
        opcode: 0x23,
        rd: field % 32,
        funct3: store_funct3(op),
        rs1,
        rs2,
        funct7: field / 32,
    })
}

/// A branch.
pub fn branch_word(op: Op, rs1: u32, rs2: u32, distance: i64) -> u32
    requires op { IsTrue (is_branch op) }
    requires registers { (rs1 < 32) × (rs2 < 32) }
    requires low { neg_ℤ (pos 4096) ≤ℤ distance }
    requires high { distance <ℤ pos 4096 }
    requires even { is_even distance ≡ true }
    ensures { decode_of result ≡ Some (instr op 0 rs1 rs2 distance) }
{
    let field = field(distance, 4096);
    word(Fields {
        opcode: 0x63,
        rd: field / 2 % 16 * 2 + field / 2048 % 2,
        funct3: branch_funct3(op),
        rs1,
        rs2,
        funct7: field / 4096 * 64 + field / 32 % 64,
    })
}

/// LUI and AUIPC, with bits 31 to 12 of the word.
pub fn upper_word(op: Op, rd: u32, value: u32) -> u32
    requires op { IsTrue (is_upper op) }
    requires registers { rd < 32 }
    requires value { value < 2 ^ 20 }
    ensures { decode_of result ≡ Some (instr op rd 0 0 (signed_at (2 ^ 31) (value * 2 ^ 12))) }
{
    word(Fields {
        opcode: upper_opcode(op),
        rd,
        funct3: value % 8,
        rs1: value / 8 % 32,
        rs2: value / 0x100 % 32,
        funct7: value / 0x2000,
    })
}

/// JAL.
pub fn jump_word(rd: u32, distance: i64) -> u32
    requires registers { rd < 32 }
    requires low { neg_ℤ (pos (2 ^ 20)) ≤ℤ distance }
    requires high { distance <ℤ pos (2 ^ 20) }
    requires even { is_even distance ≡ true }
    ensures { decode_of result ≡ Some (instr Op.Jal rd 0 0 distance) }
{
    let field = field(distance, 0x10_0000);
    word(Fields {
        opcode: 0x6f,
        rd,
        funct3: field / 0x1000 % 8,
        rs1: field / 0x8000 % 32,
        rs2: field / 2 % 16 * 2 + field / 0x800 % 2,
        funct7: field / 0x10_0000 * 64 + field / 32 % 64,
    })
}

// Bits 26 and 25 of an atomic instruction.
fn order_bits(order: Order) -> u32
    ensures exact { result ≡ order_bits order }
    ensures small { result < 4 }
{
    match order {
        Order::Relaxed => 0,
        Order::Release => 1,
        Order::Acquire => 2,
        Order::AcquireRelease => 3,
    }
}

/// An atomic instruction, but LR.
pub fn atomic_word(op: Op, order: Order, rd: u32, rs1: u32, rs2: u32) -> u32
    requires op { IsTrue (is_atomic op) }
    requires registers { (rd < 32) × (rs1 < 32) × (rs2 < 32) }
    ensures instruction { decode_of result ≡ Some (instr op rd rs1 rs2 (pos 0)) }
    ensures order { result / 2 ^ 25 % 4 ≡ order_bits order }
{
    let (funct3, funct5) = atomic_row(op);
    word(Fields {
        opcode: 0x2f,
        rd,
        funct3,
        rs1,
        rs2,
        funct7: funct5 * 4 + order_bits(order),
    })
}

/// LR.
pub fn reserve_word(op: Op, order: Order, rd: u32, rs1: u32) -> u32
    requires op { IsTrue (is_reserve op) }
    requires registers { (rd < 32) × (rs1 < 32) }
    ensures instruction { decode_of result ≡ Some (instr op rd rs1 0 (pos 0)) }
    ensures order { result / 2 ^ 25 % 4 ≡ order_bits order }
{
    word(Fields {
        opcode: 0x2f,
        rd,
        funct3: reserve_funct3(op),
        rs1,
        rs2: 0,
        funct7: 2 * 4 + order_bits(order),
    })
}

/// An instruction without an operand.
#[tactic(auto, unfolding(rv_code::specs::Decoding::decode_of))]
pub fn plain_word(op: Op) -> u32
    requires { IsTrue (is_plain op) }
    ensures instruction { decode_of result ≡ Some (instr op 0 0 0 (pos 0)) }
    ensures word { result ≡ plain_word op }
{
    match op {
        Op::Ecall => 0x73,
        Op::Ebreak => 0x10_0073,
        Op::Fence => 0x0ff0_000f,
        Op::FenceI => 0x100f,
        _ => unreachable!(),
    }
}

// The multiple of 4096 that is nearest to a distance, divided by 4096.
fn high_part(distance: i64) -> i64
    requires low { negsuc 0x800007ff ≤ℤ distance }
    requires high { distance ≤ℤ pos 0x7ffff7ff }
    ensures not_above { (pos 4096 *ℤ result) ≤ℤ (distance +ℤ pos 2048) }
    ensures not_below { (distance +ℤ pos 2048) <ℤ (pos 4096 *ℤ result +ℤ pos 4096) }
{
    (distance + 0x800) >> 12
}

/// AUIPC and ADDI, which together put the address at a distance from AUIPC's own into a register.
pub fn address_words(rd: u32, distance: i64) -> (u32, u32)
    requires registers { rd < 32 }
    requires low { negsuc 0x800007ff ≤ℤ distance }
    requires high { distance ≤ℤ pos 0x7ffff7ff }
    ensures { ArePairOf rd distance result.0 result.1 }
{
    let high = high_part(distance);
    let low = distance - high * 0x1000;
    let first = upper_word(Op::Auipc, rd, field(high, 0x8_0000));
    let second = immediate_word(Op::Addi, rd, rd, low);
    (first, second)
}
