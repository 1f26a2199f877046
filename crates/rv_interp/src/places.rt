//! How a thread goes on after an instruction that is at a place of code. The place says where the pc is: it is counted from an address
//! that doesn't change, and the registers' own pc says nothing meanwhile.
ghost use Rattle.std.specs.Prelude.{◌≡◌, ◌<◌, ◌+◌, ◌%◌, ◌^◌};
ghost use Rattle.abi_base.specs.Registers.{with_pc};
ghost use Rattle.rv_code.specs.Formats.{NamesRegisters};
ghost use Rattle.rv_interp.specs.Instructions.{next, done_of, plus_immediate, jumped_of, jump_register_of, branch_of, address, register};
ghost use Rattle.rv_interp.specs.Slots.{address_at, instr_of};

use crate::execution::Outcome;
use crate::slot::Slot;
use crate::values::{Condition, is_taken};
use abi_base::{INSTRUCTION_ALIGNMENT, Regs, Signal};

/// The address of a place.
#[inline(always)]
#[tactic(auto, using(crate::proofs::PlaceLaws::wrapped_address))]
pub fn address_at(base: u64, at: u64) -> u64
    ensures { result ≡ address_at base at }
{
    base.wrapping_add(at.wrapping_mul(INSTRUCTION_ALIGNMENT))
}

/// What the first register has.
#[inline(always)]
pub fn first(regs: &Regs, slot: &Slot) -> u64
    requires { NamesRegisters (instr_of slot.now) }
    ensures { result ≡ register regs.now slot.now.rs1 }
{
    regs.get(u32::from(slot.rs1))
}

/// What the second register has.
#[inline(always)]
pub fn second(regs: &Regs, slot: &Slot) -> u64
    requires { NamesRegisters (instr_of slot.now) }
    ensures { result ≡ register regs.now slot.now.rs2 }
{
    regs.get(u32::from(slot.rs2))
}

/// The address that a load, a store or a jump to a register names.
#[inline(always)]
pub fn named_address(regs: &Regs, slot: &Slot) -> u64
    requires { NamesRegisters (instr_of slot.now) }
    ensures { result ≡ address regs.now (instr_of slot.now) }
{
    first(regs, slot).wrapping_add(slot.immediate())
}

/// Writes a register, and goes on behind the instruction.
#[inline(always)]
#[tactic(auto, using(crate::proofs::PlaceLaws::next_place))]
pub fn done_at(regs: &mut Regs, base: u64, at: &mut u64, rd: u8, value: u64) -> Outcome
    requires { rd < 32 }
    ensures { done_of (with_pc regs.old (address_at base at.old)) rd value ≡ record { outcome = result; regs = with_pc regs.new (address_at base at.new) } }
{
    regs.set(u32::from(rd), value);
    *at = at.wrapping_add(1);
    Outcome::Done
}

// Writes a register, and goes on so many bytes behind the first place, which has to be a multiple of 4.
#[inline(always)]
#[tactic(auto, using(crate::proofs::PlaceLaws::target_place, crate::proofs::PlaceLaws::target_rest))]
fn jump_at(regs: &mut Regs, base: u64, at: &mut u64, rd: u8, value: u64, offset: u64) -> Outcome
    requires aligned { base % INSTRUCTION_ALIGNMENT ≡ 0 }
    requires rd { rd < 32 }
    ensures { jumped_of (with_pc regs.old (address_at base at.old)) rd value ((base + offset) % 2 ^ 64) ≡ record { outcome = result; regs = with_pc regs.new (address_at base at.new) } }
{
    if offset % INSTRUCTION_ALIGNMENT != 0 {
        return Outcome::Trap(Signal::Bus);
    }
    regs.set(u32::from(rd), value);
    *at = offset / INSTRUCTION_ALIGNMENT;
    Outcome::Done
}

// How many bytes behind the first place the target of a branch or of JAL is.
#[inline(always)]
#[tactic(auto, using(crate::proofs::PlaceLaws::near_target))]
fn near(base: u64, at: u64, slot: &Slot) -> u64
    ensures { (base + result) % 2 ^ 64 ≡ plus_immediate (address_at base at) (instr_of slot.now) }
{
    at.wrapping_mul(INSTRUCTION_ALIGNMENT)
        .wrapping_add(slot.immediate())
}

// The address after the instruction at a place.
#[inline(always)]
#[tactic(auto, using(crate::proofs::PlaceLaws::next_place))]
fn next_at(base: u64, at: u64) -> u64
    ensures { result ≡ (address_at base at + 4) % 2 ^ 64 }
{
    address_at(base, at.wrapping_add(1))
}

/// JAL.
#[inline(always)]
pub fn jump_near_at(regs: &mut Regs, base: u64, at: &mut u64, slot: &Slot) -> Outcome
    requires aligned { base % INSTRUCTION_ALIGNMENT ≡ 0 }
    requires names { NamesRegisters (instr_of slot.now) }
    ensures { jumped_of (with_pc regs.old (address_at base at.old)) slot.now.rd (next (with_pc regs.old (address_at base at.old))) (plus_immediate (address_at base at.old) (instr_of slot.now)) ≡ record { outcome = result; regs = with_pc regs.new (address_at base at.new) } }
{
    let link = next_at(base, *at);
    let offset = near(base, *at, slot);
    jump_at(regs, base, at, slot.rd, link, offset)
}

// How many bytes behind the first place an address is.
#[inline(always)]
#[tactic(auto, using(crate::proofs::PlaceLaws::back))]
fn offset_of(base: u64, target: u64) -> u64
    ensures { (base + result) % 2 ^ 64 ≡ target }
{
    target.wrapping_sub(base)
}

/// The place of an address.
pub fn place_of(base: u64, pc: u64) -> u64
    requires base { base % INSTRUCTION_ALIGNMENT ≡ 0 }
    requires pc { pc % INSTRUCTION_ALIGNMENT ≡ 0 }
    ensures place { address_at base result ≡ pc }
    ensures small { result < 2 ^ 62 }
{
    let offset = offset_of(base, pc);
    offset / INSTRUCTION_ALIGNMENT
}

/// JALR: the register is read before it is written.
#[inline(always)]
pub fn jump_register_at(regs: &mut Regs, base: u64, at: &mut u64, slot: &Slot) -> Outcome
    requires aligned { base % INSTRUCTION_ALIGNMENT ≡ 0 }
    requires names { NamesRegisters (instr_of slot.now) }
    ensures { jump_register_of (with_pc regs.old (address_at base at.old)) (instr_of slot.now) ≡ record { outcome = result; regs = with_pc regs.new (address_at base at.new) } }
{
    let target = named_address(regs, slot);
    let link = next_at(base, *at);
    let offset = offset_of(base, target - target % 2);
    jump_at(regs, base, at, slot.rd, link, offset)
}

/// A branch. Its condition is passed beside it, so that where it is a constant no test of it is left.
#[inline(always)]
pub fn branch_at(
    regs: &mut Regs,
    base: u64,
    at: &mut u64,
    slot: &Slot,
    condition: Condition,
) -> Outcome
    requires aligned { base % INSTRUCTION_ALIGNMENT ≡ 0 }
    requires names { NamesRegisters (instr_of slot.now) }
    ensures { branch_of (with_pc regs.old (address_at base at.old)) condition (instr_of slot.now) ≡ record { outcome = result; regs = with_pc regs.new (address_at base at.new) } }
{
    if is_taken(condition, first(regs, slot), second(regs, slot)) {
        let offset = near(base, *at, slot);
        jump_at(regs, base, at, 0, 0, offset)
    } else {
        done_at(regs, base, at, 0, 0)
    }
}
