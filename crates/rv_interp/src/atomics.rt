//! Atomic instructions ("A" Extension for Atomic Instructions). Their address has to be a multiple of their width, which
//! is looked at first. They are rare, so their code is called and not inlined, and each call has a copy of the pc: where the
//! place of the caller's pc were passed on, the host could not keep it in a register.
ghost use Rattle.std.specs.Prelude.{◌≡◌, ◌<◌, ◌^◌};
ghost use Rattle.abi_base.specs.Registers.{with_pc};
ghost use Rattle.guest_memory.specs.Words.{IsWidth};
ghost use Rattle.guest_memory.specs.Written.{KeepsUnwritable};
ghost use Rattle.rv_code.specs.Formats.{NamesRegisters};
ghost use Rattle.rv_interp.specs.Kinds.{width_of};
ghost use Rattle.rv_interp.specs.Machine.{machine, holds};
ghost use Rattle.rv_interp.specs.Slots.{address_at, instr_of};
ghost use Rattle.rv_interp.specs.Instructions.{atomic_step, exchange_of, reserve_step, conditional_step, conditional_of, register};
ghost use Rattle.guest_memory.specs.Words.{load_of, store_of};

use crate::execution::Outcome;
use crate::places::{address_at, done_at};
use crate::reservation::Reservation;
use crate::slot::Slot;
use crate::values::{AtomicOperation, atomic_value, loaded_value};
use crate::width::width;
use abi_base::{Regs, Signal};
use guest_memory::{Access, GuestMemory};
use rv_code::Instr;

// Reads a number and writes another in its place, at a multiple of the width.
fn exchange(
    regs: &mut Regs,
    base: u64,
    at: &mut u64,
    mem: &mut GuestMemory,
    instr: &Instr,
    operation: AtomicOperation,
    to: u64,
) -> Outcome
    requires { NamesRegisters instr.now }
    ensures exact { exchange_of (with_pc regs.old (address_at base at.old)) mem.old operation instr.now to (load_of mem.old to (width_of instr.now.op)) ≡ record { outcome = result; regs = with_pc regs.new (address_at base at.new); memory = mem.new } }
    ensures unwritable { KeepsUnwritable mem.old mem.new }
{
    let width = width(instr.op);
    let Ok(v) = mem.load(to, width) else {
        return Outcome::Trap(Signal::Segv);
    };
    let value = atomic_value(width, operation, v, regs.get(instr.rs2));
    match mem.store(to, width, value) {
        Ok(()) => done_at(regs, base, at, instr.rd as u8, loaded_value(instr.op, v)),
        Err(_) => Outcome::Trap(Signal::Segv),
    }
}

// AMO.
#[cold]
#[inline(never)]
fn exchange_aligned(
    regs: &mut Regs,
    base: u64,
    at: &mut u64,
    mem: &mut GuestMemory,
    instr: &Instr,
    operation: AtomicOperation,
) -> Outcome
    requires { NamesRegisters instr.now }
    ensures exact { atomic_step (with_pc regs.old (address_at base at.old)) mem.old operation instr.now ≡ record { outcome = result; regs = with_pc regs.new (address_at base at.new); memory = mem.new } }
    ensures unwritable { KeepsUnwritable mem.old mem.new }
{
    let to = regs.get(instr.rs1);
    if to % u64::from(width(instr.op)) == 0 {
        exchange(regs, base, at, mem, instr, operation, to)
    } else {
        Outcome::Trap(Signal::Bus)
    }
}

/// AMO. Its operation is passed beside it, for words and double words alike.
#[inline(always)]
#[tactic(auto, using(crate::proofs::PlaceLaws::first_place))]
pub fn atomic(
    regs: &mut Regs,
    pc: &mut u64,
    mem: &mut GuestMemory,
    instr: &Instr,
    operation: AtomicOperation,
) -> Outcome
    requires { NamesRegisters instr.now }
    ensures exact { atomic_step (with_pc regs.old pc.old) mem.old operation instr.now ≡ record { outcome = result; regs = with_pc regs.new pc.new; memory = mem.new } }
    ensures unwritable { KeepsUnwritable mem.old mem.new }
{
    let mut at = 0;
    let outcome = exchange_aligned(regs, *pc, &mut at, mem, instr, operation);
    *pc = address_at(*pc, at);
    outcome
}

/// AMO of a slot, at a place of code.
#[inline(always)]
pub fn atomic_at(
    regs: &mut Regs,
    base: u64,
    at: &mut u64,
    mem: &mut GuestMemory,
    slot: &Slot,
    operation: AtomicOperation,
) -> Outcome
    requires { NamesRegisters (instr_of slot.now) }
    ensures exact { atomic_step (with_pc regs.old (address_at base at.old)) mem.old operation (instr_of slot.now) ≡ record { outcome = result; regs = with_pc regs.new (address_at base at.new); memory = mem.new } }
    ensures unwritable { KeepsUnwritable mem.old mem.new }
{
    let mut next = *at;
    let outcome = exchange_aligned(regs, base, &mut next, mem, &slot.instr(), operation);
    *at = next;
    outcome
}

// LR.
#[cold]
#[inline(never)]
fn reserve(
    regs: &mut Regs,
    base: u64,
    at: &mut u64,
    mem: &mut GuestMemory,
    held: &mut Reservation,
    instr: &Instr,
) -> Outcome
    requires { NamesRegisters instr.now }
    ensures exact { reserve_step (machine (with_pc regs.old (address_at base at.old)) mem.old held.old) instr.now ≡ record { outcome = result; after = machine (with_pc regs.new (address_at base at.new)) mem.new held.new } }
    ensures same { mem.new ≡ mem.old }
{
    let to = regs.get(instr.rs1);
    let width = width(instr.op);
    if to % u64::from(width) != 0 {
        return Outcome::Trap(Signal::Bus);
    }
    let Ok(v) = mem.load(to, width) else {
        return Outcome::Trap(Signal::Segv);
    };
    held.held = Some((to, width));
    done_at(regs, base, at, instr.rd as u8, loaded_value(instr.op, v))
}

/// LR.
#[inline(always)]
#[tactic(auto, using(crate::proofs::PlaceLaws::first_place))]
pub fn load_reserved(
    regs: &mut Regs,
    pc: &mut u64,
    mem: &mut GuestMemory,
    held: &mut Reservation,
    instr: &Instr,
) -> Outcome
    requires { NamesRegisters instr.now }
    ensures exact { reserve_step (machine (with_pc regs.old pc.old) mem.old held.old) instr.now ≡ record { outcome = result; after = machine (with_pc regs.new pc.new) mem.new held.new } }
    ensures same { mem.new ≡ mem.old }
{
    let mut at = 0;
    let outcome = reserve(regs, *pc, &mut at, mem, held, instr);
    *pc = address_at(*pc, at);
    outcome
}

/// LR of a slot, at a place of code.
#[inline(always)]
pub fn load_reserved_at(
    regs: &mut Regs,
    base: u64,
    at: &mut u64,
    mem: &mut GuestMemory,
    held: &mut Reservation,
    slot: &Slot,
) -> Outcome
    requires { NamesRegisters (instr_of slot.now) }
    ensures exact { reserve_step (machine (with_pc regs.old (address_at base at.old)) mem.old held.old) (instr_of slot.now) ≡ record { outcome = result; after = machine (with_pc regs.new (address_at base at.new)) mem.new held.new } }
    ensures same { mem.new ≡ mem.old }
{
    let mut next = *at;
    let outcome = reserve(regs, base, &mut next, mem, held, &slot.instr());
    *at = next;
    outcome
}

// Stores where the address and the width are reserved, and else looks whether it might have, at a multiple of the width.
fn store_reserved(
    regs: &mut Regs,
    base: u64,
    at: &mut u64,
    mem: &mut GuestMemory,
    held: &mut Reservation,
    instr: &Instr,
    to: u64,
) -> Outcome
    requires { NamesRegisters instr.now }
    ensures exact { conditional_of (machine (with_pc regs.old (address_at base at.old)) mem.old held.old) instr.now to (store_of mem.old to (width_of instr.now.op) (register regs.old instr.now.rs2)) ≡ record { outcome = result; after = machine (with_pc regs.new (address_at base at.new)) mem.new held.new } }
    ensures unwritable { KeepsUnwritable mem.old mem.new }
{
    let width = width(instr.op);
    let holds = held.holds(to, width);
    let may_store = if holds {
        mem.store(to, width, regs.get(instr.rs2))
    } else {
        mem.check(Access::Write, to, width as usize)
    };
    match may_store {
        Ok(()) => {
            *held = Reservation::none();
            done_at(regs, base, at, instr.rd as u8, u64::from(!holds))
        }
        Err(_) => Outcome::Trap(Signal::Segv),
    }
}

// SC.
#[cold]
#[inline(never)]
fn store_aligned(
    regs: &mut Regs,
    base: u64,
    at: &mut u64,
    mem: &mut GuestMemory,
    held: &mut Reservation,
    instr: &Instr,
) -> Outcome
    requires { NamesRegisters instr.now }
    ensures exact { conditional_step (machine (with_pc regs.old (address_at base at.old)) mem.old held.old) instr.now ≡ record { outcome = result; after = machine (with_pc regs.new (address_at base at.new)) mem.new held.new } }
    ensures unwritable { KeepsUnwritable mem.old mem.new }
{
    let to = regs.get(instr.rs1);
    if to % u64::from(width(instr.op)) == 0 {
        store_reserved(regs, base, at, mem, held, instr, to)
    } else {
        Outcome::Trap(Signal::Bus)
    }
}

/// SC.
#[inline(always)]
#[tactic(auto, using(crate::proofs::PlaceLaws::first_place))]
pub fn store_conditional(
    regs: &mut Regs,
    pc: &mut u64,
    mem: &mut GuestMemory,
    held: &mut Reservation,
    instr: &Instr,
) -> Outcome
    requires { NamesRegisters instr.now }
    ensures exact { conditional_step (machine (with_pc regs.old pc.old) mem.old held.old) instr.now ≡ record { outcome = result; after = machine (with_pc regs.new pc.new) mem.new held.new } }
    ensures unwritable { KeepsUnwritable mem.old mem.new }
{
    let mut at = 0;
    let outcome = store_aligned(regs, *pc, &mut at, mem, held, instr);
    *pc = address_at(*pc, at);
    outcome
}

/// SC of a slot, at a place of code.
#[inline(always)]
pub fn store_conditional_at(
    regs: &mut Regs,
    base: u64,
    at: &mut u64,
    mem: &mut GuestMemory,
    held: &mut Reservation,
    slot: &Slot,
) -> Outcome
    requires { NamesRegisters (instr_of slot.now) }
    ensures exact { conditional_step (machine (with_pc regs.old (address_at base at.old)) mem.old held.old) (instr_of slot.now) ≡ record { outcome = result; after = machine (with_pc regs.new (address_at base at.new)) mem.new held.new } }
    ensures unwritable { KeepsUnwritable mem.old mem.new }
{
    let mut next = *at;
    let outcome = store_aligned(regs, base, &mut next, mem, held, &slot.instr());
    *at = next;
    outcome
}
