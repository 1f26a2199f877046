//! Runs of pages of code, each instruction of which has a slot by its place.
ghost use Rattle.std.specs.Prelude.{◌≡◌, ◌<◌, ◌≤◌, ◌+◌, ◌-◌, ◌%◌, ℕ, length, IfOk, IfSome, IsTrue};
ghost use Rattle.abi_base.specs.Registers.{with_pc};
ghost use Rattle.guest_memory.specs.Page.{Pages};
ghost use Rattle.guest_memory.specs.Written.{KeepsUnwritable};
ghost use Rattle.rv_code.specs.declared.instr.Op.TheVariants as op;
ghost use Rattle.rv_interp.specs.declared.execution.Outcome.TheVariants as outcome;
ghost use Rattle.rv_interp.specs.Cache.{AreTrueFrom, IsPlaceOf, IsTrueAt, RegionIsTrue};
ghost use Rattle.rv_interp.specs.Instructions.{step_of};
ghost use Rattle.rv_interp.specs.Machine.{machine};
ghost use Rattle.rv_interp.specs.Slots.{address_at};
ghost use Rattle.rv_interp.specs.Turns.{Does};

use crate::execution::{Outcome, instruction};
use crate::kept::execute_at;
use crate::places::{address_at, place_of};
use crate::reservation::Reservation;
use crate::slot::{EMPTY, Slot, packed};
use abi_base::{INSTRUCTION_ALIGNMENT, PAGE_SIZE, Regs};
use guest_memory::{Access, GuestMemory};
use std::alloc::{AllocError, Global};

// How many instructions are decoded at once, at most. More would make straight code begin faster, and jumps to where all are new
// slower.
const DECODED_AT_ONCE: u64 = 8;

/// Slots of the instructions from an address on, one for each 4 bytes, and one more behind them, which stays empty. A slot is empty as
/// long as its instruction wasn't needed, and where its page may be written.
#[derive(Drop)]
pub struct Region {
    pub base: u64,
    pub slots: Vec<Slot>,
}

/// Where instructions of slots came to an end: how many were done, the place of the next one, and whether that is an ECALL.
#[derive(Clone, Copy)]
pub struct Stop {
    pub done: u32,
    pub at: u64,
    pub is_call: bool,
}

// The slot at a place.
#[inline(always)]
fn slot_at(slots: &[Slot], place: u64) -> &Slot
    requires { place < length slots.now }
    ensures kept { (m : Pages) (base : ℕ) → AreTrueFrom m base slots.now → IsTrueAt m (address_at base place) result.now }
    ensures last { (m : Pages) (base : ℕ) → AreTrueFrom m base slots.now → place + 1 ≡ length slots.now → result.now.op ≡ op.Ebreak }
{
    &slots[place as usize]
}

/// Does instructions of slots from a place on, as long as they have slots, and until `most` are done with the `from` that were done before.
/// Since the last slot is empty, there is one behind each instruction that was done, so that only a jump can lead where there is none.
#[inline(always)]
pub fn run_slots(
    regs: &mut Regs,
    base: u64,
    at: u64,
    mem: &mut GuestMemory,
    held: &mut Reservation,
    slots: &[Slot],
    from: u32,
    most: u32,
) -> Stop
    requires slots { AreTrueFrom mem.old base slots.now }
    requires at { at < length slots.now }
    requires from { from ≤ most }
    ensures few { result.done ≤ most }
    ensures since { from ≤ result.done }
    ensures done { Does (result.done - from) (machine (with_pc regs.old (address_at base at)) mem.old held.old) (machine (with_pc regs.new (address_at base result.at)) mem.new held.new) }
    ensures more { IsTrue result.is_call → result.done < most }
    ensures call { IsTrue result.is_call → step_of (machine (with_pc regs.new (address_at base result.at)) mem.new held.new) ≡ record { outcome = outcome.Ecall; after = machine (with_pc regs.new (address_at base result.at)) mem.new held.new } }
    ensures unwritable { KeepsUnwritable mem.old mem.new }
{
    let mut place = at;
    for done in from..most {
        let before = place;
        let slot = slot_at(slots, before);
        match execute_at(regs, base, &mut place, mem, held, slot) {
            Outcome::Done => {
                if place != before + 1 && place >= slots.len() as u64 {
                    return Stop {
                        done: done + 1,
                        at: place,
                        is_call: false,
                    };
                }
            }
            Outcome::Ecall => {
                return Stop {
                    done,
                    at: place,
                    is_call: true,
                };
            }
            Outcome::Trap(_) => {
                return Stop {
                    done,
                    at: place,
                    is_call: false,
                };
            }
        }
    }
    Stop {
        done: most,
        at: place,
        is_call: false,
    }
}

// The slot of the instruction at an address, if its page can't be written.
fn kept_slot(mem: &mut GuestMemory, pc: u64) -> Option<Slot>
    ensures slot { IfSome result (IsTrueAt mem.old pc) }
    ensures same { mem.new ≡ mem.old }
{
    let Ok(instr) = instruction(mem, pc) else {
        return None;
    };
    if mem.check(Access::Write, pc, 1).is_err() {
        packed(&instr)
    } else {
        None
    }
}

// Fills the slot at a place, which isn't the last.
fn put(slots: &mut Vec<Slot>, at: u64, slot: Slot)
    requires { at + 1 < length slots.old.items }
    ensures { (m : Pages) (base : ℕ) → AreTrueFrom m base slots.old.items → IsTrueAt m (address_at base at) slot → AreTrueFrom m base slots.new.items }
{
    slots[at as usize] = slot;
}

impl Region {
    /// Empty slots from a page on.
    pub fn new(alloc: Global, page: u64, count: usize) -> Result<Self, AllocError>
        ensures { IfOk result (λ region. (m : Pages) → RegionIsTrue m region) }
    {
        let slots = vec![in alloc; EMPTY; count.saturating_add(1)]?;
        Ok(Region {
            base: page.wrapping_mul(PAGE_SIZE),
            slots,
        })
    }

    /// How many instructions can have a slot here.
    #[inline(always)]
    pub fn places(&self) -> u64
        ensures { result ≡ length self.now.slots.items - 1 }
    {
        (self.slots.len() as u64).saturating_sub(1)
    }

    /// The place of the instruction at an address, if it has a slot here.
    #[inline(always)]
    pub fn place(&self, pc: u64) -> Option<u64>
        requires base { self.now.base % INSTRUCTION_ALIGNMENT ≡ 0 }
        requires pc { pc % INSTRUCTION_ALIGNMENT ≡ 0 }
        ensures { IfSome result (IsPlaceOf self.now pc) }
    {
        let at = place_of(self.base, pc);
        if at + 1 < self.slots.len() as u64 {
            Some(at)
        } else {
            None
        }
    }

    // Decodes the instruction at a place into its slot, if that is empty and the page can't be written. Says whether it did.
    fn decode(&mut self, mem: &mut GuestMemory, at: u64) -> bool
        ensures slots { RegionIsTrue mem.old self.old → RegionIsTrue mem.new self.new }
        ensures same { mem.new ≡ mem.old }
    {
        if at >= self.places() || self.slots[at as usize].op != EMPTY.op {
            return false;
        }
        let Some(slot) = kept_slot(mem, address_at(self.base, at)) else {
            return false;
        };
        put(&mut self.slots, at, slot);
        true
    }

    /// Decodes the instruction at an address into its slot, if its page can't be written, and some of those behind it, up to the first
    /// that is there.
    pub fn decode_from(&mut self, mem: &mut GuestMemory, pc: u64)
        ensures slots { RegionIsTrue mem.old self.old → RegionIsTrue mem.new self.new }
        ensures same { mem.new ≡ mem.old }
    {
        let first = pc.wrapping_sub(self.base) / INSTRUCTION_ALIGNMENT;
        for index in 0..DECODED_AT_ONCE {
            if !self.decode(mem, first.wrapping_add(index)) {
                return;
            }
        }
    }
}
