//! Instructions that are kept, in one region after another.
ghost use Rattle.std.specs.Prelude.{◌≡◌, ◌<◌, ◌≤◌, ◌%◌, length, IfSome, IsTrue};
ghost use Rattle.abi_base.specs.Registers.{with_pc};
ghost use Rattle.guest_memory.specs.Written.{KeepsUnwritable};
ghost use Rattle.rv_interp.specs.declared.execution.Outcome.TheVariants as outcome;
ghost use Rattle.rv_interp.specs.Cache.{AreAligned, AreTrue, IsFound};
ghost use Rattle.rv_interp.specs.Instructions.{step_of};
ghost use Rattle.rv_interp.specs.Machine.{machine};
ghost use Rattle.rv_interp.specs.Slots.{address_at};
ghost use Rattle.rv_interp.specs.Turns.{Does};

use crate::places::address_at;
use crate::regions::{Region, run_slots};
use crate::reservation::Reservation;
use abi_base::{INSTRUCTION_ALIGNMENT, Regs};
use guest_memory::GuestMemory;

/// What kept instructions did.
#[derive(Clone, Copy)]
pub struct Kept {
    /// How many were done.
    pub done: u32,
    /// Whether the next one is an ECALL. If it isn't, it is not said what it is.
    pub is_call: bool,
}

/// A place of code: which region it is of, and which of its slots.
#[derive(Clone, Copy)]
pub struct Place {
    pub region: usize,
    pub at: u64,
}

/// The place of the instruction at an address, if a region has it.
#[cold]
#[inline(never)]
pub fn find(regions: &[Region], pc: u64) -> Option<Place>
    requires regions { AreAligned regions.now }
    requires pc { pc % INSTRUCTION_ALIGNMENT ≡ 0 }
    ensures { IfSome result (IsFound regions.now pc) }
{
    for region in 0..regions.len() {
        if let Some(at) = regions[region].place(pc) {
            return Some(Place { region, at });
        }
    }
    None
}

// The same, where code most likely goes back to the region that it left last.
#[inline(always)]
fn find_again(regions: &[Region], last: usize, pc: u64) -> Option<Place>
    requires regions { AreAligned regions.now }
    requires pc { pc % INSTRUCTION_ALIGNMENT ≡ 0 }
    requires last { last < length regions.now }
    ensures { IfSome result (IsFound regions.now pc) }
{
    match regions[last].place(pc) {
        Some(at) => Some(Place { region: last, at }),
        None => find(regions, pc),
    }
}

/// Does instructions that are kept, from the pc on, which is at a place of these regions: at most so many. Where code jumps from one region
/// to another, it goes on there. The loop over slots is inlined, so that such a jump costs no call.
#[inline(never)]
pub fn run_regions(
    regs: &mut Regs,
    mem: &mut GuestMemory,
    held: &mut Reservation,
    regions: &[Region],
    first: Place,
    most: u32,
) -> Kept
    requires slots { AreTrue mem.old regions.now }
    requires first { IsFound regions.now regs.old.pc first }
    ensures few { result.done ≤ most }
    ensures done { Does result.done (machine regs.old mem.old held.old) (machine regs.new mem.new held.new) }
    ensures more { IsTrue result.is_call → result.done < most }
    ensures call { IsTrue result.is_call → step_of (machine regs.new mem.new held.new) ≡ record { outcome = outcome.Ecall; after = machine regs.new mem.new held.new } }
    ensures unwritable { KeepsUnwritable mem.old mem.new }
{
    let mut here = first;
    let mut last = first.region;
    let mut done = 0;
    while done < most {
        let region = &regions[here.region];
        let stop = run_slots(
            regs,
            region.base,
            here.at,
            mem,
            held,
            &region.slots,
            done,
            most,
        );
        let pc = address_at(region.base, stop.at);
        regs.set_pc(pc);
        let is_left = stop.done > done && stop.at >= region.slots.len() as u64;
        done = stop.done;
        if stop.is_call || !is_left {
            return Kept {
                done,
                is_call: stop.is_call,
            };
        }
        let Some(next) = find_again(regions, last, pc) else {
            break;
        };
        last = here.region;
        here = next;
    }
    Kept {
        done,
        is_call: false,
    }
}
