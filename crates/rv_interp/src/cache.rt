//! Decoded instructions, kept over turns.
ghost use Rattle.std.specs.Prelude.{◌≡◌, ◌<◌, ◌≤◌, ◌%◌, length, IfOk, IfSome, IsTrue};
ghost use Rattle.guest_memory.specs.Page.{Pages};
ghost use Rattle.rv_interp.specs.declared.execution.Outcome.TheVariants as outcome;
ghost use Rattle.rv_interp.specs.Cache.{AreAligned, AreTrue, IsFound, RegionIsTrue};
ghost use Rattle.rv_interp.specs.Instructions.{step_of};
ghost use Rattle.rv_interp.specs.Machine.{machine};
ghost use Rattle.rv_interp.specs.Turns.{Does};

use crate::code_pages::{count_from, first_of, is_code};
use crate::execution::{Outcome, step};
use crate::regions::Region;
use crate::reservation::Reservation;
use crate::runs::{Kept, Place, find, run_regions};
use abi_base::{INSTRUCTION_ALIGNMENT, PAGE_SIZE, Regs};
use guest_memory::GuestMemory;
use std::alloc::{AllocError, Global};
use std::marker::Model;

// How many regions there are at most: a jump from one to another looks through them, unless it goes back to the one before. And how many
// slots all have together: those of 16 MiB of code.
const MOST_REGIONS: usize = 32;

const MOST_SLOTS: usize = 4194304;

// How many slots may be taken for each instruction outside of all regions, so that what taking them costs is in proportion; and how many
// at once: those of the largest region.
const SLOTS_OF_STEP: usize = 64;

const MOST_AT_ONCE: usize = 1048576;

// How many instructions a page has.
const SLOTS_OF_PAGE: u64 = PAGE_SIZE / INSTRUCTION_ALIGNMENT;

/// Instructions of pages that can't be written, by their places in runs of pages of code. Each of them is the one that is at its
/// address, as long as nothing but turns and writes changes the memory: after a change of a page that can't be written, or of its
/// rights, all have to be forgotten.
#[derive(Drop)]
pub struct Cache {
    alloc: Global,
    regions: Vec<Region>,
    // How many slots all regions have.
    slots: usize,
    // How many slots may be taken now.
    credit: usize,
    // How many the last region needed, if there were too few for it: until then nobody looks for pages of code.
    wanted: usize,
}

impl Model for Cache {
    ghost use Rattle.std.specs.Prelude.{List};
    ghost use Rattle.rv_interp.specs.declared.regions.Region.{Region};

    ghost Value = { List Region };

    ghost view = { λ c. c.regions.items };
}

impl Cache {
    /// No instruction.
    pub fn new(alloc: Global) -> Result<Self, AllocError>
        ensures { IfOk result (λ cache. (m : Pages) → AreTrue m cache) }
    {
        Ok(Cache {
            alloc,
            regions: Vec::new(alloc),
            slots: 0,
            credit: MOST_AT_ONCE,
            wanted: 0,
        })
    }

    /// Forgets each instruction.
    pub fn forget(&mut self)
        ensures { (m : Pages) → AreTrue m self.new }
    {
        self.regions = Vec::new(self.alloc);
        self.slots = 0;
    }

    // The place of the instruction at an address, if a region has it.
    fn find(&self, pc: u64) -> Option<Place>
        requires { AreAligned self.now }
        ensures { IfSome result (IsFound self.now pc) }
    {
        if pc % INSTRUCTION_ALIGNMENT != 0 {
            return None;
        }
        find(&self.regions, pc)
    }

    /// Does instructions that are kept, from the pc on: at most so many.
    pub fn run(
        &self,
        regs: &mut Regs,
        mem: &mut GuestMemory,
        held: &mut Reservation,
        most: u32,
    ) -> Kept
        requires { AreTrue mem.old self.now }
        ensures few { result.done ≤ most }
        ensures done { Does result.done (machine regs.old mem.old held.old) (machine regs.new mem.new held.new) }
        ensures more { IsTrue result.is_call → result.done < most }
        ensures call { IsTrue result.is_call → step_of (machine regs.new mem.new held.new) ≡ record { outcome = outcome.Ecall; after = machine regs.new mem.new held.new } }
        ensures slots { AreTrue mem.new self.now }
    {
        let pc = regs.pc();
        let Some(first) = self.find(pc) else {
            return Kept {
                done: 0,
                is_call: false,
            };
        };
        run_regions(regs, mem, held, &self.regions, first, most)
    }

    // Adds a region, if there is memory for it.
    fn add(&mut self, region: Region)
        ensures { (m : Pages) → AreTrue m self.old → RegionIsTrue m region → AreTrue m self.new }
    {
        let count = region.slots.len();
        if self.regions.push(region).is_ok() {
            self.slots = self.slots.saturating_add(count);
        }
    }

    fn allocator(&self) -> Global {
        self.alloc
    }

    // Forgets all, if there would be too many regions or slots with so many more.
    fn make_room(&mut self, count: usize)
        ensures { (m : Pages) → AreTrue m self.old → AreTrue m self.new }
    {
        if self.regions.len() >= MOST_REGIONS || self.slots.saturating_add(count) > MOST_SLOTS {
            self.forget();
        }
    }

    // Whether there may be slots enough for the next region. Each question makes it some more.
    fn may_look(&mut self) -> bool
        ensures { self.new ≡ self.old }
    {
        self.credit = self.credit.saturating_add(SLOTS_OF_STEP).min(MOST_AT_ONCE);
        self.credit >= self.wanted
    }

    // Whether so many slots may be taken now. Where it says no, all that might have been taken is lost: it pays for the look.
    fn may_take(&mut self, count: usize) -> bool
        ensures { self.new ≡ self.old }
    {
        let may = count <= self.credit;
        self.credit = self.credit.saturating_sub(count);
        self.wanted = if may { 0 } else { count };
        may
    }

    // The pages around one that no region has: the first of them, and the one behind the last.
    fn pages_around(&self, page: u64) -> (u64, u64) {
        let mut lowest = 0;
        let mut end = u64::MAX;
        for k in 0..self.regions.len() {
            let region = &self.regions[k];
            let first = region.base / PAGE_SIZE;
            if first > page {
                end = end.min(first);
            } else {
                lowest = lowest.max(first.saturating_add(region.places() / SLOTS_OF_PAGE));
            }
        }
        (lowest, end)
    }

    // Takes slots for the pages of code around an address that no region has, if its page is code and there is memory for them. Where many
    // were taken, it waits until many instructions were done without.
    fn open(&mut self, mem: &GuestMemory, pc: u64)
        ensures { (m : Pages) → AreTrue m self.old → AreTrue m self.new }
    {
        let page = pc / PAGE_SIZE;
        if pc % INSTRUCTION_ALIGNMENT != 0 || !self.may_look() || !is_code(mem, page) {
            return;
        }
        let (lowest, end) = self.pages_around(page);
        let first = first_of(mem, page, lowest);
        let count = count_from(mem, first, end).wrapping_mul(SLOTS_OF_PAGE) as usize;
        if !self.may_take(count) {
            return;
        }
        self.make_room(count);
        match Region::new(self.allocator(), first, count) {
            Ok(region) => self.add(region),
            Err(_) => {}
        }
    }

    // Decodes the instruction at an address into its slot in a region, and some of those behind it.
    fn decode_in(&mut self, k: usize, mem: &mut GuestMemory, pc: u64)
        requires { k < length self.old }
        ensures slots { AreTrue mem.old self.old → AreTrue mem.new self.new }
        ensures same { mem.new ≡ mem.old }
    {
        self.regions[k].decode_from(mem, pc);
    }

    // Takes slots for the pages of code around an address, or decodes the instruction there and some of those behind it, if they are there.
    fn learn(&mut self, mem: &mut GuestMemory, pc: u64)
        requires { AreTrue mem.old self.old }
        ensures slots { AreTrue mem.new self.new }
        ensures same { mem.new ≡ mem.old }
    {
        match self.find(pc) {
            Some(place) => self.decode_in(place.region, mem, pc),
            None => self.open(mem, pc),
        }
    }

    /// Does the instruction at the pc, which is kept afterwards if it can be.
    #[cold]
    #[inline(never)]
    pub fn step(
        &mut self,
        regs: &mut Regs,
        mem: &mut GuestMemory,
        held: &mut Reservation,
    ) -> Outcome
        requires { AreTrue mem.old self.old }
        ensures exact { step_of (machine regs.old mem.old held.old) ≡ record { outcome = result; after = machine regs.new mem.new held.new } }
        ensures slots { AreTrue mem.new self.new }
    {
        self.learn(mem, regs.pc());
        step(regs, mem, held)
    }
}
