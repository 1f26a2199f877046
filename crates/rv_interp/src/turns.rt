//! A turn of instructions.
ghost use Rattle.std.specs.Prelude.{◌≡◌};
ghost use Rattle.rv_interp.specs.Cache.{AreTrue};
ghost use Rattle.rv_interp.specs.Turns.{Turns, TurnIsOne, TurnOfIsTurn, turn_of};

use crate::cache::Cache;
use crate::execution::Outcome;
use crate::reservation::Reservation;
use abi_base::{Regs, Signal};
use guest_memory::GuestMemory;

/// How many instructions a turn does, if nothing ends it before.
pub const QUANTUM: u32 = 4096;

/// How a turn ended.
#[derive(Clone, Copy, Debug, PartialEq, Eq)]
pub enum TurnEnd {
    /// `QUANTUM` instructions were done.
    Quantum,
    /// The pc stands at an ECALL, which isn't done.
    Ecall,
    /// The instruction at the pc traps, which changes nothing.
    Trap(Signal),
}

/// Does instructions until exactly `QUANTUM` of them were done or, before that, one is an ECALL or traps. A reservation
/// of LR lives inside the turn. The cache, which is true of the memory, is so afterwards.
pub fn turn(regs: &mut Regs, mem: &mut GuestMemory, cache: &mut Cache) -> TurnEnd
    requires { AreTrue mem.old cache.old }
    ensures exact { turn_of mem.old regs.old ≡ record { end = result; regs = regs.new; memory = mem.new } }
    ensures turns { Turns mem.old regs.old result mem.new regs.new }
    ensures slots { AreTrue mem.new cache.new }
{
    let mut held = Reservation::none();
    let mut left = QUANTUM;
    // Each round does one instruction at least.
    for _ in 0..QUANTUM {
        let kept = cache.run(regs, mem, &mut held, left);
        left -= kept.done;
        if kept.is_call {
            return TurnEnd::Ecall;
        }
        if left == 0 {
            return TurnEnd::Quantum;
        }
        match cache.step(regs, mem, &mut held) {
            Outcome::Done => left -= 1,
            Outcome::Ecall => return TurnEnd::Ecall,
            Outcome::Trap(signal) => return TurnEnd::Trap(signal),
        }
    }
    TurnEnd::Quantum
}

/// What `turn`'s second clause says has exactly one answer, `turn_of`. It does nothing.
pub fn turn_is_one()
    ensures is_turn { TurnOfIsTurn }
    ensures only { TurnIsOne }
{}
