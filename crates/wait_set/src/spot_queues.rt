//! The threads that stand at each spot.
ghost use Rattle.std.specs.Prelude.{◌≡◌, ◌&&◌, ◌||◌, ℕ, false, true, not, cond, nat_eq, option_map, IsSome, OnOk, OnErr};
ghost use Rattle.std.specs.FinMap as map;
ghost use Rattle.wait_set.specs.Next.{IsNext};
ghost use Rattle.wait_set.specs.Spots.{same_spot, listed};
ghost use Rattle.wait_set.specs.declared.spot.Spot.{Spot};
ghost use Rattle.wait_set.specs.Queued.{NoneEmpty};
ghost use Rattle.wait_set.specs.SpotQueues.{spot_has};
ghost use Rattle.wait_set.specs.Tied.{IsFlagged};
ghost use Rattle.wait_set.specs.Waits.{is_left, lasts, touched};

use crate::number_set::NumberSet;
use crate::queues::Queues;
use crate::spot::Spot;
use crate::waiting::Waiting;
use maps::NumMap;
use std::alloc::{AllocError, Global};

/// The threads that stand at each spot.
#[derive(Drop)]
pub struct SpotQueues {
    channels: Queues,
    ended: Queues,
    moments: Queues,
}

impl SpotQueues {
    /// Nobody stands anywhere.
    pub fn new(alloc: Global) -> Self
        ensures { (x : Spot) (t : ℕ) → spot_has result x t ≡ false }
    {
        SpotQueues {
            channels: Queues::new(alloc),
            ended: Queues::new(alloc),
            moments: Queues::new(alloc),
        }
    }

    /// The thread stands at the spot from here on. `Err` where memory ran out: then nothing has changed.
    pub fn stand_at(&mut self, spot: Spot, thread: u64) -> Result<(), AllocError>
        ensures ok { OnOk result ((x : Spot) (t : ℕ) → spot_has self.new x t ≡ (spot_has self.old x t || (same_spot x spot && nat_eq t thread))) }
        ensures err { OnErr result (self.new ≡ self.old) }
    {
        match spot {
            Spot::Channel(number) => self.channels.stand(number, thread),
            Spot::Ended(number) => self.ended.stand(number, thread),
            Spot::Moment(number) => self.moments.stand(number, thread),
        }
    }

    /// The thread no longer stands at the spot. Takes no memory.
    pub fn leave_at(&mut self, spot: Spot, thread: u64)
        ensures { (x : Spot) (t : ℕ) → spot_has self.new x t ≡ (spot_has self.old x t && not (same_spot x spot && nat_eq t thread)) }
    {
        match spot {
            Spot::Channel(number) => self.channels.leave(number, thread),
            Spot::Ended(number) => self.ended.leave(number, thread),
            Spot::Moment(number) => self.moments.leave(number, thread),
        }
    }

    /// The thread no longer stands at any of the spots. Takes no memory.
    pub fn leave_all(&mut self, spots: &[Spot], thread: u64)
        ensures { (x : Spot) (t : ℕ) → spot_has self.new x t ≡ (spot_has self.old x t && not (listed x spots.now && nat_eq t thread)) }
    {
        for spot in spots {
            self.leave_at(*spot, thread);
        }
    }

    /// The thread no longer stands at those of the spots that are moments. Takes no memory.
    pub fn leave_moments(&mut self, spots: &[Spot], thread: u64)
        ensures { (x : Spot) (t : ℕ) → spot_has self.new x t ≡ (spot_has self.old x t && not ((listed x spots.now && not (lasts x)) && nat_eq t thread)) }
    {
        for spot in spots {
            if let Spot::Moment(_) = spot {
                self.leave_at(*spot, thread);
            }
        }
    }

    /// Each thread that stands at the spot, which is in `threads`, is left to be tested. Takes no memory.
    pub(crate) fn leave_each(&self, spot: Spot, threads: &mut NumMap<Waiting>, left: &mut NumberSet)
        requires there { (t : ℕ) → spot_has self.now spot t ≡ true → IsSome (map.get threads.old t) }
        requires set { IsFlagged is_left threads.old left.old }
        ensures marks { (t : ℕ) → map.get threads.new t ≡ cond (spot_has self.now spot t) (option_map touched (map.get threads.old t)) (map.get threads.old t) }
        ensures set { IsFlagged is_left threads.new left.new }
    {
        match spot {
            Spot::Channel(number) => self.channels.leave_each(number, threads, left),
            Spot::Ended(number) => self.ended.leave_each(number, threads, left),
            Spot::Moment(number) => self.moments.leave_each(number, threads, left),
        }
    }

    /// The next moment after `after` at which somebody stands.
    pub fn next_moment(&self, after: Option<u64>) -> Option<u64>
        ensures next { IsNext (λ n. map.contains_key self.now.moments n) after result }
        ensures some { NoneEmpty self.now.moments }
    {
        self.moments.next_number(after)
    }
}
