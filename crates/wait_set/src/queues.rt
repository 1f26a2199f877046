//! The threads that stand at each number.
ghost use Rattle.std.specs.Prelude.{◌≡◌, ◌+◌, ◌&&◌, ◌||◌, ℕ, Bool, not, nat_eq, true, cond, option_map, IsSome, OnOk, OnErr};
ghost use Rattle.std.specs.FinMap as map;
ghost use Rattle.wait_set.specs.Next.{IsNext};
ghost use Rattle.wait_set.specs.Queued.{has_at, NoneEmpty};
ghost use Rattle.wait_set.specs.Tied.{IsFlagged};
ghost use Rattle.wait_set.specs.Waits.{is_left, touched};

use crate::number_set::NumberSet;
use crate::queue::Queue;
use crate::waiting::Waiting;
use maps::NumMap;
use std::alloc::{AllocError, Global};
use std::marker::Model;

/// The threads that stand at each number. A number at which nobody stands has no queue.
///
/// Each change, and each look for the next number, takes the logarithm of how many numbers and how many threads at the number
/// there are. A walk over the threads at a number looks for the number once.
#[derive(Drop)]
pub struct Queues {
    alloc: Global,
    by_number: NumMap<Queue>,
}

impl Model for Queues {
    ghost use Rattle.std.specs.FinMap as map;
    ghost use Rattle.std.specs.FinSet as set;
    ghost use Rattle.std.specs.Coded.{coded_ℕ};
    ghost use Rattle.wait_set.specs.Queued.{QueueMap, NoneEmpty};

    ghost Value = { QueueMap };

    ghost coded = { map.code coded_ℕ (set.code coded_ℕ) };

    ghost view = { λ a. a.by_number };

    ghost invariant = { λ a. NoneEmpty a.by_number };
}

impl Queues {
    /// Nobody stands anywhere. Takes no memory.
    pub fn new(alloc: Global) -> Self
        ensures { result ≡ map.empty }
    {
        Queues {
            alloc,
            by_number: NumMap::new(alloc),
        }
    }

    /// The thread stands at the number from here on. `Err` where memory ran out: then it stands where it stood.
    pub fn stand(&mut self, number: u64, thread: u64) -> Result<(), AllocError>
        ensures ok { OnOk result ((n t : ℕ) → has_at self.new n t ≡ (has_at self.old n t || (nat_eq n number && nat_eq t thread))) }
        ensures err { OnErr result (self.new ≡ self.old) }
    {
        if self.by_number.contains(number) {
            self.by_number.get_mut(number).stand(thread)?;
            return Ok(());
        }
        let queue = Queue::new(self.alloc, thread);
        self.by_number.insert(number, queue)?;
        Ok(())
    }

    /// The thread no longer stands at the number. A queue that gets empty is dropped.
    pub fn leave(&mut self, number: u64, thread: u64)
        ensures { (n t : ℕ) → has_at self.new n t ≡ (has_at self.old n t && not (nat_eq n number && nat_eq t thread)) }
    {
        let Some(queue) = self.by_number.get(number) else {
            return;
        };
        if queue.is_only(thread) {
            self.by_number.remove(number);
            return;
        }
        self.by_number.get_mut(number).leave(thread);
    }

    /// Each thread that stands at the number, which is in `threads`, is left to be tested.
    pub(crate) fn leave_each(
        &self,
        number: u64,
        threads: &mut NumMap<Waiting>,
        left: &mut NumberSet,
    )
        requires there { (t : ℕ) → has_at self.now number t ≡ true → IsSome (map.get threads.old t) }
        requires set { IsFlagged is_left threads.old left.old }
        ensures marks { (t : ℕ) → map.get threads.new t ≡ cond (has_at self.now number t) (option_map touched (map.get threads.old t)) (map.get threads.old t) }
        ensures set { IsFlagged is_left threads.new left.new }
    {
        if let Some(queue) = self.by_number.get(number) {
            queue.leave_each(threads, left);
        }
    }

    /// The next number after `after` at which somebody stands.
    pub fn next_number(&self, after: Option<u64>) -> Option<u64>
        ensures next { IsNext (λ n. map.contains_key self.now n) after result }
        ensures some { NoneEmpty self.now }
    {
        next_key(&self.by_number, after)
    }
}

// The least key after `after`, or of all where that is `None`.
pub(crate) fn next_key<V>(entries: &NumMap<V>, after: Option<u64>) -> Option<u64>
    ensures { IsNext (λ q. map.contains_key entries.now q) after result }
{
    match after {
        None => entries.first_from(0),
        Some(key) => entries.first_after(key),
    }
}
