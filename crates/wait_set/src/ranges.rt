//! The waiting threads of which the numbers lie between two bounds, as those of a process do.
ghost use Rattle.std.specs.Prelude.{◌≡◌, ℕ, None, Some, cond, option_map, IsSome};
ghost use Rattle.std.specs.FinMap as map;
ghost use Rattle.wait_set.specs.Next.{IsFirst, is_between};
ghost use Rattle.wait_set.specs.declared.waiting.Waiting.{Waiting};
ghost use Rattle.wait_set.specs.Waits.{spread_out};

use crate::wait_set::WaitSet;

impl WaitSet {
    /// The threads from `first` on and before `end` wait no longer, and stand nowhere. `take_gone` tells each. Takes no memory, and
    /// the time of the places that they have.
    pub fn remove_between(&mut self, first: u64, end: u64)
        ensures { (k : ℕ) → map.get self.new k ≡ cond (is_between first end k) None (map.get self.old k) }
    {
        let mut from = first;
        while let Some(thread) = self.first_between(from, end) {
            self.take_out(thread, true);
            from = thread + 1;
        }
    }

    /// The threads from `first` on and before `end` that wait stand at each spot from here on, and are left to be tested. Takes no
    /// memory.
    pub fn spread_between(&mut self, first: u64, end: u64)
        ensures { (k : ℕ) → map.get self.new k ≡ cond (is_between first end k) (option_map spread_out (map.get self.old k)) (map.get self.old k) }
    {
        let mut from = first;
        while let Some(thread) = self.first_between(from, end) {
            self.spread(thread, true);
            self.leave(thread);
            from = thread + 1;
        }
    }

    // The first thread that waits from `from` on and before `end`.
    fn first_between(&self, from: u64, end: u64) -> Option<u64>
        ensures { IsFirst (λ t. map.contains_key self.now t) from end result }
    {
        let thread = self.threads.first_from(from)?;
        if thread < end { Some(thread) } else { None }
    }
}
