//! The threads that stand at one number.
ghost use Rattle.std.specs.Prelude.{◌≡◌, ◌≢◌, ℕ, true, false, cond, option_map, IsSome, OnOk, OnErr};
ghost use Rattle.std.specs.FinMap as map;
ghost use Rattle.wait_set.specs.Tied.{IsFlagged};
ghost use Rattle.wait_set.specs.Waits.{is_left, touched};

use crate::leaving::leave;
use crate::number_set::NumberSet;
use crate::thread_set::ThreadSet;
use crate::waiting::Waiting;
use maps::NumMap;
use std::alloc::{AllocError, Global};
use std::marker::Model;

/// A set of threads that isn't empty, which contracts see as a finite map. A set of one thread takes no memory.
#[derive(Drop)]
pub struct Queue {
    // The least thread, and the others.
    first: u64,
    rest: ThreadSet,
}

impl Model for Queue {
    ghost use Rattle.std.specs.FinMap as map;
    ghost use Rattle.std.specs.FinSet as set;
    ghost use Rattle.std.specs.Coded.{coded_ℕ};
    ghost use Rattle.wait_set.specs.Queued.{QueueSet, IsLeast};

    ghost Value = { QueueSet };

    ghost coded = { set.code coded_ℕ };

    ghost view = { λ a. map.insert a.rest a.first tt };

    ghost invariant = { λ a. IsLeast a.first a.rest };
}

impl Queue {
    /// The set of this thread alone. Takes no memory.
    pub fn new(alloc: Global, thread: u64) -> Self
        ensures { result ≡ map.insert map.empty thread tt }
    {
        Queue {
            first: thread,
            rest: ThreadSet::new(alloc),
        }
    }

    /// The thread is in from here on. `Err` where memory ran out: then nothing has changed.
    pub fn stand(&mut self, thread: u64) -> Result<(), AllocError>
        ensures ok { OnOk result (self.new ≡ map.insert self.old thread tt) }
        ensures err { OnErr result (self.new ≡ self.old) }
    {
        if thread < self.first {
            self.rest.insert(self.first)?;
            self.first = thread;
            return Ok(());
        }
        if thread == self.first {
            return Ok(());
        }
        self.rest.insert(thread)?;
        Ok(())
    }

    /// Whether no other thread is in.
    pub fn is_only(&self, thread: u64) -> bool
        ensures only { result ≡ true → self.now ≡ map.insert map.empty thread tt }
        ensures more { result ≡ false → map.remove self.now thread ≢ map.empty }
    {
        if self.first != thread {
            return false;
        }
        self.rest.is_empty()
    }

    /// The thread, beside which there is another one, is no longer in. Takes no memory.
    pub fn leave(&mut self, thread: u64)
        requires { map.remove self.old thread ≢ map.empty }
        ensures { self.new ≡ map.remove self.old thread }
    {
        if thread != self.first {
            self.rest.remove(thread);
            return;
        }
        let (next, _) = self.rest.pop_first().unwrap();
        self.first = next;
    }

    /// Each thread, which is in `threads`, is left to be tested.
    pub(crate) fn leave_each(&self, threads: &mut NumMap<Waiting>, left: &mut NumberSet)
        requires there { (t : ℕ) → map.contains_key self.now t ≡ true → IsSome (map.get threads.old t) }
        requires set { IsFlagged is_left threads.old left.old }
        ensures marks { (t : ℕ) → map.get threads.new t ≡ cond (map.contains_key self.now t) (option_map touched (map.get threads.old t)) (map.get threads.old t) }
        ensures set { IsFlagged is_left threads.new left.new }
    {
        leave(threads, left, self.first);
        self.rest.leave_each(threads, left);
    }
}
