//! A set of threads that can be walked.
ghost use Rattle.std.specs.Prelude.{◌≡◌, ◌≤◌, ◌↔◌, ℕ, true, cond, option_map, IfSome, IsNone, IsSome, IsTrue, OnOk, OnErr};
ghost use Rattle.std.specs.FinMap as map;
ghost use Rattle.wait_set.specs.Tied.{IsFlagged};
ghost use Rattle.wait_set.specs.Waits.{is_left, touched};

use crate::leaving::leave;
use crate::number_set::NumberSet;
use crate::waiting::Waiting;
use maps::NumMap;
use std::alloc::{AllocError, Global};
use std::collections::BTreeMap;
use std::marker::Model;

/// A set of threads, which contracts see as a finite map. A walk over all looks for none of them.
#[derive(Drop)]
pub struct ThreadSet {
    entries: BTreeMap<u64, ()>,
}

impl Model for ThreadSet {
    ghost use Rattle.std.specs.FinMap as map;
    ghost use Rattle.std.specs.FinSet as set;
    ghost use Rattle.std.specs.Coded.{coded_ℕ};
    ghost use Rattle.wait_set.specs.Queued.{QueueSet};

    ghost Value = { QueueSet };

    ghost coded = { set.code coded_ℕ };

    ghost view = { λ a. map.from_entries a.entries.entries };
}

impl ThreadSet {
    /// No thread. Takes no memory until the first one.
    pub fn new(alloc: Global) -> Self
        ensures { result ≡ map.empty }
    {
        ThreadSet {
            entries: BTreeMap::new(alloc),
        }
    }

    /// Whether there is no thread.
    pub fn is_empty(&self) -> bool
        ensures empty { IsTrue result ↔ (self.now ≡ map.empty) }
    {
        self.entries.len() == 0
    }

    /// The thread is in from here on. `Err` where memory ran out: then nothing has changed.
    pub fn insert(&mut self, thread: u64) -> Result<(), AllocError>
        ensures ok { OnOk result (self.new ≡ map.insert self.old thread tt) }
        ensures err { OnErr result (self.new ≡ self.old) }
    {
        self.entries.insert(thread, ())?;
        Ok(())
    }

    /// The thread is no longer in. Takes no memory.
    pub fn remove(&mut self, thread: u64)
        ensures new { self.new ≡ map.remove self.old thread }
    {
        self.entries.remove(&thread);
    }

    /// Takes the least thread out. `None` is the answer where there is none.
    pub fn pop_first(&mut self) -> Option<(u64, ())>
        ensures none { IsNone result ↔ (self.old ≡ map.empty) }
        ensures least { IfSome result (λ entry. (q : ℕ) → IsSome (map.get self.old q) → entry.0 ≤ q) }
        ensures value { IfSome result (λ entry. map.get self.old entry.0 ≡ Some entry.1) }
        ensures new { IfSome result (λ entry. self.new ≡ map.remove self.old entry.0) }
    {
        self.entries.pop_first()
    }

    /// Each thread, which is in `threads`, is left to be tested.
    pub(crate) fn leave_each(&self, threads: &mut NumMap<Waiting>, left: &mut NumberSet)
        requires there { (t : ℕ) → map.contains_key self.now t ≡ true → IsSome (map.get threads.old t) }
        requires set { IsFlagged is_left threads.old left.old }
        ensures marks { (t : ℕ) → map.get threads.new t ≡ cond (map.contains_key self.now t) (option_map touched (map.get threads.old t)) (map.get threads.old t) }
        ensures set { IsFlagged is_left threads.new left.new }
    {
        for (thread, _) in &self.entries {
            leave(threads, left, *thread);
        }
    }
}
