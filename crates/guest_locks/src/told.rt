//! Which threads are to be looked at again.
ghost use Rattle.std.specs.Prelude.{◌≡◌, ℕ, true, false};
ghost use Rattle.guest_locks.specs.Told.{has};

use abi_types::MOST_THREADS;
use arrayvec::ArrayVec;
use std::marker::Model;

/// The threads of a process that were given a lock or signalled, so that they are to be looked at again: each of them is told of
/// (`TellsOf`).
#[derive(Drop)]
pub struct Told {
    numbers: ArrayVec<u64, MOST_THREADS>,
    all: bool,
}

impl Model for Told {
    ghost use Rattle.guest_locks.specs.Told.{Told};

    ghost Value = { Told };

    ghost view = { λ told. record { numbers = told.numbers.items; all = told.all } };
}

impl Told {
    /// No thread.
    pub fn new() -> Told
        ensures { (t : ℕ) → has t result ≡ false }
    {
        Told {
            numbers: ArrayVec::new(),
            all: false,
        }
    }

    // A thread more. There is room for each thread of a process once; were there none, all would be told of.
    pub(crate) fn add(&mut self, tid: u64)
        ensures told { has tid self.new ≡ true }
        ensures kept { (t : ℕ) → has t self.old ≡ true → has t self.new ≡ true }
    {
        if self.numbers.try_push(tid).is_err() {
            self.all = true;
        }
    }

    /// The numbers of those that are told of, where it isn't all of the process.
    pub fn numbers(&self) -> &[u64]
        ensures { result.now ≡ self.now.numbers }
    {
        self.numbers.as_slice()
    }

    /// Whether all threads of the process are told of.
    pub fn all(&self) -> bool
        ensures { result ≡ self.now.all }
    {
        self.all
    }
}
