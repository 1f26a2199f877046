//! The numbers of processes, threads and objects.
use lists::{Items, TryClone};
use std::alloc::AllocError;
use std::marker::Model;

/// A process's number. The launched process has number 0.
#[derive(Clone, Copy)]
pub struct Pid(pub u32);

impl Model for Pid {
    ghost use Rattle.std.specs.Prelude.{ℕ};

    ghost Value = { ℕ };

    ghost view = { λ p. p.0 };

    ghost inverse = { λ n. record { 0 = n } };
}

/// A thread's number in its process. The first thread has number 1.
#[derive(Clone, Copy)]
pub struct Tid(pub u32);

impl Model for Tid {
    ghost use Rattle.std.specs.Prelude.{ℕ};

    ghost Value = { ℕ };

    ghost view = { λ t. t.0 };

    ghost inverse = { λ n. record { 0 = n } };
}

/// The number of an object that a descriptor may name: the creator's process number times 2^32, and its count.
#[derive(Clone, Copy)]
pub struct ObjId(pub u64);

impl Model for ObjId {
    ghost use Rattle.std.specs.Prelude.{ℕ};

    ghost Value = { ℕ };

    ghost view = { λ o. o.0 };

    ghost inverse = { λ n. record { 0 = n } };
}

/// Threads in an order, seen as a list of their numbers.
pub type TidList = Items<Tid>;

impl TryClone for Tid {
    fn copy(&self) -> Result<Self, AllocError> {
        Ok(*self)
    }
}
