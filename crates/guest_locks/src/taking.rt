//! How a thread takes a lock.
ghost use Rattle.std.specs.Prelude.{◌≡◌, ◌<◌, ◌^◌};
ghost use Rattle.kernel_model.specs.Families.LockWords.{holding_of};
ghost use Rattle.kernel_model.specs.Families.Locks as model;
ghost use Rattle.guest_locks.specs.Words.{holding_in, taking_in};

use crate::queues::some_waits;
use crate::words::{Holding, MOST_READERS, WRITTEN, holding_of};
use abi_types::{Thread, Tid};
use maps::NumMap;

/// What it comes to that a thread asks for a lock.
#[derive(Clone, Copy)]
pub enum Taking {
    /// It has it to write already.
    Deadlock,
    /// As many have it to read as there may be.
    TooMany,
    /// It gets it, and the word becomes this.
    Takes(u32),
    /// It waits.
    Queues,
}

/// Whether the thread has the lock with this word to write.
pub fn is_written_by(tid: Tid, word: u32) -> bool
    ensures { result ≡ model.is_written_by tid (holding_of word) }
{
    match holding_of(word) {
        Holding::Written(owner) => owner == tid.0,
        _ => false,
    }
}

// What it comes to that the thread asks for a lock to write that nobody waits for.
fn takes_to_write(tid: Tid, holding: Holding) -> Taking
    requires low { tid < 2 ^ 30 }
    ensures { taking_in result ≡ model.takes_to_write tid (holding_in holding) }
{
    match holding {
        Holding::Unheld => Taking::Takes(WRITTEN + tid.0),
        _ => Taking::Queues,
    }
}

// The same to read.
fn takes_to_read(holding: Holding) -> Taking
    ensures { taking_in result ≡ model.takes_to_read (holding_in holding) }
{
    match holding {
        Holding::Unheld => Taking::Takes(1),
        Holding::Written(_) => Taking::Queues,
        Holding::Read(readers) => {
            if readers < MOST_READERS {
                Taking::Takes(readers + 1)
            } else {
                Taking::TooMany
            }
        }
    }
}

/// What it comes to that a thread asks for the lock at this address, whose word is this: to read, or else to write.
pub fn ask(threads: &NumMap<Thread>, tid: Tid, reads: bool, lock: u64, word: u32) -> Taking
    requires low { tid < 2 ^ 30 }
    ensures { taking_in result ≡ model.taking reads tid word (model.some_waits lock threads.now) }
{
    if is_written_by(tid, word) {
        Taking::Deadlock
    } else if some_waits(threads, lock) {
        Taking::Queues
    } else if reads {
        takes_to_read(holding_of(word))
    } else {
        takes_to_write(tid, holding_of(word))
    }
}

/// What it comes to that a thread has left its condition variable, and takes the lock at this address again to write, whose word is this.
pub fn retake(threads: &NumMap<Thread>, tid: Tid, lock: u64, word: u32) -> Taking
    requires low { tid < 2 ^ 30 }
    ensures { taking_in result ≡ model.retaking tid word (model.some_waits lock threads.now) }
{
    if some_waits(threads, lock) {
        Taking::Queues
    } else {
        takes_to_write(tid, holding_of(word))
    }
}
