//! The words of locks.
ghost use Rattle.std.specs.Prelude.{◌≡◌, ◌<◌, ◌+◌, ◌^◌};
ghost use Rattle.kernel_model.specs.Families.Locks as model;
ghost use Rattle.kernel_model.specs.Families.LockWords.{holding_of};
ghost use Rattle.guest_locks.specs.Words.{holding_in, release_in};

use abi_types::Tid;

/// The kernel knows of threads that wait for the lock.
pub(crate) const MANAGED: u32 = 1 << 31;

/// A thread has the lock to write: the bits below are its number.
pub(crate) const WRITTEN: u32 = 1 << 30;

/// How many threads may have a lock to read.
pub(crate) const MOST_READERS: u32 = (1 << 30) - 1;

/// Who has a lock.
#[derive(Clone, Copy)]
pub(crate) enum Holding {
    /// Nobody.
    Unheld,
    /// The thread of this number, to write.
    Written(u32),
    /// So many threads, to read.
    Read(u32),
}

/// What it comes to that a thread lets go of a lock.
#[derive(Clone, Copy)]
pub(crate) enum Release {
    /// It may not.
    Refuses,
    /// Others have it still to read, and the word is this.
    Leaves(u32),
    /// The lock is handed on.
    HandsOn,
}

/// Who has the lock with this word.
pub(crate) fn holding_of(word: u32) -> Holding
    ensures { holding_in result ≡ holding_of word }
{
    let low = word % MANAGED;
    if low == 0 {
        Holding::Unheld
    } else if low < WRITTEN {
        Holding::Read(low)
    } else {
        Holding::Written(low - WRITTEN)
    }
}

/// What it comes to that the thread lets go of the lock with this word.
pub(crate) fn release_of(tid: Tid, word: u32) -> Release
    ensures { release_in result ≡ model.release_of tid word }
{
    match holding_of(word) {
        Holding::Unheld => Release::Refuses,
        Holding::Written(owner) => {
            if owner == tid.0 {
                Release::HandsOn
            } else {
                Release::Refuses
            }
        }
        Holding::Read(readers) => {
            if readers > 1 {
                Release::Leaves(word - 1)
            } else {
                Release::HandsOn
            }
        }
    }
}

/// The word of a lock once a thread more waits for it.
pub fn managed_word(word: u32) -> u32
    ensures { result ≡ model.managed_word word }
{
    word | MANAGED
}
