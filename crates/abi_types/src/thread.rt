//! What a live thread does.
use crate::call::Call;

/// How far a thread's wait for a lock or at a condition variable has come. A thread that waits for anything else has `Begun` to.
#[derive(Clone, Copy, Debug, PartialEq, Eq)]
pub enum Stage {
    /// It waits as its call began to: for the lock, or at the condition variable.
    Begun,
    /// It was signalled at its condition variable, and is to take the lock.
    Signalled,
    /// It has left its condition variable, and waits for the lock since the moment `at`. `late`: its deadline came before a signal.
    Queued { at: u64, late: bool },
    /// The lock was given to it. `late` is as above.
    Granted { late: bool },
}

/// A live thread of a process. A thread that isn't live is in no process's list.
#[derive(Drop)]
pub enum Thread {
    /// It takes its turns.
    Runnable,
    /// It waits in a call, which was made at the moment `since`, and it waits no longer than until the moment `until`, if there is
    /// one. Its wait has come so far.
    Waits {
        call: Call,
        since: u64,
        until: Option<u64>,
        stage: Stage,
    },
}
