//! What a thread waits for, since when, and how far its wait has come.
ghost use Rattle.std.specs.Prelude.{◌≡◌};
ghost use Rattle.kernel_model.specs.Families.Locks as model;
ghost use Rattle.kernel_model.specs.Waits as waits;
ghost use Rattle.kernel_model.specs.Wakes as wakes;
ghost use Rattle.guest_locks.specs.Queues.{since_in};

use abi_types::{Call, Stage, Thread, What};

/// The threads that wait for a lock, for a lock to write, or at a condition variable, which is at this address.
#[derive(Clone, Copy)]
pub(crate) enum Queue {
    Lock(u64),
    Writers(u64),
    Sleepers(u64),
}

/// What a poll waits for in the first place.
pub(crate) fn first_awaited(call: &Call) -> Option<What>
    ensures { result ≡ model.first_awaited call.now }
{
    match call {
        Call::Poll { subscriptions } => match subscriptions.as_slice().first() {
            Some(first) => Some(first.what),
            None => None,
        },
        _ => None,
    }
}

/// Whether a condition variable is waited for.
pub(crate) fn is_condition(what: Option<What>) -> bool
    ensures { result ≡ model.is_condition what }
{
    matches!(what, Some(What::Condvar { .. }))
}

// The moment, where the addresses are one.
fn at_address(wanted: u64, address: u64, moment: u64) -> Option<u64>
    ensures { result ≡ model.at_address wanted address moment }
{
    if address == wanted {
        Some(moment)
    } else {
        None
    }
}

// Since when a thread waits for the lock that waits for this and has come so far.
fn awaits_lock(at: u64, what: Option<What>, since: u64, stage: Stage) -> Option<u64>
    ensures { result ≡ model.awaits_lock at what since stage }
{
    match (what?, stage) {
        (What::LockRdlock { lock, .. } | What::LockWrlock { lock, .. }, Stage::Begun) => {
            at_address(at, lock, since)
        }
        (What::Condvar { lock, .. }, Stage::Queued { at: moment, .. }) => {
            at_address(at, lock, moment)
        }
        _ => None,
    }
}

// Since when it waits at the condition variable.
fn awaits_signal(at: u64, what: Option<What>, since: u64, stage: Stage) -> Option<u64>
    ensures { result ≡ model.awaits_signal at what since stage }
{
    match (what?, stage) {
        (What::Condvar { condvar, .. }, Stage::Begun) => at_address(at, condvar, since),
        _ => None,
    }
}

/// Since when a thread waits for the lock at this address.
pub(crate) fn waits_for(at: u64, thread: &Thread) -> Option<u64>
    ensures { result ≡ model.waits_for at thread.now }
{
    match thread {
        Thread::Runnable => None,
        Thread::Waits {
            call,
            since,
            stage,
            ..
        } => awaits_lock(at, first_awaited(call), *since, *stage),
    }
}

/// Since when a thread waits at the condition variable at this address.
pub(crate) fn sleeps_at(at: u64, thread: &Thread) -> Option<u64>
    ensures { result ≡ model.sleeps_at at thread.now }
{
    match thread {
        Thread::Runnable => None,
        Thread::Waits {
            call,
            since,
            stage,
            ..
        } => awaits_signal(at, first_awaited(call), *since, *stage),
    }
}

// Whether this is waited for to read.
fn is_to_read(what: Option<What>) -> bool
    ensures { result ≡ model.is_to_read what }
{
    matches!(what, Some(What::LockRdlock { .. }))
}

/// Whether a thread waits for a lock to read.
pub(crate) fn is_reader(thread: &Thread) -> bool
    ensures { result ≡ model.is_reader thread.now }
{
    match thread {
        Thread::Runnable => false,
        Thread::Waits { call, .. } => is_to_read(first_awaited(call)),
    }
}

// Since when a thread waits for the lock to write.
fn waits_to_write(at: u64, thread: &Thread) -> Option<u64>
    ensures { result ≡ model.waits_to_write at thread.now }
{
    if is_reader(thread) {
        None
    } else {
        waits_for(at, thread)
    }
}

impl Queue {
    /// Since when a thread stands in the queue.
    pub(crate) fn since(self, thread: &Thread) -> Option<u64>
        ensures { result ≡ since_in self thread.now }
    {
        match self {
            Queue::Lock(at) => waits_for(at, thread),
            Queue::Writers(at) => waits_to_write(at, thread),
            Queue::Sleepers(at) => sleeps_at(at, thread),
        }
    }
}

/// Whether a deadline came before a signal; of a thread that is still at its condition variable and goes on, it did.
pub fn is_late(stage: Stage) -> bool
    ensures { result ≡ model.is_late stage }
{
    match stage {
        Stage::Begun => true,
        Stage::Signalled => false,
        Stage::Queued { late, .. } | Stage::Granted { late } => late,
    }
}

/// Whether a thread has left its condition variable, and waits for the lock; its deadline doesn't count then.
pub fn has_left(call: &Call, stage: Stage) -> bool
    ensures { result ≡ waits.has_left call.now stage }
{
    match stage {
        Stage::Begun | Stage::Signalled => false,
        Stage::Queued { .. } => true,
        Stage::Granted { .. } => is_condition(first_awaited(call)),
    }
}

/// Whether a thread goes on whose wait for a lock or at a condition variable has come so far, by whether its time has come.
pub fn goes_on(stage: Stage, due: bool) -> bool
    ensures { result ≡ wakes.goes_on_at stage due }
{
    match stage {
        Stage::Begun => due,
        Stage::Signalled | Stage::Granted { .. } => true,
        Stage::Queued { .. } => false,
    }
}

/// How far a wait has come that goes on at the moment `now`, by how far it had come: of a call it begins, and a thread that was woken at its
/// condition variable waits for the lock from then on.
pub fn stage_after(call: &Call, stage: Option<Stage>, now: u64) -> Stage
    ensures { result ≡ waits.stage_after call.now stage now }
{
    match stage {
        Some(stage) if is_condition(first_awaited(call)) => Stage::Queued {
            at: now,
            late: is_late(stage),
        },
        _ => Stage::Begun,
    }
}
