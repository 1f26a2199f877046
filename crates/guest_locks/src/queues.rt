//! Who has waited longest.
ghost use Rattle.std.specs.Prelude.{◌≡◌};
ghost use Rattle.std.specs.FinMap as map;
ghost use Rattle.kernel_model.specs.Earliest.{earliest, moment_of_value};
ghost use Rattle.kernel_model.specs.Families.Locks as model;
ghost use Rattle.guest_locks.specs.Queues.{beside, first_in, number_of, since_in, AreFew};

use crate::waits::{Queue, sleeps_at, waits_for};
use abi_types::Thread;
use maps::NumMap;

/// Whether some thread waits for the lock at this address.
pub fn some_waits(threads: &NumMap<Thread>, lock: u64) -> bool
    ensures { result ≡ model.some_waits lock threads.now }
{
    threads
        .first_where(|thread| waits_for(lock, thread).is_some())
        .is_some()
}

/// Whether some thread waits at the condition variable at this address.
pub fn some_sleeps(threads: &NumMap<Thread>, condvar: u64) -> bool
    ensures { result ≡ model.some_sleeps condvar threads.now }
{
    threads
        .first_where(|thread| sleeps_at(condvar, thread).is_some())
        .is_some()
}

// A thread of a queue, and since when it stands there.
#[derive(Clone, Copy)]
struct Waiter {
    tid: u64,
    since: u64,
}

// The thread of this number beside what was found of those before it, if it stands in the queue since some moment: of the two the one that
// has waited longer.
fn beside(found: Option<Waiter>, tid: u64, since: Option<u64>) -> Option<Waiter>
    ensures { result ≡ beside found tid since }
{
    let Some(since) = since else {
        return found;
    };
    match found {
        Some(first) if first.since <= since => found,
        _ => Some(Waiter { tid, since }),
    }
}

// The thread's number.
fn number_of(found: Option<Waiter>) -> Option<u64>
    ensures { result ≡ number_of found }
{
    match found {
        Some(waiter) => Some(waiter.tid),
        None => None,
    }
}

// Since when the thread of this number stands in a queue.
fn since_at(threads: &NumMap<Thread>, tid: u64, queue: Queue) -> Option<u64>
    ensures { result ≡ moment_of_value (since_in queue) (map.get threads.now tid) }
{
    match threads.get(tid) {
        Some(thread) => queue.since(thread),
        None => None,
    }
}

/// The thread that has stood in a queue longest, and of several the one with the least number.
pub(crate) fn first_in(threads: &NumMap<Thread>, queue: Queue) -> Option<u64>
    requires few { AreFew threads.now }
    ensures { result ≡ first_in queue threads.now }
{
    let mut found = None;
    let mut from = 0;
    while let Some(tid) = threads.first_from(from) {
        found = beside(found, tid, since_at(threads, tid, queue));
        from = tid + 1;
    }
    number_of(found)
}

/// Since when it stands there.
pub(crate) fn earliest_in(threads: &NumMap<Thread>, queue: Queue) -> Option<u64>
    requires few { AreFew threads.now }
    ensures { result ≡ earliest (since_in queue) threads.now }
{
    match first_in(threads, queue) {
        Some(tid) => since_at(threads, tid, queue),
        None => None,
    }
}

/// The thread that has waited longest for the lock at this address.
pub fn front(threads: &NumMap<Thread>, lock: u64) -> Option<u64>
    requires few { AreFew threads.now }
    ensures { result ≡ model.front lock threads.now }
{
    first_in(threads, Queue::Lock(lock))
}
