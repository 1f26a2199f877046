//! How a lock is handed on.
ghost use Rattle.std.specs.Prelude.{◌≡◌, ◌<◌, ◌^◌, Some, IsSome};
ghost use Rattle.std.specs.FinMap as map;
ghost use Rattle.kernel_model.specs.Families.Locks as model;
ghost use Rattle.guest_locks.specs.Handing.{given_at, given_next, reads_before};
ghost use Rattle.guest_locks.specs.Queues.{AreFew};
ghost use Rattle.guest_locks.specs.Told.{TellsOf};

use crate::queues::{earliest_in, front, some_waits};
use crate::told::Told;
use crate::waits::{Queue, is_late, is_reader, waits_for};
use crate::words::{MANAGED, Release, WRITTEN, release_of};
use abi_types::{Stage, Thread, Tid};
use maps::NumMap;

// The lock is given to a thread.
fn give(thread: &mut Thread)
    ensures { thread.new ≡ model.given thread.old }
{
    if let Thread::Waits { stage, .. } = thread {
        *stage = Stage::Granted {
            late: is_late(*stage),
        };
    }
}

// The lock is given to the thread of this number.
fn give_to(threads: &mut NumMap<Thread>, tid: u64, told: &mut Told)
    requires there { IsSome (map.get threads.old tid) }
    ensures threads { threads.new ≡ given_at tid threads.old }
    ensures told { TellsOf threads.old threads.new told.old told.new }
{
    give(threads.get_mut(tid));
    told.add(tid);
}

// Whether a thread waits for the lock to read, and none that waits for it to write has waited longer, which has since `limit`.
fn reads_before(at: u64, limit: Option<u64>, thread: &Thread) -> bool
    ensures { result ≡ reads_before at limit thread.now }
{
    if !is_reader(thread) {
        return false;
    }
    match (waits_for(at, thread), limit) {
        (Some(since), Some(limit)) => since <= limit,
        (Some(_), None) => true,
        (None, _) => false,
    }
}

// The lock is given to all that wait to read and stand before any that waits to write: how many they are.
fn give_readers(threads: &mut NumMap<Thread>, lock: u64, told: &mut Told) -> u32
    requires few { AreFew threads.old }
    ensures threads { threads.new ≡ given_next lock threads.old }
    ensures count { result ≡ model.count_next lock threads.old }
    ensures few { result < 2 ^ 30 }
    ensures told { TellsOf threads.old threads.new told.old told.new }
{
    let limit = earliest_in(threads, Queue::Writers(lock));
    let mut count = 0;
    while let Some(tid) = threads.first_where(|thread| reads_before(lock, limit, thread)) {
        give_to(threads, tid, told);
        count += 1;
    }
    count
}

// Whether the thread of this number waits for a lock to read.
fn is_reader_at(threads: &NumMap<Thread>, tid: u64) -> bool
    ensures { result ≡ model.reads_in (map.get threads.now tid) }
{
    match threads.get(tid) {
        Some(thread) => is_reader(thread),
        None => false,
    }
}

// The lock is handed on, for which this thread has waited longest. The result is its word then, but for the bit that others wait.
fn hand_to(threads: &mut NumMap<Thread>, lock: u64, first: u64, told: &mut Told) -> u32
    requires few { AreFew threads.old }
    requires first { model.front lock threads.old ≡ Some first }
    ensures threads { threads.new ≡ model.handed lock threads.old }
    ensures word { result ≡ model.low_word (model.next_of lock threads.old) lock threads.old }
    ensures low { result < 2 ^ 31 }
    ensures told { TellsOf threads.old threads.new told.old told.new }
{
    if is_reader_at(threads, first) {
        return give_readers(threads, lock, told);
    }
    give_to(threads, first, told);
    WRITTEN + first as u32
}

/// The lock at this address is handed on: to the thread that has waited longest, if that is to write, and else to all that wait to read
/// and stand before any that waits to write. The result is its word then. The threads that get it are told of.
pub fn hand_on(threads: &mut NumMap<Thread>, lock: u64, told: &mut Told) -> u32
    requires few { AreFew threads.old }
    ensures threads { threads.new ≡ model.handed lock threads.old }
    ensures word { result ≡ model.handed_word lock threads.old }
    ensures told { TellsOf threads.old threads.new told.old told.new }
{
    let Some(first) = front(threads, lock) else {
        return 0;
    };
    let low = hand_to(threads, lock, first, told);
    if some_waits(threads, lock) {
        low + MANAGED
    } else {
        low
    }
}

/// The thread lets go of the lock at this address, whose word is this: the word becomes the result, and `None` is that the thread may not.
/// Where the lock is handed on, the threads that get it are told of.
pub fn unlock(
    threads: &mut NumMap<Thread>,
    tid: Tid,
    lock: u64,
    word: u32,
    told: &mut Told,
) -> Option<u32>
    requires few { AreFew threads.old }
    ensures threads { threads.new ≡ model.released_threads (model.release_of tid word) lock threads.old }
    ensures word { result ≡ model.released_word (model.release_of tid word) lock threads.old }
    ensures told { TellsOf threads.old threads.new told.old told.new }
{
    match release_of(tid, word) {
        Release::Refuses => None,
        Release::Leaves(left) => Some(left),
        Release::HandsOn => Some(hand_on(threads, lock, told)),
    }
}
