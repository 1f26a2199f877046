//! Signals of condition variables.
ghost use Rattle.std.specs.Prelude.{◌≡◌, Some, IsSome};
ghost use Rattle.std.specs.FinMap as map;
ghost use Rattle.kernel_model.specs.Families.Locks as model;
ghost use Rattle.guest_locks.specs.Queues.{AreFew};
ghost use Rattle.guest_locks.specs.Signals.{next_sleeper};
ghost use Rattle.guest_locks.specs.Told.{TellsOf};

use crate::queues::{first_in, some_sleeps};
use crate::told::Told;
use crate::waits::Queue;
use abi_types::{Stage, Thread};
use maps::NumMap;

// A thread is signalled.
fn call(thread: &mut Thread)
    ensures { thread.new ≡ model.called thread.old }
{
    if let Thread::Waits { stage, .. } = thread {
        *stage = Stage::Signalled;
    }
}

// The thread of this number is signalled.
fn call_at(threads: &mut NumMap<Thread>, tid: u64, told: &mut Told)
    requires there { IsSome (map.get threads.old tid) }
    ensures threads { threads.new ≡ model.with_called (Some tid) threads.old }
    ensures told { TellsOf threads.old threads.new told.old told.new }
{
    call(threads.get_mut(tid));
    told.add(tid);
}

// The thread that is to be signalled next, where so many are to be.
fn next_sleeper(threads: &NumMap<Thread>, condvar: u64, left: u32) -> Option<u64>
    requires few { AreFew threads.now }
    ensures { result ≡ next_sleeper condvar left threads.now }
{
    if left == 0 {
        return None;
    }
    first_in(threads, Queue::Sleepers(condvar))
}

/// So many of the threads that wait at the condition variable at this address are signalled, those that have waited longest. The result is
/// its word then. The threads are told of.
pub fn signal(threads: &mut NumMap<Thread>, condvar: u64, n: u32, told: &mut Told) -> u32
    requires few { AreFew threads.old }
    ensures threads { threads.new ≡ model.signalled n condvar threads.old }
    ensures word { result ≡ model.signalled_word n condvar threads.old }
    ensures told { TellsOf threads.old threads.new told.old told.new }
{
    let mut left = n;
    while let Some(tid) = next_sleeper(threads, condvar, left) {
        call_at(threads, tid, told);
        left -= 1;
    }
    u32::from(some_sleeps(threads, condvar))
}
