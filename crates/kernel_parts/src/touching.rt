//! Whom a change may concern: threads that were given a lock or signalled, those that wait for the end of a process, at channels, or on a
//! number that stands for something else from then on. They are left to be looked at.
ghost use Rattle.std.specs.Prelude.{◌≡◌, ◌&&◌, nat_eq, not, option_copied, OnOk, OnErr};
ghost use Rattle.std.specs.List.{list_any};
ghost use Rattle.kernel_parts.specs.Keys.{is_own, key};
ghost use Rattle.kernel_parts.specs.Touching.{HasEach, begun_if, is_concerned, left_if, looks_behind, looks_for, spread_if, stands_at, stands_at_end, subscribes, told_entry, waits_on, gone_if};
ghost use Rattle.wait_set.specs.declared.spot.Spot.TheVariants.{Ended};
ghost use Rattle.wait_set.specs.Waits.{flag, stands, touched, where_so};

use crate::keys::{end_key, thread_key};
use crate::numbers::next_number;
use crate::process::ProcessState;
use abi_types::{Call, ObjId, OpenKind, Pid, Subscription, Thread, Tid, What};
use guest_locks::Told;
use std::alloc::AllocError;
use wait_set::{Spot, WaitSet};

// Whether what a subscription waits for is looked for by the number.
fn subscribes(what: &What, fd: u32) -> bool
    ensures { result ≡ looks_behind fd what.now }
{
    match *what {
        What::FdRead { fd: own } | What::FdWrite { fd: own } | What::ProcTerminate { fd: own } => {
            own == fd
        }
        _ => false,
    }
}

// Whether some subscription is of the number.
fn polls(subscriptions: &[Subscription], fd: u32) -> bool
    ensures { result ≡ list_any (subscribes fd) subscriptions.now }
{
    subscriptions
        .iter()
        .any(|subscription| subscribes(&subscription.what, fd))
}

// Whether a call that may wait looks at what the number stands for.
fn names(call: &Call, fd: u32) -> bool
    ensures { result ≡ looks_for fd call.now }
{
    match call {
        Call::FdRead { fd: own, .. }
        | Call::FdWrite { fd: own, .. }
        | Call::SockRecv { fd: own, .. } => *own == fd,
        Call::SockSend { fd: own, fds, .. } => *own == fd || fds.as_slice().contains(&fd),
        Call::Poll { subscriptions } => polls(subscriptions.as_slice(), fd),
        _ => false,
    }
}

/// The threads of a process that were given a lock or signalled are left; where that may be all, they are spread too.
pub fn touch_told(waits: &mut WaitSet, pid: Pid, told: &Told)
    ensures { HasEach (told_entry pid told.now) waits.old waits.new }
{
    if told.all() {
        touch_numbers(waits, pid);
        return;
    }
    for number in told.numbers() {
        if let Ok(tid) = u32::try_from(*number) {
            waits.touch_thread(thread_key(pid, Tid(tid)));
        }
    }
}

/// A process ends: its threads are none of those that wait any more, and those that wait for its end are left.
pub fn touch_ended(waits: &mut WaitSet, pid: Pid)
    ensures { HasEach (λ k entry. gone_if (is_own pid k) (left_if (flag (stands (Ended pid)) entry) entry)) waits.old waits.new }
{
    waits.remove_between(thread_key(pid, Tid(0)), end_key(pid));
    waits.touch(Spot::Ended(u64::from(pid.0)));
}

/// No thread of a process is left but this one.
pub fn keep_thread(waits: &mut WaitSet, pid: Pid, tid: Tid)
    ensures { HasEach (λ k. gone_if (is_own pid k && not (nat_eq k (key pid tid)))) waits.old waits.new }
{
    let key = thread_key(pid, tid);
    waits.remove_between(thread_key(pid, Tid(0)), key);
    waits.remove_between(key.saturating_add(1), end_key(pid));
}

// Those that wait at the channel are left, if it is one.
fn touch_channel(waits: &mut WaitSet, id: Option<ObjId>)
    ensures { waits.new ≡ where_so (stands_at id) (λ _ w. touched w) waits.old }
{
    if let Some(id) = id {
        waits.touch(Spot::Channel(id.0));
    }
}

/// Those that wait at the channels of an open are left.
pub fn touch_end(waits: &mut WaitSet, kind: &OpenKind)
    ensures { waits.new ≡ where_so (stands_at_end kind.now) (λ _ w. touched w) waits.old }
{
    if let OpenKind::End { reads, writes, .. } = kind {
        touch_channel(waits, *reads);
        touch_channel(waits, *writes);
    }
}

// A thread is left, wherever it stands, if it waits in a call that names the number.
fn touch_if_named(waits: &mut WaitSet, pid: Pid, number: u64, thread: Option<&Thread>, fd: u32)
    ensures { HasEach (λ k. spread_if (nat_eq k (key pid number) && (is_own pid k && waits_on fd (option_copied thread.entry)))) waits.old waits.new }
{
    if let (Some(Thread::Waits { call, .. }), Ok(tid)) = (thread, u32::try_from(number)) {
        if names(call, fd) {
            let key = thread_key(pid, Tid(tid));
            waits.spread_between(key, key.saturating_add(1));
        }
    }
}

/// The number stands for something else in a process: those of its threads that wait on the number are left, wherever they stand.
pub fn touch_number(waits: &mut WaitSet, pid: Pid, own: &ProcessState, fd: u32)
    ensures { HasEach (λ k. spread_if (is_concerned pid fd own.now.threads k)) waits.old waits.new }
{
    let mut last = None;
    while let Some(number) = next_number(&own.threads, last) {
        touch_if_named(waits, pid, number, own.threads.get(number), fd);
        last = Some(number);
    }
}

/// Numbers stand for something else in a process: its threads are left, wherever they stand.
pub fn touch_numbers(waits: &mut WaitSet, pid: Pid)
    ensures { HasEach (λ k. spread_if (is_own pid k)) waits.old waits.new }
{
    waits.spread_between(thread_key(pid, Tid(0)), end_key(pid));
}

/// A thread has an entry from here on. `Err` where memory ran out, and changes nothing.
pub fn ensure_entry(waits: &mut WaitSet, pid: Pid, tid: Tid) -> Result<(), AllocError>
    ensures ok { OnOk result (HasEach (λ k. begun_if (nat_eq k (key pid tid))) waits.old waits.new) }
    ensures err { OnErr result (waits.new ≡ waits.old) }
{
    let key = thread_key(pid, tid);
    if waits.contains(key) {
        return Ok(());
    }
    waits.begin(key)
}
