//! Which threads are ready: their marks, and where they stand, brought up to date after a change.
ghost use Rattle.std.specs.Prelude.{◌≡◌, ◌<◌, ◌&&◌, ◌^◌, Some, IsSome, IfOk, option_copied};
ghost use Rattle.std.specs.FinMap as map;
ghost use Rattle.kernel_invariant.specs.Readiness.{at_key, has_received, is_concerned_in, left_where_done, places_by_key, places_of, ready_by_key, thread_by_key, waits_no_more, AreLeftBy, HasStood, IsGathered};
ghost use Rattle.kernel_model.specs.OwnChanges.{is_done};
ghost use Rattle.kernel_parts.specs.Keys.{is_own, key};
ghost use Rattle.kernel_parts.specs.Touching.{HasEach, spread_if};
ghost use Rattle.wait_set.specs.Waits.{is_due, is_everywhere, resting, running, touched, where_so};

use abi_types::{Answer, Errno, OpenKind, Payload, Pid, Reply, Thread, Tid};
use fd_table::FdTable;
use kernel_parts::{
    ProcessState, goes_on, thread_key, thread_of_key, touch_end, touch_number, touch_numbers,
    wait_spots,
};
use maps::NumMap;
use object_store::Objects;
use poll_set::Surroundings;
use std::alloc::{AllocError, Global};
use std::sync::ledger::Ledger;
use wait_set::{Parts, Spot, Steps, WaitSet};

/// Time has gone on: those that wait until a moment that has come since are left, and those that stand everywhere.
pub fn touch_time(waits: &mut WaitSet, before: u64, now: u64)
    ensures { waits.new ≡ where_so is_everywhere (λ _ s. touched s) (where_so (is_due (Some before) (Some now)) (λ _ s. touched s) waits.old) }
{
    waits.touch_moments(Some(before), now);
    waits.touch_everywhere();
}

// Whether a call was done, and succeeded.
fn has_succeeded(answer: &Answer) -> bool
    ensures { result ≡ is_done answer.now }
{
    matches!(
        answer,
        Answer::Reply(Reply {
            errno: Errno::Success,
            ..
        })
    )
}

/// Those that wait at the channels of an end are left, where a call on it was done.
pub fn touch_answered(waits: &mut WaitSet, kind: &OpenKind, answer: &Answer)
    ensures { waits.new ≡ left_where_done answer.now kind.now waits.old }
{
    if has_succeeded(answer) {
        touch_end(waits, kind);
    }
}

// Whether a call was done by which descriptors came.
fn has_received(answer: &Answer) -> bool
    ensures { result ≡ has_received answer.now }
{
    let Answer::Reply(reply) = answer else {
        return false;
    };
    match &reply.payload {
        Payload::Received { fds, .. } => !fds.as_slice().is_empty(),
        _ => false,
    }
}

/// The threads of a process are left, where a call was done by which it got descriptors.
pub fn touch_received(waits: &mut WaitSet, pid: Pid, answer: &Answer)
    ensures { HasEach (λ k. spread_if (has_received answer.now && is_own pid k)) waits.old waits.new }
{
    if has_received(answer) {
        touch_numbers(waits, pid);
    }
}

/// The number stands for something else in a process: those of its threads that wait on it are left.
pub fn touch_number_of(waits: &mut WaitSet, processes: &NumMap<ProcessState>, pid: Pid, fd: u32)
    ensures { HasEach (λ k. spread_if (is_concerned_in pid fd (map.get processes.now pid) k)) waits.old waits.new }
{
    if let Some(own) = processes.get(u64::from(pid.0)) {
        touch_number(waits, pid, own, fd);
    }
}

/// What readiness hangs on: it tells of each thread, by its number, whether it waits and goes on now.
#[derive(Drop)]
pub struct Looked<'a> {
    /// What calls that wait look at beside their process's descriptors.
    pub around: Surroundings<'a>,
    /// The descriptors of each process.
    pub tables: &'a NumMap<FdTable>,
    /// What else each process has of its own, with its threads.
    pub processes: &'a NumMap<ProcessState>,
}

impl Parts for Looked<'_> {
    ghost ready = { λ l. ready_by_key l.around.constants.now l.around.objects.now.kinds l.around.channels.now l.around.statuses.now l.around.now l.tables.now l.processes.now };

    fn is_ready<L: Ledger>(&self, thread: u64, steps: &mut Steps<L>) -> bool {
        steps.tick();
        let (pid, tid) = thread_of_key(thread);
        let p = u64::from(pid.0);
        match self.processes.get(p) {
            Some(own) => waits_no_more(self.around, self.tables.get(p), own.thread(tid)),
            None => false,
        }
    }
}

// Whether a thread of the process that has this table waits and goes on now.
fn waits_no_more(around: Surroundings<'_>, table: Option<&FdTable>, thread: Option<&Thread>) -> bool
    ensures { result ≡ waits_no_more around.entry.constants.now around.entry.objects.now.kinds around.entry.channels.now around.entry.statuses.now around.entry.now (option_copied table.entry) (option_copied thread.entry) }
{
    match thread {
        Some(
            Thread::Waits {
                call,
                since,
                until,
                stage,
            },
        ) => goes_on(around, table, call, *since, *until, *stage),
        _ => false,
    }
}

// Where a thread that waits stands, as its call looks at things now. `Err` where memory ran out.
fn spots_of(
    alloc: Global,
    objects: &Objects,
    table: Option<&FdTable>,
    thread: Option<&Thread>,
) -> Result<Vec<Spot>, AllocError>
    ensures { IfOk result (λ spots. spots.items ≡ places_of objects.now.kinds (option_copied table.entry) (option_copied thread.entry)) }
{
    match thread {
        Some(Thread::Waits { call, until, .. }) => wait_spots(alloc, objects, table, call, *until),
        _ => Ok(Vec::new(alloc)),
    }
}

// What the thread with this number does, if there is one.
fn thread_at(processes: &NumMap<ProcessState>, key: u64) -> Option<&Thread>
    ensures { option_copied result ≡ thread_by_key processes.now key }
{
    let (pid, tid) = thread_of_key(key);
    processes.get(u64::from(pid.0))?.thread(tid)
}

// Has a thread that has an entry stand where its call looks, and where memory lacks for that everywhere.
fn stand_anew(
    waits: &mut WaitSet,
    alloc: Global,
    objects: &Objects,
    tables: &NumMap<FdTable>,
    processes: &NumMap<ProcessState>,
    key: u64,
)
    requires { IsSome (map.get waits.old key) }
    ensures { HasStood key (λ v. v) (places_by_key objects.now.kinds tables.now processes.now key) waits.old waits.new }
{
    let (pid, _) = thread_of_key(key);
    let table = tables.get(u64::from(pid.0));
    match spots_of(alloc, objects, table, thread_at(processes, key)) {
        Ok(spots) => waits.stand_anew(key, spots.as_slice()),
        Err(_) => waits.spread(key, true),
    }
}

/// A thread that begins to wait, and has an entry, stands where its call looks, and where memory lacks for that everywhere. It is left to be tested
/// or not.
pub fn rest_entry(
    waits: &mut WaitSet,
    alloc: Global,
    objects: &Objects,
    tables: &NumMap<FdTable>,
    processes: &NumMap<ProcessState>,
    key: u64,
    is_left: bool,
)
    ensures { HasStood key (resting is_left) (places_by_key objects.now.kinds tables.now processes.now key) waits.old waits.new }
{
    if waits.contains(key) {
        waits.rest(key, is_left);
        stand_anew(waits, alloc, objects, tables, processes, key);
    }
}

/// A thread has no entry from here on.
pub fn end_entry(waits: &mut WaitSet, pid: Pid, number: u32)
    ensures small { number < 2 ^ 32 }
    ensures gone { waits.new ≡ map.remove waits.old (key pid number) }
{
    waits.remove(thread_key(pid, Tid(number)));
}

/// A thread runs from here on. Of its places it keeps those that are no moments.
pub fn run_entry(waits: &mut WaitSet, key: u64)
    ensures { HasEach (at_key key running) waits.old waits.new }
{
    if waits.contains(key) {
        waits.run(key);
    }
}

/// Has those that stand everywhere stand where their calls look, as far as there is memory for that.
pub fn gather(
    waits: &mut WaitSet,
    alloc: Global,
    objects: &Objects,
    tables: &NumMap<FdTable>,
    processes: &NumMap<ProcessState>,
)
    ensures { IsGathered (places_by_key objects.now.kinds tables.now processes.now) waits.old waits.new }
{
    let mut after = None;
    while let Some(key) = waits.next_everywhere(after) {
        stand_anew(waits, alloc, objects, tables, processes, key);
        after = Some(key);
    }
}

/// Those that wait on the number, or at the open's channels, are left.
pub fn touch_changed(
    waits: &mut WaitSet,
    processes: &NumMap<ProcessState>,
    pid: Pid,
    changed: &(Option<u32>, Option<OpenKind>),
)
    ensures { AreLeftBy pid (map.get processes.now pid) changed.now.0 changed.now.1 waits.old waits.new }
{
    if let Some(fd) = changed.0 {
        touch_number_of(waits, processes, pid, fd);
    }
    if let Some(kind) = &changed.1 {
        touch_end(waits, kind);
    }
}
