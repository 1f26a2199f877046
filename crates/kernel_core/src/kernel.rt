//! The kernel's state, and its steps.
ghost use Rattle.std.specs.Prelude.{◌≡◌, ◌≢◌, ◌⊎◌, ◌∷◌, ◌+◌, ◌^◌, ◌<◌, ◌≤◌, ◌↔◌, ℕ, [], Some, None, IsSome, IfOk, OnErr, IsTrue, IsFalse, false, true, length, option_copied, unwrap_or};
ghost use Rattle.std.specs.FinMap as map;
ghost use Rattle.abi_types.specs.declared.descriptor.Denial.TheVariants as denial;
ghost use Rattle.kernel_core.specs.Kernel.{any_live};
ghost use Rattle.kernel_core.specs.Waiting.{caller};
ghost use Rattle.kernel_model.specs.Calls.{meaning_of, named, need, refusal_of, takes_memory};
ghost use Rattle.kernel_model.specs.Done.{IsDone};
ghost use Rattle.kernel_model.specs.Families.Polls.{begins_with_lock};
ghost use Rattle.kernel_model.specs.Laws.{HasAll, IsFirstLack, IsNotDeniedEarly, IsOfFirstLack, IsOfPath};
ghost use Rattle.kernel_model.specs.Need.{missing};
ghost use Rattle.kernel_model.specs.Outcome.{IsSuccess};
ghost use Rattle.kernel_model.specs.Families.ProcessCalls.{end_updates};
ghost use Rattle.kernel_model.specs.Release.{lives, release, is_released};
ghost use Rattle.kernel_model.specs.Reply.{denied};
ghost use Rattle.tree_model.specs.Grants.{MayBegin};
ghost use Rattle.kernel_model.specs.Sight.{process_parts};
ghost use Rattle.kernel_model.specs.Start.{start_state};
ghost use Rattle.kernel_model.specs.Threads.{child_told};
ghost use Rattle.abi_types.specs.declared.call.Call.TheVariants as call;
ghost use Rattle.abi_types.specs.declared.constants.Constants.{Constants};
ghost use Rattle.abi_types.specs.declared.reply.Answer.{Answer};
ghost use Rattle.kernel_model.specs.State.{State, put_all, Table, Part, has_part, Agree, thread_of, tree_of, written_to};
ghost use Rattle.kernel_model.specs.Step.{failed, outcome_by, outside, IsStep, IsUntouched, end_unreleased, end_state, step_answer};
ghost use Rattle.kernel_model.specs.Valid.{IsValid};
ghost use Rattle.kernel_model.specs.View.{whole};

use abi_types::{
    Answer, Call, Constants, Denial, Descriptor, Errno, Family, Needed, Pid, Reply, Status,
    Subscription, Thread, Tid, TryClone, Who,
};
use channel_calls::Channels;
use fd_table::FdTable;
use file_tree::Tree;
use kernel_invariant::{first_process, touch_time};
use kernel_parts::{
    CLOCK_RESOLUTION, ProcessState, Terminal, drop_table, granted, placed, release, single,
    streams, touch_ended,
};
use maps::NumMap;
use object_store::Objects;
use poll_set::{lock_subscription, poll};
use right_rules::{refusal, refused, success};
use run_types::Launch;
use std::alloc::{AllocError, Global};
use std::marker::Model;
use wait_set::WaitSet;

// How long each call takes, and each end from outside, in nanoseconds.
pub(crate) const STEP_TIME: u64 = 1000;

/// The state of the kernel, in contracts a `State` (docs/MODEL.md), which is always valid.
#[derive(Drop)]
pub struct Kernel {
    pub(crate) clock: u64,
    pub(crate) tables: NumMap<FdTable>,
    pub(crate) processes: NumMap<ProcessState>,
    pub(crate) statuses: NumMap<Status>,
    pub(crate) objects: Objects,
    pub(crate) tree: Tree,
    pub(crate) terms: NumMap<Terminal>,
    pub(crate) channels: Channels,
    // Each live thread, where it stands if it waits, and whether it is ready.
    pub(crate) waits: WaitSet,
    pub(crate) alloc: Global,
}

impl Model for Kernel {
    ghost use Rattle.kernel_model.specs.State.{State, no_state};
    ghost use Rattle.kernel_model.specs.Codes.{state_code};
    ghost use Rattle.kernel_invariant.specs.Held.{IsHeld};

    ghost Value = { State };

    ghost coded = { state_code };

    ghost view = { λ k. record no_state { clock = k.clock; tables = k.tables; processes = k.processes; statuses = k.statuses; opens = k.objects.kinds; nodes = k.tree.nodes; names = k.tree.names; terms = k.terms; chans = k.channels } };

    ghost invariant = { λ k. IsHeld (record no_state { clock = k.clock; tables = k.tables; processes = k.processes; statuses = k.statuses; opens = k.objects.kinds; nodes = k.tree.nodes; names = k.tree.names; terms = k.terms; chans = k.channels }) k.objects.counts k.waits };
}

impl Kernel {
    /// The state that a launch starts from: process 0 is live with thread 1 and the granted descriptors, numbered from 0,
    /// file tree and standard input are the launch's, and nothing was written yet. `Err` where memory ran out.
    pub fn start(alloc: Global, launch: &Launch) -> Result<Kernel, AllocError>
        requires { MayBegin launch.now.tree launch.now.grants }
        ensures state { IfOk result (λ kernel. kernel ≡ start_state launch.now.tree launch.now.grants launch.now.stdin) }
        ensures valid { IfOk result IsValid }
    {
        let (table, objects) = granted(alloc, &launch.tree, launch.grants.as_slice())?;
        let tables = single(alloc, 0, table)?;
        let first = first_process(alloc)?;
        let tree = launch.tree.copy()?;
        let terms = streams(alloc, &launch.stdin)?;
        Ok(Kernel {
            clock: 0,
            tables,
            processes: first.processes,
            statuses: first.statuses,
            objects,
            tree,
            terms,
            channels: Channels::new(alloc),
            waits: first.waits,
            alloc,
        })
    }

    // Ends a process: it has this status, and nothing of its own any more, and what nothing holds any more ends.
    pub(crate) fn end_process(&mut self, pid: Pid, status: Status)
        requires live { lives (map.get self.old.statuses pid) ≡ true }
        requires dead { status ≢ Status.Live }
        ensures { self.new ≡ release (put_all (end_updates pid status) self.old) }
    {
        let p = u64::from(pid.0);
        self.statuses.replace(p, status);
        touch_ended(&mut self.waits, pid);
        self.processes.remove(p);
        drop_table(&mut self.tables, p, &mut self.objects);
        release(
            &mut self.objects,
            &mut self.tree,
            &mut self.tables,
            &mut self.processes,
            &mut self.statuses,
            &mut self.channels,
            &mut self.waits,
        );
    }

    // The refusal of a call by its process's table, if there is one.
    pub(crate) fn refusal_of(&self, pid: Pid, call: &Call) -> Option<Reply>
        ensures refusal { result ≡ refusal_of call.now (map.get self.now.tables pid) }
        ensures valid { IsValid self.now }
    {
        match self.tables.get(u64::from(pid.0)) {
            Some(table) => refusal(table, call),
            None => Some(refused(Errno::Badf)),
        }
    }

    // A poll that begins with no lock and no condition variable, where its process has a table.
    fn plain_poll(
        &self,
        constants: &Constants,
        who: &Who,
        subscriptions: &[Subscription],
    ) -> Result<Answer, AllocError>
        requires plain { begins_with_lock subscriptions.now ≡ false }
        ensures { (table : Table) → map.get self.now.tables who.now.pid ≡ Some table
            → IsDone (takes_memory (call.Poll subscriptions.now)) ((meaning_of (call.Poll subscriptions.now)).effect constants.now (whole self.now) who.now table)
            self.now self.now result }
    {
        let Some(table) = self.tables.get(u64::from(who.pid.0)) else {
            return Ok(Answer::Reply(refused(Errno::Badf)));
        };
        let around = self.around(constants);
        poll(self.alloc, around, table, who.since, subscriptions)
    }

    // Does a call, but for the clock, that is no poll of a lock or a condition variable. `Err` comes only of a call that takes memory and would
    // else succeed, and changes nothing.
    pub(crate) fn dispatch(
        &mut self,
        constants: &Constants,
        who: &Who,
        call: &Call,
    ) -> Result<Answer, AllocError>
        requires there { lives (map.get self.old.statuses who.now.pid) ≡ true }
        requires events { (meaning_of call.now).by_stage ≡ false }
        requires early { self.old.clock + constants.now.epoch < 2 ^ 64 }
        ensures { IsDone (takes_memory call.now) (outcome_by constants.now (whole self.old) who.now call.now)
            self.old self.new result }
    {
        if let Some(reply) = self.refusal_of(who.pid, call) {
            return Ok(Answer::Reply(reply));
        }
        match call.family() {
            Family::Descriptors(change) => self.change_descriptors(who.pid, change),
            Family::DescriptorState { fd } => Ok(Answer::Reply(self.fd_stat_get(who.pid, fd))),
            Family::File(view) => self.file_call(constants, who.pid, view.fd(), view),
            Family::Offset(view) => self.offset_call(constants, who.pid, view.fd(), view),
            Family::Entries(view) => {
                let (fd, other) = view.fds();
                self.entry_call(constants, who.pid, fd, other, view)
            }
            Family::Open(view) => self.file_open(constants, who.pid, &view),
            Family::Ends { kind } => self.fd_create2(who, kind),
            Family::Socket(view) => self.socket_call(who.pid, view),
            Family::Exit { code } => {
                self.end_process(who.pid, Status::Exit(code));
                Ok(Answer::Reply(success(0, 0)))
            }
            Family::Fork { left } => self.proc_fork(who, left),
            Family::Exec { fd, fds } => self.proc_exec(constants, who, fd, fds),
            Family::Raise { signal } => Ok(Answer::Reply(self.proc_raise(who, signal))),
            Family::Poll(subscriptions) => self.plain_poll(constants, who, subscriptions),
            Family::Unlock { lock, word, .. } => Ok(self.lock_unlock(who, lock, word)),
            Family::Signal { condvar, n, .. } => Ok(self.condvar_signal(who, condvar, n)),
            Family::ClockResolution { .. } => Ok(Answer::Reply(success(CLOCK_RESOLUTION, 0))),
            Family::ClockTime { clock, .. } => {
                Ok(Answer::Reply(self.clock_time(constants, clock)))
            }
            Family::Random { length } => self.random_get(constants, who.pid, length),
            Family::NewThread(_) => self.thread_create(who),
            Family::ThreadExit { lock, word, .. } => {
                Ok(Answer::Reply(self.thread_exit(who, lock, word)))
            }
            Family::Zeros(place) => Ok(Answer::Reply(placed(place))),
            Family::Answered(errno) => Ok(Answer::Reply(refused(errno))),
            Family::NotBuilt => Ok(Answer::Reply(refused(Errno::Nosys))),
        }
    }

    // A call of a thread that runs, with the clock. Where its thread waits in it the call is copied.
    pub(crate) fn run(&mut self, constants: &Constants, who: &Who, call: &Call) -> Answer
        requires runnable { thread_of self.old who.now.pid who.now.tid ≡ Some Thread.Runnable }
        requires early { self.old.clock < 2 ^ 63 }
        requires epoch { constants.now.epoch ≤ 2 ^ 62 }
        ensures step { IsStep constants.now self.old who.now call.now result self.new }
        ensures valid { IsValid self.old }
    {
        if let Some(first) = lock_subscription(call) {
            return self.call_lock(constants, who, call, first);
        }
        let before = self.clock;
        self.clock += STEP_TIME;
        touch_time(&mut self.waits, before, self.clock);
        match self.dispatch(constants, who, call) {
            Ok(Answer::Reply(reply)) => Answer::Reply(reply),
            Ok(Answer::Parked(writes)) => match self.park(constants, who, call) {
                Ok(()) => Answer::Parked(writes),
                Err(_) => Answer::Reply(refused(Errno::Nomem)),
            },
            Err(_) => Answer::Reply(refused(Errno::Nomem)),
        }
    }

    /// A call of a live process's runnable thread in a run with these constants: the answer, and the state after it. Each
    /// call takes 1000 nanoseconds, and is made at the moment after these. `Errno::Nomem` comes only where memory runs out in a
    /// call that would else succeed or wait, and then only the clock has moved. A call that answers any other error moves only the
    /// clock too. One that waits moves only the clock and its thread, and where it waits at a condition variable how others wait for the lock
    /// that it lets go. `Errno::Notcapable` comes with exactly the rights that are missing, or with the component at which a path leads outside,
    /// whether memory runs out or not.
    pub fn step(&mut self, constants: &Constants, pid: Pid, tid: Tid, call: &Call) -> Answer
        requires live { map.get self.old.statuses pid ≡ Some Status.Live }
        requires runnable { thread_of self.old pid tid ≡ Some Thread.Runnable }
        requires early { self.old.clock < 2 ^ 63 }
        requires epoch { constants.now.epoch ≤ 2 ^ 62 }
        ensures step { IsStep constants.now self.old (caller self.old pid tid) call.now result self.new }
        ensures valid { IsValid self.new }
        ensures others { (q : Part) → IsUntouched constants.now self.old (caller self.old pid tid) call.now q → Agree self.new self.old q }
        ensures denied { (table : Table) (row : Needed) (d : Descriptor) → map.get self.old.tables pid ≡ Some table
            → HasAll table (named call.now) → IsFirstLack table (need call.now) row d
            → result ≡ Answer.Reply (denied (missing d row)) }
        ensures only { (reply : Reply) (denial : Denial) → result ≡ Answer.Reply reply → reply.denial ≡ Some denial
            → IsOfFirstLack self.old (caller self.old pid tid) call.now denial ⊎ IsOfPath self.old (caller self.old pid tid) call.now denial }
        ensures outside { (component : ℕ) → outside self.old (caller self.old pid tid) call.now ≡ Some component
            → result ≡ Answer.Reply (denied (denial.Outside component)) }
        ensures reported { (reply : Reply) → IsNotDeniedEarly call.now → result ≡ Answer.Reply reply → reply.errno ≡ Errno.Notcapable
            → IsSome reply.denial }
        ensures refused { (reply : Reply) → result ≡ Answer.Reply reply → reply.errno ≢ Errno.Success → self.new ≡ failed self.old (caller self.old pid tid) }
    {
        let since = self.clock + STEP_TIME;
        let who = Who {
            pid,
            tid,
            since,
            stage: None,
        };
        self.run(constants, &who, call)
    }

    /// Whether a proc_fork of this thread, whose process has so many turns left, would make a child, unless memory ran out.
    pub fn may_fork(&self, pid: Pid, tid: Tid, left: u64) -> bool
        ensures child { (constants : Constants) → IsTrue result ↔ IsSuccess (step_answer constants self.now (caller self.now pid tid) (call.ProcFork left)) }
        ensures none { IsFalse result → (constants : Constants) (given : Answer) (after : State) → IsStep constants self.now (caller self.now pid tid) (call.ProcFork left) given after
            → child_told (call.ProcFork left) given ≡ None }
    {
        let p = u64::from(pid.0);
        let (Some(table), Some(own)) = (self.tables.get(p), self.processes.get(p)) else {
            return false;
        };
        table.lowest().is_some() && own.can_fork(pid, tid, left)
    }

    /// Ends a live process from outside, by a trap or at the end of its turns. It takes 1000 nanoseconds.
    pub fn end(&mut self, pid: Pid, status: Status)
        requires live { map.get self.old.statuses pid ≡ Some Status.Live }
        requires dead { status ≢ Status.Live }
        requires early { self.old.clock < 2 ^ 63 }
        ensures end { self.new ≡ end_state self.old pid status }
        ensures valid { IsValid self.new }
        ensures others { (q : Part) → has_part (process_parts pid) q ≡ false
            → is_released (end_unreleased self.old pid status) q ≡ false → Agree self.new self.old q }
    {
        let before = self.clock;
        self.clock += STEP_TIME;
        touch_time(&mut self.waits, before, self.clock);
        self.end_process(pid, status);
    }

    /// Whether the process is live.
    pub fn live(&self, pid: Pid) -> bool
        ensures { IsTrue result ↔ (map.get self.now.statuses pid ≡ Some Status.Live) }
    {
        self.status(pid) == Some(Status::Live)
    }

    /// Whether some process is live.
    pub fn any_live(&self) -> bool
        ensures value { result ≡ any_live self.now }
        ensures live { IsTrue result ↔ ((p : ℕ) × (map.get self.now.statuses p ≡ Some Status.Live)) }
    {
        !self.processes.is_empty()
    }

    /// The moment, in nanoseconds.
    pub fn moment(&self) -> u64
        ensures { result ≡ self.now.clock }
    {
        self.clock
    }

    /// How a process stands. `None` exactly where it was never made.
    pub fn status(&self, pid: Pid) -> Option<Status>
        ensures { result ≡ map.get self.now.statuses pid }
    {
        self.statuses.get(u64::from(pid.0)).copied()
    }

    /// What a thread does. `None` exactly where the process has no such live thread.
    pub fn thread(&self, pid: Pid, tid: Tid) -> Option<&Thread>
        ensures { option_copied result ≡ thread_of self.now pid tid }
    {
        self.processes.get(u64::from(pid.0))?.thread(tid)
    }

    /// The file tree.
    pub fn tree(&self) -> &Tree
        ensures { result.now ≡ tree_of self.now }
    {
        &self.tree
    }

    /// What was written to stdout, 1, or to stderr, 2.
    pub fn output(&self, which: u32) -> &[u8]
        ensures { result.now ≡ written_to which self.now }
    {
        match self.terms.get(u64::from(which)) {
            Some(stream) => stream.written(),
            None => &[],
        }
    }
}
