//! Threads that wait in calls: how they begin to, their wakes, and the jumps of time where nothing else can happen.
ghost use Rattle.std.specs.Prelude.{◌≡◌, ◌≢◌, ◌^◌, ◌<◌, ◌≤◌, ◌↔◌, ℕ, Some, IsSome, IfOk, OnOk, OnErr, IsTrue, IsFalse, false, true, option_copied, option_map};
ghost use Rattle.abi_types.specs.declared.constants.Constants.{Constants};
ghost use Rattle.abi_types.specs.declared.reply.Answer.TheVariants as answer;
ghost use Rattle.abi_types.specs.declared.wake.WakeIn.TheVariants as wake;
ghost use Rattle.kernel_invariant.specs.Readiness.{thread_by_key};
ghost use Rattle.kernel_invariant.specs.Waiting.{waiter, IsUnready, NoneRuns};
ghost use Rattle.kernel_core.specs.Waiting.{call_ahead, kept_call, IfDone, IfNoMemory, IfNotReady};
ghost use Rattle.kernel_model.specs.Calls.{meaning_of};
ghost use Rattle.kernel_model.specs.Deadlines.{idle_state, least_deadline};
ghost use Rattle.kernel_model.specs.Outcome.{is_parked};
ghost use Rattle.kernel_model.specs.State.{Part, Agree, thread_of};
ghost use Rattle.kernel_model.specs.Step.{step_answer, tick, IsStep, IsUntouched};
ghost use Rattle.kernel_model.specs.Valid.{IsValid};
ghost use Rattle.kernel_model.specs.Waits.{may_wait, resumed, waiting, with_thread, HasDeadlines, WaitsIn};
ghost use Rattle.kernel_model.specs.Wakes.{is_ready, may_queue, woken, IsStalled, IsWake, LacksNoMemory, MayJump, NoneReady};
ghost use Rattle.kernel_parts.specs.Waiting.{kept_in};
ghost use Rattle.readiness_laws.specs.NextReady.{thread_at, IsNextReady};
ghost use Rattle.readiness_laws.specs.Watched.{until_in};

use crate::kernel::{Kernel, STEP_TIME};
use abi_types::{
    Answer, Call, Constants, Errno, Pid, Reply, Stage, Thread, Tid, TryClone, WakeIn, What, Who,
};
use guest_locks::set_word;
use kernel_invariant::{Looked, gather, rest_entry, run_entry, touch_time};
use kernel_parts::{goes_on, thread_key, thread_of_key};
use poll_set::{Surroundings, lock_subscription, sooner};
use right_rules::refused;
use std::alloc::AllocError;
use std::marker::Brand;
use std::sync::ledger::{Blank, Ledger};
use wait_set::Steps;

/// What came of a wake.
#[derive(Drop)]
pub enum Woken {
    /// The thread isn't ready, and nothing has changed.
    NotReady,
    /// Memory ran out, and nothing has changed.
    NoMemory,
    /// The call that the thread waited in was done, or the thread waits on in it for its lock.
    Done { call: Call, answer: Answer },
}

// Whether a thread may wait on after a wake that had come so far: one that was signalled at its condition variable, or whose time had come
// there, may wait for the lock.
fn may_queue(call: &Call, stage: Stage) -> bool
    ensures { result ≡ may_queue call.now (Some stage) }
{
    if !matches!(stage, Stage::Begun | Stage::Signalled) {
        return false;
    }
    match lock_subscription(call) {
        Some(first) => matches!(first.what, What::Condvar { .. }),
        None => false,
    }
}

impl Kernel {
    // Makes the thread wait in a call that it made. It is left to be tested, unless it can't be ready yet. Takes no memory.
    pub(crate) fn begin_wait(&mut self, constants: &Constants, who: &Who, kept: Call, is_left: bool)
        requires there { IsSome (thread_of self.old who.now.pid who.now.tid) }
        requires may { may_wait kept ≡ true }
        requires unready { is_left ≡ false → IsUnready (with_thread self.old who.now.pid who.now.tid (waiting constants.now kept who.now self.old.clock)) who.now.pid who.now.tid }
        ensures { self.new ≡ with_thread self.old who.now.pid who.now.tid (waiting constants.now kept who.now self.old.clock) }
    {
        let now = self.clock;
        let own = self.processes.get_mut(u64::from(who.pid.0));
        own.park(constants, who, now, kept);
        rest_entry(
            &mut self.waits,
            self.alloc,
            &self.objects,
            &self.tables,
            &self.processes,
            thread_key(who.pid, who.tid),
            is_left,
        );
    }

    // The same in a copy of the call, where it can't be ready yet. `Err` changes nothing.
    pub(crate) fn park(
        &mut self,
        constants: &Constants,
        who: &Who,
        call: &Call,
    ) -> Result<(), AllocError>
        requires there { IsSome (thread_of self.old who.now.pid who.now.tid) }
        requires may { may_wait call.now ≡ true }
        requires unready { IsUnready (with_thread self.old who.now.pid who.now.tid (waiting constants.now call.now who.now self.old.clock)) who.now.pid who.now.tid }
        ensures ok { OnOk result (self.new ≡ with_thread self.old who.now.pid who.now.tid (waiting constants.now call.now who.now self.old.clock)) }
        ensures err { OnErr result (self.new ≡ self.old) }
    {
        let kept = call.copy()?;
        self.begin_wait(constants, who, kept, false);
        Ok(())
    }

    // What calls that wait look at beside their process's descriptors.
    pub(crate) fn around<'a>(&'a self, constants: &'a Constants) -> Surroundings<'a>
        ensures constants { result.constants.now ≡ constants.now }
        ensures opens { result.objects.now.kinds ≡ self.now.opens }
        ensures channels { result.channels.now ≡ self.now.chans }
        ensures statuses { result.statuses.now ≡ self.now.statuses }
        ensures moment { result.now ≡ self.now.clock }
    {
        Surroundings {
            constants,
            objects: &self.objects,
            channels: &self.channels,
            statuses: &self.statuses,
            now: self.clock,
        }
    }

    // Lets a thread run that waits, and gives back the call that it waited in, when that was made, and how far its wait had come. `None`
    // exactly where the thread doesn't wait; then the state is the same.
    fn resume(&mut self, pid: Pid, tid: Tid) -> Option<(Call, u64, Stage)>
        ensures kept { result ≡ kept_in (thread_of self.old pid tid) }
        ensures runs { self.new ≡ with_thread self.old pid tid Thread.Runnable }
    {
        let p = u64::from(pid.0);
        if !self.processes.contains(p) {
            return None;
        }
        let resumed = self.processes.get_mut(p).resume(tid);
        run_entry(&mut self.waits, thread_key(pid, tid));
        resumed
    }

    /// The call that a thread waits in. `None` exactly where there is no such live thread, or it doesn't wait.
    pub fn kept(&self, pid: Pid, tid: Tid) -> Option<&Call>
        ensures { option_copied result ≡ kept_call (thread_of self.now pid tid) }
    {
        match self.thread(pid, tid)? {
            Thread::Waits { call, .. } => Some(call),
            Thread::Runnable => None,
        }
    }

    /// Whether a thread waits and goes on now, in a run with these constants: it was given the lock that it waits for or signalled, its time has
    /// come, or else the call that it waits in would be done. Looks at that thread alone.
    pub fn is_ready(&self, constants: &Constants, pid: Pid, tid: Tid) -> bool
        ensures { result ≡ is_ready constants.now self.now pid tid }
    {
        match self.thread(pid, tid) {
            Some(
                Thread::Waits {
                    call,
                    since,
                    until,
                    stage,
                },
            ) => {
                let table = self.tables.get(u64::from(pid.0));
                goes_on(self.around(constants), table, call, *since, *until, *stage)
            }
            _ => false,
        }
    }

    // The call in which a thread may wait on after its wake, if it may: a copy, with the word that its lock has now.
    fn call_ahead(&self, pid: Pid, tid: Tid, word: u32) -> Result<Option<Call>, AllocError>
        ensures ok { IfOk result (λ ahead. ahead ≡ call_ahead (wake.Plain word) (thread_of self.now pid tid)) }
        ensures err { OnErr result (IsSome (call_ahead (wake.Plain word) (thread_of self.now pid tid))) }
    {
        let Some(Thread::Waits { call, stage, .. }) = self.thread(pid, tid) else {
            return Ok(None);
        };
        if !may_queue(call, *stage) {
            return Ok(None);
        }
        let mut ahead = call.copy()?;
        set_word(&mut ahead, word);
        Ok(Some(ahead))
    }

    // The call of a thread that was woken and runs, with the clock. Where it waits for a lock it takes no memory: a thread that waits on does in
    // the copy that was made ahead.
    fn go_on(
        &mut self,
        constants: &Constants,
        who: &Who,
        call: &Call,
        ahead: Option<Call>,
    ) -> Answer
        requires runnable { thread_of self.old who.now.pid who.now.tid ≡ Some Thread.Runnable }
        requires early { self.old.clock < 2 ^ 63 }
        requires epoch { constants.now.epoch ≤ 2 ^ 62 }
        requires ahead { is_parked (step_answer constants.now self.old who.now call.now) ≡ true → ahead ≡ Some call.now }
        ensures step { IsStep constants.now self.old who.now call.now result self.new }
        ensures exact { (meaning_of call.now).by_stage ≡ true → LacksNoMemory constants.now self.old who.now call.now result self.new }
        ensures valid { IsValid self.old }
    {
        let mut kept = ahead;
        let answer = match lock_subscription(call) {
            Some(first) => self.lock_poll(constants, who, call, first, &mut kept),
            None => self.run(constants, who, call),
        };
        drop(kept);
        answer
    }

    /// The wake of a thread in a run with these constants, if it is ready. It runs then, and the call that it waited in is done: with it comes its
    /// answer. A thread that has left its condition variable and doesn't get its lock waits for that, and the call isn't done yet. Where the
    /// word of the lock or the places of the call's output can't be accessed any more, it is refused by `Errno::Fault`. A wake takes 1000
    /// nanoseconds. What a thread that may wait on for its lock takes of memory is had before anything changes, so that no lock and no
    /// signal is lost: where it can't be had nothing changes. Of any other call that it waited in `Errno::Nomem` comes only where memory runs out and
    /// it would else succeed. A wake that answers an error moves only the clock, and the thread runs.
    pub fn wake(&mut self, constants: &Constants, pid: Pid, tid: Tid, given: WakeIn) -> Woken
        requires deadlines { HasDeadlines constants.now self.old }
        requires early { self.old.clock < 2 ^ 63 }
        requires epoch { constants.now.epoch ≤ 2 ^ 62 }
        ensures not_ready { IfNotReady result ((is_ready constants.now self.old pid tid ≡ false) × (self.new ≡ self.old)) }
        ensures lacks { IfNoMemory result ((is_ready constants.now self.old pid tid ≡ true)
            × IsSome (call_ahead given (thread_of self.old pid tid)) × (self.new ≡ self.old)) }
        ensures ready { IfDone result (λ done answered. is_ready constants.now self.old pid tid ≡ true) }
        ensures woken { IfDone result (λ done answered. (since : ℕ) (stage : Stage) → WaitsIn self.old (waiter pid tid since stage) done
            → IsWake constants.now self.old (waiter pid tid since stage) done given answered self.new) }
        ensures kept { IfDone result (λ done answered. Some done ≡ kept_call (thread_of self.old pid tid)) }
        ensures valid { IfDone result (λ done answered. IsValid self.new) }
        ensures others { (since : ℕ) (stage : Stage) (call : Call) (q : Part) → WaitsIn self.old (waiter pid tid since stage) call
            → IsUntouched constants.now (resumed self.old (waiter pid tid since stage)) (waiter pid tid since stage) (woken call given) q → Agree self.new self.old q }
        ensures refused { IfDone result (λ done answered. (reply : Reply) → answered ≡ answer.Reply reply → reply.errno ≢ Errno.Success
            → self.new ≡ tick (with_thread self.old pid tid Thread.Runnable)) }
    {
        if !self.goes_on_now(constants, pid, tid) {
            return Woken::NotReady;
        }
        match given {
            WakeIn::Fault => {
                let Some((call, _, _)) = self.resume(pid, tid) else {
                    return Woken::NotReady;
                };
                let before = self.clock;
                self.clock += STEP_TIME;
                touch_time(&mut self.waits, before, self.clock);
                let answer = Answer::Reply(refused(Errno::Fault));
                Woken::Done { call, answer }
            }
            WakeIn::Plain { word } => {
                let Ok(ahead) = self.call_ahead(pid, tid, word) else {
                    return Woken::NoMemory;
                };
                let Some((mut call, since, stage)) = self.resume(pid, tid) else {
                    drop(ahead);
                    return Woken::NotReady;
                };
                let who = Who {
                    pid,
                    tid,
                    since,
                    stage: Some(stage),
                };
                let old = set_word(&mut call, word);
                let answer = self.go_on(constants, &who, &call, ahead);
                set_word(&mut call, old);
                Woken::Done { call, answer }
            }
        }
    }

    // Whether each thread waits, and none is ready.
    fn is_quiet(&mut self, constants: &Constants) -> bool
        requires deadlines { HasDeadlines constants.now self.old }
        ensures same { self.new ≡ self.old }
        ensures exact { IsTrue result ↔ (NoneRuns self.old × NoneReady constants.now self.old) }
        ensures valid { IsValid self.old }
    {
        !self.waits.has_running() && self.next_ready(constants, None).is_none()
    }

    /// Lets time go to the next deadline, but as far as each entry moves it at least. `true` exactly where it may, in a run with these
    /// constants: there are live threads, each waits, none is ready, and one has a deadline. Else nothing changes. Tests those alone that something
    /// has happened to.
    pub fn idle(&mut self, constants: &Constants) -> bool
        requires deadlines { HasDeadlines constants.now self.old }
        requires early { self.old.clock < 2 ^ 63 }
        ensures exact { IsTrue result ↔ MayJump constants.now self.old }
        ensures jumps { IsTrue result → self.new ≡ idle_state self.old }
        ensures none { IsFalse result → self.new ≡ self.old }
        ensures valid { IsValid self.new }
    {
        if !self.is_quiet(constants) {
            return false;
        }
        let Some(until) = self.next_deadline() else {
            return false;
        };
        let soonest = self.clock + STEP_TIME;
        let before = self.clock;
        self.clock = if soonest < until { until } else { soonest };
        touch_time(&mut self.waits, before, self.clock);
        true
    }

    /// Whether nothing can happen any more in a run with these constants: there are live threads, each waits, none is ready, and none has
    /// a deadline. Tests those alone that something has happened to.
    pub fn stalled(&mut self, constants: &Constants) -> bool
        requires deadlines { HasDeadlines constants.now self.old }
        ensures same { self.new ≡ self.old }
        ensures exact { IsTrue result ↔ IsStalled constants.now self.old }
    {
        if !self.is_quiet(constants) {
            return false;
        }
        !self.waits.is_empty() && self.next_deadline().is_none()
    }

    // Until when the thread with this number waits, if there is such a moment.
    fn until_of(&self, key: u64) -> Option<u64>
        ensures { result ≡ until_in (thread_by_key self.now.processes key) }
    {
        let (pid, tid) = thread_of_key(key);
        self.until(pid, tid)
    }

    // The earliest moment until which a thread waits, if there is one. Looks at each thread.
    fn least_until(&self) -> Option<u64>
        ensures { (constants : Constants) → HasDeadlines constants self.now → result ≡ least_deadline self.now }
    {
        let mut least = None;
        let mut after = None;
        while let Some(key) = self.waits.next_thread(after) {
            least = sooner(least, self.until_of(key));
            after = Some(key);
        }
        least
    }

    /// The least deadline, if a thread has one, whether it goes on now or not. Looks at threads only where memory lacked as one began to wait, and
    /// lacks still.
    pub fn next_deadline(&self) -> Option<u64>
        ensures { (constants : Constants) → HasDeadlines constants self.now → result ≡ least_deadline self.now }
    {
        match self.waits.next_everywhere(None) {
            None => self.waits.next_moment(None),
            Some(_) => self.least_until(),
        }
    }

    // The ready thread with the least number above this one, or of all.
    fn settle_next<L: Ledger>(
        &mut self,
        constants: &Constants,
        after: Option<u64>,
        steps: &mut Steps<L>,
    ) -> Option<u64>
        requires deadlines { HasDeadlines constants.now self.old }
        ensures same { self.new ≡ self.old }
        ensures next { IsNextReady constants.now self.old (option_map thread_at after) (option_map thread_at result) }
    {
        let looked = Looked {
            around: Surroundings {
                constants,
                objects: &self.objects,
                channels: &self.channels,
                statuses: &self.statuses,
                now: self.clock,
            },
            tables: &self.tables,
            processes: &self.processes,
        };
        let next = self.waits.next_settled(&looked, after, steps);
        gather(
            &mut self.waits,
            self.alloc,
            &self.objects,
            &self.tables,
            &self.processes,
        );
        next
    }

    /// The ready thread with the least numbers behind this one, or of all, in a run with these constants. Only those are tested that something has
    /// happened to since they were last, and none behind it: `steps` counts them.
    pub fn next_tested<L: Ledger>(
        &mut self,
        constants: &Constants,
        after: Option<(Pid, Tid)>,
        steps: &mut Steps<L>,
    ) -> Option<(Pid, Tid)>
        requires deadlines { HasDeadlines constants.now self.old }
        ensures same { self.new ≡ self.old }
        ensures next { IsNextReady constants.now self.old after result }
    {
        let after = match after {
            Some((pid, tid)) => Some(thread_key(pid, tid)),
            None => None,
        };
        let key = self.settle_next(constants, after, steps)?;
        Some(thread_of_key(key))
    }

    // The same, where nobody counts.
    fn next_by<L: Ledger>(
        &mut self,
        constants: &Constants,
        after: Option<(Pid, Tid)>,
        blank: Blank,
    ) -> Option<(Pid, Tid)>
        requires name { blank.name ≡ L.name }
        requires parts { blank.parts ≡ L.parts }
        requires some { 0 < blank.parts }
        requires deadlines { HasDeadlines constants.now self.old }
        ensures same { self.new ≡ self.old }
        ensures next { IsNextReady constants.now self.old after result }
    {
        self.next_tested(constants, after, &mut Steps::<L>::new(blank))
    }

    /// The ready thread with the least numbers behind this one, or of all, in a run with these constants.
    pub fn next_ready(
        &mut self,
        constants: &Constants,
        after: Option<(Pid, Tid)>,
    ) -> Option<(Pid, Tid)>
        requires deadlines { HasDeadlines constants.now self.old }
        ensures same { self.new ≡ self.old }
        ensures next { IsNextReady constants.now self.old after result }
    {
        self.next_by::<Brand>(constants, after, Blank::new(1))
    }

    // Whether a thread waits and goes on now: by its mark, and where it is left to be tested by a look at it.
    pub(crate) fn goes_on_now(&self, constants: &Constants, pid: Pid, tid: Tid) -> bool
        requires deadlines { HasDeadlines constants.now self.now }
        ensures { result ≡ is_ready constants.now self.now pid tid }
    {
        match self.waits.marked(thread_key(pid, tid)) {
            Some(ready) => ready,
            None => self.is_ready(constants, pid, tid),
        }
    }

    /// Whether something has happened to a thread that waits since it was last tested, or a thread is no more of which nobody was told. Who is ready
    /// is told by `next_ready`, and who is no more by `take_gone`.
    pub fn has_news(&self) -> bool {
        self.waits.has_news()
    }

    /// A thread that is no more, since its process has ended, or another program began in it, and of which nobody was told.
    pub fn take_gone(&mut self) -> Option<(Pid, Tid)>
        ensures { self.new ≡ self.old }
    {
        self.waits.take_gone().map(|key| thread_of_key(key))
    }
}
