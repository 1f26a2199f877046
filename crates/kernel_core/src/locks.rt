//! Calls on locks and condition variables, and polls of them.
ghost use Rattle.std.specs.Prelude.{◌≡◌, ◌<◌, ◌^◌, Some, IsSome, IfSome, true};
ghost use Rattle.std.specs.FinMap as map;
ghost use Rattle.kernel_model.specs.Done.{IsAnswered};
ghost use Rattle.kernel_model.specs.Families.LockCalls.{signal_in, unlock_in, waited_outcome};
ghost use Rattle.kernel_model.specs.Outcome.{is_parked};
ghost use Rattle.kernel_model.specs.Release.{lives};
ghost use Rattle.kernel_model.specs.State.{thread_of};
ghost use Rattle.kernel_model.specs.Step.{step_answer, IsStep};
ghost use Rattle.kernel_model.specs.Valid.{IsValid};
ghost use Rattle.kernel_model.specs.Waits.{may_wait, waiting, with_thread};
ghost use Rattle.kernel_model.specs.Wakes.{LacksNoMemory};
ghost use Rattle.poll_set.specs.Polls.{BeginsWith};

use crate::kernel::{Kernel, STEP_TIME};
use abi_types::{Answer, Call, Constants, Errno, Subscription, TryClone, Who};
use guest_locks::Told;
use kernel_invariant::touch_time;
use kernel_parts::touch_told;
use right_rules::refused;

impl Kernel {
    // Lets go of the lock at this address, whose word is this.
    pub(crate) fn lock_unlock(&mut self, who: &Who, lock: u64, word: u32) -> Answer
        requires there { lives (map.get self.old.statuses who.now.pid) ≡ true }
        ensures { IsAnswered (unlock_in who.now.pid who.now.tid lock word (map.get self.old.processes who.now.pid))
            self.old self.new result }
    {
        let mut told = Told::new();
        let own = self.processes.get_mut(u64::from(who.pid.0));
        let answer = own.unlock(who.tid, lock, word, &mut told);
        touch_told(&mut self.waits, who.pid, &told);
        answer
    }

    // Signals so many of the threads that wait at the condition variable at this address.
    pub(crate) fn condvar_signal(&mut self, who: &Who, condvar: u64, n: u32) -> Answer
        requires there { lives (map.get self.old.statuses who.now.pid) ≡ true }
        ensures { IsAnswered (signal_in who.now.pid condvar n (map.get self.old.processes who.now.pid))
            self.old self.new result }
    {
        let mut told = Told::new();
        let own = self.processes.get_mut(u64::from(who.pid.0));
        let answer = own.signal(condvar, n, &mut told);
        touch_told(&mut self.waits, who.pid, &told);
        answer
    }

    // What a poll of a lock or a condition variable comes to that isn't refused, before its thread waits.
    fn ask_lock(&mut self, who: &Who, first: &Subscription) -> Answer
        requires there { IsSome (thread_of self.old who.now.pid who.now.tid) }
        ensures done { IsAnswered
            (waited_outcome first.now.userdata first.now.what who.now.pid who.now.tid who.now.stage (map.get self.old.processes who.now.pid))
            self.old self.new result }
        ensures there { IsSome (thread_of self.new who.now.pid who.now.tid) }
        ensures moment { self.new.clock ≡ self.old.clock }
    {
        let mut told = Told::new();
        let own = self.processes.get_mut(u64::from(who.pid.0));
        let answer = own.lock_poll(who, first, &mut told);
        touch_told(&mut self.waits, who.pid, &told);
        answer
    }

    // Makes the thread wait in the call that is kept for it, which is taken, if there is one.
    fn wait_in(&mut self, constants: &Constants, who: &Who, kept: &mut Option<Call>)
        requires there { IsSome (thread_of self.old who.now.pid who.now.tid) }
        requires may { IfSome kept.old (λ call. may_wait call ≡ true) }
        ensures { IfSome kept.old (λ call. self.new ≡ with_thread self.old who.now.pid who.now.tid (waiting constants.now call who.now self.old.clock)) }
    {
        if let Some(call) = kept.take() {
            self.begin_wait(constants, who, call, true);
        }
    }

    // A poll that begins with a lock or a condition variable. Its thread waits in the copy of the call that is kept for it, where it does: the copy
    // is made before, since once a lock is handed on or a signal is used up there is to be no lack of memory.
    pub(crate) fn lock_poll(
        &mut self,
        constants: &Constants,
        who: &Who,
        call: &Call,
        first: &Subscription,
        kept: &mut Option<Call>,
    ) -> Answer
        requires there { IsSome (thread_of self.old who.now.pid who.now.tid) }
        requires begins { BeginsWith first.now call.now }
        requires early { self.old.clock < 2 ^ 63 }
        requires kept { is_parked (step_answer constants.now self.old who.now call.now) ≡ true → kept.old ≡ Some call.now }
        ensures exact { LacksNoMemory constants.now self.old who.now call.now result self.new }
        ensures valid { IsValid self.old }
    {
        let before = self.clock;
        self.clock += STEP_TIME;
        touch_time(&mut self.waits, before, self.clock);
        if let Some(reply) = self.refusal_of(who.pid, call) {
            return Answer::Reply(reply);
        }
        match self.ask_lock(who, first) {
            Answer::Reply(reply) => Answer::Reply(reply),
            Answer::Parked(writes) => {
                self.wait_in(constants, who, kept);
                Answer::Parked(writes)
            }
        }
    }

    // The same of a call that is made now. It is copied first, and where that can't be nothing changes but the clock.
    pub(crate) fn call_lock(
        &mut self,
        constants: &Constants,
        who: &Who,
        call: &Call,
        first: &Subscription,
    ) -> Answer
        requires there { IsSome (thread_of self.old who.now.pid who.now.tid) }
        requires begins { BeginsWith first.now call.now }
        requires early { self.old.clock < 2 ^ 63 }
        ensures step { IsStep constants.now self.old who.now call.now result self.new }
        ensures valid { IsValid self.old }
    {
        let Ok(copy) = call.copy() else {
            let before = self.clock;
            self.clock += STEP_TIME;
            touch_time(&mut self.waits, before, self.clock);
            return match self.refusal_of(who.pid, call) {
                Some(reply) => Answer::Reply(reply),
                None => Answer::Reply(refused(Errno::Nomem)),
            };
        };
        let mut kept = Some(copy);
        let answer = self.lock_poll(constants, who, call, first, &mut kept);
        drop(kept);
        answer
    }
}
