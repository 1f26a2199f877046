//! The kernel with its history: what threads ask for is done by the kernel, and becomes an entry. Each call here takes a process's pass in,
//! does what it does, and hands the pass out again.
ghost use Rattle.std.specs.Prelude.{◌≡◌, [], ◌∷◌};
ghost use Rattle.guest_process.specs.Children.{IsFork};
ghost use Rattle.kernel_model.specs.Waits.{HasDeadlines};
ghost use Rattle.readiness_laws.specs.NextReady.{IsNextReady};
ghost use Rattle.run_model.specs.Own.{IsLiveIn};
ghost use Rattle.run_model.specs.World.{world};
ghost use Rattle.shared_history.specs.Kept.{HasRoom};
ghost use Rattle.kernel_cell.specs.declared.results.Asked.TheVariants as asked;
ghost use Rattle.kernel_cell.specs.Acting.{HasEnded, Looked, IsActed, IsActedOn, IsForked, IsForkedOn, IsIdledOn};
ghost use Rattle.kernel_cell.specs.Asking.{Asks, AsksCall, AsksEnd, AsksWake, HasNoChild};
ghost use Rattle.kernel_cell.specs.Handing.{held_after, held_without, with_pass, MayHandOut};
ghost use Rattle.kernel_cell.specs.Recorded.{IsInOrder};

use crate::results::{
    After, Asked, Body, Came, EndBy, Idled, act_of, after_call, after_wake, child_guest,
    child_told, if_live, keep_place, leave_place, make_place, number_for, status_of, unless_lost,
};
use abi_types::{Call, Constants, Pid, Tid};
use guest_process::Guest;
use kernel_core::{Kernel, Woken};
use run_types::TurnList;
use shared_history::{EntryHead, Keeper, Kept, Naming, Pass, Passes, idle_entry};
use std::alloc::Global;
use std::mem;

/// The kernel, the keeper of its history, and what is kept of the history in memory. Between two calls the history is legal, and the kernel's
/// state is its world's.
#[derive(Drop)]
pub struct Locked<J: Naming> {
    pub kernel: Kernel,
    pub constants: Constants,
    pub keeper: Keeper<J>,
    pub kept: Kept,
    pub alloc: Global,
}

// The pass and the guest of the child, if there is one, whose pass the keeper hands out.
fn with_pass<J: Naming>(
    keeper: &mut Keeper<J>,
    passes: &Passes<J>,
    forked: Came<Option<(Pid, Guest)>>,
) -> Came<Option<(Pass<J>, Guest)>>
    requires { MayHandOut J.launch keeper.old forked }
    ensures keeper { keeper.new ≡ record { log = keeper.old.log; held = held_without forked keeper.old.held } }
    ensures pass { result ≡ with_pass keeper.old.log forked }
{
    match forked {
        Came::Done(Some((child, guest))) => {
            let pass = keeper.hand_out(passes, child);
            Came::Done(Some((pass, guest)))
        }
        Came::Done(None) => Came::Done(None),
        Came::NotReady => Came::NotReady,
        Came::Gone => Came::Gone,
        Came::NoMemory => Came::NoMemory,
    }
}

impl<J: Naming> Locked<J> {
    /// What a thread asks for, after the turns of its process that no entry has yet. Its guest is the process's at that, and gets the answer.
    pub fn act(
        &mut self,
        passes: &Passes<J>,
        pass: &mut Pass<J>,
        body: &mut Body,
        tid: Tid,
        what: Asked,
        told: &mut bool,
    ) -> Came<After>
        requires recorded { IsInOrder J.launch J.keeps_all self.old }
        requires asks { Asks (world J.launch pass.old.seen) pass.old.pid tid body.old what }
        ensures recorded { IsInOrder J.launch J.keeps_all self.new }
        ensures pass { IsActed J.launch pass.old tid body.old what body.new pass.new result }
        ensures history { IsActedOn J.launch self.old.keeper.log pass.old.pid tid body.old what body.new self.new.keeper.log result }
        ensures seen { pass.new.seen ≡ self.new.keeper.log }
    {
        let pid = pass.pid;
        self.keeper
            .take_in(passes, Pass::lent(pid, &mut pass.badge));
        let came = self.enter(passes, pid, tid, body, what);
        *pass = self.keeper.hand_out(passes, pid);
        *told |= self.kernel.has_news();
        came
    }

    // The same, while the keeper holds the process. The room for the entry is taken before. What is asked for is dropped by name where nothing comes
    // of it, as below: what a scope's end drops is proved at each return.
    fn enter(
        &mut self,
        passes: &Passes<J>,
        pid: Pid,
        tid: Tid,
        body: &mut Body,
        what: Asked,
    ) -> Came<After>
        requires recorded { IsInOrder J.launch J.keeps_all self.old }
        requires held { self.old.keeper.held ≡ pid ∷ [] }
        requires asks { IsLiveIn (world J.launch self.old.keeper.log) pid → Asks (world J.launch self.old.keeper.log) pid tid body.old what }
        ensures recorded { IsInOrder J.launch J.keeps_all self.new }
        ensures held { self.new.keeper.held ≡ pid ∷ [] }
        ensures came { IsActedOn J.launch self.old.keeper.log pid tid body.old what body.new self.new.keeper.log result }
    {
        if !self.kernel.live(pid) {
            drop(what);
            return Came::Gone;
        }
        let Ok(()) = self.kept.reserve() else {
            drop(what);
            return Came::NoMemory;
        };
        match what {
            Asked::Calls(call) => self.call(passes, pid, tid, body, call),
            Asked::Wakes => self.wake(passes, pid, tid, body),
            Asked::Ends(how) => {
                self.end(passes, pid, tid, &mut body.turns, how);
                Came::Done(After::Ended)
            }
        }
    }

    // The head of the entry that is now, with the turns that no entry had.
    fn head(&self, pid: Pid, tid: Tid, turns: &mut TurnList) -> EntryHead
        ensures head { result ≡ record { moment = self.now.kernel.clock; pid = pid; tid = tid; turns = turns.old } }
        ensures none { turns.new ≡ [] }
    {
        EntryHead {
            moment: self.kernel.moment(),
            pid,
            tid,
            turns: mem::replace(turns, TurnList::new(self.alloc)),
        }
    }

    // A thread's call, whose answer its guest gets. The room for it, and the place for the thread that it may make, are taken before, so no
    // answer is lost for lack of it.
    fn call(
        &mut self,
        passes: &Passes<J>,
        pid: Pid,
        tid: Tid,
        body: &mut Body,
        call: Call,
    ) -> Came<After>
        requires recorded { IsInOrder J.launch J.keeps_all self.old }
        requires held { self.old.keeper.held ≡ pid ∷ [] }
        requires room { HasRoom self.old.kept }
        requires live { IsLiveIn (world J.launch self.old.keeper.log) pid }
        requires asks { AsksCall (world J.launch self.old.keeper.log) pid tid body.old.turns body.old.guest call }
        requires plain { HasNoChild call }
        ensures recorded { IsInOrder J.launch J.keeps_all self.new }
        ensures held { self.new.keeper.held ≡ pid ∷ [] }
        ensures came { IsActedOn J.launch self.old.keeper.log pid tid body.old (asked.Calls call) body.new self.new.keeper.log result }
    {
        let next = number_for(&self.kernel, pid, &call);
        let Ok(placed) = make_place(&mut body.threads, &call, next) else {
            drop(call);
            return Came::NoMemory;
        };
        let Ok(room) = body.guest.make_room(self.alloc, &call, next) else {
            leave_place(&mut body.threads, next, placed);
            drop(call);
            return Came::NoMemory;
        };
        let answer = self.kernel.step(&self.constants, pid, tid, &call);
        body.guest.answer(tid, &call, &answer, room);
        let begun = body.guest.begin(self.alloc, pid, tid, &call, &answer);
        let after = after_call(&call, &answer, next);
        let head = self.head(pid, tid, &mut body.turns);
        self.keeper.append_call(passes, &head, &call, None, &answer);
        self.kept.take_call(head, call, None, answer);
        let after = unless_lost(begun, if_live(self.kernel.live(pid), after));
        keep_place(&mut body.threads, next, placed, &after);
        Came::Done(after)
    }

    // The wake of a thread, whose guest gets the answer to the call that the thread waited in: a reply, or the words that are written where
    // the thread waits on. Where the kernel had no memory for it nothing changes, so the thread keeps its lock or its signal.
    fn wake(&mut self, passes: &Passes<J>, pid: Pid, tid: Tid, body: &mut Body) -> Came<After>
        requires recorded { IsInOrder J.launch J.keeps_all self.old }
        requires held { self.old.keeper.held ≡ pid ∷ [] }
        requires room { HasRoom self.old.kept }
        requires live { IsLiveIn (world J.launch self.old.keeper.log) pid }
        requires asks { AsksWake (world J.launch self.old.keeper.log) pid tid body.old.turns body.old.guest }
        ensures recorded { IsInOrder J.launch J.keeps_all self.new }
        ensures held { self.new.keeper.held ≡ pid ∷ [] }
        ensures came { IsActedOn J.launch self.old.keeper.log pid tid body.old asked.Wakes body.new self.new.keeper.log result }
    {
        let Some(kept) = self.kernel.kept(pid, tid) else {
            return Came::NotReady;
        };
        let given = body.guest.given(tid, kept);
        match self.kernel.wake(&self.constants, pid, tid, given) {
            Woken::NotReady => Came::NotReady,
            Woken::NoMemory => Came::NoMemory,
            Woken::Done { call, answer } => {
                body.guest.answer_woken(tid, &call, &answer);
                let after = after_wake(&answer);
                let head = self.head(pid, tid, &mut body.turns);
                self.keeper
                    .append_call(passes, &head, &call, Some(given), &answer);
                self.kept.take_call(head, call, Some(given), answer);
                Came::Done(if_live(self.kernel.live(pid), after))
            }
        }
    }

    // The end of a process from outside, by a thread of it.
    fn end(&mut self, passes: &Passes<J>, pid: Pid, tid: Tid, turns: &mut TurnList, how: EndBy)
        requires recorded { IsInOrder J.launch J.keeps_all self.old }
        requires held { self.old.keeper.held ≡ pid ∷ [] }
        requires room { HasRoom self.old.kept }
        requires live { IsLiveIn (world J.launch self.old.keeper.log) pid }
        requires asks { AsksEnd (world J.launch self.old.keeper.log) pid tid turns.old how }
        ensures recorded { IsInOrder J.launch J.keeps_all self.new }
        ensures held { self.new.keeper.held ≡ pid ∷ [] }
        ensures ended { HasEnded J.launch self.old.keeper.log pid tid turns.old how self.new.keeper.log }
        ensures none { turns.new ≡ [] }
    {
        self.kernel.end(pid, status_of(how));
        let entry = self.head(pid, tid, turns).with(act_of(how));
        self.keeper.append(passes, &entry);
        self.kept.take(entry);
    }

    /// A thread's proc_fork, after the turns of its process that no entry has yet. Its guest is the process's at that, and gets the answer.
    /// With the child's pass comes the guest that the child begins with.
    pub fn fork(
        &mut self,
        passes: &Passes<J>,
        pass: &mut Pass<J>,
        body: &mut Body,
        tid: Tid,
        call: Call,
        told: &mut bool,
    ) -> Came<Option<(Pass<J>, Guest)>>
        requires recorded { IsInOrder J.launch J.keeps_all self.old }
        requires asks { AsksCall (world J.launch pass.old.seen) pass.old.pid tid body.old.turns body.old.guest call }
        requires fork { IsFork call }
        ensures recorded { IsInOrder J.launch J.keeps_all self.new }
        ensures pass { IsForked J.launch pass.old tid body.old call body.new pass.new result }
        ensures seen { pass.new.seen ≡ self.new.keeper.log }
    {
        let pid = pass.pid;
        self.keeper
            .take_in(passes, Pass::lent(pid, &mut pass.badge));
        let forked = self.make_child(passes, pid, tid, body, call);
        let child = with_pass(&mut self.keeper, passes, forked);
        *pass = self.keeper.hand_out(passes, pid);
        *told |= self.kernel.has_news();
        child
    }

    // The same, while the keeper holds the process. The child's guest is made before, where there may be a child, since the call's entry
    // stands whatever comes after it. The keeper holds the child then too.
    fn make_child(
        &mut self,
        passes: &Passes<J>,
        pid: Pid,
        tid: Tid,
        body: &mut Body,
        call: Call,
    ) -> Came<Option<(Pid, Guest)>>
        requires recorded { IsInOrder J.launch J.keeps_all self.old }
        requires held { self.old.keeper.held ≡ pid ∷ [] }
        requires asks { IsLiveIn (world J.launch self.old.keeper.log) pid → AsksCall (world J.launch self.old.keeper.log) pid tid body.old.turns body.old.guest call }
        requires fork { IsFork call }
        ensures recorded { IsInOrder J.launch J.keeps_all self.new }
        ensures held { self.new.keeper.held ≡ held_after result (pid ∷ []) }
        ensures forked { IsForkedOn J.launch self.old.keeper.log pid tid body.old call body.new self.new.keeper.log result }
    {
        if !self.kernel.live(pid) {
            drop(call);
            return Came::Gone;
        }
        let Ok(()) = self.kept.reserve() else {
            drop(call);
            return Came::NoMemory;
        };
        let Ok(begun) = child_guest(&self.kernel, self.alloc, pid, tid, &mut body.guest) else {
            drop(call);
            return Came::NoMemory;
        };
        let answer = self.kernel.step(&self.constants, pid, tid, &call);
        body.guest.answer_fork(self.alloc, tid, &call, &answer);
        let child = child_told(&answer);
        let head = self.head(pid, tid, &mut body.turns);
        self.keeper.append_call(passes, &head, &call, None, &answer);
        self.kept.take_call(head, call, None, answer);
        Came::Done(child.zip(begun))
    }

    /// Lets time go to the next deadline where no thread takes turns or is ready.
    pub fn idle(&mut self, passes: &Passes<J>) -> Idled
        requires recorded { IsInOrder J.launch J.keeps_all self.old }
        ensures recorded { IsInOrder J.launch J.keeps_all self.new }
        ensures idled { IsIdledOn J.launch self.old.keeper.log self.new.keeper.log result }
    {
        let Ok(()) = self.kept.reserve() else {
            return Idled::NoMemory;
        };
        if self.kernel.idle(&self.constants) {
            let entry = idle_entry(self.alloc, self.kernel.moment());
            self.keeper.append(passes, &entry);
            self.kept.take(entry);
            return Idled::Jumped;
        }
        if self.kernel.stalled(&self.constants) {
            Idled::Stalled
        } else if self.kernel.any_live() {
            Idled::Busy
        } else {
            Idled::Over
        }
    }

    /// The ready thread with the least numbers behind this one, or of all.
    pub fn next_ready(&mut self, after: Option<(Pid, Tid)>) -> Option<(Pid, Tid)>
        requires recorded { IsInOrder J.launch J.keeps_all self.old }
        ensures recorded { IsInOrder J.launch J.keeps_all self.new }
        ensures history { self.new.keeper.log ≡ self.old.keeper.log }
        ensures next { IsNextReady self.old.constants self.old.kernel after result }
    {
        self.kernel.next_ready(&self.constants, after)
    }

    /// A thread that waited and is no more, of which nobody was told.
    pub fn take_gone(&mut self) -> Option<(Pid, Tid)>
        requires recorded { IsInOrder J.launch J.keeps_all self.old }
        ensures recorded { IsInOrder J.launch J.keeps_all self.new }
        ensures history { self.new.keeper.log ≡ self.old.keeper.log }
    {
        self.kernel.take_gone()
    }

    /// Whether the pass's process is live.
    pub fn look(&mut self, passes: &Passes<J>, pass: &mut Pass<J>) -> bool
        requires recorded { IsInOrder J.launch J.keeps_all self.old }
        ensures recorded { IsInOrder J.launch J.keeps_all self.new }
        ensures pass { Looked J.launch pass.old pass.new result }
        ensures history { self.new.keeper.log ≡ self.old.keeper.log }
        ensures seen { pass.new.seen ≡ self.new.keeper.log }
    {
        let pid = pass.pid;
        self.keeper
            .take_in(passes, Pass::lent(pid, &mut pass.badge));
        *pass = self.keeper.hand_out(passes, pid);
        self.kernel.live(pid)
    }

    /// Takes back the pass of a process that needs it no more.
    pub fn spend(&mut self, passes: &Passes<J>, pass: Pass<J>)
        requires recorded { IsInOrder J.launch J.keeps_all self.old }
        ensures recorded { IsInOrder J.launch J.keeps_all self.new }
        ensures history { self.new.keeper.log ≡ self.old.keeper.log }
    {
        self.keeper.take_in(passes, pass);
    }
}
