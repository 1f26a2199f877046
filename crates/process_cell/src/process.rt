//! A process: its guest, what its threads do, the turns that no entry has yet, and its pass. What it has is always what the world of the
//! history that its pass has seen says, after those turns. Its steps are taken by a worker, who passes a gate.
ghost use Rattle.std.specs.Prelude.{◌≡◌, ◌<◌, IfOk, IfErr, OnErr};
ghost use Rattle.std.specs.FinMap as map;
ghost use Rattle.call_codec.specs.Bounded.{IsBounded};
ghost use Rattle.kernel_cell.specs.declared.results.EndBy.TheVariants as end_by;
ghost use Rattle.process_cell.specs.declared.results.Phase.TheVariants as phase;
ghost use Rattle.process_cell.specs.Process.{IsDue, RunsIn, WaitsIn, new_pass, first_standing};
ghost use Rattle.process_cell.specs.Steps.{IsCalled, IsForked, IsFinished, IsEnded, IsLooked, IsRun, IsStepped, turned_standing};

use crate::results::{
    Did, Phase, born, gives_way, going_on, one_running, phase_after_turn, settle,
};
use abi_types::{Call, Pid, Signal, Tid};
use guest_process::{FIRST_THREAD, Guest};
use kernel_cell::{After, Asked, Body, Came, Cell, Doing, EndBy, Naming, Pass};
use maps::NumMap;
use run_types::{Launch, TurnList};
use rv_interp::TurnEnd;
use std::alloc::{AllocError, Global};
use std::marker::Model;
use std::sync::Wait;

/// Is called by the worker with this number while it has the process. It may watch or hold the worker, and no contract
/// rests on it.
pub trait Gate {
    /// Before each turn of a thread.
    fn turning(&self, worker: u32, pid: Pid, tid: Tid);

    /// Before a thread's call, trap or expiry becomes an entry of the history, and before a thread that waits is tried, whose wake is an
    /// entry where the thread is ready. A proc_fork passes it twice: as it is read, and before it is made. The process has `left` turns left.
    fn before(&self, worker: u32, pid: Pid, tid: Tid, left: u64);

    /// After one of these was answered, or was found to be none any more, since the process or the thread had ended before.
    fn after(&self, worker: u32, pid: Pid, tid: Tid);
}

/// The gate that does nothing.
#[derive(Clone, Copy)]
pub struct OpenGate;

impl Gate for OpenGate {
    fn turning(&self, _worker: u32, _pid: Pid, _tid: Tid) {}

    fn before(&self, _worker: u32, _pid: Pid, _tid: Tid, _left: u64) {}

    fn after(&self, _worker: u32, _pid: Pid, _tid: Tid) {}
}

/// A worker, by its number, with the run's kernel and the gate that it passes.
#[derive(Drop)]
pub struct Worker<'a, J: Naming, R: Wait, G: Gate> {
    pub rt: &'a R,
    pub alloc: Global,
    pub cell: &'a Cell<J>,
    pub gate: &'a G,
    pub number: u32,
}

/// A process of a run. Contracts see whose it is, its phase, what each of its threads does, how many turns it has left, the turns that no
/// entry has yet, the history as it has seen it, and the entries of it that it did.
#[derive(Drop)]
pub struct Process<J: Naming> {
    body: Body,
    phase: Phase,
    pass: Pass<J>,
}

impl<J: Naming> Model for Process<J> {
    ghost use Rattle.process_cell.specs.Standing.{Standing};
    ghost use Rattle.process_cell.specs.Codes.{standing_code};
    ghost use Rattle.process_cell.specs.Process.{standing_of, IsTied};

    ghost Value = { Standing };

    ghost coded = { standing_code };

    ghost view = { λ p. standing_of p.pass p.body p.phase };

    ghost invariant = { λ p. IsTied J.launch p.pass p.body p.phase };
}

impl<J: Naming> Process<J> {
    /// Process 0 at the start of its launch, with the pass that the run's begin gave. `Err` gives the pass back where memory ran out.
    pub fn first(alloc: Global, launch: &Launch, pass: Pass<J>) -> Result<Process<J>, Pass<J>>
        requires launch { launch.now ≡ J.launch }
        requires bounded { IsBounded launch.now }
        requires first { pass ≡ new_pass }
        ensures ok { IfOk result (λ process. process ≡ first_standing launch.now) }
        ensures err { IfErr result (λ back. back ≡ pass) }
    {
        let Ok(guest) = Guest::start(alloc, launch) else {
            return Err(pass);
        };
        let Some(threads) = one_running(alloc, FIRST_THREAD) else {
            return Err(pass);
        };
        Ok(Process {
            body: Body {
                guest,
                threads,
                turns: TurnList::new(alloc),
            },
            phase: Phase::Lives,
            pass,
        })
    }

    /// The process's number.
    pub fn pid(&self) -> Pid
        ensures { result ≡ self.now.pid }
    {
        self.pass.pid()
    }

    /// Its phase.
    pub fn phase(&self) -> Phase
        ensures { result ≡ self.now.phase }
    {
        self.phase
    }

    /// What a thread does. `None` where there is no such thread.
    pub fn doing(&self, tid: Tid) -> Option<Doing>
        ensures { result ≡ map.get self.now.threads tid }
    {
        match self.body.threads.get(u64::from(tid.0)) {
            Some(doing) => Some(*doing),
            None => None,
        }
    }

    /// How many turns it has left.
    pub fn left(&self) -> u64
        ensures { result ≡ self.now.left }
    {
        self.body.guest.left
    }

    /// A turn of a thread, and how it ended. `Err` where memory ran out, and then nothing changed.
    pub fn turn(&mut self, tid: Tid) -> Result<TurnEnd, AllocError>
        requires runs { RunsIn tid self.old }
        requires left { 0 < self.old.left }
        ensures ok { IfOk result (λ end. self.new ≡ turned_standing tid self.old end) }
        ensures err { OnErr result (self.new ≡ self.old) }
    {
        self.body.turns.push(tid)?;
        let end = self.body.guest.turn(tid);
        self.phase = phase_after_turn(tid, &end);
        Ok(end)
    }

    /// The call at which the last turn, of this thread, ended: the kernel answers it, and it is an entry of the history. A proc_fork isn't
    /// made by it: the thread stands at it then.
    pub fn call<R: Wait, G: Gate>(
        &mut self,
        worker: &Worker<'_, J, R, G>,
        told: &mut bool,
        tid: Tid,
    ) -> Did
        requires { self.old.phase ≡ phase.Calls tid }
        ensures same { self.new.pid ≡ self.old.pid }
        ensures called { IsCalled J.launch tid self.old self.new result.came result.gives_way }
    {
        let Ok(call) = self.body.guest.call(worker.alloc, tid) else {
            self.phase = Phase::Lost;
            return Did::unasked(Came::NoMemory);
        };
        if let Call::ProcFork { .. } = call {
            self.phase = Phase::Forks(tid);
            return Did::unasked(Came::Done(After::Runs));
        }
        let yields = gives_way(&call);
        let what = Asked::Calls(call);
        let came = worker
            .cell
            .act(worker.rt, &mut self.pass, &mut self.body, tid, what, told);
        self.phase = settle(&mut self.body.threads, tid, Doing::Runs, &came);
        Did::answered(came, yields, *told)
    }

    // The proc_fork at which the last turn, of this thread, ended, and the child, where one was made. What the child's thread does is noted
    // before it, since the call's entry stands whatever comes after it.
    fn make_child<R: Wait, G: Gate>(
        &mut self,
        worker: &Worker<'_, J, R, G>,
        told: &mut bool,
        tid: Tid,
    ) -> (Did, Option<Process<J>>)
        requires { self.old.phase ≡ phase.Forks tid }
        ensures same { self.new.pid ≡ self.old.pid }
        ensures forked { IsForked tid self.old self.new result.0.came result.0.gives_way result.1 }
    {
        let Some(threads) = one_running(worker.alloc, tid) else {
            self.phase = Phase::Lost;
            return (Did::unasked(Came::NoMemory), None);
        };
        let left = self.left();
        let call = Call::ProcFork { left };
        let forked = worker
            .cell
            .fork(worker.rt, &mut self.pass, &mut self.body, tid, call, told);
        let came = going_on(&forked);
        self.phase = settle(&mut self.body.threads, tid, Doing::Runs, &came);
        let Some((pass, guest)) = born(forked) else {
            return (Did::answered(came, false, *told), None);
        };
        let child = Process {
            body: Body {
                guest,
                threads,
                turns: TurnList::new(worker.alloc),
            },
            phase: Phase::Lives,
            pass,
        };
        (Did::answered(came, true, *told), Some(child))
    }

    /// The proc_fork at which the last turn, of this thread, ended: the kernel answers it, and it is an entry of the history. With it comes
    /// the child, where one was made, and then the thread gives way. The gate is passed before it and after it.
    pub fn fork<R: Wait, G: Gate>(
        &mut self,
        worker: &Worker<'_, J, R, G>,
        told: &mut bool,
        tid: Tid,
    ) -> (Did, Option<Process<J>>)
        requires { self.old.phase ≡ phase.Forks tid }
        ensures same { self.new.pid ≡ self.old.pid }
        ensures forked { IsForked tid self.old self.new result.0.came result.0.gives_way result.1 }
    {
        worker
            .gate
            .before(worker.number, self.pid(), tid, self.left());
        let (did, child) = self.make_child(worker, told, tid);
        worker.gate.after(worker.number, self.pid(), tid);
        (did, child)
    }

    /// The wake of a thread, which waits in a call: where it is ready, its call is answered, and that is an entry of the history, after which
    /// it gives way; or it has left its condition variable and waits on, which is an entry too. Else the process stays as it is.
    pub fn finish<R: Wait, G: Gate>(
        &mut self,
        worker: &Worker<'_, J, R, G>,
        told: &mut bool,
        tid: Tid,
    ) -> Did
        requires { WaitsIn tid self.old }
        ensures same { self.new.pid ≡ self.old.pid }
        ensures finished { IsFinished J.launch tid self.old self.new result.came result.gives_way }
    {
        let what = Asked::Wakes;
        let came = worker
            .cell
            .act(worker.rt, &mut self.pass, &mut self.body, tid, what, told);
        self.phase = settle(&mut self.body.threads, tid, Doing::Waits, &came);
        Did::answered(came, true, *told)
    }

    // Its end from outside, by a thread of it, which is an entry of the history.
    fn end<R: Wait, G: Gate>(
        &mut self,
        worker: &Worker<'_, J, R, G>,
        told: &mut bool,
        tid: Tid,
        how: EndBy,
    ) -> Did
        requires { IsDue how tid self.old }
        ensures same { self.new.pid ≡ self.old.pid }
        ensures left { self.new.left ≡ self.old.left }
        ensures ended { IsEnded J.launch how tid self.old self.new result.came result.gives_way }
    {
        let what = Asked::Ends(how);
        let came = worker
            .cell
            .act(worker.rt, &mut self.pass, &mut self.body, tid, what, told);
        self.phase = settle(&mut self.body.threads, tid, Doing::Runs, &came);
        Did::answered(came, false, *told)
    }

    /// The trap by which the last turn, of this thread, ended: it ends the process with all its threads.
    pub fn trap<R: Wait, G: Gate>(
        &mut self,
        worker: &Worker<'_, J, R, G>,
        told: &mut bool,
        tid: Tid,
        signal: Signal,
    ) -> Did
        requires { self.old.phase ≡ phase.Traps tid signal }
        ensures same { self.new.pid ≡ self.old.pid }
        ensures left { self.new.left ≡ self.old.left }
        ensures ended { IsEnded J.launch (end_by.Trap signal) tid self.old self.new result.came result.gives_way }
    {
        self.end(worker, told, tid, EndBy::Trap(signal))
    }

    /// The end of a process that has no turn left for a thread of it that takes turns. Whether others wait doesn't matter.
    pub fn expire<R: Wait, G: Gate>(
        &mut self,
        worker: &Worker<'_, J, R, G>,
        told: &mut bool,
        tid: Tid,
    ) -> Did
        requires runs { RunsIn tid self.old }
        requires left { self.old.left ≡ 0 }
        ensures same { self.new.pid ≡ self.old.pid }
        ensures left { self.new.left ≡ self.old.left }
        ensures ended { IsEnded J.launch end_by.Expire tid self.old self.new result.came result.gives_way }
    {
        self.end(worker, told, tid, EndBy::Expire)
    }

    // What a thread does that is to take no turn now: its last turn's call or trap, its wake, or its process's end.
    fn enter<R: Wait, G: Gate>(
        &mut self,
        worker: &Worker<'_, J, R, G>,
        told: &mut bool,
        tid: Tid,
    ) -> Did
        requires { RunsIn tid self.old → self.old.left ≡ 0 }
        ensures same { self.new.pid ≡ self.old.pid }
        ensures stepped { IsStepped J.launch tid self.old self.new result.came result.gives_way }
    {
        match self.phase() {
            Phase::Lives => match self.doing(tid) {
                Some(Doing::Runs) => self.expire(worker, told, tid),
                Some(Doing::Waits) => self.finish(worker, told, tid),
                None => Did::unasked(Came::Gone),
            },
            Phase::Calls(last) => self.call(worker, told, last),
            Phase::Forks(_) => Did::unasked(Came::Done(After::Runs)),
            Phase::Traps(last, signal) => self.trap(worker, told, last, signal),
            Phase::Gone => Did::unasked(Came::Gone),
            Phase::Lost => Did::unasked(Came::NoMemory),
        }
    }

    // The same, at the gate.
    fn pass_gate<R: Wait, G: Gate>(
        &mut self,
        worker: &Worker<'_, J, R, G>,
        told: &mut bool,
        tid: Tid,
    ) -> Did
        requires { RunsIn tid self.old → self.old.left ≡ 0 }
        ensures same { self.new.pid ≡ self.old.pid }
        ensures stepped { IsStepped J.launch tid self.old self.new result.came result.gives_way }
    {
        worker
            .gate
            .before(worker.number, self.pid(), tid, self.left());
        let did = self.enter(worker, told, tid);
        worker.gate.after(worker.number, self.pid(), tid);
        did
    }

    // A turn of a thread, and the call or the trap by which it ended.
    fn run<R: Wait, G: Gate>(
        &mut self,
        worker: &Worker<'_, J, R, G>,
        told: &mut bool,
        tid: Tid,
    ) -> Did
        requires runs { RunsIn tid self.old }
        requires left { 0 < self.old.left }
        ensures same { self.new.pid ≡ self.old.pid }
        ensures run { IsRun J.launch tid self.old self.new result.came result.gives_way }
    {
        worker.gate.turning(worker.number, self.pid(), tid);
        match self.turn(tid) {
            Ok(TurnEnd::Quantum) => Did::unasked(Came::Done(After::Runs)),
            Ok(TurnEnd::Ecall) => self.pass_gate(worker, told, tid),
            Ok(TurnEnd::Trap(_)) => self.pass_gate(worker, told, tid),
            Err(_) => Did::unasked(Came::NoMemory),
        }
    }

    /// The next step of a thread: a turn, with the call or the trap by which it ended; or its wake, where it waits; or its process's end,
    /// where no turn is left. The gate is passed before it and, but for a turn, after it.
    pub fn step<R: Wait, G: Gate>(
        &mut self,
        worker: &Worker<'_, J, R, G>,
        told: &mut bool,
        tid: Tid,
    ) -> Did
        ensures same { self.new.pid ≡ self.old.pid }
        ensures stepped { IsStepped J.launch tid self.old self.new result.came result.gives_way }
    {
        match self.phase() {
            Phase::Lives => match self.doing(tid) {
                Some(Doing::Runs) => {
                    if self.left() > 0 {
                        self.run(worker, told, tid)
                    } else {
                        self.pass_gate(worker, told, tid)
                    }
                }
                Some(Doing::Waits) => self.pass_gate(worker, told, tid),
                None => Did::unasked(Came::Gone),
            },
            Phase::Calls(_) | Phase::Traps(..) => self.pass_gate(worker, told, tid),
            Phase::Forks(_) => Did::unasked(Came::Done(After::Runs)),
            Phase::Gone => Did::unasked(Came::Gone),
            Phase::Lost => Did::unasked(Came::NoMemory),
        }
    }

    /// Looks whether others have ended the process, where it is between two steps.
    pub fn look<R: Wait, G: Gate>(&mut self, worker: &Worker<'_, J, R, G>)
        ensures { IsLooked J.launch self.old self.new }
    {
        if let Phase::Lives = self.phase {
            let lives = worker.cell.look(worker.rt, &mut self.pass);
            self.phase = if lives { Phase::Lives } else { Phase::Gone };
        }
    }
}
