//! In which phase a process is, and what came of a step of a thread.
ghost use Rattle.std.specs.Prelude.{◌≡◌, true, false, IfSome, IsSome, Some};
ghost use Rattle.std.specs.FinMap as map;
ghost use Rattle.process_cell.specs.Phases.{alone, is_yield, phase_after, phase_after_turn, threads_after, HasPlaceFor};
ghost use Rattle.process_cell.specs.Steps.{born};
ghost use Rattle.kernel_cell.specs.Acting.{going_on};
ghost use Rattle.kernel_cell.specs.declared.results.Doing.TheVariants as doing;

use abi_types::{Call, Signal, Tid};
use guest_process::Guest;
use kernel_cell::{After, Came, Doing, Naming, Pass};
use maps::NumMap;
use rv_interp::TurnEnd;
use std::alloc::Global;

/// In which phase a process is.
#[derive(Clone, Copy)]
pub enum Phase {
    /// Each turn that no entry has yet did as many instructions as a turn has. So it is between two steps, while the process lives.
    Lives,
    /// The last turn, of this thread, ended at an ECALL, and the call is to be made.
    Calls(Tid),
    /// The last turn, of this thread, ended at the ECALL of a proc_fork, which is to be made.
    Forks(Tid),
    /// The last turn, of this thread, ended by a trap, which ends the process.
    Traps(Tid, Signal),
    /// The process has ended.
    Gone,
    /// Memory ran out, and the process is good for nothing more.
    Lost,
}

/// What came of a step of a thread.
#[derive(Clone, Copy)]
pub struct Did {
    /// What became of the thread.
    pub came: Came<After>,
    /// Whether it gives way to others, where it goes on.
    pub gives_way: bool,
}

impl Did {
    /// This, without an answer of the kernel.
    pub(crate) fn unasked(came: Came<After>) -> Did
        ensures came { result.came ≡ came }
        ensures goes { result.gives_way ≡ false }
    {
        Did {
            came,
            gives_way: false,
        }
    }

    /// This, by an answer of the kernel. The thread gives way where it is to, and where news were told, which the board is to learn.
    pub(crate) fn answered(came: Came<After>, yields: bool, told: bool) -> Did
        ensures came { result.came ≡ came }
        ensures gives { yields ≡ true → result.gives_way ≡ true }
    {
        Did {
            came,
            gives_way: yields || told,
        }
    }

    /// Whether the thread goes on and keeps its worker.
    pub(crate) fn goes_on(&self) -> bool {
        matches!(self.came, Came::Done(After::Runs)) && !self.gives_way
    }
}

// The phase after a turn of a thread that ended so.
pub(crate) fn phase_after_turn(tid: Tid, end: &TurnEnd) -> Phase
    ensures { result ≡ phase_after_turn tid end.now }
{
    match end {
        TurnEnd::Quantum => Phase::Lives,
        TurnEnd::Ecall => Phase::Calls(tid),
        TurnEnd::Trap(signal) => Phase::Traps(tid, *signal),
    }
}

// The phase after a call, a wake or an end from outside of which this came.
fn phase_after(came: &Came<After>) -> Phase
    ensures { result ≡ phase_after came.now }
{
    match came {
        Came::Gone | Came::Done(After::Ended) => Phase::Gone,
        Came::NoMemory | Came::Done(After::Lost) => Phase::Lost,
        Came::NotReady | Came::Done(_) => Phase::Lives,
    }
}

// Whether the thread that makes this call gives way to others, whatever comes of it.
pub(crate) fn gives_way(call: &Call) -> bool
    ensures { result ≡ is_yield call.now }
{
    matches!(call, Call::ThreadYield)
}

// A thread that takes turns, alone. `None` where memory ran out.
pub(crate) fn one_running(alloc: Global, tid: Tid) -> Option<NumMap<Doing>>
    ensures { IfSome result (λ threads. threads ≡ alone tid) }
{
    let mut threads = NumMap::new(alloc);
    match threads.insert(u64::from(tid.0), Doing::Runs) {
        Ok(_) => Some(threads),
        Err(_) => None,
    }
}

// Takes out all threads but this one, which takes turns. It takes no memory.
fn keep_only(threads: &mut NumMap<Doing>, tid: Tid)
    requires { IsSome (map.get threads.old tid) }
    ensures { threads.new ≡ alone tid }
{
    let key = u64::from(tid.0);
    threads.keep_only(key);
    threads.replace(key, Doing::Runs);
}

// A thread takes turns, which did this before.
fn take_turns(threads: &mut NumMap<Doing>, tid: Tid, did: Doing)
    requires { map.get threads.old tid ≡ Some did }
    ensures { threads.new ≡ map.insert threads.old tid doing.Runs }
{
    match did {
        Doing::Runs => {}
        Doing::Waits => {
            threads.replace(u64::from(tid.0), Doing::Runs);
        }
    }
}

// Has the threads of a process do what they do after this came of what thread `tid` asked for, which did that before. It takes no memory.
fn take_came(threads: &mut NumMap<Doing>, tid: Tid, did: Doing, came: &Came<After>)
    requires { HasPlaceFor tid did threads.old came.now }
    ensures { threads.new ≡ threads_after threads.old tid came.now }
{
    let key = u64::from(tid.0);
    match came {
        Came::Done(After::Runs) => take_turns(threads, tid, did),
        Came::Done(After::Waits) => {
            threads.replace(key, Doing::Waits);
        }
        Came::Done(After::Leaves) => {
            threads.remove(key);
        }
        Came::Done(After::Begins) => keep_only(threads, tid),
        _ => {}
    }
}

// The same, and the phase in which the process is then.
pub(crate) fn settle(threads: &mut NumMap<Doing>, tid: Tid, did: Doing, came: &Came<After>) -> Phase
    requires { HasPlaceFor tid did threads.old came.now }
    ensures threads { threads.new ≡ threads_after threads.old tid came.now }
    ensures phase { result ≡ phase_after came.now }
{
    take_came(threads, tid, did, came);
    phase_after(came)
}

// What became of the thread that made a proc_fork of which this came.
pub(crate) fn going_on<J: Naming>(forked: &Came<Option<(Pass<J>, Guest)>>) -> Came<After>
    ensures { result ≡ going_on forked.now }
{
    match forked {
        Came::Done(_) => Came::Done(After::Runs),
        Came::NotReady => Came::NotReady,
        Came::Gone => Came::Gone,
        Came::NoMemory => Came::NoMemory,
    }
}

// The pass and the guest of the child that it made, if it made one.
pub(crate) fn born<J: Naming>(forked: Came<Option<(Pass<J>, Guest)>>) -> Option<(Pass<J>, Guest)>
    ensures { result ≡ born forked }
{
    match forked {
        Came::Done(child) => child,
        Came::NotReady => None,
        Came::Gone => None,
        Came::NoMemory => None,
    }
}
