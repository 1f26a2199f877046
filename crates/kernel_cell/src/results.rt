//! What the locked kernel is asked for by a process's threads, what it answers, and what a call leaves of the threads: what became of the one
//! that made it, the place of the one that it made, and the child that it made. Places are made before the call, since the call's entry stands
//! whatever comes after it.
ghost use Rattle.std.specs.Prelude.{◌≡◌, ◌^◌, ◌<◌, ℕ, None, IfOk, IfSome, IsNone, IsSome, OnErr, is_ok};
ghost use Rattle.std.specs.FinMap as map;
ghost use Rattle.abi_types.specs.declared.call.Call.TheVariants as call;
ghost use Rattle.abi_types.specs.declared.constants.Constants.{Constants};
ghost use Rattle.abi_types.specs.declared.reply.Answer.{Answer};
ghost use Rattle.run_model.specs.World.{child_guest};
ghost use Rattle.guest_process.specs.Room.{IsCreate};
ghost use Rattle.kernel_core.specs.Waiting.{caller};
ghost use Rattle.kernel_model.specs.Outcome.{is_parked};
ghost use Rattle.kernel_model.specs.State.{State};
ghost use Rattle.kernel_model.specs.Step.{IsStep};
ghost use Rattle.kernel_model.specs.Threads.{child_told, next_number};
ghost use Rattle.kernel_cell.specs.Results.{act_of, after_call, after_wake, end_of, if_live, status_of, unless_lost, with_made, without_place, HasPlace, IsPlaceFor};

use abi_types::{Answer, Call, Payload, Pid, Signal, Status, Tid};
use guest_process::{Guest, begins_program, ends_caller, makes_thread};
use kernel_core::Kernel;
use maps::NumMap;
use run_types::{Act, TurnList};
use std::alloc::{AllocError, Global};

/// What a thread does.
#[derive(Clone, Copy)]
pub enum Doing {
    /// It takes turns.
    Runs,
    /// It waits in a call.
    Waits,
}

/// What a process has that answers change.
#[derive(Drop)]
pub struct Body {
    pub guest: Guest,
    /// What each of its threads does, by the thread's number.
    pub threads: NumMap<Doing>,
    /// Which threads took the turns that no entry has yet, in their order.
    pub turns: TurnList,
}

/// How a process is ended from outside.
#[derive(Clone, Copy)]
pub enum EndBy {
    /// By an instruction of its thread, which trapped.
    Trap(Signal),
    /// No turn is left.
    Expire,
}

/// What is asked for by a thread.
#[derive(Drop)]
pub enum Asked {
    /// That its call is done, which is no proc_fork.
    Calls(Call),
    /// That it goes on, since it waits in a call.
    Wakes,
    /// That its process ends.
    Ends(EndBy),
}

/// What came of it.
#[derive(Clone, Copy, Drop)]
pub enum Came<T> {
    /// An entry, and this.
    Done(T),
    /// The thread waits and isn't ready. No entry was added.
    NotReady,
    /// The process had ended before, or the thread had. No entry was added.
    Gone,
    /// Memory ran out before. No entry was added.
    NoMemory,
}

/// What became of the thread by the entry.
#[derive(Clone, Copy)]
pub enum After {
    /// It goes on, with the answer to its call.
    Runs,
    /// It goes on, beside the one with this number, which it made.
    Starts(Tid),
    /// It waits in its call. Or it has left its condition variable, and waits on for the lock.
    Waits,
    /// It ended. Its process lives on.
    Leaves,
    /// Another program began in the process. The thread goes on in it, and no other thread is left.
    Begins,
    /// Another program began in the process, but memory ran out for it.
    Lost,
    /// Its process ended.
    Ended,
}

/// What became of the time where no thread takes turns.
#[derive(Clone, Copy)]
pub enum Idled {
    /// It went to the next deadline, which is an entry.
    Jumped,
    /// Some thread takes turns or is ready.
    Busy,
    /// No process is live.
    Over,
    /// Each thread waits, none is ready, and none has a deadline: nothing can happen any more.
    Stalled,
    /// Memory ran out, and no entry was added.
    NoMemory,
}

// The act by which a process is ended from outside.
pub(crate) fn act_of(how: EndBy) -> Act
    ensures { result ≡ act_of how }
{
    match how {
        EndBy::Trap(signal) => Act::Trap(signal),
        EndBy::Expire => Act::Expire,
    }
}

// The status that it has then.
pub(crate) fn status_of(how: EndBy) -> Status
    ensures { result ≡ status_of how }
{
    match how {
        EndBy::Trap(signal) => Status::Killed(signal),
        EndBy::Expire => Status::Killed(Signal::Xcpu),
    }
}

// Whether the answer is that the thread waits.
fn is_parked(answer: &Answer) -> bool
    ensures { result ≡ is_parked answer.now }
{
    matches!(answer, Answer::Parked(_))
}

// What became of the thread that made a call, by whether it waits, whether the call made a thread, which has the number `next`, whether it
// ended this one, and whether another program began by it.
fn end_of(waits: bool, makes: bool, ends: bool, begins: bool, next: Tid) -> After
    ensures { result ≡ end_of waits makes ends begins next }
{
    match (waits, makes, ends, begins) {
        (true, _, _, _) => After::Waits,
        (false, true, _, _) => After::Starts(next),
        (false, false, true, _) => After::Leaves,
        (false, false, false, true) => After::Begins,
        (false, false, false, false) => After::Runs,
    }
}

// What became of the thread whose call was answered so.
pub(crate) fn after_call(call: &Call, answer: &Answer, next: Tid) -> After
    ensures { result ≡ after_call call.now answer.now next }
{
    end_of(
        is_parked(answer),
        makes_thread(call, answer),
        ends_caller(call, answer),
        begins_program(call, answer),
        next,
    )
}

// What became of a thread that was woken and answered so.
pub(crate) fn after_wake(answer: &Answer) -> After
    ensures { result ≡ after_wake (is_parked answer.now) }
{
    match answer {
        Answer::Parked(_) => After::Waits,
        Answer::Reply(_) => After::Runs,
    }
}

// The same, by whether its process is live.
pub(crate) fn if_live(live: bool, after: After) -> After
    ensures { result ≡ if_live live after }
{
    if live { after } else { After::Ended }
}

// The same, where the program that began by its call, if one did, had memory or not.
pub(crate) fn unless_lost(begun: Result<(), AllocError>, after: After) -> After
    ensures { result ≡ unless_lost (is_ok begun) after }
{
    match begun {
        Ok(()) => after,
        Err(_) => After::Lost,
    }
}

// The process that the answer to a proc_fork tells.
pub(crate) fn child_told(answer: &Answer) -> Option<Pid>
    ensures { (left : ℕ) → result ≡ child_told (call.ProcFork left) answer.now }
{
    let Answer::Reply(reply) = answer else {
        return None;
    };
    match &reply.payload {
        Payload::Child(child) => Some(Pid(*child)),
        _ => None,
    }
}

// The guest of the child that a thread's proc_fork with this guest may make. There is none where the kernel makes no child.
pub(crate) fn child_guest(
    kernel: &Kernel,
    alloc: Global,
    pid: Pid,
    tid: Tid,
    guest: &mut Guest,
) -> Result<Option<Guest>, AllocError>
    requires thread { IsSome (map.get guest.old.regs tid) }
    ensures some { IfOk result (λ made. IfSome made (λ child. child ≡ child_guest guest.old tid)) }
    ensures none { IfOk result (λ made. IsNone made → (constants : Constants) (given : Answer) (after : State)
        → IsStep constants kernel.now (caller kernel.now pid tid) (call.ProcFork guest.old.left) given after
        → child_told (call.ProcFork guest.old.left) given ≡ None) }
    ensures same { guest.new ≡ guest.old }
{
    if !kernel.may_fork(pid, tid, guest.left) {
        return Ok(None);
    }
    let child = guest.fork(alloc, tid)?;
    Ok(Some(child))
}

// The number of the thread that the call may make. Other calls make none, and get a number that no thread has.
pub(crate) fn number_for(kernel: &Kernel, pid: Pid, call: &Call) -> Tid
    requires few { next_number kernel.now pid < 2 ^ 32 }
    ensures { IsCreate call.now → result ≡ next_number kernel.now pid }
{
    match call {
        Call::ThreadCreate { .. } => kernel.next_thread(pid),
        _ => Tid(0),
    }
}

// Makes a place for the thread that the call may make, which gets the number `next`. Whether one was put in. `Err` changes nothing.
pub(crate) fn make_place(
    threads: &mut NumMap<Doing>,
    call: &Call,
    next: Tid,
) -> Result<bool, AllocError>
    ensures ok { IfOk result (λ placed. HasPlace call.now next threads.old placed threads.new) }
    ensures err { OnErr result (threads.new ≡ threads.old) }
{
    let Call::ThreadCreate { .. } = call else {
        return Ok(false);
    };
    let key = u64::from(next.0);
    if threads.contains(key) {
        return Ok(false);
    }
    threads.insert(key, Doing::Runs)?;
    Ok(true)
}

// Takes the place out again, where one was put in.
pub(crate) fn leave_place(threads: &mut NumMap<Doing>, next: Tid, placed: bool)
    ensures { threads.new ≡ without_place next placed threads.old }
{
    if placed {
        threads.remove(u64::from(next.0));
    }
}

// Leaves the place to the thread that was made, and takes it out where none was.
pub(crate) fn keep_place(threads: &mut NumMap<Doing>, next: Tid, placed: bool, after: &After)
    requires { IsPlaceFor next threads.old after.now }
    ensures { threads.new ≡ with_made after.now (without_place next placed threads.old) }
{
    match after {
        After::Starts(_) => {
            threads.replace(u64::from(next.0), Doing::Runs);
        }
        _ => leave_place(threads, next, placed),
    }
}
