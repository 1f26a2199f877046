//! A process as the machine has it: its memory, its threads' registers, and the turns that it has left; and the room for the
//! answer to a call.
ghost use Rattle.std.specs.Prelude.{◌≡◌, ◌<◌, IsFalse, IsSome, IfOk, OnErr, true};
ghost use Rattle.std.specs.FinMap as map;
ghost use Rattle.call_codec.specs.Arguments.{args_of, is_copied, AsksFor, Encodes};
ghost use Rattle.call_codec.specs.Given.{given_of, CanWait};
ghost use Rattle.call_codec.specs.Put.{HasFewRanges, MayMapFor};
ghost use Rattle.call_codec.specs.Start.{MayStart, canary};
ghost use Rattle.guest_memory.specs.Page.{Pages};
ghost use Rattle.guest_memory.specs.Written.{KeepsCode};
ghost use Rattle.guest_process.specs.Room.{without_room, without_thread, HasNumber, HasOther, HasRegisters, HasRoomFor, HasThreadFor, IsCreate, TakesMemory};
ghost use Rattle.kernel_model.specs.OwnChanges.{is_done};
ghost use Rattle.kernel_model.specs.Threads.{ends_caller, ends_others, first_result, makes_thread};
ghost use Rattle.rv_interp.specs.Cache.{AreTrue};
ghost use Rattle.run_model.specs.World.{called_guest, called_regs, first_guest, left_regs, registers_of, turned_guest, turn_end};

use abi_types::{Answer, Call, Errno, Pid, Regs, Tid, WakeIn};
use call_codec::{
    args, given, make_room, may_change_code, put_answer, put_woken, start_memory, thread_registers,
};
use clock_random::canary;
use guest_memory::{GuestMemory, Room};
use maps::NumMap;
use run_types::Launch;
use rv_interp::{Cache, TurnEnd, turn};
use std::alloc::{AllocError, Global};
use std::marker::Model;

/// The launched process.
pub const FIRST: Pid = Pid(0);

/// Its first thread.
pub const FIRST_THREAD: Tid = Tid(1);

/// A process's memory, the registers of its threads by their numbers, and the turns that it has left. Beside the memory stand
/// instructions of it that are decoded, which contracts don't see: each of them is true of the memory.
#[derive(Drop)]
pub struct Guest {
    pub memory: GuestMemory,
    pub regs: NumMap<Regs>,
    pub left: u64,
    pub(crate) code: Cache,
}

impl Model for Guest {
    ghost use Rattle.run_model.specs.World.{Guest};
    ghost use Rattle.guest_process.specs.Codes.{guest_code};
    ghost use Rattle.rv_interp.specs.Cache.{AreTrue};

    ghost Value = { Guest };

    ghost coded = { guest_code };

    ghost view = { λ g. record { memory = g.memory; regs = g.regs; left = g.left } };

    ghost invariant = { λ g. AreTrue g.memory g.code };
}

/// The thread that a call may make, which has its registers already, and what stood at its number before.
#[derive(Drop)]
pub struct NewThread {
    pub tid: Tid,
    pub before: Option<Regs>,
}

/// The room for the answer to a call: pages of the memory, and the registers of the thread that it may make.
#[derive(Drop)]
pub struct GuestRoom {
    pub pages: Room,
    pub thread: Option<NewThread>,
}

// Whether the answer is a success.
fn is_done(answer: &Answer) -> bool
    ensures { result ≡ is_done answer.now }
{
    match answer {
        Answer::Parked(_) => false,
        Answer::Reply(reply) => matches!(reply.errno, Errno::Success),
    }
}

/// Whether the call made a thread.
pub fn makes_thread(call: &Call, answer: &Answer) -> bool
    ensures { result ≡ makes_thread call.now answer.now }
{
    match call {
        Call::ThreadCreate { .. } => is_done(answer),
        _ => false,
    }
}

/// Whether the call ended the thread that made it.
pub fn ends_caller(call: &Call, answer: &Answer) -> bool
    ensures { result ≡ ends_caller call.now answer.now }
{
    match call {
        Call::ThreadExit { .. } => is_done(answer),
        _ => false,
    }
}

/// Whether the call let another program begin in the process of the thread that made it.
pub fn begins_program(call: &Call, answer: &Answer) -> bool
    ensures { result ≡ ends_others call.now answer.now }
{
    match call {
        Call::ProcExec { .. } => is_done(answer),
        _ => false,
    }
}

// The registers of the thread that the call may make, which has this number. `Err` changes nothing.
fn new_thread(
    regs: &mut NumMap<Regs>,
    call: &Call,
    next: Tid,
) -> Result<Option<NewThread>, AllocError>
    ensures thread { IfOk result (λ thread. HasThreadFor call.now thread regs.new) }
    ensures number { IfOk result (λ thread. HasNumber next thread) }
    ensures without { IfOk result (λ thread. without_thread thread regs.new ≡ regs.old) }
    ensures only { OnErr result (IsCreate call.now) }
    ensures err { OnErr result (regs.new ≡ regs.old) }
{
    match call {
        Call::ThreadCreate { attributes } => {
            let before = regs.insert(u64::from(next.0), thread_registers(attributes, next))?;
            Ok(Some(NewThread { tid: next, before }))
        }
        _ => Ok(None),
    }
}

// Takes the registers away of a thread that was not made.
fn undo(regs: &mut NumMap<Regs>, thread: Option<NewThread>)
    requires { HasRegisters thread regs.old }
    ensures { regs.new ≡ without_thread thread regs.old }
{
    let Some(NewThread { tid, before }) = thread else {
        return;
    };
    let tid = u64::from(tid.0);
    match before {
        None => {
            regs.remove(tid);
        }
        Some(before) => {
            regs.replace(tid, before);
        }
    }
}

// Takes a thread's registers away where it has ended.
fn leave(regs: &mut NumMap<Regs>, tid: Tid, ends: bool)
    ensures { regs.new ≡ left_regs ends tid regs.old }
{
    if ends {
        regs.remove(u64::from(tid.0));
    }
}

// Leaves registers to the threads that are there after the call: the one that it may have made, and not the one that it ended.
fn keep_threads(
    regs: &mut NumMap<Regs>,
    tid: Tid,
    call: &Call,
    answer: &Answer,
    thread: Option<NewThread>,
)
    requires thread { HasThreadFor call.now thread regs.old }
    requires number { makes_thread call.now answer.now ≡ true → HasNumber (first_result answer.now) thread }
    ensures { regs.new ≡ called_regs (without_thread thread regs.old) tid call.now answer.now }
{
    if makes_thread(call, answer) {
        return;
    }
    undo(regs, thread);
    leave(regs, tid, ends_caller(call, answer));
}

// Forgets each instruction, where a page that can be executed and not written may change.
fn forget_where(code: &mut Cache, may_change: bool)
    ensures { (m n : Pages) → AreTrue m code.old → (IsFalse may_change → KeepsCode m n) → AreTrue n code.new }
{
    if may_change {
        code.forget();
    }
}

impl Guest {
    /// Process 0 as a launch starts it: its first thread stands at the entry, and every turn is left.
    pub fn start(alloc: Global, launch: &Launch) -> Result<Guest, AllocError>
        requires { MayStart launch.now.elf launch.now.argdata (canary launch.now.constants.key 0 0) }
        ensures { IfOk result (λ guest. guest ≡ first_guest launch.now) }
    {
        let argdata = launch.argdata.as_slice();
        let canary = canary(&launch.constants.key, FIRST.0, 0);
        let (memory, first) = start_memory(
            alloc,
            &launch.elf,
            argdata,
            &canary,
            FIRST,
            FIRST_THREAD,
        )?;
        let mut regs = NumMap::new(alloc);
        regs.insert(u64::from(FIRST_THREAD.0), first)?;
        let code = Cache::new(alloc)?;
        Ok(Guest {
            memory,
            regs,
            left: launch.turns,
            code,
        })
    }

    /// A turn of one of its threads, which takes one of the turns that are left.
    pub fn turn(&mut self, tid: Tid) -> TurnEnd
        requires thread { IsSome (map.get self.old.regs tid) }
        requires left { 0 < self.old.left }
        ensures guest { self.new ≡ turned_guest self.old tid }
        ensures end { result ≡ turn_end self.old tid }
    {
        self.left -= 1;
        turn(
            self.regs.get_mut(u64::from(tid.0)),
            &mut self.memory,
            &mut self.code,
        )
    }

    /// The call that a thread encodes as it stands at an ECALL.
    pub fn call(&self, alloc: Global, tid: Tid) -> Result<Call, AllocError>
        requires thread { IsSome (map.get self.now.regs tid) }
        ensures ok { IfOk result (λ call. call ≡ args_of self.now.memory (registers_of self.now tid) self.now.left) }
        ensures only { OnErr result (AsksFor is_copied (registers_of self.now tid)) }
    {
        let regs = self.regs.get(u64::from(tid.0)).unwrap();
        args(alloc, regs, &self.memory, self.left)
    }

    /// Makes the room for the answer to a call before the call is made: for its mapping, and for the registers of the thread that it may
    /// make, whose number is `next`. Where memory runs out, nothing changes; only a mem_map that goes somewhere and a thread_create
    /// meet that.
    pub fn make_room(
        &mut self,
        alloc: Global,
        call: &Call,
        next: Tid,
    ) -> Result<GuestRoom, AllocError>
        requires { MayMapFor self.old.memory call.now }
        ensures room { IfOk result (λ room. HasRoomFor call.now room self.new) }
        ensures number { IfOk result (λ room. HasNumber next room.thread) }
        ensures without { IfOk result (λ room. without_room room self.new ≡ self.old) }
        ensures only { OnErr result (TakesMemory call.now) }
        ensures err { OnErr result (self.new ≡ self.old) }
    {
        let thread = new_thread(&mut self.regs, call, next)?;
        match make_room(alloc, &mut self.memory, call) {
            Ok(pages) => Ok(GuestRoom { pages, thread }),
            Err(failed) => {
                undo(&mut self.regs, thread);
                Err(failed)
            }
        }
    }

    /// Gives a thread the answer to the call that it encodes, for which room was made. A thread that the call made has its registers
    /// then, and one that it ended has none. It takes no memory.
    #[tactic(auto, using(maps::specs::Maps::number_laws))]
    pub fn answer(&mut self, tid: Tid, call: &Call, answer: &Answer, room: GuestRoom)
        requires thread { IsSome (map.get (without_room room self.old).regs tid) }
        requires encoded { Encodes (without_room room self.old).memory (registers_of (without_room room self.old) tid) call.now }
        requires room { HasRoomFor call.now room self.old }
        requires other { HasOther tid room.thread }
        requires number { makes_thread call.now answer.now ≡ true → HasNumber (first_result answer.now) room.thread }
        ensures { self.new ≡ called_guest (without_room room self.old) tid call.now answer.now }
    {
        let GuestRoom { pages, thread } = room;
        let regs = self.regs.get_mut(u64::from(tid.0));
        let may_change = may_change_code(regs, &self.memory, call, answer);
        forget_where(&mut self.code, may_change);
        put_answer(regs, &mut self.memory, pages, call, answer);
        keep_threads(&mut self.regs, tid, call, answer, thread);
    }

    /// What a thread that waits in a call is given where it goes on.
    pub fn given(&self, tid: Tid, call: &Call) -> WakeIn
        requires thread { IsSome (map.get self.now.regs tid) }
        ensures { result ≡ given_of self.now.memory (registers_of self.now tid) call.now }
    {
        let regs = self.regs.get(u64::from(tid.0)).unwrap();
        given(regs, &self.memory, call)
    }

    /// Gives a thread that waited in a call the answer to it. It takes no memory, and no page changes that can be executed and not
    /// written, so that each instruction that was decoded stays.
    #[tactic(auto, using(maps::specs::Maps::number_laws))]
    pub fn answer_woken(&mut self, tid: Tid, call: &Call, answer: &Answer)
        requires thread { IsSome (map.get self.old.regs tid) }
        requires waits { CanWait call.now }
        requires few { HasFewRanges (registers_of self.old tid) call.now }
        ensures { self.new ≡ called_guest self.old tid call.now answer.now }
    {
        let regs = self.regs.get_mut(u64::from(tid.0));
        put_woken(regs, &mut self.memory, call, answer);
    }
}
