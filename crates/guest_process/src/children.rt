//! The child that a process gets by its proc_fork: its guest, which is made before the call, and what the answer leaves of the parent's.
ghost use Rattle.std.specs.Prelude.{◌≡◌, IfOk, ℕ, is_some, IsSome};
ghost use Rattle.std.specs.FinMap as map;
ghost use Rattle.call_codec.specs.Arguments.{Encodes};
ghost use Rattle.guest_process.specs.Children.{told_in, IsFork};
ghost use Rattle.run_model.specs.World.{answered_guest, child_guest, registers_of, share};

use crate::guest::{Guest, GuestRoom};
use abi_types::{Answer, Call, Payload, Tid};
use call_codec::child_registers;
use guest_memory::Room;
use maps::NumMap;
use rv_interp::Cache;
use std::alloc::{AllocError, Global};

// How many of its turns a process gives to a child: a sixteenth of those that it has left.
fn share(left: u64) -> u64
    ensures { result ≡ share left }
{
    left / 16
}

// Whether the answer to a proc_fork tells of a child.
fn makes_child(answer: &Answer) -> bool
    ensures { result ≡ is_some (told_in answer.now) }
{
    match answer {
        Answer::Parked(_) => false,
        Answer::Reply(reply) => matches!(reply.payload, Payload::Child(_)),
    }
}

impl Guest {
    /// The guest of the child that the process has where this thread forks it now: with its memory, that thread alone, and a sixteenth
    /// of the turns that are left. `Err` where memory ran out. The process's guest stays as it is.
    pub fn fork(&mut self, alloc: Global, tid: Tid) -> Result<Guest, AllocError>
        requires thread { IsSome (map.get self.old.regs tid) }
        ensures child { IfOk result (λ child. child ≡ child_guest self.old tid) }
        ensures same { self.new ≡ self.old }
    {
        let own = self.regs.get(u64::from(tid.0)).unwrap();
        let mut regs = NumMap::new(alloc);
        regs.insert(u64::from(tid.0), child_registers(own, tid))?;
        let code = Cache::new(alloc)?;
        let memory = self.memory.fork(alloc)?;
        Ok(Guest {
            memory,
            regs,
            left: share(self.left),
            code,
        })
    }

    /// Gives a thread the answer to its proc_fork. Where that made a child, the turns that the child has go from the process's. It takes
    /// no memory.
    pub fn answer_fork(&mut self, alloc: Global, tid: Tid, call: &Call, answer: &Answer)
        requires thread { IsSome (map.get self.old.regs tid) }
        requires encoded { Encodes self.old.memory (registers_of self.old tid) call.now }
        requires fork { IsFork call.now }
        ensures { (p : ℕ) → self.new ≡ answered_guest p self.old tid call.now answer.now }
    {
        let room = GuestRoom {
            pages: Room::none(alloc),
            thread: None,
        };
        self.answer(tid, call, answer, room);
        if makes_child(answer) {
            self.left -= share(self.left);
        }
    }
}
