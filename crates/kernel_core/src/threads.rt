//! The calls that make threads and end them.
ghost use Rattle.std.specs.Prelude.{◌≡◌, true};
ghost use Rattle.std.specs.FinMap as map;
ghost use Rattle.abi_types.specs.declared.reply.Answer.TheVariants as answer;
ghost use Rattle.kernel_model.specs.Done.{IsAnswered, IsDone};
ghost use Rattle.kernel_core.specs.Threads.{is_last_in, IsReleasedBy};
ghost use Rattle.kernel_model.specs.Families.ProcessCalls.{left_in, left_updates, made_in};
ghost use Rattle.kernel_model.specs.Release.{lives, release};
ghost use Rattle.kernel_model.specs.State.{put_all};
ghost use Rattle.kernel_model.specs.Valid.{IsValid};

use crate::kernel::Kernel;
use abi_types::{Answer, Errno, Pid, Reply, Status, Tid, Who, WordWrite, WordWrites};
use guest_locks::Told;
use kernel_invariant::end_entry;
use kernel_parts::touch_told;
use right_rules::{refused, success};
use std::alloc::AllocError;

impl Kernel {
    // Makes a thread of the caller's process. `Err` changes nothing.
    pub(crate) fn thread_create(&mut self, who: &Who) -> Result<Answer, AllocError>
        requires there { lives (map.get self.old.statuses who.now.pid) ≡ true }
        ensures { IsDone true (made_in who.now.pid who.now.tid (map.get self.old.processes who.now.pid))
            self.old self.new result }
    {
        let own = self.processes.get_mut(u64::from(who.pid.0));
        own.make_thread(&mut self.waits, who.pid, who.tid)
    }

    // Whether the process has no thread but this one.
    fn is_last_thread(&self, pid: Pid, tid: Tid) -> bool
        ensures { result ≡ is_last_in tid (map.get self.now.processes pid) }
    {
        match self.processes.get(u64::from(pid.0)) {
            Some(own) => own.is_last_thread(tid),
            None => true,
        }
    }

    // Ends a thread, and with the last one its process, which exits with 0.
    fn end_thread(&mut self, pid: Pid, tid: Tid)
        requires { lives (map.get self.old.statuses pid) ≡ true }
        ensures { self.new ≡ release (put_all (left_updates pid tid (map.get self.old.processes pid)) self.old) }
    {
        if self.is_last_thread(pid, tid) {
            self.end_process(pid, Status::Exit(0));
        } else {
            let own = self.processes.get_mut(u64::from(pid.0));
            own.end_thread(tid);
            end_entry(&mut self.waits, pid, tid.0);
        }
    }

    // Lets go of the lock at this address, whose word is this, as far as the thread may.
    fn release_lock(&mut self, who: &Who, lock: u64, word: u32) -> Option<u32>
        requires there { lives (map.get self.old.statuses who.now.pid) ≡ true }
        ensures { IsReleasedBy who.now.pid who.now.tid lock word self.old result self.new }
    {
        let mut told = Told::new();
        let own = self.processes.get_mut(u64::from(who.pid.0));
        let left = own.release_lock(who.tid, lock, word, &mut told);
        touch_told(&mut self.waits, who.pid, &told);
        left
    }

    // Lets go of the lock at this address, whose word is this, and ends the caller. Where it may not let go it goes on.
    pub(crate) fn thread_exit(&mut self, who: &Who, lock: u64, word: u32) -> Reply
        requires there { lives (map.get self.old.statuses who.now.pid) ≡ true }
        requires valid { IsValid self.old }
        ensures { IsAnswered (left_in who.now.pid who.now.tid lock word (map.get self.old.processes who.now.pid))
            self.old self.new (answer.Reply result) }
    {
        let Some(left) = self.release_lock(who, lock, word) else {
            return refused(Errno::Perm);
        };
        self.end_thread(who.pid, who.tid);
        let write = WordWrite {
            address: lock,
            word: left,
        };
        Reply {
            writes: WordWrites::One(write),
            ..success(0, 0)
        }
    }
}
