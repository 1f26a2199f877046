//! What a process's threads are told of beforehand: the number of the next one, and until when one waits.
ghost use Rattle.std.specs.Prelude.{◌≡◌, ◌^◌, ◌<◌};
ghost use Rattle.kernel_model.specs.State.{thread_of};
ghost use Rattle.kernel_model.specs.Threads.{next_number};
ghost use Rattle.readiness_laws.specs.Watched.{until_in};

use crate::kernel::Kernel;
use abi_types::{Pid, Thread, Tid};

impl Kernel {
    /// The number that the next thread of a process gets.
    pub fn next_thread(&self, pid: Pid) -> Tid
        requires few { next_number self.now pid < 2 ^ 32 }
        ensures { result ≡ next_number self.now pid }
    {
        match self.processes.get(u64::from(pid.0)) {
            Some(own) => own.next_thread(),
            None => Tid(1),
        }
    }

    /// Until when a thread waits, in nanoseconds since the run began. `None` where there is no such thread, where it doesn't wait, and where
    /// there is no such moment.
    pub fn until(&self, pid: Pid, tid: Tid) -> Option<u64>
        ensures { result ≡ until_in (thread_of self.now pid tid) }
    {
        match self.thread(pid, tid)? {
            Thread::Waits { until, .. } => *until,
            Thread::Runnable => None,
        }
    }
}
