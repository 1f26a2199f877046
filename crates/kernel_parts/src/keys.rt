//! The numbers by which threads of all processes are told apart: that of the process, and below it that of the thread.
ghost use Rattle.std.specs.Prelude.{◌≡◌, ◌/◌, ◌%◌, ◌^◌};
ghost use Rattle.kernel_parts.specs.Keys.{end_key, key};

use abi_types::{Pid, Tid};

// How many numbers the threads of a process may have.
const THREADS: u64 = 1 << 32;

/// The number of a thread among those of all processes.
pub fn thread_key(pid: Pid, tid: Tid) -> u64
    ensures { result ≡ key pid tid }
{
    u64::from(pid.0) * THREADS + u64::from(tid.0)
}

/// The number behind those of a process's threads. No thread has the number that is left out of the last process.
pub fn end_key(pid: Pid) -> u64
    ensures { result ≡ end_key pid }
{
    (u64::from(pid.0) * THREADS).saturating_add(THREADS)
}

/// The thread that has this number.
pub fn thread_of_key(number: u64) -> (Pid, Tid)
    ensures process { result.0 ≡ number / 2 ^ 32 }
    ensures thread { result.1 ≡ number % 2 ^ 32 }
{
    (
        Pid((number / THREADS) as u32),
        Tid((number % THREADS) as u32),
    )
}
