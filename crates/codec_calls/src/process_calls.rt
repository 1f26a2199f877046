//! The calls about processes, and random_get.
ghost use Rattle.std.specs.Prelude.{◌≡◌};
ghost use Rattle.codec_arguments.specs.Reading.{Reads};
ghost use Rattle.codec_calls.specs.ProcessCalls.{is_signal, is_stop, proc_exec_of, proc_exit_of, proc_fork_of, proc_raise_of, random_get_of};

use abi_base::{MOST_ARGDATA, MOST_DESCRIPTORS};
use abi_types::{Call, Errno, Regs};
use codec_arguments::{
    ArgumentFault, check_writable, low, read_bytes, read_descriptors, refuse_when,
};
use guest_memory::GuestMemory;
use std::alloc::Global;

/// The most bytes of argument data.
pub const MOST_ARGUMENT_DATA: u64 = MOST_ARGDATA as u64;

/// The most descriptors that a program is given.
pub const MOST_EXEC_DESCRIPTORS: u64 = MOST_DESCRIPTORS as u64;

/// The most random bytes of a call.
pub const MOST_RANDOM: u64 = 65536;

/// proc_exec: a descriptor, the address and the length of argument data, and the address and the count of descriptors. 2BIG
/// for over 65,536 bytes, INVAL for over 1024 descriptors, FAULT for bytes or descriptors that can't be read.
pub fn proc_exec(alloc: Global, regs: &Regs, memory: &GuestMemory) -> Result<Call, ArgumentFault>
    ensures { Reads result (proc_exec_of memory.now regs.now) }
{
    let length = regs.get(12);
    let count = regs.get(14);
    refuse_when(length > MOST_ARGUMENT_DATA, Errno::TooBig)?;
    refuse_when(count > MOST_EXEC_DESCRIPTORS, Errno::Inval)?;
    let bytes = read_bytes(alloc, memory, regs.get(11), length)?;
    let fds = read_descriptors(alloc, memory, regs.get(13), count)?;
    Ok(Call::ProcExec {
        fd: low(regs.get(10)),
        bytes,
        fds,
    })
}

/// proc_exit: a code.
pub fn proc_exit(regs: &Regs) -> Call
    ensures { result ≡ proc_exit_of regs.now }
{
    Call::ProcExit {
        code: low(regs.get(10)),
    }
}

/// proc_fork, by a process with so many turns left.
pub fn proc_fork(left: u64) -> Call
    ensures { result ≡ proc_fork_of left }
{
    Call::ProcFork { left }
}

// Whether there is a signal of this number.
fn is_signal(signal: u32) -> bool
    ensures { result ≡ is_signal signal }
{
    1 <= signal && signal <= 26
}

// Whether a signal stops a process.
fn is_stop(signal: u32) -> bool
    ensures { result ≡ is_stop signal }
{
    matches!(signal, 14 | 18 | 19 | 20)
}

/// proc_raise: a signal. INVAL for no signal's number, NOTSUP for STOP, TSTP, TTIN and TTOU.
pub fn proc_raise(regs: &Regs) -> Result<Call, Errno>
    ensures { result ≡ proc_raise_of regs.now }
{
    let signal = low(regs.get(10));
    refuse_when(!is_signal(signal), Errno::Inval)?;
    refuse_when(is_stop(signal), Errno::Notsup)?;
    Ok(Call::ProcRaise { signal })
}

/// random_get: the address and the length of room for random bytes. INVAL for over 65,536 bytes, FAULT where one can't be
/// written.
pub fn random_get(regs: &Regs, memory: &GuestMemory) -> Result<Call, Errno>
    ensures { result ≡ random_get_of memory.now regs.now }
{
    let length = regs.get(11);
    refuse_when(length > MOST_RANDOM, Errno::Inval)?;
    check_writable(memory, regs.get(10), length)?;
    Ok(Call::RandomGet { length })
}
