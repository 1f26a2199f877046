//! From registers and memory to a call.
ghost use Rattle.std.specs.Prelude.{◌≡◌, IfOk, IsTrue, OnErr};
ghost use Rattle.codec_arguments.specs.Reading.{LacksMemory, Reads};
ghost use Rattle.call_codec.specs.Arguments.{AsksFor, args_of, is_copied, or_refused, read_of};

use crate::memory_calls::{mem_advise, mem_map, mem_protect, mem_sync, mem_unmap};
use abi_types::{Call, CallNumber, Errno, Regs};
use codec_arguments::ArgumentFault;
use codec_calls::{
    clock_res_get, clock_time_get, condvar_signal, fd_close, fd_create1, fd_create2, fd_datasync,
    fd_dup, fd_pread, fd_pwrite, fd_read, fd_replace, fd_seek, fd_stat_get, fd_stat_put, fd_sync,
    fd_write, lock_unlock, proc_exec, proc_exit, proc_fork, proc_raise, random_get, sock_recv,
    sock_send, sock_shutdown, thread_create, thread_exit, thread_yield,
};
use codec_files::{
    file_advise, file_allocate, file_create, file_link, file_open, file_readdir, file_readlink,
    file_rename, file_stat_fget, file_stat_fput, file_stat_get, file_stat_put, file_symlink,
    file_unlink,
};
use codec_poll::poll;
use guest_memory::GuestMemory;
use std::alloc::{AllocError, Global};

/// The call that the registers and the memory of a program encode as a thread stands at an ECALL, whose process has so many turns left. A
/// call that its arguments refuse is `Refused`, with its number and its error. Only mem_advise, mem_protect, mem_sync and mem_unmap are
/// never refused so: they are `Memory`, with what they answer.
#[tactic(auto, unfolding(crate::specs::Arguments::args_of))]
pub fn args(alloc: Global, regs: &Regs, memory: &GuestMemory, left: u64) -> Result<Call, AllocError>
    ensures ok { IfOk result (λ call. call ≡ args_of memory.now regs.now left) }
    ensures only { OnErr result (AsksFor is_copied regs.now) }
{
    let asked = regs.get(17);
    match CallNumber::of(asked) {
        Some(number) => read_or_refuse(alloc, regs, memory, left, number),
        None => Ok(Call::Unknown { number: asked }),
    }
}

// The call with this number, or its refusal.
fn read_or_refuse(
    alloc: Global,
    regs: &Regs,
    memory: &GuestMemory,
    left: u64,
    number: CallNumber,
) -> Result<Call, AllocError>
    ensures ok { IfOk result (λ call. call ≡ or_refused number (read_of memory.now regs.now left number)) }
    ensures only { OnErr result (IsTrue (is_copied number)) }
{
    match read(alloc, regs, memory, left, number) {
        Ok(call) => Ok(call),
        Err(ArgumentFault::Errno(errno)) => Ok(Call::Refused { number, errno }),
        Err(ArgumentFault::NoMemory) => Err(AllocError),
    }
}

// A reading for which the host needs no memory. Each call below takes one path by it, where a `?` makes two.
fn without_memory(reading: Result<Call, Errno>) -> Result<Call, ArgumentFault>
    ensures reads { Reads result reading }
    ensures never { ¬ LacksMemory result }
{
    Ok(reading?)
}

// The call with this number, of a process that has so many turns left. The host needs memory only for what is copied.
#[tactic(auto, unfolding(crate::specs::Arguments::read_of))]
fn read(
    alloc: Global,
    regs: &Regs,
    memory: &GuestMemory,
    left: u64,
    number: CallNumber,
) -> Result<Call, ArgumentFault>
    ensures reads { Reads result (read_of memory.now regs.now left number) }
    ensures only { LacksMemory result → IsTrue (is_copied number) }
{
    match number {
        CallNumber::ClockResGet => without_memory(clock_res_get(regs)),
        CallNumber::ClockTimeGet => without_memory(clock_time_get(regs)),
        CallNumber::CondvarSignal => without_memory(condvar_signal(regs, memory)),
        CallNumber::FdClose => Ok(fd_close(regs)),
        CallNumber::FdCreate1 => Err(ArgumentFault::Errno(fd_create1(regs))),
        CallNumber::FdCreate2 => without_memory(fd_create2(regs)),
        CallNumber::FdDatasync => Ok(fd_datasync(regs)),
        CallNumber::FdDup => Ok(fd_dup(regs)),
        CallNumber::FdPread => without_memory(fd_pread(regs, memory)),
        CallNumber::FdPwrite => fd_pwrite(alloc, regs, memory),
        CallNumber::FdRead => without_memory(fd_read(regs, memory)),
        CallNumber::FdReplace => Ok(fd_replace(regs)),
        CallNumber::FdSeek => without_memory(fd_seek(regs)),
        CallNumber::FdStatGet => without_memory(fd_stat_get(regs, memory)),
        CallNumber::FdStatPut => without_memory(fd_stat_put(regs, memory)),
        CallNumber::FdSync => Ok(fd_sync(regs)),
        CallNumber::FdWrite => fd_write(alloc, regs, memory),
        CallNumber::FileAdvise => without_memory(file_advise(regs)),
        CallNumber::FileAllocate => without_memory(file_allocate(regs)),
        CallNumber::FileCreate => file_create(alloc, regs, memory),
        CallNumber::FileLink => file_link(alloc, regs, memory),
        CallNumber::FileOpen => file_open(alloc, regs, memory),
        CallNumber::FileReaddir => without_memory(file_readdir(regs, memory)),
        CallNumber::FileReadlink => file_readlink(alloc, regs, memory),
        CallNumber::FileRename => file_rename(alloc, regs, memory),
        CallNumber::FileStatFget => without_memory(file_stat_fget(regs, memory)),
        CallNumber::FileStatFput => without_memory(file_stat_fput(regs, memory)),
        CallNumber::FileStatGet => file_stat_get(alloc, regs, memory),
        CallNumber::FileStatPut => file_stat_put(alloc, regs, memory),
        CallNumber::FileSymlink => file_symlink(alloc, regs, memory),
        CallNumber::FileUnlink => file_unlink(alloc, regs, memory),
        CallNumber::LockUnlock => without_memory(lock_unlock(regs, memory)),
        CallNumber::MemAdvise => Ok(mem_advise(regs, memory)),
        CallNumber::MemMap => without_memory(mem_map(regs, memory)),
        CallNumber::MemProtect => Ok(mem_protect(regs, memory)),
        CallNumber::MemSync => Ok(mem_sync(regs, memory)),
        CallNumber::MemUnmap => Ok(mem_unmap(regs)),
        CallNumber::Poll => poll(alloc, regs, memory),
        CallNumber::ProcExec => proc_exec(alloc, regs, memory),
        CallNumber::ProcExit => Ok(proc_exit(regs)),
        CallNumber::ProcFork => Ok(proc_fork(left)),
        CallNumber::ProcRaise => without_memory(proc_raise(regs)),
        CallNumber::RandomGet => without_memory(random_get(regs, memory)),
        CallNumber::SockRecv => without_memory(sock_recv(regs, memory)),
        CallNumber::SockSend => sock_send(alloc, regs, memory),
        CallNumber::SockShutdown => without_memory(sock_shutdown(regs)),
        CallNumber::ThreadCreate => without_memory(thread_create(regs, memory)),
        CallNumber::ThreadExit => without_memory(thread_exit(regs, memory)),
        CallNumber::ThreadYield => Ok(thread_yield()),
    }
}
