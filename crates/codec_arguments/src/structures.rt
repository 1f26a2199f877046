//! Structures in a guest's memory.
ghost use Rattle.std.specs.Prelude.{◌≡◌};
ghost use Rattle.codec_arguments.specs.Structures.{fdstat_at, filestat_at, recv_in_at, send_in_at, threadattr_at};

use crate::bytes::fill;
use abi_base::Errno;
use abi_structures::{FdStat, FileStat, RecvIn, SendIn, ThreadAttr};
use guest_memory::GuestMemory;

/// The descriptor's state at an address. FAULT exactly where it can't be read.
pub fn read_fdstat(memory: &GuestMemory, at: u64) -> Result<FdStat, Errno>
    ensures { result ≡ fdstat_at memory.now at }
{
    let mut bytes = [0; 24];
    fill(memory, at, &mut bytes)?;
    Ok(abi_layout::read_fdstat(&bytes))
}

/// The file's state at an address. FAULT exactly where it can't be read.
pub fn read_filestat(memory: &GuestMemory, at: u64) -> Result<FileStat, Errno>
    ensures { result ≡ filestat_at memory.now at }
{
    let mut bytes = [0; 56];
    fill(memory, at, &mut bytes)?;
    Ok(abi_layout::read_filestat(&bytes))
}

/// How a thread begins, from an address on. FAULT exactly where it can't be read.
pub fn read_threadattr(memory: &GuestMemory, at: u64) -> Result<ThreadAttr, Errno>
    ensures { result ≡ threadattr_at memory.now at }
{
    let mut bytes = [0; 32];
    fill(memory, at, &mut bytes)?;
    Ok(abi_layout::read_threadattr(&bytes))
}

/// Where a message that is received goes, from an address on. FAULT exactly where it can't be read.
pub fn read_recv_in(memory: &GuestMemory, at: u64) -> Result<RecvIn, Errno>
    ensures { result ≡ recv_in_at memory.now at }
{
    let mut bytes = [0; 40];
    fill(memory, at, &mut bytes)?;
    Ok(abi_layout::read_recv_in(&bytes))
}

/// What is sent, from an address on. FAULT exactly where it can't be read.
pub fn read_send_in(memory: &GuestMemory, at: u64) -> Result<SendIn, Errno>
    ensures { result ≡ send_in_at memory.now at }
{
    let mut bytes = [0; 40];
    fill(memory, at, &mut bytes)?;
    Ok(abi_layout::read_send_in(&bytes))
}
