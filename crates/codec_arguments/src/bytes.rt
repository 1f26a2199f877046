//! Bytes, paths, numbers of descriptors and words in a guest's memory, and ranges that may be written.
ghost use Rattle.std.specs.Prelude.{◌≡◌, length, IfErr, IfOk, OnOk, Ok, Err};
ghost use Rattle.abi_layout.specs.Layout.{number_from};
ghost use Rattle.codec_arguments.specs.Bytes.{bytes_in, descriptors_in, number_in, path_in, unread_path, word_at, writable};
ghost use Rattle.codec_arguments.specs.Reading.{Reads};

use crate::fault::ArgumentFault;
use abi_base::Errno;
use abi_types::FdList;
use byteorder::{ByteOrder, LittleEndian};
use guest_memory::{Access, GuestMemory};
use lists::Bytes;
use std::alloc::{AllocError, Global};

/// The most bytes of a path that are read.
pub const MOST_OF_PATH: u64 = 1024;

/// Fills `out` with the bytes from an address on. FAULT exactly where one of them can't be read.
pub fn fill(memory: &GuestMemory, at: u64, out: &mut [u8]) -> Result<(), Errno>
    ensures ok { OnOk result (bytes_in memory.now at (length out.old) ≡ Ok out.new) }
    ensures err { IfErr result (λ errno. bytes_in memory.now at (length out.old) ≡ Err errno) }
{
    match memory.read_bytes(at, out) {
        Ok(()) => Ok(()),
        Err(_) => Err(Errno::Fault),
    }
}

/// The `count` bytes from an address on. FAULT exactly where one of them can't be read.
pub fn read_bytes(
    alloc: Global,
    memory: &GuestMemory,
    at: u64,
    count: u64,
) -> Result<Bytes, ArgumentFault>
    ensures { Reads result (bytes_in memory.now at count) }
{
    let mut bytes = vec![in alloc; 0u8; count as usize]?;
    fill(memory, at, &mut bytes)?;
    Ok(Bytes::from_vec(bytes))
}

// What stands for a path that is too long to be read.
#[tactic(auto, unfolding(crate::specs::Bytes::unread_path))]
fn unread_path(alloc: Global) -> Result<Bytes, AllocError>
    ensures { IfOk result (λ path. path ≡ unread_path) }
{
    let zeros = vec![in alloc; 0u8; MOST_OF_PATH as usize + 1]?;
    Ok(Bytes::from_vec(zeros))
}

/// A path of `count` bytes: 1025 zeros for one of over 1024 bytes, which isn't read. FAULT exactly where it is read and can't
/// be.
pub fn read_path(
    alloc: Global,
    memory: &GuestMemory,
    at: u64,
    count: u64,
) -> Result<Bytes, ArgumentFault>
    ensures { Reads result (path_in memory.now at count) }
{
    if count <= MOST_OF_PATH {
        read_bytes(alloc, memory, at, count)
    } else {
        Ok(unread_path(alloc)?)
    }
}

// The number in four bytes, the lowest first.
#[tactic(auto, unfolding(abi_layout::specs::Layout::number_from))]
fn number_of(bytes: &[u8; 4]) -> u32
    ensures { result ≡ number_from 0 4 bytes.now }
{
    LittleEndian::read_u32(bytes)
}

// The number of 32 bits at an address. FAULT exactly where it can't be read.
fn read_number(memory: &GuestMemory, at: u64) -> Result<u32, Errno>
    ensures { result ≡ number_in memory.now at }
{
    let mut bytes = [0u8; 4];
    fill(memory, at, &mut bytes)?;
    Ok(number_of(&bytes))
}

/// The `count` numbers of descriptors from an address on. FAULT exactly where one of them can't be read.
pub fn read_descriptors(
    alloc: Global,
    memory: &GuestMemory,
    at: u64,
    count: u64,
) -> Result<FdList, ArgumentFault>
    ensures { Reads result (descriptors_in memory.now at count) }
{
    let mut fds = FdList::new(alloc);
    let mut next = at;
    for _ in 0..count {
        match read_number(memory, next) {
            Ok(fd) => fds.push(fd)?,
            Err(errno) => return Err(ArgumentFault::Errno(errno)),
        }
        next = next.wrapping_add(4);
    }
    Ok(fds)
}

/// Whether each of the `count` bytes from an address on may be written; else FAULT.
pub fn check_writable(memory: &GuestMemory, at: u64, count: u64) -> Result<(), Errno>
    ensures { result ≡ writable memory.now at count }
{
    match memory.check(Access::Write, at, count as usize) {
        Ok(()) => Ok(()),
        Err(_) => Err(Errno::Fault),
    }
}

/// The word of the lock or the condition variable at an address. FAULT exactly where it may not be read and written.
pub fn read_word(memory: &GuestMemory, at: u64) -> Result<u32, Errno>
    ensures { result ≡ word_at memory.now at }
{
    check_writable(memory, at, 4)?;
    read_number(memory, at)
}
