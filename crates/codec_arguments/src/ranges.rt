//! Arrays of iovecs, and the bytes of the ranges that they name, of which [`MOST_TRANSFERRED`] count.
ghost use Rattle.std.specs.Prelude.{◌≡◌, ◌≤◌, ◌+◌, IfErr, IfOk, OnOk, Err, Ok, length, option_map};
ghost use Rattle.std.specs.Result.{result_ok};
ghost use Rattle.codec_arguments.specs.Ranges.{gathered, part_of, range_in, ranges_at, room_in, written_in};
ghost use Rattle.codec_arguments.specs.Reading.{Reads};
ghost use Rattle.guest_memory.specs.Bytes.{bytes_at};

use crate::bytes::check_writable;
use crate::fault::ArgumentFault;
use abi_base::Errno;
use abi_layout::read_iovec;
use abi_structures::Iovec;
use guest_memory::{GuestMemory, MemFault};
use lists::Bytes;
use std::alloc::{AllocError, Global};

/// The most iovecs of a call.
pub const MOST_IOVECS: u64 = 1024;

/// The most bytes of a transfer.
pub const MOST_TRANSFERRED: u64 = 65536;

/// A range of no bytes, which stands where none is read yet.
pub const NO_RANGE: Iovec = Iovec {
    address: 0,
    length: 0,
};

// The range that an iovec names.
fn read_range(memory: &GuestMemory, at: u64) -> Result<Iovec, MemFault>
    ensures { result ≡ range_in (bytes_at memory.now at 16) }
{
    let mut iovec = [0u8; 16];
    memory.read_bytes(at, &mut iovec)?;
    Ok(read_iovec(&iovec))
}

/// Fills `ranges` with the ranges that an array of as many iovecs names. It takes no memory. The fault is that of the first byte
/// that can't be read; then the first of the ranges may have been filled.
pub fn fill_ranges(memory: &GuestMemory, at: u64, ranges: &mut [Iovec]) -> Result<(), MemFault>
    ensures ok { OnOk result (ranges_at memory.now at (length ranges.old) ≡ Ok ranges.new) }
    ensures fault { IfErr result (λ fault. ranges_at memory.now at (length ranges.old) ≡ Err fault) }
{
    let mut next = at;
    for range in ranges.iter_mut() {
        *range = read_range(memory, next)?;
        next = next.wrapping_add(16);
    }
    Ok(())
}

// The ranges that an array of iovecs names. `None` exactly where some of the array can't be read.
fn read_ranges(
    alloc: Global,
    memory: &GuestMemory,
    at: u64,
    count: u64,
) -> Result<Option<Vec<Iovec>>, AllocError>
    requires { count ≤ MOST_IOVECS }
    ensures { IfOk result (λ found. option_map (λ v. v.items) found ≡ result_ok (ranges_at memory.now at count)) }
{
    let mut ranges = vec![in alloc; NO_RANGE; count as usize]?;
    match fill_ranges(memory, at, &mut ranges) {
        Ok(()) => Ok(Some(ranges)),
        Err(_) => Ok(None),
    }
}

// The bytes of the ranges, one after another, of which `MOST_TRANSFERRED` count. `None` exactly where some can't be read.
fn gather(
    alloc: Global,
    memory: &GuestMemory,
    ranges: &[Iovec],
) -> Result<Option<Bytes>, AllocError>
    ensures { IfOk result (λ bytes. bytes ≡ result_ok (gathered memory.now MOST_TRANSFERRED ranges.now)) }
{
    let mut bytes = Bytes::new(alloc);
    let mut room = MOST_TRANSFERRED;
    for range in ranges {
        let length = range.length.min(room);
        let mut piece = vec![in alloc; 0u8; length as usize]?;
        if memory.read_bytes(range.address, &mut piece).is_err() {
            return Ok(None);
        }
        bytes.append(&piece)?;
        room -= length;
    }
    Ok(Some(bytes))
}

// How many bytes of the range that an iovec names count, where there is room for so many. FAULT exactly where the iovec can't
// be read, or one of these bytes may not be written.
fn read_part(memory: &GuestMemory, at: u64, room: u64) -> Result<u64, Errno>
    ensures part { result ≡ part_of memory.now room (range_in (bytes_at memory.now at 16)) }
    ensures less { IfOk result (λ length. length ≤ room) }
{
    match read_range(memory, at) {
        Ok(range) => {
            let length = range.length.min(room);
            check_writable(memory, range.address, length)?;
            Ok(length)
        }
        Err(_) => Err(Errno::Fault),
    }
}

/// The bytes that an array of iovecs names, of which `MOST_TRANSFERRED` count. FAULT exactly where some of the array or of
/// these bytes can't be read.
pub fn read_written(
    alloc: Global,
    memory: &GuestMemory,
    at: u64,
    count: u64,
) -> Result<Bytes, ArgumentFault>
    requires { count ≤ MOST_IOVECS }
    ensures { Reads result (written_in memory.now at count) }
{
    let Some(ranges) = read_ranges(alloc, memory, at, count)? else {
        return Err(ArgumentFault::Errno(Errno::Fault));
    };
    match gather(alloc, memory, ranges.as_slice())? {
        Some(bytes) => Ok(bytes),
        None => Err(ArgumentFault::Errno(Errno::Fault)),
    }
}

/// How many bytes the ranges have that an array of iovecs names, of which `MOST_TRANSFERRED` count. FAULT exactly where some
/// of the array can't be read, or some of these bytes may not be written. It takes no memory.
pub fn read_room(memory: &GuestMemory, at: u64, count: u64) -> Result<u64, Errno>
    ensures { result ≡ room_in memory.now at count }
{
    let mut room = MOST_TRANSFERRED;
    let mut next = at;
    for _ in 0..count {
        room -= read_part(memory, next, room)?;
        next = next.wrapping_add(16);
    }
    Ok(MOST_TRANSFERRED - room)
}
