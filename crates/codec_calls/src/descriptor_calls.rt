//! The calls about descriptors.
ghost use Rattle.std.specs.Prelude.{◌≡◌};
ghost use Rattle.codec_arguments.specs.Reading.{Reads};
ghost use Rattle.codec_calls.specs.DescriptorCalls.{asks_unknown, fd_close_of, fd_create1_of, fd_create2_of, fd_datasync_of, fd_dup_of};
ghost use Rattle.codec_calls.specs.DescriptorCalls.{fd_pread_of, fd_pwrite_of, fd_read_of, fd_replace_of, fd_seek_of, fd_stat_get_of};
ghost use Rattle.codec_calls.specs.DescriptorCalls.{fd_stat_put_of, fd_sync_of, fd_write_of, has_many, is_beyond, is_file_type, is_pair, unmade};

use crate::flags::has_unknown;
use abi_types::flags::{
    FDFLAG_APPEND, FDFLAG_DSYNC, FDFLAG_NONBLOCK, FDFLAG_RSYNC, FDFLAG_SYNC,
    FILETYPE_CHARACTER_DEVICE, FILETYPE_DIRECTORY, FILETYPE_FIFO, FILETYPE_PROCESS,
    FILETYPE_REGULAR_FILE, FILETYPE_SHARED_MEMORY, FILETYPE_SOCKET_DGRAM, FILETYPE_SOCKET_STREAM,
    FILETYPE_SYMBOLIC_LINK, WHENCE_CUR, WHENCE_SET,
};
use abi_types::{Call, Errno, FdStat, OPENED_RIGHTS, PROCESS_RIGHTS, Regs, STREAM_RIGHTS};
use codec_arguments::{
    ArgumentFault, MOST_IOVECS, check_writable, low, read_fdstat, read_room, read_written,
    refuse_when,
};
use guest_memory::GuestMemory;
use std::alloc::Global;

/// The flags of an open that there are.
pub const KNOWN_FLAGS: u32 = (FDFLAG_APPEND
    | FDFLAG_DSYNC
    | FDFLAG_NONBLOCK
    | FDFLAG_RSYNC
    | FDFLAG_SYNC) as u32;

/// The bits of all rights: 0 to 10, 12 to 28, 30, 32 and 39.
pub const KNOWN_RIGHTS: u64 = OPENED_RIGHTS.0 | STREAM_RIGHTS.0 | PROCESS_RIGHTS.0;

/// fd_close: a descriptor.
pub fn fd_close(regs: &Regs) -> Call
    ensures { result ≡ fd_close_of regs.now }
{
    Call::FdClose {
        fd: low(regs.get(10)),
    }
}

/// fd_datasync: a descriptor.
pub fn fd_datasync(regs: &Regs) -> Call
    ensures { result ≡ fd_datasync_of regs.now }
{
    Call::FdDatasync {
        fd: low(regs.get(10)),
    }
}

/// fd_dup: a descriptor.
pub fn fd_dup(regs: &Regs) -> Call
    ensures { result ≡ fd_dup_of regs.now }
{
    Call::FdDup {
        fd: low(regs.get(10)),
    }
}

/// fd_sync: a descriptor.
pub fn fd_sync(regs: &Regs) -> Call
    ensures { result ≡ fd_sync_of regs.now }
{
    Call::FdSync {
        fd: low(regs.get(10)),
    }
}

/// fd_replace: the descriptor that is given on, and the one whose place it takes.
pub fn fd_replace(regs: &Regs) -> Call
    ensures { result ≡ fd_replace_of regs.now }
{
    Call::FdReplace {
        from: low(regs.get(10)),
        to: low(regs.get(11)),
    }
}

// Whether the number is that of a type of file.
fn is_file_type(kind: u32) -> bool
    ensures { result ≡ is_file_type kind }
{
    kind == u32::from(FILETYPE_CHARACTER_DEVICE)
        || kind == u32::from(FILETYPE_DIRECTORY)
        || kind == u32::from(FILETYPE_FIFO)
        || kind == u32::from(FILETYPE_PROCESS)
        || kind == u32::from(FILETYPE_REGULAR_FILE)
        || kind == u32::from(FILETYPE_SHARED_MEMORY)
        || kind == u32::from(FILETYPE_SOCKET_DGRAM)
        || kind == u32::from(FILETYPE_SOCKET_STREAM)
        || kind == u32::from(FILETYPE_SYMBOLIC_LINK)
}

// The error for a type of which a call makes nothing.
fn unmade(kind: u32) -> Errno
    ensures { result ≡ unmade kind }
{
    if is_file_type(kind) {
        Errno::Notsup
    } else {
        Errno::Inval
    }
}

/// fd_create1: a type of file. It is always refused: NOTSUP for a type of file, and else INVAL.
pub fn fd_create1(regs: &Regs) -> Errno
    ensures { result ≡ fd_create1_of regs.now }
{
    unmade(low(regs.get(10)))
}

// Whether opens of a type are made in pairs.
fn is_pair(kind: u32) -> bool
    ensures { result ≡ is_pair kind }
{
    kind == u32::from(FILETYPE_FIFO) || kind == u32::from(FILETYPE_SOCKET_STREAM)
}

/// fd_create2: a type of file. NOTSUP for one but FIFO and SOCKET_STREAM, and INVAL for no type of file.
pub fn fd_create2(regs: &Regs) -> Result<Call, Errno>
    ensures { result ≡ fd_create2_of regs.now }
{
    let kind = low(regs.get(10));
    refuse_when(!is_pair(kind), unmade(kind))?;
    Ok(Call::FdCreate2 { kind })
}

// Whether there are over 1024 iovecs.
fn has_many(count: u64) -> bool
    ensures { result ≡ has_many count }
{
    count > MOST_IOVECS
}

// Whether no file has an offset.
fn is_beyond(offset: u64) -> bool
    ensures { result ≡ is_beyond offset }
{
    offset >= 1 << 63
}

/// fd_pread: a descriptor, the address of an iovec array, its count and an offset. INVAL for over 1024 iovecs or an offset of
/// 2^63 or more; FAULT for an array that can't be read or a place of the room that can't be written.
pub fn fd_pread(regs: &Regs, memory: &GuestMemory) -> Result<Call, Errno>
    ensures { result ≡ fd_pread_of memory.now regs.now }
{
    let count = regs.get(12);
    let offset = regs.get(13);
    refuse_when(has_many(count), Errno::Inval)?;
    refuse_when(is_beyond(offset), Errno::Inval)?;
    let length = read_room(memory, regs.get(11), count)?;
    Ok(Call::FdPread {
        fd: low(regs.get(10)),
        length,
        offset,
    })
}

/// fd_pwrite: a descriptor, the address of an iovec array, its count and an offset. INVAL for over 1024 iovecs or an offset of
/// 2^63 or more; FAULT for an array or bytes that can't be read.
pub fn fd_pwrite(alloc: Global, regs: &Regs, memory: &GuestMemory) -> Result<Call, ArgumentFault>
    ensures { Reads result (fd_pwrite_of memory.now regs.now) }
{
    let count = regs.get(12);
    let offset = regs.get(13);
    refuse_when(has_many(count), Errno::Inval)?;
    refuse_when(is_beyond(offset), Errno::Inval)?;
    let bytes = read_written(alloc, memory, regs.get(11), count)?;
    Ok(Call::FdPwrite {
        fd: low(regs.get(10)),
        bytes,
        offset,
    })
}

/// fd_read: a descriptor, the address of an iovec array and its count. INVAL for over 1024 iovecs; FAULT for an array that
/// can't be read or a place of the room that can't be written.
pub fn fd_read(regs: &Regs, memory: &GuestMemory) -> Result<Call, Errno>
    ensures { result ≡ fd_read_of memory.now regs.now }
{
    let count = regs.get(12);
    refuse_when(has_many(count), Errno::Inval)?;
    let length = read_room(memory, regs.get(11), count)?;
    Ok(Call::FdRead {
        fd: low(regs.get(10)),
        length,
    })
}

/// fd_write: a descriptor, the address of an iovec array and its count. INVAL for over 1024 iovecs; FAULT for an array or bytes
/// that can't be read.
pub fn fd_write(alloc: Global, regs: &Regs, memory: &GuestMemory) -> Result<Call, ArgumentFault>
    ensures { Reads result (fd_write_of memory.now regs.now) }
{
    let count = regs.get(12);
    refuse_when(has_many(count), Errno::Inval)?;
    let bytes = read_written(alloc, memory, regs.get(11), count)?;
    Ok(Call::FdWrite {
        fd: low(regs.get(10)),
        bytes,
    })
}

/// fd_seek: a descriptor, an offset, and from where on it counts. INVAL for a place but 1 to 3, and for an offset of 2^63 or
/// more that counts from the start.
pub fn fd_seek(regs: &Regs) -> Result<Call, Errno>
    ensures { result ≡ fd_seek_of regs.now }
{
    let offset = regs.get(11);
    let whence = low(regs.get(12));
    refuse_when(
        !(WHENCE_CUR <= whence && whence <= WHENCE_SET),
        Errno::Inval,
    )?;
    refuse_when(whence == WHENCE_SET && is_beyond(offset), Errno::Inval)?;
    Ok(Call::FdSeek {
        fd: low(regs.get(10)),
        offset,
        whence,
    })
}

/// fd_stat_get: a descriptor, and the address for its state. FAULT where its 24 bytes can't be written.
pub fn fd_stat_get(regs: &Regs, memory: &GuestMemory) -> Result<Call, Errno>
    ensures { result ≡ fd_stat_get_of memory.now regs.now }
{
    check_writable(memory, regs.get(11), 24)?;
    Ok(Call::FdStatGet {
        fd: low(regs.get(10)),
    })
}

/// Whether a state asks for a flag or a right that there isn't.
pub fn asks_unknown(stat: &FdStat) -> bool
    ensures { result ≡ asks_unknown stat.now }
{
    has_unknown(u32::from(stat.flags), KNOWN_FLAGS)
        || stat.base.0 & KNOWN_RIGHTS != stat.base.0
        || stat.inheriting.0 & KNOWN_RIGHTS != stat.inheriting.0
}

/// fd_stat_put: a descriptor, the address of a state, and what of it is set. INVAL for a setting but 1 to 3; FAULT where the
/// state can't be read; INVAL for a flag or a right in it that there isn't.
pub fn fd_stat_put(regs: &Regs, memory: &GuestMemory) -> Result<Call, Errno>
    ensures { result ≡ fd_stat_put_of memory.now regs.now }
{
    let flags = low(regs.get(12));
    refuse_when(!(1 <= flags && flags <= 3), Errno::Inval)?;
    let stat = read_fdstat(memory, regs.get(11))?;
    refuse_when(asks_unknown(&stat), Errno::Inval)?;
    Ok(Call::FdStatPut {
        fd: low(regs.get(10)),
        stat,
        flags,
    })
}
