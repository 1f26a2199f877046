//! The calls about what files are and have. A path is an address and a length.
ghost use Rattle.std.specs.Prelude.{◌≡◌, ◌+◌, ◌^◌, nat_le};
ghost use Rattle.codec_arguments.specs.Reading.{Reads};
ghost use Rattle.codec_files.specs.ByNode.{file_advise_of, file_allocate_of, file_readdir_of, file_stat_fget_of, file_stat_fput_of};
ghost use Rattle.codec_files.specs.ByNode.{file_stat_get_of, file_stat_put_of, sets_wrongly};

use crate::by_path::{looks_unknown, lookup_of};
use abi_types::flags::{
    FILESTAT_ATIM, FILESTAT_ATIM_NOW, FILESTAT_MTIM, FILESTAT_MTIM_NOW, FILESTAT_SIZE,
    FILESTAT_TIMES,
};
use abi_types::{Call, Errno, Regs};
use codec_arguments::{
    ArgumentFault, MOST_TRANSFERRED, check_writable, low, read_filestat, read_path, refuse_when,
};
use codec_calls::has_unknown;
use guest_memory::GuestMemory;
use std::alloc::Global;

/// The settings of a file's state that there are.
pub const KNOWN_SETTINGS: u32 = FILESTAT_TIMES | FILESTAT_SIZE;

/// The time of the last access, as given and as it is now.
pub const ATIM_BOTH: u32 = FILESTAT_ATIM | FILESTAT_ATIM_NOW;

/// The time of the last modification, as given and as it is now.
pub const MTIM_BOTH: u32 = FILESTAT_MTIM | FILESTAT_MTIM_NOW;

// How many bytes a file's state has.
const FILESTAT_LENGTH: u64 = 56;

// Whether a part of a file ends at 2^63 or behind it.
fn ends_beyond(offset: u64, length: u64) -> bool
    ensures { result ≡ nat_le (2 ^ 63) (offset + length) }
{
    offset >= 1 << 63 || length >= (1 << 63) - offset
}

/// file_advise: a descriptor, an offset, a length and an advice. INVAL for an advice but 1 to 6, and for a part that ends past
/// 2^63 - 1.
pub fn file_advise(regs: &Regs) -> Result<Call, Errno>
    ensures { result ≡ file_advise_of regs.now }
{
    let offset = regs.get(11);
    let length = regs.get(12);
    let advice = low(regs.get(13));
    refuse_when(!(1 <= advice && advice <= 6), Errno::Inval)?;
    refuse_when(ends_beyond(offset, length), Errno::Inval)?;
    Ok(Call::FileAdvise {
        fd: low(regs.get(10)),
        offset,
        length,
        advice,
    })
}

/// file_allocate: a descriptor, an offset and a length. INVAL for length 0.
pub fn file_allocate(regs: &Regs) -> Result<Call, Errno>
    ensures { result ≡ file_allocate_of regs.now }
{
    let length = regs.get(12);
    refuse_when(length == 0, Errno::Inval)?;
    Ok(Call::FileAllocate {
        fd: low(regs.get(10)),
        offset: regs.get(11),
        length,
    })
}

/// file_readdir: a descriptor, the address and the length of room for entries, and a place. FAULT where one of the room's first
/// 65,536 bytes can't be written.
pub fn file_readdir(regs: &Regs, memory: &GuestMemory) -> Result<Call, Errno>
    ensures { result ≡ file_readdir_of memory.now regs.now }
{
    let length = regs.get(12);
    check_writable(memory, regs.get(11), length.min(MOST_TRANSFERRED))?;
    Ok(Call::FileReaddir {
        fd: low(regs.get(10)),
        length,
        cookie: regs.get(13),
    })
}

/// file_stat_fget: a descriptor, and the address for its file's state. FAULT where that can't be written.
pub fn file_stat_fget(regs: &Regs, memory: &GuestMemory) -> Result<Call, Errno>
    ensures { result ≡ file_stat_fget_of memory.now regs.now }
{
    check_writable(memory, regs.get(11), FILESTAT_LENGTH)?;
    Ok(Call::FileStatFget {
        fd: low(regs.get(10)),
    })
}

// Whether nothing is set, what there isn't, or a time both as given and as it is now.
fn sets_wrongly(flags: u32) -> bool
    ensures { result ≡ sets_wrongly flags }
{
    has_unknown(flags, KNOWN_SETTINGS)
        || flags == 0
        || flags & ATIM_BOTH == ATIM_BOTH
        || flags & MTIM_BOTH == MTIM_BOTH
}

/// file_stat_fput: a descriptor, the address of a state, and what of it is set. INVAL for settings that can't be, FAULT for a
/// state that can't be read.
pub fn file_stat_fput(regs: &Regs, memory: &GuestMemory) -> Result<Call, Errno>
    ensures { result ≡ file_stat_fput_of memory.now regs.now }
{
    let flags = low(regs.get(12));
    refuse_when(sets_wrongly(flags), Errno::Inval)?;
    let stat = read_filestat(memory, regs.get(11))?;
    Ok(Call::FileStatFput {
        fd: low(regs.get(10)),
        stat,
        flags,
    })
}

/// file_stat_get: a lookup, a path, and the address for the file's state. INVAL for a lookup flag that there isn't; FAULT for a
/// path that can't be read, and a state that can't be written.
pub fn file_stat_get(
    alloc: Global,
    regs: &Regs,
    memory: &GuestMemory,
) -> Result<Call, ArgumentFault>
    ensures { Reads result (file_stat_get_of memory.now regs.now) }
{
    let lookup = regs.get(10);
    refuse_when(looks_unknown(lookup), Errno::Inval)?;
    let path = read_path(alloc, memory, regs.get(11), regs.get(12))?;
    check_writable(memory, regs.get(13), FILESTAT_LENGTH)?;
    Ok(Call::FileStatGet {
        lookup: lookup_of(lookup),
        path,
    })
}

/// file_stat_put: a lookup, a path, the address of a state, and what of it is set. INVAL for a lookup flag that there isn't, for
/// settings that can't be, and for SIZE; FAULT for a path or a state that can't be read.
pub fn file_stat_put(
    alloc: Global,
    regs: &Regs,
    memory: &GuestMemory,
) -> Result<Call, ArgumentFault>
    ensures { Reads result (file_stat_put_of memory.now regs.now) }
{
    let lookup = regs.get(10);
    let flags = low(regs.get(14));
    refuse_when(looks_unknown(lookup), Errno::Inval)?;
    refuse_when(sets_wrongly(flags), Errno::Inval)?;
    refuse_when(flags & FILESTAT_SIZE == FILESTAT_SIZE, Errno::Inval)?;
    let path = read_path(alloc, memory, regs.get(11), regs.get(12))?;
    let stat = read_filestat(memory, regs.get(13))?;
    Ok(Call::FileStatPut {
        lookup: lookup_of(lookup),
        path,
        stat,
        flags,
    })
}
