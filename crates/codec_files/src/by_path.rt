//! The calls about names of files. A path is an address and a length.
ghost use Rattle.std.specs.Prelude.{◌≡◌};
ghost use Rattle.codec_arguments.specs.Reading.{Reads};
ghost use Rattle.codec_files.specs.ByPath.{file_create_of, file_link_of, file_open_of, file_readlink_of, file_rename_of};
ghost use Rattle.codec_files.specs.ByPath.{file_symlink_of, file_unlink_of, lookup_of, looks_unknown, opens_wrongly};

use abi_types::flags::{
    FILETYPE_DIRECTORY, LOOKUP_SYMLINK_FOLLOW, O_CREAT, O_DIRECTORY, O_EXCL, O_TRUNC,
    UNLINK_REMOVEDIR,
};
use abi_types::{Call, Errno, Lookup, Regs};
use codec_arguments::{
    ArgumentFault, MOST_TRANSFERRED, check_writable, high, low, read_fdstat, read_path, refuse_when,
};
use codec_calls::{asks_unknown, has_unknown};
use guest_memory::GuestMemory;
use std::alloc::Global;

/// The flags of opening that there are.
pub const KNOWN_OFLAGS: u32 = O_CREAT | O_DIRECTORY | O_EXCL | O_TRUNC;

/// CREAT, which makes a file, with DIRECTORY, which opens none.
pub const CREAT_DIRECTORY: u32 = O_CREAT | O_DIRECTORY;

/// The descriptor in the low half of a register, and the lookup flags in its high half.
pub(crate) fn lookup_of(value: u64) -> Lookup
    ensures { result ≡ lookup_of value }
{
    Lookup {
        fd: low(value),
        flags: high(value),
    }
}

/// Whether a register has a lookup flag that there isn't.
pub(crate) fn looks_unknown(value: u64) -> bool
    ensures { result ≡ looks_unknown value }
{
    has_unknown(high(value), LOOKUP_SYMLINK_FOLLOW)
}

/// file_create: a descriptor, a path and a type of file. INVAL for a type but DIRECTORY, FAULT for a path that can't be read.
pub fn file_create(alloc: Global, regs: &Regs, memory: &GuestMemory) -> Result<Call, ArgumentFault>
    ensures { Reads result (file_create_of memory.now regs.now) }
{
    let kind = low(regs.get(13));
    refuse_when(kind != u32::from(FILETYPE_DIRECTORY), Errno::Inval)?;
    let path = read_path(alloc, memory, regs.get(11), regs.get(12))?;
    Ok(Call::FileCreate {
        fd: low(regs.get(10)),
        path,
        kind,
    })
}

/// file_link: a lookup, a path, a descriptor and the path of the new name. INVAL for a lookup flag that there isn't, FAULT for
/// a path that can't be read.
pub fn file_link(alloc: Global, regs: &Regs, memory: &GuestMemory) -> Result<Call, ArgumentFault>
    ensures { Reads result (file_link_of memory.now regs.now) }
{
    let lookup = regs.get(10);
    refuse_when(looks_unknown(lookup), Errno::Inval)?;
    let path = read_path(alloc, memory, regs.get(11), regs.get(12))?;
    let new_path = read_path(alloc, memory, regs.get(14), regs.get(15))?;
    Ok(Call::FileLink {
        lookup: lookup_of(lookup),
        path,
        new_fd: low(regs.get(13)),
        new_path,
    })
}

// Whether flags of opening aren't there, or have CREAT with DIRECTORY.
fn opens_wrongly(oflags: u32) -> bool
    ensures { result ≡ opens_wrongly oflags }
{
    has_unknown(oflags, KNOWN_OFLAGS) || oflags & CREAT_DIRECTORY == CREAT_DIRECTORY
}

/// file_open: a lookup, a path, flags of opening, and the address of the flags and rights that are asked. INVAL for a lookup
/// flag or a flag of opening that there isn't, and for CREAT with DIRECTORY; FAULT for a path or a state that can't be read;
/// INVAL for a flag or a right in it that there isn't.
pub fn file_open(alloc: Global, regs: &Regs, memory: &GuestMemory) -> Result<Call, ArgumentFault>
    ensures { Reads result (file_open_of memory.now regs.now) }
{
    let lookup = regs.get(10);
    let oflags = low(regs.get(13));
    refuse_when(looks_unknown(lookup), Errno::Inval)?;
    refuse_when(opens_wrongly(oflags), Errno::Inval)?;
    let path = read_path(alloc, memory, regs.get(11), regs.get(12))?;
    let stat = read_fdstat(memory, regs.get(14))?;
    refuse_when(asks_unknown(&stat), Errno::Inval)?;
    Ok(Call::FileOpen {
        lookup: lookup_of(lookup),
        path,
        oflags,
        stat,
    })
}

/// file_readlink: a descriptor, a path, and the address and the length of room for the text. FAULT for a path that can't be
/// read, and for room of which one of the first 65,536 bytes can't be written.
pub fn file_readlink(
    alloc: Global,
    regs: &Regs,
    memory: &GuestMemory,
) -> Result<Call, ArgumentFault>
    ensures { Reads result (file_readlink_of memory.now regs.now) }
{
    let length = regs.get(14);
    let path = read_path(alloc, memory, regs.get(11), regs.get(12))?;
    check_writable(memory, regs.get(13), length.min(MOST_TRANSFERRED))?;
    Ok(Call::FileReadlink {
        fd: low(regs.get(10)),
        path,
        length,
    })
}

/// file_rename: a descriptor and a path, and those of the name that is taken. FAULT for a path that can't be read.
pub fn file_rename(alloc: Global, regs: &Regs, memory: &GuestMemory) -> Result<Call, ArgumentFault>
    ensures { Reads result (file_rename_of memory.now regs.now) }
{
    let path = read_path(alloc, memory, regs.get(11), regs.get(12))?;
    let new_path = read_path(alloc, memory, regs.get(14), regs.get(15))?;
    Ok(Call::FileRename {
        fd: low(regs.get(10)),
        path,
        new_fd: low(regs.get(13)),
        new_path,
    })
}

/// file_symlink: the text, as an address and a length, a descriptor and a path. FAULT for a text or a path that can't be read.
pub fn file_symlink(alloc: Global, regs: &Regs, memory: &GuestMemory) -> Result<Call, ArgumentFault>
    ensures { Reads result (file_symlink_of memory.now regs.now) }
{
    let text = read_path(alloc, memory, regs.get(10), regs.get(11))?;
    let path = read_path(alloc, memory, regs.get(13), regs.get(14))?;
    Ok(Call::FileSymlink {
        text,
        fd: low(regs.get(12)),
        path,
    })
}

/// file_unlink: a descriptor, a path and flags. INVAL for a flag but REMOVEDIR, FAULT for a path that can't be read.
pub fn file_unlink(alloc: Global, regs: &Regs, memory: &GuestMemory) -> Result<Call, ArgumentFault>
    ensures { Reads result (file_unlink_of memory.now regs.now) }
{
    let flags = low(regs.get(13));
    refuse_when(has_unknown(flags, UNLINK_REMOVEDIR), Errno::Inval)?;
    let path = read_path(alloc, memory, regs.get(11), regs.get(12))?;
    Ok(Call::FileUnlink {
        fd: low(regs.get(10)),
        path,
        flags,
    })
}
