//! The calls that a process makes about its own memory, from registers and memory.
ghost use Rattle.std.specs.Prelude.{◌≡◌, ◌≤◌, ◌+◌, ◌*◌, ◌^◌};
ghost use Rattle.call_codec.specs.MemoryCalls.{has_bits, has_one, pages_in, is_aligned, is_guests, if_mapped, mem_advise_of, mem_protect_of, mem_sync_of, is_range, mem_unmap_of, may_map, place_at, place_in_gap, mem_map_of};
ghost use Rattle.guest_memory.specs.Ranges.{IsPageAddress};

use abi_base::{GUEST_BEGIN, GUEST_END, PAGE_LIMIT, PAGE_SIZE};
use abi_types::flags::{
    MAP_FIXED, MAP_PRIVATE, MAP_SHARED, MS_ASYNC, MS_SYNC, PROT_EXEC, PROT_WRITE,
};
use abi_types::{Call, CallNumber, Errno, Place, Regs};
use codec_arguments::{low, refuse_when};
use guest_memory::GuestMemory;

// The bits of a prot that are for a writable page that can be executed.
const WRITE_AND_EXEC: u32 = PROT_WRITE | PROT_EXEC;

/// Whether the flags hold each of these bits.
pub fn has_bits(flags: u32, bits: u32) -> bool
    ensures { result ≡ has_bits flags bits }
{
    flags & bits == bits
}

// Whether the flags hold the one bit or the other, and not both.
fn has_one(flags: u32, this: u32, that: u32) -> bool
    ensures { result ≡ has_one flags this that }
{
    if has_bits(flags, this) {
        !has_bits(flags, that)
    } else {
        has_bits(flags, that)
    }
}

// Whether an address, or an offset, is a page's.
fn is_aligned(at: u64) -> bool
    ensures { result ≡ is_aligned at }
{
    at % PAGE_SIZE == 0
}

/// How many pages so many bytes are, rounded up.
pub fn pages_in(bytes: u64) -> u64
    ensures { result ≡ pages_in bytes }
{
    bytes.div_ceil(PAGE_SIZE)
}

// Whether so many pages from the address on lie in the guest's part of the address space.
fn is_guests(at: u64, pages: u64) -> bool
    requires { pages ≤ 2 ^ 52 }
    ensures { result ≡ is_guests at pages }
{
    at >= GUEST_BEGIN && at <= GUEST_END && pages <= (GUEST_END - at) / PAGE_SIZE
}

// SUCCESS where each page of the range is mapped, else FAULT.
fn if_mapped(memory: &GuestMemory, at: u64, bytes: u64) -> Errno
    requires { IsPageAddress at }
    ensures { result ≡ if_mapped memory.now at bytes }
{
    match memory.check_mapped(at, pages_in(bytes)) {
        Ok(()) => Errno::Success,
        Err(_) => Errno::Fault,
    }
}

/// mem_advise: an address, a length and an advice. INVAL for an advice but 1 to 6, and for an address that isn't a page's.
pub fn mem_advise(regs: &Regs, memory: &GuestMemory) -> Call
    ensures { result ≡ mem_advise_of memory.now regs.now }
{
    let at = regs.get(10);
    let advice = low(regs.get(12));
    let errno = if 0 < advice && advice <= 6 && is_aligned(at) {
        if_mapped(memory, at, regs.get(11))
    } else {
        Errno::Inval
    };
    Call::Memory {
        number: CallNumber::MemAdvise,
        errno,
    }
}

/// mem_protect: an address, a length and a prot. INVAL for a prot over 7, and for an address that isn't a page's; NOTSUP for a
/// page that is both written and executed.
pub fn mem_protect(regs: &Regs, memory: &GuestMemory) -> Call
    ensures { result ≡ mem_protect_of memory.now regs.now }
{
    let at = regs.get(10);
    let prot = low(regs.get(12));
    let errno = if prot > 7 || !is_aligned(at) {
        Errno::Inval
    } else if has_bits(prot, WRITE_AND_EXEC) {
        Errno::Notsup
    } else {
        if_mapped(memory, at, regs.get(11))
    };
    Call::Memory {
        number: CallNumber::MemProtect,
        errno,
    }
}

/// mem_sync: an address, a length, and flags with exactly one of ASYNC and SYNC, else INVAL; INVAL too for an address that isn't
/// a page's.
pub fn mem_sync(regs: &Regs, memory: &GuestMemory) -> Call
    ensures { result ≡ mem_sync_of memory.now regs.now }
{
    let at = regs.get(10);
    let flags = low(regs.get(12));
    let errno = if flags <= 7 && has_one(flags, MS_ASYNC, MS_SYNC) && is_aligned(at) {
        if_mapped(memory, at, regs.get(11))
    } else {
        Errno::Inval
    };
    Call::Memory {
        number: CallNumber::MemSync,
        errno,
    }
}

// Whether there are some bytes from the address on, none of which stands at 2^64 or behind it.
fn is_range(at: u64, length: u64) -> bool
    ensures { result ≡ is_range at length }
{
    length > 0 && length - 1 <= u64::MAX - at
}

/// mem_unmap: an address and a length. INVAL for an address that isn't a page's, and for a range that is empty or passes 2^64.
pub fn mem_unmap(regs: &Regs) -> Call
    ensures { result ≡ mem_unmap_of regs.now }
{
    let at = regs.get(10);
    let errno = if is_aligned(at) && is_range(at, regs.get(11)) {
        Errno::Success
    } else {
        Errno::Inval
    };
    Call::Memory {
        number: CallNumber::MemUnmap,
        errno,
    }
}

// Whether mem_map may be made by its address, length, prot, flags and offset, with a file or without one.
fn check_map(at: u64, bytes: u64, prot: u32, flags: u32, offset: u64) -> Result<(), Errno>
    ensures { result ≡ may_map at bytes prot flags offset }
{
    refuse_when(prot > 7 || flags > 15 || bytes == 0, Errno::Inval)?;
    refuse_when(!has_one(flags, MAP_PRIVATE, MAP_SHARED), Errno::Inval)?;
    refuse_when(!is_aligned(offset), Errno::Inval)?;
    refuse_when(has_bits(flags, MAP_SHARED), Errno::Notsup)?;
    refuse_when(has_bits(prot, WRITE_AND_EXEC), Errno::Notsup)?;
    let placed = is_aligned(at) && is_guests(at, pages_in(bytes));
    refuse_when(has_bits(flags, MAP_FIXED) && !placed, Errno::Inval)
}

// Where so many pages go at the address that FIXED names, in place of those that are there.
fn place_at(memory: &GuestMemory, at: u64, pages: u64) -> Place
    requires aligned { IsPageAddress at }
    requires guests { at + PAGE_SIZE * pages ≤ GUEST_END }
    ensures { result ≡ place_at memory.now at pages }
{
    let replaced = memory.mapped_within(at, pages as u32);
    if memory.len() as u64 - replaced + pages <= PAGE_LIMIT {
        Place::At(at)
    } else {
        Place::Refused(Errno::Nobufs)
    }
}

// Where so many pages go: the lowest gap.
fn place_in_gap(memory: &GuestMemory, pages: u64) -> Place
    requires { pages ≤ 2 ^ 52 }
    ensures { result ≡ place_in_gap memory.now pages }
{
    if memory.len() as u64 + pages > PAGE_LIMIT {
        return Place::Refused(Errno::Nobufs);
    }
    match memory.find_gap(pages as u32) {
        Some(at) => Place::At(at),
        None => Place::Refused(Errno::Nobufs),
    }
}

/// mem_map, with a file or without one: an address, a length, a prot, flags, a descriptor and an offset.
pub fn mem_map(regs: &Regs, memory: &GuestMemory) -> Result<Call, Errno>
    ensures { result ≡ mem_map_of memory.now regs.now }
{
    let at = regs.get(10);
    let length = regs.get(11);
    let prot = low(regs.get(12));
    let flags = low(regs.get(13));
    let offset = regs.get(15);
    check_map(at, length, prot, flags, offset)?;
    let pages = pages_in(length);
    let place = if has_bits(flags, MAP_FIXED) {
        place_at(memory, at, pages)
    } else {
        place_in_gap(memory, pages)
    };
    Ok(Call::MemMap {
        place,
        length,
        prot,
        flags,
        fd: low(regs.get(14)),
        offset,
    })
}
