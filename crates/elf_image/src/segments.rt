//! Checks of the segments that program headers ask for.
ghost use Rattle.std.specs.Prelude.{◌≡◌, ◌<◌, ◌^◌, None, OnOk, take};
ghost use Rattle.std.specs.List.{list_any};
ghost use Rattle.elf_image.specs.Checks.{Passes, is_misplaced, share_page, is_met, may_run, is_entry, is_interp, first_unloadable, first_meeting, segment_fault, program_fault};
ghost use Rattle.elf_image.specs.Segments.{is_load, may_execute, may_write, start_of, end_of, first_page, page_end, page_count};

use crate::fault::ElfFault;
use crate::program_header::ProgramHeader;
use abi_base::{GUEST_BEGIN, INSTRUCTION_ALIGNMENT, PAGE_SIZE};

// p_type: a segment to be loaded.
const LOAD: u32 = 1;

// p_type: the name of an interpreter.
const INTERPRETER: u32 = 3;

// p_flags: the segment may be executed.
const EXECUTE: u32 = 1;

// p_flags: the segment may be written.
const WRITE: u32 = 2;

// e_flags: there may be compressed instructions.
const COMPRESSED: u32 = 1;

// e_flags: the floating-point convention of calls.
const FLOAT_ABI: u32 = 6;

// Each instruction's address is a multiple of this.
const ALIGNMENT: u128 = INSTRUCTION_ALIGNMENT as u128;

// Where the program's part of the address space begins.
const LOWEST: u128 = GUEST_BEGIN as u128;

// Where it ends.
const HIGHEST: u128 = 0x20_0000_0000;

// The size of a page.
const PAGE: u128 = PAGE_SIZE as u128;

// How many pages the segments of a program may have.
const PAGE_LIMIT: u128 = 32768;

/// Whether a header is one of a segment to be loaded that takes memory.
pub(crate) fn is_load(header: &ProgramHeader) -> bool
    ensures { result ≡ is_load header.now }
{
    header.kind == LOAD && header.memory_size > 0
}

// Whether a segment's memory may be executed.
pub(crate) fn may_execute(header: &ProgramHeader) -> bool
    ensures { result ≡ may_execute header.now }
{
    header.flags & EXECUTE != 0
}

// Whether a segment's memory may be written.
pub(crate) fn may_write(header: &ProgramHeader) -> bool
    ensures { result ≡ may_write header.now }
{
    header.flags & WRITE != 0
}

// The placed address of a segment's first byte.
fn start_of(base: u64, header: &ProgramHeader) -> u128
    ensures sum { result ≡ start_of base header.now }
    ensures small { result < 2 ^ 65 }
{
    let address = header.address;
    base as u128 + address as u128
}

// The placed address behind a segment's last byte.
fn end_of(base: u64, header: &ProgramHeader) -> u128
    ensures sum { result ≡ end_of base header.now }
    ensures small { result < 2 ^ 66 }
{
    let size = header.memory_size;
    start_of(base, header) + size as u128
}

// The number of the page of a segment's first byte.
fn first_page(base: u64, header: &ProgramHeader) -> u128
    ensures { result ≡ first_page base header.now }
{
    start_of(base, header) / PAGE
}

// The number of the page behind a segment's last byte.
fn page_end(base: u64, header: &ProgramHeader) -> u128
    ensures page { result ≡ page_end base header.now }
    ensures small { result < 2 ^ 64 }
{
    (end_of(base, header) + (PAGE - 1)) / PAGE
}

// How many pages a segment has bytes in.
fn page_count(base: u64, header: &ProgramHeader) -> u128
    ensures count { result ≡ page_count base header.now }
    ensures small { result < 2 ^ 64 }
{
    page_end(base, header) - first_page(base, header)
}

// Whether a segment can't be loaded from a file of this size, whatever the others are.
fn is_misplaced(base: u64, size: usize, header: &ProgramHeader) -> bool
    ensures { result ≡ is_misplaced base size header.now }
{
    let ProgramHeader {
        offset,
        file_size,
        memory_size,
        ..
    } = *header;
    offset as u128 + file_size as u128 > size as u128
        || file_size > memory_size
        || (may_write(header) && may_execute(header))
        || start_of(base, header) < LOWEST
        || end_of(base, header) > HIGHEST
}

// The first header whose segment can't be loaded from a file of this size: it is misplaced, or there are too many pages
// with it.
fn first_unloadable(base: u64, size: usize, headers: &[ProgramHeader]) -> Option<usize>
    ensures { result ≡ first_unloadable base size headers.now }
{
    let mut pages: u128 = 0;
    for i in 0..headers.len() {
        let header = &headers[i];
        if is_load(header) {
            pages += page_count(base, header);
            if is_misplaced(base, size, header) || pages > PAGE_LIMIT {
                return Some(i);
            }
        }
    }
    None
}

// Whether two segments have a page in common.
fn share_page(base: u64, one: &ProgramHeader, other: &ProgramHeader) -> bool
    ensures { result ≡ share_page base one.now other.now }
{
    first_page(base, one) < page_end(base, other) && first_page(base, other) < page_end(base, one)
}

// Whether a segment has a page in common with one of the earlier headers' segments.
fn is_met(base: u64, header: &ProgramHeader, earlier: &[ProgramHeader]) -> bool
    ensures { result ≡ list_any (is_met base header.now) earlier.now }
{
    earlier
        .iter()
        .any(|other| is_load(other) && share_page(base, other, header))
}

// The first header whose segment has a page in common with that of an earlier one.
fn first_meeting(base: u64, headers: &[ProgramHeader]) -> Option<usize>
    ensures { result ≡ first_meeting base headers.now }
{
    for i in 0..headers.len() {
        let header = &headers[i];
        if is_load(header) && is_met(base, header, &headers[..i]) {
            return Some(i);
        }
    }
    None
}

// Checks the segments.
fn check_segments(base: u64, size: usize, headers: &[ProgramHeader]) -> Result<(), ElfFault>
    ensures fault { Passes result (segment_fault base size headers.now) }
    ensures loadable { OnOk result (first_unloadable base size headers.now ≡ None) }
{
    if let Some(i) = first_unloadable(base, size, headers) {
        return Err(ElfFault::Segment(i));
    }
    if let Some(i) = first_meeting(base, headers) {
        return Err(ElfFault::Overlap(i));
    }
    Ok(())
}

// Whether an address is one of an executable segment.
fn may_run(base: u64, address: u128, header: &ProgramHeader) -> bool
    ensures { result ≡ may_run base address header.now }
{
    is_load(header)
        && may_execute(header)
        && start_of(base, header) <= address
        && address < end_of(base, header)
}

// Whether an address is one of an executable segment among these headers'.
fn is_executable(base: u64, headers: &[ProgramHeader], address: u128) -> bool
    ensures { result ≡ list_any (may_run base address) headers.now }
{
    headers.iter().any(|header| may_run(base, address, header))
}

// Whether a program may begin to run at an address.
fn is_entry(base: u64, headers: &[ProgramHeader], entry: u128) -> bool
    ensures { result ≡ is_entry base headers.now entry }
{
    entry % ALIGNMENT == 0 && is_executable(base, headers, entry)
}

// Whether a header is one of an interpreter.
fn has_interpreter(headers: &[ProgramHeader]) -> bool
    ensures { result ≡ list_any is_interp headers.now }
{
    headers.iter().any(|header| header.kind == INTERPRETER)
}

/// Checks the program headers: that none is of an interpreter, the flags of the code, the segments and the entry.
pub(crate) fn check_program(
    base: u64,
    size: usize,
    flags: u32,
    entry: u128,
    headers: &[ProgramHeader],
) -> Result<(), ElfFault>
    ensures fault { Passes result (program_fault base size flags entry headers.now) }
    ensures loadable { OnOk result (first_unloadable base size headers.now ≡ None) }
    ensures entry { OnOk result (entry < 2 ^ 64) }
{
    if has_interpreter(headers) {
        return Err(ElfFault::Interp);
    }
    if flags & COMPRESSED != 0 {
        return Err(ElfFault::Compressed);
    }
    if flags & FLOAT_ABI != 0 {
        return Err(ElfFault::FloatAbi);
    }
    check_segments(base, size, headers)?;
    if !is_entry(base, headers, entry) {
        return Err(ElfFault::Entry);
    }
    Ok(())
}
