//! The image of a checked file.
ghost use Rattle.std.specs.Prelude.{◌≡◌, ◌≤◌, ◌<◌, ◌+◌, ◌-◌, ◌^◌, Some, None, IfOk, length};
ghost use Rattle.std.specs.List.{find};
ghost use Rattle.elf_image.specs.Checks.{first_unloadable};
ghost use Rattle.elf_image.specs.Image.{address_in, holds_range, segment, segments};
ghost use Rattle.elf_image.specs.Segments.{is_load, may_read};

use crate::elf::{Segment, SegmentList};
use crate::program_header::ProgramHeader;
use crate::segments::{is_load, may_execute, may_write};
use abi_base::Prot;
use lists::Bytes;
use std::alloc::{AllocError, Global};

// p_flags: the segment may be read.
const READ: u32 = 4;

// Whether a segment's memory may be read.
fn may_read(header: &ProgramHeader) -> bool
    ensures { result ≡ may_read header.now }
{
    header.flags & READ != 0
}

// The segment of a header that can be loaded.
fn segment(
    alloc: Global,
    bytes: &[u8],
    base: u64,
    header: &ProgramHeader,
) -> Result<Segment, AllocError>
    requires file { header.now.offset + header.now.file_size ≤ length bytes.now }
    requires placed { base + header.now.address < 2 ^ 64 }
    ensures { IfOk result (λ made. made ≡ segment bytes.now base header.now) }
{
    let start = header.offset as usize;
    let end = start + header.file_size as usize;
    Ok(Segment {
        at: base + header.address,
        bytes: Bytes::of(alloc, &bytes[start..end])?,
        length: header.memory_size,
        prot: Prot {
            read: may_read(header),
            write: may_write(header),
            exec: may_execute(header),
        },
    })
}

/// The segments of headers that can be loaded, in the headers' order.
pub(crate) fn segments(
    alloc: Global,
    bytes: &[u8],
    base: u64,
    headers: &[ProgramHeader],
) -> Result<SegmentList, AllocError>
    requires { first_unloadable base (length bytes.now) headers.now ≡ None }
    ensures { IfOk result (λ made. made ≡ segments bytes.now base headers.now) }
{
    let mut made = SegmentList::new(alloc);
    for i in 0..headers.len() {
        let header = &headers[i];
        if is_load(header) {
            made.push(segment(alloc, bytes, base, header)?)?;
        }
    }
    Ok(made)
}

// Whether a header's segment has all file bytes between these offsets.
fn holds_range(from: u64, to: u128, header: &ProgramHeader) -> bool
    ensures { result ≡ holds_range from to header.now }
{
    let ProgramHeader {
        offset,
        file_size,
        ..
    } = *header;
    is_load(header) && offset <= from && to <= offset as u128 + file_size as u128
}

// The address that a byte of the file has in a segment whose file bytes have it.
fn address_in(base: u64, offset: u64, header: &ProgramHeader) -> u64
    requires from { header.now.offset ≤ offset }
    requires placed { base + header.now.address + (offset - header.now.offset) < 2 ^ 64 }
    ensures { result ≡ address_in base offset (Some header.now) }
{
    base + header.address + (offset - header.offset)
}

/// The address of the program headers, which are the file bytes between these offsets: where the first segment that has
/// them all puts them, or 0 where none has.
pub(crate) fn headers_address(
    base: u64,
    size: usize,
    from: u64,
    to: u128,
    headers: &[ProgramHeader],
) -> u64
    requires loadable { first_unloadable base size headers.now ≡ None }
    requires order { from < to }
    ensures { result ≡ address_in base from (find (holds_range from to) headers.now) }
{
    for i in 0..headers.len() {
        let header = &headers[i];
        if holds_range(from, to, header) {
            return address_in(base, from, header);
        }
    }
    0
}
