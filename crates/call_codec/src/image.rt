//! The memory of a program's image.
ghost use Rattle.std.specs.Prelude.{◌≡◌, ◌≤◌, ◌<◌, ◌+◌, ◌/◌, length, IfErr, IfOk, IsOkUnless, OnOk};
ghost use Rattle.std.specs.FinMap as map;
ghost use Rattle.guest_memory.specs.Mapping.{MapFails, MayMap};
ghost use Rattle.guest_memory.specs.Ranges.{IsPageAddress};
ghost use Rattle.call_codec.specs.Image.{FitTogether, IsPlaced, first_page, page_with, page_of, page_count, with_segment, with_segments};

use abi_base::{GUEST_BEGIN, GUEST_END, PAGE_SIZE};
use abi_types::Prot;
use elf_image::Segment;
use guest_memory::{GuestMemory, MemFault};
use std::alloc::Global;

/// To be read and written, as a page is while its bytes are put in.
pub const READ_WRITE: Prot = Prot {
    read: true,
    write: true,
    exec: false,
};

// Maps one page with bytes from a place in it on, and zeros around them. It fails only where a page of zeros can't be
// mapped there: a page that was mapped can be written and given its rights.
fn map_page(
    alloc: Global,
    memory: &mut GuestMemory,
    at: u64,
    place: usize,
    bytes: &[u8],
    prot: Prot,
) -> Result<(), MemFault>
    requires page { IsPageAddress at }
    requires low { GUEST_BEGIN ≤ at }
    requires high { at + PAGE_SIZE ≤ GUEST_END }
    requires place { place < PAGE_SIZE }
    requires fits { place + length bytes.now ≤ PAGE_SIZE }
    ensures ok { OnOk result (memory.new ≡ map.insert memory.old (at / PAGE_SIZE) (page_with place bytes.now prot)) }
    ensures fault { IfErr result (MapFails memory.old (at / PAGE_SIZE) 1) }
{
    memory.map(alloc, at, 1, READ_WRITE)?;
    memory.write_bytes(at + place as u64, bytes)?;
    memory.protect(at, 1, prot)
}

// How many pages a segment's memory touches.
fn page_count(segment: &Segment) -> u64
    requires { IsPlaced segment.now }
    ensures { result ≡ page_count segment.now }
{
    (segment.at % PAGE_SIZE + segment.length).div_ceil(PAGE_SIZE)
}

// Maps the page of a segment with this place among its pages.
fn map_segment_page(
    alloc: Global,
    memory: &mut GuestMemory,
    segment: &Segment,
    index: u64,
) -> Result<(), MemFault>
    requires placed { IsPlaced segment.now }
    requires within { index < page_count segment.now }
    ensures ok { OnOk result (memory.new ≡ map.insert memory.old (first_page segment.now + index) (page_of segment.now index)) }
    ensures fault { IfErr result (MapFails memory.old (first_page segment.now + index) 1) }
{
    let before = (segment.at % PAGE_SIZE) as usize;
    let bytes = segment.bytes.as_slice();
    let page = (index * PAGE_SIZE) as usize;
    let at = segment.at - segment.at % PAGE_SIZE + index * PAGE_SIZE;
    if index == 0 {
        let end = bytes.len().min(PAGE_SIZE as usize - before);
        map_page(alloc, memory, at, before, &bytes[..end], segment.prot)
    } else {
        let start = bytes.len().min(page - before);
        let end = bytes.len().min(start + PAGE_SIZE as usize);
        map_page(alloc, memory, at, 0, &bytes[start..end], segment.prot)
    }
}

/// Maps a segment's pages, where none is yet. It fails only where memory runs out.
pub fn map_segment(
    alloc: Global,
    memory: &mut GuestMemory,
    segment: &Segment,
) -> Result<(), MemFault>
    requires placed { IsPlaced segment.now }
    requires room { MayMap memory.old (first_page segment.now) (page_count segment.now) }
    ensures ok { OnOk result (memory.new ≡ with_segment memory.old segment.now) }
    ensures only { IsOkUnless result MemFault.NoMemory }
{
    for index in 0..page_count(segment) {
        map_segment_page(alloc, memory, segment, index)?;
    }
    Ok(())
}

/// The memory of an image's segments, which have no page in common. It fails only where memory runs out.
pub fn load(alloc: Global, segments: &[Segment]) -> Result<GuestMemory, MemFault>
    requires { FitTogether segments.now }
    ensures ok { IfOk result (λ memory. memory ≡ with_segments map.empty segments.now) }
    ensures only { IsOkUnless result MemFault.NoMemory }
{
    let mut memory = GuestMemory::new(alloc);
    for segment in segments {
        map_segment(alloc, &mut memory, segment)?;
    }
    Ok(memory)
}
