//! A checked program image.
use abi_base::Prot;
use lists::{Bytes, Items, TryClone};
use std::alloc::AllocError;

/// A loadable segment (gABI, PT_LOAD): its placed address, its file bytes, its length in memory and its protection.
#[derive(Drop)]
pub struct Segment {
    pub at: u64,
    pub bytes: Bytes,
    pub length: u64,
    pub prot: Prot,
}

/// Segments in the order of their program headers.
pub type SegmentList = Items<Segment>;

/// An image: where it was placed, its entry, the address of its program headers in memory (0 where no segment has
/// them all), how many headers there are, and its segments.
#[derive(Drop)]
pub struct Elf {
    pub base: u64,
    pub entry: u64,
    pub phdr: u64,
    pub phnum: u64,
    pub segments: SegmentList,
}

impl TryClone for Segment {
    fn copy(&self) -> Result<Self, AllocError> {
        Ok(Segment {
            at: self.at,
            bytes: self.bytes.copy()?,
            length: self.length,
            prot: self.prot,
        })
    }
}

impl TryClone for Elf {
    fn copy(&self) -> Result<Self, AllocError> {
        Ok(Elf {
            base: self.base,
            entry: self.entry,
            phdr: self.phdr,
            phnum: self.phnum,
            segments: self.segments.copy()?,
        })
    }
}
