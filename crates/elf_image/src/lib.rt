//! ELF files for RV64 (System V gABI and RISC-V psABI): which are accepted, and the image that a file asks for.
#![tactic(auto)]

pub use elf::{Elf, Segment, SegmentList};
pub use fault::ElfFault;
pub use laws::{checks_find_first, image_is_sound};
pub use reading::read_elf;

mod elf;
mod fault;
mod fields;
mod file_header;
mod laws;
mod placing;
mod program_header;
mod reading;
mod segments;
