//! The memory of a guest process: pages of 4096 bytes at 64-bit addresses, each with its rights to be read, written and
//! executed.
#![tactic(auto)]

pub use access::Access;
pub use fault::MemFault;
pub use laws::{bytes_are_each, bytes_are_written, changes_are_functions};
pub use memory::GuestMemory;
pub use room::Room;

mod access;
mod bytes;
mod fault;
mod laws;
mod mapping;
mod memory;
mod page_map;
mod room;
mod words;
