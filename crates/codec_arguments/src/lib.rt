//! What the arguments of a call are made of: halves of registers, and in the caller's memory bytes, paths, numbers, arrays
//! of iovecs and structures. Memory that can't be had refuses the call with FAULT.
//!
//! In each contract `Reads result reading` says that the function returned what `reading` gives, unless memory ran out.
#![tactic(auto)]

pub use bytes::{
    MOST_OF_PATH, check_writable, fill, read_bytes, read_descriptors, read_path, read_word,
};
pub use fault::{ArgumentFault, refuse_when};
pub use halves::{high, low};
pub use ranges::{MOST_IOVECS, MOST_TRANSFERRED, NO_RANGE, fill_ranges, read_room, read_written};
pub use structures::{read_fdstat, read_filestat, read_recv_in, read_send_in, read_threadattr};

mod bytes;
mod fault;
mod halves;
mod ranges;
mod structures;
