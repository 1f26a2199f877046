//! The structures of the interface as bytes in a program's memory (docs/ABI.md): each is read from its bytes and
//! written to them. Numbers have their lowest byte first. Bytes that no field names are written 0, and are not read.
#![tactic(auto)]

pub use events::{read_event, read_subscription, write_event, write_subscription};
pub use structures::{
    read_dirent, read_fdstat, read_filestat, read_iovec, read_recv_in, read_recv_out, read_send_in,
    read_send_out, read_threadattr, write_dirent, write_fdstat, write_filestat, write_iovec,
    write_recv_in, write_recv_out, write_send_in, write_send_out, write_threadattr,
};

mod events;
mod fields;
pub mod laws;
mod structures;
