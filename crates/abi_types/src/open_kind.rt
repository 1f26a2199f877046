//! What a descriptor's open is.
use crate::chan_kind::ChanKind;
use abi_base::{ObjId, Pid};

/// An open: what the descriptors that share it stand for. Its flags are of those in `flags` whose names begin with `FDFLAG`.
#[derive(Clone, Copy)]
pub enum OpenKind {
    /// A node of the file tree that is a file, and the offset at which it is read and written.
    File {
        node: ObjId,
        offset: u64,
        flags: u16,
    },
    /// A node of the file tree that is a directory.
    Directory {
        node: ObjId,
        flags: u16,
    },
    /// An end of channels: the one that it reads, the one that it writes, and of which kind both are.
    End {
        reads: Option<ObjId>,
        writes: Option<ObjId>,
        flags: u16,
        kind: ChanKind,
    },
    /// A standard stream: 0 is stdin, 1 is stdout, 2 is stderr.
    Terminal {
        which: u32,
        flags: u16,
    },
    /// A process, and the number of its object: its maker numbered it like what else it made.
    Process {
        pid: Pid,
        object: ObjId,
    },
}
