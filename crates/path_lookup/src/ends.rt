//! How a walk is made, and how it ends.
use abi_base::ObjId;

/// What a walk does at the last component of its path.
#[derive(Clone, Copy, Debug, PartialEq, Eq)]
pub enum WalkMode {
    /// It is looked up, and followed where it is a symlink.
    Follow,
    /// It is looked up, and not followed where it is a symlink.
    NoFollow,
    /// It isn't looked up.
    Parent,
}

/// Where a walk ends. A name's place is given by the number of bytes before it in the path, and its length in bytes. For
/// the `.` that a slash at a path's end adds, these are the path's length and 0.
#[derive(Clone, Copy)]
pub enum End {
    /// At what the path names: a directory, a file, or a symlink that isn't followed.
    Found(ObjId),
    /// The path's last name isn't there in the directory where it stands.
    Absent { dir: ObjId, from: u64, len: u64 },
    /// The path's last component stands in this directory. It was not looked up. This comes in the mode `Parent` alone.
    Last { dir: ObjId, from: u64, len: u64 },
}

/// Why a walk has no end.
#[derive(Clone, Copy, Debug, PartialEq, Eq)]
pub enum WalkFault {
    /// A component stands after something that is no directory.
    NotDir,
    /// The path is empty, or a name isn't there that is not the path's own last one.
    NoEntry,
    /// More than 32 symlinks.
    Loop,
    /// More than 1024 components, or a name over 255 bytes.
    TooLong,
    /// The path leads out of the directory where it starts, at the component with this index, counted from 0. A
    /// component that a symlink's text gave has the symlink's index.
    Outside(u64),
}
