//! The structures that calls pass in memory. docs/ABI.md has their layouts.
use abi_base::Rights;

/// What a descriptor is and may do.
#[derive(Clone, Copy, PartialEq, Eq)]
pub struct FdStat {
    pub kind: u8,
    pub flags: u16,
    pub base: Rights,
    pub inheriting: Rights,
}

/// What a file is: its device, number, type, links and size, and the times of its last access, modification and change.
#[derive(Clone, Copy, PartialEq, Eq)]
pub struct FileStat {
    pub dev: u64,
    pub ino: u64,
    pub kind: u8,
    pub nlink: u32,
    pub size: u64,
    pub atim: u64,
    pub mtim: u64,
    pub ctim: u64,
}

/// A range of a program's memory that is read or written.
#[derive(Clone, Copy, PartialEq, Eq)]
pub struct Iovec {
    pub address: u64,
    pub length: u64,
}

/// The head of a directory's entry: the cookie of the next one, the file's number, the length of the name that follows,
/// and the file's type.
#[derive(Clone, Copy, PartialEq, Eq)]
pub struct Dirent {
    pub next: u64,
    pub ino: u64,
    pub namlen: u32,
    pub kind: u8,
}

/// How a thread begins: where, with which stack, and with which argument.
#[derive(Clone, Copy, PartialEq, Eq)]
pub struct ThreadAttr {
    pub entry: u64,
    pub stack: u64,
    pub stacklen: u64,
    pub argument: u64,
}

/// Where a message that is received goes: the addresses of the buffers' table and of the descriptors' table, and how
/// many each has.
#[derive(Clone, Copy, PartialEq, Eq)]
pub struct RecvIn {
    pub iovs: u64,
    pub iovs_count: u64,
    pub fds: u64,
    pub fds_count: u64,
    pub flags: u16,
}

/// How many bytes and descriptors were received.
#[derive(Clone, Copy, PartialEq, Eq)]
pub struct RecvOut {
    pub datalen: u64,
    pub fdslen: u64,
    pub flags: u16,
}

/// What is sent: the addresses of the buffers' table and of the descriptors' table, and how many each has.
#[derive(Clone, Copy, PartialEq, Eq)]
pub struct SendIn {
    pub iovs: u64,
    pub iovs_count: u64,
    pub fds: u64,
    pub fds_count: u64,
    pub flags: u16,
}

/// How many bytes were sent.
#[derive(Clone, Copy, PartialEq, Eq)]
pub struct SendOut {
    pub datalen: u64,
}
