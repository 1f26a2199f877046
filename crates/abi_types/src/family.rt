//! Which part of the kernel does a call.
ghost use Rattle.std.specs.Prelude.{◌≡◌};
ghost use Rattle.abi_types.specs.Families.{IsOf, fd_of_file, fd_of_offset, fds_of_entry};

use crate::call::{Call, Lookup};
use crate::place::Place;
use abi_base::Errno;
use abi_base::flags::MAP_ANON;
use abi_structures::{FdStat, FileStat, Subscription, ThreadAttr};

/// What a call does to its process's descriptors.
#[derive(Clone, Copy)]
pub enum DescriptorChange {
    /// fd_close: takes a number away.
    Close { fd: u32 },
    /// fd_dup: gives what a number stands for one more number, the lowest that is free.
    Dup { fd: u32 },
    /// fd_replace: gives one number what another stands for.
    Replace { from: u32, to: u32 },
    /// fd_stat_put: sets the flags of a descriptor's open, or lowers the descriptor's rights.
    StatPut { fd: u32, stat: FdStat, flags: u32 },
}

/// A call on the file or the directory that the open of one descriptor is of, which leaves the open as it is.
#[derive(Clone, Copy)]
pub enum FileCall<'a> {
    FdPread {
        fd: u32,
        length: u64,
        offset: u64,
    },
    FdPwrite {
        fd: u32,
        bytes: &'a [u8],
        offset: u64,
    },
    FileAllocate {
        fd: u32,
        offset: u64,
        length: u64,
    },
    FileReaddir {
        fd: u32,
        length: u64,
        cookie: u64,
    },
    FileReadlink {
        fd: u32,
        path: &'a [u8],
        length: u64,
    },
    FileStatFget {
        fd: u32,
    },
    FileStatFput {
        fd: u32,
        stat: FileStat,
        flags: u32,
    },
    FileStatGet {
        lookup: Lookup,
        path: &'a [u8],
    },
    FileStatPut {
        lookup: Lookup,
        path: &'a [u8],
        stat: FileStat,
        flags: u32,
    },
    /// mem_map of a file.
    MemMap {
        place: Place,
        length: u64,
        prot: u32,
        flags: u32,
        fd: u32,
        offset: u64,
    },
}

/// A call on the open of one descriptor that may move the open's offset.
#[derive(Clone, Copy)]
pub enum OffsetCall<'a> {
    FdRead { fd: u32, length: u64 },
    FdSeek { fd: u32, offset: u64, whence: u32 },
    FdWrite { fd: u32, bytes: &'a [u8] },
}

/// A call that makes an entry of a directory, moves one or takes one away.
#[derive(Clone, Copy)]
pub enum EntryCall<'a> {
    FileCreate {
        fd: u32,
        path: &'a [u8],
        kind: u32,
    },
    FileLink {
        lookup: Lookup,
        path: &'a [u8],
        new_fd: u32,
        new_path: &'a [u8],
    },
    FileRename {
        fd: u32,
        path: &'a [u8],
        new_fd: u32,
        new_path: &'a [u8],
    },
    FileSymlink {
        text: &'a [u8],
        fd: u32,
        path: &'a [u8],
    },
    FileUnlink {
        fd: u32,
        path: &'a [u8],
        flags: u32,
    },
}

/// file_open, with the flags and the rights that `stat` asks.
#[derive(Clone, Copy)]
pub struct OpenCall<'a> {
    pub lookup: Lookup,
    pub path: &'a [u8],
    pub oflags: u32,
    pub stat: FdStat,
}

/// A call on the socket that the open of one descriptor is.
#[derive(Clone, Copy)]
pub enum SocketCall<'a> {
    SockRecv {
        fd: u32,
        length: u64,
        fds: u64,
        flags: u16,
    },
    SockSend {
        fd: u32,
        bytes: &'a [u8],
        fds: &'a [u32],
        flags: u16,
    },
    SockShutdown {
        fd: u32,
        how: u32,
    },
}

/// A view of a call by the part of the kernel that does it.
#[derive(Clone, Copy)]
pub enum Family<'a> {
    /// Changes the process's descriptors.
    Descriptors(DescriptorChange),
    /// fd_stat_get: what a descriptor is and may do.
    DescriptorState {
        fd: u32,
    },
    /// Works on a file or a directory by an open.
    File(FileCall<'a>),
    /// Works at the offset of an open.
    Offset(OffsetCall<'a>),
    /// Changes entries of directories.
    Entries(EntryCall<'a>),
    /// Opens what a path leads to.
    Open(OpenCall<'a>),
    /// fd_create2: makes two ends, of a pipe or of a pair of sockets.
    Ends {
        kind: u32,
    },
    /// Works on a socket.
    Socket(SocketCall<'a>),
    /// proc_exit: ends the process.
    Exit {
        code: u32,
    },
    /// proc_fork: makes a child of the process, which has so many turns left.
    Fork {
        left: u64,
    },
    /// proc_exec: lets a descriptor's program begin in the process, which has these descriptors then.
    Exec {
        fd: u32,
        fds: &'a [u32],
    },
    /// proc_raise: sends the process the signal with this number.
    Raise {
        signal: u32,
    },
    /// mem_map of zeros, which go there.
    Zeros(Place),
    /// poll: waits for one of these.
    Poll(&'a [Subscription]),
    /// clock_res_get: how fine a clock is.
    ClockResolution {
        clock: u32,
    },
    /// clock_time_get: what a clock shows.
    ClockTime {
        clock: u32,
        precision: u64,
    },
    /// random_get: draws so many random bytes.
    Random {
        length: u64,
    },
    /// thread_create: makes a thread, which begins so.
    NewThread(ThreadAttr),
    /// thread_exit: lets a lock go, whose word is this, and ends the thread.
    ThreadExit {
        lock: u64,
        word: u32,
        scope: u32,
    },
    /// lock_unlock: lets a lock go, whose word is this.
    Unlock {
        lock: u64,
        word: u32,
        scope: u32,
    },
    /// condvar_signal: signals so many of the threads that wait at a condition variable.
    Signal {
        condvar: u64,
        word: u32,
        scope: u32,
        n: u32,
    },
    /// Answers this, and changes nothing.
    Answered(Errno),
    /// fd_create1, which makes nothing.
    NotBuilt,
}

impl FileCall<'_> {
    /// The descriptor.
    pub fn fd(&self) -> u32
        ensures { result ≡ fd_of_file self.now }
    {
        match self {
            FileCall::FdPread { fd, .. }
            | FileCall::FdPwrite { fd, .. }
            | FileCall::FileAllocate { fd, .. }
            | FileCall::FileReaddir { fd, .. }
            | FileCall::FileReadlink { fd, .. }
            | FileCall::FileStatFget { fd }
            | FileCall::FileStatFput { fd, .. }
            | FileCall::MemMap { fd, .. } => *fd,
            FileCall::FileStatGet { lookup, .. } | FileCall::FileStatPut { lookup, .. } => {
                lookup.fd
            }
        }
    }
}

impl OffsetCall<'_> {
    /// The descriptor.
    pub fn fd(&self) -> u32
        ensures { result ≡ fd_of_offset self.now }
    {
        match self {
            OffsetCall::FdRead { fd, .. }
            | OffsetCall::FdSeek { fd, .. }
            | OffsetCall::FdWrite { fd, .. } => *fd,
        }
    }
}

impl EntryCall<'_> {
    /// The descriptor from whose open the path begins, and that of the second path where there are two.
    pub fn fds(&self) -> (u32, Option<u32>)
        ensures { result ≡ fds_of_entry self.now }
    {
        match self {
            EntryCall::FileCreate { fd, .. }
            | EntryCall::FileSymlink { fd, .. }
            | EntryCall::FileUnlink { fd, .. } => (*fd, None),
            EntryCall::FileLink { lookup, new_fd, .. } => (lookup.fd, Some(*new_fd)),
            EntryCall::FileRename { fd, new_fd, .. } => (*fd, Some(*new_fd)),
        }
    }
}

impl Call {
    /// Which part of the kernel does the call.
    #[tactic(auto, unfolding(crate::specs::Families::IsOf))]
    pub fn family(&self) -> Family<'_>
        ensures { IsOf self.now result }
    {
        match self {
            Call::FdClose { fd } => Family::Descriptors(DescriptorChange::Close { fd: *fd }),
            Call::FdDup { fd } => Family::Descriptors(DescriptorChange::Dup { fd: *fd }),
            Call::FdReplace { from, to } => Family::Descriptors(DescriptorChange::Replace {
                from: *from,
                to: *to,
            }),
            Call::FdStatPut { fd, stat, flags } => Family::Descriptors(DescriptorChange::StatPut {
                fd: *fd,
                stat: *stat,
                flags: *flags,
            }),
            Call::FdStatGet { fd } => Family::DescriptorState { fd: *fd },
            Call::FdPread { fd, length, offset } => Family::File(FileCall::FdPread {
                fd: *fd,
                length: *length,
                offset: *offset,
            }),
            Call::FdPwrite { fd, bytes, offset } => Family::File(FileCall::FdPwrite {
                fd: *fd,
                bytes: bytes.as_slice(),
                offset: *offset,
            }),
            Call::FileAllocate { fd, offset, length } => Family::File(FileCall::FileAllocate {
                fd: *fd,
                offset: *offset,
                length: *length,
            }),
            Call::FileReaddir { fd, length, cookie } => Family::File(FileCall::FileReaddir {
                fd: *fd,
                length: *length,
                cookie: *cookie,
            }),
            Call::FileReadlink { fd, path, length } => Family::File(FileCall::FileReadlink {
                fd: *fd,
                path: path.as_slice(),
                length: *length,
            }),
            Call::FileStatFget { fd } => Family::File(FileCall::FileStatFget { fd: *fd }),
            Call::FileStatFput { fd, stat, flags } => Family::File(FileCall::FileStatFput {
                fd: *fd,
                stat: *stat,
                flags: *flags,
            }),
            Call::FileStatGet { lookup, path } => Family::File(FileCall::FileStatGet {
                lookup: *lookup,
                path: path.as_slice(),
            }),
            Call::FileStatPut {
                lookup,
                path,
                stat,
                flags,
            } => Family::File(FileCall::FileStatPut {
                lookup: *lookup,
                path: path.as_slice(),
                stat: *stat,
                flags: *flags,
            }),
            Call::MemMap {
                place,
                length,
                prot,
                flags,
                fd,
                offset,
            } => {
                if *flags & MAP_ANON == MAP_ANON {
                    return Family::Zeros(*place);
                }
                Family::File(FileCall::MemMap {
                    place: *place,
                    length: *length,
                    prot: *prot,
                    flags: *flags,
                    fd: *fd,
                    offset: *offset,
                })
            }
            Call::FdRead { fd, length } => Family::Offset(OffsetCall::FdRead {
                fd: *fd,
                length: *length,
            }),
            Call::FdSeek { fd, offset, whence } => Family::Offset(OffsetCall::FdSeek {
                fd: *fd,
                offset: *offset,
                whence: *whence,
            }),
            Call::FdWrite { fd, bytes } => Family::Offset(OffsetCall::FdWrite {
                fd: *fd,
                bytes: bytes.as_slice(),
            }),
            Call::FileCreate { fd, path, kind } => Family::Entries(EntryCall::FileCreate {
                fd: *fd,
                path: path.as_slice(),
                kind: *kind,
            }),
            Call::FileLink {
                lookup,
                path,
                new_fd,
                new_path,
            } => Family::Entries(EntryCall::FileLink {
                lookup: *lookup,
                path: path.as_slice(),
                new_fd: *new_fd,
                new_path: new_path.as_slice(),
            }),
            Call::FileRename {
                fd,
                path,
                new_fd,
                new_path,
            } => Family::Entries(EntryCall::FileRename {
                fd: *fd,
                path: path.as_slice(),
                new_fd: *new_fd,
                new_path: new_path.as_slice(),
            }),
            Call::FileSymlink { text, fd, path } => Family::Entries(EntryCall::FileSymlink {
                text: text.as_slice(),
                fd: *fd,
                path: path.as_slice(),
            }),
            Call::FileUnlink { fd, path, flags } => Family::Entries(EntryCall::FileUnlink {
                fd: *fd,
                path: path.as_slice(),
                flags: *flags,
            }),
            Call::FileOpen {
                lookup,
                path,
                oflags,
                stat,
            } => Family::Open(OpenCall {
                lookup: *lookup,
                path: path.as_slice(),
                oflags: *oflags,
                stat: *stat,
            }),
            Call::FdCreate2 { kind } => Family::Ends { kind: *kind },
            Call::SockRecv {
                fd,
                length,
                fds,
                flags,
            } => Family::Socket(SocketCall::SockRecv {
                fd: *fd,
                length: *length,
                fds: *fds,
                flags: *flags,
            }),
            Call::SockSend {
                fd,
                bytes,
                fds,
                flags,
            } => Family::Socket(SocketCall::SockSend {
                fd: *fd,
                bytes: bytes.as_slice(),
                fds: fds.as_slice(),
                flags: *flags,
            }),
            Call::SockShutdown { fd, how } => Family::Socket(SocketCall::SockShutdown {
                fd: *fd,
                how: *how,
            }),
            Call::ProcExit { code } => Family::Exit { code: *code },
            Call::ProcFork { left } => Family::Fork { left: *left },
            Call::ProcExec { fd, fds, .. } => Family::Exec {
                fd: *fd,
                fds: fds.as_slice(),
            },
            Call::ProcRaise { signal } => Family::Raise { signal: *signal },
            Call::Poll { subscriptions } => Family::Poll(subscriptions.as_slice()),
            Call::ClockResGet { clock } => Family::ClockResolution { clock: *clock },
            Call::ClockTimeGet { clock, precision } => Family::ClockTime {
                clock: *clock,
                precision: *precision,
            },
            Call::RandomGet { length } => Family::Random { length: *length },
            Call::ThreadCreate { attributes } => Family::NewThread(*attributes),
            Call::ThreadExit { lock, word, scope } => Family::ThreadExit {
                lock: *lock,
                word: *word,
                scope: *scope,
            },
            Call::FdDatasync { .. }
            | Call::FdSync { .. }
            | Call::FileAdvise { .. }
            | Call::ThreadYield => Family::Answered(Errno::Success),
            Call::Memory { errno, .. } | Call::Refused { errno, .. } => Family::Answered(*errno),
            Call::Unknown { .. } => Family::Answered(Errno::Nosys),
            Call::LockUnlock { lock, word, scope } => Family::Unlock {
                lock: *lock,
                word: *word,
                scope: *scope,
            },
            Call::CondvarSignal {
                condvar,
                word,
                scope,
                n,
            } => Family::Signal {
                condvar: *condvar,
                word: *word,
                scope: *scope,
                n: *n,
            },
            Call::FdCreate1 { .. } => Family::NotBuilt,
        }
    }
}
