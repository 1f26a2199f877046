//! Calls of the kernel.
ghost use Rattle.std.specs.Prelude.{◌≡◌};
ghost use Rattle.abi_types.specs.Numbers.{number_of_call};

use crate::call_number::CallNumber;
use crate::copied::{FdList, SubscriptionList};
use crate::place::Place;
use abi_base::Errno;
use abi_structures::{FdStat, FileStat, ThreadAttr};
use lists::Bytes;

/// Where a path begins that a call treats: a descriptor, and lookup flags, of which
/// `LOOKUP_SYMLINK_FOLLOW` is the only one.
#[derive(Clone, Copy, Debug, PartialEq, Eq)]
pub struct Lookup {
    pub fd: u32,
    pub flags: u32,
}

/// A call, as the registers and the memory of its thread encode it, with its arguments in their order (docs/ABI.md has the
/// numbers). In place of an address and a length of input it has the bytes, of which a path of over 1024 is 1025 zeros; in
/// place of an array of iovecs the bytes to write, or the length to read, of at most 65,536; in place of a structure's
/// address its fields; beside the address of a lock or a condition variable the word that was read there; and no address
/// of output.
#[derive(Drop)]
pub enum Call {
    /// The resolution of a clock.
    ClockResGet {
        clock: u32,
    },
    /// The time of a clock.
    ClockTimeGet {
        clock: u32,
        precision: u64,
    },
    /// Wakes up to `n` threads that wait at a condition variable.
    CondvarSignal {
        condvar: u64,
        word: u32,
        scope: u32,
        n: u32,
    },
    /// Takes a descriptor away.
    FdClose {
        fd: u32,
    },
    /// Makes an open of a type that has one descriptor.
    FdCreate1 {
        kind: u32,
    },
    /// Makes two opens: the ends of a pipe or of a pair of streams.
    FdCreate2 {
        kind: u32,
    },
    /// Waits until written bytes are stored.
    FdDatasync {
        fd: u32,
    },
    /// A second number for a descriptor.
    FdDup {
        fd: u32,
    },
    /// Reads at most so many bytes of a file from an offset on.
    FdPread {
        fd: u32,
        length: u64,
        offset: u64,
    },
    /// Writes the bytes to a file from an offset on.
    FdPwrite {
        fd: u32,
        bytes: Bytes,
        offset: u64,
    },
    /// Reads at most so many bytes.
    FdRead {
        fd: u32,
        length: u64,
    },
    /// Gives the number `to` what `from` stands for.
    FdReplace {
        from: u32,
        to: u32,
    },
    /// Moves a file's offset, from its start, from where it is or from the file's end on.
    FdSeek {
        fd: u32,
        offset: u64,
        whence: u32,
    },
    /// What a descriptor is and may do.
    FdStatGet {
        fd: u32,
    },
    /// Sets a descriptor's flags, or lowers its rights.
    FdStatPut {
        fd: u32,
        stat: FdStat,
        flags: u32,
    },
    /// Waits until written bytes and times are stored.
    FdSync {
        fd: u32,
    },
    /// Writes the bytes.
    FdWrite {
        fd: u32,
        bytes: Bytes,
    },
    /// Says how a part of a file will be used.
    FileAdvise {
        fd: u32,
        offset: u64,
        length: u64,
        advice: u32,
    },
    /// Makes a file at least so long.
    FileAllocate {
        fd: u32,
        offset: u64,
        length: u64,
    },
    /// Makes a directory.
    FileCreate {
        fd: u32,
        path: Bytes,
        kind: u32,
    },
    /// Gives a file another name.
    FileLink {
        lookup: Lookup,
        path: Bytes,
        new_fd: u32,
        new_path: Bytes,
    },
    /// Opens a file or a directory, with the flags and the rights that `stat` asks.
    FileOpen {
        lookup: Lookup,
        path: Bytes,
        oflags: u32,
        stat: FdStat,
    },
    /// The entries of a directory from a place on, in at most so many bytes.
    FileReaddir {
        fd: u32,
        length: u64,
        cookie: u64,
    },
    /// A symbolic link's text, of which at most so many bytes.
    FileReadlink {
        fd: u32,
        path: Bytes,
        length: u64,
    },
    /// Gives a file another name in place of its name.
    FileRename {
        fd: u32,
        path: Bytes,
        new_fd: u32,
        new_path: Bytes,
    },
    /// What a descriptor's file is.
    FileStatFget {
        fd: u32,
    },
    /// Sets the size or the times of a descriptor's file.
    FileStatFput {
        fd: u32,
        stat: FileStat,
        flags: u32,
    },
    /// What the file at a path is.
    FileStatGet {
        lookup: Lookup,
        path: Bytes,
    },
    /// Sets the times of the file at a path.
    FileStatPut {
        lookup: Lookup,
        path: Bytes,
        stat: FileStat,
        flags: u32,
    },
    /// Makes a symbolic link with this text.
    FileSymlink {
        text: Bytes,
        fd: u32,
        path: Bytes,
    },
    /// Takes a name away.
    FileUnlink {
        fd: u32,
        path: Bytes,
        flags: u32,
    },
    /// Lets a lock go.
    LockUnlock {
        lock: u64,
        word: u32,
        scope: u32,
    },
    /// Maps so many bytes at a place: zeros, or those of a file from an offset on.
    MemMap {
        place: Place,
        length: u64,
        prot: u32,
        flags: u32,
        fd: u32,
        offset: u64,
    },
    /// mem_advise, mem_protect, mem_sync or mem_unmap, and what it answers by its arguments and the caller's memory.
    Memory {
        number: CallNumber,
        errno: Errno,
    },
    /// Waits until one of the things comes about. At most 256.
    Poll {
        subscriptions: SubscriptionList,
    },
    /// Puts the program that the descriptor stands for in the process's place, with argument data and with these descriptors,
    /// at most 1024.
    ProcExec {
        fd: u32,
        bytes: Bytes,
        fds: FdList,
    },
    /// Ends the process with a code.
    ProcExit {
        code: u32,
    },
    /// Makes a second process of this one, which has so many turns left.
    ProcFork {
        left: u64,
    },
    /// Sends the process a signal.
    ProcRaise {
        signal: u32,
    },
    /// So many random bytes.
    RandomGet {
        length: u64,
    },
    /// Receives at most so many bytes and at most `fds` descriptors.
    SockRecv {
        fd: u32,
        length: u64,
        fds: u64,
        flags: u16,
    },
    /// Sends the bytes and the descriptors, at most 16.
    SockSend {
        fd: u32,
        bytes: Bytes,
        fds: FdList,
        flags: u16,
    },
    /// Shuts one direction of a socket, or both.
    SockShutdown {
        fd: u32,
        how: u32,
    },
    /// Makes a thread.
    ThreadCreate {
        attributes: ThreadAttr,
    },
    /// Lets a lock go and ends the thread.
    ThreadExit {
        lock: u64,
        word: u32,
        scope: u32,
    },
    /// Ends the thread's turn.
    ThreadYield,
    /// A call that is refused before the kernel looks at it.
    Refused {
        number: CallNumber,
        errno: Errno,
    },
    /// A number, from 49 on, that no call has.
    Unknown {
        number: u64,
    },
}

impl Call {
    /// Which of the 49 calls it is, or the number that none of them has.
    pub fn number(&self) -> Result<CallNumber, u64>
        ensures { result ≡ number_of_call self.now }
    {
        match self {
            Call::ClockResGet { .. } => Ok(CallNumber::ClockResGet),
            Call::ClockTimeGet { .. } => Ok(CallNumber::ClockTimeGet),
            Call::CondvarSignal { .. } => Ok(CallNumber::CondvarSignal),
            Call::FdClose { .. } => Ok(CallNumber::FdClose),
            Call::FdCreate1 { .. } => Ok(CallNumber::FdCreate1),
            Call::FdCreate2 { .. } => Ok(CallNumber::FdCreate2),
            Call::FdDatasync { .. } => Ok(CallNumber::FdDatasync),
            Call::FdDup { .. } => Ok(CallNumber::FdDup),
            Call::FdPread { .. } => Ok(CallNumber::FdPread),
            Call::FdPwrite { .. } => Ok(CallNumber::FdPwrite),
            Call::FdRead { .. } => Ok(CallNumber::FdRead),
            Call::FdReplace { .. } => Ok(CallNumber::FdReplace),
            Call::FdSeek { .. } => Ok(CallNumber::FdSeek),
            Call::FdStatGet { .. } => Ok(CallNumber::FdStatGet),
            Call::FdStatPut { .. } => Ok(CallNumber::FdStatPut),
            Call::FdSync { .. } => Ok(CallNumber::FdSync),
            Call::FdWrite { .. } => Ok(CallNumber::FdWrite),
            Call::FileAdvise { .. } => Ok(CallNumber::FileAdvise),
            Call::FileAllocate { .. } => Ok(CallNumber::FileAllocate),
            Call::FileCreate { .. } => Ok(CallNumber::FileCreate),
            Call::FileLink { .. } => Ok(CallNumber::FileLink),
            Call::FileOpen { .. } => Ok(CallNumber::FileOpen),
            Call::FileReaddir { .. } => Ok(CallNumber::FileReaddir),
            Call::FileReadlink { .. } => Ok(CallNumber::FileReadlink),
            Call::FileRename { .. } => Ok(CallNumber::FileRename),
            Call::FileStatFget { .. } => Ok(CallNumber::FileStatFget),
            Call::FileStatFput { .. } => Ok(CallNumber::FileStatFput),
            Call::FileStatGet { .. } => Ok(CallNumber::FileStatGet),
            Call::FileStatPut { .. } => Ok(CallNumber::FileStatPut),
            Call::FileSymlink { .. } => Ok(CallNumber::FileSymlink),
            Call::FileUnlink { .. } => Ok(CallNumber::FileUnlink),
            Call::LockUnlock { .. } => Ok(CallNumber::LockUnlock),
            Call::MemMap { .. } => Ok(CallNumber::MemMap),
            Call::Poll { .. } => Ok(CallNumber::Poll),
            Call::ProcExec { .. } => Ok(CallNumber::ProcExec),
            Call::ProcExit { .. } => Ok(CallNumber::ProcExit),
            Call::ProcFork { .. } => Ok(CallNumber::ProcFork),
            Call::ProcRaise { .. } => Ok(CallNumber::ProcRaise),
            Call::RandomGet { .. } => Ok(CallNumber::RandomGet),
            Call::SockRecv { .. } => Ok(CallNumber::SockRecv),
            Call::SockSend { .. } => Ok(CallNumber::SockSend),
            Call::SockShutdown { .. } => Ok(CallNumber::SockShutdown),
            Call::ThreadCreate { .. } => Ok(CallNumber::ThreadCreate),
            Call::ThreadExit { .. } => Ok(CallNumber::ThreadExit),
            Call::ThreadYield => Ok(CallNumber::ThreadYield),
            Call::Memory { number, .. } | Call::Refused { number, .. } => Ok(*number),
            Call::Unknown { number } => Err(*number),
        }
    }
}
