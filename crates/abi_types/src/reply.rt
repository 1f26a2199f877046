//! What calls answer.
use crate::copied::{EventList, FdList};
use crate::descriptor::Denial;
use abi_base::Errno;
use abi_structures::{Event, FdStat, FileStat};
use lists::{Bytes, TryClone};
use std::alloc::AllocError;

/// What a call that succeeds gives beside its two results, for the places of its output.
#[derive(Drop)]
pub enum Payload {
    Nothing,
    /// Bytes of a file, a stream, a directory, a link's text or random ones.
    Content(Bytes),
    FdStat(FdStat),
    FileStat(FileStat),
    /// The one event of a wait for a lock or a condition variable.
    Event(Event),
    Events(EventList),
    /// What came by a socket: bytes, descriptors by their new numbers, and flags.
    Received {
        bytes: Bytes,
        fds: FdList,
        flags: u16,
    },
    /// How many bytes were sent.
    Sent(u64),
    /// Another program for the process, with its random canary.
    Image {
        elf: Bytes,
        canary: Bytes,
    },
    /// The number of the process that the call has made. The caller isn't told it: the run makes the child by it.
    Child(u32),
}

/// A word of the caller's memory, a lock or a condition variable, that is written.
#[derive(Clone, Copy, Debug, PartialEq, Eq)]
pub struct WordWrite {
    pub address: u64,
    pub word: u32,
}

/// The words that a call writes, in their order. There are at most two, so none takes memory.
#[derive(Clone, Copy, Debug, PartialEq, Eq)]
pub enum WordWrites {
    Zero,
    One(WordWrite),
    Two(WordWrite, WordWrite),
}

/// What a call answers: an error; two results, what it gives beside them, and the words that it writes, which are 0 and
/// nothing unless the error is `Success`; and why it was denied.
#[derive(Drop)]
pub struct Reply {
    pub errno: Errno,
    pub r1: u64,
    pub r2: u64,
    pub payload: Payload,
    pub writes: WordWrites,
    pub denial: Option<Denial>,
}

/// What the kernel answers to a call at once.
#[derive(Drop)]
pub enum Answer {
    /// The thread waits in the call; these words are written as it begins to.
    Parked(WordWrites),
    /// The call is done, with this reply.
    Reply(Reply),
}

impl TryClone for Payload {
    fn copy(&self) -> Result<Self, AllocError> {
        match self {
            Payload::Nothing => Ok(Payload::Nothing),
            Payload::Content(bytes) => Ok(Payload::Content(bytes.copy()?)),
            Payload::FdStat(stat) => Ok(Payload::FdStat(*stat)),
            Payload::FileStat(stat) => Ok(Payload::FileStat(*stat)),
            Payload::Event(event) => Ok(Payload::Event(*event)),
            Payload::Events(events) => Ok(Payload::Events(events.copy()?)),
            Payload::Received { bytes, fds, flags } => Ok(Payload::Received {
                bytes: bytes.copy()?,
                fds: fds.copy()?,
                flags: *flags,
            }),
            Payload::Sent(count) => Ok(Payload::Sent(*count)),
            Payload::Image { elf, canary } => Ok(Payload::Image {
                elf: elf.copy()?,
                canary: canary.copy()?,
            }),
            Payload::Child(child) => Ok(Payload::Child(*child)),
        }
    }
}

impl TryClone for Reply {
    fn copy(&self) -> Result<Self, AllocError> {
        Ok(Reply {
            errno: self.errno,
            r1: self.r1,
            r2: self.r2,
            payload: self.payload.copy()?,
            writes: self.writes,
            denial: self.denial,
        })
    }
}

impl TryClone for Answer {
    fn copy(&self) -> Result<Self, AllocError> {
        match self {
            Answer::Parked(writes) => Ok(Answer::Parked(*writes)),
            Answer::Reply(reply) => Ok(Answer::Reply(reply.copy()?)),
        }
    }
}
