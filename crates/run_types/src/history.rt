//! The entries that make the history of a run.
use crate::turn_list::TurnList;
use abi_types::{Answer, Call, Pid, Signal, Tid, WakeIn};

/// What an entry of a history does.
#[derive(Drop)]
pub enum Act {
    /// A thread's call, and what the kernel answered.
    Call {
        call: Call,
        answer: Answer,
    },
    /// A thread that waited in a call goes on: the call that it made when it began to wait, what the wake is given by its
    /// memory, and what the kernel answered.
    Wake {
        call: Call,
        given: WakeIn,
        answer: Answer,
    },
    /// A thread's instruction trapped, and its process ended by this signal.
    Trap(Signal),
    /// A thread's turn would have been next, and its process had no turn left.
    Expire,
    /// All threads wait, none is ready, and the time goes to the next deadline.
    Idle,
}

/// An entry: the moment after it in nanoseconds, the process and thread that it is of, the threads of the process that
/// took a turn since the process's last entry, in order, and what it does.
#[derive(Drop)]
pub struct Entry {
    pub moment: u64,
    pub pid: Pid,
    pub tid: Tid,
    pub turns: TurnList,
    pub act: Act,
}
