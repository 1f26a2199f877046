//! The entries that the kernel's calls make, from their parts.
ghost use Rattle.std.specs.Prelude.{◌≡◌};
ghost use Rattle.shared_history.specs.Entries.{act_of, entry_of, idled};

use abi_types::{Answer, Call, Pid, Tid, WakeIn};
use run_types::{Act, Entry, TurnList};
use std::alloc::Global;

/// What an entry has beside its act: the moment after it in nanoseconds, the process and thread that it is of, and the threads of the
/// process that took a turn since the process's last entry, in order.
#[derive(Drop)]
pub struct EntryHead {
    pub moment: u64,
    pub pid: Pid,
    pub tid: Tid,
    pub turns: TurnList,
}

impl EntryHead {
    /// The entry with this head and this act.
    pub fn with(self, act: Act) -> Entry
        ensures { result ≡ entry_of self act }
    {
        Entry {
            moment: self.moment,
            pid: self.pid,
            tid: self.tid,
            turns: self.turns,
            act,
        }
    }
}

/// The act by which a thread's call is answered: the call itself, or the wake of a thread that waited in it, where something was given
/// to it.
pub(crate) fn act_of(call: Call, given: Option<WakeIn>, answer: Answer) -> Act
    ensures { result ≡ act_of call given answer }
{
    match given {
        None => Act::Call { call, answer },
        Some(given) => Act::Wake {
            call,
            given,
            answer,
        },
    }
}

/// The entry of an idle jump up to this moment. It is no process's.
pub fn idle_entry(alloc: Global, moment: u64) -> Entry
    ensures { result ≡ idled moment }
{
    Entry {
        moment,
        pid: Pid(0),
        tid: Tid(0),
        turns: TurnList::new(alloc),
        act: Act::Idle,
    }
}
