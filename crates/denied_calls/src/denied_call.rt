//! A denied call, as a report shows it.
ghost use Rattle.std.specs.Prelude.{◌≡◌};
ghost use Rattle.denied_calls.specs.DeniedCalls.{denied_by, denied_entry};

use abi_types::{Answer, Call, CallNumber, Denial, Pid, Reply, Tid};
use run_types::{Act, Entry};

/// A denied call: its process and thread, which of the 49 calls it was, or the number that none of them has, and why it was denied.
#[derive(Clone, Copy)]
pub struct DeniedCall {
    pub pid: Pid,
    pub tid: Tid,
    pub number: Result<CallNumber, u64>,
    pub denial: Denial,
}

impl DeniedCall {
    /// What is said of a thread's call, if its answer is a denial. Where the thread waits nothing is denied.
    pub fn of_call(pid: Pid, tid: Tid, call: &Call, answer: &Answer) -> Option<DeniedCall>
        ensures { result ≡ denied_by pid tid call.now answer.now }
    {
        match answer {
            Answer::Reply(
                Reply {
                    denial: Some(denial),
                    ..
                },
            ) => Some(DeniedCall {
                pid,
                tid,
                number: call.number(),
                denial: *denial,
            }),
            _ => None,
        }
    }

    /// What is said of an entry, if it is of a call, or of a wake, whose answer is a denial.
    pub fn of_entry(entry: &Entry) -> Option<DeniedCall>
        ensures { result ≡ denied_entry entry.now }
    {
        match &entry.act {
            Act::Call { call, answer } | Act::Wake { call, answer, .. } => {
                DeniedCall::of_call(entry.pid, entry.tid, call, answer)
            }
            Act::Trap(_) | Act::Expire | Act::Idle => None,
        }
    }
}
