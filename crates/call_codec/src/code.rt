//! Which answers may change a program's code.
ghost use Rattle.std.specs.Prelude.{◌≡◌, ◌≤◌, ◌^◌, IsFalse};
ghost use Rattle.call_codec.specs.MemoryCalls.{changed_by, changed_pages};
ghost use Rattle.call_codec.specs.Put.{AnswerKeepsCode};

use crate::memory_calls::pages_in;
use abi_types::{Answer, Call, CallNumber, Errno, Place, Regs};
use guest_memory::GuestMemory;

/// Whether an answer may change a page that can be executed and not written. Where it says no, none is changed. The memory has the
/// room for the answer, which isn't executed.
pub fn may_change_code(regs: &Regs, memory: &GuestMemory, call: &Call, answer: &Answer) -> bool
    ensures { IsFalse result → AnswerKeepsCode memory.now regs.now call.now answer.now }
{
    match answer {
        Answer::Parked(_) => false,
        Answer::Reply(reply) => {
            let (at, pages) = changed_pages(regs, call);
            reply.errno == Errno::Success && memory.has_executable(at, pages)
        }
    }
}

// The address from which on a call changes pages or their rights, where it succeeds, and of how many pages.
fn changed_pages(regs: &Regs, call: &Call) -> (u64, u64)
    ensures is { result ≡ changed_pages regs.now call.now }
    ensures few { result.1 ≤ 2 ^ 52 }
{
    match call {
        Call::MemMap {
            place: Place::At(at),
            length,
            ..
        } => (*at, pages_in(*length)),
        Call::Memory { number, .. } => changed_by(regs, *number),
        _ => (0, 0),
    }
}

// The same of a call about pages that are there.
fn changed_by(regs: &Regs, call: CallNumber) -> (u64, u64)
    ensures is { result ≡ changed_by regs.now call }
    ensures few { result.1 ≤ 2 ^ 52 }
{
    match call {
        CallNumber::MemProtect | CallNumber::MemUnmap => (regs.get(10), pages_in(regs.get(11))),
        _ => (0, 0),
    }
}
