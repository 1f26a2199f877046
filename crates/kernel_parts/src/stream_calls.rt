//! The calls that read from a standard stream or write to it.
ghost use Rattle.std.specs.Prelude.{ℕ, IsSome, true};
ghost use Rattle.std.specs.FinMap as map;
ghost use Rattle.abi_types.specs.Families.{call_of_offset};
ghost use Rattle.kernel_model.specs.Calls.{takes_memory};
ghost use Rattle.kernel_parts.specs.StreamCalls.{IsStreamDone, stream_outcome};
ghost use Rattle.kernel_model.specs.Families.StreamCalls.{read_term, write_term};

use crate::terminal::Terminal;
use abi_types::{Answer, Errno, OffsetCall, Payload};
use maps::NumMap;
use right_rules::{refused, success, success_with};
use std::alloc::{AllocError, Global};

// Writes the bytes to a standard stream. `Err` changes nothing.
fn write_term(terms: &mut NumMap<Terminal>, which: u32, bytes: &[u8]) -> Result<Answer, AllocError>
    ensures done { IsStreamDone true (write_term bytes.now which (map.get terms.old which)) terms.old terms.new result }
    ensures there { (k : ℕ) → IsSome (map.get terms.old k) → IsSome (map.get terms.new k) }
{
    if !terms.contains(u64::from(which)) {
        return Ok(Answer::Reply(refused(Errno::Badf)));
    }
    let stream = terms.get_mut(u64::from(which));
    match stream.write(bytes) {
        Ok(()) => Ok(Answer::Reply(success(bytes.len() as u64, 0))),
        Err(error) => Err(error),
    }
}

// Reads from a standard stream at most so many bytes. `Err` changes nothing.
fn read_term(
    alloc: Global,
    terms: &mut NumMap<Terminal>,
    which: u32,
    most: u64,
) -> Result<Answer, AllocError>
    ensures done { IsStreamDone true (read_term most which (map.get terms.old which)) terms.old terms.new result }
    ensures there { (k : ℕ) → IsSome (map.get terms.old k) → IsSome (map.get terms.new k) }
{
    if !terms.contains(u64::from(which)) {
        return Ok(Answer::Reply(refused(Errno::Badf)));
    }
    let stream = terms.get_mut(u64::from(which));
    match stream.read(alloc, most) {
        Ok(bytes) => {
            let count = bytes.len() as u64;
            Ok(Answer::Reply(success_with(count, Payload::Content(bytes))))
        }
        Err(error) => Err(error),
    }
}

/// Does a call on a standard stream. `Err` comes only of a call that takes memory and would else succeed, and changes nothing.
pub fn on_stream(
    alloc: Global,
    terms: &mut NumMap<Terminal>,
    which: u32,
    call: OffsetCall<'_>,
) -> Result<Answer, AllocError>
    ensures done { IsStreamDone (takes_memory (call_of_offset call.entry)) (stream_outcome (call_of_offset call.entry) which (map.get terms.old which)) terms.old terms.new result }
    ensures there { (k : ℕ) → IsSome (map.get terms.old k) → IsSome (map.get terms.new k) }
{
    match call {
        OffsetCall::FdRead { length, .. } => read_term(alloc, terms, which, length),
        OffsetCall::FdWrite { bytes, .. } => write_term(terms, which, bytes),
        OffsetCall::FdSeek { .. } => Ok(Answer::Reply(refused(Errno::Badf))),
    }
}
