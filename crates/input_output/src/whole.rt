//! A whole input read, and a whole output written.
ghost use Rattle.std.specs.Prelude.{◌≡◌, ◌≢◌, ◌≤◌, ℕ, List, length, IfOk, IsErr, OnOk, OnErr};
ghost use Rattle.input_output.specs.Source.{Lacking, Rose, IsWhole, IsLongerThan};
ghost use Rattle.input_output.specs.Sink.{grown, GrewByPrefix};
ghost use Rattle.input_output.specs.declared.whole.ReadFault.TheVariants.{Failed as read_failed};
ghost use Rattle.lists.specs.declared.stop.Stop.TheVariants.{At};

use crate::sink::Sink;
use crate::source::{Failed, Source};
use lists::{Bytes, Stop};
use std::alloc::Global;

/// The most bytes that an input may have.
pub const INPUT_LIMIT: usize = 268_435_456;

// How many bytes are asked for at a time.
const PIECE: usize = 4096;

/// Why an input wasn't read.
#[derive(Clone, Copy, Debug, PartialEq, Eq)]
pub enum ReadFault {
    /// A read failed.
    Failed,
    /// The input has more than `INPUT_LIMIT` bytes.
    TooLong,
}

impl From<Failed> for Stop<ReadFault> {
    ghost from_gives = { λ _ stop. stop ≡ At read_failed };

    fn from(_failed: Failed) -> Stop<ReadFault> {
        Stop::At(ReadFault::Failed)
    }
}

/// Reads all bytes of an input, in pieces, until a read gives none. At most `INPUT_LIMIT` bytes are accepted, so a
/// source that never ends comes to `TooLong`.
pub fn read_whole<S: Source>(
    alloc: Global,
    source: &mut S,
    name: &str,
) -> Result<Bytes, Stop<ReadFault>>
    requires { S.may_read source.old name.now }
    ensures content_stays { (n : List ℕ) → S.content source.new n ≡ S.content source.old n }
    ensures may_read_stays { (n : List ℕ) → S.may_read source.old n → S.may_read source.new n }
    ensures faults_never_fall { S.faults source.old ≤ S.faults source.new }
    ensures within_limit { IfOk result (λ bytes. length bytes ≤ INPUT_LIMIT) }
    ensures ok { IfOk result (λ bytes. IsWhole (S.content source.old name.now) bytes) }
    ensures lacking { S.content source.old name.now ≡ Lacking → IsErr result × (result ≢ Err (Stop.At ReadFault.TooLong)) }
    ensures failed { result ≡ Err (Stop.At ReadFault.Failed) → Rose (S.faults source.old) (S.faults source.new) }
    ensures too_long { result ≡ Err (Stop.At ReadFault.TooLong) → IsLongerThan INPUT_LIMIT (S.content source.old name.now) }
{
    let mut buffer = [0u8; PIECE];
    let mut bytes = Bytes::new(alloc);
    loop {
        let count = source.read_at(name, bytes.len() as u64, &mut buffer)?;
        if count == 0 {
            return Ok(bytes);
        }
        if count > INPUT_LIMIT - bytes.len() {
            return Err(Stop::At(ReadFault::TooLong));
        }
        bytes.append(&buffer[..count])?;
    }
}

/// Writes all of the bytes, in as many pieces as the sink asks for. It takes no memory.
pub fn write_whole<K: Sink>(sink: &mut K, bytes: &[u8]) -> Result<(), Failed>
    ensures faults_never_fall { K.faults sink.old ≤ K.faults sink.new }
    ensures ok { OnOk result (K.written sink.new ≡ grown (K.written sink.old) bytes.now) }
    ensures failed { OnErr result (Rose (K.faults sink.old) (K.faults sink.new)) }
    ensures failed_prefix { OnErr result (GrewByPrefix (K.written sink.old) (K.written sink.new) bytes.now) }
{
    let mut done = 0;
    while done < bytes.len() {
        done += sink.write(&bytes[done..])?;
    }
    Ok(())
}
