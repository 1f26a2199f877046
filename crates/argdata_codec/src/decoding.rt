//! Bytes as values.
ghost use Rattle.std.specs.Prelude.{◌≡◌, IfOk, IfErr};
ghost use Rattle.argdata_codec.specs.Shape.{Shape};
ghost use Rattle.argdata_codec.specs.Views.{shape_of};
ghost use Rattle.argdata_codec.specs.Encoding.{IsArgdata, IsLongest};
ghost use Rattle.argdata_codec.specs.Faults.{Decodes, Names};

use crate::fault::Malformed;
use crate::value::Value;
use crate::{place, reading};
use lists::Stop;
use std::alloc::{AllocError, Global};
use thiserror::Error;

/// The bytes encode no value.
#[derive(Clone, Copy, Debug, Drop, PartialEq, Eq, Error)]
#[error("byte {at} can't go on")]
pub struct ArgFault {
    /// How long the longest beginning of the bytes is that begins some encoding.
    pub at: usize,
}

// The greatest number of maps and sequences that stand inside each other.
const DEPTH: usize = 64;

/// The value that the bytes encode, all of the bytes. Bytes with a length of 2^112 or more inside come to lack of memory,
/// since no memory holds what they encode.
pub fn decode(alloc: Global, bytes: &[u8]) -> Result<Value, Stop<ArgFault>>
    // What is decoded is encoded so.
    ensures found { IfOk result (λ value. IsArgdata (shape_of value) bytes.now) }
    // What is encoded so is decoded, unless memory runs out.
    ensures only { (x : Shape) → IsArgdata x bytes.now → Decodes x result }
    // Where the fault is, of all beginnings of the bytes.
    ensures fault { IfErr result (λ stop. Names stop bytes.now) }
{
    match reading::value(alloc, DEPTH, bytes) {
        Ok(value) => Ok(value),
        Err(Stop::Memory) => Err(Stop::Memory),
        Err(Stop::At(Malformed)) => Err(Stop::At(fault(alloc, bytes)?)),
    }
}

// The place of the fault, if there is memory to find it.
fn fault(alloc: Global, bytes: &[u8]) -> Result<ArgFault, AllocError>
    ensures { IfOk result (λ fault. IsLongest bytes.now fault.at) }
{
    Ok(ArgFault {
        at: place::value(alloc, DEPTH, None, bytes)?,
    })
}
