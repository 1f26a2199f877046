//! How paths are written.
ghost use Rattle.std.specs.Prelude.{◌≡◌, ◌++◌, ◌<◌, ◌≤◌, true, IfOk, OnOk, length};
ghost use Rattle.std.specs.Fmt.{digit_glyph};
ghost use Rattle.lists.specs.Options.{Reads};
ghost use Rattle.tree_records.specs.Escapes.{is_escaped, escape, escaped};
ghost use Rattle.tree_records.specs.Reading.{digit_of, escape_at, byte_at, unescaped};

use crate::fault::{Malformed, Read};
use lists::Stop;
use std::alloc::{AllocError, Global};

// Whether a byte of a path is written as an escape.
fn is_escaped(byte: u8) -> bool
    ensures { result ≡ is_escaped byte }
{
    matches!(byte, 0..0x20 | 0x7f | b'%')
}

// What a hexadecimal digit stands for, where letters are upper-case.
fn digit(byte: u8) -> Read<u8>
    ensures value { Reads (λ n. n) result (digit_of byte) }
    ensures small { IfOk result (λ n. n < 16) }
{
    match byte {
        b'0'..=b'9' => Ok(byte - b'0'),
        b'A'..=b'F' => Ok(byte - 55),
        _ => Err(Stop::At(Malformed)),
    }
}

// The byte of an escape whose `%` was read, and what stands behind it.
fn escape(bytes: &[u8]) -> Read<(u8, &[u8])>
    ensures value { Reads (λ s. (s.0, s.1.now)) result (escape_at bytes.now) }
    ensures shorter { IfOk result (λ s. length s.1.now < length bytes.now) }
{
    match bytes {
        [high, low, rest @ ..] => {
            let byte = 16 * digit(*high)? + digit(*low)?;
            if is_escaped(byte) {
                Ok((byte, rest))
            } else {
                Err(Stop::At(Malformed))
            }
        }
        _ => Err(Stop::At(Malformed)),
    }
}

// The byte that is written at the front, and what stands behind it.
fn written_byte(text: &[u8]) -> Read<(u8, &[u8])>
    ensures value { Reads (λ s. (s.0, s.1.now)) result (byte_at text.now) }
    ensures shorter { IfOk result (λ s. length s.1.now < length text.now) }
{
    match text {
        [b'%', rest @ ..] => escape(rest),
        [byte, rest @ ..] if !is_escaped(*byte) => Ok((*byte, rest)),
        _ => Err(Stop::At(Malformed)),
    }
}

/// The bytes that a text writes.
pub fn unescape(alloc: Global, text: &[u8]) -> Read<Vec<u8>>
    ensures { Reads (λ v. v.items) result (unescaped text.now) }
{
    let mut bytes = Vec::new(alloc);
    let mut rest = text;
    while !rest.is_empty() {
        let (byte, after) = written_byte(rest)?;
        bytes.push(byte)?;
        rest = after;
    }
    Ok(bytes)
}

// The hexadecimal digit of a number below 16, of which letters are upper-case.
fn glyph(digit: u8) -> u8
    requires { digit < 16 }
    ensures { result ≡ digit_glyph true digit }
{
    if digit < 10 { b'0' + digit } else { 55 + digit }
}

fn push_escape(out: &mut Vec<u8>, byte: u8) -> Result<(), AllocError>
    ensures { OnOk result (out.new.items ≡ out.old.items ++ escape byte) }
{
    if is_escaped(byte) {
        out.extend_from_slice(&[b'%', glyph(byte / 16), glyph(byte % 16)])
    } else {
        Ok(out.push(byte)?)
    }
}

/// Writes the bytes of a path at the end.
pub fn push_escaped(out: &mut Vec<u8>, bytes: &[u8]) -> Result<(), AllocError>
    ensures { OnOk result (out.new.items ≡ out.old.items ++ escaped bytes.now) }
{
    for byte in bytes {
        push_escape(out, *byte)?;
    }
    Ok(())
}
