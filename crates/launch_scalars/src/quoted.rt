//! Quoted scalars.
ghost use Rattle.std.specs.Prelude.{◌≡◌, ◌<◌, ◌≤◌, ◌∷◌, ◌++◌, suc, IfOk, OnOk, IfSome, false, length, drop, option_map};
ghost use Rattle.lists.specs.Results.{Gives};
ghost use Rattle.launch_scalars.specs.Quoted.{in_single, in_double, quoted, reported, taken_of};
ghost use Rattle.launch_scalars.specs.PieceViews.{bytes_of, with_part, is_line_end};

use crate::escapes::{Piece, escape};
use crate::fault::LineFault;
use crate::kind::YamlKind;
use lists::Stop;
use std::alloc::{AllocError, Global};

/// What stands next in a quoted scalar.
#[derive(Clone, Copy, Drop)]
pub enum Part {
    /// The line's end.
    LineEnd,
    /// The closing quote.
    Closing,
    /// What says this.
    Saying(Piece),
    /// A backslash that begins no escape, and the byte behind it.
    WrongEscape,
}

// The first part in single quotes, in which two quotes stand for one, and what stands behind it.
fn single_part(bytes: &[u8]) -> (Part, &[u8])
    ensures reads { in_single bytes.now ≡ with_part in_single (length bytes.now) result.0 result.1.now }
    ensures shorter { is_line_end result.0 ≡ false → length result.1.now < length bytes.now }
{
    match bytes {
        [] => (Part::LineEnd, bytes),
        [b'\'', b'\'', rest @ ..] => (Part::Saying(Piece::Byte(b'\'')), rest),
        [b'\'', rest @ ..] => (Part::Closing, rest),
        [byte, rest @ ..] => (Part::Saying(Piece::Byte(*byte)), rest),
    }
}

fn behind_one(bytes: &[u8]) -> &[u8]
    ensures { result.now ≡ drop 1 bytes.now }
{
    match bytes {
        [] => bytes,
        [_, rest @ ..] => rest,
    }
}

// The part that a backslash begins, in double quotes before these bytes, and what stands behind it.
fn escaped_part(bytes: &[u8]) -> (Part, &[u8])
    ensures reads { in_double 0 (92 ∷ bytes.now) ≡ with_part (in_double 0) (suc (length bytes.now)) result.0 result.1.now }
    ensures no_longer { length result.1.now ≤ length bytes.now }
{
    match escape(bytes) {
        Some((piece, after)) => (Part::Saying(piece), after),
        None => (Part::WrongEscape, behind_one(bytes)),
    }
}

// The first part in double quotes, and what stands behind it.
fn double_part(bytes: &[u8]) -> (Part, &[u8])
    ensures reads { in_double 0 bytes.now ≡ with_part (in_double 0) (length bytes.now) result.0 result.1.now }
    ensures shorter { is_line_end result.0 ≡ false → length result.1.now < length bytes.now }
{
    match bytes {
        [] => (Part::LineEnd, bytes),
        [b'"', rest @ ..] => (Part::Closing, rest),
        [b'\\', rest @ ..] => escaped_part(rest),
        [byte, rest @ ..] => (Part::Saying(Piece::Byte(*byte)), rest),
    }
}

#[tactic(auto, unfolding(crate::specs::Quoted::quoted))]
fn next_part(quote: u8, bytes: &[u8]) -> (Part, &[u8])
    ensures reads { quoted quote bytes.now ≡ with_part (quoted quote) (length bytes.now) result.0 result.1.now }
    ensures shorter { is_line_end result.0 ≡ false → length result.1.now < length bytes.now }
{
    if quote == b'\'' {
        single_part(bytes)
    } else {
        double_part(bytes)
    }
}

/// What stands behind the closing quote of a quoted scalar, where the bytes are those behind the opening one. Nothing,
/// where it isn't closed.
pub fn after_quoted(quote: u8, bytes: &[u8]) -> Option<&[u8]>
    ensures value { option_map (λ r. r.now) result ≡ (quoted quote bytes.now).rest }
    ensures shorter { IfSome result (λ r. length r.now < length bytes.now) }
{
    let mut rest = bytes;
    loop {
        let (part, after) = next_part(quote, rest);
        match part {
            Part::LineEnd => return None,
            Part::Closing => return Some(after),
            _ => rest = after,
        }
    }
}

/// How many of the bytes behind the opening quote a quoted scalar takes, its closing quote among them.
pub fn quoted_length(quote: u8, bytes: &[u8]) -> usize
    ensures value { result ≡ taken_of (length bytes.now) (quoted quote bytes.now).rest }
    ensures inside { result ≤ length bytes.now }
{
    match after_quoted(quote, bytes) {
        None => bytes.len(),
        Some(rest) => bytes.len() - rest.len(),
    }
}

fn push(content: &mut Vec<u8>, piece: Piece) -> Result<(), AllocError>
    ensures { OnOk result (content.new.items ≡ content.old.items ++ bytes_of piece) }
{
    match piece {
        Piece::Byte(byte) => Ok(content.push(byte)?),
        Piece::Character(character) => {
            content.extend_from_slice(character.encode_utf8(&mut [0; 4]).as_bytes())
        }
    }
}

/// The content of a quoted scalar whose opening quote was read, and what stands behind the closing one. It is refused at
/// the first wrong escape, and at the line's end where it isn't closed.
pub fn quoted_content(
    alloc: Global,
    quote: u8,
    bytes: &[u8],
) -> Result<(Vec<u8>, &[u8]), Stop<LineFault>>
    ensures reads { Gives (λ c. (c.0.items, c.1.now)) result (reported (quoted quote bytes.now)) }
    ensures no_longer { IfOk result (λ c. length c.1.now ≤ length bytes.now) }
{
    let mut content = Vec::new(alloc);
    let mut rest = bytes;
    loop {
        let (part, after) = next_part(quote, rest);
        match part {
            Part::LineEnd => return Err(LineFault::stop(0, YamlKind::Quote)),
            Part::Closing => return Ok((content, after)),
            Part::Saying(piece) => push(&mut content, piece)?,
            Part::WrongEscape => return Err(LineFault::stop(rest.len(), YamlKind::Escape)),
        }
        rest = after;
    }
}
