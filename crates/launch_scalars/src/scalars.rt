//! Scalars, without what they mean.
ghost use Rattle.std.specs.Prelude.{◌≡◌, ◌<◌, ◌≤◌, ◌-◌, ◌∷◌, IfOk, IfSome, length, take, drop};
ghost use Rattle.std.specs.Str.{IsUtf8};
ghost use Rattle.lists.specs.Results.{Gives};
ghost use Rattle.launch_scalars.specs.Characters.{bad_at};
ghost use Rattle.lists.specs.declared.stop.Stop.TheVariants.{At};
ghost use Rattle.launch_scalars.specs.declared.kind.YamlKind.TheVariants as kinds;
ghost use Rattle.launch_scalars.specs.Scalars.{Scalar as ScalarOf, quoted_at, plain_at, scalar_at};

use crate::characters::bad_at;
use crate::fault::LineFault;
use crate::kind::YamlKind;
use crate::plain::{begins_plain, plain_length, wrong_beginning};
use crate::quoted::{quoted_content, quoted_length};
use crate::spaces::without_last_spaces;
use lists::{Stop, Text};
use std::alloc::Global;

/// A scalar.
#[derive(Drop)]
pub struct Scalar {
    /// It has no quotes.
    pub is_plain: bool,
    /// What it says.
    pub content: Text,
}

fn text(content: Vec<u8>) -> Text
    requires { IsUtf8 content.items }
    ensures { result ≡ content.items }
{
    match String::from_utf8(content) {
        Ok(text) => Text::from_string(text),
        Err(_) => unreachable!(),
    }
}

/// How many bytes stand before the first that may not be in a text, of so many bytes at the front.
pub fn bad_before(bytes: &[u8], count: usize) -> Option<usize>
    requires { count ≤ length bytes.now }
    ensures value { result ≡ bad_at (take count bytes.now) }
    ensures inside { IfSome result (λ n. n ≤ length bytes.now) }
{
    bad_at(&bytes[..count])
}

// A fault of a character, so many bytes behind the front.
fn bad_character(bytes: &[u8], count: usize) -> Stop<LineFault>
    requires { count ≤ length bytes.now }
    ensures { result ≡ At (record { left = length bytes.now - count; kind = kinds.Character }) }
{
    LineFault::stop(bytes.len() - count, YamlKind::Character)
}

// The quoted scalar at the front, whose quote is this one.
fn quoted_scalar<'a>(
    alloc: Global,
    quote: u8,
    bytes: &'a [u8],
    inside: &'a [u8],
) -> Result<(Scalar, &'a [u8]), Stop<LineFault>>
    requires quote { quote < 128 }
    requires whole { bytes.now ≡ quote ∷ inside.now }
    ensures reads { Gives (λ s. record { plain = s.0.is_plain; content = s.0.content; rest = s.1.now }) result (quoted_at quote inside.now) }
    ensures shorter { IfOk result (λ s. length s.1.now < length bytes.now) }
{
    let count = 1 + quoted_length(quote, inside);
    if let Some(place) = bad_before(bytes, count) {
        return Err(bad_character(bytes, place));
    }
    let (content, rest) = quoted_content(alloc, quote, inside)?;
    let content = text(content);
    let is_plain = false;
    Ok((Scalar { is_plain, content }, rest))
}

// The plain scalar at the front, of so many bytes.
fn plain_scalar(
    alloc: Global,
    bytes: &[u8],
    count: usize,
) -> Result<(Scalar, &[u8]), Stop<LineFault>>
    requires { count ≤ length bytes.now }
    ensures reads { Gives (λ s. record { plain = s.0.is_plain; content = s.0.content; rest = s.1.now }) result (plain_at count bytes.now) }
    ensures rest { IfOk result (λ s. s.1.now ≡ drop count bytes.now) }
{
    if let Some(place) = bad_before(bytes, count) {
        return Err(bad_character(bytes, place));
    }
    let (front, rest) = bytes.split_at(count);
    let content = text(Vec::from_slice(alloc, without_last_spaces(front))?);
    let is_plain = true;
    Ok((Scalar { is_plain, content }, rest))
}

/// The scalar at the front, and what stands behind it. It is refused at the front where none may begin there, at its first
/// byte that may not be in a text, at a wrong escape, and at the line's end where a quote isn't closed.
#[tactic(auto, unfolding(crate::specs::Scalars::scalar_at))]
pub fn scalar_at(
    alloc: Global,
    in_flow: bool,
    bytes: &[u8],
) -> Result<(Scalar, &[u8]), Stop<LineFault>>
    ensures reads { Gives (λ s. record { plain = s.0.is_plain; content = s.0.content; rest = s.1.now }) result (scalar_at in_flow bytes.now) }
    ensures shorter { IfOk result (λ s. length s.1.now < length bytes.now) }
{
    match bytes {
        [] => Err(LineFault::stop(0, YamlKind::Character)),
        [quote @ (b'"' | b'\''), inside @ ..] => quoted_scalar(alloc, *quote, bytes, inside),
        [first, after @ ..] if begins_plain(in_flow, *first, after) => {
            plain_scalar(alloc, bytes, plain_length(in_flow, bytes))
        }
        [first, ..] => Err(LineFault::stop(bytes.len(), wrong_beginning(*first))),
    }
}
