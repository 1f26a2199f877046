//! What a scalar means.
ghost use Rattle.std.specs.Prelude.{◌≡◌, ◌<◌, ◌≤◌, IfOk, IsTrue, Ok, None, false, length, List, ℕ, [], ◌∷◌, codes};
ghost use Rattle.std.specs.Result.{result_map_both};
ghost use Rattle.base64.specs.GeneralPurpose.{decode_of};
ghost use Rattle.base64.specs.Engines.{standard};
ghost use Rattle.lists.specs.Results.{Gives};
ghost use Rattle.launch_scalars.specs.Results.{at_place};
ghost use Rattle.launch_values.specs.Views.{content_of_value};
ghost use Rattle.launch_scalars.specs.Numbers.{is_word, integer_of};
ghost use Rattle.launch_scalars.specs.Spaces.{begins_with};
ghost use Rattle.launch_values.specs.Resolution.{ranged, number_or_text, resolved, decoded, meaning, scalar_value};
ghost use Rattle.launch_values.specs.KeySets.{IsScalarKey, IsScalarOf, is_bytes};

use crate::integer::Integer;
use crate::mode::Mode;
use crate::node::NodeValue;
use crate::node_text::NodeText;
use base64::DecodeAllocError;
use base64::engine::general_purpose::STANDARD;
use launch_scalars::numbers::{integer, is_float};
use launch_scalars::scalars::{Scalar, scalar_at};
use launch_scalars::{LineFault, YamlKind};
use lists::{Bytes, Stop, Text};
use std::alloc::Global;

fn is_null(bytes: &[u8]) -> bool
    ensures { result ≡ is_word (codes "~" ∷ codes "null" ∷ codes "Null" ∷ codes "NULL" ∷ []) bytes.now }
{
    matches!(bytes, b"~" | b"null" | b"Null" | b"NULL")
}

fn is_true(bytes: &[u8]) -> bool
    ensures { result ≡ is_word (codes "true" ∷ codes "True" ∷ codes "TRUE" ∷ []) bytes.now }
{
    matches!(bytes, b"true" | b"True" | b"TRUE")
}

fn is_false(bytes: &[u8]) -> bool
    ensures { result ≡ is_word (codes "false" ∷ codes "False" ∷ codes "FALSE" ∷ []) bytes.now }
{
    matches!(bytes, b"false" | b"False" | b"FALSE")
}

// Integers go from -2^63 to 2^64 - 1.
fn ranged(integer: i128) -> Result<NodeValue, YamlKind>
    ensures means { result_map_both content_of_value (λ kind. kind) result ≡ ranged integer }
    ensures scalar { IfOk result (λ v. IsScalarKey (content_of_value v)) }
{
    if -(1 << 63) <= integer && integer < 1 << 64 {
        Ok(NodeValue::Int(Integer::of(integer)))
    } else {
        Err(YamlKind::IntegerRange)
    }
}

// What is neither null, nor a bool, nor an integer.
fn float_or_text(content: NodeText) -> Result<NodeValue, YamlKind>
    ensures means { result_map_both content_of_value (λ kind. kind) result ≡ number_or_text content None }
    ensures scalar { IfOk result (λ v. IsScalarKey (content_of_value v)) }
{
    if is_float(content.as_bytes()) {
        Err(YamlKind::Float)
    } else {
        Ok(NodeValue::Str(content))
    }
}

// What is neither null nor a bool.
fn number_or_text(content: NodeText) -> Result<NodeValue, YamlKind>
    ensures means { result_map_both content_of_value (λ kind. kind) result ≡ number_or_text content (integer_of content) }
    ensures scalar { IfOk result (λ v. IsScalarKey (content_of_value v)) }
{
    match integer(content.as_bytes()) {
        Some(integer) => ranged(integer),
        None => float_or_text(content),
    }
}

// What a plain scalar without a tag means.
#[tactic(auto, unfolding(crate::specs::Resolution::resolved))]
fn resolved(content: NodeText) -> Result<NodeValue, YamlKind>
    ensures means { result_map_both content_of_value (λ kind. kind) result ≡ resolved content }
    ensures scalar { IfOk result (λ v. IsScalarKey (content_of_value v)) }
{
    let bytes = content.as_bytes();
    if is_null(bytes) {
        Ok(NodeValue::Null)
    } else if is_true(bytes) {
        Ok(NodeValue::Bool(true))
    } else if is_false(bytes) {
        Ok(NodeValue::Bool(false))
    } else {
        number_or_text(content)
    }
}

// What was found out without a place, at a place.
fn at_place(place: usize, found: Result<NodeValue, YamlKind>) -> Result<NodeValue, Stop<LineFault>>
    ensures gives { Gives content_of_value result (at_place place (result_map_both content_of_value (λ kind. kind) found)) }
    ensures same { IfOk result (λ v. found ≡ Ok v) }
{
    match found {
        Ok(value) => Ok(value),
        Err(kind) => Err(Stop::At(LineFault { left: place, kind })),
    }
}

// The bytes of a scalar in base64 that stands at the place.
fn decoded(alloc: Global, place: usize, content: Text) -> Result<NodeValue, Stop<LineFault>>
    ensures gives { Gives content_of_value result (at_place place (decoded (decode_of standard content))) }
    ensures bytes { IfOk result (λ v. IsTrue (is_bytes (content_of_value v))) }
{
    match STANDARD.decode(alloc, content.as_bytes()) {
        Ok(bytes) => Ok(NodeValue::Binary(Bytes::from_vec(bytes))),
        Err(DecodeAllocError::OutOfMemory) => Err(Stop::Memory),
        Err(DecodeAllocError::DecodeError(_)) => Err(LineFault::stop(place, YamlKind::Base64)),
    }
}

// What a scalar at the place means, as its tag says.
fn meaning(
    alloc: Global,
    place: usize,
    mode: Mode,
    scalar: Scalar,
) -> Result<NodeValue, Stop<LineFault>>
    ensures gives { (rest : List ℕ) → Gives content_of_value result (at_place place (meaning mode (record { plain = scalar.is_plain; content = scalar.content; rest = rest }))) }
    ensures scalar { IfOk result (λ v. IsScalarOf mode (content_of_value v)) }
{
    let Scalar { is_plain, content } = scalar;
    match mode {
        Mode::Resolved => {
            let text = NodeText::of(alloc, content.as_str())?;
            if is_plain {
                at_place(place, resolved(text))
            } else {
                Ok(NodeValue::Str(text))
            }
        }
        Mode::Verbatim => Ok(NodeValue::Str(NodeText::of(alloc, content.as_str())?)),
        Mode::Base64 => decoded(alloc, place, content),
    }
}

/// The value of the scalar at the front, and what stands behind it. A fault of what it means is at its first byte.
#[tactic(auto, unfolding(crate::specs::Resolution::scalar_value))]
pub fn scalar_value(
    alloc: Global,
    mode: Mode,
    in_flow: bool,
    bytes: &[u8],
) -> Result<(NodeValue, &[u8]), Stop<LineFault>>
    ensures reads { Gives (λ v. (content_of_value v.0, v.1.now)) result (scalar_value mode in_flow bytes.now) }
    ensures scalar { IfOk result (λ v. IsScalarOf mode (content_of_value v.0)) }
    ensures no_longer { IfOk result (λ v. length v.1.now ≤ length bytes.now) }
    ensures shorter { IfOk result (λ v. begins_with 32 bytes.now ≡ false → length v.1.now < length bytes.now) }
{
    let (scalar, rest) = scalar_at(alloc, in_flow, bytes)?;
    Ok((meaning(alloc, bytes.len(), mode, scalar)?, rest))
}
