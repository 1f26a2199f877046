//! Values as bytes.
ghost use Rattle.std.specs.Prelude.{◌≡◌, ◌+◌, ◌*◌, ◌^◌, ◌/◌, ◌<◌, ◌≤◌, ◌∷◌, ◌++◌, map, IfOk, OnOk, length};
ghost use Rattle.argdata_codec.specs.Shape.{of_list, of_pairs, integer as integer_shape};
ghost use Rattle.argdata_codec.specs.Views.{shape_of, pair_of};
ghost use Rattle.argdata_codec.specs.Encoding.{Encodes, CanBeEncoded, steps};
ghost use Rattle.argdata_codec.specs.Writing.{groups_of, length_bytes, further_bytes, width_of, encoding, field_of, item_fields, pair_fields};

use crate::tag;
use crate::value::Value;
use lists::Bytes;
use std::alloc::{AllocError, Global};

/// The bytes that encode the value.
pub fn encode(alloc: Global, value: &Value) -> Result<Bytes, AllocError>
    requires { CanBeEncoded (shape_of value.now) }
    ensures { IfOk result (λ bytes. Encodes (shape_of value.now) bytes) }
{
    Ok(Bytes::from_vec(encode_value(alloc, value)?))
}

#[cycle(encode_value)]
fn encode_value(alloc: Global, value: &Value) -> Result<Vec<u8>, AllocError>
    ensures { IfOk result (λ bytes. bytes.items ≡ encoding (shape_of value.now)) }
{
    match value {
        Value::Null => Ok(Vec::new(alloc)),
        Value::Binary(content) => tagged(alloc, tag::BINARY, content.as_slice()),
        Value::Bool(false) => tagged(alloc, tag::BOOL, &[]),
        Value::Bool(true) => tagged(alloc, tag::BOOL, &[1]),
        Value::Fd(number) => tagged(alloc, tag::FD, &number.to_be_bytes()),
        Value::Int(integer) => encode_integer(alloc, *integer),
        Value::Map(pairs) => tagged(alloc, tag::MAP, &encode_pairs(alloc, pairs.as_slice())?),
        Value::Seq(items) => tagged(alloc, tag::SEQ, &encode_items(alloc, items.as_slice())?),
        Value::Str(text) => {
            let mut bytes = tagged(alloc, tag::STR, text.as_bytes())?;
            bytes.push(0)?;
            Ok(bytes)
        }
    }
}

// A tag and a body.
fn tagged(alloc: Global, tag: u8, body: &[u8]) -> Result<Vec<u8>, AllocError>
    ensures { IfOk result (λ bytes. bytes.items ≡ tag ∷ body.now) }
{
    let mut bytes = Vec::new(alloc);
    bytes.push(tag)?;
    bytes.extend_from_slice(body)?;
    Ok(bytes)
}

#[tactic(auto, using(crate::proofs::Groups::last_bytes))]
fn encode_integer(alloc: Global, integer: i128) -> Result<Vec<u8>, AllocError>
    ensures { IfOk result (λ bytes. bytes.items ≡ encoding (integer_shape integer)) }
{
    let bytes = integer.cast_unsigned().to_be_bytes();
    tagged(alloc, tag::INT, &bytes[16 - width(integer)..])
}

/// How many bytes of two's complement hold the integer: the fewest that do, 0 for 0 and at most 16.
///
/// Argdata encodes an integer in these bytes, the highest first.
pub fn width(integer: i128) -> usize
    ensures value { result ≡ width_of integer }
    ensures small { result ≤ 16 }
{
    if integer == 0 {
        0
    } else {
        1 + further(steps_from_zero(integer))
    }
}

// How far the integer is from 0, or from -1 where it is below 0.
fn steps_from_zero(integer: i128) -> u128
    ensures value { result ≡ steps integer }
    ensures small { result < 2 ^ 127 }
{
    if integer < 0 {
        (-1 - integer).cast_unsigned()
    } else {
        integer.cast_unsigned()
    }
}

// How many bytes hold the sign and so many steps from it, beside the first.
#[tactic(auto, using(crate::proofs::Groups::further_none, crate::proofs::Groups::further_more))]
fn further(steps: u128) -> usize
    ensures { result ≡ further_bytes steps }
{
    if steps < 128 {
        0
    } else {
        1 + further(steps / 256)
    }
}

#[cycle(encode_value)]
fn encode_items(alloc: Global, items: &[Value]) -> Result<Vec<u8>, AllocError>
    ensures { IfOk result (λ bytes. bytes.items ≡ item_fields (of_list (map shape_of items.now))) }
{
    let mut out = Vec::new(alloc);
    for item in items {
        push_field(alloc, &mut out, item)?;
    }
    Ok(out)
}

#[cycle(encode_value)]
fn encode_pairs(alloc: Global, pairs: &[(Value, Value)]) -> Result<Vec<u8>, AllocError>
    ensures { IfOk result (λ bytes. bytes.items ≡ pair_fields (of_pairs (map pair_of pairs.now))) }
{
    let mut out = Vec::new(alloc);
    for (key, value) in pairs {
        push_field(alloc, &mut out, key)?;
        push_field(alloc, &mut out, value)?;
    }
    Ok(out)
}

#[cycle(encode_value)]
fn push_field(alloc: Global, out: &mut Vec<u8>, value: &Value) -> Result<(), AllocError>
    ensures { OnOk result (out.new.items ≡ out.old.items ++ field_of (encoding (shape_of value.now))) }
{
    let body = encode_value(alloc, value)?;
    push_length(out, body.len())?;
    out.extend_from_slice(&body)
}

fn push_length(out: &mut Vec<u8>, length: usize) -> Result<(), AllocError>
    ensures { OnOk result (out.new.items ≡ out.old.items ++ length_bytes length) }
{
    push_groups(out, length / 128)?;
    out.push(128 + (length % 128) as u8)?;
    Ok(())
}

// Groups of 7 bits, the most significant first.
#[tactic(auto, using(crate::proofs::Groups::no_groups, crate::proofs::Groups::more_groups))]
fn push_groups(out: &mut Vec<u8>, number: usize) -> Result<(), AllocError>
    ensures { OnOk result (out.new.items ≡ out.old.items ++ groups_of number) }
{
    if number > 0 {
        push_groups(out, number / 128)?;
        out.push((number % 128) as u8)?;
    }
    Ok(())
}
