//! The value that bytes encode, without the place of a fault.
ghost use Rattle.std.specs.Prelude.{◌≡◌, ◌<◌, ◌≤◌, ◌^◌, map, length, IfOk};
ghost use Rattle.argdata_codec.specs.Views.{shape_of, pair_of};
ghost use Rattle.lists.specs.Options.{Reads};
ghost use Rattle.argdata_codec.specs.Reading.{field_at, boolean_at, descriptor_at, integer_at, before_zero, text_at, entry_at, items_of, pairs_of, items_at, pairs_at, value_at, number_after, signed, is_in_range};

use crate::encoding::width;
use crate::fault::Malformed;
use crate::tag;
use crate::value::Value;
use lists::{Bytes, Stop, Text};
use std::alloc::Global;

#[cycle(read)]
pub fn value(alloc: Global, depth: usize, bytes: &[u8]) -> Result<Value, Stop<Malformed>>
    ensures { Reads shape_of result (value_at depth bytes.now) }
{
    match bytes {
        [] => Ok(Value::Null),
        [tag::BINARY, body @ ..] => Ok(Value::Binary(Bytes::of(alloc, body)?)),
        [tag::BOOL, body @ ..] => Ok(Value::Bool(boolean(body)?)),
        [tag::FD, body @ ..] => Ok(Value::Fd(descriptor(body)?)),
        [tag::INT, body @ ..] => Ok(Value::Int(integer(body)?)),
        [tag::MAP, body @ ..] => Ok(Value::Map(pair_list(alloc, depth, body)?)),
        [tag::SEQ, body @ ..] => Ok(Value::Seq(value_list(alloc, depth, body)?)),
        [tag::STR, body @ ..] => Ok(Value::Str(text(alloc, body)?)),
        _ => Err(Stop::At(Malformed)),
    }
}

// The pairs of a map that may be of some depth.
#[cycle(read)]
#[tactic(auto, unfolding(crate::specs::Reading::pairs_at))]
fn pair_list(
    alloc: Global,
    depth: usize,
    body: &[u8],
) -> Result<Vec<(Value, Value)>, Stop<Malformed>>
    ensures { Reads (λ v. map pair_of v.items) result (pairs_at depth body.now) }
{
    let inside = depth.checked_sub(1).ok_or(Stop::At(Malformed))?;
    pairs(alloc, inside, body)
}

// The values of a sequence that may be of some depth.
#[cycle(read)]
#[tactic(auto, unfolding(crate::specs::Reading::items_at))]
fn value_list(alloc: Global, depth: usize, body: &[u8]) -> Result<Vec<Value>, Stop<Malformed>>
    ensures { Reads (λ v. map shape_of v.items) result (items_at depth body.now) }
{
    let inside = depth.checked_sub(1).ok_or(Stop::At(Malformed))?;
    items(alloc, inside, body)
}

#[cycle(read)]
fn pairs(alloc: Global, depth: usize, body: &[u8]) -> Result<Vec<(Value, Value)>, Stop<Malformed>>
    ensures { Reads (λ v. map pair_of v.items) result (pairs_of (value_at depth) body.now) }
{
    let mut pairs = Vec::new(alloc);
    let mut rest = body;
    while !rest.is_empty() {
        let (key, after_key) = entry(alloc, depth, rest)?;
        let (value, after) = entry(alloc, depth, after_key)?;
        pairs.push((key, value))?;
        rest = after;
    }
    Ok(pairs)
}

#[cycle(read)]
fn items(alloc: Global, depth: usize, body: &[u8]) -> Result<Vec<Value>, Stop<Malformed>>
    ensures { Reads (λ v. map shape_of v.items) result (items_of (value_at depth) body.now) }
{
    let mut items = Vec::new(alloc);
    let mut rest = body;
    while !rest.is_empty() {
        let (item, after) = entry(alloc, depth, rest)?;
        items.push(item)?;
        rest = after;
    }
    Ok(items)
}

// The value of the field at the front, and the bytes after it.
#[cycle(read)]
fn entry(alloc: Global, depth: usize, bytes: &[u8]) -> Result<(Value, &[u8]), Stop<Malformed>>
    ensures reads { Reads (λ x. (shape_of x.0, x.1.now)) result (entry_at (value_at depth) bytes.now) }
    ensures shorter { IfOk result (λ x. length x.1.now < length bytes.now) }
{
    let (body, rest) = field(bytes)?;
    Ok((value(alloc, depth, body)?, rest))
}

// The bytes of the field at the front, and the bytes after it.
fn field(bytes: &[u8]) -> Result<(&[u8], &[u8]), Stop<Malformed>>
    ensures reads { Reads (λ x. (x.0.now, x.1.now)) result (field_at 0 bytes.now) }
    ensures shorter { IfOk result (λ x. length x.1.now < length bytes.now) }
{
    let mut groups = 0;
    let mut rest = bytes;
    while let [byte, after @ ..] = rest {
        let sum = 128 * groups + u128::from(*byte);
        let left = after.len() as u128;
        if *byte >= 128 {
            let length = sum - 128;
            if length > left {
                return Err(Stop::At(Malformed));
            }
            return Ok(after.split_at(length as usize));
        }
        if sum == 0 || sum > left {
            return Err(Stop::At(Malformed));
        }
        groups = sum;
        rest = after;
    }
    Err(Stop::At(Malformed))
}

fn boolean(body: &[u8]) -> Result<bool, Stop<Malformed>>
    ensures { Reads (λ b. b) result (boolean_at body.now) }
{
    match body {
        [] => Ok(false),
        [1] => Ok(true),
        _ => Err(Stop::At(Malformed)),
    }
}

fn descriptor(body: &[u8]) -> Result<u32, Stop<Malformed>>
    ensures { Reads (λ n. n) result (descriptor_at body.now) }
{
    match body {
        [a, b, c, d] => Ok(u32::from_be_bytes([*a, *b, *c, *d])),
        _ => Err(Stop::At(Malformed)),
    }
}

#[tactic(auto, unfolding(crate::specs::Reading::integer_at))]
fn integer(body: &[u8]) -> Result<i128, Stop<Malformed>>
    ensures { Reads (λ i. i) result (integer_at body.now) }
{
    if body.len() > 9 {
        return Err(Stop::At(Malformed));
    }
    let (number, top) = number(body);
    let integer = signed_number(top, number);
    if is_argument(integer) && width(integer) == body.len() {
        Ok(integer)
    } else {
        Err(Stop::At(Malformed))
    }
}

// The number that at most 9 bytes encode, and how many numbers as many bytes encode.
fn number(body: &[u8]) -> (u128, u128)
    requires { length body.now ≤ 9 }
    ensures number { result.0 ≡ number_after 0 body.now }
    ensures top { result.1 ≡ 256 ^ length body.now }
    ensures below { result.0 < result.1 }
    ensures small { result.1 ≤ 256 ^ 9 }
{
    let mut number = 0;
    let mut top = 1;
    for byte in body {
        number = 256 * number + u128::from(*byte);
        top *= 256;
    }
    (number, top)
}

fn signed_number(top: u128, number: u128) -> i128
    requires below { number < top }
    requires small { top ≤ 256 ^ 9 }
    ensures { result ≡ signed top number }
{
    if 2 * number < top {
        number as i128
    } else {
        number as i128 - top as i128
    }
}

// Argument data has integers from -2^63 to 2^64 - 1.
fn is_argument(integer: i128) -> bool
    ensures { result ≡ is_in_range integer }
{
    -(1 << 63) <= integer && integer < 1 << 64
}

#[tactic(auto, unfolding(crate::specs::Reading::text_at))]
fn text(alloc: Global, body: &[u8]) -> Result<Text, Stop<Malformed>>
    ensures { Reads (λ t. t) result (text_at body.now) }
{
    let content = content(body)?;
    match str::from_utf8(content) {
        Ok(text) => Ok(Text::from_string(String::from_str(alloc, text)?)),
        Err(_) => Err(Stop::At(Malformed)),
    }
}

// What stands before the first zero byte, which is to be the last byte.
fn content(body: &[u8]) -> Result<&[u8], Stop<Malformed>>
    ensures { Reads (λ x. x.now) result (before_zero body.now) }
{
    for (i, byte) in body.iter().enumerate() {
        if *byte == 0 {
            if i + 1 < body.len() {
                return Err(Stop::At(Malformed));
            }
            return Ok(&body[..i]);
        }
    }
    Err(Stop::At(Malformed))
}
