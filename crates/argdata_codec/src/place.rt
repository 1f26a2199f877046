//! How far bytes go on as some encoding begins. The room is the length of what is to be encoded; none is known at the top.
ghost use Rattle.std.specs.Prelude.{◌≡◌, ◌<◌, ◌≤◌, ◌+◌, ◌^◌, length, min, take, IfOk, IfSome, Some};
ghost use Rattle.argdata_codec.specs.Places.{room_after, has_place, may_grow, at_most, exactly, more_than, boolean_place, second_place, integer_place, tail_of, begins_in, text_step, text_place, field_size, length_step, fields_place, container_place, value_place};
ghost use Rattle.argdata_codec.specs.Reading.{value_at};

use crate::fault::Malformed;
use crate::turn::{LengthStep, Turn};
use crate::{reading, tag};
use lists::Stop;
use std::alloc::{AllocError, Global};

// The room behind so many bytes.
fn room_after(room: Option<u128>, taken: u128) -> Option<u128>
    ensures { result ≡ room_after room taken }
{
    match room {
        None => None,
        Some(room) => Some(room.saturating_sub(taken)),
    }
}

fn has_place(turn: Turn, size: u128, room: Option<u128>) -> bool
    ensures { result ≡ has_place turn size room }
{
    match room {
        None => true,
        Some(room) => size <= room && turn.may_leave(room - size),
    }
}

fn may_grow(turn: Turn, groups: u128, room: Option<u128>) -> bool
    requires { groups < 2 ^ 120 }
    ensures { result ≡ may_grow turn groups room }
{
    match (turn, room) {
        (_, None) => true,
        (Turn::Key, Some(room)) => 128 * groups + 1 < room,
        (_, Some(room)) => 128 * groups < room,
    }
}

fn at_most(most: u128, room: Option<u128>) -> bool
    ensures { result ≡ at_most most room }
{
    match room {
        None => true,
        Some(room) => room <= most,
    }
}

fn exactly(size: u128, room: Option<u128>) -> bool
    ensures { result ≡ exactly size room }
{
    match room {
        None => true,
        Some(room) => room == size,
    }
}

fn more_than(size: u128, room: Option<u128>) -> bool
    ensures { result ≡ more_than size room }
{
    match room {
        None => true,
        Some(room) => size < room,
    }
}

fn boolean(body: &[u8]) -> usize
    ensures { result ≡ boolean_place body.now }
{
    match body {
        [1, ..] => 1,
        _ => 0,
    }
}

fn integer(room: Option<u128>, body: &[u8]) -> usize
    ensures { result ≡ integer_place room body.now }
{
    match body {
        [] => 0,
        [first, rest @ ..] => {
            let is_bad = match room {
                None => false,
                Some(room) => room == 1 && *first == 0 || room == 9 && *first != 0,
            };
            if is_bad {
                0
            } else {
                1 + integer_rest(*first, rest)
            }
        }
    }
}

fn integer_rest(first: u8, rest: &[u8]) -> usize
    ensures { result ≡ second_place first rest.now }
{
    match rest {
        [] => 0,
        [second, after @ ..] => {
            if first == 0 && *second < 128 || first == 255 && *second >= 128 {
                return 0;
            }
            let most = if first == 0 { 7 } else { 6 };
            1 + after.len().min(most)
        }
    }
}

// How many bytes are still to come in a character, and from where to where the next of them goes.
type Tail = (u8, (u8, u8));

// Between characters.
const NO_TAIL: Tail = (0, (0, 0));

fn tail_of(first: u8) -> Option<Tail>
    ensures { result ≡ tail_of first }
{
    match first {
        0..0x80 => Some(NO_TAIL),
        0xc2..0xe0 => Some((1, (0x80, 0xbf))),
        0xe0 => Some((2, (0xa0, 0xbf))),
        0xed => Some((2, (0x80, 0x9f))),
        0xe1..0xf0 => Some((2, (0x80, 0xbf))),
        0xf0 => Some((3, (0x90, 0xbf))),
        0xf1..0xf4 => Some((3, (0x80, 0xbf))),
        0xf4 => Some((3, (0x80, 0x8f))),
        _ => None,
    }
}

// What is to come after the next byte of a text.
fn text_step(tail: Tail, room: Option<u128>, byte: u8) -> Option<Tail>
    ensures { result ≡ text_step tail room byte }
{
    let (more, (low, high)) = tail;
    if more > 0 {
        if byte < low || byte > high {
            None
        } else {
            Some((more - 1, (0x80, 0xbf)))
        }
    } else {
        let begun = tail_of(byte)?;
        if more_than(u128::from(begun.0) + 1, room) {
            Some(begun)
        } else {
            None
        }
    }
}

fn text(room: Option<u128>, body: &[u8]) -> usize
    ensures value { result ≡ text_place (0, (0, 0)) room body.now }
    ensures small { result ≤ length body.now }
{
    let mut left = room;
    let mut tail = NO_TAIL;
    for (at, byte) in body.iter().enumerate() {
        if tail.0 == 0 && *byte == 0 {
            return if exactly(1, left) { at + 1 } else { at };
        }
        match text_step(tail, left, *byte) {
            None => return at,
            Some(next) => tail = next,
        }
        left = room_after(left, 1);
    }
    body.len()
}

// The size of the field behind its length, where the bytes have all of it and encode a value.
fn whole_field(
    alloc: Global,
    depth: usize,
    size: u128,
    bytes: &[u8],
) -> Result<Option<usize>, AllocError>
    ensures value { IfOk result (λ whole. whole ≡ field_size (value_at depth) size bytes.now) }
    ensures small { IfOk result (λ whole. IfSome whole (λ taken. taken ≤ length bytes.now)) }
{
    if size > bytes.len() as u128 {
        return Ok(None);
    }
    let size = size as usize;
    match reading::value(alloc, depth, front(bytes, size)) {
        Ok(_) => Ok(Some(size)),
        Err(Stop::At(Malformed)) => Ok(None),
        Err(Stop::Memory) => Err(AllocError),
    }
}

// So many bytes, or all where there are fewer.
fn front(bytes: &[u8], size: usize) -> &[u8]
    ensures { result.now ≡ take size bytes.now }
{
    if size < bytes.len() {
        bytes.split_at(size).0
    } else {
        bytes
    }
}

/// How many bytes go on as an encoding of a value begins, whose maps and sequences stand in each other so many times at most.
#[cycle(place)]
pub fn value(
    alloc: Global,
    depth: usize,
    room: Option<u128>,
    bytes: &[u8],
) -> Result<usize, AllocError>
    ensures value { IfOk result (λ at. at ≡ value_place depth room bytes.now) }
    ensures small { IfOk result (λ at. at ≤ length bytes.now) }
{
    let [tag, body @ ..] = bytes else {
        return Ok(0);
    };
    let left = room_after(room, 1);
    match *tag {
        tag::BINARY => Ok(1 + body.len()),
        tag::BOOL if at_most(1, left) => Ok(1 + boolean(body)),
        tag::FD if exactly(4, left) => Ok(1 + body.len().min(4)),
        tag::INT if at_most(9, left) => Ok(1 + integer(left, body)),
        tag::MAP if has_place(Turn::Value, 0, left) => {
            container(alloc, depth, Turn::Key, left, body)
        }
        tag::SEQ => container(alloc, depth, Turn::Item, left, body),
        tag::STR if more_than(0, left) => Ok(1 + text(left, body)),
        _ => Ok(0),
    }
}

// A map's or a sequence's tag and its body.
#[cycle(place)]
#[tactic(auto, unfolding(crate::specs::Places::container_place))]
fn container(
    alloc: Global,
    depth: usize,
    turn: Turn,
    room: Option<u128>,
    body: &[u8],
) -> Result<usize, AllocError>
    ensures value { IfOk result (λ at. at ≡ container_place depth turn room body.now) }
    ensures small { IfOk result (λ at. at ≤ 1 + length body.now) }
{
    let Some(inside) = depth.checked_sub(1) else {
        return Ok(0);
    };
    Ok(1 + fields(alloc, inside, turn, room, body)?)
}

// What the next byte of a length does, where the room behind it is given.
fn length_step(turn: Turn, groups: u128, left: Option<u128>, byte: u8) -> LengthStep
    requires { groups < 2 ^ 112 }
    ensures { result ≡ length_step turn groups left byte }
{
    let sum = 128 * groups + u128::from(byte);
    if byte < 128 {
        if sum == 0 || !may_grow(turn, sum, left) {
            LengthStep::Stops
        } else {
            LengthStep::Goes(sum)
        }
    } else if has_place(turn, sum - 128, left) {
        LengthStep::Ends(sum - 128)
    } else {
        LengthStep::Stops
    }
}

// A field as long as that has no memory.
const LONGEST: u128 = 1 << 112;

#[cycle(place)]
fn fields(
    alloc: Global,
    depth: usize,
    turn: Turn,
    room: Option<u128>,
    body: &[u8],
) -> Result<usize, AllocError>
    ensures value { IfOk result (λ at. at ≡ fields_place (value_at depth) (value_place depth) (length body.now) turn 0 room body.now) }
    ensures small { IfOk result (λ at. at ≤ length body.now) }
{
    let (mut turn, mut groups, mut left, mut at) = (turn, 0, room, 0);
    for _ in 0..body.len() {
        if at == body.len() {
            break;
        }
        if groups >= LONGEST {
            return Err(AllocError);
        }
        left = room_after(left, 1);
        let after = body.split_at(at + 1).1;
        match length_step(turn, groups, left, body[at]) {
            LengthStep::Stops => return Ok(at),
            LengthStep::Goes(sum) => {
                groups = sum;
                at += 1;
            }
            LengthStep::Ends(size) => match whole_field(alloc, depth, size, after)? {
                None => return Ok(at + 1 + unfinished(alloc, depth, size, after)?),
                Some(taken) => {
                    turn = turn.next();
                    groups = 0;
                    left = room_after(left, taken as u128);
                    at += 1 + taken;
                }
            },
        }
    }
    Ok(at)
}

// How far the value of a field of some size goes on.
#[cycle(place)]
fn unfinished(alloc: Global, depth: usize, size: u128, bytes: &[u8]) -> Result<usize, AllocError>
    ensures value { IfOk result (λ at. at ≡ value_place depth (Some size) (take size bytes.now)) }
    ensures small { IfOk result (λ at. at ≤ length bytes.now) }
{
    let body = if size < bytes.len() as u128 {
        front(bytes, size as usize)
    } else {
        bytes
    };
    value(alloc, depth, Some(size), body)
}
