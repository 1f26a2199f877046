//! Flow values.
ghost use Rattle.std.specs.Prelude.{◌≡◌, ◌<◌, ◌≤◌, ◌||◌, if◌then◌else◌, Some, None, false, IfOk, IfSome, length, drop, map, option_map};
ghost use Rattle.std.specs.List.{list_any};
ghost use Rattle.lists.specs.Results.{Gives};
ghost use Rattle.launch_values.specs.Shape.{Content};
ghost use Rattle.launch_scalars.specs.Spaces.{begins_with};
ghost use Rattle.launch_values.specs.Views.{content_of_value, shape_of, pair_of};
ghost use Rattle.launch_values.specs.Tags.{named, bytes_in_base64};
ghost use Rattle.launch_values.specs.TagViews.{tag_view};
ghost use Rattle.launch_values.specs.Keys.{same_key};
ghost use Rattle.launch_values.specs.KeySets.{IsScalarKey};
ghost use Rattle.launch_values.specs.Flow.{value_with, tagged_with, node_with, separator, items_of, key_with, after_colon, keyed_with, pair_with, pairs_of, sequence_with, mapping_with, collection_with, collection_at, value_at};

use crate::keys::KeySet;
use crate::mode::Mode;
use crate::node::{Node, NodeValue};
use crate::node_list::NodeList;
use crate::node_pairs::NodePairs;
use crate::node_tag::NodeTag;
use crate::resolution::scalar_value;
use crate::tags::{Tag, tag_at};
use launch_scalars::plain::is_behind_key;
use launch_scalars::spaces::after_gap;
use launch_scalars::{LineFault, YamlKind};
use lists::Stop;
use std::alloc::Global;

/// The value at the front of a line's rest in a block: a scalar or a flow value, in which so many maps and sequences may
/// stand inside each other. Its tag was read.
pub fn value_at(
    alloc: Global,
    depth: usize,
    line: u32,
    mode: Mode,
    bytes: &[u8],
) -> Result<(NodeValue, &[u8]), Stop<LineFault>>
    ensures reads { Gives (λ v. (content_of_value v.0, v.1.now)) result (value_at depth line mode bytes.now) }
    ensures no_longer { IfOk result (λ v. length v.1.now ≤ length bytes.now) }
    ensures shorter { IfOk result (λ v. begins_with 32 bytes.now ≡ false → length v.1.now < length bytes.now) }
{
    match bytes {
        [] => Err(LineFault::stop(0, YamlKind::Character)),
        [b'[' | b'{', ..] => collection(alloc, depth, line, bytes),
        _ => scalar_value(alloc, mode, false, bytes),
    }
}

// A map or a sequence, in which so many may stand inside each other, itself included.
#[cycle(flow)]
fn collection(
    alloc: Global,
    depth: usize,
    line: u32,
    bytes: &[u8],
) -> Result<(NodeValue, &[u8]), Stop<LineFault>>
    ensures reads { Gives (λ v. (content_of_value v.0, v.1.now)) result (collection_at depth line bytes.now) }
    ensures shorter { IfOk result (λ v. length v.1.now < length bytes.now) }
{
    if depth == 0 {
        return Err(LineFault::stop(bytes.len(), YamlKind::Depth));
    }
    sequence_or_map(alloc, depth - 1, line, bytes)
}

// A map or a sequence, in whose values so many may stand inside each other.
#[cycle(flow)]
fn sequence_or_map(
    alloc: Global,
    depth: usize,
    line: u32,
    bytes: &[u8],
) -> Result<(NodeValue, &[u8]), Stop<LineFault>>
    ensures reads { Gives (λ v. (content_of_value v.0, v.1.now)) result (collection_with (node_with (collection_at depth line) line) line bytes.now) }
    ensures shorter { IfOk result (λ v. length v.1.now < length bytes.now) }
{
    match bytes {
        [] => Err(LineFault::stop(0, YamlKind::Flow)),
        [b'[', rest @ ..] => sequence(alloc, depth, line, rest),
        [_, rest @ ..] => mapping(alloc, depth, line, rest),
    }
}

// A sequence whose opening bracket was read.
#[cycle(flow)]
fn sequence(
    alloc: Global,
    depth: usize,
    line: u32,
    bytes: &[u8],
) -> Result<(NodeValue, &[u8]), Stop<LineFault>>
    ensures reads { Gives (λ v. (content_of_value v.0, v.1.now)) result (sequence_with (node_with (collection_at depth line) line) bytes.now) }
    ensures no_longer { IfOk result (λ v. length v.1.now ≤ length bytes.now) }
{
    let (list, rest) = items(alloc, depth, line, bytes)?;
    Ok((NodeValue::Seq(NodeList::from_vec(list)), rest))
}

// A map whose opening brace was read.
#[cycle(flow)]
fn mapping(
    alloc: Global,
    depth: usize,
    line: u32,
    bytes: &[u8],
) -> Result<(NodeValue, &[u8]), Stop<LineFault>>
    ensures reads { Gives (λ v. (content_of_value v.0, v.1.now)) result (mapping_with (node_with (collection_at depth line) line) line bytes.now) }
    ensures no_longer { IfOk result (λ v. length v.1.now ≤ length bytes.now) }
{
    let (list, rest) = pairs(alloc, depth, line, bytes)?;
    Ok((NodeValue::Map(NodePairs::from_vec(list)), rest))
}

// The items behind the opening bracket of a sequence, and what stands behind the closing one.
#[cycle(flow)]
fn items(
    alloc: Global,
    depth: usize,
    line: u32,
    bytes: &[u8],
) -> Result<(Vec<Node>, &[u8]), Stop<LineFault>>
    ensures reads { Gives (λ v. (map shape_of v.0.items, v.1.now)) result (items_of (node_with (collection_at depth line) line) bytes.now) }
    ensures no_longer { IfOk result (λ v. length v.1.now ≤ length bytes.now) }
{
    let mut list = Vec::new(alloc);
    let mut rest = bytes;
    for _ in 0..bytes.len() + 1 {
        let begin = after_gap(rest);
        if let Some(after) = after_closing(b']', begin) {
            return Ok((list, after));
        }
        let (item, behind) = node(alloc, depth, line, begin)?;
        list.push(item)?;
        let (goes_on, after) = separator(b']', after_gap(behind))?;
        if !goes_on {
            return Ok((list, after));
        }
        rest = after;
    }
    // Each item takes a byte, so that the line is at its end before the count is.
    Err(LineFault::stop(0, YamlKind::Flow))
}

// A node, and what stands behind it.
#[cycle(flow)]
fn node(
    alloc: Global,
    depth: usize,
    line: u32,
    bytes: &[u8],
) -> Result<(Node, &[u8]), Stop<LineFault>>
    ensures reads { Gives (λ v. (shape_of v.0, v.1.now)) result (node_with (collection_at depth line) line bytes.now) }
    ensures no_longer { IfOk result (λ v. length v.1.now ≤ length bytes.now) }
{
    match bytes {
        [] => Err(LineFault::stop(0, YamlKind::Flow)),
        [b'!', behind @ ..] => {
            let (tag, after) = tag_at(alloc, true, behind)?;
            tagged(alloc, depth, line, bytes.len(), tag, after_gap(after))
        }
        _ => {
            let (value, rest) = value(alloc, depth, line, Mode::Resolved, bytes)?;
            Ok((
                Node {
                    line,
                    tag: None,
                    value,
                },
                rest,
            ))
        }
    }
}

// A node whose tag was read, before what stands behind the tag. So many bytes of the line stand behind the tag's
// place, its own included.
#[cycle(flow)]
fn tagged(
    alloc: Global,
    depth: usize,
    line: u32,
    left: usize,
    tag: Tag,
    bytes: &[u8],
) -> Result<(Node, &[u8]), Stop<LineFault>>
    ensures reads { Gives (λ v. (shape_of v.0, v.1.now)) result (tagged_with (collection_at depth line) line left (tag_view tag) bytes.now) }
    ensures no_longer { IfOk result (λ v. length v.1.now ≤ length bytes.now) }
{
    match tag {
        Tag::Named(name) => named(alloc, depth, line, name, bytes),
        Tag::Base64 => base64(alloc, depth, line, left, bytes),
    }
}

// A node whose tag has a name.
#[cycle(flow)]
fn named(
    alloc: Global,
    depth: usize,
    line: u32,
    name: NodeTag,
    bytes: &[u8],
) -> Result<(Node, &[u8]), Stop<LineFault>>
    ensures reads { Gives (λ v. (shape_of v.0, v.1.now)) result (tagged_with (collection_at depth line) line 0 (named name) bytes.now) }
    ensures no_longer { IfOk result (λ v. length v.1.now ≤ length bytes.now) }
{
    let tag = Some(name);
    match bytes {
        [] | [b',' | b']' | b'}', ..] => Ok((
            Node {
                line,
                tag,
                value: NodeValue::Null,
            },
            bytes,
        )),
        [b'!', ..] => Err(LineFault::stop(bytes.len(), YamlKind::Tag)),
        _ => {
            let (value, rest) = value(alloc, depth, line, Mode::Verbatim, bytes)?;
            Ok((Node { line, tag, value }, rest))
        }
    }
}

// A node behind `!!binary`.
#[cycle(flow)]
fn base64(
    alloc: Global,
    depth: usize,
    line: u32,
    left: usize,
    bytes: &[u8],
) -> Result<(Node, &[u8]), Stop<LineFault>>
    ensures reads { Gives (λ v. (shape_of v.0, v.1.now)) result (tagged_with (collection_at depth line) line left bytes_in_base64 bytes.now) }
    ensures no_longer { IfOk result (λ v. length v.1.now ≤ length bytes.now) }
{
    match bytes {
        [] | [b',' | b']' | b'}' | b'[' | b'{' | b'!', ..] => Err(LineFault::stop(
            left,
            YamlKind::Tag,
        )),
        _ => {
            let (value, rest) = value(alloc, depth, line, Mode::Base64, bytes)?;
            Ok((
                Node {
                    line,
                    tag: None,
                    value,
                },
                rest,
            ))
        }
    }
}

// A value whose tag was read.
#[cycle(flow)]
fn value(
    alloc: Global,
    depth: usize,
    line: u32,
    mode: Mode,
    bytes: &[u8],
) -> Result<(NodeValue, &[u8]), Stop<LineFault>>
    ensures reads { Gives (λ v. (content_of_value v.0, v.1.now)) result (value_with (collection_at depth line) mode bytes.now) }
    ensures no_longer { IfOk result (λ v. length v.1.now ≤ length bytes.now) }
{
    match bytes {
        [] => Err(LineFault::stop(0, YamlKind::Flow)),
        [b'[' | b'{', ..] => collection(alloc, depth, line, bytes),
        [b',' | b']' | b'}', ..] => Err(LineFault::stop(bytes.len(), YamlKind::Flow)),
        _ => scalar_value(alloc, mode, true, bytes),
    }
}

// What stands behind the closing character, where that stands here.
fn after_closing(closing: u8, bytes: &[u8]) -> Option<&[u8]>
    ensures value { option_map (λ r. r.now) result ≡ (if begins_with closing bytes.now then Some (drop 1 bytes.now) else None) }
    ensures shorter { IfSome result (λ r. length r.now < length bytes.now) }
{
    match bytes {
        [byte, rest @ ..] if *byte == closing => Some(rest),
        _ => None,
    }
}

// Whether a flow value goes on behind what was read, and what stands there: it goes on behind a comma, and doesn't
// behind the closing character.
fn separator(closing: u8, bytes: &[u8]) -> Result<(bool, &[u8]), Stop<LineFault>>
    ensures reads { Gives (λ s. (s.0, s.1.now)) result (separator closing bytes.now) }
    ensures shorter { IfOk result (λ s. length s.1.now < length bytes.now) }
{
    match bytes {
        [] => Err(LineFault::stop(0, YamlKind::Flow)),
        [b',', rest @ ..] => Ok((true, rest)),
        [byte, rest @ ..] if *byte == closing => Ok((false, rest)),
        _ => Err(LineFault::stop(bytes.len(), YamlKind::Flow)),
    }
}

// The key of a pair, and what stands behind it.
fn key(alloc: Global, bytes: &[u8]) -> Result<(NodeValue, &[u8]), Stop<LineFault>>
    ensures reads { Gives (λ v. (content_of_value v.0, v.1.now)) result (key_with bytes.now) }
    ensures no_longer { IfOk result (λ v. length v.1.now ≤ length bytes.now) }
    ensures scalar { IfOk result (λ v. IsScalarKey (content_of_value v.0)) }
{
    match bytes {
        [] => Err(LineFault::stop(0, YamlKind::Flow)),
        [b'[' | b'{' | b'!', ..] => Err(LineFault::stop(bytes.len(), YamlKind::Character)),
        [b',' | b']' | b'}', ..] => Err(LineFault::stop(bytes.len(), YamlKind::Flow)),
        _ => scalar_value(alloc, Mode::Resolved, true, bytes),
    }
}

// What stands behind the colon of a key.
fn after_colon(bytes: &[u8]) -> Result<&[u8], Stop<LineFault>>
    ensures reads { Gives (λ r. r.now) result (after_colon bytes.now) }
    ensures shorter { IfOk result (λ r. length r.now < length bytes.now) }
{
    match bytes {
        [] => Err(LineFault::stop(0, YamlKind::Flow)),
        [b':', rest @ ..] if is_behind_key(true, rest) => Ok(rest),
        _ => Err(LineFault::stop(bytes.len(), YamlKind::Flow)),
    }
}

// The value of a key.
#[cycle(flow)]
fn keyed(
    alloc: Global,
    depth: usize,
    line: u32,
    bytes: &[u8],
) -> Result<(Node, &[u8]), Stop<LineFault>>
    ensures reads { Gives (λ v. (shape_of v.0, v.1.now)) result (keyed_with (node_with (collection_at depth line) line) line bytes.now) }
    ensures no_longer { IfOk result (λ v. length v.1.now ≤ length bytes.now) }
{
    match bytes {
        [] | [b',' | b']' | b'}', ..] => Ok((
            Node {
                line,
                tag: None,
                value: NodeValue::Null,
            },
            bytes,
        )),
        _ => node(alloc, depth, line, bytes),
    }
}

// A key and its value, and what stands behind them. The keys of the map are those before, and this one too.
#[cycle(flow)]
fn pair<'a>(
    alloc: Global,
    depth: usize,
    line: u32,
    keys: &mut KeySet,
    bytes: &'a [u8],
) -> Result<((Node, Node), &'a [u8]), Stop<LineFault>>
    ensures reads { Gives (λ p. (pair_of p.0, p.1.now)) result (pair_with (node_with (collection_at depth line) line) line keys.old bytes.now) }
    ensures keys { IfOk result (λ p. (k : Content) → list_any (same_key k) keys.new ≡ (same_key k (content_of_value p.0.0.value) || list_any (same_key k) keys.old)) }
    ensures no_longer { IfOk result (λ p. length p.1.now ≤ length bytes.now) }
{
    let (key, behind) = key(alloc, bytes)?;
    let rest = after_colon(after_gap(behind))?;
    if !keys.insert(alloc, &key)? {
        return Err(LineFault::stop(bytes.len(), YamlKind::DuplicateKey));
    }
    let (value, after) = keyed(alloc, depth, line, after_gap(rest))?;
    let key = Node {
        line,
        tag: None,
        value: key,
    };
    Ok(((key, value), after))
}

// The pairs behind the opening brace of a map, and what stands behind the closing one.
#[cycle(flow)]
fn pairs(
    alloc: Global,
    depth: usize,
    line: u32,
    bytes: &[u8],
) -> Result<(Vec<(Node, Node)>, &[u8]), Stop<LineFault>>
    ensures reads { Gives (λ v. (map pair_of v.0.items, v.1.now)) result (pairs_of (node_with (collection_at depth line) line) line bytes.now) }
    ensures no_longer { IfOk result (λ v. length v.1.now ≤ length bytes.now) }
{
    let mut keys = KeySet::new(alloc);
    let mut list = Vec::new(alloc);
    let mut rest = bytes;
    for _ in 0..bytes.len() + 1 {
        let begin = after_gap(rest);
        if let Some(after) = after_closing(b'}', begin) {
            return Ok((list, after));
        }
        let (pair, behind) = pair(alloc, depth, line, &mut keys, begin)?;
        list.push(pair)?;
        let (goes_on, after) = separator(b'}', after_gap(behind))?;
        if !goes_on {
            return Ok((list, after));
        }
        rest = after;
    }
    // Each pair takes a byte, so that the line is at its end before the count is.
    Err(LineFault::stop(0, YamlKind::Flow))
}
