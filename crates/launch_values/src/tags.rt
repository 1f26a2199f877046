//! Tags.
ghost use Rattle.std.specs.Prelude.{◌≡◌, ◌≤◌, Ok, IfOk, List, ℕ, length, take, drop};
ghost use Rattle.lists.specs.Results.{Gives};
ghost use Rattle.launch_scalars.specs.Scalars.{unless_bad};
ghost use Rattle.launch_values.specs.Tags.{Tag as TagOf, ends_name, name_length, is_name, is_binary, named, tag_with, tag_at};
ghost use Rattle.launch_values.specs.TagViews.{tag_view};

use crate::node_tag::NodeTag;
use launch_scalars::characters::bad_at;
use launch_scalars::{LineFault, YamlKind};
use lists::Stop;
use std::alloc::Global;
use std::str;

/// A tag.
#[derive(Drop)]
pub enum Tag {
    /// A tag with a name.
    Named(NodeTag),
    /// `!!binary`.
    Base64,
}

// How many bytes the name of a tag has.
fn name_length(in_flow: bool, bytes: &[u8]) -> usize
    ensures value { result ≡ name_length in_flow bytes.now }
    ensures inside { result ≤ length bytes.now }
{
    let mut count = 0;
    let mut rest = bytes;
    while let [byte, after @ ..] = rest {
        if ends_name(in_flow, *byte) {
            return count;
        }
        count += 1;
        rest = after;
    }
    count
}

// The name of a tag ends before this byte.
fn ends_name(in_flow: bool, byte: u8) -> bool
    ensures { result ≡ ends_name in_flow byte }
{
    match byte {
        b' ' => true,
        b',' | b'[' | b']' | b'{' | b'}' => in_flow,
        _ => false,
    }
}

// A name isn't empty and has no `!`.
fn is_name(name: &[u8]) -> bool
    ensures { result ≡ is_name name.now }
{
    !name.is_empty() && !name.contains(&b'!')
}

fn is_binary(name: &[u8]) -> bool
    ensures { result ≡ is_binary name.now }
{
    name == b"!binary".as_slice()
}

// The tag whose name has so many bytes, and what stands behind it.
fn named(alloc: Global, bytes: &[u8], count: usize) -> Result<(Tag, &[u8]), Stop<LineFault>>
    requires { count ≤ length bytes.now }
    ensures reads { Gives {Y = TagOf × List ℕ} (λ t. (tag_view t.0, t.1.now)) result (unless_bad count bytes.now (Ok (named (take count bytes.now), drop count bytes.now))) }
    ensures no_longer { IfOk result (λ t. length t.1.now ≤ length bytes.now) }
{
    let (name, rest) = bytes.split_at(count);
    if let Some(place) = bad_at(name) {
        return Err(LineFault::stop(bytes.len() - place, YamlKind::Character));
    }
    match str::from_utf8(name) {
        Ok(name) => Ok((Tag::Named(NodeTag::of(alloc, name)?), rest)),
        Err(_) => unreachable!(),
    }
}

// The same, where the name may be that of no tag.
fn tag_with(alloc: Global, bytes: &[u8], count: usize) -> Result<(Tag, &[u8]), Stop<LineFault>>
    requires { count ≤ length bytes.now }
    ensures reads { Gives (λ t. (tag_view t.0, t.1.now)) result (tag_with count bytes.now) }
    ensures no_longer { IfOk result (λ t. length t.1.now ≤ length bytes.now) }
{
    let (name, rest) = bytes.split_at(count);
    if is_binary(name) {
        Ok((Tag::Base64, rest))
    } else if is_name(name) {
        named(alloc, bytes, count)
    } else {
        Err(LineFault::stop(bytes.len() + 1, YamlKind::Tag))
    }
}

/// The tag behind a `!`, and what stands behind it.
#[tactic(auto, unfolding(crate::specs::Tags::tag_at))]
pub fn tag_at(alloc: Global, in_flow: bool, bytes: &[u8]) -> Result<(Tag, &[u8]), Stop<LineFault>>
    ensures reads { Gives (λ t. (tag_view t.0, t.1.now)) result (tag_at in_flow bytes.now) }
    ensures no_longer { IfOk result (λ t. length t.1.now ≤ length bytes.now) }
{
    tag_with(alloc, bytes, name_length(in_flow, bytes))
}
