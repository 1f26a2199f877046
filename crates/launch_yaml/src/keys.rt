//! Keys of a map that stands on lines.
ghost use Rattle.std.specs.Prelude.{◌≡◌, ◌||◌, IfOk};
ghost use Rattle.std.specs.List.{list_any};
ghost use Rattle.launch_values.specs.Shape.{Content};
ghost use Rattle.launch_values.specs.Views.{content_of_value};
ghost use Rattle.launch_values.specs.Keys.{same_key};
ghost use Rattle.launch_values.specs.KeySets.{IsScalarKey};
ghost use Rattle.launch_yaml.specs.Blocks.{wrong_key, key_of, new_key_of, key_at, deepest};
ghost use Rattle.lists.specs.Results.{Gives, IsStopOf};
ghost use Rattle.launch_lines.specs.Views.{row, IsWithin};

use crate::single::{kind_of_end, stop_in};
use launch_lines::fault::Fault;
use launch_lines::faults::first_of;
use launch_lines::line::{Line, at_line, content};
use launch_lines::rows;
use launch_scalars::{YamlKind, plain};
use launch_values::keys::KeySet;
use launch_values::{Mode, NodeValue, resolution};
use lists::Stop;
use std::alloc::Global;

// What is wrong where a key should begin.
fn wrong_key(bytes: &[u8]) -> YamlKind
    ensures { result ≡ wrong_key bytes.now }
{
    match bytes {
        [] => YamlKind::Character,
        [first, ..] => plain::wrong_beginning(*first),
    }
}

// The key that a line begins with.
fn key_of(alloc: Global, text: &[u8], line: Line) -> Result<NodeValue, Stop<Fault>>
    requires { IsWithin text.now line }
    ensures reads { Gives content_of_value result (key_of (row text.now line)) }
    ensures scalar { IfOk result (λ key. IsScalarKey (content_of_value key)) }
{
    match resolution::scalar_value(alloc, Mode::Resolved, false, content(text, line)) {
        Ok((key, _)) => Ok(key),
        Err(stop) => Err(stop_in(text, line, stop)),
    }
}

// The key that a line begins with, which is put to those that the map has already.
fn new_key(
    alloc: Global,
    text: &[u8],
    keys: &mut KeySet,
    line: Line,
) -> Result<NodeValue, Stop<Fault>>
    requires { IsWithin text.now line }
    ensures reads { Gives content_of_value result (new_key_of keys.old (row text.now line)) }
    ensures keys { IfOk result (λ key. (k : Content) → list_any (same_key k) keys.new ≡ (same_key k (content_of_value key) || list_any (same_key k) keys.old)) }
{
    let key = key_of(alloc, text, line)?;
    match keys.insert(alloc, &key) {
        Ok(true) => Ok(key),
        Ok(false) => Err(Stop::At(at_line(line, YamlKind::DuplicateKey))),
        Err(_) => Err(Stop::Memory),
    }
}

/// The key of an entry of a map at a column, which is put to those that the map has already.
pub fn key_at(
    alloc: Global,
    text: &[u8],
    column: usize,
    is_root: bool,
    keys: &mut KeySet,
    line: Line,
) -> Result<NodeValue, Stop<Fault>>
    requires { IsWithin text.now line }
    ensures reads { Gives content_of_value result (key_at column is_root keys.old (row text.now line)) }
    ensures keys { IfOk result (λ key. (k : Content) → list_any (same_key k) keys.new ≡ (same_key k (content_of_value key) || list_any (same_key k) keys.old)) }
{
    let bytes = content(text, line);
    if line.column as usize != column {
        return Err(Stop::At(at_line(line, kind_of_end(is_root))));
    }
    if !rows::begins_key(bytes) {
        return Err(Stop::At(at_line(line, wrong_key(bytes))));
    }
    if rows::behind_key(bytes).is_none() {
        return Err(Stop::At(at_line(line, kind_of_end(is_root))));
    }
    new_key(alloc, text, keys, line)
}

/// Why a map or a sequence too many that begins with a line isn't read.
pub fn deepest(alloc: Global, text: &[u8], line: Line) -> Stop<Fault>
    requires { IsWithin text.now line }
    ensures { IsStopOf result (deepest (row text.now line)) }
{
    let fault = at_line(line, YamlKind::Depth);
    if rows::is_dash(content(text, line)) {
        return Stop::At(fault);
    }
    match key_of(alloc, text, line) {
        Ok(_) => Stop::At(fault),
        Err(Stop::At(earlier)) => Stop::At(first_of(earlier, fault)),
        Err(Stop::Memory) => Stop::Memory,
    }
}
