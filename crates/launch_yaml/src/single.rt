//! Values that stand in one line.
ghost use Rattle.std.specs.Prelude.{◌≡◌, ◌∷◌};
ghost use Rattle.launch_values.specs.Views.{shape_of, content_of_value};
ghost use Rattle.launch_values.specs.Flow.{value_at};
ghost use Rattle.launch_values.specs.TagViews.{tag_view};
ghost use Rattle.launch_lines.specs.Rows.{in_row};
ghost use Rattle.launch_yaml.specs.Blocks.{kind_of_end, wrong_in, text_behind, rows_behind, alone, tagging_of, tagging_at};
ghost use Rattle.lists.specs.Results.{Gives};
ghost use Rattle.launch_lines.specs.Views.{row, rows, IsWithin, stop_in};
ghost use Rattle.launch_yaml.specs.TaggingViews.{tagging_view};

use crate::tagging::Tagging;
use launch_lines::fault::Fault;
use launch_lines::line::{Line, at_line, place_in};
use launch_lines::rows;
use launch_scalars::{LineFault, YamlKind, spaces};
use launch_values::tags::Tag;
use launch_values::{Mode, Node, NodeValue, flow, tags};
use lists::Stop;
use std::alloc::Global;

/// What is wrong with a line that doesn't go on with what stands before it: the root has ended.
pub fn kind_of_end(is_root: bool) -> YamlKind
    ensures { result ≡ kind_of_end is_root }
{
    if is_root {
        YamlKind::End
    } else {
        YamlKind::Indent
    }
}

/// Why reading stopped in a line.
pub fn stop_in(text: &[u8], line: Line, stop: Stop<LineFault>) -> Stop<Fault>
    requires { IsWithin text.now line }
    ensures { result ≡ stop_in (row text.now line) stop }
{
    match stop {
        Stop::At(fault) => Stop::At(place_in(text, line, fault)),
        Stop::Memory => Stop::Memory,
    }
}

/// A fault where these bytes at a line's end begin.
pub fn wrong_in(text: &[u8], line: Line, kind: YamlKind, bytes: &[u8]) -> Fault
    requires { IsWithin text.now line }
    ensures { result ≡ wrong_in (row text.now line) kind bytes.now }
{
    let left = bytes.len();
    place_in(text, line, LineFault { left, kind })
}

// What stands behind a value in its line.
fn text_behind(text: &[u8], line: Line, bytes: &[u8]) -> Option<Fault>
    requires { IsWithin text.now line }
    ensures { result ≡ text_behind (row text.now line) bytes.now }
{
    let kind = match rows::behind_colon(bytes) {
        Some(_) => YamlKind::Character,
        None => YamlKind::End,
    };
    (!bytes.is_empty()).then_some(wrong_in(text, line, kind, bytes))
}

// The fault of lines behind a value that stands in one line alone, if there are any.
fn lines_behind(text: &[u8], is_root: bool, line: Line, others: &[Line]) -> Option<Fault>
    ensures { result ≡ rows_behind is_root (row text.now line) (rows text.now others.now) }
{
    match others {
        [] => None,
        [next, ..] => {
            let kind = kind_of_end(is_root && next.column <= line.column);
            Some(at_line(*next, kind))
        }
    }
}

// The scalar or the flow value at the front of a line's rest.
fn value_in<'a>(
    alloc: Global,
    text: &[u8],
    depth: usize,
    line: Line,
    mode: Mode,
    bytes: &'a [u8],
) -> Result<(NodeValue, &'a [u8]), Stop<Fault>>
    requires { IsWithin text.now line }
    ensures { Gives (λ v. (content_of_value v.0, v.1.now)) result (in_row (row text.now line) (value_at depth line.number mode bytes.now)) }
{
    match flow::value_at(alloc, depth, line.number, mode, bytes) {
        Ok(read) => Ok(read),
        Err(stop) => Err(stop_in(text, line, stop)),
    }
}

/// A scalar or a flow value, behind which nothing more stands.
pub fn alone(
    alloc: Global,
    text: &[u8],
    depth: usize,
    is_root: bool,
    tagging: Tagging,
    line: Line,
    others: &[Line],
    bytes: &[u8],
) -> Result<Node, Stop<Fault>>
    requires { IsWithin text.now line }
    ensures { Gives shape_of result (alone depth is_root (tagging_view tagging) (row text.now line) (rows text.now others.now) bytes.now) }
{
    let (value, rest) = value_in(alloc, text, depth, line, tagging.mode(), bytes)?;
    let behind = text_behind(text, line, spaces::after_gap(rest));
    match behind.or(lines_behind(text, is_root, line, others)) {
        Some(fault) => Err(Stop::At(fault)),
        None => Ok(tagging.into_node(line.number, value)),
    }
}

/// The tag whose `!` stands before a line's rest, and what stands behind the tag.
pub fn tagging_at<'a>(
    alloc: Global,
    text: &[u8],
    line: Line,
    rest: &'a [u8],
) -> Result<(Tagging, &'a [u8]), Stop<Fault>>
    requires { IsWithin text.now line }
    ensures { Gives (λ t. (tagging_view t.0, t.1.now)) result (tagging_at (row text.now line) (33 ∷ rest.now)) }
{
    match tags::tag_at(alloc, false, rest) {
        Ok((tag, behind)) => {
            let left = 1 + rest.len();
            let kind = YamlKind::Tag;
            let place = place_in(text, line, LineFault { left, kind });
            Ok((tagging_of(place, tag), spaces::after_gap(behind)))
        }
        Err(stop) => Err(stop_in(text, line, stop)),
    }
}

// What a tag at a place makes of the value behind it.
fn tagging_of(place: Fault, tag: Tag) -> Tagging
    ensures { tagging_view result ≡ tagging_of place (tag_view tag) }
{
    match tag {
        Tag::Named(name) => Tagging::Tagged {
            line: place.line,
            name,
        },
        Tag::Base64 => Tagging::Base64(place),
    }
}
