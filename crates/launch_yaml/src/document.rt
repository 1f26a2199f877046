//! Documents.
ghost use Rattle.std.specs.Prelude.{◌≡◌, ◌≤◌, ◌==◌, ◌&&◌, ℕ, nat_eq, nat_le, length, drop, List, Ok, None, Result, IfOk};
ghost use Rattle.std.specs.List.{starts_with, take_while, prefix_len};
ghost use Rattle.launch_values.specs.Documents.{IsDocument};
ghost use Rattle.launch_values.specs.Shape.{Shape, node, null};
ghost use Rattle.launch_scalars.specs.Spaces.{after_gap};
ghost use Rattle.launch_values.specs.Views.{shape_of};
ghost use Rattle.launch_lines.specs.declared.fault.Fault.{Fault};
ghost use Rattle.launch_lines.specs.Faults.{unless, beside};
ghost use Rattle.launch_lines.specs.Rows.{is_alone, is_start, is_stop, is_before_space, is_marker, is_directive};
ghost use Rattle.launch_yaml.specs.Entries.{after_while};
ghost use Rattle.lists.specs.Results.{Gives};
ghost use Rattle.launch_lines.specs.Views.{row, rows, IsWithin, AllWithin};
ghost use Rattle.launch_yaml.specs.Document.{is_inside, first_column, end_at, after_document, root_of, body_of, after_directive, after_head, document_of, parse_at};

use crate::blocks;
use launch_lines::fault::Fault;
use launch_lines::faults::first_of;
use launch_lines::line::{Line, at_line, content};
use launch_lines::lines;
use launch_scalars::YamlKind;
use launch_scalars::plain::is_space_or_end;
use launch_scalars::spaces::after_gap;
use launch_values::{Node, NodeValue};
use lists::Stop;
use std::alloc::Global;

/// A launch file as a document.
#[derive(Drop)]
pub struct Doc {
    /// Its value. An empty document is a null on line 1.
    pub root: Node,
}

// So many maps and sequences may stand inside each other.
const GREATEST_DEPTH: usize = 64;

// The line begins with this text, and nothing else is in it but perhaps a comment.
fn is_only(expected: &[u8], line: &[u8]) -> bool
    ensures { result ≡ (starts_with nat_eq line.now expected.now && (length (after_gap (drop (length expected.now) line.now)) == 0)) }
{
    line.starts_with(expected) && after_gap(line.split_at(expected.len()).1).is_empty()
}

fn is_alone(text: &[u8], expected: &[u8], line: Line) -> bool
    requires { IsWithin text.now line }
    ensures { result ≡ is_alone expected.now (row text.now line) }
{
    line.column == 0 && is_only(expected, content(text, line))
}

fn is_start(text: &[u8], line: Line) -> bool
    requires { IsWithin text.now line }
    ensures { result ≡ is_start (row text.now line) }
{
    is_alone(text, b"---", line)
}

fn is_stop(text: &[u8], line: Line) -> bool
    requires { IsWithin text.now line }
    ensures { result ≡ is_stop (row text.now line) }
{
    is_alone(text, b"...", line)
}

// The line begins with this text, and behind it stands a space or nothing.
fn is_before_space(expected: &[u8], line: &[u8]) -> bool
    ensures { result ≡ is_before_space expected.now line.now }
{
    line.starts_with(expected) && is_space_or_end(line.split_at(expected.len()).1)
}

// `---` or `...` at the line's front, with or without text behind it.
fn is_marker(text: &[u8], line: Line) -> bool
    requires { IsWithin text.now line }
    ensures { result ≡ is_marker (row text.now line) }
{
    let bytes = content(text, line);
    line.column == 0 && (is_before_space(b"---", bytes) || is_before_space(b"...", bytes))
}

// The directive that says what `!` stands for.
fn is_directive(text: &[u8], line: Line) -> bool
    requires { IsWithin text.now line }
    ensures { result ≡ is_directive (row text.now line) }
{
    is_alone(text, b"%TAG ! tag:nuxi.nl,2015:cloudabi/", line)
}

fn is_inside(text: &[u8], column: usize, line: Line) -> bool
    requires { IsWithin text.now line }
    ensures { result ≡ is_inside column (row text.now line) }
{
    !is_marker(text, line) && column <= line.column as usize
}

// How many lines at the front are of the document whose first line stands at the column: none is a marker, and none left of it.
fn count_inside(text: &[u8], column: usize, lines: &[Line]) -> usize
    requires { AllWithin text.now lines.now }
    ensures value { result ≡ prefix_len (is_inside column) (rows text.now lines.now) }
    ensures inside { result ≤ length lines.now }
{
    let mut count = 0;
    let mut rest = lines;
    while let [line, after @ ..] = rest {
        if !is_inside(text, column, *line) {
            return count;
        }
        count += 1;
        rest = after;
    }
    count
}

// The first of these lines stands behind the document.
fn end_at(lines: &[Line]) -> Option<Fault>
    ensures { (text : List ℕ) → result ≡ end_at (rows text lines.now) }
{
    let line = lines.first()?;
    Some(Fault {
        line: line.number,
        column: line.column as usize,
        kind: YamlKind::End,
    })
}

// Behind a `...` nothing stands. A `---` doesn't stand behind a document.
fn after_document(text: &[u8], lines: &[Line]) -> Option<Fault>
    requires { AllWithin text.now lines.now }
    ensures { result ≡ after_document (rows text.now lines.now) }
{
    match lines {
        [line, after @ ..] if is_stop(text, *line) => end_at(after),
        _ => end_at(lines),
    }
}

// A node, unless there is a fault.
fn unless(fault: Option<Fault>, node: Node) -> Result<Node, Stop<Fault>>
    ensures { Gives shape_of result (unless fault (Ok (shape_of node))) }
{
    match fault {
        None => Ok(node),
        Some(fault) => Err(Stop::At(fault)),
    }
}

// An empty document.
fn nothing() -> Node
    ensures { shape_of result ≡ node 1 None null }
{
    Node {
        line: 1,
        tag: None,
        value: NodeValue::Null,
    }
}

// The value of the lines of a document.
fn root(alloc: Global, text: &[u8], lines: &[Line]) -> Result<Node, Stop<Fault>>
    requires { AllWithin text.now lines.now }
    ensures { Gives shape_of result (root_of (rows text.now lines.now)) }
{
    match lines {
        [] => Ok(nothing()),
        [first, others @ ..] => blocks::root(alloc, text, GREATEST_DEPTH, *first, others),
    }
}

fn first_column(lines: &[Line]) -> usize
    ensures { (text : List ℕ) → result ≡ first_column (rows text lines.now) }
{
    match lines {
        [] => 0,
        [first, ..] => first.column as usize,
    }
}

// The document whose head was read.
fn body(alloc: Global, text: &[u8], lines: &[Line]) -> Result<Node, Stop<Fault>>
    requires { AllWithin text.now lines.now }
    ensures { Gives shape_of result (body_of (rows text.now lines.now)) }
{
    let (inside, behind) = lines.split_at(count_inside(text, first_column(lines), lines));
    let value = root(alloc, text, inside)?;
    unless(after_document(text, behind), value)
}

// The lines behind a directive: `---` stands there first.
fn after_directive<'a>(
    text: &[u8],
    directive: Line,
    lines: &'a [Line],
) -> Result<&'a [Line], Stop<Fault>>
    requires { AllWithin text.now lines.now }
    ensures value { Gives (λ ls. rows text.now ls.now) result (after_directive (row text.now directive) (rows text.now lines.now)) }
    ensures within { IfOk result (λ ls. AllWithin text.now ls.now) }
{
    match lines {
        [line, others @ ..] if is_start(text, *line) => Ok(others),
        _ => Err(Stop::At(at_line(directive, YamlKind::Character))),
    }
}

// The lines behind a directive and a `---`. No value stands in the line of a marker.
fn after_head<'a>(text: &[u8], lines: &'a [Line]) -> Result<&'a [Line], Stop<Fault>>
    requires { AllWithin text.now lines.now }
    ensures value { Gives (λ ls. rows text.now ls.now) result (after_head (rows text.now lines.now)) }
    ensures within { IfOk result (λ ls. AllWithin text.now ls.now) }
{
    match lines {
        [] => Ok(lines),
        [first, others @ ..] => {
            if is_directive(text, *first) {
                after_directive(text, *first, others)
            } else if is_start(text, *first) {
                Ok(others)
            } else if is_marker(text, *first) && !is_stop(text, *first) {
                Err(Stop::At(at_line(*first, YamlKind::Character)))
            } else {
                Ok(lines)
            }
        }
    }
}

// The document that these lines are, its head among them.
fn document(alloc: Global, text: &[u8], lines: &[Line]) -> Result<Node, Stop<Fault>>
    requires { AllWithin text.now lines.now }
    ensures { Gives shape_of result (document_of (rows text.now lines.now)) }
{
    body(alloc, text, after_head(text, lines)?)
}

// What was read, unless there is a fault beside it: then the first one.
fn beside(fault: Option<Fault>, read: Result<Node, Stop<Fault>>) -> Result<Doc, Stop<Fault>>
    ensures { (y : Result Shape Fault) → Gives shape_of read y → Gives (λ doc. shape_of doc.root) result (beside fault y) }
{
    match (read, fault) {
        (Ok(root), None) => Ok(Doc { root }),
        (Ok(_), Some(fault)) => Err(Stop::At(fault)),
        (Err(Stop::At(other)), Some(fault)) => Err(Stop::At(first_of(fault, other))),
        (Err(stop), _) => Err(stop),
    }
}

#[tactic(auto, unfolding(crate::specs::Document::parse_at, launch_lines::specs::Lines::lines))]
fn read(alloc: Global, text: &[u8]) -> Result<Doc, Stop<Fault>>
    ensures { Gives (λ doc. shape_of doc.root) result (parse_at text.now) }
{
    let text = lines::without_mark(text);
    let rows = lines::rows(alloc, text)?;
    let fault = lines::plain_fault(text);
    beside(fault, document(alloc, text, rows.as_slice()))
}

/// The document that a text is, or its first fault. A text of 2^32 bytes or more comes to lack of memory.
pub fn parse(alloc: Global, text: &[u8]) -> Result<Doc, Stop<Fault>>
    ensures exact { Gives (λ doc. shape_of doc.root) result (parse_at text.now) }
    // At most 64 maps and sequences stand inside each other, integers are in range, and no text has a zero byte.
    ensures document { IfOk result (λ doc. IsDocument (shape_of doc.root)) }
{
    read(alloc, text)
}
