//! Lines by their places in the text.
ghost use Rattle.std.specs.Prelude.{◌≡◌};
ghost use Rattle.launch_lines.specs.Views.{row, IsWithin, IsEndOf};
ghost use Rattle.launch_lines.specs.Rows.{from, place_in};

use crate::fault::Fault;
use launch_scalars::{LineFault, YamlKind};

/// A line in which something stands, or the rest of one: where that is in the text.
#[derive(Clone, Copy, Drop)]
pub struct Line {
    /// The number of the line, from 1.
    pub number: u32,
    /// How many bytes of the line stand before.
    pub column: u32,
    /// The place of the first byte.
    pub start: u32,
    /// The place behind the last byte of the line.
    pub end: u32,
}

/// What stands from a line's column to its end.
pub fn content(text: &[u8], line: Line) -> &[u8]
    requires { IsWithin text.now line }
    ensures { result.now ≡ (row text.now line).content }
{
    &text[line.start as usize..line.end as usize]
}

/// The rest of a line, of which so many bytes are left, as a line of its own.
pub fn from(text: &[u8], line: Line, rest: &[u8]) -> Line
    requires within { IsWithin text.now line }
    requires rest { IsEndOf (row text.now line).content rest.now }
    ensures within { IsWithin text.now result }
    ensures row { row text.now result ≡ from (row text.now line) rest.now }
{
    let taken = (content(text, line).len() - rest.len()) as u32;
    Line {
        number: line.number,
        column: line.column + taken,
        start: line.start + taken,
        end: line.end,
    }
}

/// A fault in a line, with its place in the text.
pub fn place_in(text: &[u8], line: Line, fault: LineFault) -> Fault
    requires { IsWithin text.now line }
    ensures { result ≡ place_in (row text.now line) fault }
{
    let length = content(text, line).len();
    Fault {
        line: line.number,
        column: line.column as usize + length.saturating_sub(fault.left),
        kind: fault.kind,
    }
}

/// A fault where a line begins.
pub fn at_line(line: Line, kind: YamlKind) -> Fault
    ensures { result ≡ record { line = line.number; column = line.column; kind = kind } }
{
    Fault {
        line: line.number,
        column: line.column as usize,
        kind,
    }
}
