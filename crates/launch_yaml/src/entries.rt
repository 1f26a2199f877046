//! The lines that belong to an entry of a map or a sequence.
ghost use Rattle.std.specs.Prelude.{◌≡◌, ◌≤◌, ◌&&◌, length};
ghost use Rattle.std.specs.List.{take_while, prefix_len};
ghost use Rattle.launch_lines.specs.Views.{row, rows, IsWithin, AllWithin, lines_from};
ghost use Rattle.launch_lines.specs.Rows.{is_open};
ghost use Rattle.launch_yaml.specs.Entries.{is_deeper, is_item_at, begins_with_item_at, belongs_there, belongs, after_while};

use launch_lines::line::{Line, content};
use launch_lines::rows;

fn is_item_at(text: &[u8], column: usize, line: Line) -> bool
    requires { IsWithin text.now line }
    ensures { result ≡ is_item_at column (row text.now line) }
{
    line.column as usize == column && rows::is_dash(content(text, line))
}

// A deeper line that has only a tag.
fn is_tag_deeper(text: &[u8], column: usize, line: Line) -> bool
    requires { IsWithin text.now line }
    ensures { result ≡ (is_deeper column (row text.now line) && is_open (row text.now line).content) }
{
    column < line.column as usize && rows::is_open(content(text, line))
}

// An item stands at the column, perhaps behind deeper lines that have only a tag.
fn begins_with_item_at(text: &[u8], column: usize, lines: &[Line]) -> bool
    requires { AllWithin text.now lines.now }
    ensures { result ≡ begins_with_item_at column (rows text.now lines.now) }
{
    let mut rest = lines;
    while let [line, after @ ..] = rest {
        if is_item_at(text, column, *line) {
            return true;
        }
        if !is_tag_deeper(text, column, *line) {
            return false;
        }
        rest = after;
    }
    false
}

// A deeper line belongs to an entry, and where the entry has items at its column, an item there does.
fn belongs(text: &[u8], column: usize, items: bool, line: Line) -> bool
    requires { IsWithin text.now line }
    ensures { result ≡ belongs_there column items (row text.now line) }
{
    column < line.column as usize || items && is_item_at(text, column, line)
}

// An entry that awaits its value has the items at its column, if the lines behind it begin with one.
fn has_items(text: &[u8], column: usize, awaits: bool, lines: &[Line]) -> bool
    requires { AllWithin text.now lines.now }
    ensures { result ≡ (awaits && begins_with_item_at column (rows text.now lines.now)) }
{
    awaits && begins_with_item_at(text, column, lines)
}

// How many lines from the front on belong to an entry.
fn count(text: &[u8], column: usize, items: bool, lines: &[Line]) -> usize
    requires { AllWithin text.now lines.now }
    ensures value { result ≡ prefix_len (belongs_there column items) (rows text.now lines.now) }
    ensures inside { result ≤ length lines.now }
{
    let mut count = 0;
    let mut rest = lines;
    while let [line, after @ ..] = rest {
        if !belongs(text, column, items, *line) {
            return count;
        }
        count += 1;
        rest = after;
    }
    count
}

/// The lines that belong to an entry at a column, and those behind them. The entry may be a key that awaits its value.
pub fn split<'a>(
    text: &[u8],
    column: usize,
    awaits: bool,
    lines: &'a [Line],
) -> (&'a [Line], &'a [Line])
    requires { AllWithin text.now lines.now }
    ensures mine { rows text.now result.0.now ≡ take_while (belongs column awaits (rows text.now lines.now)) (rows text.now lines.now) }
    ensures after { rows text.now result.1.now ≡ after_while (belongs column awaits (rows text.now lines.now)) (rows text.now lines.now) }
    ensures mine_within { AllWithin text.now result.0.now }
    ensures after_within { AllWithin text.now result.1.now }
    ensures mine_shorter { length result.0.now ≤ length lines.now }
    ensures shorter { length result.1.now ≤ length lines.now }
{
    let items = has_items(text, column, awaits, lines);
    lines.split_at(count(text, column, items, lines))
}

/// The first of the lines, if there is one, and those behind it.
pub fn split_first(lines: &[Line]) -> (Option<Line>, &[Line])
    ensures { lines_from result.0 result.1.now ≡ lines.now }
{
    match lines {
        [] => (None, &[]),
        [first, rest @ ..] => (Some(*first), rest),
    }
}
