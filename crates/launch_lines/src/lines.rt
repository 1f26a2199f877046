//! The lines of a text: those in which something stands, and the faults that are found from the lines alone.
ghost use Rattle.std.specs.Prelude.{◌≡◌, ◌<◌, ◌≤◌, ◌-◌, ◌∷◌, ◌^◌, IfOk, IfSome, None, OnOk, length, take, drop, map, option_map, option_to_list};
ghost use Rattle.std.specs.List.{prefix_len};
ghost use Rattle.launch_lines.specs.Lines.{is_no_feed, lines_of, lines_behind, without_mark, without_return, tab_at, or_further, plain_fault_in, plain_fault};
ghost use Rattle.launch_lines.specs.Rows.{indentation, row_of, rows_from};
ghost use Rattle.launch_lines.specs.Views.{row, rows, IsWithin, AllWithin};

use crate::fault::Fault;
use crate::faults::first_fault;
use crate::line::Line;
use launch_scalars::YamlKind;
use launch_scalars::characters::bad_at;
use std::alloc::{AllocError, Global};

/// The text without U+FEFF at its front.
pub fn without_mark(text: &[u8]) -> &[u8]
    ensures { result.now ≡ without_mark text.now }
{
    match text {
        [0xef, 0xbb, 0xbf, rest @ ..] => rest,
        other => other,
    }
}

// How many bytes stand before the first line feed.
fn line_length(text: &[u8]) -> usize
    ensures value { result ≡ prefix_len is_no_feed text.now }
    ensures inside { result ≤ length text.now }
{
    let mut count = 0;
    let mut rest = text;
    while let [byte, after @ ..] = rest {
        if *byte == b'\n' {
            return count;
        }
        count += 1;
        rest = after;
    }
    count
}

fn without_return(line: &[u8]) -> &[u8]
    ensures value { result.now ≡ without_return line.now }
    ensures front { result.now ≡ take (length result.now) line.now }
{
    let Some((last, front)) = line.split_last() else {
        return line;
    };
    if *last == b'\r' { front } else { line }
}

// The first line, and what stands behind its line feed, if there is one.
fn next_line(text: &[u8]) -> (&[u8], Option<&[u8]>)
    ensures line { lines_of text.now ≡ result.0.now ∷ lines_behind (option_map (λ r. r.now) result.1) }
    ensures front { result.0.now ≡ take (length result.0.now) text.now }
    ensures shorter { IfSome result.1 (λ r. length r.now < length text.now) }
    ensures behind { IfSome result.1 (λ r. r.now ≡ drop (length text.now - length r.now) text.now) }
{
    let (line, rest) = text.split_at(line_length(text));
    match rest {
        [] => (line, None),
        [_, after @ ..] => (without_return(line), Some(after)),
    }
}

// How many bytes stand before the first tab of a line's indentation.
fn tab_at(line: &[u8]) -> Option<usize>
    ensures { result ≡ tab_at line.now }
{
    let mut count = 0;
    let mut rest = line;
    while let [byte, after @ ..] = rest {
        match byte {
            b' ' => count += 1,
            b'\t' => return Some(count),
            _ => return None,
        }
        rest = after;
    }
    None
}

fn fault_at(line: u32, kind: YamlKind, column: Option<usize>) -> Option<Fault>
    ensures { result ≡ or_further line kind None column }
{
    column.map(|column| Fault { line, column, kind })
}

// The first byte in one line that may not be in a text, or the first tab in its indentation.
fn plain_fault_in(number: u32, line: &[u8]) -> Option<Fault>
    ensures { result ≡ plain_fault_in number line.now }
{
    first_fault(
        fault_at(number, YamlKind::Character, bad_at(line)),
        fault_at(number, YamlKind::Tab, tab_at(line)),
    )
}

/// The first byte that may not be in a text, or the first tab in indentation. The text has fewer than 2^32 lines.
#[tactic(auto, unfolding(crate::specs::Lines::plain_fault))]
pub fn plain_fault(text: &[u8]) -> Option<Fault>
    requires { length (lines_of text.now) < 2 ^ 32 }
    ensures { result ≡ plain_fault (lines_of text.now) }
{
    let mut number = 1;
    let mut rest = text;
    loop {
        let (line, behind) = next_line(rest);
        if let Some(fault) = plain_fault_in(number, line) {
            return Some(fault);
        }
        let Some(after) = behind else {
            return None;
        };
        number += 1;
        rest = after;
    }
}

fn indentation(line: &[u8]) -> usize
    ensures value { result ≡ indentation line.now }
    ensures inside { result ≤ length line.now }
{
    let mut count = 0;
    let mut rest = line;
    while let [b' ' | b'\t', after @ ..] = rest {
        count += 1;
        rest = after;
    }
    count
}

// The row of a line; none, where it is blank or has only a comment.
fn row_of(text: &[u8], number: u32, start: usize, end: usize) -> Option<Line>
    requires order { start ≤ end }
    requires inside { end ≤ length text.now }
    requires short { end < 2 ^ 32 }
    ensures row { map (row text.now) (option_to_list result) ≡ row_of number (take (end - start) (drop start text.now)) }
    ensures within { IfSome result (IsWithin text.now) }
{
    let line = &text[start..end];
    let column = indentation(line);
    let [first, ..] = line.split_at(column).1 else {
        return None;
    };
    if *first == b'#' {
        return None;
    }
    Some(Line {
        number,
        column: column as u32,
        start: (start + column) as u32,
        end: end as u32,
    })
}

/// The lines in which something stands. There is no memory for those of a text of 2^32 bytes or more.
pub fn rows(alloc: Global, text: &[u8]) -> Result<Vec<Line>, AllocError>
    ensures rows { IfOk result (λ ls. rows text.now ls.items ≡ rows_from 1 (lines_of text.now)) }
    ensures within { IfOk result (λ ls. AllWithin text.now ls.items) }
    ensures count { OnOk result (length (lines_of text.now) < 2 ^ 32) }
{
    if text.len() > u32::MAX as usize {
        return Err(AllocError);
    }
    let mut rows = Vec::new(alloc);
    let mut number: u32 = 1;
    let mut start = 0;
    let mut rest = text;
    loop {
        let (line, behind) = next_line(rest);
        if let Some(row) = row_of(text, number, start, start + line.len()) {
            rows.push(row)?;
        }
        let Some(after) = behind else {
            return Ok(rows);
        };
        number = number.checked_add(1).ok_or(AllocError)?;
        start = text.len() - after.len();
        rest = after;
    }
}
