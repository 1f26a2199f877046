//! The record at the front of a text.
ghost use Rattle.std.specs.Prelude.{◌≡◌, ◌<◌, ◌++◌, ℕ, List, IfOk, Some, length, nat_lt};
ghost use Rattle.std.specs.List.{list_all};
ghost use Rattle.std.specs.Str.{is_utf8};
ghost use Rattle.lists.specs.Options.{Reads};
ghost use Rattle.tree_records.specs.Records.{Record as RecordOf, IsRecord, encoded};
ghost use Rattle.tree_records.specs.Reading.{is_dots, is_sized, is_name, names_in, are_path, path_at, is_link_text, record_of, record_with_content, record_with, record_at};
ghost use Rattle.tree_records.specs.Views.{read_seen, record_seen};

use crate::escapes::unescape;
use crate::fault::{Malformed, Read};
use crate::limits::{MOST_NAME_BYTES, MOST_PATH_BYTES, MOST_TEXT_BYTES};
use crate::path::Path;
use crate::pieces::{content, number, split_once};
use crate::record::Record;
use lists::Stop;
use std::alloc::Global;
use std::str;

fn is_utf8(bytes: &[u8]) -> bool
    ensures { result ≡ is_utf8 bytes.now }
{
    str::from_utf8(bytes).is_ok()
}

fn has_no_zero(bytes: &[u8]) -> bool
    ensures { result ≡ list_all (λ b. nat_lt 0 b) bytes.now }
{
    bytes.iter().all(|byte| *byte > 0)
}

// Whether it is a name that stands for another directory.
fn is_dots(name: &[u8]) -> bool
    ensures { result ≡ is_dots name.now }
{
    matches!(name, b"." | b"..")
}

fn is_sized(bytes: &[u8], most: u64) -> bool
    ensures { result ≡ is_sized bytes.now most }
{
    !bytes.is_empty() && bytes.len() as u64 <= most
}

fn is_name(name: &[u8]) -> bool
    ensures { result ≡ is_name name.now }
{
    is_sized(name, MOST_NAME_BYTES) && !is_dots(name) && has_no_zero(name)
}

fn are_names(bytes: &[u8]) -> bool
    ensures { result ≡ list_all is_name (names_in bytes.now) }
{
    bytes.split(|byte| *byte == b'/').all(is_name)
}

fn are_path(bytes: &[u8]) -> bool
    ensures { result ≡ are_path bytes.now }
{
    is_sized(bytes, MOST_PATH_BYTES) && is_utf8(bytes) && are_names(bytes)
}

// The path that a text writes.
#[tactic(auto, unfolding(crate::specs::Reading::path_at))]
fn path(alloc: Global, text: &[u8]) -> Read<Path>
    ensures { Reads (λ p. p) result (path_at text.now) }
{
    let bytes = unescape(alloc, text)?;
    if are_path(&bytes) {
        Ok(Path { bytes })
    } else {
        Err(Stop::At(Malformed))
    }
}

fn is_link_text(text: &[u8]) -> bool
    ensures { result ≡ is_link_text text.now }
{
    is_sized(text, MOST_TEXT_BYTES) && is_utf8(text) && has_no_zero(text)
}

// The record of a word, a path and a content.
fn record_of<'a>(alloc: Global, word: &[u8], path: Path, content: &'a [u8]) -> Read<Record<'a>>
    ensures { Reads record_seen result (record_of word.now path content.now) }
{
    match word {
        b"file" => Ok(Record::File {
            path,
            bytes: content,
        }),
        b"link" if is_link_text(content) => Ok(Record::Link {
            path,
            text: content,
        }),
        b"hard" => {
            let target = self::path(alloc, content)?;
            Ok(Record::Hard { path, target })
        }
        _ => Err(Stop::At(Malformed)),
    }
}

// The record of a word, what follows it in its line, and what stands behind the line, where it has a content.
#[tactic(auto, unfolding(crate::specs::Reading::record_with_content))]
fn record_with_content<'a>(
    alloc: Global,
    word: &[u8],
    arguments: &[u8],
    behind: &'a [u8],
) -> Read<(Record<'a>, &'a [u8])>
    ensures { Reads read_seen result (record_with_content word.now arguments.now behind.now) }
{
    let (digits, text) = split_once(b' ', arguments)?;
    let (content, rest) = content(number(digits)?, behind)?;
    let record = record_of(alloc, word, path(alloc, text)?, content)?;
    Ok((record, rest))
}

// The record of a word, what follows it in its line, and what stands behind the line.
fn record_with<'a>(
    alloc: Global,
    word: &[u8],
    arguments: &[u8],
    behind: &'a [u8],
) -> Read<(Record<'a>, &'a [u8])>
    ensures { Reads read_seen result (record_with word.now arguments.now behind.now) }
{
    match word {
        b"dir" => {
            let path = path(alloc, arguments)?;
            Ok((Record::Dir { path }, behind))
        }
        _ => record_with_content(alloc, word, arguments, behind),
    }
}

#[tactic(auto, unfolding(crate::specs::Reading::record_at))]
fn record(alloc: Global, bytes: &[u8]) -> Read<(Record<'_>, &[u8])>
    ensures { Reads read_seen result (record_at bytes.now) }
{
    let (head, behind) = split_once(b'\n', bytes)?;
    let (word, arguments) = split_once(b' ', head)?;
    record_with(alloc, word, arguments, behind)
}

/// The record at the front of a text, and what stands behind it. The record's bytes are those of the text.
///
/// # Errors
/// [`Stop::At`] exactly where no record's text stands at the front, and [`Stop::Memory`] where there is no memory for
/// the record's paths. It takes time by the length of the record's first line.
pub fn read_record(alloc: Global, bytes: &[u8]) -> Read<(Record<'_>, &[u8])>
    // What is read may be a record, and its text stands at the front.
    ensures found { IfOk result (λ x. IsRecord (record_seen x.0) × (bytes.now ≡ encoded (record_seen x.0) ++ x.1.now)) }
    // Where a record's text stands at the front, that record is read, unless memory runs out.
    ensures only { (r : RecordOf) (rest : List ℕ) → IsRecord r → bytes.now ≡ encoded r ++ rest
        → Reads read_seen result (Some (r, rest)) }
    ensures shorter { IfOk result (λ x. length x.1.now < length bytes.now) }
{
    record(alloc, bytes)
}
