//! Pieces of a record's text: what stands before a byte, numbers, and contents.
ghost use Rattle.std.specs.Prelude.{◌≡◌, ◌≤◌, ◌∷◌, [], IfOk};
ghost use Rattle.lists.specs.Options.{Reads};
ghost use Rattle.tree_model.specs.declared.limits.TheConstants.{MOST_FILE_BYTES};
ghost use Rattle.tree_records.specs.Reading.{split_once, is_digit, number_behind, number_at, content_at};

use crate::fault::{Malformed, Read};
use lists::Stop;
use tree_model::MOST_FILE_BYTES;

/// What stands before the first such byte, and what stands behind it.
pub fn split_once(byte: u8, bytes: &[u8]) -> Read<(&[u8], &[u8])>
    ensures { Reads (λ s. (s.0.now, s.1.now)) result (split_once byte bytes.now) }
{
    for (i, b) in bytes.iter().enumerate() {
        if *b == byte {
            return Ok((&bytes[..i], &bytes[i + 1..]));
        }
    }
    Err(Stop::At(Malformed))
}

// The number that a digit makes behind a number.
fn with_digit(number: u64, byte: u8) -> Read<u64>
    requires { number ≤ MOST_FILE_BYTES }
    ensures value { Reads (λ n. n) result (number_behind number (byte ∷ [])) }
    ensures small { IfOk result (λ n. n ≤ MOST_FILE_BYTES) }
{
    if !byte.is_ascii_digit() {
        return Err(Stop::At(Malformed));
    }
    let more = 10 * number + u64::from(byte - b'0');
    if more <= MOST_FILE_BYTES {
        Ok(more)
    } else {
        Err(Stop::At(Malformed))
    }
}

/// The number of decimal digits without leading zeros. It is at most the most bytes of a file.
pub fn number(digits: &[u8]) -> Read<u64>
    ensures value { Reads (λ n. n) result (number_at digits.now) }
    ensures small { IfOk result (λ n. n ≤ MOST_FILE_BYTES) }
{
    if digits.is_empty() || digits[0] == b'0' && digits.len() > 1 {
        return Err(Stop::At(Malformed));
    }
    let mut number = 0;
    for byte in digits {
        number = with_digit(number, *byte)?;
    }
    Ok(number)
}

/// So many bytes before a line feed, and what stands behind that.
pub fn content(count: u64, bytes: &[u8]) -> Read<(&[u8], &[u8])>
    requires { count ≤ MOST_FILE_BYTES }
    ensures { Reads (λ s. (s.0.now, s.1.now)) result (content_at count bytes.now) }
{
    let count = count as usize;
    if count < bytes.len() && bytes[count] == b'\n' {
        Ok((&bytes[..count], &bytes[count + 1..]))
    } else {
        Err(Stop::At(Malformed))
    }
}
