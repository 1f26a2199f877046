//! What a plain scalar looks like: the numbers of YAML's core schema.
ghost use Rattle.std.specs.Prelude.{◌≡◌, ◌≤◌, ◌<◌, ◌∷◌, true, false, if◌then◌else◌, is_some, option_map, Some, None, pos, codes, []};
ghost use Rattle.launch_scalars.specs.Numbers.{if_in_range, is_word, are_digits, number_behind, without_sign, integer_of, has_digits, is_exponent_or_end, is_fraction, is_float};

use crate::digits::{after_digits, number};

fn without_sign(bytes: &[u8]) -> &[u8]
    ensures { result.now ≡ without_sign bytes.now }
{
    match bytes {
        [b'+' | b'-', rest @ ..] => rest,
        other => other,
    }
}

// An integer in decimal digits. One out of range is given as another out of range.
fn decimal(bytes: &[u8]) -> Option<i128>
    ensures form { is_some result ≡ are_digits 10 (without_sign bytes.now) }
    ensures value { are_digits 10 (without_sign bytes.now) ≡ true → option_map if_in_range result ≡ option_map if_in_range (integer_of bytes.now) }
{
    let magnitude = number(10, without_sign(bytes))? as i128;
    if bytes[0] == b'-' {
        Some(-magnitude)
    } else {
        Some(magnitude)
    }
}

// The integer of digits in another base. One out of range is given as another out of range.
fn unsigned(base: u32, digits: &[u8]) -> Option<i128>
    requires least { 0 < base }
    requires most { base ≤ 16 }
    ensures { option_map if_in_range result ≡ (if are_digits base digits.now then Some (if_in_range (pos (number_behind base 0 digits.now))) else None) }
{
    Some(number(base, digits)? as i128)
}

// An integer in a base that its prefix names. One out of range is given as another out of range.
fn prefixed(bytes: &[u8]) -> Option<i128>
    ensures { are_digits 10 (without_sign bytes.now) ≡ false → option_map if_in_range result ≡ option_map if_in_range (integer_of bytes.now) }
{
    match bytes {
        [b'0', b'x', digits @ ..] => unsigned(16, digits),
        [b'0', b'o', digits @ ..] => unsigned(8, digits),
        _ => None,
    }
}

/// The integer that a scalar of an integer's form stands for: none, where it has another form. In place of an integer
/// below -2^63 or above 2^64 - 1 it gives another one out of this range.
pub fn integer(bytes: &[u8]) -> Option<i128>
    ensures { option_map if_in_range result ≡ option_map if_in_range (integer_of bytes.now) }
{
    match decimal(bytes) {
        Some(integer) => Some(integer),
        None => prefixed(bytes),
    }
}

fn are_digits(bytes: &[u8]) -> bool
    ensures { result ≡ are_digits 10 bytes.now }
{
    number(10, bytes).is_some()
}

fn has_digits(bytes: &[u8]) -> bool
    ensures { result ≡ has_digits bytes.now }
{
    after_digits(bytes).len() < bytes.len()
}

fn is_exponent_or_end(bytes: &[u8]) -> bool
    ensures { result ≡ is_exponent_or_end bytes.now }
{
    match bytes {
        [] => true,
        [b'e' | b'E', rest @ ..] => are_digits(without_sign(rest)),
        _ => false,
    }
}

fn is_fraction(bytes: &[u8]) -> bool
    ensures { result ≡ is_fraction bytes.now }
{
    match after_digits(bytes) {
        [b'.', rest @ ..] => (has_digits(bytes) || has_digits(rest))
            && is_exponent_or_end(after_digits(rest)),
        rest => has_digits(bytes) && is_exponent_or_end(rest),
    }
}

fn is_infinity(bytes: &[u8]) -> bool
    ensures { result ≡ is_word (codes ".inf" ∷ codes ".Inf" ∷ codes ".INF" ∷ []) bytes.now }
{
    matches!(bytes, b".inf" | b".Inf" | b".INF")
}

fn is_no_number(bytes: &[u8]) -> bool
    ensures { result ≡ is_word (codes ".nan" ∷ codes ".NaN" ∷ codes ".NAN" ∷ []) bytes.now }
{
    matches!(bytes, b".nan" | b".NaN" | b".NAN")
}

/// Whether a scalar that isn't an integer is a number with a point or an exponent, an infinity, or what is no number.
pub fn is_float(bytes: &[u8]) -> bool
    ensures { result ≡ is_float bytes.now }
{
    let unsigned = without_sign(bytes);
    is_fraction(unsigned) || is_infinity(unsigned) || is_no_number(bytes)
}
