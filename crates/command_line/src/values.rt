//! The values that options may have.
ghost use Rattle.std.specs.Prelude.{◌≡◌, ◌≤◌, true, IfSome, option_map};
ghost use Rattle.std.specs.Char.{is_ascii_digit};
ghost use Rattle.std.specs.List.{list_all};
ghost use Rattle.command_line.specs.Values.{decimal_of, file_of, is_decimal, is_file, key_of, number_of};

use hex::FromHex;

/// The text, where it may name a file: it is neither empty nor `-`, which stands for standard input.
pub(crate) fn file_name(text: &str) -> Option<&str>
    ensures value { option_map (λ name. name.now) result ≡ file_of text.now }
    ensures named { IfSome result (λ name. is_file name.now ≡ true) }
{
    if text.is_empty() || text == "-" {
        None
    } else {
        Some(text)
    }
}

// Whether each byte is a decimal digit.
fn are_digits(text: &str) -> bool
    ensures { result ≡ list_all is_ascii_digit text.now }
{
    text.as_bytes().iter().all(|b| b.is_ascii_digit())
}

// Whether the text is 1 to 19 decimal digits.
fn is_decimal(text: &str) -> bool
    ensures { result ≡ is_decimal text.now }
{
    !text.is_empty() && text.len() <= 19 && are_digits(text)
}

/// The number that 1 to 19 decimal digits write, with leading zeros or without. `None` for any other text.
pub(crate) fn decimal(text: &str) -> Option<u64>
    ensures { result ≡ decimal_of text.now }
{
    if is_decimal(text) {
        text.parse().ok()
    } else {
        None
    }
}

/// A number from `least` to `most`, in 1 to 19 decimal digits. `None` for any other text.
pub(crate) fn number_within(least: u64, most: u64, text: &str) -> Option<u64>
    ensures value { result ≡ number_of least most text.now }
    ensures within { IfSome result (λ n. (least ≤ n) × (n ≤ most)) }
{
    let n = decimal(text)?;
    if least <= n && n <= most {
        Some(n)
    } else {
        None
    }
}

/// The 32 bytes that 64 hexadecimal digits write, in either case. `None` for any other text.
pub(crate) fn key(text: &str) -> Option<[u8; 32]>
    ensures { result ≡ key_of text.now }
{
    <[u8; 32] as FromHex>::from_hex(text).ok()
}
