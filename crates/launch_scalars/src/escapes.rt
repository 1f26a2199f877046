//! Escapes of a double-quoted scalar.
ghost use Rattle.std.specs.Prelude.{◌≡◌, ◌<◌, ◌≤◌, ◌+◌, ◌*◌, ◌^◌, IfSome, List, ℕ, length, drop, option_map, Some};
ghost use Rattle.launch_scalars.specs.Quoted.{hexadecimal, character_of, letter_of, escape};
ghost use Rattle.launch_scalars.specs.PieceViews.{bytes_of};

use crate::digits::digit;

/// What a part of a quoted scalar adds to its content.
#[derive(Clone, Copy, Drop)]
pub enum Piece {
    /// A byte.
    Byte(u8),
    /// The bytes of a character.
    Character(char),
}

// The number that two hexadecimal digits make behind a number, and what stands behind them.
fn with_two_digits(number: u32, bytes: &[u8]) -> Option<(u32, &[u8])>
    requires { number < 2 ^ 16 }
    ensures value { option_map (λ n. n.0) result ≡ hexadecimal 2 (Some number) bytes.now }
    ensures rest { IfSome result (λ n. n.1.now ≡ drop 2 bytes.now) }
    ensures below { IfSome result (λ n. n.0 < 256 * number + 256) }
{
    match bytes {
        [first, second, rest @ ..] => {
            let high = digit(*first)?;
            let low = digit(*second)?;
            Some((16 * (16 * number + high) + low, rest))
        }
        _ => None,
    }
}

// The number of four hexadecimal digits, and what stands behind them.
fn four_digits(bytes: &[u8]) -> Option<(u32, &[u8])>
    ensures value { option_map (λ n. n.0) result ≡ hexadecimal 4 (Some 0) bytes.now }
    ensures rest { IfSome result (λ n. n.1.now ≡ drop 4 bytes.now) }
    ensures below { IfSome result (λ n. n.0 < 2 ^ 16) }
{
    let (high, rest) = with_two_digits(0, bytes)?;
    with_two_digits(high, rest)
}

// The character of a number, unless it is zero or a surrogate.
fn character(number: u32) -> Option<Piece>
    requires { number < 2 ^ 16 }
    ensures { option_map bytes_of result ≡ character_of (Some number) }
{
    match char::from_u32(number) {
        Some(character) if number > 0 => Some(Piece::Character(character)),
        _ => None,
    }
}

// What `xHH` stands for behind a backslash, and what stands behind it.
fn of_two_digits(bytes: &[u8]) -> Option<(Piece, &[u8])>
    ensures reads { option_map {U = List ℕ × List ℕ} (λ p. (bytes_of p.0, p.1.now)) result ≡ option_map {U = List ℕ × List ℕ} (λ c. (c, drop 2 bytes.now)) (character_of (hexadecimal 2 (Some 0) bytes.now)) }
    ensures no_longer { IfSome result (λ p. length p.1.now ≤ length bytes.now) }
{
    let (number, rest) = with_two_digits(0, bytes)?;
    Some((character(number)?, rest))
}

// What `uHHHH` stands for behind a backslash, and what stands behind it.
fn of_four_digits(bytes: &[u8]) -> Option<(Piece, &[u8])>
    ensures reads { option_map {U = List ℕ × List ℕ} (λ p. (bytes_of p.0, p.1.now)) result ≡ option_map {U = List ℕ × List ℕ} (λ c. (c, drop 4 bytes.now)) (character_of (hexadecimal 4 (Some 0) bytes.now)) }
    ensures no_longer { IfSome result (λ p. length p.1.now ≤ length bytes.now) }
{
    let (number, rest) = four_digits(bytes)?;
    Some((character(number)?, rest))
}

// What an escape of one letter stands for.
fn letter(byte: u8) -> Option<u8>
    ensures { result ≡ letter_of byte }
{
    match byte {
        b'"' | b'\\' | b'/' => Some(byte),
        b'n' => Some(b'\n'),
        b't' => Some(b'\t'),
        b'r' => Some(b'\r'),
        _ => None,
    }
}

/// What the escape of a backslash that stands before these bytes stands for, and what stands behind it. Nothing, where it is
/// none of the escapes that there are, or stands for no character.
pub fn escape(bytes: &[u8]) -> Option<(Piece, &[u8])>
    ensures reads { option_map {U = List ℕ × List ℕ} (λ p. (bytes_of p.0, p.1.now)) result ≡ option_map {U = List ℕ × List ℕ} (λ e. (e.0, drop e.1 bytes.now)) (escape bytes.now) }
    ensures shorter { IfSome result (λ p. length p.1.now < length bytes.now) }
{
    match bytes {
        [b'x', digits @ ..] => of_two_digits(digits),
        [b'u', digits @ ..] => of_four_digits(digits),
        [byte, rest @ ..] => Some((Piece::Byte(letter(*byte)?), rest)),
        [] => None,
    }
}
