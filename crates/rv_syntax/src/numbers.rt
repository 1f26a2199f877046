//! Numbers, as they are written.
ghost use Rattle.std.specs.Prelude.{◌≡◌, ◌<◌, ◌≤ℤ◌, IfSome, pos, neg_ℤ};
ghost use Rattle.rv_syntax.specs.Numbers.{digit_of, with_digit, digits_behind, digits_of, number_of, number_within};

// The value of a digit: 0 to 9, a to f and A to F.
fn digit(b: u8) -> Option<u8>
    ensures exact { result ≡ digit_of b }
    ensures small { IfSome result (λ value. value < 16) }
{
    match b {
        b'0'..=b'9' => Some(b - b'0'),
        b'a'..=b'f' => Some(b - b'a' + 10),
        b'A'..=b'F' => Some(b - b'A' + 10),
        _ => None,
    }
}

// The number that a digit of this value makes behind a number. `None` exactly where it is no digit in this base, or
// where the number needs more than 64 bits.
fn with_digit(base: u64, n: u64, digit: u8) -> Option<u64>
    requires { base < 17 }
    ensures { result ≡ with_digit base n digit }
{
    let digit = u64::from(digit);
    if digit >= base {
        return None;
    }
    n.checked_mul(base)?.checked_add(digit)
}

// The number that digits make behind a number.
fn digits_behind(base: u64, mut n: u64, digits: &[u8]) -> Option<u64>
    requires { base < 17 }
    ensures { result ≡ digits_behind base n digits.now }
{
    for b in digits {
        n = with_digit(base, n, digit(*b)?)?;
    }
    Some(n)
}

// The number of one or more digits, of at most 64 bits.
fn digits_of(base: u64, digits: &[u8]) -> Option<u64>
    requires { base < 17 }
    ensures { result ≡ digits_of base digits.now }
{
    match digits {
        [] => None,
        _ => digits_behind(base, 0, digits),
    }
}

/// The number that a text stands for: hexadecimal digits behind `0x`, or decimal digits, perhaps behind `-`.
#[tactic(auto, unfolding(crate::specs::Numbers::number_of))]
pub fn number(text: &[u8]) -> Option<i128>
    ensures { result ≡ number_of text.now }
{
    if text.starts_with(b"0x") {
        return Some(i128::from(digits_of(16, &text[2..])?));
    }
    if text.starts_with(b"-") {
        return Some(-i128::from(digits_of(10, &text[1..])?));
    }
    Some(i128::from(digits_of(10, text)?))
}

/// The number that a text stands for, if it is from the first bound to the second.
#[tactic(auto, unfolding(crate::specs::Numbers::number_within))]
pub fn number_within(text: &[u8], low: i128, high: i128) -> Option<i128>
    ensures exact { result ≡ number_within low high text.now }
    ensures range { IfSome result (λ n. (low ≤ℤ n) × (n ≤ℤ high)) }
{
    let n = number(text)?;
    if low <= n && n <= high { Some(n) } else { None }
}
