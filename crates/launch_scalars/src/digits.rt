//! Digits, and the numbers that they make.
ghost use Rattle.std.specs.Prelude.{◌≡◌, ◌≤◌, ◌<◌, ◌+◌, ◌*◌, ◌^◌, if◌then◌else◌, IfSome, Some, None, length};
ghost use Rattle.launch_scalars.specs.Quoted.{digit_of};
ghost use Rattle.launch_scalars.specs.Numbers.{is_digit, are_digits, number_behind, after_digits};
ghost use Rattle.launch_scalars.specs.Capped.{capped};

/// The number that a digit stands for, in bases up to 16.
pub fn digit(byte: u8) -> Option<u32>
    ensures value { result ≡ digit_of byte }
    ensures below { IfSome result (λ n. n < 16) }
{
    match byte {
        b'0'..=b'9' => Some(u32::from(byte - b'0')),
        b'a'..=b'f' => Some(u32::from(byte - 87)),
        b'A'..=b'F' => Some(u32::from(byte - 55)),
        _ => None,
    }
}

fn digit_below(base: u32, byte: u8) -> Option<u32>
    ensures { result ≡ (if is_digit base byte then digit_of byte else None) }
{
    match digit(byte) {
        Some(number) if number < base => Some(number),
        _ => None,
    }
}

// The number behind which one digit more stands, or 2^64 where it isn't below that.
fn with_digit(base: u32, number: u128, digit: u32) -> u128
    requires base { base ≤ 16 }
    requires number { number ≤ 2 ^ 64 }
    requires digit { digit < 16 }
    ensures { result ≡ capped (base * number + digit) }
{
    let more = u128::from(base) * number + u128::from(digit);
    more.min(1 << 64)
}

/// The number that digits in a base from 1 to 16 make, or 2^64 where it isn't below that. None, where there isn't a digit,
/// or something else than digits.
pub fn number(base: u32, bytes: &[u8]) -> Option<u128>
    requires least { 0 < base }
    requires most { base ≤ 16 }
    ensures value { result ≡ (if are_digits base bytes.now then Some (capped (number_behind base 0 bytes.now)) else None) }
    ensures most { IfSome result (λ n. n ≤ 2 ^ 64) }
{
    if bytes.is_empty() {
        return None;
    }
    let mut number = 0;
    let mut rest = bytes;
    while let [byte, after @ ..] = rest {
        number = with_digit(base, number, digit_below(base, *byte)?);
        rest = after;
    }
    Some(number)
}

/// What stands behind the decimal digits at the front.
pub fn after_digits(bytes: &[u8]) -> &[u8]
    ensures value { result.now ≡ after_digits bytes.now }
    ensures no_longer { length result.now ≤ length bytes.now }
{
    let mut rest = bytes;
    while let [byte, after @ ..] = rest {
        if digit_below(10, *byte).is_none() {
            return rest;
        }
        rest = after;
    }
    rest
}
