//! The bytes of a line that may not be in a text.
ghost use Rattle.std.specs.Prelude.{◌≡◌};
ghost use Rattle.launch_scalars.specs.Characters.{begins_control, control_at, invalid_at, earlier, bad_at};

use std::str;

// A control character begins with this byte, where those follow.
fn begins_control(first: u8, rest: &[u8]) -> bool
    ensures { result ≡ begins_control first rest.now }
{
    match first {
        0..0x20 | 0x7f => true,
        0xc2 => matches!(rest, [0x80..0xa0, ..]),
        _ => false,
    }
}

fn control_at(bytes: &[u8]) -> Option<usize>
    ensures { result ≡ control_at bytes.now }
{
    let mut count = 0;
    let mut rest = bytes;
    while let [byte, after @ ..] = rest {
        if begins_control(*byte, after) {
            return Some(count);
        }
        count += 1;
        rest = after;
    }
    None
}

fn invalid_at(bytes: &[u8]) -> Option<usize>
    ensures { result ≡ invalid_at bytes.now }
{
    match str::from_utf8(bytes) {
        Ok(_) => None,
        Err(fault) => Some(fault.valid_up_to()),
    }
}

// The earlier of two places.
fn earlier(first: Option<usize>, second: Option<usize>) -> Option<usize>
    ensures { result ≡ earlier first second }
{
    match first {
        None => second,
        Some(place) => match second {
            None => Some(place),
            Some(other) => Some(place.min(other)),
        },
    }
}

/// How many bytes stand before the first that may not be in a text: one in no character of UTF-8, or one of a control
/// character (Unicode's Cc).
#[tactic(auto, unfolding(crate::specs::Characters::bad_at))]
pub fn bad_at(bytes: &[u8]) -> Option<usize>
    ensures { result ≡ bad_at bytes.now }
{
    earlier(control_at(bytes), invalid_at(bytes))
}
