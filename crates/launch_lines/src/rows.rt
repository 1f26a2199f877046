//! What a line begins with.
ghost use Rattle.std.specs.Prelude.{◌≡◌, ◌≤◌, ◌<◌, false, length, drop, option_map, IfSome};
ghost use Rattle.launch_scalars.specs.Quoted.{quoted as quoted_of};
ghost use Rattle.launch_values.specs.Tags.{name_length};
ghost use Rattle.launch_lines.specs.Rows.{is_dash, behind_colon, behind_quoted, begins_key, behind_key, after_key, is_open, awaits_value};

use launch_scalars::{plain, quoted, spaces};

/// An item of a sequence begins here.
pub fn is_dash(bytes: &[u8]) -> bool
    ensures { result ≡ is_dash bytes.now }
{
    match bytes {
        [b'-', rest @ ..] => plain::is_space_or_end(rest),
        _ => false,
    }
}

/// What stands behind a colon that ends a key.
pub fn behind_colon(bytes: &[u8]) -> Option<&[u8]>
    ensures { option_map (λ r. r.now) result ≡ behind_colon bytes.now }
{
    match bytes {
        [b':', rest @ ..] if plain::is_behind_key(false, rest) => Some(rest),
        _ => None,
    }
}

// What stands behind a quoted key, of which the opening quote was read, and its colon.
fn behind_quoted(quote: u8, bytes: &[u8]) -> Option<&[u8]>
    ensures { option_map (λ r. r.now) result ≡ behind_quoted (quoted_of quote bytes.now).rest }
{
    match quoted::after_quoted(quote, bytes) {
        None => None,
        Some(rest) => behind_colon(spaces::after_gap(rest)),
    }
}

/// A key may begin here.
pub fn begins_key(bytes: &[u8]) -> bool
    ensures { result ≡ begins_key bytes.now }
{
    match bytes {
        [] => false,
        [b'"' | b'\'', ..] => true,
        [first, rest @ ..] => plain::begins_plain(false, *first, rest),
    }
}

/// What stands behind the key and its colon. Nothing, where no key begins here.
#[tactic(auto, unfolding(crate::specs::Rows::behind_key))]
pub fn behind_key(bytes: &[u8]) -> Option<&[u8]>
    ensures { option_map (λ r. r.now) result ≡ behind_key bytes.now }
{
    match bytes {
        [] => None,
        [quote @ (b'"' | b'\''), rest @ ..] => behind_quoted(*quote, rest),
        [first, rest @ ..] if plain::begins_plain(false, *first, rest) => {
            let (_, after) = bytes.split_at(plain::plain_length(false, bytes));
            behind_colon(after)
        }
        _ => None,
    }
}

/// What stands behind the key and its colon, and spaces: nothing, where a comment does, and where no key begins here.
pub fn after_key(bytes: &[u8]) -> &[u8]
    ensures { result.now ≡ after_key (behind_key bytes.now) }
{
    match behind_key(bytes) {
        None => &[],
        Some(rest) => spaces::after_gap(rest),
    }
}

// What stands behind the name of a tag.
fn after_name(bytes: &[u8]) -> &[u8]
    ensures { result.now ≡ drop (name_length false bytes.now) bytes.now }
{
    let mut rest = bytes;
    while let [byte, after @ ..] = rest {
        if *byte == b' ' {
            return rest;
        }
        rest = after;
    }
    rest
}

/// Nothing stands here but perhaps a tag.
pub fn is_open(bytes: &[u8]) -> bool
    ensures { result ≡ is_open bytes.now }
{
    match bytes {
        [] => true,
        [b'!', rest @ ..] => spaces::after_gap(after_name(rest)).is_empty(),
        _ => false,
    }
}

/// The line is a key whose value stands on following lines, if anywhere.
pub fn awaits_value(bytes: &[u8]) -> bool
    ensures { result ≡ awaits_value (behind_key bytes.now) }
{
    match behind_key(bytes) {
        None => false,
        Some(rest) => is_open(spaces::after_gap(rest)),
    }
}
