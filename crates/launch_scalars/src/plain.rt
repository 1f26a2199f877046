//! Plain scalars: where they begin and where they end.
ghost use Rattle.std.specs.Prelude.{◌≡◌, ◌≤◌, length};
ghost use Rattle.launch_scalars.specs.Plain.{is_space_or_end, is_behind_key, begins_plain, wrong_beginning, ends_plain, plain_length};

use crate::kind::YamlKind;

/// A space stands here, or the line ends.
pub fn is_space_or_end(rest: &[u8]) -> bool
    ensures { result ≡ is_space_or_end rest.now }
{
    match rest {
        [] => true,
        [first, ..] => *first == b' ',
    }
}

/// A colon before these bytes stands behind a key.
pub fn is_behind_key(in_flow: bool, rest: &[u8]) -> bool
    ensures { result ≡ is_behind_key in_flow rest.now }
{
    match rest {
        [] => true,
        [b' ', ..] => true,
        [b',' | b']' | b'}', ..] => in_flow,
        _ => false,
    }
}

/// A plain scalar may begin with this byte, where those follow.
pub fn begins_plain(in_flow: bool, first: u8, rest: &[u8]) -> bool
    ensures { result ≡ begins_plain in_flow first rest.now }
{
    match first {
        b'-' | b'?' => !is_space_or_end(rest),
        b':' => !is_behind_key(in_flow, rest),
        b' '
        | b','
        | b'['
        | b']'
        | b'{'
        | b'}'
        | b'#'
        | b'&'
        | b'*'
        | b'!'
        | b'|'
        | b'>'
        | b'\''
        | b'"'
        | b'%'
        | b'@'
        | b'`' => false,
        _ => true,
    }
}

/// What is wrong where a value begins with this byte and none may.
pub fn wrong_beginning(first: u8) -> YamlKind
    ensures { result ≡ wrong_beginning first }
{
    match first {
        b'&' | b'*' => YamlKind::Anchor,
        b'|' | b'>' => YamlKind::BlockScalar,
        _ => YamlKind::Character,
    }
}

// A plain scalar ends before this byte, where those follow.
fn ends_plain(in_flow: bool, byte: u8, rest: &[u8]) -> bool
    ensures { result ≡ ends_plain in_flow byte rest.now }
{
    match byte {
        b' ' => matches!(rest, [b'#', ..]),
        b':' => is_behind_key(in_flow, rest),
        b',' | b'[' | b']' | b'{' | b'}' => in_flow,
        _ => false,
    }
}

/// How many bytes stand before the end of a plain scalar.
pub fn plain_length(in_flow: bool, bytes: &[u8]) -> usize
    ensures value { result ≡ plain_length in_flow bytes.now }
    ensures inside { result ≤ length bytes.now }
{
    let mut count = 0;
    let mut rest = bytes;
    while let [byte, after @ ..] = rest {
        if ends_plain(in_flow, *byte, after) {
            return count;
        }
        count += 1;
        rest = after;
    }
    count
}
