//! Spaces and comments in a line.
ghost use Rattle.std.specs.Prelude.{◌≡◌, ◌≤◌, length};
ghost use Rattle.launch_scalars.specs.Spaces.{after_spaces, unless_comment, after_gap, without_last_spaces};

/// What stands behind the spaces at the front.
pub fn after_spaces(bytes: &[u8]) -> &[u8]
    ensures value { result.now ≡ after_spaces bytes.now }
    ensures no_longer { length result.now ≤ length bytes.now }
{
    let mut rest = bytes;
    while let [b' ', after @ ..] = rest {
        rest = after;
    }
    rest
}

fn unless_comment(bytes: &[u8]) -> &[u8]
    ensures value { result.now ≡ unless_comment bytes.now }
    ensures no_longer { length result.now ≤ length bytes.now }
{
    match bytes {
        [b'#', ..] => &[],
        other => other,
    }
}

/// What stands behind the spaces at the front: nothing, where a comment does. A `#` begins a comment behind a space.
pub fn after_gap(bytes: &[u8]) -> &[u8]
    ensures value { result.now ≡ after_gap bytes.now }
    ensures no_longer { length result.now ≤ length bytes.now }
{
    match bytes {
        [b' ', rest @ ..] => unless_comment(after_spaces(rest)),
        other => other,
    }
}

/// The bytes without the spaces at their end.
pub fn without_last_spaces(bytes: &[u8]) -> &[u8]
    ensures { result.now ≡ without_last_spaces bytes.now }
{
    let mut front = bytes;
    while let Some((last, before)) = front.split_last() {
        if *last != b' ' {
            return front;
        }
        front = before;
    }
    front
}
