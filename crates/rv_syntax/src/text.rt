//! Parts of a text.
ghost use Rattle.std.specs.Prelude.{◌≡◌, ◌==◌, option_map, position, false};
ghost use Rattle.rv_syntax.specs.Text.{split_at, trim_start, trim_end, trim, without_comment, is_control, has_control};

// The place of the first such byte.
fn place_of(text: &[u8], byte: u8) -> Option<usize>
    ensures { result ≡ position (λ b. b == byte) text.now }
{
    text.iter().position(|b| *b == byte)
}

/// What stands before the first such byte, and what stands behind it. `None` exactly where there is none.
pub fn split_at(text: &[u8], byte: u8) -> Option<(&[u8], &[u8])>
    ensures { option_map (λ parts. (parts.0.now, parts.1.now)) result ≡ split_at byte text.now }
{
    let i = place_of(text, byte)?;
    Some((&text[..i], &text[i + 1..]))
}

// The text without the spaces that it begins with.
fn trim_start(mut text: &[u8]) -> &[u8]
    ensures { result.now ≡ trim_start text.entry.now }
{
    while let [b' ', rest @ ..] = text {
        text = rest;
    }
    text
}

// The text without the spaces that it ends with.
fn trim_end(mut text: &[u8]) -> &[u8]
    ensures { result.now ≡ trim_end text.entry.now }
{
    while let [rest @ .., b' '] = text {
        text = rest;
    }
    text
}

/// The text without its outer spaces.
pub fn trim(text: &[u8]) -> &[u8]
    ensures { result.now ≡ trim text.now }
{
    trim_end(trim_start(text))
}

/// The line without its comment, which begins with the first `#` outside quotation marks.
pub fn without_comment(line: &[u8]) -> &[u8]
    ensures { result.now ≡ without_comment false line.now }
{
    let mut quoted = false;
    for (i, b) in line.iter().enumerate() {
        if *b == b'#' && !quoted {
            return &line[..i];
        }
        if *b == b'"' {
            quoted = !quoted;
        }
    }
    line
}

/// Whether a line has a control character.
pub fn has_control(line: &[u8]) -> bool
    ensures { result ≡ has_control line.now }
{
    line.iter().any(|b| *b < b' ' || *b == 0x7f)
}
