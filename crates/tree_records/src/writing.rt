//! The text of records. A path is given by its bytes, and may be any: what is no path of a tree document is written all the
//! same, and isn't read again.
ghost use Rattle.std.specs.Prelude.{◌≡◌, ◌++◌, OnOk};
ghost use Rattle.tree_records.specs.Records.{dir_text, file_text, hard_text, line, line_with, link_text};

use crate::escapes::push_escaped;
use itoa::Buffer;
use std::alloc::AllocError;

// A line with a word and a path.
fn push_line(out: &mut Vec<u8>, word: &[u8], path: &[u8]) -> Result<(), AllocError>
    ensures { OnOk result (out.new.items ≡ out.old.items ++ line word.now path.now) }
{
    out.extend_from_slice(word)?;
    out.push(b' ')?;
    push_escaped(out, path)?;
    Ok(out.push(b'\n')?)
}

// A line with a word, the length of the content, and a path; then the content as a line.
fn push_with_content(
    out: &mut Vec<u8>,
    word: &[u8],
    path: &[u8],
    content: &[u8],
) -> Result<(), AllocError>
    ensures { OnOk result (out.new.items ≡ out.old.items ++ line_with word.now path.now content.now) }
{
    let mut digits = Buffer::new();
    out.extend_from_slice(word)?;
    out.push(b' ')?;
    push_line(out, digits.format(content.len()).as_bytes(), path)?;
    out.extend_from_slice(content)?;
    Ok(out.push(b'\n')?)
}

/// Writes the record of a directory at the end.
pub fn push_dir(out: &mut Vec<u8>, path: &[u8]) -> Result<(), AllocError>
    ensures { OnOk result (out.new.items ≡ out.old.items ++ dir_text path.now) }
{
    push_line(out, b"dir", path)
}

/// Writes the record of a file at the end.
pub fn push_file(out: &mut Vec<u8>, path: &[u8], bytes: &[u8]) -> Result<(), AllocError>
    ensures { OnOk result (out.new.items ≡ out.old.items ++ file_text path.now bytes.now) }
{
    push_with_content(out, b"file", path, bytes)
}

/// Writes the record of a symlink at the end.
pub fn push_link(out: &mut Vec<u8>, path: &[u8], text: &[u8]) -> Result<(), AllocError>
    ensures { OnOk result (out.new.items ≡ out.old.items ++ link_text path.now text.now) }
{
    push_with_content(out, b"link", path, text)
}

/// Writes the record of one more name of a file at the end. The file's record has the target as its path.
pub fn push_hard(out: &mut Vec<u8>, path: &[u8], target: &[u8]) -> Result<(), AllocError>
    ensures { OnOk result (out.new.items ≡ out.old.items ++ hard_text path.now target.now) }
{
    let mut written = Vec::new(*out.allocator());
    push_escaped(&mut written, target)?;
    push_with_content(out, b"hard", path, &written)
}
