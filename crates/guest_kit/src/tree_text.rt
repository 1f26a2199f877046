//! The tree document of a workload.
ghost use Rattle.std.specs.Prelude.{◌≡◌, ◌<◌, ◌≤◌, ◌++◌, IfOk, OnOk, map};
ghost use Rattle.std.specs.List.{flat_map, range_with_len};
ghost use Rattle.guest_kit.specs.Trees.{content, content_byte, content_length, file_text, tree_text};

use crate::numbers::push_three_digits;
use itoa::Buffer;
use std::alloc::{AllocError, Global};

// How many bytes file i has.
fn content_length(i: u32) -> u32
    requires { i < 128 }
    ensures { result ≡ content_length i }
{
    32 * (i + 1)
}

// Byte k of file i.
fn content_byte(n: u32, i: u32, k: u32) -> u8
    requires { (n ≤ 128) × (i < 128) × (k < 4096) }
    ensures { result ≡ content_byte n i k }
{
    ((7 * k + 13 * i + n) % 251) as u8
}

// Puts the bytes of file i at the end.
#[tactic(auto, using(crate::proofs::Ranges::map_range_more))]
fn push_content(out: &mut Vec<u8>, n: u32, i: u32) -> Result<(), AllocError>
    requires { (n ≤ 128) × (i < 128) }
    ensures { OnOk result (out.new.items ≡ out.old.items ++ content n i) }
{
    for k in 0..content_length(i) {
        out.push(content_byte(n, i, k))?;
    }
    Ok(())
}

// Puts the record of file i at the end.
fn push_file(out: &mut Vec<u8>, n: u32, i: u32) -> Result<(), AllocError>
    requires { (n ≤ 128) × (i < 128) }
    ensures { OnOk result (out.new.items ≡ out.old.items ++ file_text n i) }
{
    let mut digits = Buffer::new();
    out.extend_from_slice(b"file ")?;
    out.extend_from_slice(digits.format(content_length(i)).as_bytes())?;
    out.extend_from_slice(b" in/f")?;
    push_three_digits(out, i)?;
    out.push(b'\n')?;
    push_content(out, n, i)?;
    Ok(out.push(b'\n')?)
}

// Puts the records of all files at the end.
#[tactic(auto, using(crate::proofs::Ranges::flat_map_range_more))]
fn push_files(out: &mut Vec<u8>, n: u32) -> Result<(), AllocError>
    requires { n ≤ 128 }
    ensures { OnOk result (out.new.items ≡ out.old.items ++ flat_map (file_text n) (range_with_len 0 n)) }
{
    for i in 0..n {
        push_file(out, n, i)?;
    }
    Ok(())
}

/// The tree document for so many children: a directory with a file for each, and an empty one.
#[tactic(auto, unfolding(crate::specs::Trees::tree_text))]
pub(crate) fn tree_bytes(alloc: Global, n: u32) -> Result<Vec<u8>, AllocError>
    requires { n ≤ 128 }
    ensures { IfOk result (λ out. out.items ≡ tree_text n) }
{
    let mut out = Vec::new(alloc);
    out.extend_from_slice(b"dir in\n")?;
    push_files(&mut out, n)?;
    out.extend_from_slice(b"dir out\n")?;
    Ok(out)
}
