//! The bytes of a file, changed in place: a write moves what is written, and not the file.
ghost use Rattle.std.specs.Prelude.{◌≡◌, ◌+◌, ◌<◌, ◌≤◌, ◌^◌, ◌++◌, length, take, drop, OnOk, OnErr, vec_len, vec_capacity};
ghost use Rattle.tree_model.specs.Files.{read_bytes, resized, written};

use abi_types::Bytes;
use std::alloc::{AllocError, Global};
use std::mem;
use std::vec::Vec;

// How much room is kept of what a file no longer fills, beside as much as it fills.
const SMALL_ROOM: usize = 64;

/// So many bytes from this place on, or as many as there are.
pub fn piece(bytes: &[u8], at: u64, n: u32) -> &[u8]
    ensures { result.now ≡ read_bytes bytes.now at n }
{
    let from = bytes.len().min(at as usize);
    let count = (bytes.len() - from).min(n as usize);
    &bytes[from..from + count]
}

/// Puts bytes over those from this place on. A gap before them is filled by zeros.
pub fn write_over(alloc: Global, bytes: &mut Bytes, at: usize, new: &[u8]) -> Result<(), AllocError>
    requires { at + length new.now < 2 ^ 64 }
    ensures ok { OnOk result (bytes.new ≡ written bytes.old at new.now) }
    ensures err { OnErr result (bytes.new ≡ bytes.old) }
{
    let mut content = mem::replace(bytes, Bytes::new(alloc)).into_vec();
    let done = write_content(&mut content, at, new);
    *bytes = Bytes::from_vec(content);
    done
}

/// Cuts the bytes at this size, or fills them by zeros up to it. Room that a cut leaves goes back.
pub fn resize(alloc: Global, bytes: &mut Bytes, size: usize) -> Result<(), AllocError>
    ensures ok { OnOk result (bytes.new ≡ resized bytes.old size) }
    ensures err { OnErr result (bytes.new ≡ bytes.old) }
{
    let mut content = mem::replace(bytes, Bytes::new(alloc)).into_vec();
    let done = resize_content(&mut content, size);
    *bytes = Bytes::from_vec(content);
    done
}

// The same of a list of bytes.
fn resize_content(content: &mut Vec<u8>, size: usize) -> Result<(), AllocError>
    ensures ok { OnOk result (content.new.items ≡ resized content.old.items size) }
    ensures err { OnErr result (content.new.items ≡ content.old.items) }
{
    content.resize(size, 0)?;
    give_back(content);
    Ok(())
}

// Gives room back where there is more than twice what the bytes take. Where a smaller block can't be had, the room is kept.
fn give_back(content: &mut Vec<u8>)
    ensures items { content.new.items ≡ content.old.items }
    ensures less { vec_capacity content.new ≤ vec_capacity content.old }
    ensures emptied { vec_len content.old ≡ 0 → vec_capacity content.new ≤ SMALL_ROOM }
{
    let most = content.len().saturating_mul(2);
    if content.capacity().saturating_sub(SMALL_ROOM) > most {
        content.shrink_to_fit();
    }
}

fn write_content(content: &mut Vec<u8>, at: usize, new: &[u8]) -> Result<(), AllocError>
    requires { at + length new.now < 2 ^ 64 }
    ensures ok { OnOk result (content.new.items ≡ written content.old.items at new.now) }
    ensures err { OnErr result (content.new.items ≡ content.old.items) }
{
    let size = content.len().max(at + new.len());
    content.resize(size, 0)?;
    put(content.as_mut_slice(), at, new);
    Ok(())
}

// Puts bytes over as many from this place on.
fn put(content: &mut [u8], at: usize, new: &[u8])
    requires { at + length new.now ≤ length content.old }
    ensures { content.new ≡ take at content.old ++ (new.now ++ drop (at + length new.now) content.old) }
{
    content[at..at + new.len()].copy_from_slice(new);
}
