//! Bytes of a file that are read at a place of the call's own, or mapped.
ghost use Rattle.std.specs.Prelude.{◌≡◌, ◌+◌, ◌<◌, ◌^◌, length, true, IfOk, Some};
ghost use Rattle.tree_model.specs.Files.{read_bytes};
ghost use Rattle.kernel_model.specs.Families.FileBytes as model;
ghost use Rattle.kernel_model.specs.Families.MemoryCalls as maps;
ghost use Rattle.file_calls.specs.Done.{IsReadDone};

use crate::listings::content;
use abi_base::PAGE_SIZE;
use abi_types::{Bytes, Errno, ObjId, OpenKind, Payload, Place, Reply};
use file_tree::Tree;
use right_rules::{refused, success_with};
use std::alloc::{AllocError, Global};

// So many bytes from this place on, or as many as there are.
fn piece(bytes: &[u8], at: u64, most: u64) -> &[u8]
    ensures { result.now ≡ read_bytes bytes.now at most }
{
    let from = bytes.len().min(at as usize);
    let count = (bytes.len() - from).min(most as usize);
    &bytes[from..from + count]
}

/// A copy of so many bytes of a file from this place on, or of as many as there are. Of what is no file there are none. The
/// place behind them is below 2^64.
pub fn read_file(
    alloc: Global,
    tree: &Tree,
    node: ObjId,
    at: u64,
    most: u64,
) -> Result<Bytes, AllocError>
    ensures ok { IfOk result (λ bytes. bytes ≡ model.bytes_at tree.now node at most) }
    ensures end { IfOk result (λ bytes. at + length bytes < 2 ^ 64) }
{
    Bytes::of(alloc, piece(tree.bytes(node), at, most))
}

/// Reads at most so many bytes of the open's file from this place on.
pub(crate) fn fd_pread(
    alloc: Global,
    tree: &Tree,
    kind: &OpenKind,
    most: u64,
    at: u64,
) -> Result<Reply, AllocError>
    ensures { IsReadDone true (model.read_at most at tree.now (Some kind.now)) result }
{
    match kind {
        OpenKind::File { node, .. } => Ok(content(read_file(alloc, tree, *node, at, most)?)),
        OpenKind::Directory { .. }
        | OpenKind::End { .. }
        | OpenKind::Terminal { .. }
        | OpenKind::Process { .. } => Ok(refused(Errno::Badf)),
    }
}

// The bytes from this place on for the pages of so many bytes, or as many as there are.
fn pages(bytes: &[u8], at: u64, length: u64) -> &[u8]
    ensures { result.now ≡ read_bytes bytes.now at (model.page_bytes length) }
{
    let most = length.div_ceil(PAGE_SIZE).saturating_mul(PAGE_SIZE);
    piece(bytes, at, most.min(bytes.len() as u64))
}

/// The bytes of the open's file from an offset on for the pages of so many bytes, which go to this place.
pub(crate) fn map_file(
    alloc: Global,
    tree: &Tree,
    kind: &OpenKind,
    place: Place,
    length: u64,
    offset: u64,
) -> Result<Reply, AllocError>
    ensures { IsReadDone (maps.has_place place) (maps.map_open place length offset tree.now (Some kind.now)) result }
{
    let OpenKind::File { node, .. } = kind else {
        return Ok(refused(Errno::Badf));
    };
    match place {
        Place::At(address) => {
            let bytes = Bytes::of(alloc, pages(tree.bytes(*node), offset, length))?;
            Ok(success_with(address, Payload::Content(bytes)))
        }
        Place::Refused(errno) => Ok(refused(errno)),
    }
}
