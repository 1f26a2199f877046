//! Reading and writing at an open's offset.
ghost use Rattle.std.specs.Prelude.{◌≡◌, true};
ghost use Rattle.kernel_model.specs.Families.FileOffsets as model;
ghost use Rattle.fd_calls.specs.AtOffset.{IsOffsetDone};
ghost use Rattle.file_calls.specs.Done.{HasSameNodes};
ghost use Rattle.file_calls.specs.Opens.{IsThere};

use abi_types::flags::FDFLAG_APPEND;
use abi_types::{Errno, ObjId, OpenKind, Payload, Reply};
use file_calls::{overwrite, read_file};
use file_tree::Tree;
use right_rules::{refused, success, success_with};
use std::alloc::{AllocError, Global};
use tree_model::MOST_FILE_BYTES;

/// Reads at most so many bytes at the open's offset, which moves on behind them. `Err` changes nothing.
pub(crate) fn fd_read(
    alloc: Global,
    tree: &Tree,
    kind: &mut OpenKind,
    most: u64,
) -> Result<Reply, AllocError>
    ensures { IsOffsetDone true (model.read_open_file tree.now most kind.old) tree.now tree.now kind.old kind.new result }
{
    match kind {
        OpenKind::File { node, offset, .. } => {
            let bytes = read_file(alloc, tree, *node, *offset, most)?;
            let count = bytes.len() as u64;
            *offset += count;
            Ok(success_with(count, Payload::Content(bytes)))
        }
        OpenKind::Directory { .. }
        | OpenKind::End { .. }
        | OpenKind::Terminal { .. }
        | OpenKind::Process { .. } => Ok(refused(Errno::Badf)),
    }
}

// The place where a file is written.
fn write_place(tree: &Tree, node: ObjId, offset: u64, flags: u16) -> u64
    ensures { result ≡ model.write_place tree.now node offset flags }
{
    if flags & FDFLAG_APPEND == 0 {
        offset
    } else {
        tree.bytes(node).len() as u64
    }
}

/// Writes the bytes at the open's offset, or with `FDFLAG_APPEND` at the file's end, at this time in nanoseconds since 1970. The offset
/// is behind them then. `Err` changes nothing.
pub(crate) fn fd_write(
    tree: &mut Tree,
    kind: &mut OpenKind,
    now: u64,
    bytes: &[u8],
) -> Result<Reply, AllocError>
    requires { IsThere tree.old kind.old }
    ensures done { IsOffsetDone true (model.write_open_file now tree.old bytes.now kind.old) tree.old tree.new kind.old kind.new result }
    ensures nodes { HasSameNodes tree.old tree.new }
{
    match kind {
        OpenKind::File {
            node,
            offset,
            flags,
        } => {
            let at = write_place(tree, *node, *offset, *flags);
            if bytes.is_empty() {
                return Ok(success(0, 0));
            }
            if at >= MOST_FILE_BYTES {
                return Ok(refused(Errno::Fbig));
            }
            let count = overwrite(tree, *node, now, at, bytes)?;
            *offset = at + count;
            Ok(success(count, 0))
        }
        OpenKind::Directory { .. }
        | OpenKind::End { .. }
        | OpenKind::Terminal { .. }
        | OpenKind::Process { .. } => Ok(refused(Errno::Badf)),
    }
}
