//! Bytes that are written to a file.
ghost use Rattle.std.specs.Prelude.{◌≡◌, ◌<◌, ◌≢◌, [], true, IfOk, OnOk, OnErr, Some};
ghost use Rattle.tree_model.specs.Changes.{is_file};
ghost use Rattle.tree_model.specs.declared.limits.TheConstants.{MOST_FILE_BYTES};
ghost use Rattle.kernel_model.specs.Families.FileBytes as model;
ghost use Rattle.file_calls.specs.Done.{HasSameNodes, IsTreeDone};
ghost use Rattle.file_calls.specs.Opens.{IsThere};

use crate::changes::set_modified;
use abi_types::{Errno, ObjId, OpenKind, Reply};
use file_tree::Tree;
use right_rules::{refused, success};
use std::alloc::AllocError;
use tree_model::MOST_FILE_BYTES;

/// Writes bytes to a file from this place on, as many as it has room for, at this time in nanoseconds since 1970, and says
/// how many. `Err` changes nothing.
pub fn overwrite(
    tree: &mut Tree,
    node: ObjId,
    now: u64,
    at: u64,
    bytes: &[u8],
) -> Result<u64, AllocError>
    requires file { is_file tree.old node ≡ true }
    requires room { at < MOST_FILE_BYTES }
    ensures count { IfOk result (λ count. count ≡ model.written_count at bytes.now) }
    ensures ok { OnOk result (tree.new ≡ model.overwritten tree.old node now at bytes.now) }
    ensures err { OnErr result (tree.new ≡ tree.old) }
{
    let few = &bytes[..bytes.len().min(MOST_FILE_BYTES as usize)];
    match tree.write_at(node, at, few) {
        Ok(count) => {
            set_modified(tree, node, now);
            Ok(u64::from(count))
        }
        Err(_) => Err(AllocError),
    }
}

/// Writes the bytes to the open's file from this place on. `Err` changes nothing.
pub(crate) fn fd_pwrite(
    tree: &mut Tree,
    kind: &OpenKind,
    now: u64,
    at: u64,
    bytes: &[u8],
) -> Result<Reply, AllocError>
    requires { IsThere tree.old kind.now }
    ensures done { IsTreeDone true (model.write_at bytes.now at now tree.old (Some kind.now)) tree.old tree.new result }
    ensures nodes { HasSameNodes tree.old tree.new }
{
    let OpenKind::File { node, .. } = kind else {
        return Ok(refused(Errno::Badf));
    };
    if bytes.is_empty() {
        return Ok(success(0, 0));
    }
    if at >= MOST_FILE_BYTES {
        return Ok(refused(Errno::Fbig));
    }
    let count = overwrite(tree, *node, now, at, bytes)?;
    Ok(success(count, 0))
}
