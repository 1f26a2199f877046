//! The text of a symlink.
ghost use Rattle.std.specs.Prelude.{true, Some};
ghost use Rattle.path_lookup.specs.declared.ends.WalkMode.TheVariants.{NoFollow};
ghost use Rattle.kernel_model.specs.Families.FileLooks as looks;
ghost use Rattle.kernel_model.specs.Families.FilePaths as model;
ghost use Rattle.file_calls.specs.Done.{IsReadDone};

use crate::listings::{content, room_of};
use crate::paths::{found, reply_of};
use abi_types::{Bytes, Errno, NodeKind, ObjId, OpenKind, Reply};
use file_tree::Tree;
use path_lookup::WalkMode;
use right_rules::refused;
use std::alloc::{AllocError, Global};

// The text of a symlink, as much as there is room for.
fn read_link(alloc: Global, most: u64, kind: &NodeKind) -> Result<Reply, AllocError>
    ensures { IsReadDone true (looks.read_link most kind.now) result }
{
    match kind {
        NodeKind::Link(text) => {
            let text = text.as_slice();
            let count = room_of(most).min(text.len());
            Ok(content(Bytes::of(alloc, &text[..count])?))
        }
        NodeKind::File(_) | NodeKind::Directory => Ok(refused(Errno::Inval)),
    }
}

// The text of the symlink of this number.
fn read_node(alloc: Global, tree: &Tree, most: u64, id: ObjId) -> Result<Reply, AllocError>
    ensures { IsReadDone true (looks.read_link_in most tree.now id) result }
{
    match tree.node(id) {
        Some(node) => read_link(alloc, most, &node.kind),
        None => Ok(refused(Errno::Badf)),
    }
}

/// The text of the symlink at the path, which isn't followed, of which at most so many bytes.
pub(crate) fn file_readlink(
    alloc: Global,
    tree: &Tree,
    kind: &OpenKind,
    path: &[u8],
    most: u64,
) -> Result<Reply, AllocError>
    ensures { IsReadDone true (model.at_walked (looks.read_link_in most tree.now) (model.walked tree.now NoFollow path.now (Some kind.now))) result }
{
    match found(tree, WalkMode::NoFollow, path, kind) {
        Ok(node) => read_node(alloc, tree, most, node),
        Err(refusal) => Ok(reply_of(refusal)),
    }
}
