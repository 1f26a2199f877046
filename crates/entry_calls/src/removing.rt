//! The call that takes a name away.
ghost use Rattle.std.specs.Prelude.{◌≡◌, ℕ, None, Some};
ghost use Rattle.tree_model.specs.Changes.{first_fault, unlink_faults};
ghost use Rattle.tree_model.specs.Tree.{is_directory};
ghost use Rattle.kernel_model.specs.Families.NameMeaning.{Changes};
ghost use Rattle.kernel_model.specs.Families.NameRemoving as model;
ghost use Rattle.entry_calls.specs.Done.{IsDone, failure_of};

use crate::entries::names_lead;
use crate::failure::{Failure, failed, refused_with};
use crate::places::{last_name, name_at};
use crate::times::set_recounted;
use abi_types::flags::UNLINK_REMOVEDIR;
use abi_types::{Errno, NodeKind, ObjId, OpenKind};
use file_calls::set_modified;
use file_tree::Tree;
use tree_model::TreeFault;

fn removes_directory(flags: u32) -> bool
    ensures { result ≡ model.removes_directory flags }
{
    flags & UNLINK_REMOVEDIR != 0
}

// Whether the number is a directory's.
fn is_directory(tree: &Tree, node: ObjId) -> bool
    ensures { result ≡ is_directory tree.now node }
{
    match tree.node(node) {
        Some(found) => matches!(found.kind, NodeKind::Directory),
        None => false,
    }
}

// Why a name isn't taken away. Names in a directory are reported only where it might go.
fn unlink_failed(flags: u32, fault: TreeFault) -> Failure
    ensures { result ≡ failure_of (model.unlink_errno flags) fault }
{
    match fault {
        TreeFault::NotEmpty if !removes_directory(flags) => refused_with(Errno::Perm),
        _ => failed(fault),
    }
}

// A name of this node is taken away, which the tree doesn't refuse.
fn remove_name(
    tree: &mut Tree,
    dir: ObjId,
    name: &[u8],
    node: ObjId,
    now: u64,
) -> Result<Option<ObjId>, Failure>
    requires { first_fault (unlink_faults tree.old dir name.now) ≡ None }
    ensures { IsDone (Changes (model.without_name now tree.old dir name.now node)) tree.old tree.new result }
{
    let Ok(lost) = tree.unlink(dir, name) else {
        return Err(Failure::NoMemory);
    };
    set_modified(tree, dir, now);
    set_recounted(tree, node, now);
    Ok(Some(lost))
}

// The same where the flags are those for the node.
fn unlink_node(
    tree: &mut Tree,
    dir: ObjId,
    name: &[u8],
    node: ObjId,
    flags: u32,
    now: u64,
) -> Result<Option<ObjId>, Failure>
    requires { first_fault (unlink_faults tree.old dir name.now) ≡ None }
    ensures { IsDone (model.unlink_node flags now tree.old dir name.now (Some node)) tree.old tree.new result }
{
    let removes = removes_directory(flags);
    if is_directory(tree, node) == removes {
        return remove_name(tree, dir, name, node, now);
    }
    if removes {
        Err(refused_with(Errno::Notdir))
    } else {
        Err(refused_with(Errno::Perm))
    }
}

// A name in a directory is taken away.
fn unlink_in(
    tree: &mut Tree,
    dir: ObjId,
    name: &[u8],
    flags: u32,
    now: u64,
) -> Result<Option<ObjId>, Failure>
    ensures { IsDone (model.unlink_in flags now tree.old dir name.now) tree.old tree.new result }
{
    names_lead(tree);
    match tree.check_unlink(dir, name) {
        Ok(node) => unlink_node(tree, dir, name, node, flags, now),
        Err(fault) => Err(unlink_failed(flags, fault)),
    }
}

/// Takes a name away. Returns the node that had it.
pub fn file_unlink(
    tree: &mut Tree,
    here: &OpenKind,
    now: u64,
    path: &[u8],
    flags: u32,
) -> Result<Option<ObjId>, Failure>
    ensures { (new : ℕ) → IsDone ((model.unlinking flags path.now).effect now new tree.old (Some here.now) None) tree.old tree.new result }
{
    let place = last_name(tree, path, here)?;
    unlink_in(
        tree,
        place.dir,
        name_at(path, place.from, place.len),
        flags,
        now,
    )
}
