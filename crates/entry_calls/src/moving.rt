//! The calls that give a file one more name, and that move a name.
ghost use Rattle.std.specs.Prelude.{◌≡◌, ℕ, Some, option_copied};
ghost use Rattle.tree_model.specs.Changes.{is_same};
ghost use Rattle.kernel_model.specs.Families.FilePaths.{lookup_mode};
ghost use Rattle.kernel_model.specs.Families.NameMaking.{with_new_names};
ghost use Rattle.kernel_model.specs.Families.NameMoving as model;
ghost use Rattle.entry_calls.specs.Done.{IsDone, failure_of};

use crate::entries::names_lead;
use crate::failure::{Failure, failed, refused_with};
use crate::places::{last_name, last_name_in, name_at};
use crate::times::set_recounted;
use abi_types::{Errno, ObjId, OpenKind};
use file_calls::{found, lookup_mode, set_modified};
use file_tree::Tree;
use tree_model::TreeFault;

// Why a node gets no other name: a directory has one alone.
fn link_failed(fault: TreeFault) -> Failure
    ensures { result ≡ failure_of model.link_errno fault }
{
    match fault {
        TreeFault::IsDirectory => refused_with(Errno::Perm),
        _ => failed(fault),
    }
}

// One more name of a node.
fn link_in(
    tree: &mut Tree,
    node: ObjId,
    dir: ObjId,
    name: &[u8],
    now: u64,
) -> Result<Option<ObjId>, Failure>
    ensures { IsDone (model.link_in now tree.old node dir name.now) tree.old tree.new result }
{
    match tree.link(dir, name, node) {
        Ok(()) => {
            set_modified(tree, dir, now);
            set_recounted(tree, node, now);
            Ok(None)
        }
        Err(fault) => Err(link_failed(fault)),
    }
}

/// Gives what is at the path one more name.
pub fn file_link(
    tree: &mut Tree,
    here: &OpenKind,
    there: Option<&OpenKind>,
    now: u64,
    lookup_flags: u32,
    path: &[u8],
    new_path: &[u8],
) -> Result<Option<ObjId>, Failure>
    ensures { (new : ℕ) → IsDone
        ((model.linking (lookup_mode lookup_flags) path.now new_path.now).effect now new tree.old (Some here.now) (option_copied there.entry))
        tree.old tree.new result }
{
    let node = found(tree, lookup_mode(lookup_flags), path, here)?;
    let place = last_name_in(tree, new_path, there)?;
    link_in(
        tree,
        node,
        place.dir,
        name_at(new_path, place.from, place.len),
        now,
    )
}

// Whether both entries are there and of one node.
fn is_same(entry: &Option<ObjId>, other: &Option<ObjId>) -> bool
    ensures { result ≡ is_same entry.now other.now }
{
    match (entry, other) {
        (Some(id), Some(other)) => id.0 == other.0,
        _ => false,
    }
}

// The names in both directories have changed now, and this node has lost one, where there is one.
fn set_moved(tree: &mut Tree, from: ObjId, to: ObjId, replaced: &Option<ObjId>, now: u64)
    ensures { tree.new ≡ model.with_new_count_of now (with_new_names now (with_new_names now tree.old from) to) replaced.now }
{
    set_modified(tree, from, now);
    set_modified(tree, to, now);
    if let Some(node) = replaced {
        set_recounted(tree, *node, now);
    }
}

// A name moves, and a node that had the new name loses it, and is returned. Two names of one node stay as they are.
fn rename_in(
    tree: &mut Tree,
    from: ObjId,
    name: &[u8],
    to: ObjId,
    new_name: &[u8],
    now: u64,
) -> Result<Option<ObjId>, Failure>
    ensures { IsDone (model.rename_in now tree.old from name.now to new_name.now) tree.old tree.new result }
{
    names_lead(tree);
    let stays = is_same(&tree.entry(from, name), &tree.entry(to, new_name));
    match tree.rename(from, name, to, new_name) {
        Ok(replaced) => {
            if stays {
                return Ok(None);
            }
            set_moved(tree, from, to, &replaced, now);
            Ok(replaced)
        }
        Err(fault) => Err(failed(fault)),
    }
}

/// Moves a name to another place. Returns the node that lost its name by that, where one did.
pub fn file_rename(
    tree: &mut Tree,
    here: &OpenKind,
    there: Option<&OpenKind>,
    now: u64,
    path: &[u8],
    new_path: &[u8],
) -> Result<Option<ObjId>, Failure>
    ensures { (new : ℕ) → IsDone
        ((model.renaming path.now new_path.now).effect now new tree.old (Some here.now) (option_copied there.entry)) tree.old tree.new result }
{
    let from = last_name(tree, path, here)?;
    let to = last_name_in(tree, new_path, there)?;
    rename_in(
        tree,
        from.dir,
        name_at(path, from.from, from.len),
        to.dir,
        name_at(new_path, to.from, to.len),
        now,
    )
}
