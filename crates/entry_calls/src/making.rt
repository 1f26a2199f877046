//! The calls that make a directory or a symlink.
ghost use Rattle.std.specs.Prelude.{◌≡◌, None, Some, true};
ghost use Rattle.abi_types.specs.declared.node.NodeKind.TheVariants as kind;
ghost use Rattle.tree_model.specs.Changes.{is_absent};
ghost use Rattle.kernel_model.specs.Families.NameMaking as model;
ghost use Rattle.entry_calls.specs.Done.{IsDone};

use crate::failure::{Failure, errno_of, failed, refused_with};
use crate::places::{NamePlace, last_name, name_at};
use abi_types::{Bytes, Errno, Node, NodeKind, ObjId, OpenKind, Times};
use file_calls::{path_error, set_modified};
use file_tree::Tree;
use std::alloc::Global;

// A node that is made now, before it has a name.
fn node_of(kind: NodeKind, now: u64) -> Node
    ensures { result ≡ model.node_of kind now }
{
    let times = Times {
        atim: now,
        mtim: now,
        ctim: now,
    };
    Node {
        kind,
        times,
        links: 0,
    }
}

/// A new node with its first name.
pub fn make_in(
    tree: &mut Tree,
    dir: ObjId,
    name: &[u8],
    kind: NodeKind,
    now: u64,
    new: ObjId,
) -> Result<Option<ObjId>, Failure>
    requires { is_absent tree.old new ≡ true }
    ensures { IsDone (model.make_in kind now new tree.old dir name.now) tree.old tree.new result }
{
    match tree.make(dir, name, new, node_of(kind, now)) {
        Ok(()) => {
            set_modified(tree, dir, now);
            Ok(None)
        }
        Err(fault) => Err(failed(fault)),
    }
}

// A new node by a path from an open.
fn make_by_path(
    tree: &mut Tree,
    here: &OpenKind,
    path: &[u8],
    kind: NodeKind,
    now: u64,
    new: ObjId,
) -> Result<Option<ObjId>, Failure>
    requires { is_absent tree.old new ≡ true }
    ensures { IsDone ((model.making kind path.now).effect now new tree.old (Some here.now) None) tree.old tree.new result }
{
    let place: NamePlace = last_name(tree, path, here)?;
    make_in(
        tree,
        place.dir,
        name_at(path, place.from, place.len),
        kind,
        now,
        new,
    )
}

/// Makes a directory.
pub fn file_create(
    tree: &mut Tree,
    here: &OpenKind,
    now: u64,
    new: ObjId,
    path: &[u8],
) -> Result<Option<ObjId>, Failure>
    requires { is_absent tree.old new ≡ true }
    ensures { IsDone ((model.making kind.Directory path.now).effect now new tree.old (Some here.now) None) tree.old tree.new result }
{
    make_by_path(tree, here, path, NodeKind::Directory, now, new)
}

/// Why a text can't be a symlink's: it is no path, or it is empty.
pub fn text_error(text: &[u8]) -> Option<Errno>
    ensures { result ≡ model.text_error text.now }
{
    if let Some(errno) = path_error(text) {
        return Some(errno);
    }
    if text.is_empty() {
        return Some(Errno::Noent);
    }
    None
}

// A new symlink by a path from an open. Its text is copied once nothing refuses the name, so that memory runs out in place of
// no refusal.
fn make_link(
    alloc: Global,
    tree: &mut Tree,
    here: &OpenKind,
    now: u64,
    new: ObjId,
    text: &[u8],
    path: &[u8],
) -> Result<Option<ObjId>, Failure>
    requires { is_absent tree.old new ≡ true }
    ensures { IsDone ((model.making (kind.Link text.now) path.now).effect now new tree.old (Some here.now) None) tree.old tree.new result }
{
    let place: NamePlace = last_name(tree, path, here)?;
    let name = name_at(path, place.from, place.len);
    if let Err(fault) = tree.check_make(place.dir, name) {
        return Err(refused_with(errno_of(fault)));
    }
    let copy = Bytes::of(alloc, text)?;
    make_in(tree, place.dir, name, NodeKind::Link(copy), now, new)
}

/// Makes a symlink with this text, which is looked at before the path is.
pub fn file_symlink(
    alloc: Global,
    tree: &mut Tree,
    here: &OpenKind,
    now: u64,
    new: ObjId,
    text: &[u8],
    path: &[u8],
) -> Result<Option<ObjId>, Failure>
    requires { is_absent tree.old new ≡ true }
    ensures { IsDone
        ((model.making_unless (model.text_error text.now) (model.making (kind.Link text.now) path.now)).effect now new tree.old (Some here.now) None)
        tree.old tree.new result }
{
    if let Some(errno) = text_error(text) {
        return Err(refused_with(errno));
    }
    make_link(alloc, tree, here, now, new, text, path)
}
