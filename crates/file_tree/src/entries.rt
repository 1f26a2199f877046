//! Single changes of slots, of which the changes of a tree are made. They work on the slots, since a tree is none between
//! two of them.
ghost use Rattle.std.specs.Prelude.{◌≡◌, ◌≤◌, ◌<◌, ◌^◌, ◌==◌, None, IsSome, IfSome, OnOk, OnErr};
ghost use Rattle.std.specs.FinMap as map;
ghost use Rattle.file_tree.specs.Kept.{first_slot, links_at, listed_if_last, listed_if_lost, names_at, with_entry, without_entry, without_name, one_more_name, one_name_less, with_parent};

use crate::slot::Slot;
use crate::slots::Slots;
use abi_types::{Node, ObjId};
use maps::NumMap;
use std::alloc::{AllocError, Global};

/// A new name in a directory, or another node for a name that is there.
pub fn put_entry(slots: &mut Slots, dir: ObjId, name: &[u8], id: ObjId) -> Result<(), AllocError>
    requires { IsSome (map.get slots.old dir) }
    ensures ok { OnOk result (slots.new ≡ with_entry slots.old dir name.now id) }
    ensures err { OnErr result (slots.new ≡ slots.old) }
{
    slots.get_mut(dir).names.insert(name, id)
}

/// Another node for a name that is there. Takes no memory.
pub fn replace_entry(slots: &mut Slots, dir: ObjId, name: &[u8], id: ObjId)
    requires dir { IsSome (map.get slots.old dir) }
    requires there { IsSome (map.get (names_at slots.old dir) name.now) }
    ensures { slots.new ≡ with_entry slots.old dir name.now id }
{
    slots.get_mut(dir).names.replace(name, id);
}

/// Takes a name out of a directory.
pub fn drop_entry(slots: &mut Slots, dir: ObjId, name: &[u8])
    requires { IsSome (map.get slots.old dir) }
    ensures { slots.new ≡ without_entry slots.old dir name.now }
{
    slots.get_mut(dir).names.remove(name);
}

/// A node counts one name more.
pub fn count_more(slots: &mut Slots, id: ObjId)
    requires there { IsSome (map.get slots.old id) }
    requires few { links_at slots.old id < 2 ^ 31 }
    ensures { slots.new ≡ one_more_name slots.old id }
{
    slots.get_mut(id).node.links += 1;
}

/// A node counts one name less.
pub fn count_less(slots: &mut Slots, id: ObjId)
    requires there { IsSome (map.get slots.old id) }
    requires some { 1 ≤ links_at slots.old id }
    ensures { slots.new ≡ one_name_less slots.old id }
{
    slots.get_mut(id).node.links -= 1;
}

/// Puts into a slot the directory that has a name of its node.
pub fn set_parent(slots: &mut Slots, id: ObjId, parent: Option<ObjId>)
    requires { IsSome (map.get slots.old id) }
    ensures { slots.new ≡ with_parent slots.old id parent }
{
    slots.get_mut(id).parent = parent;
}

/// Takes a node's slot away.
pub fn drop_slot(slots: &mut Slots, id: ObjId)
    ensures { slots.new ≡ map.remove slots.old id }
{
    slots.remove(id);
}

/// A new node with its first name in a directory, which its slot names as the one above.
pub fn add_node(
    slots: &mut Slots,
    alloc: Global,
    dir: ObjId,
    name: &[u8],
    id: ObjId,
    node: Node,
) -> Result<(), AllocError>
    requires dir { IsSome (map.get slots.old dir) }
    requires new { map.get slots.old id ≡ None }
    ensures ok { OnOk result (slots.new ≡ with_entry (map.insert slots.old id (first_slot dir node)) dir name.now id) }
    ensures err { OnErr result (slots.new ≡ slots.old) }
{
    let node = Node { links: 1, ..node };
    slots.insert(id, Slot::new(alloc, node, Some(dir)))?;
    if put_entry(slots, dir, name, id).is_err() {
        drop_slot(slots, id);
        return Err(AllocError);
    }
    Ok(())
}

/// A node counts one name less, and its slot names no directory. Where it was its last name, the node comes to the list of
/// those without one, for which alone memory may run out.
pub fn lose_name(slots: &mut Slots, nameless: &mut NumMap<()>, id: ObjId) -> Result<(), AllocError>
    requires there { IsSome (map.get slots.old id) }
    requires some { 1 ≤ links_at slots.old id }
    ensures slots { OnOk result (slots.new ≡ with_parent (one_name_less slots.old id) id None) }
    ensures nameless { OnOk result (nameless.new ≡ listed_if_last slots.old nameless.old id) }
    ensures err { OnErr result ((slots.new ≡ slots.old) × (nameless.new ≡ nameless.old)) }
{
    if is_last(slots, id) {
        nameless.insert(id.0, ())?;
    }
    count_less(slots, id);
    set_parent(slots, id, None);
    Ok(())
}

// Whether the node counts one name alone.
fn is_last(slots: &Slots, id: ObjId) -> bool
    ensures { result ≡ (links_at slots.now id == 1) }
{
    match slots.get(id) {
        Some(slot) => slot.node.links == 1,
        None => false,
    }
}

/// A name in a directory, where another node loses it if there is one. Memory may run out for one thing alone: for a new
/// name, or to list a node that lost its last one.
pub fn give_entry(
    slots: &mut Slots,
    nameless: &mut NumMap<()>,
    dir: ObjId,
    name: &[u8],
    id: ObjId,
    old: &Option<ObjId>,
) -> Result<(), AllocError>
    requires dir { IsSome (map.get slots.old dir) }
    requires entry { old.now ≡ map.get (names_at slots.old dir) name.now }
    requires there { IfSome old.now (λ node. IsSome (map.get slots.old node)) }
    requires some { IfSome old.now (λ node. 1 ≤ links_at slots.old node) }
    ensures slots { OnOk result (slots.new ≡ with_entry (without_name slots.old old.now) dir name.now id) }
    ensures nameless { OnOk result (nameless.new ≡ listed_if_lost slots.old nameless.old old.now) }
    ensures err { OnErr result ((slots.new ≡ slots.old) × (nameless.new ≡ nameless.old)) }
{
    match old {
        Some(old) => {
            lose_name(slots, nameless, *old)?;
            replace_entry(slots, dir, name, id);
            Ok(())
        }
        None => put_entry(slots, dir, name, id),
    }
}
