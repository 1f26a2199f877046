//! A copy of a tree.
ghost use Rattle.std.specs.Prelude.{◌≡◌, IfOk};

use crate::numbers::least;
use crate::slot::Slot;
use crate::slots::Slots;
use crate::tree::Tree;
use abi_types::{Node, NodeKind, ObjId, TryClone};
use maps::{NameMap, NumMap};
use std::alloc::{AllocError, Global};

impl TryClone for Tree {
    fn copy(&self) -> Result<Self, AllocError> {
        Ok(Tree {
            slots: copy_slots(self.alloc, &self.slots)?,
            nameless: copy_numbers(self.alloc, &self.nameless)?,
            alloc: self.alloc,
        })
    }
}

// The same slots, each at its number.
fn copy_slots(alloc: Global, slots: &Slots) -> Result<Slots, AllocError>
    ensures { IfOk result (λ made. made ≡ slots.now) }
{
    let mut made = Slots::new(alloc);
    let mut last = None;
    while let Some(id) = slots.next_after(last) {
        if let Some(slot) = slots.get(id) {
            made.insert(id, copy_slot(alloc, slot)?)?;
        }
        last = Some(id);
    }
    Ok(made)
}

// The same numbers.
fn copy_numbers(alloc: Global, numbers: &NumMap<()>) -> Result<NumMap<()>, AllocError>
    ensures { IfOk result (λ made. made ≡ numbers.now) }
{
    let mut made = NumMap::new(alloc);
    let mut last = None;
    while let Some(number) = least(numbers, last) {
        made.insert(number, ())?;
        last = Some(ObjId(number));
    }
    Ok(made)
}

fn copy_slot(alloc: Global, slot: &Slot) -> Result<Slot, AllocError>
    ensures { IfOk result (λ made. made ≡ slot.now) }
{
    Ok(Slot {
        node: copy_node(&slot.node)?,
        names: copy_names(alloc, &slot.names)?,
        parent: slot.parent,
    })
}

// The same names, each of the same node.
fn copy_names(alloc: Global, names: &NameMap<ObjId>) -> Result<NameMap<ObjId>, AllocError>
    ensures { IfOk result (λ made. made ≡ names.now) }
{
    let mut made = NameMap::new(alloc);
    for (name, id) in names.from_place(0) {
        made.insert(name, *id)?;
    }
    Ok(made)
}

fn copy_node(node: &Node) -> Result<Node, AllocError>
    ensures { IfOk result (λ made. made ≡ node.now) }
{
    let kind = match &node.kind {
        NodeKind::File(bytes) => NodeKind::File(bytes.copy()?),
        NodeKind::Directory => NodeKind::Directory,
        NodeKind::Link(text) => NodeKind::Link(text.copy()?),
    };
    Ok(Node {
        kind,
        times: node.times,
        links: node.links,
    })
}
