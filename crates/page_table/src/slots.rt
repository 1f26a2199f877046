//! Slots of pages, and such as several tables have.
ghost use Rattle.std.specs.Prelude.{◌≡◌, ◌+◌, ◌≤◌, ◌<◌, ◌^◌, ◌++◌, IfErr, IfOk, [], length};
ghost use Rattle.std.specs.Vec.{vec_capacity};
ghost use Rattle.page_table.specs.Table.{slot_at};

use crate::mapped_page::MappedPage;
use std::alloc::{AllocError, Global};
use std::marker::Model;
use std::mem;
use std::sync::Arc;

/// A page with its number.
#[derive(Drop)]
pub struct Slot {
    pub number: u64,
    pub page: MappedPage,
}

impl Slot {
    /// An equal slot.
    pub fn copy(&self) -> Self
        ensures { result ≡ self.now }
    {
        Slot {
            number: self.number,
            page: self.page.copy(),
        }
    }
}

/// Slots that several tables have, none of which changes them.
#[derive(Drop)]
pub struct SharedSlots {
    slots: Option<Arc<Vec<Slot>, Global>>,
}

impl Model for SharedSlots {
    ghost use Rattle.std.specs.Prelude.{List, [], None, Some};
    ghost use Rattle.std.specs.Arc.{arc_value};
    ghost use Rattle.page_table.specs.declared.slots.Slot.{Slot};

    ghost Value = { List Slot };

    ghost view = { λ s. elim s.slots [ None ↦ [] | Some a ↦ (arc_value a).items ] };
}

impl SharedSlots {
    /// No slot.
    pub fn none() -> Self
        ensures { result ≡ [] }
    {
        SharedSlots { slots: None }
    }

    /// These slots. Where memory runs out, they are given back.
    pub fn new(alloc: Global, slots: Vec<Slot>) -> Result<Self, Vec<Slot>>
        ensures ok { IfOk result (λ shared. shared ≡ slots.items) }
        ensures err { IfErr result (λ back. back ≡ slots) }
    {
        match Arc::new(alloc, slots) {
            Ok(shared) => Ok(SharedSlots {
                slots: Some(shared),
            }),
            Err(failed) => Err(failed.value),
        }
    }

    /// The same slots for another table.
    pub fn share(&self) -> Result<Self, AllocError>
        ensures { IfOk result (λ shared. shared ≡ self.now) }
    {
        match &self.slots {
            Some(slots) => {
                let slots = Arc::try_clone(slots)?;
                Ok(SharedSlots { slots: Some(slots) })
            }
            None => Ok(SharedSlots { slots: None }),
        }
    }

    /// The slots.
    pub fn as_slice(&self) -> &[Slot]
        ensures { result.now ≡ self.now }
    {
        match &self.slots {
            Some(slots) => slots.as_slice(),
            None => &[],
        }
    }
}

/// Makes a table's own slots such as several tables can have, where it has no such. It has none of its own then, but room for as many as
/// it says. Where memory runs out, nothing changes.
pub fn share_slots(
    alloc: Global,
    shared: &mut SharedSlots,
    slots: &mut Vec<Slot>,
    room: usize,
) -> Result<(), AllocError>
    requires few { length shared.old < 2 ^ 63 }
    requires room { room ≤ vec_capacity slots.old }
    ensures all { shared.new ++ slots.new.items ≡ shared.old ++ slots.old.items }
    ensures more { length shared.old ≤ length shared.new }
    ensures few { length shared.new < 2 ^ 63 }
    ensures room { room ≤ vec_capacity slots.new }
{
    if !shared.as_slice().is_empty() {
        return Ok(());
    }
    let fresh = Vec::with_capacity(alloc, room)?;
    match SharedSlots::new(alloc, mem::replace(slots, fresh)) {
        Ok(all) => {
            *shared = all;
            Ok(())
        }
        Err(back) => {
            *slots = back;
            Err(AllocError)
        }
    }
}

/// Copies of slots, with room for at least `room` of them.
pub fn copy_slots(alloc: Global, slots: &[Slot], room: usize) -> Result<Vec<Slot>, AllocError>
    ensures items { IfOk result (λ made. made.items ≡ slots.now) }
    ensures room { IfOk result (λ made. room ≤ vec_capacity made) }
{
    let mut made = Vec::with_capacity(alloc, room)?;
    for slot in slots {
        made.push(slot.copy())?;
    }
    Ok(made)
}

/// The page at a place among slots, of which the shared ones come first.
pub fn page_at<'a>(shared: &'a [Slot], slots: &'a [Slot], place: usize) -> &'a MappedPage
    requires { place < length (shared.now ++ slots.now) }
    ensures { result.now ≡ (slot_at (shared.now ++ slots.now) place).page }
{
    if place < shared.len() {
        &shared[place].page
    } else {
        &slots[place - shared.len()].page
    }
}
