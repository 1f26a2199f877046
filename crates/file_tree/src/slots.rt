//! Slots by the numbers of their nodes.
ghost use Rattle.std.specs.Prelude.{◌≡◌, ◌<◌, ◌^◌, None, IsSome, IfSome, OnOk, OnErr, option_copied};
ghost use Rattle.std.specs.FinMap as map;
ghost use Rattle.std.specs.Borrow.{sem};
ghost use Rattle.maps.specs.Maps.{least_key};
ghost use Rattle.tree_model.specs.Changes.{is_above};
ghost use Rattle.file_tree.specs.Borrowing.{LendsSlot};

use crate::numbers::least;
use crate::slot::Slot;
use abi_types::ObjId;
use maps::NumMap;
use slab::Slab;
use std::alloc::{AllocError, Global};
use std::marker::Model;

/// Slots by number. In contracts it is a finite map from numbers to slots.
#[derive(Drop)]
pub struct Slots {
    slab: Slab<Slot>,

    // The key of the slab by the number of the node.
    keys: NumMap<usize>,
}

impl Model for Slots {
    ghost use Rattle.std.specs.Ordering.{nat_cmp};
    ghost use Rattle.std.specs.FinMap.{FinMap, code};
    ghost use Rattle.std.specs.Coded.{coded_ℕ};
    ghost use Rattle.file_tree.specs.declared.slot.Slot.{Slot};
    ghost use Rattle.file_tree.specs.contracts.slot.Slot as slot;
    ghost use Rattle.file_tree.specs.Slots.{slots_of, IsKeyed};

    ghost Value = { FinMap nat_cmp Slot };

    ghost coded = { code coded_ℕ slot.the_row.coded };

    ghost view = { λ a. slots_of a.slab a.keys };

    ghost invariant = { λ a. IsKeyed a.slab a.keys };
}

impl Slots {
    /// No slot.
    pub fn new(alloc: Global) -> Self
        ensures { result ≡ map.empty }
    {
        Slots {
            slab: Slab::new(alloc),
            keys: NumMap::new(alloc),
        }
    }

    /// How many slots there are.
    pub fn len(&self) -> usize
        ensures len { result ≡ map.len self.now }
        ensures small { result < 2 ^ 63 }
    {
        self.keys.len()
    }

    /// The slot of this number, where there is one.
    pub fn get(&self, id: ObjId) -> Option<&Slot>
        ensures { option_copied result ≡ map.get self.now id }
    {
        match self.keys.get(id.0) {
            Some(key) => self.slab.get(*key),
            None => None,
        }
    }

    /// The least number above `after` that has a slot, and the least of all with no `after`.
    pub fn next_after(&self, after: Option<ObjId>) -> Option<ObjId>
        ensures least { result ≡ least_key (λ n _. is_above after n) self.now }
        ensures small { IfSome result (λ id. id < 2 ^ 64) }
    {
        Some(ObjId(least(&self.keys, after)?))
    }

    /// The slot of this number, to be changed in place.
    pub fn get_mut(&mut self, id: ObjId) -> &mut Slot
        requires { IsSome (map.get self.old id) }
        ensures* writes_back { sem 𝓛 (LendsSlot self.entry id result) }
        ensures value { Some result.now ≡ map.get self.old id }
    {
        let key = *self.keys.get(id.0).unwrap();
        self.slab.get_mut(key).unwrap()
    }

    /// Puts a slot at a number that has none.
    pub fn insert(&mut self, id: ObjId, slot: Slot) -> Result<(), AllocError>
        requires { map.get self.old id ≡ None }
        ensures ok { OnOk result (self.new ≡ map.insert self.old id slot) }
        ensures err { OnErr result (self.new ≡ self.old) }
    {
        self.slab.reserve(1)?;
        let key = self.slab.vacant_key();
        self.keys.insert(id.0, key)?;
        self.slab.insert_reserved(slot);
        Ok(())
    }

    /// Takes the slot of this number out, and returns it, if there was one. Takes no memory.
    pub fn remove(&mut self, id: ObjId) -> Option<Slot>
        ensures value { result ≡ map.get self.old id }
        ensures new { self.new ≡ map.remove self.old id }
    {
        let key = self.keys.remove(id.0)?;
        self.slab.try_remove(key)
    }
}
