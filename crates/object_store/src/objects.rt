//! The opens that descriptors name, and how many name each.
ghost use Rattle.std.specs.Prelude.{◌≡◌, ◌≢◌, ◌+◌, ◌-◌, ◌<◌, ◌^◌, ◌↔◌, ℕ, Some, None, IsSome, IsNone, IfSome, IfNone, IsTrue, OnOk, OnErr, option_copied, vec_len, vec_capacity};
ghost use Rattle.std.specs.FinMap as map;
ghost use Rattle.maps.specs.Maps.{number};
ghost use Rattle.object_store.specs.Entries.{kinds_of, counts_of, AreListed, AreListedBut};
ghost use Rattle.object_store.specs.Nodes.{IsOfSameNode};
ghost use Rattle.object_store.specs.Objects.{Held, no_objects, HasCounts, unheld_removed};
ghost use Rattle.tree_model.specs.Opens.{opens_of_node};

use crate::by_node;
use crate::entry::Entry;
use abi_types::{ObjId, OpenKind};
use maps::NumMap;
use std::alloc::{AllocError, Global};
use std::marker::Model;

/// Opens by number, each with the number of its holders.
#[derive(Drop)]
pub struct Objects {
    entries: NumMap<Entry>,

    // The opens without a holder, in any order. An entry gives its place here, so that an open comes to this list and
    // leaves it without a search: the last of the list fills a gap. It is a vector because the room of a vector can be
    // taken beforehand: a new open takes the room for all opens, and a release takes none.
    unheld: Vec<ObjId>,

    // For each node of the file tree that some open is of, how many opens are of it.
    by_node: NumMap<u64>,
}

impl Model for Objects {
    ghost use Rattle.std.specs.Prelude.{vec_capacity};
    ghost use Rattle.object_store.specs.Entries.{held_of, IsConsistent};
    ghost use Rattle.object_store.specs.Objects.{Held, held_code};

    ghost Value = { Held };

    ghost coded = { held_code };

    ghost view = { λ a. held_of a.entries };

    // The list has exactly the opens without a holder, and room for all opens. Each node's number is how many opens are of
    // it, and a node without an open has no entry.
    ghost invariant = { λ a. IsConsistent a.entries a.unheld.items (vec_capacity a.unheld) a.by_node };
}

impl Objects {
    /// No open.
    pub fn new(alloc: Global) -> Self
        ensures { result ≡ no_objects }
    {
        Objects {
            entries: NumMap::new(alloc),
            unheld: Vec::new(alloc),
            by_node: NumMap::new(alloc),
        }
    }

    /// What the open is, where it is there.
    pub fn get(&self, id: ObjId) -> Option<&OpenKind>
        ensures { option_copied result ≡ map.get self.now.kinds id }
    {
        match self.entries.get(id.0) {
            Some(entry) => Some(&entry.kind),
            None => None,
        }
    }

    /// How many hold the open. Where there is no such open, nothing holds it.
    pub fn count(&self, id: ObjId) -> u64
        ensures count { result ≡ number (map.get self.now.counts id) }
        ensures all { HasCounts self.now.kinds self.now.counts }
    {
        match self.entries.get(id.0) {
            Some(entry) => entry.count,
            None => 0,
        }
    }

    /// How many opens are of the node. Looks at no open.
    pub fn opens_of(&self, node: ObjId) -> u64
        ensures { result ≡ opens_of_node self.now.kinds node }
    {
        by_node::count_of(&self.by_node, node)
    }

    /// A new open that nothing holds. Where memory runs out, all is as before.
    pub fn add(&mut self, id: ObjId, kind: OpenKind) -> Result<(), AllocError>
        requires { map.get self.old.kinds id ≡ None }
        ensures ok { OnOk result (self.new ≡ record { kinds = map.insert self.old.kinds id kind; counts = map.insert self.old.counts id 0 }) }
        ensures err { OnErr result (self.new ≡ self.old) }
    {
        // The list may come to have every open, the new one too.
        let more = self.entries.len() + 1 - self.unheld.len();
        self.unheld.reserve(more)?;
        let entry = Entry {
            kind,
            count: 0,
            place: self.unheld.len(),
        };
        self.entries.insert(id.0, entry)?;
        // The first open of a node takes memory too: where it runs out, the entry goes again.
        if let Err(error) = by_node::count_open(&mut self.by_node, &kind) {
            self.entries.remove(id.0);
            return Err(error);
        }
        self.unheld.push_reserved(id);
        Ok(())
    }

    /// Makes the open another one, of the same node and with the same holders.
    pub fn set(&mut self, id: ObjId, kind: OpenKind)
        requires there { IsSome (map.get self.old.kinds id) }
        requires same_node { IfSome (map.get self.old.kinds id) (IsOfSameNode kind) }
        ensures { self.new ≡ record self.old { kinds = map.insert self.old.kinds id kind } }
    {
        let entry = self.entries.get_mut(id.0);
        entry.kind = kind;
    }

    /// One holder more.
    pub fn hold(&mut self, id: ObjId)
        requires there { IsSome (map.get self.old.counts id) }
        requires few { number (map.get self.old.counts id) < 2 ^ 63 }
        ensures { self.new ≡ record self.old { counts = map.insert self.old.counts id (number (map.get self.old.counts id) + 1) } }
    {
        let entry = self.entries.get_mut(id.0);
        entry.count += 1;
        if entry.count > 1 {
            return;
        }
        let place = entry.place;
        unlist(&mut self.entries, &mut self.unheld, place);
    }

    /// One holder less. Answers whether that was the last one. Takes no memory.
    pub fn let_go(&mut self, id: ObjId) -> bool
        requires { 0 < number (map.get self.old.counts id) }
        ensures last { IsTrue result ↔ (number (map.get self.old.counts id) ≡ 1) }
        ensures new { self.new ≡ record self.old { counts = map.insert self.old.counts id (number (map.get self.old.counts id) - 1) } }
    {
        let place = self.unheld.len();
        let entry = self.entries.get_mut(id.0);
        entry.count -= 1;
        if entry.count > 0 {
            return false;
        }
        entry.place = place;
        self.unheld.push_reserved(id);
        true
    }

    /// An open that nothing holds, if there is one. Which of them it is, is left open.
    pub fn unheld(&self) -> Option<ObjId>
        ensures none { IsNone result ↔ ((o : ℕ) → map.get self.now.counts o ≢ Some 0) }
        ensures unheld { IfSome result (λ o. map.get self.now.counts o ≡ Some 0) }
        ensures all { HasCounts self.now.kinds self.now.counts }
    {
        self.unheld.last().copied()
    }

    /// Takes the open away, and returns what it was, if it was there.
    pub fn remove(&mut self, id: ObjId) -> Option<OpenKind>
        ensures value { result ≡ map.get self.old.kinds id }
        ensures new { self.new ≡ record { kinds = map.remove self.old.kinds id; counts = map.remove self.old.counts id } }
    {
        let entry = self.entries.remove(id.0)?;
        by_node::uncount_open(&mut self.by_node, &entry.kind);
        if entry.count == 0 {
            unlist(&mut self.entries, &mut self.unheld, entry.place);
        }
        Some(entry.kind)
    }

    /// Takes away an open that nothing holds, if there is one, and returns its number and what it was. Which of them it is,
    /// is left open. Takes no memory, and looks at no other open.
    pub fn pop_unheld(&mut self) -> Option<(ObjId, OpenKind)>
        ensures none { IsNone result ↔ ((o : ℕ) → map.get self.old.counts o ≢ Some 0) }
        ensures unchanged { IfNone result (self.new ≡ self.old) }
        ensures unheld { IfSome result (λ gone. map.get self.old.counts gone.0 ≡ Some 0) }
        ensures kind { IfSome result (λ gone. map.get self.old.kinds gone.0 ≡ Some gone.1) }
        ensures all { HasCounts self.old.kinds self.old.counts }
        ensures new { IfSome result (λ gone. self.new ≡ record { kinds = map.remove self.old.kinds gone.0; counts = map.remove self.old.counts gone.0 }) }
    {
        let id = self.unheld()?;
        let kind = self.remove(id).unwrap();
        Some((id, kind))
    }

    /// Takes each open away that nothing holds. Looks at no other.
    pub fn remove_unheld(&mut self)
        ensures { self.new ≡ unheld_removed self.old }
    {
        while self.pop_unheld().is_some() {}
    }
}

// Takes the open at this place out of the list. The last of the list comes to its place, and the entry of that one is
// changed accordingly.
fn unlist(entries: &mut NumMap<Entry>, unheld: &mut Vec<ObjId>, place: usize)
    requires there { place < vec_len unheld.old }
    requires others { AreListedBut place entries.old unheld.old.items }
    ensures listed { AreListed entries.new unheld.new.items }
    ensures kinds { kinds_of entries.new ≡ kinds_of entries.old }
    ensures counts { counts_of entries.new ≡ counts_of entries.old }
    ensures len { vec_len unheld.new + 1 ≡ vec_len unheld.old }
    ensures capacity { vec_capacity unheld.new ≡ vec_capacity unheld.old }
{
    unheld.swap_remove(place);
    if place < unheld.len() {
        let moved = unheld[place];
        entries.get_mut(moved.0).place = place;
    }
}
