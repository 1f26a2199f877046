//! A map from names to values.
ghost use Rattle.std.specs.Prelude.{◌≡◌, ◌^◌, ◌<◌, ◌==◌, OnOk, OnErr, IsSome, IsTrue, is_some, option_copied, option_map, drop, ◌↔◌, List, ℕ};
ghost use Rattle.std.specs.List.{slice_get};
ghost use Rattle.std.specs.Map.Iter.{ShowsInOrder, deref_pair};
ghost use Rattle.std.specs.FinMap as map;
ghost use Rattle.std.specs.Ordering.{is_eq};
ghost use Rattle.maps.specs.Names.{name_cmp};
ghost use Rattle.maps.specs.Placed.{count_below, IsOrdered};

use crate::name_entries::NameEntries;
use crate::name_tree::{NameNode, NameTree};
use std::alloc::{AllocError, Global};
use std::cmp::Ord;
use std::marker::Model;

// More entries than memory holds.
const MOST_ENTRIES: usize = 0x7fff_ffff_ffff_ffff;

/// A map from names to values, with the names in the order of their bytes.
///
/// In contracts it is a finite map from lists of bytes to values, `FinMap (slice_cmp nat_cmp) V`.
#[derive(Drop)]
pub struct NameMap<V> {
    tree: NameTree<V>,
    alloc: Global,
}

impl<V> Model for NameMap<V> {
    ghost use Rattle.std.specs.Coded.{coded_list, coded_ℕ};
    ghost use Rattle.std.specs.FinMap as map;
    ghost use Rattle.maps.specs.Names.{Names};
    ghost use Rattle.maps.specs.Placed.{IsOrdered};

    ghost Value = { Names V };

    ghost coded = { map.code (coded_list coded_ℕ) V.code };

    ghost view = { λ m. map.from_sorted m.tree };

    ghost invariant = { λ m. IsOrdered m.tree };
}

// The same bytes.
fn is_same(first: &[u8], second: &[u8]) -> bool
    ensures { result ≡ is_eq (name_cmp first.now second.now) }
{
    first.cmp(second).is_eq()
}

// Whether the entry at the place of `name` has that name.
fn is_at<V>(tree: &NameTree<V>, place: usize, name: &[u8]) -> bool
    requires ordered { IsOrdered tree.now }
    requires place { place ≡ count_below name.now tree.now }
    ensures { result ≡ is_some (map.find name_cmp name.now tree.now) }
{
    match tree.at(place) {
        Some((found, _)) => is_same(name, found),
        None => false,
    }
}

impl<V> NameMap<V> {
    /// A map with no entries. Takes no memory until the first insertion.
    pub fn new(alloc: Global) -> Self
        ensures { result ≡ map.empty }
    {
        Self {
            tree: NameTree::new(),
            alloc,
        }
    }

    /// The number of entries.
    pub fn len(&self) -> usize
        ensures len { result ≡ map.len self.now }
        ensures small { result < 2 ^ 63 }
    {
        self.tree.len()
    }

    /// Whether there are no entries.
    pub fn is_empty(&self) -> bool
        ensures len { result ≡ (map.len self.now == 0) }
        ensures empty { IsTrue result ↔ (self.now ≡ map.empty) }
    {
        self.len() == 0
    }

    /// The value at `name`, if the map has one.
    pub fn get(&self, name: &[u8]) -> Option<&V>
        ensures { option_copied result ≡ map.get self.now name.now }
    {
        match self.tree.at(self.tree.below(name)) {
            Some((found, value)) => {
                if is_same(name, found) {
                    Some(value)
                } else {
                    None
                }
            }
            None => None,
        }
    }

    /// Whether the map has a value at `name`.
    pub fn contains(&self, name: &[u8]) -> bool
        ensures { result ≡ map.contains_key self.now name.now }
    {
        is_at(&self.tree, self.tree.below(name), name)
    }

    /// The entry at `place`, which counts from 0 in the order of the names' bytes. `None` is the answer past the last.
    pub fn at(&self, place: usize) -> Option<(&[u8], &V)>
        ensures { option_map deref_pair result ≡ slice_get (map.entries self.now) place }
    {
        self.tree.at(place)
    }

    /// An iterator over the entries from `place` on, which counts from 0 in the order of the names' bytes. Past the last
    /// entry it has none left. It costs nothing to begin at a later place.
    pub fn from_place(&self, place: usize) -> NameEntries<'_, V>
        ensures rest { result ≡ drop place (map.entries self.now) }
        ensures runs { ShowsInOrder (deref_pair {K = List ℕ} {X = V}) }
    {
        NameEntries::after(&self.tree, place)
    }

    /// Puts `value` at `name`, whether or not the map has that name, and drops the value that was there before.
    ///
    /// An error means that memory ran out, for the copy of the name or for the entry, and the map is as it was.
    pub fn insert(&mut self, name: &[u8], value: V) -> Result<(), AllocError>
    where
        V: Drop,
        ensures ok { OnOk result (self.new ≡ map.insert self.old name.now value) }
        ensures err { OnErr result (self.new ≡ self.old) }
    {
        let place = self.tree.below(name);
        if is_at(&self.tree, place, name) {
            self.tree.replace(place, value);
            return Ok(());
        }
        if self.tree.len() >= MOST_ENTRIES {
            return Err(AllocError);
        }
        let fresh = NameNode::new(self.alloc, name, value)?;
        let tree = self.tree.take().insert(place, fresh);
        self.tree.fill(tree);
        Ok(())
    }

    /// Puts `value` at `name`, which the map has, and returns the value that was there before. Takes no memory.
    pub fn replace(&mut self, name: &[u8], value: V) -> V
        requires { IsSome (map.get self.old name.now) }
        ensures old { Some result ≡ map.get self.old name.now }
        ensures new { self.new ≡ map.insert self.old name.now value }
    {
        let place = self.tree.below(name);
        self.tree.replace(place, value)
    }

    /// Takes out the entry at `name`, and returns its value, if the map has one. Takes no memory.
    pub fn remove(&mut self, name: &[u8]) -> Option<V>
        ensures value { result ≡ map.get self.old name.now }
        ensures new { self.new ≡ map.remove self.old name.now }
    {
        let place = self.tree.below(name);
        if !is_at(&self.tree, place, name) {
            return None;
        }
        let (node, rest) = self.tree.take().remove(place);
        self.tree.fill(rest);
        Some(NameNode::into_value(node))
    }
}
