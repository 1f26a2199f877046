//! The entries of a map from names, one after another.
ghost use Rattle.std.specs.Prelude.{◌≡◌, length, drop};
ghost use Rattle.std.specs.Iterator.{at_most};
ghost use Rattle.std.specs.Map.Iter.{TakesFirst, deref_pair};

use crate::name_tree::NameTree;
use std::iter::Iterator;
use std::marker::Model;

/// An iterator over the entries of a map from names, in the order of the names' bytes. In contracts it is the list of the
/// entries that it has left.
#[derive(Drop)]
pub struct NameEntries<'a, V> {
    tree: &'a NameTree<V>,
    place: usize,
}

impl<'a, V> Model for NameEntries<'a, V> {
    ghost use Rattle.std.specs.Prelude.{List, ℕ, drop};

    ghost Value = { List (List ℕ × V) };

    ghost view = { λ a. drop a.place a.tree.now };
}

impl<'a, V> NameEntries<'a, V> {
    /// The entries of `tree`, without the first `place` of them.
    pub(crate) fn after(tree: &'a NameTree<V>, place: usize) -> Self
        ensures { result ≡ drop place tree.now }
    {
        Self { tree, place }
    }
}

impl<'a, V> Iterator for NameEntries<'a, V> {
    type Item = (&'a [u8], &'a V);

    ghost next_gives = { TakesFirst deref_pair };

    ghost remaining = { λ s. at_most (length s) };

    fn next(&mut self) -> Option<(&'a [u8], &'a V)> {
        if self.place >= self.tree.len() {
            return None;
        }
        let entry = self.tree.at(self.place);
        self.place += 1;
        entry
    }
}
