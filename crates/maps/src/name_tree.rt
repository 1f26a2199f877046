//! A search tree of entries, in which each node has the number of entries below it: so the entry at a place is found by
//! numbers alone, in as many steps as the tree is deep. The tree knows entries by their places; that names rise is asked for
//! only where a name is looked for.
//!
//! The tree is balanced by weight: of the two sides of a node neither is more than three times as heavy as the other, where a side weighs
//! one more than it has entries. What a contract says holds without that.
ghost use Rattle.std.specs.Prelude.{◌≡◌, ◌+◌, ◌^◌, ◌<◌, ◌≤◌, [], length, option_map, Some, IfOk};
ghost use Rattle.std.specs.List.{slice_get};
ghost use Rattle.std.specs.Map.Iter.{deref_pair};
ghost use Rattle.std.specs.Ordering.{is_lt};
ghost use Rattle.maps.specs.Names.{name_cmp};
ghost use Rattle.maps.specs.Placed.{placed, revalued, count_below, IsOrdered};
ghost use Rattle.maps.specs.NameTrees.{row, IsCounted, entry_in, entries_in, StandsAlone};

use std::alloc::{AllocError, Global};
use std::cmp::Ord;
use std::marker::Model;
use std::mem;
use std::vec::Vec;

/// Entries with names, one after another. In contracts it is the list of them.
#[cycle(name_tree)]
#[derive(Drop)]
pub(crate) struct NameTree<V> {
    root: Root<V>,
}

// The top of a tree, if it has entries.
#[cycle(name_tree)]
#[derive(Drop)]
enum Root<V> {
    Empty,
    Full(Box<NameNode<V>>),
}

/// An entry of a tree, between the entries before and after it.
#[cycle(name_tree)]
#[derive(Drop)]
pub(crate) struct NameNode<V> {
    pub(crate) before: NameTree<V>,
    pub(crate) name: Vec<u8>,
    pub(crate) value: V,
    pub(crate) after: NameTree<V>,
    pub(crate) len: usize,
}

impl<V> Model for NameTree<V> {
    ghost use Rattle.std.specs.Prelude.{List, ℕ, length};
    ghost use Rattle.std.specs.Coded.{coded_list, coded×, coded_ℕ};

    ghost Value = { List (List ℕ × V) };

    ghost coded = { coded_list (coded× (coded_list coded_ℕ) V.code) };

    ghost use Rattle.maps.specs.NameTrees.{row, IsCounted};

    ghost view = { λ t. row t.root };

    ghost invariant = { λ t. IsCounted t.root };

    ghost size = { length };

    ghost use Rattle.std.proofs.Common.{arith, length-append};

    ghost size_decreases = { λ a h. Prim.grind (arith, length-append) };
}

impl<V> NameTree<V> {
    /// A tree with no entries.
    pub(crate) fn new() -> Self
        ensures { result ≡ [] }
    {
        Self { root: Root::Empty }
    }

    /// The number of entries.
    pub(crate) fn len(&self) -> usize
        ensures { result ≡ length self.now }
    {
        match &self.root {
            Root::Empty => 0,
            Root::Full(node) => node.len,
        }
    }

    /// The whole tree, in whose place an empty one is left.
    pub(crate) fn take(&mut self) -> Self
        ensures whole { result ≡ self.old }
        ensures left { self.new ≡ [] }
    {
        mem::replace(self, Self::new())
    }

    /// Puts `tree` in the place of an empty one.
    pub(crate) fn fill(&mut self, tree: Self)
        requires { self.old ≡ [] }
        ensures { self.new ≡ tree }
    {
        mem::replace(self, tree).end();
    }

    // The top of the tree.
    fn open(self) -> Root<V>
        ensures { row result ≡ self }
    {
        self.root
    }

    // Ends an empty tree. Trees of values that may not be dropped end so.
    fn end(self)
        requires { self ≡ [] }
    {
        match self.root {
            Root::Empty => (),
            Root::Full(_node) => unreachable!(),
        }
    }

    /// The entry at `place`, which counts from 0. `None` is the answer past the last.
    pub(crate) fn at(&self, place: usize) -> Option<(&[u8], &V)>
        ensures entry { option_map deref_pair result ≡ slice_get self.now place }
    {
        match &self.root {
            Root::Empty => None,
            Root::Full(node) => {
                let before = node.before.len();
                if place < before {
                    node.before.at(place)
                } else if place == before {
                    Some((node.name.as_slice(), &node.value))
                } else {
                    node.after.at(place - before - 1)
                }
            }
        }
    }

    /// How many names are below `name`, where the names rise.
    pub(crate) fn below(&self, name: &[u8]) -> usize
        requires { IsOrdered self.now }
        ensures { result ≡ count_below name.now self.now }
    {
        let mut count = 0;
        let mut tree = self;
        while let Root::Full(node) = &tree.root {
            if is_lower(node.name.as_slice(), name) {
                count += node.before.len() + 1;
                tree = &node.after;
            } else {
                tree = &node.before;
            }
        }
        count
    }

    /// Puts the entry of `fresh`, which stands alone, at `place`.
    #[tactic(auto, using(crate::proofs::Places::places))]
    pub(crate) fn insert(self, place: usize, fresh: Box<NameNode<V>>) -> Self
        requires within { place ≤ length self }
        requires room { length self + 1 < 2 ^ 64 }
        requires alone { StandsAlone fresh.value }
        ensures { result ≡ placed place (entry_in fresh.value) self }
    {
        match self.open() {
            Root::Empty => closed(fresh),
            Root::Full(mut node) => {
                let before = node.before.len();
                if place <= before {
                    let side = node.before.take().insert(place, fresh);
                    node.before.fill(side);
                    balanced(node)
                } else {
                    let side = node.after.take().insert(place - before - 1, fresh);
                    node.after.fill(side);
                    balanced(node)
                }
            }
        }
    }

    /// Takes out the entry at `place`, and gives its node, which stands alone, and the other entries.
    #[tactic(auto, using(crate::proofs::Places::places))]
    pub(crate) fn remove(self, place: usize) -> (Box<NameNode<V>>, Self)
        requires within { place < length self }
        requires few { length self < 2 ^ 64 }
        ensures entry { self ≡ placed place (entry_in result.0.value) result.1 }
        ensures alone { StandsAlone result.0.value }
    {
        match self.open() {
            Root::Empty => unreachable!(),
            Root::Full(mut node) => {
                let before = node.before.len();
                if place < before {
                    let (found, rest) = node.before.take().remove(place);
                    node.before.fill(rest);
                    (found, balanced(node))
                } else if before < place {
                    let (found, rest) = node.after.take().remove(place - before - 1);
                    node.after.fill(rest);
                    (found, balanced(node))
                } else if node.after.len() == 0 {
                    let rest = node.before.take();
                    (node, rest)
                } else {
                    let (mut next, rest) = node.after.take().remove(0);
                    next.before.fill(node.before.take());
                    next.after.fill(rest);
                    (node, balanced(next))
                }
            }
        }
    }

    /// Puts `value` in the place of the value at `place`, and returns the latter.
    #[tactic(auto, using(crate::proofs::Places::places))]
    pub(crate) fn replace(&mut self, place: usize, value: V) -> V
        requires { place < length self.old }
        ensures old { Some result ≡ option_map (λ e. e.1) (slice_get self.old place) }
        ensures new { self.new ≡ revalued place value self.old }
    {
        match &mut self.root {
            Root::Empty => unreachable!(),
            Root::Full(node) => {
                let before = node.before.len();
                if place < before {
                    node.before.replace(place, value)
                } else if place == before {
                    mem::replace(&mut node.value, value)
                } else {
                    node.after.replace(place - before - 1, value)
                }
            }
        }
    }
}

impl<V> NameNode<V> {
    /// A node that stands alone.
    pub(crate) fn new(alloc: Global, name: &[u8], value: V) -> Result<Box<Self>, AllocError>
    where
        V: Drop,
        ensures { IfOk result (λ node. StandsAlone node.value × (entry_in node.value ≡ (name.now, value))) }
    {
        let name = name.to_vec(alloc)?;
        let node = Self {
            before: NameTree::new(),
            name,
            value,
            after: NameTree::new(),
            len: 1,
        };
        Ok(Box::new(alloc, node)?)
    }

    /// The value of a node that stands alone.
    pub(crate) fn into_value(node: Box<Self>) -> V
        requires { StandsAlone node.value }
        ensures { result ≡ node.value.value }
    {
        let NameNode {
            before,
            value,
            after,
            ..
        } = Box::into_inner(node);
        before.end();
        after.end();
        value
    }
}

// Whether the first name comes before the second.
fn is_lower(first: &[u8], second: &[u8]) -> bool
    ensures { result ≡ is_lt (name_cmp first.now second.now) }
{
    first.cmp(second).is_lt()
}

// The tree of a node, which is counted.
fn closed<V>(mut node: Box<NameNode<V>>) -> NameTree<V>
    requires { length (entries_in node.value) < 2 ^ 64 }
    ensures { result ≡ entries_in node.value }
{
    node.len = node.before.len() + 1 + node.after.len();
    NameTree {
        root: Root::Full(node),
    }
}

// The top of the side after a node, where there is one, with the node below it; or else the node.
fn raise_after<V>(mut node: Box<NameNode<V>>) -> Box<NameNode<V>>
    requires { length (entries_in node.value) < 2 ^ 64 }
    ensures { entries_in result.value ≡ entries_in node.value }
{
    match node.after.take().open() {
        Root::Empty => node,
        Root::Full(mut top) => {
            node.after.fill(top.before.take());
            top.before.fill(closed(node));
            top
        }
    }
}

// The top of the side before a node, where there is one, with the node below it; or else the node.
fn raise_before<V>(mut node: Box<NameNode<V>>) -> Box<NameNode<V>>
    requires { length (entries_in node.value) < 2 ^ 64 }
    ensures { entries_in result.value ≡ entries_in node.value }
{
    match node.before.take().open() {
        Root::Empty => node,
        Root::Full(mut top) => {
            node.before.fill(top.after.take());
            top.after.fill(closed(node));
            top
        }
    }
}

// The tree, with another top where its first side weighs twice as much as its second or more.
fn less_before<V>(tree: NameTree<V>) -> NameTree<V>
    requires { length tree < 2 ^ 64 }
    ensures { result ≡ tree }
{
    match tree.open() {
        Root::Empty => NameTree::new(),
        Root::Full(node) => {
            let (before, after) = (node.before.len(), node.after.len());
            if before - before / 2 <= after {
                closed(node)
            } else {
                closed(raise_before(node))
            }
        }
    }
}

// The tree, with another top where its second side weighs twice as much as its first or more.
fn less_after<V>(tree: NameTree<V>) -> NameTree<V>
    requires { length tree < 2 ^ 64 }
    ensures { result ≡ tree }
{
    match tree.open() {
        Root::Empty => NameTree::new(),
        Root::Full(node) => {
            let (before, after) = (node.before.len(), node.after.len());
            if after - after / 2 <= before {
                closed(node)
            } else {
                closed(raise_after(node))
            }
        }
    }
}

// The tree of a node, balanced, where one entry came to one of its balanced sides or left it.
fn balanced<V>(mut node: Box<NameNode<V>>) -> NameTree<V>
    requires { length (entries_in node.value) < 2 ^ 64 }
    ensures { result ≡ entries_in node.value }
{
    let (before, after) = (node.before.len(), node.after.len());
    if before < after / 3 {
        let side = less_before(node.after.take());
        node.after.fill(side);
        closed(raise_after(node))
    } else if after < before / 3 {
        let side = less_after(node.before.take());
        node.before.fill(side);
        closed(raise_before(node))
    } else {
        closed(node)
    }
}
