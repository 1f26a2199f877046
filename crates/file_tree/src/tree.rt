//! The tree and what is read of it.
ghost use Rattle.std.specs.Prelude.{◌≡◌, ◌<◌, ◌^◌, ℕ, List, true, IfOk, IfSome, IfNone, option_copied, option_map, drop};
ghost use Rattle.std.specs.List.{slice_get};
ghost use Rattle.std.specs.FinMap as map;
ghost use Rattle.tree_model.specs.Tree.{HasName, IsTree, entry_of, is_directory, names_of};
ghost use Rattle.tree_model.specs.Start.{root_tree};
ghost use Rattle.file_tree.specs.Listing.{shown};

use crate::slot::Slot;
use crate::slots::Slots;
use abi_types::{Node, NodeKind, ObjId, Times};
use maps::{NameEntries, NameMap, NumMap};
use std::alloc::{AllocError, Global};
use std::marker::Model;
use tree_model::ROOT;

/// A file tree: nodes by number, and in each directory its names.
///
/// In contracts it is the `Tree` of the crate tree_model, and it is always a tree (`IsTree`).
#[derive(Drop)]
pub struct Tree {
    pub(crate) slots: Slots,

    // The nodes without a name, the root aside, so that they are found without a search.
    pub(crate) nameless: NumMap<()>,

    pub(crate) alloc: Global,
}

impl Model for Tree {
    ghost use Rattle.tree_model.specs.Tree.{Tree, tree_code};

    ghost Value = { Tree };

    ghost coded = { tree_code };

    ghost use Rattle.file_tree.specs.Kept.{tree_of, IsKept};

    ghost view = { λ a. tree_of a.slots };

    ghost invariant = { λ a. IsKept a.slots a.nameless };
}

impl Tree {
    /// The tree of the root alone, a directory without names in it.
    pub fn new(alloc: Global, times: Times) -> Result<Self, AllocError>
        ensures { IfOk result (λ tree. tree ≡ root_tree times) }
    {
        let root = Node {
            kind: NodeKind::Directory,
            times,
            links: 1,
        };
        let mut slots = Slots::new(alloc);
        slots.insert(ObjId(ROOT), Slot::new(alloc, root, None))?;
        Ok(Tree {
            slots,
            nameless: NumMap::new(alloc),
            alloc,
        })
    }

    /// How many nodes there are.
    pub fn len(&self) -> u64
        ensures nodes { result ≡ map.len self.now.nodes }
        ensures small { result < 2 ^ 63 }
    {
        self.slots.len() as u64
    }

    /// The node of this number, where there is one.
    pub fn node(&self, id: ObjId) -> Option<&Node>
        ensures value { option_copied result ≡ map.get self.now.nodes id }
        ensures tree { IsTree self.now }
    {
        match self.slots.get(id) {
            Some(slot) => Some(&slot.node),
            None => None,
        }
    }

    // The names in a directory, where it is one.
    pub(crate) fn names(&self, dir: ObjId) -> Option<&NameMap<ObjId>>
        ensures { option_copied result ≡ map.get self.now.names dir }
    {
        match self.slots.get(dir) {
            Some(slot) => slot.directory_names(),
            None => None,
        }
    }

    // The directory that has a name of this one, where it has a name.
    pub(crate) fn parent(&self, dir: ObjId) -> Option<ObjId>
        requires { is_directory self.now dir ≡ true }
        ensures some { IfSome result (λ parent. (name : List ℕ) × HasName self.now parent name dir) }
        ensures none { IfNone result ((parent : ℕ) (name : List ℕ) → HasName self.now parent name dir → ⊥) }
        ensures tree { IsTree self.now }
    {
        match self.slots.get(dir) {
            Some(slot) => slot.parent,
            None => None,
        }
    }

    /// How many names there are in a directory, and 0 where there is no such directory.
    pub fn names_len(&self, dir: ObjId) -> u64
        ensures names { result ≡ map.len (names_of self.now dir) }
        ensures small { result < 2 ^ 63 }
    {
        match self.names(dir) {
            Some(names) => names.len() as u64,
            None => 0,
        }
    }

    /// The node of a name in a directory, where the directory has that name.
    pub fn entry(&self, dir: ObjId, name: &[u8]) -> Option<ObjId>
        ensures { result ≡ entry_of self.now dir name.now }
    {
        match self.names(dir) {
            Some(names) => names.get(name).copied(),
            None => None,
        }
    }

    /// The name at this place, counted from 0, of the names in a directory in the order of their bytes, and its node. `None`
    /// past the last one, and where there is no such directory. It takes as many steps as the directory's search tree is deep.
    pub fn name_at(&self, dir: ObjId, place: u64) -> Option<(&[u8], ObjId)>
        ensures { option_map shown result ≡ slice_get (map.entries (names_of self.now dir)) place }
    {
        match self.names(dir)?.at(place as usize) {
            Some((name, id)) => Some((name, *id)),
            None => None,
        }
    }

    /// The names in a directory from this place on, counted from 0, in the order of their bytes, each with its node, one
    /// after another. `None` where there is no such directory. It costs nothing to begin at a later place; each name that is
    /// read takes as many steps as the directory's search tree is deep.
    pub fn names_from(&self, dir: ObjId, place: u64) -> Option<NameEntries<'_, ObjId>>
        ensures { result ≡ option_map (λ names. drop place (map.entries names)) (map.get self.now.names dir) }
    {
        match self.names(dir) {
            Some(names) => Some(names.from_place(place as usize)),
            None => None,
        }
    }
}
