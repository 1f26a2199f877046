//! How many files with a name a tree has, and how many bytes they hold.
ghost use Rattle.std.specs.Prelude.{ℕ, ◌≡◌, ◌≢◌, ◌+◌, ◌≤◌, ◌∷◌, IfOk, IsSome, OnOk, []};
ghost use Rattle.std.specs.FinMap as map;
ghost use Rattle.tree_model.specs.Tree.{IsTree, links_of};
ghost use Rattle.run_report.specs.TreeSizes.{bytes_count, files_count};
ghost use Rattle.run_report.specs.Walks.{AreCounted, Grows, IsClosed, steps_left};

use abi_types::{NodeKind, ObjId};
use file_tree::Tree;
use maps::NumMap;
use std::alloc::{AllocError, Global};
use tree_model::ROOT;

/// How many files with a name a tree has, and how many bytes they hold together.
#[derive(Clone, Copy)]
pub struct TreeSizes {
    pub files: u64,
    pub bytes: u64,
}

/// What was met of a tree from its root on: which nodes, the directories among them whose names were not gone through yet, and how many
/// files and bytes. A file with two names is met once.
#[derive(Drop)]
pub struct Walk {
    pub met: NumMap<()>,
    pub left: Vec<ObjId>,
    pub files: u64,
    pub bytes: u64,
}

impl Walk {
    // Nothing.
    fn new(alloc: Global) -> Self
        ensures met { result.met ≡ map.empty }
        ensures left { result.left.items ≡ [] }
        ensures files { result.files ≡ 0 }
        ensures bytes { result.bytes ≡ 0 }
    {
        Walk {
            met: NumMap::new(alloc),
            left: Vec::new(alloc),
            files: 0,
            bytes: 0,
        }
    }

    // Counts a file of this size. More bytes than 64 bits count are more than memory holds.
    fn count(&mut self, size: usize) -> Result<(), AllocError>
        ensures met { self.new.met ≡ self.old.met }
        ensures left { self.new.left.items ≡ self.old.left.items }
        ensures files { OnOk result (self.new.files ≡ self.old.files + 1) }
        ensures bytes { OnOk result (self.new.bytes ≡ self.old.bytes + size) }
    {
        self.files = self.files.checked_add(1).ok_or(AllocError)?;
        self.bytes = self.bytes.checked_add(size as u64).ok_or(AllocError)?;
        Ok(())
    }

    // Meets a node, which is counted where it is a file and was not met before. `Err` where memory ran out.
    fn meet(&mut self, tree: &Tree, id: ObjId) -> Result<(), AllocError>
        ensures tree { IsTree tree.now }
        ensures met { OnOk result (links_of tree.now id ≢ 0 → IsSome (map.get self.new.met id)) }
        ensures grows { OnOk result (links_of tree.now id ≢ 0 → Grows tree.now self.old self.new) }
    {
        let Some(node) = tree.node(id) else {
            return Ok(());
        };
        if self.met.contains(id.0) {
            return Ok(());
        }
        self.met.insert(id.0, ())?;
        match &node.kind {
            NodeKind::File(bytes) => self.count(bytes.len())?,
            NodeKind::Directory => self.left.push(id)?,
            NodeKind::Link(_) => {}
        }
        Ok(())
    }

    // Meets the nodes of a directory's names. `Err` where memory ran out.
    fn meet_names(&mut self, tree: &Tree, dir: ObjId) -> Result<(), AllocError>
        ensures met { OnOk result ((n : ℕ) → IsSome (map.get self.old.met n) → IsSome (map.get self.new.met n)) }
        ensures counted { OnOk result (AreCounted tree.now self.old → AreCounted tree.now self.new) }
        ensures closed { OnOk result (IsClosed tree.now self.old.met (dir ∷ self.old.left.items) → IsClosed tree.now self.new.met self.new.left.items) }
        ensures fewer { OnOk result (steps_left tree.now self.new ≤ steps_left tree.now self.old) }
    {
        for place in 0..tree.names_len(dir) {
            if let Some(entry) = tree.name_at(dir, place) {
                self.meet(tree, entry.1)?;
            }
        }
        Ok(())
    }
}

/// How many files with a name the tree has, and how many bytes they hold together. It goes from the root over the names in each directory
/// once.
///
/// # Errors
/// Only where memory runs out.
pub fn sizes_of(alloc: Global, tree: &Tree) -> Result<TreeSizes, AllocError>
    ensures files { IfOk result (λ sizes. sizes.files ≡ files_count tree.now) }
    ensures bytes { IfOk result (λ sizes. sizes.bytes ≡ bytes_count tree.now) }
{
    let mut walk = Walk::new(alloc);
    walk.meet(tree, ObjId(ROOT))?;
    while let Some(dir) = walk.left.pop() {
        walk.meet_names(tree, dir)?;
    }
    Ok(TreeSizes {
        files: walk.files,
        bytes: walk.bytes,
    })
}
