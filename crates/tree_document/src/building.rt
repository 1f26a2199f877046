//! The tree of the records so far.
ghost use Rattle.std.specs.Prelude.{◌≡◌, ◌<◌, ◌+◌, ◌^◌, IfOk, IfErr, OnOk};
ghost use Rattle.abi_types.specs.declared.node.NodeKind.TheVariants.{File};
ghost use Rattle.tree_model.specs.declared.fault.TreeFault.TheVariants.{NoMemory};
ghost use Rattle.tree_model.specs.Start.{root_tree};
ghost use Rattle.tree_records.specs.Views.{record_seen};
ghost use Rattle.tree_document.specs.Building.{IsAllowed, IsFresh, IsPlace, IsLinkPlace, HasFile, start, with_file, with_name, with_node, with_record};
ghost use Rattle.tree_document.specs.Views.{making, IsAt};

use crate::walking::{node_of, parent_of};
use abi_types::{Bytes, Node, NodeKind, ObjId, Times};
use file_tree::Tree;
use lists::Stop;
use maps::NameMap;
use std::alloc::{AllocError, Global};
use tree_model::{ROOT, TreeFault};
use tree_records::{Malformed, Path, Read, Record};

/// The tree of the records so far, the times of each node, the number of the next one, and the paths of the `file` records.
#[derive(Drop)]
pub struct Building {
    pub tree: Tree,
    pub times: Times,
    pub next: u64,
    pub files: NameMap<()>,
}

// Why a change isn't made, for a reader.
fn stop(fault: TreeFault) -> Stop<Malformed>
    ensures { IsAt result → fault ≡ NoMemory → ⊥ }
{
    match fault {
        TreeFault::NoMemory => Stop::Memory,
        _ => Stop::At(Malformed),
    }
}

impl Building {
    /// Before the first record: the root alone. Each node has these times.
    pub fn new(alloc: Global, times: Times) -> Result<Self, AllocError>
        ensures { IfOk result (λ building. making building ≡ start times) }
    {
        Ok(Building {
            tree: Tree::new(alloc, times)?,
            times,
            next: ROOT + 1,
            files: NameMap::new(alloc),
        })
    }

    // A new node with its first name.
    fn make(&mut self, path: &Path, kind: NodeKind) -> Read<()>
        requires fresh { IsFresh (making self.old) }
        requires room { self.old.next + 1 < 2 ^ 64 }
        ensures place { OnOk result (IsPlace self.old.tree path.now) }
        ensures ok { OnOk result (making self.new ≡ with_node (making self.old) path.now kind) }
        ensures err { IfErr result (λ stop. IsAt stop → IsPlace self.old.tree path.now → ⊥) }
    {
        let Some(dir) = parent_of(&self.tree, path) else {
            return Err(Stop::At(Malformed));
        };
        let node = Node {
            kind,
            times: self.times,
            links: 1,
        };
        match self.tree.make(dir, path.name(), ObjId(self.next), node) {
            Ok(()) => {
                self.next += 1;
                Ok(())
            }
            Err(fault) => Err(stop(fault)),
        }
    }

    // One more name of the file of a record.
    fn link(&mut self, path: &Path, target: &Path) -> Read<()>
        ensures file { OnOk result (HasFile (making self.old) target.now) }
        ensures place { OnOk result (IsLinkPlace self.old.tree path.now target.now) }
        ensures ok { OnOk result (making self.new ≡ with_name (making self.old) path.now target.now) }
        ensures err { IfErr result (λ stop. IsAt stop → HasFile (making self.old) target.now → IsLinkPlace self.old.tree path.now target.now → ⊥) }
    {
        if !self.files.contains(target.as_bytes()) {
            return Err(Stop::At(Malformed));
        }
        let Some(dir) = parent_of(&self.tree, path) else {
            return Err(Stop::At(Malformed));
        };
        let Some(node) = node_of(&self.tree, target) else {
            return Err(Stop::At(Malformed));
        };
        match self.tree.link(dir, path.name(), node) {
            Ok(()) => Ok(()),
            Err(fault) => Err(stop(fault)),
        }
    }

    // A new file with its path.
    fn make_file(&mut self, alloc: Global, path: &Path, bytes: &[u8]) -> Read<()>
        requires fresh { IsFresh (making self.old) }
        requires room { self.old.next + 1 < 2 ^ 64 }
        ensures place { OnOk result (IsPlace self.old.tree path.now) }
        ensures ok { OnOk result (making self.new ≡ with_file (with_node (making self.old) path.now (File bytes.now)) path.now) }
        ensures err { IfErr result (λ stop. IsAt stop → IsPlace self.old.tree path.now → ⊥) }
    {
        self.make(path, NodeKind::File(Bytes::of(alloc, bytes)?))?;
        Ok(self.files.insert(path.as_bytes(), ())?)
    }

    /// Adds what a record says.
    ///
    /// # Errors
    /// [`Stop::At`] exactly where the record may not stand here. After an error nothing is said of what was built.
    pub fn add(&mut self, alloc: Global, added: &Record) -> Read<()>
        requires fresh { IsFresh (making self.old) }
        requires room { self.old.next + 1 < 2 ^ 64 }
        ensures allowed { OnOk result (IsAllowed (making self.old) (record_seen added.now)) }
        ensures ok { OnOk result (making self.new ≡ with_record (making self.old) (record_seen added.now)) }
        ensures err { IfErr result (λ stop. IsAt stop → IsAllowed (making self.old) (record_seen added.now) → ⊥) }
    {
        match added {
            Record::Dir { path } => self.make(path, NodeKind::Directory),
            Record::File { path, bytes } => self.make_file(alloc, path, bytes),
            Record::Link { path, text } => self.make(path, NodeKind::Link(Bytes::of(alloc, text)?)),
            Record::Hard { path, target } => self.link(path, target),
        }
    }
}
