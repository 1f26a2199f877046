//! What is printed of a tree.
ghost use Rattle.std.specs.Prelude.{◌≡◌, ◌≤◌, ◌++◌, ◌∷◌, [], IsSome, List, OnOk, length};
ghost use Rattle.std.specs.FinMap as map;
ghost use Rattle.abi_types.specs.declared.node.NodeKind.TheVariants.{File};
ghost use Rattle.tree_document.specs.Printing.{Row, kind_text};
ghost use Rattle.tree_document.specs.Left.{IsPrinted, with_first};

use abi_types::{Bytes, NodeKind, ObjId};
use file_tree::Tree;
use maps::NumMap;
use std::alloc::{AllocError, Global};
use tree_records::{push_dir, push_file, push_hard, push_link};

/// The records of the names that were met, their number, and the path of the first name of each file among them.
#[derive(Drop)]
pub struct Printed {
    pub text: Vec<u8>,
    pub records: u64,
    pub firsts: NumMap<Bytes>,
}

impl Printed {
    /// Nothing.
    pub fn new(alloc: Global) -> Self
        ensures text { result.text.items ≡ [] }
        ensures records { result.records ≡ 0 }
        ensures firsts { result.firsts ≡ map.empty }
    {
        Printed {
            text: Vec::new(alloc),
            records: 0,
            firsts: NumMap::new(alloc),
        }
    }

    // A name of a file. It is not counted yet.
    fn push_file_name(
        &mut self,
        alloc: Global,
        path: &[u8],
        id: ObjId,
        bytes: &[u8],
    ) -> Result<(), AllocError>
        ensures text { OnOk result (self.new.text.items ≡ self.old.text.items ++ kind_text (map.get self.old.firsts id) path.now (File bytes.now)) }
        ensures records { self.new.records ≡ self.old.records }
        ensures firsts { OnOk result (self.new.firsts ≡ with_first self.old.firsts id path.now) }
    {
        if let Some(first) = self.firsts.get(id.0) {
            return push_hard(&mut self.text, path, first.as_slice());
        }
        self.firsts.insert(id.0, Bytes::of(alloc, path)?)?;
        push_file(&mut self.text, path, bytes)
    }

    /// The record of a name's path and node.
    pub fn push(
        &mut self,
        alloc: Global,
        tree: &Tree,
        path: &[u8],
        id: ObjId,
    ) -> Result<(), AllocError>
        requires { self.old.records ≤ length self.old.text.items }
        ensures { (rows : List Row) → IsSome (map.get tree.now.nodes id) → IsPrinted tree.now self.old.text.items self.old.records self.old.firsts rows
            → OnOk result (IsPrinted tree.now self.new.text.items self.new.records self.new.firsts (rows ++ (path.now, id) ∷ [])) }
    {
        let Some(node) = tree.node(id) else {
            return Ok(());
        };
        self.records += 1;
        match &node.kind {
            NodeKind::Directory => push_dir(&mut self.text, path),
            NodeKind::Link(text) => push_link(&mut self.text, path, text.as_slice()),
            NodeKind::File(bytes) => self.push_file_name(alloc, path, id, bytes.as_slice()),
        }
    }
}
