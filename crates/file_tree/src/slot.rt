//! What is kept of a node.
ghost use Rattle.std.specs.Prelude.{◌≡◌, ◌+◌, ◌<◌, ◌^◌, length, OnOk, OnErr, option_copied, true};
ghost use Rattle.std.specs.FinMap.{empty};
ghost use Rattle.tree_model.specs.Files.{resized, written};
ghost use Rattle.tree_model.specs.Changes.{bytes_of_kind, is_file_kind};
ghost use Rattle.file_tree.specs.SlotNames.{names_in_slot};
ghost use Rattle.file_tree.specs.SlotBytes.{with_file};

use crate::file_bytes::{resize, write_over};
use abi_types::{Node, NodeKind, ObjId};
use maps::NameMap;
use std::alloc::{AllocError, Global};

/// A node; of a directory also the names in it, and the directory that has a name of it.
#[derive(Drop)]
pub struct Slot {
    pub node: Node,
    pub names: NameMap<ObjId>,
    pub parent: Option<ObjId>,
}

impl Slot {
    /// A slot of a node, with no names in it.
    pub fn new(alloc: Global, node: Node, parent: Option<ObjId>) -> Self
        ensures { result ≡ record { node = node; names = empty; parent = parent } }
    {
        Slot {
            node,
            names: NameMap::new(alloc),
            parent,
        }
    }

    /// The names in it, where it is a directory.
    pub fn directory_names(&self) -> Option<&NameMap<ObjId>>
        ensures { option_copied result ≡ names_in_slot self.now }
    {
        match self.node.kind {
            NodeKind::Directory => Some(&self.names),
            _ => None,
        }
    }

    /// The bytes of a file, and none of what is no file.
    pub fn bytes(&self) -> &[u8]
        ensures { result.now ≡ bytes_of_kind self.now.node.kind }
    {
        match &self.node.kind {
            NodeKind::File(bytes) => bytes.as_slice(),
            _ => &[],
        }
    }

    /// Puts bytes into a file, from this place on. A gap before them is filled by zeros.
    pub fn write_at(&mut self, alloc: Global, at: usize, new: &[u8]) -> Result<(), AllocError>
        requires file { is_file_kind self.old.node.kind ≡ true }
        requires room { at + length new.now < 2 ^ 64 }
        ensures ok { OnOk result (self.new ≡ with_file self.old (written (bytes_of_kind self.old.node.kind) at new.now)) }
        ensures err { OnErr result (self.new ≡ self.old) }
    {
        match &mut self.node.kind {
            NodeKind::File(bytes) => write_over(alloc, bytes, at, new),
            _ => unreachable!(),
        }
    }

    /// Cuts a file at this size, or fills it by zeros up to it.
    pub fn set_size(&mut self, alloc: Global, size: usize) -> Result<(), AllocError>
        requires { is_file_kind self.old.node.kind ≡ true }
        ensures ok { OnOk result (self.new ≡ with_file self.old (resized (bytes_of_kind self.old.node.kind) size)) }
        ensures err { OnErr result (self.new ≡ self.old) }
    {
        match &mut self.node.kind {
            NodeKind::File(bytes) => resize(alloc, bytes, size),
            _ => unreachable!(),
        }
    }
}
