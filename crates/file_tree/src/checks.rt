//! Whether a change of names is refused, and with what fault: the first of its table.
ghost use Rattle.std.specs.Prelude.{◌≡◌, Some, true, IfOk};
ghost use Rattle.maps.specs.Closure.{member};
ghost use Rattle.tree_model.specs.Tree.{below, entry_of, is_directory};
ghost use Rattle.tree_model.specs.Changes.{directory_faults, has_names, is_same, link_faults, make_faults, rename_faults, replace_faults, unlink_faults};
ghost use Rattle.file_tree.specs.Checks.{Checks, place_faults};

use crate::tree::Tree;
use abi_types::{NodeKind, ObjId};
use tree_model::{MOST_LINKS, ROOT, TreeFault};

impl Tree {
    // Whether the number is a directory's.
    fn is_directory(&self, id: ObjId) -> bool
        ensures { result ≡ is_directory self.now id }
    {
        match self.node(id) {
            Some(node) => matches!(node.kind, NodeKind::Directory),
            None => false,
        }
    }

    // Whether there are names in the directory.
    fn has_names(&self, dir: ObjId) -> bool
        ensures { result ≡ has_names self.now dir }
    {
        match self.names(dir) {
            Some(names) => !names.is_empty(),
            None => false,
        }
    }

    // That the number is a directory's.
    fn check_directory(&self, dir: ObjId) -> Result<(), TreeFault>
        ensures { Checks (directory_faults self.now dir) result }
    {
        match self.node(dir) {
            Some(node) => match node.kind {
                NodeKind::Directory => Ok(()),
                _ => Err(TreeFault::NotDirectory),
            },
            None => Err(TreeFault::Absent),
        }
    }

    // That it is a directory's which was not removed.
    fn check_place(&self, dir: ObjId) -> Result<(), TreeFault>
        ensures { Checks (place_faults self.now dir) result }
    {
        match self.node(dir) {
            Some(node) => match node.kind {
                NodeKind::Directory if node.links == 0 && dir.0 != ROOT => Err(TreeFault::Absent),
                NodeKind::Directory => Ok(()),
                _ => Err(TreeFault::NotDirectory),
            },
            None => Err(TreeFault::Absent),
        }
    }

    /// That a new node may get this name. Says what `make` would be refused for, and changes nothing.
    pub fn check_make(&self, dir: ObjId, name: &[u8]) -> Result<(), TreeFault>
        ensures { Checks (make_faults self.now dir name.now) result }
    {
        self.check_place(dir)?;
        if self.entry(dir, name).is_some() {
            return Err(TreeFault::Taken);
        }
        Ok(())
    }

    // That a node may get one more name, this one.
    pub(crate) fn check_link(&self, dir: ObjId, name: &[u8], id: ObjId) -> Result<(), TreeFault>
        ensures { Checks (link_faults self.now dir name.now id) result }
    {
        self.check_place(dir)?;
        let Some(node) = self.node(id) else {
            return Err(TreeFault::Absent);
        };
        if let NodeKind::Directory = node.kind {
            return Err(TreeFault::IsDirectory);
        }
        if self.entry(dir, name).is_some() {
            return Err(TreeFault::Taken);
        }
        if node.links >= MOST_LINKS {
            return Err(TreeFault::Links);
        }
        Ok(())
    }

    /// That a name may go; its node. Says what `unlink` would be refused for, and changes nothing.
    pub fn check_unlink(&self, dir: ObjId, name: &[u8]) -> Result<ObjId, TreeFault>
        ensures checks { Checks (unlink_faults self.now dir name.now) result }
        ensures node { IfOk result (λ node. entry_of self.now dir name.now ≡ Some node) }
    {
        self.check_directory(dir)?;
        let Some(id) = self.entry(dir, name) else {
            return Err(TreeFault::Absent);
        };
        if self.has_names(id) {
            return Err(TreeFault::NotEmpty);
        }
        Ok(id)
    }

    // That a name may move to this place; its node.
    pub(crate) fn check_rename(
        &self,
        from: ObjId,
        name: &[u8],
        to: ObjId,
        new: &[u8],
    ) -> Result<ObjId, TreeFault>
        ensures checks { Checks (rename_faults self.now from name.now to new.now) result }
        ensures node { IfOk result (λ node. entry_of self.now from name.now ≡ Some node) }
    {
        self.check_directory(from)?;
        let Some(id) = self.entry(from, name) else {
            return Err(TreeFault::Absent);
        };
        self.check_place(to)?;
        let old = self.entry(to, new);
        if !is_of(id, &old) {
            self.check_replace(id, to, old)?;
        }
        Ok(id)
    }

    // That a node may come to this place, where this other one loses its name, if there is one.
    fn check_replace(&self, moved: ObjId, to: ObjId, old: Option<ObjId>) -> Result<(), TreeFault>
        requires { is_directory self.now to ≡ true }
        ensures { Checks (replace_faults self.now (Some moved) to old) result }
    {
        if self.is_below(moved, to) {
            return Err(TreeFault::Below);
        }
        let Some(old) = old else {
            return Ok(());
        };
        if self.is_directory(moved) && !self.is_directory(old) {
            return Err(TreeFault::NotDirectory);
        }
        if !self.is_directory(moved) && self.is_directory(old) {
            return Err(TreeFault::IsDirectory);
        }
        if self.has_names(old) {
            return Err(TreeFault::NotEmpty);
        }
        Ok(())
    }

    // Whether the directory is the node or stands below it, found by climbing from it.
    fn is_below(&self, id: ObjId, dir: ObjId) -> bool
        requires { is_directory self.now dir ≡ true }
        ensures { result ≡ member dir (below self.now id) }
    {
        let mut at = dir;
        while at.0 != id.0 {
            match self.parent(at) {
                Some(parent) => at = parent,
                None => return false,
            }
        }
        true
    }
}

/// Whether a name that is looked up is one of this node.
pub fn is_of(id: ObjId, entry: &Option<ObjId>) -> bool
    ensures { result ≡ is_same (Some id) entry.now }
{
    match entry {
        Some(other) => id.0 == other.0,
        None => false,
    }
}
