//! The tree's directories as those that the walk of a path goes through.
ghost use Rattle.std.specs.Prelude.{◌≡◌};
ghost use Rattle.path_lookup.specs.Laws.{EndsAtPlace, EndsIn};
ghost use Rattle.path_lookup.specs.Walk.{walk_of};
ghost use Rattle.maps.specs.Closure.{member};
ghost use Rattle.tree_model.specs.Finds.{finds};
ghost use Rattle.tree_model.specs.Tree.{below};

use crate::tree::Tree;
use abi_types::{NodeKind, ObjId};
use path_lookup::{Dirs, End, Found, WalkFault, WalkMode, walk};

impl Dirs for Tree {
    ghost finds = { finds };

    fn find(&self, dir: ObjId, name: &[u8]) -> Found<'_> {
        let Some(id) = self.entry(dir, name) else {
            return Found::Nothing;
        };
        let Some(node) = self.node(id) else {
            return Found::Nothing;
        };
        match &node.kind {
            NodeKind::File(_) => Found::File(id),
            NodeKind::Directory => Found::Directory(id),
            NodeKind::Link(text) => Found::Link(id, text.as_slice()),
        }
    }
}

impl Tree {
    /// Where a path leads from a directory, or why it leads nowhere: `walk` of path_lookup over this tree. Each node and each
    /// directory that its end names is the start, or below it. It takes no memory.
    pub fn walk(&self, start: ObjId, path: &[u8], mode: WalkMode) -> Result<End, WalkFault>
        ensures walked { result ≡ walk_of (finds self.now) mode start path.now }
        ensures below { EndsIn (λ n. member n (below self.now start)) result }
        ensures place { EndsAtPlace path.now result }
    {
        walk(self, start, path, mode)
    }
}
