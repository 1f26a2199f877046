//! Nodes without a name: which there are, and that they go.
ghost use Rattle.std.specs.Prelude.{◌≡◌};
ghost use Rattle.tree_model.specs.Tree.{links_of};
ghost use Rattle.tree_model.specs.Changes.{forgotten, nameless_after};

use crate::entries::drop_slot;
use crate::numbers::least;
use crate::tree::Tree;
use abi_types::ObjId;

impl Tree {
    /// The least node above `after` that has no name, the root aside, and the least of all with no `after`. It takes no
    /// memory, and goes over no other nodes.
    pub fn nameless(&self, after: Option<ObjId>) -> Option<ObjId>
        ensures { result ≡ nameless_after self.now after }
    {
        Some(ObjId(least(&self.nameless, after)?))
    }

    /// Takes a node without a name away, with its bytes. It takes no memory.
    pub fn forget(&mut self, id: ObjId)
        requires { links_of self.old id ≡ 0 }
        ensures { self.new ≡ forgotten self.old id }
    {
        drop_slot(&mut self.slots, id);
        self.nameless.remove(id.0);
    }
}
