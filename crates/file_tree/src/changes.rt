//! Changes of names: a new node, one more name of a node, and a name that goes.
ghost use Rattle.std.specs.Prelude.{◌≡◌, None, true, OnOk, OnErr, IfOk, IfErr};
ghost use Rattle.tree_model.specs.Tree.{entry_of};
ghost use Rattle.tree_model.specs.Changes.{IsRefusal, first_fault, is_absent, link_faults, linked, made, make_faults, unlink_faults, unlinked};

use crate::entries::{add_node, count_more, drop_entry, lose_name, put_entry};
use crate::tree::Tree;
use abi_types::{Node, ObjId};
use tree_model::TreeFault;

impl Tree {
    /// A new node with its first name. It counts one name, whatever the one that is passed counts.
    pub fn make(&mut self, dir: ObjId, name: &[u8], id: ObjId, node: Node) -> Result<(), TreeFault>
        requires { is_absent self.old id ≡ true }
        ensures allowed { OnOk result (first_fault (make_faults self.old dir name.now) ≡ None) }
        ensures ok { OnOk result (self.new ≡ made self.old dir name.now id node) }
        ensures fault { IfErr result (IsRefusal (first_fault (make_faults self.old dir name.now))) }
        ensures err { OnErr result (self.new ≡ self.old) }
    {
        self.check_make(dir, name)?;
        add_node(&mut self.slots, self.alloc, dir, name, id, node)?;
        Ok(())
    }

    /// One more name of a node that is no directory.
    pub fn link(&mut self, dir: ObjId, name: &[u8], id: ObjId) -> Result<(), TreeFault>
        ensures allowed { OnOk result (first_fault (link_faults self.old dir name.now id) ≡ None) }
        ensures ok { OnOk result (self.new ≡ linked self.old dir name.now id) }
        ensures fault { IfErr result (IsRefusal (first_fault (link_faults self.old dir name.now id))) }
        ensures err { OnErr result (self.new ≡ self.old) }
    {
        self.check_link(dir, name, id)?;
        put_entry(&mut self.slots, dir, name, id)?;
        count_more(&mut self.slots, id);
        self.nameless.remove(id.0);
        Ok(())
    }

    /// Takes a name away, a directory's only where there are no names in it. Returns the node of the name, which stays, also
    /// where it has no other name.
    pub fn unlink(&mut self, dir: ObjId, name: &[u8]) -> Result<ObjId, TreeFault>
        ensures allowed { OnOk result (first_fault (unlink_faults self.old dir name.now) ≡ None) }
        ensures node { IfOk result (λ node. entry_of self.old dir name.now ≡ Some node) }
        ensures ok { OnOk result (self.new ≡ unlinked self.old dir name.now) }
        ensures fault { IfErr result (IsRefusal (first_fault (unlink_faults self.old dir name.now))) }
        ensures err { OnErr result (self.new ≡ self.old) }
    {
        let id = self.check_unlink(dir, name)?;
        lose_name(&mut self.slots, &mut self.nameless, id)?;
        drop_entry(&mut self.slots, dir, name);
        Ok(id)
    }
}
