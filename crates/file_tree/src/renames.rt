//! A name that moves to another place.
ghost use Rattle.std.specs.Prelude.{◌≡◌, None, OnOk, OnErr, IfOk, IfErr};
ghost use Rattle.tree_model.specs.Changes.{IsRefusal, first_fault, rename_faults, renamed, replaced};

use crate::checks::is_of;
use crate::entries::{drop_entry, give_entry, set_parent};
use crate::tree::Tree;
use abi_types::ObjId;
use tree_model::TreeFault;

impl Tree {
    /// Moves a name to another place, in the same directory or in another one. The node that had the new name loses it, and
    /// is returned. Two names of one node stay as they are.
    pub fn rename(
        &mut self,
        from: ObjId,
        name: &[u8],
        to: ObjId,
        new: &[u8],
    ) -> Result<Option<ObjId>, TreeFault>
        ensures allowed { OnOk result (first_fault (rename_faults self.old from name.now to new.now) ≡ None) }
        ensures replaced { IfOk result (λ node. node ≡ replaced self.old from name.now to new.now) }
        ensures ok { OnOk result (self.new ≡ renamed self.old from name.now to new.now) }
        ensures fault { IfErr result (IsRefusal (first_fault (rename_faults self.old from name.now to new.now))) }
        ensures err { OnErr result (self.new ≡ self.old) }
    {
        let id = self.check_rename(from, name, to, new)?;
        let old = self.entry(to, new);
        if is_of(id, &old) {
            return Ok(None);
        }
        give_entry(&mut self.slots, &mut self.nameless, to, new, id, &old)?;
        drop_entry(&mut self.slots, from, name);
        set_parent(&mut self.slots, id, Some(to));
        Ok(old)
    }
}
