//! What a node has: the bytes of a file, and times.
ghost use Rattle.std.specs.Prelude.{◌≡◌, ◌<◌, ◌^◌, None, true, length, IfOk, IfErr, OnOk, OnErr};
ghost use Rattle.tree_model.specs.declared.fault.TreeFault.TheVariants.{NoMemory};
ghost use Rattle.tree_model.specs.Files.{after_write, fitting, read_bytes, resized};
ghost use Rattle.tree_model.specs.Changes.{IsRefusal, bytes_of, first_fault, is_file, size_faults, with_bytes, with_times, write_faults};

use crate::file_bytes::piece;
use crate::tree::Tree;
use abi_types::{Bytes, ObjId, Times};
use tree_model::{MOST_FILE_BYTES, TreeFault};

impl Tree {
    /// The bytes of a file, and none of what is no file. No copy is made.
    pub fn bytes(&self, id: ObjId) -> &[u8]
        ensures { result.now ≡ bytes_of self.now id }
    {
        match self.slots.get(id) {
            Some(slot) => slot.bytes(),
            None => &[],
        }
    }

    /// A copy of so many bytes of a file from this place on, or of as many as there are. Of what is no file there are none.
    /// It fails only where memory runs out.
    pub fn read_at(&self, id: ObjId, at: u64, n: u32) -> Result<Bytes, TreeFault>
        ensures ok { IfOk result (λ bytes. bytes ≡ read_bytes (bytes_of self.now id) at n) }
        ensures err { IfErr result (λ fault. fault ≡ NoMemory) }
    {
        Ok(Bytes::of(self.alloc, piece(self.bytes(id), at, n))?)
    }

    /// Puts bytes into a file from this place on, as many as a file has room for there, and says how many. A gap before them
    /// is filled by zeros. No bytes change nothing. `TooLarge` where there is no room for any.
    pub fn write_at(&mut self, id: ObjId, at: u64, bytes: &[u8]) -> Result<u32, TreeFault>
        requires file { is_file self.old id ≡ true }
        requires few { length bytes.now < 2 ^ 32 }
        ensures allowed { OnOk result (first_fault (write_faults at bytes.now) ≡ None) }
        ensures count { IfOk result (λ count. count ≡ length (fitting at bytes.now)) }
        ensures ok { OnOk result (self.new ≡ with_bytes self.old id (after_write (bytes_of self.old id) at bytes.now)) }
        ensures fault { IfErr result (IsRefusal (first_fault (write_faults at bytes.now))) }
        ensures err { OnErr result (self.new ≡ self.old) }
    {
        if bytes.is_empty() {
            return Ok(0);
        }
        if at >= MOST_FILE_BYTES {
            return Err(TreeFault::TooLarge);
        }
        let count = bytes.len().min((MOST_FILE_BYTES - at) as usize);
        let slot = self.slots.get_mut(id);
        slot.write_at(self.alloc, at as usize, &bytes[..count])?;
        Ok(count as u32)
    }

    /// Cuts a file at this size, or fills it by zeros up to it. `TooLarge` where no file may be so large.
    pub fn set_size(&mut self, id: ObjId, size: u64) -> Result<(), TreeFault>
        requires { is_file self.old id ≡ true }
        ensures allowed { OnOk result (first_fault (size_faults size) ≡ None) }
        ensures ok { OnOk result (self.new ≡ with_bytes self.old id (resized (bytes_of self.old id) size)) }
        ensures fault { IfErr result (IsRefusal (first_fault (size_faults size))) }
        ensures err { OnErr result (self.new ≡ self.old) }
    {
        if size > MOST_FILE_BYTES {
            return Err(TreeFault::TooLarge);
        }
        let slot = self.slots.get_mut(id);
        slot.set_size(self.alloc, size as usize)?;
        Ok(())
    }

    /// Gives a node other times. Nothing changes where there is no such node.
    pub fn set_times(&mut self, id: ObjId, times: Times)
        ensures { self.new ≡ with_times self.old id times }
    {
        if self.slots.get(id).is_some() {
            self.slots.get_mut(id).node.times = times;
        }
    }
}
