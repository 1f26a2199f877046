//! The descriptors of a process by number.
ghost use Rattle.std.specs.Prelude.{◌≡◌, ◌↔◌, ◌+◌, ◌<◌, ◌≤◌, ℕ, false, Some, None, Ok, Err, IfSome, IfNone, IfOk, OnOk, OnErr, IsTrue, IsSome, IsNone, option_copied, length};
ghost use Rattle.std.specs.FinMap as map;
ghost use Rattle.fd_table.specs.Table.{IsTable, IsLowestFree, IsFull, IsPicked, holds_all, lowered, first_absent};
ghost use Rattle.fd_table.specs.declared.faults.InsertFault.TheVariants as insert_faults;
ghost use Rattle.fd_table.specs.declared.faults.PickFault.TheVariants as pick_faults;

use crate::faults::{InsertFault, PickFault};
use crate::marks::{WORDS, lowest_marked, lowest_unmarked, mark, unmark};
use crate::slots::Slots;
use abi_base::MOST_DESCRIPTORS;
use abi_types::{Descriptor, Rights, TryClone};
use std::alloc::{AllocError, Global};
use std::marker::Model;

/// A process's descriptors by number, where each number is below `MOST_DESCRIPTORS`.
///
/// In contracts it is a finite map from numbers to descriptors, `Table`.
#[derive(Drop)]
pub struct FdTable {
    slots: Slots,

    // Which numbers have a descriptor, one bit a number, so that the lowest with or without one is found by few words.
    taken: [u64; WORDS],

    alloc: Global,
}

impl Model for FdTable {
    ghost use Rattle.fd_table.specs.Table.{Table, table_code};
    ghost use Rattle.fd_table.specs.Marks.{IsKept};

    ghost Value = { Table };

    ghost coded = { table_code };

    ghost view = { λ t. t.slots };

    ghost invariant = { λ t. IsKept t.slots t.taken };
}

impl FdTable {
    /// A table with no descriptors. Takes no memory until the first comes.
    pub fn new(alloc: Global) -> Self
        ensures { result ≡ map.empty }
    {
        FdTable {
            slots: Slots::new(alloc),
            taken: [0; WORDS],
            alloc,
        }
    }

    /// How many descriptors there are.
    pub fn len(&self) -> usize
        ensures len { result ≡ map.len self.now }
        ensures most { result ≤ MOST_DESCRIPTORS }
        ensures below { IsTable self.now }
    {
        self.slots.len()
    }

    /// How many numbers are free.
    pub fn free(&self) -> u32
        ensures { result + map.len self.now ≡ MOST_DESCRIPTORS }
    {
        (MOST_DESCRIPTORS - self.len()) as u32
    }

    /// The descriptor of this number, if there is one.
    pub fn get(&self, fd: u32) -> Option<&Descriptor>
        ensures { option_copied result ≡ map.get self.now fd }
    {
        self.slots.get(fd)
    }

    /// Whether this number has a descriptor.
    pub fn contains(&self, fd: u32) -> bool
        ensures { result ≡ map.contains_key self.now fd }
    {
        self.get(fd).is_some()
    }

    /// The lowest free number. `None` exactly where each is taken.
    pub fn lowest(&self) -> Option<u32>
        ensures free { IfSome result (λ number. IsLowestFree self.now number) }
        ensures full { IsNone result ↔ IsFull self.now }
    {
        lowest_unmarked(&self.taken)
    }

    /// The lowest number that would be free if this one were taken. `None` exactly where each would be taken. Copies only which
    /// numbers are taken.
    pub fn lowest_beside(&self, fd: u32) -> Option<u32>
        requires { fd < MOST_DESCRIPTORS }
        ensures free { (d : Descriptor) → IfSome result (λ number. IsLowestFree (map.insert self.now fd d) number) }
        ensures full { (d : Descriptor) → IsNone result ↔ IsFull (map.insert self.now fd d) }
    {
        let mut taken = self.taken;
        mark(&mut taken, fd);
        lowest_unmarked(&taken)
    }

    /// Puts a descriptor at the lowest free number, and returns that number. An error changes nothing.
    pub fn insert_lowest(&mut self, descriptor: Descriptor) -> Result<u32, InsertFault>
        ensures lowest { IfOk result (λ number. IsLowestFree self.old number) }
        ensures new { IfOk result (λ number. self.new ≡ map.insert self.old number descriptor) }
        ensures full { (result ≡ Err insert_faults.Full) ↔ IsFull self.old }
        ensures err { OnErr result (self.new ≡ self.old) }
    {
        let number = self.lowest().ok_or(InsertFault::Full)?;
        self.insert_at(number, descriptor)?;
        Ok(number)
    }

    /// Puts a descriptor at this number, in the place of the one that had it, if any. An error changes nothing, and a
    /// number that has a descriptor needs no memory.
    pub fn insert_at(&mut self, fd: u32, descriptor: Descriptor) -> Result<(), AllocError>
        requires { fd < MOST_DESCRIPTORS }
        ensures ok { OnOk result (self.new ≡ map.insert self.old fd descriptor) }
        ensures err { OnErr result (self.new ≡ self.old) }
        ensures absent { OnErr result (map.get self.old fd ≡ None) }
    {
        self.slots.insert(fd, descriptor)?;
        mark(&mut self.taken, fd);
        Ok(())
    }

    /// Takes out the descriptor of this number, if there is one, and returns it.
    pub fn remove(&mut self, fd: u32) -> Option<Descriptor>
        ensures value { result ≡ map.get self.old fd }
        ensures new { self.new ≡ map.remove self.old fd }
    {
        unmark(&mut self.taken, fd);
        self.slots.remove(fd)
    }

    /// Puts a descriptor in the place of the one that has this number, and returns that one. Takes no memory.
    ///
    /// `None`, and no change, is the answer exactly where no descriptor has this number.
    pub fn replace(&mut self, fd: u32, descriptor: Descriptor) -> Option<Descriptor>
        ensures value { result ≡ map.get self.old fd }
        ensures new { IfSome result (λ _. self.new ≡ map.insert self.old fd descriptor) }
        ensures unchanged { IfNone result (self.new ≡ self.old) }
    {
        if !self.contains(fd) {
            return None;
        }
        Some(self.slots.replace(fd, descriptor))
    }

    /// Sets the rights of the descriptor that has this number.
    ///
    /// False, and no change, is the answer exactly where no descriptor has this number, or where it lacks one of these
    /// rights.
    pub fn lower(&mut self, fd: u32, base: Rights, inheriting: Rights) -> bool
        ensures held { result ≡ holds_all (map.get self.old fd) base inheriting }
        ensures new { IsTrue result → self.new ≡ lowered self.old fd base inheriting }
        ensures unchanged { result ≡ false → self.new ≡ self.old }
    {
        let Some(held) = self.get(fd) else {
            return false;
        };
        if !held.base.contains(base) || !held.inheriting.contains(inheriting) {
            return false;
        }
        let descriptor = Descriptor {
            id: held.id,
            base,
            inheriting,
        };
        self.slots.replace(fd, descriptor);
        true
    }

    /// A table with the descriptor of the list's first number at 0, that of the next at 1, and so on.
    ///
    /// `Absent` is the answer exactly where a number of the list has no descriptor, and names the first such.
    pub fn pick(&self, list: &[u32]) -> Result<FdTable, PickFault>
        requires { length list.now ≤ MOST_DESCRIPTORS }
        ensures picked { IfOk result (λ made. IsPicked self.now list.now made) }
        ensures there { OnOk result (first_absent self.now list.now ≡ None) }
        ensures absent { (fd : ℕ) → (result ≡ Err (pick_faults.Absent fd)) ↔ (first_absent self.now list.now ≡ Some fd) }
    {
        if let Some(fd) = self.first_absent(list) {
            return Err(PickFault::Absent(fd));
        }
        Ok(self.picked(list)?)
    }

    // The first number of the list that has no descriptor.
    fn first_absent(&self, list: &[u32]) -> Option<u32>
        ensures { result ≡ first_absent self.now list.now }
    {
        for fd in list {
            if !self.contains(*fd) {
                return Some(*fd);
            }
        }
        None
    }

    // The table of those descriptors that the list names, each at its place in the list.
    fn picked(&self, list: &[u32]) -> Result<FdTable, AllocError>
        requires { length list.now ≤ MOST_DESCRIPTORS }
        ensures { IfOk result (λ made. IsPicked self.now list.now made) }
    {
        let mut made = FdTable::new(self.alloc);
        for (place, fd) in list.iter().enumerate() {
            if let Some(descriptor) = self.get(*fd) {
                made.insert_at(place as u32, *descriptor)?;
            }
        }
        Ok(made)
    }

    /// Takes out the descriptor of the lowest number that has one, and returns both.
    ///
    /// `None` is the answer of a table with no descriptors.
    pub fn pop_first(&mut self) -> Option<(u32, Descriptor)>
        ensures none { IsNone result ↔ (self.old ≡ map.empty) }
        ensures unchanged { IfNone result (self.new ≡ self.old) }
        ensures least { IfSome result (λ entry. (q : ℕ) → IsSome (map.get self.old q) → entry.0 ≤ q) }
        ensures value { IfSome result (λ entry. map.get self.old entry.0 ≡ Some entry.1) }
        ensures new { IfSome result (λ entry. self.new ≡ map.remove self.old entry.0) }
        ensures len { IfSome result (λ entry. map.len self.new + 1 ≡ map.len self.old) }
    {
        let Some(number) = lowest_marked(&self.taken) else {
            return None;
        };
        let descriptor = self.slots.remove(number).unwrap();
        unmark(&mut self.taken, number);
        Some((number, descriptor))
    }
}

impl TryClone for FdTable {
    fn copy(&self) -> Result<Self, AllocError> {
        Ok(FdTable {
            slots: self.slots.copy(self.alloc)?,
            taken: self.taken,
            alloc: self.alloc,
        })
    }
}
