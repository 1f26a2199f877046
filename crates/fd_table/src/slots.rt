//! Descriptors in a list, each at the place of its number.
ghost use Rattle.std.specs.Prelude.{◌≡◌, ◌^◌, ◌<◌, ◌≤◌, ℕ, None, Some, OnOk, OnErr, IfOk, IsSome, option_copied, length};
ghost use Rattle.std.specs.FinMap as map;
ghost use Rattle.fd_table.specs.Slots.{filled};

use abi_types::Descriptor;
use std::alloc::{AllocError, Global};
use std::marker::Model;

/// Descriptors by number, in a list as long as the highest number that had one.
///
/// In contracts it is a finite map from numbers to descriptors, `Table`.
#[derive(Drop)]
pub(crate) struct Slots {
    places: Vec<Option<Descriptor>>,

    // How many places have a descriptor.
    count: usize,
}

impl Model for Slots {
    ghost use Rattle.std.specs.Prelude.{◌≡◌};
    ghost use Rattle.std.specs.FinMap as map;
    ghost use Rattle.fd_table.specs.Slots.{filled};
    ghost use Rattle.fd_table.specs.Table.{Table, table_code};

    ghost Value = { Table };

    ghost coded = { table_code };

    ghost view = { λ s. filled s.places.items };

    ghost invariant = { λ s. s.count ≡ map.len (filled s.places.items) };
}

// Makes the list longer, where it ends before this place.
fn reach(places: &mut Vec<Option<Descriptor>>, place: usize) -> Result<(), AllocError>
    requires { place < 2 ^ 32 }
    ensures same { filled places.new.items ≡ filled places.old.items }
    ensures room { OnOk result (place < length places.new.items) }
    ensures absent { OnErr result (map.get (filled places.old.items) place ≡ None) }
{
    if place < places.len() {
        return Ok(());
    }
    places.resize(place + 1, None)
}

impl Slots {
    /// A list with no descriptors. Takes no memory until the first comes.
    pub(crate) fn new(alloc: Global) -> Self
        ensures { result ≡ map.empty }
    {
        Slots {
            places: Vec::new(alloc),
            count: 0,
        }
    }

    /// How many descriptors there are.
    pub(crate) fn len(&self) -> usize
        ensures { result ≡ map.len self.now }
    {
        self.count
    }

    /// The descriptor of this number, if there is one.
    pub(crate) fn get(&self, fd: u32) -> Option<&Descriptor>
        ensures { option_copied result ≡ map.get self.now fd }
    {
        let place = fd as usize;
        if place >= self.places.len() {
            return None;
        }
        self.places[place].as_ref()
    }

    /// Puts a descriptor at this number, in the place of the one that had it, if any. An error changes nothing, and a
    /// number that has a descriptor needs no memory.
    pub(crate) fn insert(&mut self, fd: u32, descriptor: Descriptor) -> Result<(), AllocError>
        ensures ok { OnOk result (self.new ≡ map.insert self.old fd descriptor) }
        ensures err { OnErr result (self.new ≡ self.old) }
        ensures absent { OnErr result (map.get self.old fd ≡ None) }
    {
        let place = fd as usize;
        reach(&mut self.places, place)?;
        if self.places[place].replace(descriptor).is_none() {
            self.count += 1;
        }
        Ok(())
    }

    /// Puts a descriptor in the place of the one that has this number, and returns that one. Takes no memory.
    pub(crate) fn replace(&mut self, fd: u32, descriptor: Descriptor) -> Descriptor
        requires { IsSome (map.get self.old fd) }
        ensures old { Some result ≡ map.get self.old fd }
        ensures new { self.new ≡ map.insert self.old fd descriptor }
    {
        self.places[fd as usize].replace(descriptor).unwrap()
    }

    /// Takes out the descriptor of this number, if there is one, and returns it. The last one leaves no memory taken.
    pub(crate) fn remove(&mut self, fd: u32) -> Option<Descriptor>
        ensures value { result ≡ map.get self.old fd }
        ensures new { self.new ≡ map.remove self.old fd }
    {
        let place = fd as usize;
        if place >= self.places.len() {
            return None;
        }
        let Some(descriptor) = self.places[place].take() else {
            return None;
        };
        self.count -= 1;
        if self.count == 0 {
            self.places.clear();
            self.places.shrink_to_fit();
        }
        Some(descriptor)
    }

    /// An equal list.
    pub(crate) fn copy(&self, alloc: Global) -> Result<Slots, AllocError>
        ensures { IfOk result (λ made. made ≡ self.now) }
    {
        Ok(Slots {
            places: Vec::from_slice(alloc, &self.places)?,
            count: self.count,
        })
    }
}
