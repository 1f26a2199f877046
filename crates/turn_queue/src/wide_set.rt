//! A set of numbers of 128 bits.
ghost use Rattle.std.specs.Prelude.{◌≡◌, OnOk, OnErr, nat_le};
ghost use Rattle.std.specs.FinMap as map;
ghost use Rattle.maps.specs.Maps.{least_key};

use std::alloc::{AllocError, Global};
use std::collections::BTreeMap;
use std::marker::Model;

/// A set of numbers of 128 bits, in their order. In contracts it is the finite map that has the numbers as keys.
#[derive(Drop)]
pub struct WideSet {
    entries: BTreeMap<u128, ()>,
}

impl Model for WideSet {
    ghost use Rattle.turn_queue.specs.Numbered.{Numbers};
    ghost use Rattle.std.specs.FinMap as map;
    ghost use Rattle.turn_queue.specs.Codes.{numbers_code};

    ghost Value = { Numbers };

    ghost coded = { numbers_code };

    ghost view = { λ m. map.from_entries m.entries.entries };
}

impl WideSet {
    /// A set without a number.
    pub fn new(alloc: Global) -> WideSet
        ensures { result ≡ map.empty }
    {
        WideSet {
            entries: BTreeMap::new(alloc),
        }
    }

    /// The least number that is at least this one, if there is one.
    pub fn first_from(&self, least: u128) -> Option<u128>
        ensures { result ≡ least_key (λ q _. nat_le least q) self.now }
    {
        let (first, ()) = self.entries.range(least..).next()?;
        Some(*first)
    }

    /// Puts a number in. `Err` where memory ran out.
    pub fn insert(&mut self, number: u128) -> Result<(), AllocError>
        ensures ok { OnOk result (self.new ≡ map.insert self.old number tt) }
        ensures err { OnErr result (self.new ≡ self.old) }
    {
        self.entries.insert(number, ())?;
        Ok(())
    }

    /// Takes a number out.
    pub fn remove(&mut self, number: u128)
        ensures { self.new ≡ map.remove self.old number }
    {
        self.entries.remove(&number);
    }
}
