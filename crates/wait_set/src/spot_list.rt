//! A list of spots.
ghost use Rattle.std.specs.Prelude.{◌≡◌, ◌++◌, ◌∷◌, List, [], length, take, true, OnOk, OnErr};
ghost use Rattle.std.specs.List.{filter};
ghost use Rattle.wait_set.specs.declared.spot.Spot.{Spot};
ghost use Rattle.wait_set.specs.Waits.{lasts};

use crate::spot::Spot;
use std::alloc::{AllocError, Global};
use std::marker::Model;

/// The spots at which a thread stands, which contracts see as the list of them.
#[derive(Drop)]
pub struct SpotList {
    spots: Vec<Spot>,
}

impl Model for SpotList {
    ghost use Rattle.std.specs.Prelude.{List};
    ghost use Rattle.wait_set.specs.declared.spot.Spot.{Spot};

    ghost Value = { List Spot };

    ghost view = { λ a. a.spots.items };
}

impl SpotList {
    /// No spot.
    pub fn new(alloc: Global) -> Self
        ensures { result ≡ [] }
    {
        SpotList {
            spots: Vec::new(alloc),
        }
    }

    /// The spots.
    pub fn as_slice(&self) -> &[Spot]
        ensures { result.now ≡ self.now }
    {
        self.spots.as_slice()
    }

    /// How many spots there are.
    pub fn len(&self) -> usize
        ensures { result ≡ length self.now }
    {
        self.spots.len()
    }

    /// Whether these spots begin with those of the list.
    pub fn is_front_of(&self, spots: &[Spot]) -> bool
        ensures { result ≡ true → take (length self.now) spots.now ≡ self.now }
    {
        let count = self.spots.len();
        if spots.len() < count {
            return false;
        }
        for (place, spot) in self.spots.iter().enumerate() {
            if !spot.is_same(spots[place]) {
                return false;
            }
        }
        true
    }

    /// Makes room for so many spots in all. `Err` where memory ran out.
    pub fn make_room(&mut self, count: usize) -> Result<(), AllocError>
        ensures { self.new ≡ self.old }
    {
        self.spots.reserve(count.saturating_sub(self.spots.len()))
    }

    /// Puts a spot at the end. `Err` where memory ran out, and changes nothing.
    pub fn push(&mut self, spot: Spot) -> Result<(), AllocError>
        ensures ok { OnOk result (self.new ≡ self.old ++ spot ∷ []) }
        ensures err { OnErr result (self.new ≡ self.old) }
    {
        self.spots.push(spot)?;
        Ok(())
    }

    /// Takes the last spot out.
    pub fn pop(&mut self)
        ensures { (spots : List Spot) (spot : Spot) → self.old ≡ spots ++ spot ∷ [] → self.new ≡ spots }
    {
        self.spots.pop();
    }

    /// Takes all spots out, and keeps the memory.
    pub fn clear(&mut self)
        ensures { self.new ≡ [] }
    {
        self.spots.clear();
    }

    /// Takes out those that are moments.
    pub fn drop_moments(&mut self)
        ensures { self.new ≡ filter lasts self.old }
    {
        let stays = |spot: &Spot| -> bool
            ensures { result ≡ lasts spot.now }
        { !matches!(spot, Spot::Moment(_)) };
        self.spots.retain(stays);
    }
}
