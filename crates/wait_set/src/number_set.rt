//! A set of numbers in order, with room that is made before it is needed.
ghost use Rattle.std.specs.Prelude.{◌≡◌, ◌≤◌, ◌<◌, ◌&&◌, ◌||◌, ℕ, [], length, not, nat_eq, true, false, cond, OnOk};
ghost use Rattle.maps.specs.Closure.{member};
ghost use Rattle.wait_set.specs.Next.{IsNext};
ghost use Rattle.wait_set.specs.Numbers.{IsAscending};

use crate::blocks::Blocks;
use crate::packing::{find, make_place, take_at};
use std::alloc::{AllocError, Global};
use std::marker::Model;

/// A set of numbers, which contracts see as the list of them in their order and the number of those for which there is room.
///
/// To put one in takes no memory where there is room. To find one, or the next, to put one in and to take one out take the logarithm
/// of their number, and now and then the time of a sixteenth of them: they stand in blocks of at most 64.
#[derive(Drop)]
pub struct NumberSet {
    blocks: Blocks,
}

impl Model for NumberSet {
    ghost use Rattle.std.specs.List.{concat};
    ghost use Rattle.wait_set.specs.Numbers.{Numbers, IsPacked, room_of};

    ghost Value = { Numbers };

    ghost view = { λ a. record { list = concat a.blocks.used; room = room_of a.blocks.total } };

    ghost invariant = { λ a. IsPacked a.blocks.used };
}

impl NumberSet {
    /// No number, and no room. Takes no memory.
    pub fn new(alloc: Global) -> Self
        ensures list { result.list ≡ [] }
        ensures ascending { IsAscending result.list }
    {
        NumberSet {
            blocks: Blocks::new(alloc),
        }
    }

    /// Makes room for `count` numbers in all. `Err` where memory ran out.
    pub fn make_room(&mut self, count: usize) -> Result<(), AllocError>
        ensures list { self.new.list ≡ self.old.list }
        ensures room { self.old.room ≤ self.new.room }
        ensures ok { OnOk result (count ≤ self.new.room) }
    {
        let wanted = count / 16 + 2;
        while self.blocks.total() < wanted {
            self.blocks.add_spare()?;
        }
        Ok(())
    }

    /// Puts a number in, or takes it out, of which it is known whether it is in: it takes no time where that stays. Takes no memory: for
    /// one that isn't in yet there is room.
    pub fn change(&mut self, number: u64, was_in: bool, is_in: bool)
        requires known { was_in ≡ member number self.old.list }
        requires room { is_in ≡ true → member number self.old.list ≡ false → length self.old.list < self.old.room }
        ensures member { (q : ℕ) → member q self.new.list ≡ cond (nat_eq q number) is_in (member q self.old.list) }
        ensures ascending { IsAscending self.old.list → IsAscending self.new.list }
        ensures room { self.new.room ≡ self.old.room }
    {
        if was_in == is_in {
            return;
        }
        if is_in {
            self.insert(number);
        } else {
            self.remove(number);
        }
    }

    // Puts a number in, for which there is room.
    fn insert(&mut self, number: u64)
        requires { length self.old.list < self.old.room }
        ensures member { (q : ℕ) → member q self.new.list ≡ (nat_eq q number || member q self.old.list) }
        ensures ascending { IsAscending self.new.list }
        ensures room { self.new.room ≡ self.old.room }
    {
        if self.blocks.len() == 0 {
            self.blocks.start(number);
            return;
        }
        let index = make_place(&mut self.blocks, number);
        match self.blocks.at(index).place(number) {
            Ok(_) => {}
            Err(place) => self.blocks.insert_at(index, place, number),
        }
    }

    // Takes a number out, if it is in.
    fn remove(&mut self, number: u64)
        ensures member { (q : ℕ) → member q self.new.list ≡ (member q self.old.list && not (nat_eq q number)) }
        ensures ascending { IsAscending self.new.list }
        ensures room { self.new.room ≡ self.old.room }
    {
        if self.blocks.len() == 0 {
            return;
        }
        let index = find(&self.blocks, number);
        match self.blocks.at(index).place(number) {
            Ok(place) => take_at(&mut self.blocks, index, place),
            Err(_) => {}
        }
    }

    /// The least number after `after`, or of all where that is `None`.
    pub fn next(&self, after: Option<u64>) -> Option<u64>
        ensures { IsNext (λ q. member q self.now.list) after result }
    {
        if self.blocks.len() == 0 {
            return None;
        }
        let Some(number) = after else {
            return Some(self.blocks.at(0).at(0));
        };
        let index = find(&self.blocks, number);
        let place = self.blocks.at(index).place_after(number);
        if place < self.blocks.at(index).len() {
            return Some(self.blocks.at(index).at(place));
        }
        if index + 1 < self.blocks.len() {
            Some(self.blocks.at(index + 1).at(0))
        } else {
            None
        }
    }
}
