//! Blocks of numbers in their order, and spare ones.
ghost use Rattle.std.specs.Prelude.{◌≡◌, ◌<◌, ◌≤◌, ◌+◌, ◌++◌, ◌∷◌, [], ℕ, length, take, drop, slice_index_or, slice_set, OnOk};
ghost use Rattle.std.specs.List.{insert, remove};
ghost use Rattle.wait_set.specs.Numbers.{block};

use crate::block::Block;
use std::alloc::{AllocError, Global};
use std::marker::Model;

/// The blocks in use, and how many blocks there are with the spare ones. Each block that is no longer in use is a spare one.
#[derive(Drop)]
pub struct Blocks {
    alloc: Global,
    used: Vec<Block>,
    spare: Vec<Block>,
}

impl Model for Blocks {
    ghost use Rattle.std.specs.Prelude.{◌≤◌, ◌+◌, length, vec_capacity};
    ghost use Rattle.wait_set.specs.Numbers.{BlockList};

    ghost Value = { BlockList };

    ghost view = { λ a. record { used = a.used.items; total = length a.used.items + length a.spare.items } };

    ghost invariant = { λ a. (length a.used.items + length a.spare.items ≤ vec_capacity a.used) × (length a.used.items + length a.spare.items ≤ vec_capacity a.spare) };
}

impl Blocks {
    /// No block. Takes no memory.
    pub fn new(alloc: Global) -> Self
        ensures used { result.used ≡ [] }
        ensures total { result.total ≡ 0 }
    {
        Blocks {
            alloc,
            used: Vec::new(alloc),
            spare: Vec::new(alloc),
        }
    }

    /// How many blocks are in use.
    pub fn len(&self) -> usize
        ensures { result ≡ length self.now.used }
    {
        self.used.len()
    }

    /// How many blocks there are.
    pub fn total(&self) -> usize
        ensures { result ≡ self.now.total }
    {
        self.used.len() + self.spare.len()
    }

    /// One more spare block. `Err` where memory ran out.
    pub fn add_spare(&mut self) -> Result<(), AllocError>
        ensures used { self.new.used ≡ self.old.used }
        ensures more { self.old.total ≤ self.new.total }
        ensures ok { OnOk result (self.new.total ≡ self.old.total + 1) }
    {
        let block = Block::new(self.alloc)?;
        self.used.reserve(self.spare.len() + 1)?;
        self.spare.reserve(self.used.len() + 1)?;
        self.spare.push(block).unwrap();
        Ok(())
    }

    /// A block that is in use.
    pub fn at(&self, index: usize) -> &Block
        requires { index < length self.now.used }
        ensures { result.now ≡ block self.now.used index }
    {
        &self.used[index]
    }

    /// Puts the number in at a place of a block.
    pub fn insert_at(&mut self, index: usize, place: usize, number: u64)
        requires index { index < length self.old.used }
        requires place { place ≤ length (block self.old.used index) }
        requires room { length (block self.old.used index) < 64 }
        ensures used { self.new.used ≡ slice_set self.old.used index (insert (block self.old.used index) place number) }
        ensures total { self.new.total ≡ self.old.total }
    {
        self.used[index].insert(place, number);
    }

    /// Takes the number at a place of a block out.
    pub fn remove_at(&mut self, index: usize, place: usize)
        requires index { index < length self.old.used }
        requires place { place < length (block self.old.used index) }
        ensures used { self.new.used ≡ slice_set self.old.used index (remove (block self.old.used index) place) }
        ensures total { self.new.total ≡ self.old.total }
    {
        self.used[index].remove(place);
    }

    /// A first block, with this number alone.
    pub fn start(&mut self, number: u64)
        requires none { self.old.used ≡ [] }
        requires spare { 0 < self.old.total }
        ensures used { self.new.used ≡ (number ∷ []) ∷ [] }
        ensures total { self.new.total ≡ self.old.total }
    {
        let mut first = self.spare.pop().unwrap();
        first.restart(number);
        self.used.push(first).unwrap();
    }

    /// Moves those behind the first 32 of a block to a new one behind it.
    pub fn split(&mut self, index: usize)
        requires index { index < length self.old.used }
        requires spare { length self.old.used < self.old.total }
        requires many { 32 ≤ length (block self.old.used index) }
        ensures used { self.new.used ≡ insert (slice_set self.old.used index (take 32 (block self.old.used index))) (index + 1) (drop 32 (block self.old.used index)) }
        ensures total { self.new.total ≡ self.old.total }
    {
        let mut next = self.spare.pop().unwrap();
        self.used[index].split(&mut next);
        self.used.insert(index + 1, next).unwrap();
    }

    /// Moves those of the next block to a block. That one is a spare one then.
    pub fn join(&mut self, index: usize)
        requires index { index + 1 < length self.old.used }
        requires few { length (block self.old.used index) + length (block self.old.used (index + 1)) ≤ 64 }
        ensures used { self.new.used ≡ slice_set (remove self.old.used (index + 1)) index (block self.old.used index ++ block self.old.used (index + 1)) }
        ensures total { self.new.total ≡ self.old.total }
    {
        let mut next = self.used.remove(index + 1);
        self.used[index].join(&mut next);
        self.spare.push(next).unwrap();
    }

    /// Takes a block out of use.
    pub fn drop_at(&mut self, index: usize)
        requires { index < length self.old.used }
        ensures used { self.new.used ≡ remove self.old.used index }
        ensures total { self.new.total ≡ self.old.total }
    {
        let gone = self.used.remove(index);
        self.spare.push(gone).unwrap();
    }
}
