//! Values in an order, in blocks of a fixed number of places.
ghost use Rattle.std.specs.Prelude.{◌≡◌, ◌<◌, ◌-◌, ◌++◌, ◌∷◌, [], length, slice_index_or, vec_len, vec_capacity, IsOk, OnOk, OnErr};
ghost use Rattle.block_list.specs.Blocks.{places, contents_of, AreBlocks};

use std::alloc::{AllocError, Global};
use std::marker::Model;
use std::mem;

// How many places a block has.
const PLACES: usize = 1024;

// How many full blocks there may be, so that the number of all places is a `usize`.
const MOST_FULL: usize = usize::MAX / PLACES - 1;

/// Values in an order, which contracts see as the list of them and the number of places that are free.
///
/// They stand in blocks of 1024 places. A block is made with all its places, and keeps its place in memory: where the list grows, no value
/// that is in it moves, and only what names the blocks, three words for each full one, may be moved. To read a value or to put one at the
/// end takes the same time in a list of any length.
#[derive(Drop)]
pub struct BlockList<T> {
    full: Vec<Vec<T>>,
    last: Vec<T>,
}

impl<T> Model for BlockList<T> {
    ghost use Rattle.block_list.specs.Contents.{Contents};

    ghost Value = { Contents T };

    ghost use Rattle.block_list.specs.Blocks.{contents_of, AreBlocks};

    ghost view = { λ a. contents_of a.full a.last };

    ghost invariant = { λ a. AreBlocks a.full a.last };
}

impl<T> BlockList<T> {
    /// No value, and no free place. It takes no memory.
    pub fn new(alloc: Global) -> Self
        ensures { result ≡ record { items = []; room = 0 } }
    {
        BlockList {
            full: Vec::new(alloc),
            last: Vec::new(alloc),
        }
    }

    /// How many values there are.
    pub fn len(&self) -> usize
        ensures { result ≡ length self.now.items }
    {
        self.full.len() * PLACES + self.last.len()
    }

    /// The value at an index.
    pub fn at(&self, index: usize) -> &T
        requires { index < length self.now.items }
        ensures { result.now ≡ slice_index_or self.now.items index result.now }
    {
        let number = index / PLACES;
        if number < self.full.len() {
            let block = &self.full[number];
            &block[index % PLACES]
        } else {
            &self.last[index - self.full.len() * PLACES]
        }
    }

    /// Makes room for one more value: a new block, where no place is free. `Err` where memory ran out.
    pub fn reserve(&mut self) -> Result<(), AllocError>
        ensures items { self.new.items ≡ self.old.items }
        ensures ok { OnOk result (0 < self.new.room) }
        ensures err { OnErr result (self.new ≡ self.old) }
        ensures succeeds { 0 < self.old.room → IsOk result }
    {
        let count = self.last.len();
        if count < PLACES {
            self.last.reserve_exact(PLACES - count)
        } else {
            begin_block(&mut self.full, &mut self.last)
        }
    }

    /// Puts a value at the end, where a place is free.
    pub fn push_reserved(&mut self, value: T)
        requires { 0 < self.old.room }
        ensures { self.new ≡ record { items = self.old.items ++ value ∷ []; room = self.old.room - 1 } }
    {
        self.last.push_reserved(value);
    }
}

// Puts the last block, whose places are all taken, behind the full ones, and makes the next. `Err` changes nothing.
fn begin_block<T>(full: &mut Vec<Vec<T>>, last: &mut Vec<T>) -> Result<(), AllocError>
    requires blocks { AreBlocks full.old last.old }
    requires taken { vec_len last.old ≡ places }
    ensures blocks { AreBlocks full.new last.new }
    ensures items { (contents_of full.new last.new).items ≡ (contents_of full.old last.old).items }
    ensures ok { OnOk result (vec_len last.new < vec_capacity last.new) }
    ensures err { OnErr result (contents_of full.new last.new ≡ contents_of full.old last.old) }
{
    if full.len() >= MOST_FULL {
        return Err(AllocError);
    }
    full.reserve(1)?;
    let next = Vec::with_capacity(*last.allocator(), PLACES)?;
    let filled = mem::replace(last, next);
    full.push_reserved(filled);
    Ok(())
}
