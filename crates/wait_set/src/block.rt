//! A sorted list of few numbers.
ghost use Rattle.std.specs.Prelude.{◌≡◌, ◌<◌, ◌≤◌, ◌+◌, ◌++◌, ◌∷◌, [], ℕ, true, false, nat_lt, length, take, drop, slice_index, IfOk, MatchResult};
ghost use Rattle.std.specs.List.{insert, remove};
ghost use Rattle.wait_set.specs.Numbers.{IsAscending};

use std::alloc::{AllocError, Global};
use std::marker::Model;

/// How many numbers a block has room for.
pub const MOST: usize = 64;

// How many stay in a block of which the others move to a new one.
const HALF: usize = 32;

/// A list of at most 64 numbers, with room for as many.
#[derive(Drop)]
pub struct Block {
    numbers: Vec<u64>,
}

impl Model for Block {
    ghost use Rattle.std.specs.Prelude.{◌≤◌, ℕ, List, length, vec_capacity};

    ghost Value = { List ℕ };

    ghost view = { λ a. a.numbers.items };

    ghost invariant = { λ a. (length a.numbers.items ≤ 64) × (64 ≤ vec_capacity a.numbers) };
}

impl Block {
    /// No number, and room for all that it may have.
    pub fn new(alloc: Global) -> Result<Self, AllocError>
        ensures { IfOk result (λ block. block ≡ []) }
    {
        let mut numbers = Vec::new(alloc);
        numbers.reserve(MOST)?;
        Ok(Block { numbers })
    }

    /// How many numbers there are.
    pub fn len(&self) -> usize
        ensures count { result ≡ length self.now }
        ensures most { result ≤ 64 }
    {
        self.numbers.len()
    }

    /// The number at the place.
    pub fn at(&self, place: usize) -> u64
        requires { place < length self.now }
        ensures { result ≡ slice_index self.now place }
    {
        self.numbers[place]
    }

    /// Where the number stands, or would stand.
    pub fn place(&self, number: u64) -> Result<usize, usize>
        requires { IsAscending self.now }
        ensures { MatchResult result (λ i. (i < length self.now) × (slice_index self.now i ≡ number)) (λ i. (i ≤ length self.now) × ((k : ℕ) → k < i → slice_index self.now k < number) × ((k : ℕ) → i ≤ k → k < length self.now → number < slice_index self.now k)) }
    {
        self.numbers.binary_search(&number)
    }

    /// How many numbers aren't above this one.
    pub fn place_after(&self, number: u64) -> usize
        requires { IsAscending self.now }
        ensures bound { result ≤ length self.now }
        ensures before { (k : ℕ) → k < result → nat_lt number (slice_index self.now k) ≡ false }
        ensures behind { (k : ℕ) → result ≤ k → k < length self.now → nat_lt number (slice_index self.now k) ≡ true }
    {
        match self.numbers.binary_search(&number) {
            Ok(place) => place + 1,
            Err(place) => place,
        }
    }

    /// Makes it the list of this number alone.
    pub fn restart(&mut self, number: u64)
        ensures { self.new ≡ number ∷ [] }
    {
        self.numbers.clear();
        self.numbers.push(number).unwrap();
    }

    /// Puts the number in at the place.
    pub fn insert(&mut self, place: usize, number: u64)
        requires place { place ≤ length self.old }
        requires room { length self.old < 64 }
        ensures { self.new ≡ insert self.old place number }
    {
        self.numbers.insert(place, number).unwrap();
    }

    /// Takes the number at the place out.
    pub fn remove(&mut self, place: usize)
        requires { place < length self.old }
        ensures { self.new ≡ remove self.old place }
    {
        self.numbers.remove(place);
    }

    /// Moves those behind the first 32 to the other block, in the place of what was there.
    pub fn split(&mut self, other: &mut Block)
        requires { 32 ≤ length self.old }
        ensures kept { self.new ≡ take 32 self.old }
        ensures moved { other.new ≡ drop 32 self.old }
    {
        other.numbers.clear();
        other
            .numbers
            .extend_from_slice(&self.numbers.as_slice()[HALF..])
            .unwrap();
        self.numbers.truncate(HALF);
    }

    /// Takes the numbers of the other block behind its own.
    pub fn join(&mut self, other: &mut Block)
        requires { length self.old + length other.old ≤ 64 }
        ensures { self.new ≡ self.old ++ other.old }
    {
        self.numbers.append(&mut other.numbers).unwrap();
    }
}
