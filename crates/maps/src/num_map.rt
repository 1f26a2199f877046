//! A map from numbers to values.
ghost use Rattle.std.specs.Prelude.{◌≡◌, ◌^◌, ◌<◌, ◌+◌, ◌==◌, OnOk, OnErr, IfOk, IfErr, IfSome, IfNone, IsNone, IsSome, IsTrue, option_copied, nat_le, nat_lt, ℕ, Bool, ◌≤◌, ◌↔◌};
ghost use Rattle.std.specs.Ordering.{nat_cmp};
ghost use Rattle.std.specs.FinMap as map;
ghost use Rattle.std.specs.Borrow.{sem};
ghost use Rattle.std.specs.Fn.{FnReturnsAt};
ghost use Rattle.maps.specs.Borrowing.{LendsValue};
ghost use Rattle.maps.specs.Maps.{least_key};

use std::alloc::{AllocFailed, Global};
use std::collections::BTreeMap;
use std::marker::Model;
use std::mem;
use std::ops::Bound;

/// A map from numbers of 64 bits to values, with the keys in order.
///
/// In contracts it is a finite map from numbers to values, `FinMap nat_cmp V`.
#[derive(Drop)]
pub struct NumMap<V> {
    entries: BTreeMap<u64, V>,
}

impl<V> Model for NumMap<V> {
    ghost use Rattle.std.specs.Ordering.{nat_cmp};
    ghost use Rattle.std.specs.FinMap as map;
    ghost use Rattle.std.specs.Coded.{coded_ℕ};

    ghost Value = { map.FinMap nat_cmp V };

    ghost coded = { map.code coded_ℕ V.code };

    ghost view = { λ m. map.from_entries m.entries.entries };
}

impl<V> NumMap<V> {
    /// A map with no entries. Takes no memory until the first insertion.
    pub fn new(alloc: Global) -> Self
        ensures { result ≡ map.empty }
    {
        Self {
            entries: BTreeMap::new(alloc),
        }
    }

    /// The number of entries.
    pub fn len(&self) -> usize
        ensures len { result ≡ map.len self.now }
        ensures small { result < 2 ^ 63 }
    {
        self.entries.len()
    }

    /// Whether there are no entries.
    pub fn is_empty(&self) -> bool
        ensures len { result ≡ (map.len self.now == 0) }
        ensures empty { IsTrue result ↔ (self.now ≡ map.empty) }
    {
        self.len() == 0
    }

    /// The value at `key`, if the map has one.
    pub fn get(&self, key: u64) -> Option<&V>
        ensures value { option_copied result ≡ map.get self.now key }
    {
        self.entries.get(&key)
    }

    /// Whether the map has a value at `key`.
    pub fn contains(&self, key: u64) -> bool
        ensures { result ≡ map.contains_key self.now key }
    {
        self.entries.contains_key(&key)
    }

    /// The least key whose value passes `test`, if there is one. Calls `test` in the keys' order.
    ///
    /// For every function `passes` of a value with which each answer of `test` agrees, the result is the least key at which `passes` holds.
    pub fn first_where<F: Fn(&V) -> bool>(&self, test: F) -> Option<u64>
        requires { F.IsAlwaysCallable test }
        ensures { (passes : V → Bool) → ((v : V) (b : Bool) → FnReturnsAt F.Fn test v b → b ≡ passes v) → result ≡ least_key (λ _ v. passes v) self.now }
    {
        for (key, value) in &self.entries {
            if test(value) {
                return Some(*key);
            }
        }
        None
    }

    /// The least key that is at least `key`, if there is one.
    pub fn first_from(&self, key: u64) -> Option<u64>
        ensures { result ≡ least_key (λ q _. nat_le key q) self.now }
    {
        let (first, _) = self.entries.range(key..).next()?;
        Some(*first)
    }

    /// The least key that is above `key`, if there is one.
    pub fn first_after(&self, key: u64) -> Option<u64>
        ensures { result ≡ least_key (λ q _. nat_lt key q) self.now }
    {
        let above = (Bound::Excluded(key), Bound::Unbounded);
        let (first, _) = self.entries.range(above).next()?;
        Some(*first)
    }

    /// Puts `value` at `key`, and returns the value that was there before.
    ///
    /// An error means that memory ran out: the key and the value come back in it, and the map is as it was.
    /// A key that the map has needs no memory.
    pub fn insert(&mut self, key: u64, value: V) -> Result<Option<V>, AllocFailed<(u64, V)>>
        ensures old { IfOk result (λ old. old ≡ map.get self.old key) }
        ensures ok { OnOk result (self.new ≡ map.insert self.old key value) }
        ensures err { OnErr result (self.new ≡ self.old) }
        ensures absent { OnErr result (map.get self.old key ≡ None) }
        ensures value_returned { IfErr result (λ failed. failed.value ≡ (key, value)) }
    {
        self.entries.insert(key, value)
    }

    /// Puts `value` at `key`, which the map has, and returns the value that was there before. Takes no memory.
    pub fn replace(&mut self, key: u64, value: V) -> V
        requires { IsSome (map.get self.old key) }
        ensures old { Some result ≡ map.get self.old key }
        ensures new { self.new ≡ map.insert self.old key value }
    {
        mem::replace(self.get_mut(key), value)
    }

    /// The value at `key`, which the map has, to be changed in place.
    pub fn get_mut(&mut self, key: u64) -> &mut V
        requires { IsSome (map.get self.old key) }
        ensures* writes_back { sem 𝓛 (LendsValue V.row self.entry key result) }
        ensures value { Some result.now ≡ map.get self.old key }
    {
        self.entries.get_mut(&key).unwrap()
    }

    /// Takes out the entry at `key`, and returns its value, if the map has one.
    pub fn remove(&mut self, key: u64) -> Option<V>
        ensures value { result ≡ map.get self.old key }
        ensures new { self.new ≡ map.remove self.old key }
    {
        self.entries.remove(&key)
    }

    /// Takes out the entry with the least key, and returns it. `None` is the answer of an empty map.
    pub fn pop_first(&mut self) -> Option<(u64, V)>
        ensures none { IsNone result ↔ (self.old ≡ map.empty) }
        ensures unchanged { IfNone result (self.new ≡ self.old) }
        ensures least { IfSome result (λ entry. (q : ℕ) → IsSome (map.get self.old q) → entry.0 ≤ q) }
        ensures value { IfSome result (λ entry. map.get self.old entry.0 ≡ Some entry.1) }
        ensures new { IfSome result (λ entry. self.new ≡ map.remove self.old entry.0) }
        ensures len { IfSome result (λ entry. map.len self.new + 1 ≡ map.len self.old) }
    {
        self.entries.pop_first()
    }

    /// Takes out each entry but that at `key`.
    pub fn keep_only(&mut self, key: u64)
    where
        V: Drop,
        ensures { self.new ≡ map.retain_keys self.old (λ k. k == key) }
    {
        self.entries.retain(|other, _| *other == key);
    }

    /// Takes out each entry.
    pub fn clear(&mut self)
    where
        V: Drop,
        ensures { self.new ≡ map.empty }
    {
        self.entries.clear();
    }
}

impl NumMap<u64> {
    /// The least key whose number is 0, if there is one.
    pub fn first_zero(&self) -> Option<u64>
        ensures { result ≡ least_key (λ _ n. n == 0) self.now }
    {
        self.first_where(|number| *number == 0)
    }
}
