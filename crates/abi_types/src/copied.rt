//! Growing lists of values that are copied as they stand: of descriptors, of subscriptions and of events.
ghost use Rattle.std.specs.Prelude.{◌≡◌, ◌++◌, ◌∷◌, [], length, OnOk, OnErr};
ghost use Rattle.abi_types.specs.Lists.{with_first};

use abi_structures::{Event, Subscription};
use lists::TryClone;
use std::alloc::{AllocError, Global};
use std::marker::Model;

/// Values in an order that are copied as they stand, seen as the list of them.
#[derive(Drop)]
pub struct Copied<T> {
    items: Vec<T>,
}

/// Numbers of descriptors.
pub type FdList = Copied<u32>;

/// What a thread waits for.
pub type SubscriptionList = Copied<Subscription>;

/// What is reported to a thread.
pub type EventList = Copied<Event>;

impl<T> Model for Copied<T> {
    ghost use Rattle.std.specs.Prelude.{List};

    ghost Value = { List T };

    ghost view = { λ a. a.items.items };
}

impl<T> Copied<T> {
    /// No value.
    pub fn new(alloc: Global) -> Self
        ensures { result ≡ [] }
    {
        Copied {
            items: Vec::new(alloc),
        }
    }

    /// How many there are.
    pub fn len(&self) -> usize
        ensures { result ≡ length self.now }
    {
        self.items.len()
    }

    /// The values, in their order.
    pub fn as_slice(&self) -> &[T]
        ensures { result.now ≡ self.now }
    {
        self.items.as_slice()
    }

    /// Puts a value at the end.
    pub fn push(&mut self, value: T) -> Result<(), AllocError>
    where
        T: Copy,
        ensures ok { OnOk result (self.new ≡ self.old ++ value ∷ []) }
        ensures err { OnErr result (self.new ≡ self.old) }
    {
        self.items.push(value)?;
        Ok(())
    }

    /// Puts a value in the place of the first, if there is one.
    pub fn set_first(&mut self, value: T)
    where
        T: Copy,
        ensures { self.new ≡ with_first value self.old }
    {
        if let Some(first) = self.items.as_mut_slice().first_mut() {
            *first = value;
        }
    }
}

impl<T: Copy> TryClone for Copied<T> {
    fn copy(&self) -> Result<Self, AllocError> {
        let mut made = Vec::new(*self.items.allocator());
        made.extend_from_slice(self.items.as_slice())?;
        Ok(Copied { items: made })
    }
}
