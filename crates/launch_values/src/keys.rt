//! The keys that a map has.
ghost use Rattle.std.specs.Prelude.{◌≡◌, ◌||◌, [], IfOk, OnOk, OnErr, not};
ghost use Rattle.std.specs.List.{list_any};
ghost use Rattle.launch_values.specs.Shape.{Content};
ghost use Rattle.launch_values.specs.Views.{content_of_value};
ghost use Rattle.launch_values.specs.Keys.{same_key};
ghost use Rattle.launch_values.specs.KeySets.{IsScalarKey};

use crate::key::Key;
use crate::node::NodeValue;
use std::alloc::{AllocError, Global};
use std::collections::BTreeSet;
use std::marker::Model;

/// The keys that a map has so far, seen as a list of what they mean.
#[derive(Drop)]
pub struct KeySet {
    keys: BTreeSet<Key>,
}

impl Model for KeySet {
    ghost use Rattle.std.specs.Prelude.{List, map};
    ghost use Rattle.std.specs.Coded.{coded_list};
    ghost use Rattle.launch_values.specs.Shape.{Content};
    ghost use Rattle.launch_values.specs.KeyViews.{content_code, content_of_key};

    ghost Value = { List Content };

    ghost coded = { coded_list content_code };

    ghost view = { λ a. map content_of_key a.keys.keys };
}

impl KeySet {
    /// No key.
    pub fn new(alloc: Global) -> Self
        ensures { result ≡ [] }
    {
        KeySet {
            keys: BTreeSet::new(alloc),
        }
    }

    /// Puts a key in, and says whether it wasn't there. A key that is there stays. Fails where there is no memory, and
    /// then nothing is put in.
    pub fn insert(&mut self, alloc: Global, key: &NodeValue) -> Result<bool, AllocError>
        requires { IsScalarKey (content_of_value key.now) }
        ensures added { IfOk result (λ added. added ≡ not (list_any (same_key (content_of_value key.now)) self.old)) }
        ensures keys { OnOk result ((k : Content) → list_any (same_key k) self.new ≡ (same_key k (content_of_value key.now) || list_any (same_key k) self.old)) }
        ensures same { OnErr result (self.new ≡ self.old) }
    {
        match self.keys.insert(Key::of(alloc, key)?) {
            Ok(added) => Ok(added),
            Err(_) => Err(AllocError),
        }
    }
}
