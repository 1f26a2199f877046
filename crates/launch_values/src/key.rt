//! A key of a map.
ghost use Rattle.std.specs.Prelude.{◌≡◌, IfOk};
ghost use Rattle.launch_values.specs.Views.{content_of_value};
ghost use Rattle.launch_values.specs.KeySets.{IsScalarKey};
ghost use Rattle.launch_values.specs.KeyViews.{content_of_key};

use crate::node::NodeValue;
use std::alloc::{AllocError, Global};

/// A scalar as the key of a map. Two of them are equal where the scalars mean the same.
#[derive(PartialEq, Eq, PartialOrd, Ord, Drop)]
pub enum Key {
    /// No value.
    Null,
    /// True or false.
    Bool(bool),
    /// An integer.
    Int(i128),
    /// The bytes of a text.
    Str(Vec<u8>),
}

impl Key {
    /// The key that a scalar is. Fails where there is no memory.
    pub fn of(alloc: Global, value: &NodeValue) -> Result<Self, AllocError>
        requires { IsScalarKey (content_of_value value.now) }
        ensures { IfOk result (λ key. content_of_key key ≡ content_of_value value.now) }
    {
        match value {
            NodeValue::Null => Ok(Key::Null),
            NodeValue::Bool(answer) => Ok(Key::Bool(*answer)),
            NodeValue::Int(number) => Ok(Key::Int(number.value())),
            NodeValue::Str(text) => Ok(Key::Str(text.as_bytes().to_vec(alloc)?)),
            _ => unreachable!(),
        }
    }
}
