//! A value of argument data.

use lists::{Bytes, Text};

/// A value that a program is given at its start.
#[derive(Drop)]
pub enum Value {
    /// No value.
    Null,
    /// Any bytes.
    Binary(Bytes),
    /// True or false.
    Bool(bool),
    /// A descriptor's number.
    Fd(u32),
    /// An integer.
    Int(i128),
    /// Pairs of a key and a value, in an order.
    Map(Vec<(Value, Value)>),
    /// Values in an order.
    Seq(Vec<Value>),
    /// A text.
    Str(Text),
}
