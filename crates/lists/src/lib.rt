//! Growing values that contracts see as lists: of values (`Items`), of bytes (`Bytes`) and of a text's bytes (`Text`); and
//! `TryClone`, for values of which an equal one can be made.
//!
//! `Stop` is what a reader answers in place of a value: a fault in what it read, or lack of memory.
#![tactic(auto)]

pub use bytes::Bytes;
pub use items::{Items, TryClone};
pub use stop::Stop;
pub use text::Text;

mod bytes;
mod items;
mod stop;
mod text;
