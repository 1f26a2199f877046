//! CloudABI's argument data: values, and the bytes that encode them.
#![tactic(auto)]

pub use decoding::{ArgFault, decode};
pub use encoding::encode;
pub use laws::{bytes_encode_one_value, each_value_has_one_encoding};
pub use value::Value;

mod decoding;
mod encoding;
mod fault;
mod laws;
mod place;
mod reading;
mod tag;
mod turn;
mod value;
