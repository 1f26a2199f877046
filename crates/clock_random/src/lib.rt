//! Random bytes that a key, a stream and a place determine, so that a run can be repeated.
#![tactic(auto)]

pub use laws::{random_bytes_are_known, random_bytes_go_on};
pub use random::{canary, next_words, random_bytes};

mod laws;
mod random;
