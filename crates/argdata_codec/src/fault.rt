//! Faults of argument data.

/// The bytes encode no value.
#[derive(Drop)]
pub struct Malformed;
