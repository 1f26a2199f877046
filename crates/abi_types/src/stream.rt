//! What a standard stream has.
use lists::Bytes;

/// A standard stream: the bytes that can still be read from it, and those that were written to it.
#[derive(Drop)]
pub struct Stream {
    pub left: Bytes,
    pub written: Bytes,
}
