//! What stays the same for a whole run.

/// What stays the same for a whole run: the key of its random bytes, and the time at which it begins, in nanoseconds
/// since 1970.
#[derive(Clone, Copy)]
pub struct Constants {
    pub key: [u8; 32],
    pub epoch: u64,
}
