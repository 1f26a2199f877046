//! What a call needs of a descriptor.
use abi_base::Rights;

/// The rights that a call needs of the descriptor `fd`: base rights, and rights that it asks of the inheriting ones.
/// A descriptor that need only be there has no right in either. Where `instead` isn't empty and the descriptor has each of
/// these base rights, it lacks no base right.
#[derive(Clone, Copy, Default)]
pub struct Needed {
    pub fd: u32,
    pub base: Rights,
    pub inheriting: Rights,
    pub instead: Rights,
}
