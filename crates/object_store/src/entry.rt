//! What is kept of an open.
use abi_types::OpenKind;

/// An open, the number of its holders, and where the list of opens without a holder has it. While something holds it, it
/// is not in that list, and the place means nothing.
#[derive(Drop)]
pub struct Entry {
    pub kind: OpenKind,
    pub count: u64,
    pub place: usize,
}
