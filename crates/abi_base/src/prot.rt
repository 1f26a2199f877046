//! What a guest may do with a page of its memory.

/// The rights of a mapped page: loads, stores, and fetches of instructions.
#[derive(Clone, Copy, Debug, PartialEq, Eq)]
pub struct Prot {
    pub read: bool,
    pub write: bool,
    pub exec: bool,
}
