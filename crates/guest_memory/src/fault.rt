//! Why something can't be done with a guest's memory.

/// Why something can't be done with a guest's memory. An address is that of the first byte or page that fails.
#[derive(Clone, Copy, Debug, PartialEq, Eq)]
pub enum MemFault {
    /// No page is there.
    NotMapped(u64),
    /// The page lacks the right that is wanted.
    NoRight(u64),
    /// There would be more than 65,536 pages.
    PageLimit,
    /// A page is there already.
    Overlaps(u64),
    /// The host has no memory left.
    NoMemory,
}
