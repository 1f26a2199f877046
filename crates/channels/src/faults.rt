//! Why a channel refuses.

/// Why a channel takes nothing.
#[derive(Clone, Copy, Debug, PartialEq, Eq)]
pub enum PushFault {
    /// There is no room for one byte, or not for the descriptors.
    Full,
    /// A side was shut, or its end has ended.
    Hung,
    /// Memory ran out.
    NoMemory,
}

/// Why a channel gives nothing.
#[derive(Clone, Copy, Debug, PartialEq, Eq)]
pub enum PullFault {
    /// Nothing waits yet.
    Empty,
}
