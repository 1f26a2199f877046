//! How much a process may have and be given.

/// The most descriptors of a process.
pub const MOST_DESCRIPTORS: usize = 1024;

/// The most bytes of argument data.
pub const MOST_ARGDATA: usize = 65_536;

/// The most threads of a process at once.
pub const MOST_THREADS: usize = 64;
