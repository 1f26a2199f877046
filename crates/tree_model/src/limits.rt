//! The number of the root, and the limits of a file tree.

/// The number of the root: the fourth object that the launch makes, after the three standard streams.
pub const ROOT: u64 = 0xffff_ffff_0000_0004;

/// The most bytes that a file has.
pub const MOST_FILE_BYTES: u64 = 67_108_864;

/// The most names that a node has.
pub const MOST_LINKS: u32 = 65_535;
