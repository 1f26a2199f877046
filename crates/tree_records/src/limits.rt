//! The limits of names, paths and symlinks.

/// The most bytes that a name has.
pub const MOST_NAME_BYTES: u64 = 255;

/// The most bytes that a path has.
pub const MOST_PATH_BYTES: u64 = 1024;

/// The most bytes that a symlink's text has.
pub const MOST_TEXT_BYTES: u64 = 1024;
