//! Records of a tree document.
use crate::path::Path;

/// A record of a tree document. Its bytes are those of the text that it was read from.
#[derive(Drop)]
pub enum Record<'a> {
    /// A directory.
    Dir {
        /// The directory's path.
        path: Path,
    },
    /// A file.
    File {
        /// The file's path.
        path: Path,
        /// What is in the file, at most [`tree_model::MOST_FILE_BYTES`] bytes.
        bytes: &'a [u8],
    },
    /// A symlink.
    Link {
        /// The symlink's path.
        path: Path,
        /// Its text: UTF-8 without zero bytes, not empty, at most [`crate::MOST_TEXT_BYTES`] bytes.
        text: &'a [u8],
    },
    /// One more name of a file.
    Hard {
        /// The path of that name.
        path: Path,
        /// The path of the record that made the file.
        target: Path,
    },
}
