//! Why a text is no tree document.
use thiserror::Error;

/// What begins at a byte is no record, or no record that may stand there.
#[derive(Clone, Copy, Debug, PartialEq, Eq, Error)]
#[error("no record of a tree document begins at byte {byte}")]
pub struct TreeDocFault {
    /// Where it begins, counted from 0.
    pub byte: u64,
}
