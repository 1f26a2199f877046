//! How a process stands.
use abi_base::Signal;

/// Whether a process lives, or how it ended.
#[derive(Clone, Copy, Debug, PartialEq, Eq)]
pub enum Status {
    Live,
    /// It exited with this code.
    Exit(u32),
    /// It ended by this signal.
    Killed(Signal),
}
