//! Where a mapping goes.
use abi_base::Errno;

/// Where a mapping goes, as the caller's memory gives it.
#[derive(Clone, Copy)]
pub enum Place {
    /// At this page's address.
    At(u64),
    /// Nowhere, for this reason.
    Refused(Errno),
}
