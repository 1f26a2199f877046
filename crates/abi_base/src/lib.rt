//! The numbers of the host's interface: identifiers, errors, signals, rights, flags, protections and registers, and the
//! descriptors that a launch grants.
//!
//! CloudABI gives the names. The numbers are this project's profile, in docs/ABI.md.
#![tactic(auto)]

pub use address_space::{GUEST_BEGIN, GUEST_END, INSTRUCTION_ALIGNMENT, PAGE_LIMIT, PAGE_SIZE};
pub use errno::Errno;
pub use grant::{Grant, GrantList, GrantTarget};
pub use ids::{ObjId, Pid, Tid, TidList};
pub use limits::{MOST_ARGDATA, MOST_DESCRIPTORS, MOST_THREADS};
pub use prot::Prot;
pub use regs::Regs;
pub use rights::Rights;
pub use signal::Signal;

mod address_space;
mod errno;
pub mod flags;
mod grant;
mod ids;
mod limits;
mod prot;
mod regs;
mod rights;
mod signal;
