//! The sequential kernel: one state, and a step for each call. It knows no machine, no worker and no lock.
#![tactic(auto)]

pub use kernel::Kernel;
pub use run_types::{Act, Entry, Launch};
pub use waiting::Woken;

mod clocks;
mod descriptors;
mod ends;
mod entries;
mod files;
mod forks;
mod kernel;
mod locks;
mod offset_calls;
mod opening;
mod programs;
mod random;
mod signals;
mod sockets;
mod thread_numbers;
mod threads;
mod waiting;
