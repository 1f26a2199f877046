//! The kernel's channels: what calls on their ends send, receive and shut, and what is made with a pair of ends and ends with one.
//!
//! [`Channels`] has them by number, and contracts see a finite map. `specs/Calls.antt` says what a call leaves of it, of a process's
//! descriptors, and of the counts of what is held: each descriptor that waits in a channel holds its open.
#![tactic(auto)]

pub use calls::{on_end, on_socket};
pub use kept::Channels;
pub use leaving::leave;
pub use pairs::{Pair, PairKind, put_pair};
pub use waits::{end_waits, socket_waits};

mod calls;
mod installing;
mod kept;
mod leaving;
mod letting_go;
mod pairs;
mod receiving;
mod sending;
mod shutting;
mod waits;
