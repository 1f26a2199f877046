//! Channels, by which bytes and descriptors go from one end to another: a FIFO is one channel, and a stream pair is two.
//!
//! [`Channel`] is one direction of such a way. `specs/Channels.antt` says what contracts see of one, `specs/Rings.antt` how it lies in
//! its rings, and [`laws`] what follows from the two.
#![tactic(auto)]

pub use channel::{Channel, Pulled};
pub use faults::{PullFault, PushFault};
pub use pieces::Piece;
pub use side::{Side, SideState};

mod channel;
mod faults;
pub mod laws;
mod pieces;
mod rings;
mod side;
