//! Polls: what a thread waits for, until when, and what it is told.
//!
//! A poll looks at its process's descriptors and at [`Surroundings`], and takes memory for the events of its answer alone.
#![tactic(auto)]

pub use clocks::{is_due, poll_deadline, soon, sooner};
pub use polls::{poll, poll_waits};
pub use subscriptions::{Surroundings, event_of, lock_subscription};

mod clocks;
mod polls;
mod subscriptions;
