//! The poll that a thread's registers and memory encode: what it waits for, with the words of the locks and condition
//! variables, or the error that refuses it.
#![tactic(auto)]

pub use polling::{EVENT_SIZE, MOST_SUBSCRIPTIONS, poll};

mod polling;
