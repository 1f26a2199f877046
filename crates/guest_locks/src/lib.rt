//! Locks and condition variables of a process: which of its threads wait for them, and how they are handed on.
//!
//! A wait stands in the thread that waits, and the queue of a lock is read off the threads. So nothing here takes memory, and where no
//! thread waits one look at each is all that it costs.
#![tactic(auto)]

pub use handing::{hand_on, unlock};
pub use queues::{front, some_sleeps, some_waits};
pub use signals::signal;
pub use subscriptions::set_word;
pub use taking::{Taking, ask, is_written_by, retake};
pub use told::Told;
pub use waits::{goes_on, has_left, is_late, stage_after};
pub use words::managed_word;

mod handing;
mod queues;
mod signals;
mod subscriptions;
mod taking;
mod told;
mod waits;
mod words;
