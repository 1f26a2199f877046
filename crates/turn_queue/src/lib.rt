//! The queue of the threads that are to take turns. Each thread has a ticket, which is ready or parked. And the board by which workers share
//! the tickets.
#![tactic(auto)]

pub use board::{Back, Board, Passed, SharedTicket, Task};
pub use queue::{Queue, Ticket};

mod asking;
mod board;
mod queue;
mod ready_tickets;
mod wide_set;
