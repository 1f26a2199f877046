//! Errors by a table: for each call on channels, processes, threads and locks, and for polls, each error that the kernel answers comes
//! exactly where its line says, and the call succeeds, or its thread waits, exactly where no such line holds. The functions here are
//! laws over these tables: they do nothing, and their contracts say the law.
#![tactic(auto)]

pub mod laws;

pub use laws::{
    channel_errors_are_listed, lock_errors_are_listed, new_ends_are_listed, polls_are_listed,
    process_errors_are_listed, thread_errors_are_listed,
};
