//! Laws of what a child, its parent and a program that begins have of memory, registers and turns, and of when acts are due; above
//! the crate `run_model`. No code that runs.
#![tactic(auto)]

pub use laws::{acts_are_due, guests_begin};

mod laws;
