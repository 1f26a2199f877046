//! The machine that runs guest programs: one instruction of RV64IM, A and Zifencei over a guest's memory, and a turn of
//! instructions (RISC-V unprivileged manual).
#![tactic(auto)]

pub use cache::Cache;
pub use execution::{Outcome, step};
pub use reservation::Reservation;
pub use turns::{QUANTUM, TurnEnd, turn, turn_is_one};

mod atomics;
mod cache;
mod code_pages;
mod execution;
mod jumps;
mod kept;
mod loads;
mod operations;
mod places;
mod regions;
mod reservation;
mod runs;
mod slot;
mod turns;
mod values;
mod width;
