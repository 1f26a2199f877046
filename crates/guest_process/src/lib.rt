//! A process as the machine has it: how a launch starts it, the turns of its threads, the calls that they encode and the answers.
#![tactic(auto)]

pub use guest::{
    FIRST, FIRST_THREAD, Guest, GuestRoom, NewThread, begins_program, ends_caller, makes_thread,
};

mod children;
mod guest;
mod programs;
