//! The reading of a launch: what the words and the inputs of a run ask for, or why they are refused.
#![tactic(auto)]

pub use inputs::{Inputs, read_launch};
pub use launch_text::{LaunchFault, plan_text};
pub use refusal::LaunchRefusal;

mod inputs;
mod launch_text;
mod refusal;
