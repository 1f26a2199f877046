//! The lines of a launch file: those in which something stands, what they begin with, and faults with their places. The
//! values that stand on lines are of the crate `launch_yaml`.
#![tactic(auto)]

pub mod fault;
pub mod faults;
pub mod line;
pub mod lines;
pub mod rows;
