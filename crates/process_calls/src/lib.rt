//! The calls that make a child of a process, let another program begin in one, and raise a signal, on the parts of the kernel's state.
#![tactic(auto)]

pub use forks::{NewChild, plan_child, put_child};
pub use programs::{NewProgram, check_program, plan_program, program_of, put_table};
pub use signals::{Raised, effect_of};

mod forks;
mod programs;
mod signals;
