//! What a launch file asks for: the descriptors of a program, and its argument data.
#![tactic(auto)]

pub use fault::PlanFault;
pub use planning::{Planned, plan};

mod arguments;
mod fault;
mod files;
mod planning;
mod sizes;
mod tagged_nodes;
