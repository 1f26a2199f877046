//! What calls on files do that make names, move them or take them away, and what an open does to the file tree.
//!
//! [`on_entries`] does a call of the first kind on the tree and the opens that it is passed; [`check_entries`] says beforehand
//! why one is refused that would make a node. An open has two parts, since memory for the descriptor is taken between them:
//! [`plan_open`] says what is opened and changes nothing, and [`apply_plan`] does to the tree what the plan says.
#![tactic(auto)]

pub use checking::check_entries;
pub use dispatch::{new_nodes, on_entries};
pub use failure::Failure;
pub use places::NamePlace;
pub use plans::{OpenPlan, apply_plan, plan_open};

mod checking;
mod dispatch;
mod entries;
mod failure;
mod making;
mod moving;
mod places;
mod plans;
mod removing;
mod times;
