//! What a run starts from (`Launch`), and the entries of its history (`Entry`).
#![tactic(auto)]

pub use abi_types::Constants;
pub use history::{Act, Entry};
pub use launch::Launch;
pub use turn_list::TurnList;

mod history;
mod launch;
mod turn_list;
