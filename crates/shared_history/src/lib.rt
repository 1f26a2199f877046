//! The one history of a run that all threads add to: the table of passes with its rule, the keeper of the history, and what is kept of it in
//! memory.
#![tactic(auto)]

pub use entries::{EntryHead, idle_entry};
pub use keeper::{Keeper, Past};
pub use kept::Kept;
pub use passes::{Naming, Pass, Passes};
pub use rule::{OneHistory, View};

mod entries;
mod keeper;
mod kept;
mod passes;
mod rule;
