//! The kernel of a run behind a lock, with the one history that all threads add to.
#![tactic(auto)]

pub use cell::{Begun, Book, Cell};
pub use locked::Locked;
pub use record::Record;
pub use results::{After, Asked, Body, Came, Doing, EndBy, Idled};
pub use shared_history::{Kept, Naming, Pass, Passes, Past};

mod cell;
mod locked;
mod record;
mod results;
