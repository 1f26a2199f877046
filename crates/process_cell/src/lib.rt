//! The run of a launch by workers, each a thread: the processes behind their memory locks, the gate by which their way can be watched, and the
//! run from its begin to the book that is closed once the workers are done.
#![tactic(auto)]

pub use process::{Gate, OpenGate, Process, Worker};
pub use results::{Did, Phase};
pub use workers::{Driven, drive};

mod process;
mod results;
mod workers;
