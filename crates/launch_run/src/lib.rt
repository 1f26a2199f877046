//! A whole run: what the words and the inputs of a run ask for, the run itself, and its report; and a run whose inputs are generated, and
//! its summary.
#![tactic(auto)]

pub use command_line::asks_to_generate;
pub use generated::run_generated;
pub use kernel_cell::Record;
pub use launch_reading::{Inputs, LaunchFault, LaunchRefusal, plan_text, read_launch};
pub use process_cell::{Gate, OpenGate};
pub use top::{Finished, run_launch};

mod generated;
mod top;
