//! The words that a run is called with, and the settings that they stand for.
#![tactic(auto)]

pub use generating::{GenerateSettings, asks_to_generate, read_generate};
pub use laws::{forms_agree, help_is_refused, separator_ends_options};
pub use reading::{CommandLineFault, read_words};
pub use settings::LaunchSettings;

mod command;
mod generating;
mod laws;
mod reading;
mod settings;
mod values;
