//! The report of a run, and the summary of a run whose program was generated.
#![tactic(auto)]

pub use laws::{report_shows_streams, run_is_reported, stdout_is_cut_out};
pub use report_text::report;
pub use summary_text::summary;

mod call_names;
mod counts;
mod denials;
mod history_lines;
mod laws;
mod report_text;
mod summary_text;
mod tree_sizes;
