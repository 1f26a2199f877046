//! What is reported of a run's closed book: the text that is shown of it, and the end that the run came to by it. And laws of reports.
#![tactic(auto)]

pub use ends::{Ending, RunEnd, record_of, report_run};
pub use laws::{report_needs_kept_entries, reports_differ_in_tree};
pub use shown::Shown;

mod ends;
mod laws;
mod shown;
