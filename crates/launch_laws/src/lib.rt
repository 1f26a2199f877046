//! Laws of what the texts of launch files mean, and of the text that a document of one has, which is read back; above the crate
//! `launch_yaml`. No code that runs.
#![tactic(auto)]

pub use laws::{
    empty_lines_change_numbers, faults_of_lines_are_reported, faults_stay,
    marks_and_returns_change_nothing, tag_lines_change_the_tag,
};
pub use printing::{what_is_printed_reads_back, what_is_read_is_printable};

mod laws;
mod printing;
