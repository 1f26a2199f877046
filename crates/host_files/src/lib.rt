//! The outside of a run on this computer: files and standard input as a source of inputs, and standard output as a sink.
#![tactic(auto)]

pub use file_source::FileSource;
pub use out_sink::OutSink;

mod file_source;
mod out_sink;
