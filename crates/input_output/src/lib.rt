//! What a program reads from and writes to outside of itself: named inputs and one output, each of which may fail.
#![tactic(auto)]

pub use mem_sink::MemSink;
pub use mem_source::MemSource;
pub use sink::Sink;
pub use source::{Failed, Source};
pub use steady_sink::SteadySink;
pub use steady_source::SteadySource;
pub use whole::{INPUT_LIMIT, ReadFault, read_whole, write_whole};

mod call_counts;
mod inputs;
mod mem_sink;
mod mem_source;
mod sink;
mod source;
mod steady_sink;
mod steady_source;
mod whole;
