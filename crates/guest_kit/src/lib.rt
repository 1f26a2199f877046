//! A workload that is generated, with its inputs: a program whose process forks so many children, hands each a descriptor of a file, and
//! waits for what each sends back and for its end. Each child reads its file, tries to write it, which is denied, and writes another one.
#![tactic(auto)]

pub use generated::{Generated, generate};

mod generated;
mod launch_text;
mod numbers;
mod program;
mod program_text;
mod tree_text;
