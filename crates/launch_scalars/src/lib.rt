//! Scalars in one line of a launch file, without what they mean: their characters, their quotes and escapes, where they end,
//! and which of them look like numbers. What they mean is of the crate `launch_values`.
#![tactic(auto)]

pub use fault::LineFault;
pub use kind::YamlKind;

pub mod characters;
mod digits;
mod escapes;
mod fault;
mod kind;
pub mod numbers;
pub mod plain;
pub mod quoted;
pub mod scalars;
pub mod spaces;
