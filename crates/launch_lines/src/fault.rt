//! Faults of a launch file.

use launch_scalars::YamlKind;

/// A fault, with its place in the text.
#[derive(Clone, Copy, Drop)]
pub struct Fault {
    /// The number of the line, from 1.
    pub line: u32,
    /// How many bytes of the line stand before the place.
    pub column: usize,
    /// What is wrong.
    pub kind: YamlKind,
}
