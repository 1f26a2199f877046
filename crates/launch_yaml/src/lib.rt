//! Launch files: the YAML in which they are written, read as a document. Their lines are of the crate `launch_lines`.
#![tactic(auto)]

pub use document::{Doc, parse};
pub use launch_lines::fault::Fault;
pub use launch_scalars::YamlKind;
pub use launch_values::{Node, NodeList, NodePairs, NodeValue};

mod blocks;
mod document;
mod entries;
mod keys;
mod single;
mod tagging;
