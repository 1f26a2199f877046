//! The file tree as it is kept: nodes by number, each in a slot of a slab, and the names of each directory.
#![tactic(auto)]

mod changes;
mod checks;
mod copying;
mod dirs;
mod entries;
mod file_bytes;
mod files;
mod nameless;
mod numbers;
mod renames;
mod slot;
mod slots;
mod tree;

pub use tree::Tree;
