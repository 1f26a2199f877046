//! A list that grows in blocks: no value that is in it moves when it grows.
#![tactic(auto)]

pub use blocks::BlockList;

mod blocks;
