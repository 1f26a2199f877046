//! Maps whose keys are numbers, and maps whose keys are names, which are sequences of bytes. Contracts see both as finite maps, those
//! from names in the order of the bytes.
//!
//! [`NumMap`] is the map from numbers, [`NameMap`] the one from names, and [`NameEntries`] iterates over the entries of the latter.
//! `specs/Maps.antt` and `specs/Names.antt` have the words and laws on such maps that contracts of other crates cite.
#![tactic(auto)]

pub mod name_entries;
pub mod name_map;
mod name_tree;
pub mod num_map;

pub use name_entries::NameEntries;
pub use name_map::NameMap;
pub use num_map::NumMap;
