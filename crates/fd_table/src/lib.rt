//! A process's descriptors: a finite map from numbers below [`MOST_DESCRIPTORS`](abi_base::MOST_DESCRIPTORS) to
//! descriptors.
//!
//! [`FdTable`] is that map, kept as a list in which each descriptor stands at the place of its number. `specs/Table.antt`
//! has the words that its contracts cite, and `specs/Sizes.antt` says what follows from the size of such a map for its
//! free numbers.
#![tactic(auto)]

pub use faults::{InsertFault, PickFault};
pub use table::FdTable;

mod faults;
mod marks;
mod slots;
mod table;
