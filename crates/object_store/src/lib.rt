//! The opens that descriptors name, each with the number of its holders.
//!
//! [`Objects`] is the one type here. Its contracts see two maps, of what each open is and of how many hold it
//! (`specs/Objects.antt`). It says how many opens are of a node of the file tree, and [`node_of`] which node an open is
//! of. A release costs look-ups alone: no call goes over all opens.
#![tactic(auto)]

pub use by_node::node_of;
pub use objects::Objects;

mod by_node;
mod entry;
mod objects;
