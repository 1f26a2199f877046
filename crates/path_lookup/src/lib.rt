//! Looking a path up from a directory, by what the names of each directory are: the walk of a path.
//!
//! A walk never leaves what is below the directory that it starts from. Its definition is in `specs/Walk.antt`, the split
//! of a path into its components in `specs/Split.antt`. `specs/Relation.antt` says the walk a second time, by clauses, and
//! a law says that both are the same.
#![tactic(auto)]

pub use directories::{Dirs, Found};
pub use ends::{End, WalkFault, WalkMode};
pub use laws::{
    dot_is_nothing, empty_path_is_no_entry, reads_below, start_is_not_left, walk_is_the_relation,
};
pub use lookup::walk;

mod directories;
mod ends;
mod frames;
pub mod laws;
mod lookup;
mod walker;
