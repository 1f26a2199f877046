//! What holds of whole runs: that no entry reads or changes anything but what its process's descriptors reach
//! (`specs/Headline.antt`), that what no grant lets a run change is at its end as it was (`specs/Untouched.antt`), and that what no grant
//! leads to changes nothing of a run (`specs/Alike.antt`). The functions here are laws over these definitions: they do nothing, and
//! their contracts say the law.
#![tactic(auto)]

pub mod laws;

pub use laws::{
    launches_run_alike, legal_is_confined_history, legal_leaves_unwritten, missing_is_exact,
    needs_are_listed, nothing_else_is_in_reach, sight_is_decided, traces_begin_with_makers,
    tree_is_written_by_right,
};
