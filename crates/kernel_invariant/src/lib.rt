//! What the kernel's code keeps beside its state: counts of opens, and the entries of the threads that wait. Here stand the relation between these
//! and the state, and the changes of entries that go with a change of the state.
#![tactic(auto)]

mod beginning;
mod readiness;

pub use beginning::{FirstProcess, first_process};
pub use readiness::{
    Looked, end_entry, gather, rest_entry, run_entry, touch_answered, touch_changed,
    touch_number_of, touch_received, touch_time,
};
