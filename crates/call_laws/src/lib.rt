//! Laws of single calls, over the definitions of `kernel_model` and in other words than theirs: which descriptors a call names, which numbers
//! descriptors get, what is told of opens and files, what `fd_create2` makes, which names, sizes, times and flags calls change, and how a
//! process ends itself. No code that runs.
#![tactic(auto)]

pub use laws::{
    arguments_are_in_order, descriptors_are_told, files_are_told, flags_are_set,
    names_change_as_asked, numbers_are_lowest, pairs_are_made, processes_end_as_told,
    sizes_and_times_are_set,
};

mod laws;
