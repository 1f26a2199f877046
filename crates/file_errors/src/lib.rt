//! What the calls on descriptors, files, directories, clocks, random bytes and memory answer, by tables: each error comes
//! exactly where its row says, and where no row does the call succeeds. The functions here are laws over the definitions of
//! `kernel_model`: they do nothing, and their contracts say the law.
#![tactic(auto)]

mod laws;

pub use laws::{
    descriptor_errors_are_listed, file_errors_are_listed, memory_errors_are_listed,
    name_errors_are_listed, offset_errors_are_listed, open_errors_are_listed,
    own_errors_are_listed, path_errors_are_listed,
};
