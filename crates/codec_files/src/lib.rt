//! The calls about files that a thread's registers and memory encode, or the error that refuses one: a function for each call,
//! named after it, and beside it in specs/ its definition, whose name ends in `_of`.
//!
//! Errors are refusals that the arguments alone show. What registers show comes first, then FAULT for memory that can't be
//! read or written, then what the memory shows. A path of over 1024 bytes isn't read here, and isn't refused here.
#![tactic(auto)]

pub use by_node::{
    file_advise, file_allocate, file_readdir, file_stat_fget, file_stat_fput, file_stat_get,
    file_stat_put,
};
pub use by_path::{
    file_create, file_link, file_open, file_readlink, file_rename, file_symlink, file_unlink,
};
pub use laws::create_of_directory_is_invalid;

mod by_node;
mod by_path;
pub mod laws;
