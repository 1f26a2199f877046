//! What calls on files do that work on the open of one descriptor, a file's or a directory's: they look at the file tree, or
//! change bytes, a size or times. They make no name and take none away, and leave the open as it is.
//!
//! [`on_open`] does such a call on the open and the tree that it is passed. [`read_file`] and [`overwrite`] are of use to calls
//! at an open's offset too.
//!
//! What other calls share with them is here too: where a path leads, why it leads nowhere ([`PathFault`]), and changes of one
//! node.
#![tactic(auto)]

pub use changes::{set_modified, set_size};
pub use dispatch::on_open;
pub use paths::{PathFault, found, lookup_mode, path_error, reply_of, walked};
pub use reading::read_file;
pub use stats::type_number;
pub use writing::overwrite;

mod changes;
mod dispatch;
mod listings;
mod paths;
mod reading;
mod stats;
mod symlinks;
mod writing;
