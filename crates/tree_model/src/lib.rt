//! What a file tree is: nodes by number and names in directories, what may be asked of it, and what each change makes of
//! it, as definitions (`specs/`) and their laws.
#![tactic(auto)]

pub mod fault;
pub mod limits;

pub use fault::TreeFault;
pub use limits::{MOST_FILE_BYTES, MOST_LINKS, ROOT};
