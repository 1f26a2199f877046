//! The pages of a guest's memory by their numbers: each has 4096 bytes, and rights to be read, written and executed.
#![tactic(auto)]

pub use mapped_page::MappedPage;
pub use table::PageTable;

mod mapped_page;
mod slots;
mod table;
