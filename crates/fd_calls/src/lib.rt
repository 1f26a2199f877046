//! What calls on descriptors do that work at the offset of a file that is open: they read and write there, which moves it on,
//! or set it. An open that isn't a file's they refuse.
//!
//! [`at_offset`] does such a call on the open and the tree that it is passed.
#![tactic(auto)]

pub use dispatch::at_offset;

mod dispatch;
mod seeking;
mod transfers;
