//! What a call needs of its descriptors, and the refusals for lack of it. They come before what a call does, and are the same
//! for all calls. The needs are borrowed from the call itself, so no list is made of them.
#![tactic(auto)]

pub use needs::{Needs, fits, needs_of};
pub use refusing::refusal;
pub use replies::{refused, success, success_with};

mod needs;
mod refusing;
mod replies;
