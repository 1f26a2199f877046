//! The denied calls of a history, and the law that they are all of its denials.
#![tactic(auto)]

pub use denied_call::DeniedCall;
pub use laws::denials_are_all;

mod denied_call;
mod laws;
