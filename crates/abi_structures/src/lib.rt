//! The structures that calls pass in memory, and events with what is waited for.
//!
//! CloudABI gives the names. The numbers and the layouts are this project's profile, in docs/ABI.md.
#![tactic(auto)]

pub use events::{Event, EventType, Subscription, What};
pub use structures::{
    Dirent, FdStat, FileStat, Iovec, RecvIn, RecvOut, SendIn, SendOut, ThreadAttr,
};

mod events;
mod structures;
