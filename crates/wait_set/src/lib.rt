//! The set of a kernel's waiting threads: at which spots each stands, which of them are ready, and at which moments.
//!
//! [`WaitSet`] is the set. Contracts see it as a finite map from each waiting thread to where it stands and how it is marked.
//! [`Parts`] tells whether a thread is ready, and [`Steps`] counts how often it was asked.
#![tactic(auto)]

mod block;
mod blocks;
mod leaving;
mod number_set;
mod packing;
mod queue;
mod queues;
mod ranges;
mod spot;
mod spot_list;
mod spot_queues;
mod steps;
mod thread_set;
mod wait_set;
mod waiting;

pub use number_set::NumberSet;
pub use queue::Queue;
pub use queues::Queues;
pub use spot::Spot;
pub use spot_list::SpotList;
pub use spot_queues::SpotQueues;
pub use steps::{Parts, Steps};
pub use thread_set::ThreadSet;
pub use wait_set::WaitSet;
pub use waiting::Waiting;
