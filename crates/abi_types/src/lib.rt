//! The interface of the host: calls and their answers, and what a kernel's state is made of. It offers the lists, numbers,
//! structures and outside traits of the crates below it under its own name too.
//!
//! CloudABI gives the names. The numbers and the layouts are this project's profile, in docs/ABI.md.
#![tactic(auto)]

pub use abi_base::{
    Errno, Grant, GrantList, GrantTarget, MOST_THREADS, ObjId, Pid, Prot, Regs, Rights, Signal,
    Tid, TidList, flags,
};
pub use abi_structures::{
    Dirent, Event, EventType, FdStat, FileStat, Iovec, RecvIn, RecvOut, SendIn, SendOut,
    Subscription, ThreadAttr, What,
};
pub use call::{Call, Lookup};
pub use call_number::CallNumber;
pub use chan_kind::ChanKind;
pub use constants::Constants;
pub use copied::{Copied, EventList, FdList, SubscriptionList};
pub use counts::Counts;
pub use descriptor::{Denial, Descriptor};
pub use family::{DescriptorChange, EntryCall, Family, FileCall, OffsetCall, OpenCall, SocketCall};
pub use input_output as outside;
pub use lists::{Bytes, Items, Text, TryClone};
pub use needed::Needed;
pub use node::{Node, NodeKind, Times};
pub use open_kind::OpenKind;
pub use open_type::OpenType;
pub use place::Place;
pub use reply::{Answer, Payload, Reply, WordWrite, WordWrites};
pub use status::Status;
pub use stream::Stream;
pub use thread::{Stage, Thread};
pub use type_rights::{
    DIRECTORY_RIGHTS, FILE_RIGHTS, OPENED_RIGHTS, PROCESS_RIGHTS, READING_RIGHTS, STREAM_RIGHTS,
    WRITING_RIGHTS,
};
pub use wake::WakeIn;
pub use who::Who;

mod call;
mod call_copy;
mod call_number;
mod chan_kind;
mod constants;
mod copied;
mod counts;
mod descriptor;
mod family;
mod needed;
mod node;
mod open_kind;
mod open_type;
mod place;
mod reply;
mod status;
mod stream;
mod thread;
mod type_rights;
mod wake;
mod who;
