//! The parts that the kernel's state is made of, and what calls do to several of them: a process's descriptor table with the opens
//! that it holds, what a process has of its own, what its threads wait for, the standard streams, and the nodes of the file tree that nothing holds any more.
#![tactic(auto)]

pub use clocks::{CLOCK_RESOLUTION, time_of};
pub use entries::{Caller, EntryReply, change_entries};
pub use keys::{end_key, thread_key, thread_of_key};
pub use opens::{Opening, add_open, kind_of, open_of, put_opening};
pub use places::placed;
pub use process::ProcessState;
pub use releasing::{forget_nameless, release};
pub use start::{granted, single, streams};
pub use stream_calls::on_stream;
pub use table::{drop_table, hold_all, let_go_all};
pub use table_change::change_table;
pub use terminal::Terminal;
pub use touching::{
    ensure_entry, keep_thread, touch_end, touch_ended, touch_number, touch_numbers, touch_told,
};
pub use waiting::{goes_on, socket_fd, wait_spots};

mod clocks;
mod entries;
mod keys;
mod locks;
mod numbers;
mod opens;
mod places;
mod process;
mod releasing;
mod start;
mod stream_calls;
mod table;
mod table_change;
mod terminal;
mod touching;
mod waiting;
