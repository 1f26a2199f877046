//! Calls between registers, memory and the kernel: the memory that a program starts with, the registers of a new thread and of a child,
//! the call that registers and memory encode, and the registers and memory after an answer.
#![tactic(auto)]

pub use arguments::args;
pub use code::may_change_code;
pub use image::load;
pub use laws::{
    output_is_written, processes_go_on, refusals_are_listed, start_block_stands, threads_start,
    wakes_are_given,
};
pub use output::put_words;
pub use processes::{child_registers, restart_memory};
pub use replies::{put_answer, put_woken};
pub use room::make_room;
pub use start::{start_memory, thread_registers};
pub use wakes::given;

mod arguments;
mod code;
mod image;
mod laws;
mod memory_calls;
mod messages;
mod output;
mod processes;
mod replies;
mod room;
mod start;
mod wakes;
