//! The call that a thread's registers and memory encode, or the error that refuses it: a function for each call, named after
//! it, and beside it in specs/ its definition, whose name ends in `_of`. Arguments of 32 bits are low halves of registers.
//!
//! Errors are refusals that the arguments alone show. What registers show comes first, then FAULT for memory that can't be
//! read or written, then what the memory shows. A function without an error reads a call that can't be refused by its
//! arguments.
#![tactic(auto)]

pub use clock_calls::{clock_res_get, clock_time_get, is_cpu_clock, is_time_clock};
pub use descriptor_calls::{
    asks_unknown, fd_close, fd_create1, fd_create2, fd_datasync, fd_dup, fd_pread, fd_pwrite,
    fd_read, fd_replace, fd_seek, fd_stat_get, fd_stat_put, fd_sync, fd_write,
};
pub use flags::has_unknown;
pub use lock_calls::{check_scope, condvar_signal, is_misaligned, lock_unlock, thread_exit};
pub use process_calls::{proc_exec, proc_exit, proc_fork, proc_raise, random_get};
pub use socket_calls::{MOST_SENT_DESCRIPTORS, sock_recv, sock_send, sock_shutdown};
pub use thread_calls::{thread_create, thread_yield};

mod clock_calls;
mod descriptor_calls;
mod flags;
mod lock_calls;
mod process_calls;
mod socket_calls;
mod thread_calls;
