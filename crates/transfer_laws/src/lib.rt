//! What the calls that carry bytes do, in other words than their meanings: what they take from channels, standard streams and files and put
//! into them, what `sock_shutdown` shuts, and what calls on sockets may change. The functions here are laws over the definitions of `kernel_model`:
//! they do nothing, and their contracts say the law.
#![tactic(auto)]

mod laws;

pub use laws::{
    files_keep_what_is_written, sockets_are_shut_as_asked, streams_keep_what_was_written,
    touches_are_exact, transfers_leave_channels,
};
