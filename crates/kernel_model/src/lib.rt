//! What the kernel is: its state, what a call needs, reads and changes, and what it answers, as definitions (`specs/`).
//! The functions here are laws over these definitions: they do nothing, and their contracts say the law.
#![tactic(auto)]

mod call_bounds;
mod channel_laws;
mod fork_laws;
pub mod laws;
mod lock_laws;
mod open_laws;
mod poll_laws;
mod thread_laws;
mod wait_laws;

pub use call_bounds::calls_keep_bounds;
pub use channel_laws::{
    channels_go_on, reads_take_sends, received_as_sent, sends_are_counted, sends_stand_last,
};
pub use fork_laws::{execs_begin_listed, forks_make_child};
pub use laws::{
    child_numbers_are_unique, end_keeps, end_keeps_valid, ends_are_least, error_keeps,
    errors_are_exact, forks_tell_child, meanings_are_proper, next_child_is_unmade, others_stay,
    process_numbers_are_small, reads_sight, refusal_names_lack, refusals_come_first,
    replies_are_listed, sight_decides, sight_is_reached, start_is_valid, step_decided,
    step_keeps_valid, steps_move_only, waited_keeps_threads, waiting_was_held,
};
pub use lock_laws::{
    conditions_are_awaited, locks_are_asked, locks_are_handed_on, locks_are_let_go,
    signals_come_in_turn,
};
pub use open_laws::{open_is_listed, opens_lead_below, opens_stay_of_what_they_are};
pub use poll_laws::{polls_await_clocks, polls_await_soonest, polls_tell_ready};
pub use thread_laws::{
    clocks_show_time, random_bytes_are_drawn, threads_are_numbered, threads_end_alone,
};
pub use wait_laws::{
    jumps_reach_deadlines, parking_changes_thread, ready_stays_ready, waits_stay_valid,
    wakes_end_waits, wakes_move_only,
};
