//! What a run is: the world of a history, and which histories are legal, as definitions (`specs/`). The functions here
//! are laws over these definitions: they do nothing, and their contracts say the law.
#![tactic(auto)]

pub mod laws;
mod thread_laws;

pub use laws::{
    asks_stay, clock_counts, encoded_calls_are_plain, ended_is_final, entry_is_one,
    entry_leaves_others, history_is_short, left_alone, legal_goes_on, legal_has_registers,
    legal_is_confined, made_before, made_later, moment_is_early, others_stay, runs_to_its_end,
    waits_were_called, world_is_valid,
};
pub use thread_laws::{
    clocks_go_on, draws_are_apart, numbers_suffice, programs_begin, threads_come_and_go,
};
