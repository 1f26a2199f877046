//! Who holds which descriptors by the launch and the recorded entries alone (`specs/Recorded.antt`), how that agrees with
//! the kernel's tables, and where descriptors come from. The functions here are laws over these definitions: they do
//! nothing, and their contracts say the law.
#![tactic(auto)]

pub mod laws;

pub use laws::{
    copies_are_equal, entry_changes_one, held_is_traced, ledger_goes_on, ledger_reports,
    legal_is_recorded, lines_are_exact, receives_are_sent, rights_are_lowered, rights_never_grow,
    sends_are_noted, sends_are_numbered, sight_is_recorded,
};
