//! Which threads a change may make ready, or no longer ready: those alone that stand at a spot which it changes. The functions here are laws over
//! the definitions of `kernel_model`: they do nothing, and their contracts say the law.
#![tactic(auto)]

mod laws;

pub use laws::{
    changes_are_local, entries_are_local, entries_tell_who_is_ready, entries_tell_who_runs,
    others_look_elsewhere, others_stay_ready, places_are_kept, readiness_is_local,
    runners_are_counted, spots_are_few,
};
