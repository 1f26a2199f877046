//! What a thread that waited is given when it goes on.

/// What a wake is given by the memory of its thread: the present word of the lock that the kept call waits for, and 0 where
/// it waits for none; or that the word or a place of the call's output is not accessible any more.
#[derive(Clone, Copy, Debug, PartialEq, Eq)]
pub enum WakeIn {
    Fault,
    Plain { word: u32 },
}
