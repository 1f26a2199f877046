//! What a process has made so far.

/// What a process has made so far: the objects and the threads that it numbered, its children, and the random words that
/// it drew.
#[derive(Clone, Copy)]
pub struct Counts {
    pub objects: u32,
    pub threads: u32,
    pub forks: u32,
    pub words: u64,
}
