//! What is kept of a run: its launch, its history, and what of it is in memory.
use run_types::Launch;
use shared_history::{Kept, Past};

/// The record of a run. Its history is what contracts see; in memory is what is kept of it.
#[derive(Drop)]
pub struct Record {
    pub launch: Launch,
    pub history: Past,
    pub kept: Kept,
}
