//! What a call of the top comes to.
use crate::calls::{Given, answered};
use std::alloc::Global;
use std::process::Abort;
use std::sync::Wait;
use std::test::Fail;
use std::thread::Threads;

// Looks whether the call answers this status and writes this; how many entries of the record that it keeps are in memory, if it
// keeps one.
pub(crate) fn check(
    rt: &(impl Abort + Threads + Wait + Sync),
    alloc: Global,
    given: &Given<'_>,
    status: u8,
    written: &[u8],
) -> Result<Option<usize>, Fail> {
    let (finished, sink) = answered(rt, alloc, given)?;
    assert_eq!(rt; sink.bytes(), written, "of {:?}", given.words);
    assert_eq!(rt; finished.status, status, "of {:?}", given.words);
    Ok(finished.kept.map(|record| record.kept.entries.len()))
}
