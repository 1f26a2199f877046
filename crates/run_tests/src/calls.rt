//! A call of the top over inputs in memory: what it is given, and what it comes to.
use input_output::{MemSink, MemSource};
use launch_run::{Finished, Gate, OpenGate, run_launch};
use std::alloc::{AllocError, Global};
use std::sync::Wait;
use std::thread::Threads;

/// The words of a run without options.
pub(crate) const WORDS: &[&str] = &["cloudabi-run", "p"];

/// What the first program's report is.
pub(crate) const REPORT: &str =
    "== stdout 6\nhello\n== stderr 0\n== status exit 0\n== run ended\n== denials 0\n== tree 0\n";

/// What a call is given: its words, the inputs `p`, `input` and `tree`, standard input, and the numbers of the reads and the
/// writes that fail. There are the inputs `empty` and `faulty` besides.
#[derive(Drop)]
pub(crate) struct Given<'a> {
    pub(crate) words: &'a [&'a str],
    pub(crate) program: &'a [u8],
    pub(crate) input: &'a [u8],
    pub(crate) text: &'a [u8],
    pub(crate) tree: &'a [u8],
    pub(crate) failing_reads: &'a [u64],
    pub(crate) failing_writes: &'a [u64],
}

impl<'a> Given<'a> {
    /// No read and no write fails, `input` has ten bytes, and `tree` has a file.
    pub(crate) fn new(words: &'a [&'a str], program: &'a [u8], text: &'a [u8]) -> Given<'a> {
        Given {
            words,
            program,
            input: b"some input",
            text,
            tree: b"file 3 a\nabc\n",
            failing_reads: &[],
            failing_writes: &[],
        }
    }
}

// Words of these texts.
fn words_of(alloc: Global, texts: &[&str]) -> Result<Vec<String>, AllocError> {
    let mut words = Vec::new(alloc);
    for text in texts {
        words.push(String::from_str(alloc, text)?)?;
    }
    Ok(words)
}

// The inputs that are given.
fn source_of(alloc: Global, given: &Given<'_>) -> Result<MemSource, AllocError> {
    let mut source = MemSource::new(alloc, given.failing_reads.to_vec(alloc)?);
    for (name, bytes) in [
        ("p", given.program),
        ("-", given.text),
        ("empty", b""),
        ("tree", given.tree),
        ("faulty", b"dir a\ndir a\n"),
        ("input", given.input),
    ] {
        source.add(name, bytes)?;
    }
    Ok(source)
}

// The top call. Its contract is long, and no test needs it: so it is read here alone.
fn finished<G: Gate + Sync>(
    rt: &(impl Threads + Wait + Sync),
    alloc: Global,
    words: &[String],
    gate: &G,
    source: &mut MemSource,
    sink: &mut MemSink,
) -> Finished {
    run_launch(rt, alloc, words, gate, source, sink)
}

/// What the top call answers where its workers pass this gate, and the sink that it wrote to.
pub(crate) fn answered_through<G: Gate + Sync>(
    rt: &(impl Threads + Wait + Sync),
    alloc: Global,
    given: &Given<'_>,
    gate: &G,
) -> Result<(Finished, MemSink), AllocError> {
    let words = words_of(alloc, given.words)?;
    let mut source = source_of(alloc, given)?;
    let mut sink = MemSink::new(alloc, given.failing_writes.to_vec(alloc)?);
    let finished = finished(rt, alloc, &words, gate, &mut source, &mut sink);
    Ok((finished, sink))
}

/// What the top call answers, and the sink that it wrote to.
pub(crate) fn answered(
    rt: &(impl Threads + Wait + Sync),
    alloc: Global,
    given: &Given<'_>,
) -> Result<(Finished, MemSink), AllocError> {
    answered_through(rt, alloc, given, &OpenGate)
}
