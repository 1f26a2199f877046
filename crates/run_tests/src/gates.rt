//! The gate that a run's workers pass.
use crate::calls::{Given, answered_through};
use crate::hello_file::HELLO_FILE;
use abi_base::{Pid, Tid};
use launch_run::Gate;
use std::sync::atomic::{AtomicU64, Ordering};
use std::test::Fail;

// What a worker has that is not between `before` and `after`.
const NOTHING: u64 = u64::MAX;

// A gate for four workers. It counts the passes, and those that do not come in pairs: a worker passes `after` once for each
// `before`, with the same thread, and takes no turn in between.
#[derive(Drop)]
struct CountingGate {
    turns: AtomicU64,
    before: AtomicU64,
    after: AtomicU64,
    unpaired: AtomicU64,
    // How many turns the process had left at the last `before`.
    left: AtomicU64,
    // The thread with which each worker passed `before` and did not yet pass `after`.
    threads: [AtomicU64; 4],
}

// What passed a gate, as the gate counts it.
#[derive(Clone, Copy, Debug, PartialEq)]
struct Passes {
    turns: u64,
    before: u64,
    after: u64,
    unpaired: u64,
    left: u64,
}

// The number of a thread among those of all processes.
fn thread_of(pid: Pid, tid: Tid) -> u64 {
    u64::from(pid.0)
        .wrapping_mul(1 << 32)
        .wrapping_add(u64::from(tid.0))
}

impl CountingGate {
    fn new() -> CountingGate {
        CountingGate {
            turns: AtomicU64::new(0),
            before: AtomicU64::new(0),
            after: AtomicU64::new(0),
            unpaired: AtomicU64::new(0),
            left: AtomicU64::new(0),
            threads: [
                AtomicU64::new(NOTHING),
                AtomicU64::new(NOTHING),
                AtomicU64::new(NOTHING),
                AtomicU64::new(NOTHING),
            ],
        }
    }

    // What passed it until now.
    fn passes(&self) -> Passes {
        Passes {
            turns: self.turns.load(Ordering::SeqCst),
            before: self.before.load(Ordering::SeqCst),
            after: self.after.load(Ordering::SeqCst),
            unpaired: self.unpaired.load(Ordering::SeqCst),
            left: self.left.load(Ordering::SeqCst),
        }
    }

    // Notes that a worker has a thread, where it is to have another one until now.
    fn change(&self, worker: u32, was: u64, is: u64) {
        let had = match self.threads.get(worker as usize) {
            Some(thread) => thread.swap(is, Ordering::SeqCst) == was,
            None => false,
        };
        if !had {
            self.unpaired.fetch_add(1, Ordering::SeqCst);
        }
    }
}

impl Gate for CountingGate {
    fn turning(&self, worker: u32, _pid: Pid, _tid: Tid) {
        self.turns.fetch_add(1, Ordering::SeqCst);
        self.change(worker, NOTHING, NOTHING);
    }

    fn before(&self, worker: u32, pid: Pid, tid: Tid, left: u64) {
        self.before.fetch_add(1, Ordering::SeqCst);
        self.left.store(left, Ordering::SeqCst);
        self.change(worker, NOTHING, thread_of(pid, tid));
    }

    fn after(&self, worker: u32, pid: Pid, tid: Tid) {
        self.after.fetch_add(1, Ordering::SeqCst);
        self.change(worker, thread_of(pid, tid), NOTHING);
    }
}

// A word of a program, at its place.
#[derive(Clone, Copy)]
struct Word {
    at: usize,
    bytes: [u8; 4],
}

// A run of the first program, or of one that differs from it in a word, and its passes of the gate.
struct Run {
    words: &'static [&'static str],
    word: Option<Word>,
    turns: u64,
    // The calls, and the end from outside if there is one.
    entries: u64,
    // How many turns are left at the last of these.
    left: u64,
}

// It writes in its first turn, and exits in its second.
const WRITES: Run = Run {
    words: &["run", "--history", "p"],
    word: None,
    turns: 2,
    entries: 2,
    left: 99_998,
};

// `jal x0, -24` after the first call: it writes in each turn, until it has none left and is ended.
const WRITES_ON: Run = Run {
    words: &["run", "--history", "--workers=1", "--turns=300", "p"],
    word: Some(Word {
        at: 0x90,
        bytes: [0x6f, 0xf0, 0x9f, 0xfe],
    }),
    turns: 300,
    entries: 301,
    left: 0,
};

const RUNS: &[Run] = &[
    WRITES,
    Run {
        words: &["run", "--history", "--turns=1", "p"],
        turns: 1,
        left: 0,
        ..WRITES
    },
    // Its first word is no instruction, and it is ended.
    Run {
        word: Some(Word {
            at: 0x78,
            bytes: [0, 0, 0, 0],
        }),
        turns: 1,
        entries: 1,
        left: 99_999,
        ..WRITES
    },
    WRITES_ON,
    Run {
        words: &["run", "--history", "--workers=4", "--turns=300", "p"],
        ..WRITES_ON
    },
];

// The program of a run.
fn program_of(run: &Run) -> [u8; 182] {
    let mut program = HELLO_FILE;
    if let Some(word) = &run.word {
        for (index, byte) in word.bytes.iter().enumerate() {
            if let Some(place) = program.get_mut(word.at.saturating_add(index)) {
                *place = *byte;
            }
        }
    }
    program
}

#[test]
fn passes_come_in_pairs(rt: HostRuntime) -> Result<(), Fail> {
    for run in RUNS {
        let program = program_of(run);
        let gate = CountingGate::new();
        let given = Given::new(run.words, &program, b"!fd stdout\n");
        let (finished, _sink) = answered_through(&rt, rt.alloc(), &given, &gate)?;
        let entries = finished.kept.map(|record| record.kept.entries.len() as u64);
        assert_eq!(rt; entries, Some(run.entries), "{:?}", run.words);
        let passes = Passes {
            turns: run.turns,
            before: run.entries,
            after: run.entries,
            unpaired: 0,
            left: run.left,
        };
        assert_eq!(rt; gate.passes(), passes, "{:?}", run.words);
    }
    Ok(())
}
