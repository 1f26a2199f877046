//! Gates that hold a worker until another one has come so far. A run passes them only where its workers run at the same time.
use crate::calls::{Given, answered_through};
use abi_base::{Pid, Tid};
use launch_run::Gate;
use rv_asm::{assemble, write_elf};
use std::sync::atomic::{AtomicU64, Ordering};
use std::test::Fail;
use std::thread;
use std::time::{Clock, Duration};

// For how many turns of a loop a worker is held at most, and after how many it sleeps a millisecond: 20 seconds in all.
const LONG: u64 = 2_000_000;

const TURNS_TO_SLEEP: u64 = 100;

// The same where nobody comes: 20 milliseconds.
const SHORT: u64 = 2_000;

// How often a call that forks passes the gate.
const FORK_PASSES: u64 = 2;

// It forks, and both processes yield a thousand times.
const FORKS_ONCE: &str = "
        addi a7, zero, 40
        ecall
        addi s1, zero, 1000
yields: addi a7, zero, 48
        ecall
        addi s1, s1, -1
        bne s1, zero, yields
        addi a0, zero, 0
        addi a7, zero, 39
        ecall
";

// It forks three children, which yield and exit, and polls for the end of each in turn.
const FORKS_THREE: &str = "
        addi sp, sp, -256
        addi s1, sp, 0
        addi s2, zero, 3
forks:  addi a7, zero, 40
        ecall
        bne a2, zero, child
        sd a1, 0(s1)
        addi s1, s1, 8
        addi s2, s2, -1
        bne s2, zero, forks
        addi s1, sp, 0
        addi s2, zero, 3
        addi t0, zero, 7
        sb t0, 72(sp)
polls:  ld t0, 0(s1)
        sw t0, 80(sp)
        addi a0, sp, 64
        addi a1, sp, 128
        addi a2, zero, 1
        addi a7, zero, 37
        ecall
        addi s1, s1, 8
        addi s2, s2, -1
        bne s2, zero, polls
        addi a0, zero, 0
        addi a7, zero, 39
        ecall
child:  addi a7, zero, 48
        ecall
        addi a0, zero, 0
        addi a7, zero, 39
        ecall
";

// Who is held, and until when.
#[derive(Clone, Copy, Debug, PartialEq)]
enum Hold {
    // The first of process 0 and its child that comes to a call after the fork, until a later call of the other was answered.
    FirstCall,
    // The first of both that comes to a turn after the fork, until the other comes to one.
    FirstTurn,
    // Each of three children at its first call, until all three are.
    EachChild,
}

#[derive(Drop)]
struct HoldingGate<'a, R> {
    clock: &'a R,
    hold: Hold,
    // For how many turns of a loop at most.
    most: u64,
    // How many workers came to where one is held.
    came: AtomicU64,
    // What each of the first four processes has done of what others are held for: calls that were answered, or turns.
    done: [AtomicU64; 4],
    // How often process 0 has passed the gate: the first call forks, and passes it as it is read and as it is made.
    forked: AtomicU64,
    // How often nobody came.
    failures: AtomicU64,
}

// Which of the first four processes this is: process 0, or the child of this number of it.
fn index_of(pid: Pid) -> usize {
    (pid.0 >> 24) as usize
}

impl<'a, R: Clock> HoldingGate<'a, R> {
    fn new(clock: &'a R, hold: Hold, most: u64) -> Self {
        HoldingGate {
            clock,
            hold,
            most,
            came: AtomicU64::new(0),
            done: [
                AtomicU64::new(0),
                AtomicU64::new(0),
                AtomicU64::new(0),
                AtomicU64::new(0),
            ],
            forked: AtomicU64::new(0),
            failures: AtomicU64::new(0),
        }
    }

    // Waits until a count is above a number, and notes where it never is.
    fn wait_above(&self, count: &AtomicU64, number: u64) {
        for turn in 0..self.most {
            if count.load(Ordering::SeqCst) > number {
                return;
            }
            if turn % TURNS_TO_SLEEP == 0 {
                thread::sleep(self.clock, Duration::from_millis(1));
            }
        }
        self.failures.fetch_add(1, Ordering::SeqCst);
    }

    // Holds the first of two processes that comes here after the fork, until the other one has done more.
    fn hold_first(&self, pid: Pid) {
        if self.forked.load(Ordering::SeqCst) < FORK_PASSES {
            return;
        }
        let other = 1_usize.saturating_sub(index_of(pid));
        let Some(count) = self.done.get(other) else {
            return;
        };
        let before = count.load(Ordering::SeqCst);
        if self.came.fetch_add(1, Ordering::SeqCst) == 0 {
            self.wait_above(count, before);
        }
    }

    // Holds a child at its first call until three are held.
    fn hold_child(&self, pid: Pid) {
        let Some(calls) = self.done.get(index_of(pid)) else {
            return;
        };
        if pid.0 > 0 && calls.fetch_add(1, Ordering::SeqCst) == 0 {
            self.came.fetch_add(1, Ordering::SeqCst);
            self.wait_above(&self.came, 2);
        }
    }

    // Notes that a process has done something.
    fn note(&self, pid: Pid) {
        if let Some(count) = self.done.get(index_of(pid)) {
            count.fetch_add(1, Ordering::SeqCst);
        }
    }
}

impl<R: Clock> Gate for HoldingGate<'_, R> {
    fn turning(&self, _worker: u32, pid: Pid, _tid: Tid) {
        if self.hold == Hold::FirstTurn && self.forked.load(Ordering::SeqCst) >= FORK_PASSES {
            self.note(pid);
            self.hold_first(pid);
        }
    }

    fn before(&self, _worker: u32, pid: Pid, _tid: Tid, _left: u64) {
        match self.hold {
            Hold::FirstCall => self.hold_first(pid),
            Hold::FirstTurn => {}
            Hold::EachChild => self.hold_child(pid),
        }
    }

    fn after(&self, _worker: u32, pid: Pid, _tid: Tid) {
        if self.hold == Hold::FirstCall {
            self.note(pid);
        }
        if pid.0 == 0 {
            self.forked.fetch_add(1, Ordering::SeqCst);
        }
    }
}

// A program's run through a gate that holds, and whether it happens that nobody comes.
struct Row {
    words: &'static [&'static str],
    text: &'static str,
    hold: Hold,
    most: u64,
    fails: bool,
}

const ROWS: &[Row] = &[
    Row {
        words: &["run", "--workers=2", "p"],
        text: FORKS_ONCE,
        hold: Hold::FirstCall,
        most: LONG,
        fails: false,
    },
    Row {
        words: &["run", "--workers=2", "p"],
        text: FORKS_ONCE,
        hold: Hold::FirstTurn,
        most: LONG,
        fails: false,
    },
    Row {
        words: &["run", "--workers=4", "p"],
        text: FORKS_THREE,
        hold: Hold::EachChild,
        most: LONG,
        fails: false,
    },
    // With one worker nobody else comes: so a gate tells a run on one thread.
    Row {
        words: &["run", "--workers=1", "p"],
        text: FORKS_ONCE,
        hold: Hold::FirstCall,
        most: SHORT,
        fails: true,
    },
    Row {
        words: &["run", "--workers=1", "p"],
        text: FORKS_ONCE,
        hold: Hold::FirstTurn,
        most: SHORT,
        fails: true,
    },
    Row {
        words: &["run", "--workers=1", "p"],
        text: FORKS_THREE,
        hold: Hold::EachChild,
        most: SHORT,
        fails: true,
    },
    // Nor do two workers bring three children.
    Row {
        words: &["run", "--workers=2", "p"],
        text: FORKS_THREE,
        hold: Hold::EachChild,
        most: SHORT,
        fails: true,
    },
];

#[test]
fn workers_run_at_the_same_time(rt: HostRuntime) -> Result<(), Fail> {
    for row in ROWS {
        let code = assemble(rt.alloc(), row.text)?;
        let program = write_elf(rt.alloc(), code.as_slice(), 0x1_0000, 0)?;
        let gate = HoldingGate::new(&rt, row.hold, row.most);
        let given = Given::new(row.words, program.as_slice(), b"");
        let (finished, _sink) = answered_through(&rt, rt.alloc(), &given, &gate)?;
        assert_eq!(rt; finished.status, 0, "{:?} {:?}", row.words, row.hold);
        let failures = gate.failures.load(Ordering::SeqCst);
        assert_eq!(rt; failures > 0, row.fails, "{:?} {:?}", row.words, row.hold);
    }
    Ok(())
}
