//! How far the kernel was asked for threads that are ready.
use abi_base::{Pid, Tid};

/// The way over the threads that are ready. The kernel is asked for the first of them, then for the first behind that one, and so on: that is a
/// pass, and it ends where none is behind the last. One worker asks at a time.
// No ready thread is missed. At each answer all threads up to the one that is named have been passed, and those that were ready then have been
// seen to: each was named, since the kernel names the least behind the last one. Who makes a thread ready later tells of it, and before its own
// ticket is back. If that comes before the pass ends, another pass follows. If it comes after, a pass begins by it. So nobody is passed over
// who is ready, is parked, and of whom nobody is to tell any more. And passes end: one follows on another only where a parked ticket was taken, or
// something was told. Threads that are named though their tickets are ready already, or with a worker, make none follow.
#[derive(Drop)]
pub struct Asking {
    // Some thread may be ready, or gone, whose ticket is parked.
    told: bool,
    // That was told since the pass began.
    told_since: bool,
    // The pass brought a parked ticket.
    brought: bool,
    // Whom the last answer of the pass named.
    after: Option<(Pid, Tid)>,
    // A worker asks.
    under_way: bool,
}

impl Asking {
    /// Nobody is to be asked for.
    pub fn new() -> Asking {
        Asking {
            told: false,
            told_since: false,
            brought: false,
            after: None,
            under_way: false,
        }
    }

    /// Notes that some thread may be ready, or gone.
    pub fn tell(&mut self) {
        self.told = true;
        self.told_since = true;
    }

    /// Whether the kernel is to be asked, and nobody asks it.
    pub fn is_due(&self) -> bool {
        self.told && !self.under_way
    }

    /// Whether a worker asks it.
    pub fn is_under_way(&self) -> bool {
        self.under_way
    }

    /// Begins to ask, for the first thread behind the one that it gives.
    pub fn begin(&mut self) -> Option<(Pid, Tid)> {
        if self.after.is_none() {
            self.told_since = false;
            self.brought = false;
        }
        self.under_way = true;
        self.after
    }

    /// Notes that the thread which the answer names brought a parked ticket.
    pub fn bring(&mut self) {
        self.brought = true;
    }

    /// Takes the answer. Where it names nobody, the pass is over.
    pub fn end(&mut self, found: Option<(Pid, Tid)>) {
        self.under_way = false;
        self.after = found;
        if found.is_none() {
            self.told = self.told_since || self.brought;
        }
    }
}
