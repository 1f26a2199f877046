//! Calls of which chosen ones fail, for sources and sinks in memory.
ghost use Rattle.std.specs.Prelude.{◌≡◌, ◌≤◌, ◌↔◌, IsTrue, Contains};
ghost use Rattle.input_output.specs.Memory.{counted};

use std::marker::Model;

/// Which calls fail, counted from 0, and how many calls and faults there were. Each count stays at its last value,
/// 2^64 - 1.
#[derive(Drop)]
pub struct FailingCalls {
    failing: Vec<u64>,
    calls: u64,
    faults: u64,
}

impl Model for FailingCalls {
    ghost use Rattle.input_output.specs.Memory.{CallCounts};

    ghost Value = { CallCounts };

    ghost view = { λ c. record { failing = c.failing.items; calls = c.calls; faults = c.faults } };
}

impl FailingCalls {
    /// Before the first call.
    pub fn new(failing: Vec<u64>) -> Self
        ensures { result ≡ record { failing = failing.items; calls = 0; faults = 0 } }
    {
        FailingCalls {
            failing,
            calls: 0,
            faults: 0,
        }
    }

    /// Counts a call; whether it is one that fails.
    pub fn next_fails(&mut self) -> bool
        ensures fails { IsTrue result ↔ Contains self.old.failing self.old.calls }
        ensures counts { self.new ≡ record self.old { calls = counted self.old.calls } }
    {
        let fails = self.failing.contains(&self.calls);
        self.calls = self.calls.saturating_add(1);
        fails
    }

    /// Counts a fault.
    pub fn count_fault(&mut self)
        ensures counts { self.new ≡ record self.old { faults = counted self.old.faults } }
        ensures never_falls { self.old.faults ≤ self.new.faults }
    {
        self.faults = self.faults.saturating_add(1);
    }
}
