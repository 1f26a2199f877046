//! The turns that threads took.
ghost use Rattle.std.specs.Prelude.{◌≡◌, ◌++◌, ◌∷◌, [], length, OnOk, OnErr};

use abi_types::Tid;
use std::alloc::{AllocError, Global};
use std::marker::Model;

// Turns of one thread in a row.
#[derive(Drop)]
struct Row {
    tid: Tid,
    count: u64,
}

/// The threads that took turns, in their order, each once for each turn. Contracts see the list of them. Turns of one thread in a row take the
/// memory of one.
#[derive(Drop)]
pub struct TurnList {
    earlier: Vec<Row>,
    // The last row, which takes no memory of its own.
    tid: Tid,
    count: u64,
    // How many turns there are.
    len: u64,
}

impl Model for TurnList {
    ghost use Rattle.std.specs.Prelude.{◌≡◌, ◌++◌, ℕ, List, length, replicate};
    ghost use Rattle.run_types.specs.Turns.{turns_in};

    ghost Value = { List ℕ };

    ghost view = { λ a. turns_in a.earlier.items ++ replicate a.count a.tid };

    ghost invariant = { λ a. a.len ≡ length (turns_in a.earlier.items ++ replicate a.count a.tid) };
}

impl TurnList {
    /// No turn. Takes no memory.
    pub fn new(alloc: Global) -> Self
        ensures { result ≡ [] }
    {
        TurnList {
            earlier: Vec::new(alloc),
            tid: Tid(0),
            count: 0,
            len: 0,
        }
    }

    /// How many turns there are.
    pub fn len(&self) -> u64
        ensures { result ≡ length self.now }
    {
        self.len
    }

    /// Puts a turn of the thread at the end. `Err` where memory ran out, or after 2^64 - 1 turns: then nothing has changed.
    pub fn push(&mut self, tid: Tid) -> Result<(), AllocError>
        ensures ok { OnOk result (self.new ≡ self.old ++ tid ∷ []) }
        ensures err { OnErr result (self.new ≡ self.old) }
    {
        if self.len == u64::MAX {
            return Err(AllocError);
        }
        if tid.0 == self.tid.0 {
            self.count += 1;
            self.len += 1;
            return Ok(());
        }
        self.earlier.push(Row {
            tid: self.tid,
            count: self.count,
        })?;
        self.tid = tid;
        self.count = 1;
        self.len += 1;
        Ok(())
    }
}
