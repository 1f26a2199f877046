//! A sink in memory that never fails.
ghost use Rattle.std.specs.Prelude.{◌≡◌, ◌<◌, ◌≤◌, ◌++◌, [], length, take, None, IfOk};

use crate::sink::Sink;
use crate::source::Failed;
use std::alloc::{AllocError, Global};
use std::marker::Model;

/// An output that takes every piece whole and never fails. It holds the first bytes written, as many as it has room
/// for, and lets those after them go: so as a sink it shows nothing of what was written.
#[derive(Drop)]
pub struct SteadySink {
    bytes: Vec<u8>,
    room: usize,
}

impl Model for SteadySink {
    ghost use Rattle.std.specs.Prelude.{◌≤◌, vec_len, vec_capacity};
    ghost use Rattle.input_output.specs.Memory.{RoomState};

    ghost Value = { RoomState };

    ghost view = { λ s. record { bytes = s.bytes.items; room = s.room } };

    ghost invariant = { λ s. (vec_len s.bytes ≤ s.room) × (s.room ≤ vec_capacity s.bytes) };
}

impl SteadySink {
    /// Nothing written yet, with room for so many bytes.
    pub fn new(alloc: Global, room: usize) -> Result<Self, AllocError>
        ensures { IfOk result (λ sink. sink ≡ record { bytes = []; room = room }) }
    {
        Ok(SteadySink {
            bytes: Vec::with_capacity(alloc, room)?,
            room,
        })
    }

    /// The first bytes written, as many as there is room for.
    pub fn bytes(&self) -> &[u8]
        ensures { result.now ≡ self.now.bytes }
    {
        self.bytes.as_slice()
    }
}

impl Sink for SteadySink {
    ghost written = { λ s. None };

    ghost faults = { λ s. 0 };

    fn write(&mut self, bytes: &[u8]) -> Result<usize, Failed>
        ensures steady { result ≡ Ok (length bytes.now) }
        ensures held { self.new.bytes ≡ take self.old.room (self.old.bytes ++ bytes.now) }
        ensures room { self.new.room ≡ self.old.room }
    {
        let count = (self.room - self.bytes.len()).min(bytes.len());
        self.bytes.extend_from_slice(&bytes[..count]).unwrap();
        Ok(bytes.len())
    }
}
