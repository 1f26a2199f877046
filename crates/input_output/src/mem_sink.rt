//! A sink in memory, of which chosen calls fail.
ghost use Rattle.std.specs.Prelude.{◌≡◌, ◌<◌, ◌≤◌, [], length, take, min, Some, Contains, IfOk, IsErr, OnOk, OnErr};
ghost use Rattle.input_output.specs.Source.{Rose};
ghost use Rattle.input_output.specs.Sink.{grown, GrewByPrefix};
ghost use Rattle.input_output.specs.Memory.{counted};

use crate::call_counts::FailingCalls;
use crate::sink::Sink;
use crate::source::Failed;
use lists::Bytes;
use std::alloc::Global;
use std::marker::Model;

// The most bytes that one call takes of a piece.
const MOST: usize = 64;

/// An output in memory. It takes at most 64 bytes of a piece. A call that is chosen to fail, or that lacks memory, is
/// a fault and writes nothing.
#[derive(Drop)]
pub struct MemSink {
    bytes: Bytes,
    counts: FailingCalls,
}

impl Model for MemSink {
    ghost use Rattle.input_output.specs.Memory.{SinkState};

    ghost Value = { SinkState };

    ghost view = { λ s. record { bytes = s.bytes; counts = s.counts } };
}

impl MemSink {
    /// Nothing written yet. `failing` holds the calls that fail, counted from 0.
    pub fn new(alloc: Global, failing: Vec<u64>) -> Self
        ensures bytes { result.bytes ≡ [] }
        ensures counts { result.counts ≡ record { failing = failing.items; calls = 0; faults = 0 } }
    {
        MemSink {
            bytes: Bytes::new(alloc),
            counts: FailingCalls::new(failing),
        }
    }

    /// The bytes written.
    pub fn bytes(&self) -> &[u8]
        ensures { result.now ≡ self.now.bytes }
    {
        self.bytes.as_slice()
    }
}

impl Sink for MemSink {
    ghost written = { λ s. Some s.bytes };

    ghost faults = { λ s. s.counts.faults };

    fn write(&mut self, bytes: &[u8]) -> Result<usize, Failed>
        ensures ok { IfOk result (λ count. Some self.new.bytes ≡ grown (Some self.old.bytes) (take count bytes.now)) }
        ensures faults_never_fall { self.old.counts.faults ≤ self.new.counts.faults }
        ensures failed { OnErr result (Rose self.old.counts.faults self.new.counts.faults) }
        ensures failed_prefix { OnErr result (GrewByPrefix (Some self.old.bytes) (Some self.new.bytes) bytes.now) }
        ensures count { IfOk result (λ count. count ≡ min (length bytes.now) 64) }
        ensures unchanged { OnErr result (self.new.bytes ≡ self.old.bytes) }
        ensures chosen { Contains self.old.counts.failing self.old.counts.calls → IsErr result }
        ensures counted_ok { OnOk result (self.new.counts ≡ record self.old.counts { calls = counted self.old.counts.calls }) }
        ensures counted_err { OnErr result (self.new.counts ≡ record self.old.counts { calls = counted self.old.counts.calls; faults = counted self.old.counts.faults }) }
    {
        let count = bytes.len().min(MOST);
        if self.counts.next_fails() || self.bytes.append(&bytes[..count]).is_err() {
            self.counts.count_fault();
            return Err(Failed);
        }
        Ok(count)
    }
}
