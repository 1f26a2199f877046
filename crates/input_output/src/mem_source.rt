//! A source in memory, of which chosen calls fail.
ghost use Rattle.std.specs.Prelude.{◌≡◌, ◌<◌, ◌≤◌, ◌∷◌, ◌-◌, ⊤, min, if◌then◌else◌, ℕ, List, [], length, Contains, IfOk, IsErr, OnOk, OnErr, IsSome};
ghost use Rattle.input_output.specs.Source.{Lacking, Content, Rose, IsReadAt, EndsBy};
ghost use Rattle.std.specs.Str.{bytes_eq};
ghost use Rattle.input_output.specs.Memory.{given, bytes_of, content_in_memory, counted};

use crate::call_counts::FailingCalls;
use crate::inputs::{Inputs, copy_from};
use crate::source::{Failed, Source};
use std::alloc::{AllocError, Global};
use std::marker::Model;

/// Inputs in memory. A name that wasn't given is lacking, and reading it is a fault, as is a call that is chosen to
/// fail.
#[derive(Drop)]
pub struct MemSource {
    inputs: Inputs,
    counts: FailingCalls,
}

impl Model for MemSource {
    ghost use Rattle.input_output.specs.Memory.{SourceState};

    ghost Value = { SourceState };

    ghost view = { λ s. record { inputs = s.inputs; counts = s.counts } };
}

impl MemSource {
    /// No input yet. `failing` holds the calls that fail, counted from 0.
    pub fn new(alloc: Global, failing: Vec<u64>) -> Self
        ensures content { (n : List ℕ) → content_in_memory result n ≡ Lacking }
        ensures inputs { result.inputs ≡ [] }
        ensures counts { result.counts ≡ record { failing = failing.items; calls = 0; faults = 0 } }
    {
        MemSource {
            inputs: Inputs::new(alloc),
            counts: FailingCalls::new(failing),
        }
    }

    /// Gives a name its bytes, in place of those that it had.
    pub fn add(&mut self, name: &str, bytes: &[u8]) -> Result<(), AllocError>
        ensures content { OnOk result ((n : List ℕ) → content_in_memory self.new n ≡ (if bytes_eq name.now n then Content bytes.now else content_in_memory self.old n)) }
        ensures ok { OnOk result (self.new.inputs ≡ record { name = name.now; bytes = bytes.now } ∷ self.old.inputs) }
        ensures err { OnErr result (self.new.inputs ≡ self.old.inputs) }
        ensures counts { self.new.counts ≡ self.old.counts }
    {
        self.inputs.add(name, bytes)
    }
}

impl Source for MemSource {
    ghost content = { content_in_memory };

    ghost may_read = { λ s name. ⊤ };

    ghost faults = { λ s. s.counts.faults };

    fn read_at(&mut self, name: &str, at: u64, buf: &mut [u8]) -> Result<usize, Failed>
        ensures faults_never_fall { self.old.counts.faults ≤ self.new.counts.faults }
        ensures count { IfOk result (λ count. count ≡ min (length buf.old) (length (bytes_of self.old.inputs name.now) - at)) }
        ensures content { IfOk result (λ count. IsReadAt (content_in_memory self.old name.now) at count buf.new) }
        ensures end { IfOk result (λ count. count ≡ 0 → 0 < length buf.old → EndsBy (content_in_memory self.old name.now) at) }
        ensures lacking { content_in_memory self.old name.now ≡ Lacking → IsErr result }
        ensures failed { OnErr result (Rose self.old.counts.faults self.new.counts.faults) }
        ensures inputs { self.new.inputs ≡ self.old.inputs }
        ensures chosen { Contains self.old.counts.failing self.old.counts.calls → IsErr result }
        ensures only_chosen { IsErr result → IsSome (given self.old.inputs name.now) → Contains self.old.counts.failing self.old.counts.calls }
        ensures counted_ok { OnOk result (self.new.counts ≡ record self.old.counts { calls = counted self.old.counts.calls }) }
        ensures counted_err { OnErr result (self.new.counts ≡ record self.old.counts { calls = counted self.old.counts.calls; faults = counted self.old.counts.faults }) }
    {
        if !self.counts.next_fails() {
            if let Some(content) = self.inputs.find(name) {
                return Ok(copy_from(content, at, buf));
            }
        }
        self.counts.count_fault();
        Err(Failed)
    }
}
