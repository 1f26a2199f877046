//! A source in memory that never fails.
ghost use Rattle.std.specs.Prelude.{◌≡◌, ◌<◌, ◌∷◌, ◌-◌, ⊤, min, if◌then◌else◌, ℕ, List, [], length, IfOk, IsOk, OnOk, OnErr};
ghost use Rattle.input_output.specs.Source.{Content, IsReadAt, EndsBy};
ghost use Rattle.std.specs.Str.{bytes_eq};
ghost use Rattle.input_output.specs.Memory.{bytes_of, content_steadily};

use crate::inputs::{Inputs, copy_from};
use crate::source::{Failed, Source};
use std::alloc::{AllocError, Global};
use std::marker::Model;

/// Inputs in memory that are always read. It lacks no name: one that wasn't given has no bytes.
#[derive(Drop)]
pub struct SteadySource {
    inputs: Inputs,
}

impl Model for SteadySource {
    ghost use Rattle.std.specs.Prelude.{List};
    ghost use Rattle.input_output.specs.declared.inputs.Input.{Input};

    ghost Value = { List Input };

    ghost view = { λ s. s.inputs };
}

impl SteadySource {
    /// No input yet.
    pub fn new(alloc: Global) -> Self
        ensures content { (n : List ℕ) → content_steadily result n ≡ Content [] }
        ensures inputs { result ≡ [] }
    {
        SteadySource {
            inputs: Inputs::new(alloc),
        }
    }

    /// Gives a name its bytes, in place of those that it had.
    pub fn add(&mut self, name: &str, bytes: &[u8]) -> Result<(), AllocError>
        ensures content { OnOk result ((n : List ℕ) → content_steadily self.new n ≡ (if bytes_eq name.now n then Content bytes.now else content_steadily self.old n)) }
        ensures ok { OnOk result (self.new ≡ record { name = name.now; bytes = bytes.now } ∷ self.old) }
        ensures err { OnErr result (self.new ≡ self.old) }
    {
        self.inputs.add(name, bytes)
    }
}

impl Source for SteadySource {
    ghost content = { content_steadily };

    ghost may_read = { λ s name. ⊤ };

    ghost faults = { λ s. 0 };

    fn read_at(&mut self, name: &str, at: u64, buf: &mut [u8]) -> Result<usize, Failed>
        ensures count { IfOk result (λ count. count ≡ min (length buf.old) (length (bytes_of self.old name.now) - at)) }
        ensures content { IfOk result (λ count. IsReadAt (content_steadily self.old name.now) at count buf.new) }
        ensures end { IfOk result (λ count. count ≡ 0 → 0 < length buf.old → EndsBy (content_steadily self.old name.now) at) }
        ensures steady { IsOk result }
        ensures inputs { self.new ≡ self.old }
    {
        match self.inputs.find(name) {
            Some(content) => Ok(copy_from(content, at, buf)),
            None => Ok(0),
        }
    }
}
