//! Names with their bytes, in memory.
ghost use Rattle.std.specs.Prelude.{◌≡◌, ◌∷◌, [], List, length, take, drop, ◌-◌, min, OnOk, OnErr};
ghost use Rattle.std.specs.Option.{option_copied};
ghost use Rattle.input_output.specs.Memory.{given};

use lists::Bytes;
use std::alloc::{AllocError, Global};
use std::marker::Model;

/// A name and its bytes.
#[derive(Drop)]
pub struct Input {
    pub name: Bytes,
    pub bytes: Bytes,
}

/// Names with their bytes, those given last first.
#[derive(Drop)]
pub struct Inputs {
    inputs: Vec<Input>,
}

impl Model for Inputs {
    ghost use Rattle.std.specs.Prelude.{List};
    ghost use Rattle.input_output.specs.declared.inputs.Input.{Input};

    ghost Value = { List Input };

    ghost view = { λ a. a.inputs.items };
}

impl Inputs {
    /// No name.
    pub fn new(alloc: Global) -> Self
        ensures { result ≡ [] }
    {
        Inputs {
            inputs: Vec::new(alloc),
        }
    }

    /// Gives a name its bytes, in place of those that it had.
    pub fn add(&mut self, name: &str, bytes: &[u8]) -> Result<(), AllocError>
        ensures ok { OnOk result (self.new ≡ record { name = name.now; bytes = bytes.now } ∷ self.old) }
        ensures err { OnErr result (self.new ≡ self.old) }
    {
        let alloc = *self.inputs.allocator();
        let input = Input {
            name: Bytes::of(alloc, name.as_bytes())?,
            bytes: Bytes::of(alloc, bytes)?,
        };
        self.inputs.insert(0, input)?;
        Ok(())
    }

    /// The bytes of a name, where it was given.
    pub fn find(&self, name: &str) -> Option<&[u8]>
        ensures { option_copied result ≡ given self.now name.now }
    {
        for input in &self.inputs {
            if input.name.as_slice() == name.as_bytes() {
                return Some(input.bytes.as_slice());
            }
        }
        None
    }
}

/// Puts the bytes from the place `at` on into the front of `buf`, as many as there are and as it takes; how many.
pub fn copy_from(content: &[u8], at: u64, buf: &mut [u8]) -> usize
    ensures count { result ≡ min (length buf.old) (length content.now - at) }
    ensures bytes { take result buf.new ≡ take result (drop at content.now) }
{
    if at >= content.len() as u64 {
        return 0;
    }
    let rest = &content[at as usize..];
    let count = rest.len().min(buf.len());
    buf[..count].copy_from_slice(&rest[..count]);
    count
}
