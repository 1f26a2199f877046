//! The standard streams.
ghost use Rattle.std.specs.Prelude.{◌≡◌, ◌++◌, [], IfOk, OnOk, OnErr, take, drop};
ghost use Rattle.kernel_model.specs.Start.{unwritten};

use abi_types::Bytes;
use std::alloc::{AllocError, Global};
use std::marker::Model;

/// A standard stream, in contracts a `Stream`: the bytes that can still be read from it, and those that were written to it.
#[derive(Drop)]
pub struct Terminal {
    input: Bytes,
    // How many bytes of the input were read.
    read: usize,
    written: Bytes,
}

impl Model for Terminal {
    ghost use Rattle.std.specs.Prelude.{drop, ◌≤◌, length};
    ghost use Rattle.abi_types.specs.declared.stream.Stream.{Stream};
    ghost use Rattle.abi_types.specs.contracts.stream.Stream as stream;

    ghost Value = { Stream };

    ghost coded = { stream.the_row.coded };

    ghost view = { λ t. record { left = drop t.read t.input; written = t.written } };

    ghost invariant = { λ t. t.read ≤ length t.input };
}

impl Terminal {
    /// A stream from which these bytes can be read, and to which nothing was written.
    pub fn new(alloc: Global, input: Bytes) -> Self
        ensures { result ≡ unwritten input }
    {
        Terminal {
            input,
            read: 0,
            written: Bytes::new(alloc),
        }
    }

    /// Reads the next bytes, so many or as many as are left. `Err` reads nothing.
    pub fn read(&mut self, alloc: Global, most: u64) -> Result<Bytes, AllocError>
        ensures bytes { IfOk result (λ bytes. bytes ≡ take most self.old.left) }
        ensures ok { OnOk result (self.new ≡ record self.old { left = drop most self.old.left }) }
        ensures err { OnErr result (self.new ≡ self.old) }
    {
        let left = &self.input.as_slice()[self.read..];
        let count = most.min(left.len() as u64) as usize;
        let bytes = Bytes::of(alloc, &left[..count])?;
        self.read += count;
        Ok(bytes)
    }

    /// Writes bytes at the end. `Err` writes nothing.
    pub fn write(&mut self, bytes: &[u8]) -> Result<(), AllocError>
        ensures ok { OnOk result (self.new ≡ record self.old { written = self.old.written ++ bytes.now }) }
        ensures err { OnErr result (self.new ≡ self.old) }
    {
        self.written.append(bytes)
    }

    /// What was written.
    pub fn written(&self) -> &[u8]
        ensures { result.now ≡ self.now.written }
    {
        self.written.as_slice()
    }
}
