//! The way through the lines of a text.
ghost use Rattle.std.specs.Prelude.{◌≡◌, ◌+◌, [], OnOk};
ghost use Rattle.rv_asm.specs.Lines.{label_of, size_of, with_label};
ghost use Rattle.rv_syntax.specs.Names.{rows};

use crate::statement::{Statement, size};
use rv_syntax::Label;
use std::alloc::{AllocError, Global};

/// A place before a line.
#[derive(Drop)]
pub struct Place<'a> {
    /// The labels of the lines before it, with their addresses.
    pub labels: Vec<Label<'a>>,
    /// How many bytes the lines before it take.
    pub address: u64,
}

impl<'a> Place<'a> {
    /// The place before the first line.
    pub fn start(alloc: Global) -> Self
        ensures labels { rows result.labels.items ≡ [] }
        ensures address { result.address ≡ 0 }
    {
        Place {
            labels: Vec::new(alloc),
            address: 0,
        }
    }

    /// Goes past a line. `Err` may leave any place: where memory runs out, or where an address needs more than 64 bits.
    pub fn pass(&mut self, line: &'a [u8]) -> Result<(), AllocError>
        ensures labels { OnOk result (rows self.new.labels.items ≡ with_label (rows self.old.labels.items) self.old.address (label_of line.now)) }
        ensures address { OnOk result (self.new.address ≡ self.old.address + size_of line.now) }
    {
        let Statement { label, content } = Statement::of(line);
        if let Some(name) = label {
            self.labels.push((name, Some(self.address)))?;
        }
        let Some(address) = self.address.checked_add(size(content) as u64) else {
            return Err(AllocError);
        };
        self.address = address;
        Ok(())
    }
}
