//! The output of the program: standard output.
ghost use Rattle.std.specs.Prelude.{◌≡◌, None};

use input_output::{Failed, Sink};

/// Standard output, without a buffer. It shows nothing of what was written. A write that takes nothing of a piece that
/// isn't empty is a fault.
#[derive(Drop)]
pub struct OutSink<'a, R> {
    rt: &'a R,
    faults: u64,
}

impl<'a, R: Print> OutSink<'a, R> {
    /// Nothing written yet, and no fault.
    pub fn new(rt: &'a R) -> Self
        ensures { result.faults ≡ 0 }
    {
        OutSink { rt, faults: 0 }
    }
}

impl<R: Print> Sink for OutSink<'_, R> {
    ghost written = { λ s. None };

    ghost faults = { λ s. s.faults };

    fn write(&mut self, bytes: &[u8]) -> Result<usize, Failed> {
        match self.rt.write_some(bytes) {
            Ok(count) if count > 0 || bytes.is_empty() => Ok(count),
            _ => {
                self.faults = self.faults.saturating_add(1);
                Err(Failed)
            }
        }
    }
}
