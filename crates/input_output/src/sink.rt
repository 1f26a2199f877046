//! One output.
ghost use Rattle.std.specs.Prelude.{◌≡◌, ◌<◌, ◌≤◌, ℕ, List, length, take, Option, IfOk, OnErr};
ghost use Rattle.input_output.specs.Source.{Rose};
ghost use Rattle.input_output.specs.Sink.{grown, GrewByPrefix};

use crate::source::Failed;

/// An output, written in pieces.
pub trait Sink {
    // All bytes written, or nothing, where the sink doesn't show them.
    ghost written: { Self → Option (List ℕ) };

    // How many writes failed. It never falls.
    ghost faults: { Self → ℕ };

    /// Writes the first bytes of a piece; how many. Of a piece that isn't empty at least one byte is written.
    fn write(&mut self, bytes: &[u8]) -> Result<usize, Failed>
        ensures faults_never_fall { faults self.old ≤ faults self.new }
        ensures at_most { IfOk result (λ count. count ≤ length bytes.now) }
        ensures at_least { IfOk result (λ count. 0 < length bytes.now → 0 < count) }
        ensures ok { IfOk result (λ count. written self.new ≡ grown (written self.old) (take count bytes.now)) }
        ensures failed { OnErr result (Rose (faults self.old) (faults self.new)) }
        ensures failed_prefix { OnErr result (GrewByPrefix (written self.old) (written self.new) bytes.now) };
}
