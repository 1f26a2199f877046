//! Named inputs.
ghost use Rattle.std.specs.Prelude.{◌≡◌, ◌<◌, ◌≤◌, ℕ, List, length, IfOk, IsErr, OnErr};
ghost use Rattle.input_output.specs.Source.{InputContent, Lacking, Rose, IsReadAt, EndsBy};

/// A read or a write that failed. The source or the sink counts it.
#[derive(Clone, Copy, Debug, PartialEq, Eq)]
pub struct Failed;

/// Inputs with names, read in pieces.
pub trait Source {
    // By the bytes of a name: what is known of its content.
    ghost content: { Self → List ℕ → InputContent };

    // By the bytes of a name: whether it may be read.
    ghost may_read: { Self → List ℕ → Type 0 };

    // How many reads failed. It never falls.
    ghost faults: { Self → ℕ };

    /// Reads bytes of an input from the place `at` on, counted from 0, into the front of `buf`; the number of bytes
    /// read. 0 for a buffer that isn't empty says that no byte stands there or after it.
    fn read_at(&mut self, name: &str, at: u64, buf: &mut [u8]) -> Result<usize, Failed>
        requires { may_read self.old name.now }
        ensures content_stays { (n : List ℕ) → content self.new n ≡ content self.old n }
        ensures may_read_stays { (n : List ℕ) → may_read self.old n → may_read self.new n }
        ensures faults_never_fall { faults self.old ≤ faults self.new }
        ensures at_most { IfOk result (λ count. count ≤ length buf.old) }
        ensures content { IfOk result (λ count. IsReadAt (content self.old name.now) at count buf.new) }
        ensures end { IfOk result (λ count. count ≡ 0 → 0 < length buf.old → EndsBy (content self.old name.now) at) }
        ensures lacking { content self.old name.now ≡ Lacking → IsErr result }
        ensures failed { OnErr result (Rose (faults self.old) (faults self.new)) };
}
