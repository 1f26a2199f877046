//! Faults inside a line.
ghost use Rattle.std.specs.Prelude.{◌≡◌};
ghost use Rattle.lists.specs.declared.stop.Stop.TheVariants.{At};

use crate::kind::YamlKind;
use lists::Stop;

/// A fault in a line. Its place is given by how many bytes of the line stand behind it, its own included.
#[derive(Clone, Copy, Drop)]
pub struct LineFault {
    /// How many bytes there are from the fault's place to the line's end.
    pub left: usize,
    /// What is wrong.
    pub kind: YamlKind,
}

impl LineFault {
    /// The stop for a fault at a place, which so many bytes of the line stand behind, its own included.
    pub fn stop(left: usize, kind: YamlKind) -> Stop<LineFault>
        ensures { result ≡ At (record { left = left; kind = kind }) }
    {
        Stop::At(LineFault { left, kind })
    }
}
