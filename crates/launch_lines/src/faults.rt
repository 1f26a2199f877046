//! Which of two faults comes first.
ghost use Rattle.std.specs.Prelude.{◌≡◌};
ghost use Rattle.launch_lines.specs.Faults.{number_of_kind, comes_before, first_of, first_fault};

use crate::fault::Fault;

// A fault comes before another: its place does, or at one place its kind has the lower number.
fn comes_before(first: Fault, second: Fault) -> bool
    ensures { result ≡ comes_before first second }
{
    if first.line != second.line {
        first.line < second.line
    } else if first.column != second.column {
        first.column < second.column
    } else {
        (first.kind as u8) < second.kind as u8
    }
}

/// The one of two faults that comes first.
pub fn first_of(first: Fault, second: Fault) -> Fault
    ensures { result ≡ first_of first second }
{
    if comes_before(second, first) {
        second
    } else {
        first
    }
}

/// The first of the faults that there are.
pub fn first_fault(first: Option<Fault>, second: Option<Fault>) -> Option<Fault>
    ensures { result ≡ first_fault first second }
{
    match first {
        None => second,
        Some(fault) => match second {
            None => Some(fault),
            Some(other) => Some(first_of(fault, other)),
        },
    }
}
