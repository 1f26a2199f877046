//! What a signal does to the process that raises it.
ghost use Rattle.std.specs.Prelude.{◌≡◌};
ghost use Rattle.kernel_model.specs.Families.ProcessCalls.{signal_of};
ghost use Rattle.process_calls.specs.Signals.{raised_as};

use abi_types::Signal;

/// What a signal does to the process that raises it.
#[derive(Clone, Copy)]
pub enum Raised {
    /// There is no signal of this number.
    Unknown,
    /// It would stop the process, which no process can be.
    Stops,
    /// It leaves the process as it is.
    Passes,
    /// It ends the process.
    Ends(Signal),
}

/// What the signal with this number does to the process that raises it.
pub fn effect_of(number: u32) -> Raised
    ensures { result ≡ raised_as (signal_of number) }
{
    match number {
        1 => Raised::Ends(Signal::Abrt),
        2 => Raised::Ends(Signal::Alrm),
        3 => Raised::Ends(Signal::Bus),
        6 => Raised::Ends(Signal::Fpe),
        7 => Raised::Ends(Signal::Hup),
        8 => Raised::Ends(Signal::Ill),
        9 => Raised::Ends(Signal::Int),
        10 => Raised::Ends(Signal::Kill),
        11 => Raised::Ends(Signal::Pipe),
        12 => Raised::Ends(Signal::Quit),
        13 => Raised::Ends(Signal::Segv),
        15 => Raised::Ends(Signal::Sys),
        16 => Raised::Ends(Signal::Term),
        17 => Raised::Ends(Signal::Trap),
        22 => Raised::Ends(Signal::Usr1),
        23 => Raised::Ends(Signal::Usr2),
        24 => Raised::Ends(Signal::Vtalrm),
        25 => Raised::Ends(Signal::Xcpu),
        26 => Raised::Ends(Signal::Xfsz),
        4 | 5 | 21 => Raised::Passes,
        14 | 18..=20 => Raised::Stops,
        _ => Raised::Unknown,
    }
}
