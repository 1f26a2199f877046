//! Why a call wasn't read, and the refusal of a call.
ghost use Rattle.std.specs.Prelude.{◌≡◌};
ghost use Rattle.codec_arguments.specs.Reading.{refuse_when};
ghost use Rattle.codec_arguments.specs.declared.fault.ArgumentFault.TheVariants as faults;

use abi_base::Errno;
use std::alloc::{AllocError, AllocFailed};

/// Why a call wasn't read.
#[derive(Clone, Copy, Debug, PartialEq, Eq)]
pub enum ArgumentFault {
    /// The call is refused with this error.
    Errno(Errno),
    /// The host has no memory for the call's arguments.
    NoMemory,
}

impl From<Errno> for ArgumentFault {
    ghost from_gives = { λ errno made. made ≡ faults.Errno errno };

    fn from(errno: Errno) -> ArgumentFault {
        ArgumentFault::Errno(errno)
    }
}

impl From<AllocError> for ArgumentFault {
    ghost from_gives = { λ _ made. made ≡ faults.NoMemory };

    fn from(_error: AllocError) -> ArgumentFault {
        ArgumentFault::NoMemory
    }
}

impl<T: Drop> From<AllocFailed<T>> for ArgumentFault {
    ghost from_gives = { λ _ made. made ≡ faults.NoMemory };

    fn from(_error: AllocFailed<T>) -> ArgumentFault {
        ArgumentFault::NoMemory
    }
}

/// Refuses a call with the error where the test holds.
pub fn refuse_when(test: bool, errno: Errno) -> Result<(), Errno>
    ensures { result ≡ refuse_when test errno }
{
    if test { Err(errno) } else { Ok(()) }
}
