//! Why a table is not changed, or not made.
use std::alloc::AllocError;

/// Why a descriptor got no number.
#[derive(Clone, Copy, Debug, PartialEq, Eq)]
pub enum InsertFault {
    /// Each number is taken.
    Full,
    /// Memory ran out.
    NoMemory,
}

/// Why no table was made of the descriptors that a list names.
#[derive(Clone, Copy, Debug, PartialEq, Eq)]
pub enum PickFault {
    /// This number, the first such in the list, has no descriptor.
    Absent(u32),
    /// Memory ran out.
    NoMemory,
}

impl From<AllocError> for InsertFault {
    ghost use Rattle.std.specs.Prelude.{◌≡◌};
    ghost use Rattle.fd_table.specs.declared.faults.InsertFault.TheVariants.{NoMemory};

    ghost from_gives = { λ _ fault. fault ≡ NoMemory };

    fn from(_error: AllocError) -> InsertFault {
        InsertFault::NoMemory
    }
}

impl From<AllocError> for PickFault {
    ghost use Rattle.std.specs.Prelude.{◌≡◌};
    ghost use Rattle.fd_table.specs.declared.faults.PickFault.TheVariants.{NoMemory};

    ghost from_gives = { λ _ fault. fault ≡ NoMemory };

    fn from(_error: AllocError) -> PickFault {
        PickFault::NoMemory
    }
}
