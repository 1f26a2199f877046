//! Why a call on names isn't done.
ghost use Rattle.std.specs.Prelude.{◌≡◌};
ghost use Rattle.kernel_model.specs.Families.NameMaking as making;
ghost use Rattle.file_calls.specs.declared.paths.PathFault.TheVariants as path_fault;
ghost use Rattle.entry_calls.specs.Done.{failure_of};
ghost use Rattle.entry_calls.specs.declared.failure.Failure.TheVariants.{Refused, NoMemory};

use abi_types::Errno;
use file_calls::PathFault;
use std::alloc::AllocError;
use tree_model::TreeFault;

/// Why a call on names isn't done. The tree stays as it is.
#[derive(Clone, Copy, Debug, PartialEq, Eq)]
pub enum Failure {
    /// It is refused.
    Refused(PathFault),
    /// Memory ran out.
    NoMemory,
}

impl From<PathFault> for Failure {
    ghost from_gives = { λ refusal failure. failure ≡ Refused refusal };

    fn from(refusal: PathFault) -> Failure {
        Failure::Refused(refusal)
    }
}

impl From<AllocError> for Failure {
    ghost from_gives = { λ _ failure. failure ≡ NoMemory };

    fn from(_error: AllocError) -> Failure {
        Failure::NoMemory
    }
}

/// A call is refused with this error.
pub fn refused_with(errno: Errno) -> Failure
    ensures { result ≡ Refused (path_fault.Errno errno) }
{
    Failure::Refused(PathFault::Errno(errno))
}

/// The error for a fault of the tree. Lack of memory is none, and has that of a node that isn't there.
pub fn errno_of(fault: TreeFault) -> Errno
    ensures { result ≡ making.errno_of fault }
{
    match fault {
        TreeFault::Absent => Errno::Noent,
        TreeFault::Taken => Errno::Exist,
        TreeFault::NotDirectory => Errno::Notdir,
        TreeFault::IsDirectory => Errno::Isdir,
        TreeFault::NotEmpty => Errno::Notempty,
        TreeFault::Below => Errno::Inval,
        TreeFault::Links => Errno::Mlink,
        TreeFault::TooLarge => Errno::Fbig,
        TreeFault::NoMemory => Errno::Badf,
    }
}

/// Why a call isn't done that the tree refuses for this fault.
pub fn failed(fault: TreeFault) -> Failure
    ensures { result ≡ failure_of making.errno_of fault }
{
    match fault {
        TreeFault::NoMemory => Failure::NoMemory,
        _ => refused_with(errno_of(fault)),
    }
}
