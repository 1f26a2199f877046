//! Why a change of the tree is refused.
ghost use Rattle.std.specs.Prelude.{◌≡◌};
ghost use Rattle.tree_model.specs.declared.fault.TreeFault.TheVariants.{NoMemory};

use std::alloc::AllocError;

/// Why a change of the tree is refused. A refused change leaves the tree as it is.
#[derive(Clone, Copy, Debug, PartialEq, Eq)]
pub enum TreeFault {
    /// There is no such directory, name or node; or a name would be put into a directory that was removed.
    Absent,
    /// The name is there.
    Taken,
    /// The node isn't a directory, where one is needed.
    NotDirectory,
    /// The node is a directory, where it must be none.
    IsDirectory,
    /// The directory has names.
    NotEmpty,
    /// A directory would come to stand below itself.
    Below,
    /// The node has as many names as a node may have.
    Links,
    /// The file would be larger than a file may be.
    TooLarge,
    /// Memory ran out.
    NoMemory,
}

impl From<AllocError> for TreeFault {
    ghost from_gives = { λ _ fault. fault ≡ NoMemory };

    fn from(_error: AllocError) -> TreeFault {
        TreeFault::NoMemory
    }
}
