//! What is done with a byte of memory.
ghost use Rattle.std.specs.Prelude.{◌≡◌};
ghost use Rattle.guest_memory.specs.Access.{allows};

use abi_base::Prot;

/// What is done with a byte of memory.
#[derive(Clone, Copy)]
pub enum Access {
    Read,
    Write,
    Exec,
}

impl Access {
    /// Whether a page's rights allow this.
    #[inline(always)]
    pub fn is_allowed_by(self, prot: &Prot) -> bool
        ensures { result ≡ allows prot.now self }
    {
        match self {
            Access::Read => prot.read,
            Access::Write => prot.write,
            Access::Exec => prot.exec,
        }
    }
}
