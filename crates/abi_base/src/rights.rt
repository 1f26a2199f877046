//! Rights of descriptors.
ghost use Rattle.std.specs.Prelude.{⊤, ◌≡◌, ◌↔◌, ℕ, ◌<◌, IsTrue, option_map};
ghost use Rattle.abi_base.specs.Rights.{Has, has_all, meet_of, minus_of, names};
ghost use Rattle.bitflags.specs.Sets.{find_name};

use bitflags::{Flag, Flags, bitflag_items};

/// A set of rights, one bit a right, with CloudABI's names and this profile's bits (docs/ABI.md).
#[derive(Clone, Copy, Debug, Default, PartialEq, Eq)]
pub struct Rights(pub u64);

bitflag_items! {
    impl Rights: u64 {
        const FD_DATASYNC = 0x1;
        const FD_READ = 0x2;
        const FD_SEEK = 0x4;
        const FD_STAT_PUT_FLAGS = 0x8;
        const FD_SYNC = 0x10;
        const FD_TELL = 0x20;
        const FD_WRITE = 0x40;
        const FILE_ADVISE = 0x80;
        const FILE_ALLOCATE = 0x100;
        const FILE_CREATE_DIRECTORY = 0x200;
        const FILE_CREATE_FILE = 0x400;
        const FILE_LINK_SOURCE = 0x1000;
        const FILE_LINK_TARGET = 0x2000;
        const FILE_OPEN = 0x4000;
        const FILE_READDIR = 0x8000;
        const FILE_READLINK = 0x10000;
        const FILE_RENAME_SOURCE = 0x20000;
        const FILE_RENAME_TARGET = 0x40000;
        const FILE_STAT_FGET = 0x80000;
        const FILE_STAT_FPUT_SIZE = 0x100000;
        const FILE_STAT_FPUT_TIMES = 0x200000;
        const FILE_STAT_GET = 0x400000;
        const FILE_STAT_PUT_TIMES = 0x800000;
        const FILE_SYMLINK = 0x1000000;
        const FILE_UNLINK = 0x2000000;
        const MEM_MAP = 0x4000000;
        const MEM_MAP_EXEC = 0x8000000;
        const POLL_FD_READWRITE = 0x10000000;
        const POLL_PROC_TERMINATE = 0x40000000;
        const PROC_EXEC = 0x100000000;
        const SOCK_SHUTDOWN = 0x8000000000;
    }
}

impl Flags for Rights {
    type Bits = u64;

    ghost exact = { ⊤ };

    ghost table = { names };

    ghost set_of = { λ r. r.0 };

    fn flags<'a>() -> &'a [Flag<Rights>] {
        Rights::FLAGS
    }

    fn bits(&self) -> u64 {
        self.0
    }

    fn from_bits_retain(bits: u64) -> Rights {
        Rights(bits)
    }
}

impl Rights {
    /// No right.
    pub const NONE: Rights = Rights(0);

    /// Whether each of the other rights is in the set.
    pub fn contains(self, other: Rights) -> bool
        ensures { result ≡ has_all self.0 other.0 }
    {
        self.0 & other.0 == other.0
    }

    /// The rights that are in both sets.
    pub fn meet(self, other: Rights) -> Rights
        ensures bits { result.0 ≡ meet_of self.0 other.0 }
        ensures each { (k : ℕ) → Has result.0 k ↔ (Has self.0 k × Has other.0 k) }
    {
        Rights(self.0 & other.0)
    }

    /// The rights of this set that the other lacks.
    pub fn minus(self, other: Rights) -> Rights
        ensures bits { result.0 ≡ minus_of self.0 other.0 }
        ensures each { (k : ℕ) → k < 64 → Has result.0 k ↔ (Has self.0 k × ¬ Has other.0 k) }
    {
        Rights(self.0 & !other.0)
    }

    /// The right of this name. `None` exactly for a text that is no right's name.
    pub fn from_name(name: &str) -> Option<Rights>
        ensures { option_map (λ r. r.0) result ≡ find_name names name.now }
    {
        <Rights as Flags>::from_name(name)
    }
}
