//! The directories that a walk goes through.
ghost use Rattle.std.specs.Prelude.{◌≡◌, ℕ, List};
ghost use Rattle.path_lookup.specs.Finding.{Finding, finding};

use abi_base::ObjId;

/// What a name is in a directory.
#[derive(Clone, Copy)]
pub enum Found<'a> {
    /// The directory has no such name.
    Nothing,
    /// A directory.
    Directory(ObjId),
    /// A file, or anything else that is neither directory nor symlink.
    File(ObjId),
    /// A symlink, and its text.
    Link(ObjId, &'a [u8]),
}

/// Directories, and the names in them.
pub trait Dirs {
    // By the number of a directory and the bytes of a name: what the name is there.
    ghost finds: { Self → ℕ → List ℕ → Finding };

    /// What a name is in a directory.
    fn find(&self, dir: ObjId, name: &[u8]) -> Found<'_>
        ensures { finding result ≡ finds self.now dir name.now };
}
