//! Paths of a tree document.
ghost use Rattle.std.specs.Prelude.{◌≡◌, ◌<◌, ◌≤◌, ◌-◌, drop, length, slice_index};
ghost use Rattle.tree_records.specs.Paths.{HasNoSlash, IsPath, name_of, parent, path_bytes};

use std::marker::Model;

/// A path below the root, as a record of a tree document may have it: the names of the directories on the way, and the node's
/// own name. Contracts see the list of the names.
#[derive(Drop)]
pub struct Path {
    // The names with a `/` between two.
    pub(crate) bytes: Vec<u8>,
}

impl Model for Path {
    ghost use Rattle.std.specs.Prelude.{List, ℕ};
    ghost use Rattle.tree_records.specs.Paths.{IsPath};
    ghost use Rattle.tree_records.specs.Reading.{names_in};

    ghost Value = { List (List ℕ) };

    ghost view = { λ a. names_in a.bytes.items };

    ghost invariant = { λ a. IsPath (names_in a.bytes.items) };
}

impl Path {
    /// The names with a `/` between two.
    pub fn as_bytes(&self) -> &[u8]
        ensures bytes { result.now ≡ path_bytes self.now }
        ensures path { IsPath self.now }
    {
        &self.bytes
    }

    /// The path of the directory that the last name is in: the other names with a `/` between two, so no bytes where that is
    /// the root.
    pub fn parent(&self) -> &[u8]
        ensures bytes { result.now ≡ path_bytes (parent self.now) }
        ensures path { IsPath self.now }
    {
        let bytes = self.bytes.as_slice();
        &bytes[..name_start(bytes).saturating_sub(1)]
    }

    /// The last name.
    pub fn name(&self) -> &[u8]
        ensures { result.now ≡ name_of self.now }
    {
        let bytes = self.bytes.as_slice();
        &bytes[name_start(bytes)..]
    }
}

// Where the last name begins: behind the last slash, if there is one.
fn name_start(bytes: &[u8]) -> usize
    ensures inside { result ≤ length bytes.now }
    ensures name { HasNoSlash (drop result bytes.now) }
    ensures slash { 0 < result → slice_index bytes.now (result - 1) ≡ 47 }
{
    let mut start = bytes.len();
    while start > 0 && bytes[start - 1] != b'/' {
        start -= 1;
    }
    start
}
