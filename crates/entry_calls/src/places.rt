//! The last name of a path, and where it stands.
ghost use Rattle.std.specs.Prelude.{◌≡◌, Some, option_copied};
ghost use Rattle.kernel_model.specs.Families.LastNames as model;
ghost use Rattle.entry_calls.specs.Places.{last_of_place};

use abi_types::{Errno, ObjId, OpenKind};
use file_calls::{PathFault, walked};
use file_tree::Tree;
use path_lookup::{End, WalkMode};

/// Where a name stands: in this directory, and in its path behind so many bytes, with this length in bytes.
#[derive(Clone, Copy)]
pub struct NamePlace {
    pub dir: ObjId,
    pub from: u64,
    pub len: u64,
}

/// The bytes of a path from a place on, so many, or as many as there are.
pub(crate) fn name_at(path: &[u8], from: u64, len: u64) -> &[u8]
    ensures { result.now ≡ model.name_at path.now from len }
{
    let from = (from as usize).min(path.len());
    let rest = &path[from..];
    let len = (len as usize).min(rest.len());
    &rest[..len]
}

// Whether it is `.`, which a slash at the end adds without a byte, or `..`.
fn is_dots(name: &[u8]) -> bool
    ensures { result ≡ model.is_dots name.now }
{
    name.is_empty() || name == b".".as_slice() || name == b"..".as_slice()
}

// The last name of a path, by the end of a walk that stops before it.
fn last_of(path: &[u8], end: &End) -> Result<NamePlace, PathFault>
    ensures { last_of_place path.now result ≡ model.last_of_end path.now end.now }
{
    match end {
        End::Last { dir, from, len } => {
            if is_dots(name_at(path, *from, *len)) {
                return Err(PathFault::Errno(Errno::Inval));
            }
            Ok(NamePlace {
                dir: *dir,
                from: *from,
                len: *len,
            })
        }
        End::Absent { .. } => Err(PathFault::Errno(Errno::Noent)),
        End::Found(_) => Err(PathFault::Errno(Errno::Inval)),
    }
}

/// The last name of a path from an open.
pub(crate) fn last_name(tree: &Tree, path: &[u8], kind: &OpenKind) -> Result<NamePlace, PathFault>
    ensures { last_of_place path.now result ≡ model.last_name tree.now path.now (Some kind.now) }
{
    let end = walked(tree, WalkMode::Parent, path, kind)?;
    last_of(path, &end)
}

/// The same, where there is an open.
pub(crate) fn last_name_in(
    tree: &Tree,
    path: &[u8],
    kind: Option<&OpenKind>,
) -> Result<NamePlace, PathFault>
    ensures { last_of_place path.now result ≡ model.last_name tree.now path.now (option_copied kind.entry) }
{
    match kind {
        Some(kind) => last_name(tree, path, kind),
        None => Err(PathFault::Errno(Errno::Badf)),
    }
}
