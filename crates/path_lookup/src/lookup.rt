//! The walk of a path.
ghost use Rattle.std.specs.Prelude.{◌≡◌, []};
ghost use Rattle.path_lookup.specs.Laws.{StaysBelow, EndsAtPlace};
ghost use Rattle.path_lookup.specs.Walk.{walk_of, walk_within};
ghost use Rattle.path_lookup.specs.Walking.{IsReady, left_of, parents_of};

use crate::directories::Dirs;
use crate::ends::{End, WalkFault, WalkMode};
use crate::frames::is_absolute;
use crate::walker::{MOST_COMPONENTS, Turn, Walker};
use abi_base::ObjId;

// The components that are left, each treated in its turn.
fn walk_on<'a, D: Dirs>(
    dirs: &'a D,
    walker: &mut Walker<'a>,
    mode: WalkMode,
) -> Result<End, WalkFault>
    requires ready { IsReady walker.old }
    requires start { walker.old.above.items ≡ [] }
    ensures { result ≡ walk_within (D.finds dirs.now) mode 1024 walker.old.links walker.old.top (parents_of walker.old) (left_of walker.old) }
{
    for _treated in 0..MOST_COMPONENTS {
        match walker.turn(dirs, mode) {
            Turn::On => {}
            Turn::Done(end) => return end,
        }
    }
    walker.spent()
}

/// Where the path leads from a directory, or why it leads nowhere. It takes no memory.
///
/// The path is bytes, split at each slash. Names of no bytes are passed over, and a slash at the end adds a `.`. A `.` is
/// dropped, and a `..` leads back to the directory before. Where the walk stands at its start a `..` is `Outside`, as is
/// a path that begins with a slash. A symlink's text takes its place, up to 32 times. Names have at most 255 bytes, and at
/// most 1024 components are treated. `WalkMode` says what is done at the last component.
pub fn walk<D: Dirs>(dirs: &D, start: ObjId, path: &[u8], mode: WalkMode) -> Result<End, WalkFault>
    ensures walked { result ≡ walk_of (D.finds dirs.now) mode start path.now }
    ensures below { StaysBelow (D.finds dirs.now) start result }
    ensures place { EndsAtPlace path.now result }
{
    if path.is_empty() {
        return Err(WalkFault::NoEntry);
    }
    if is_absolute(path) {
        return Err(WalkFault::Outside(0));
    }
    walk_on(dirs, &mut Walker::new(start, path), mode)
}
