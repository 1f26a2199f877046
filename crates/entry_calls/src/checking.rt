//! What a call that makes a node would be refused for, where its process can make no more.
ghost use Rattle.std.specs.Prelude.{◌≡◌, ℕ, Option, Some};
ghost use Rattle.abi_types.specs.Families.{call_of_entry};
ghost use Rattle.abi_types.specs.declared.node.NodeKind.{NodeKind};
ghost use Rattle.abi_types.specs.declared.open_kind.OpenKind.{OpenKind};
ghost use Rattle.kernel_model.specs.Families.EntryCalls as model;
ghost use Rattle.kernel_model.specs.Families.NameMaking.{making};
ghost use Rattle.entry_calls.specs.Checks.{IsReported};

use crate::failure::errno_of;
use crate::making::text_error;
use crate::places::{last_name, name_at};
use abi_types::{EntryCall, OpenKind};
use file_calls::PathFault;
use file_tree::Tree;

// Why no node is made by the path from this open, whatever its kind.
fn check_path(tree: &Tree, here: &OpenKind, path: &[u8]) -> Result<(), PathFault>
    ensures { (kind : NodeKind) (now new : ℕ) (there : Option OpenKind) → IsReported ((making kind path.now).effect now new tree.now (Some here.now) there) result }
{
    let place = last_name(tree, path, here)?;
    match tree.check_make(place.dir, name_at(path, place.from, place.len)) {
        Ok(()) => Ok(()),
        Err(fault) => Err(PathFault::Errno(errno_of(fault))),
    }
}

/// Why a call that makes a node is refused, whatever the number of the node: `Ok` where it would make one, and where the call
/// makes none. Nothing changes.
pub fn check_entries(tree: &Tree, here: &OpenKind, call: EntryCall<'_>) -> Result<(), PathFault>
    ensures { (model.name_meaning (call_of_entry call.entry)).new_nodes ≡ 1 → (now new : ℕ) (there : Option OpenKind)
        → IsReported ((model.name_meaning (call_of_entry call.entry)).effect now new tree.now (Some here.now) there) result }
{
    match call {
        EntryCall::FileCreate { path, .. } => check_path(tree, here, path),
        EntryCall::FileSymlink { text, path, .. } => match text_error(text) {
            Some(errno) => Err(PathFault::Errno(errno)),
            None => check_path(tree, here, path),
        },
        EntryCall::FileLink { .. } | EntryCall::FileRename { .. } | EntryCall::FileUnlink { .. } =>
            { Ok(()) }
    }
}
