//! What calls do to entries of directories.
ghost use Rattle.std.specs.Prelude.{◌≡◌, Some, option_copied};
ghost use Rattle.abi_types.specs.Families.{call_of_entry};
ghost use Rattle.kernel_model.specs.Families.EntryCalls as model;
ghost use Rattle.entry_calls.specs.Done.{IsDone, IsNew};

use crate::failure::Failure;
use crate::making::{file_create, file_symlink};
use crate::moving::{file_link, file_rename};
use crate::removing::file_unlink;
use abi_types::{EntryCall, ObjId, OpenKind};
use file_tree::Tree;
use std::alloc::Global;

/// How many nodes the call makes: 0 or 1.
pub fn new_nodes(call: EntryCall<'_>) -> u32
    ensures { result ≡ (model.name_meaning (call_of_entry call.entry)).new_nodes }
{
    match call {
        EntryCall::FileCreate { .. } | EntryCall::FileSymlink { .. } => 1,
        EntryCall::FileLink { .. } | EntryCall::FileRename { .. } | EntryCall::FileUnlink { .. } =>
            0,
    }
}

/// Does a call on names, at this time in nanoseconds since 1970: the tree after it. Its paths begin at these opens; a node that
/// it makes has the number `new`. Returns the node that lost a name, where one did: no other has lost its last one. `Err` changes
/// nothing.
pub fn on_entries(
    alloc: Global,
    tree: &mut Tree,
    here: &OpenKind,
    there: Option<&OpenKind>,
    now: u64,
    new: ObjId,
    call: EntryCall<'_>,
) -> Result<Option<ObjId>, Failure>
    requires { IsNew (model.name_meaning (call_of_entry call)).new_nodes tree.old new }
    ensures { IsDone ((model.name_meaning (call_of_entry call.entry)).effect now new tree.old (Some here.now) (option_copied there.entry)) tree.old tree.new result }
{
    match call {
        EntryCall::FileCreate { path, .. } => file_create(tree, here, now, new, path),
        EntryCall::FileLink {
            lookup,
            path,
            new_path,
            ..
        } => file_link(tree, here, there, now, lookup.flags, path, new_path),
        EntryCall::FileRename { path, new_path, .. } => {
            file_rename(tree, here, there, now, path, new_path)
        }
        EntryCall::FileSymlink { text, path, .. } => {
            file_symlink(alloc, tree, here, now, new, text, path)
        }
        EntryCall::FileUnlink { path, flags, .. } => { file_unlink(tree, here, now, path, flags) }
    }
}
