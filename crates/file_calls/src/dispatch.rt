//! What calls do on an open.
ghost use Rattle.std.specs.Prelude.{Some};
ghost use Rattle.abi_types.specs.Families.{call_of_file};
ghost use Rattle.kernel_model.specs.Families.FileCalls as model;
ghost use Rattle.file_calls.specs.Done.{HasSameNodes, IsTreeDone};
ghost use Rattle.file_calls.specs.Opens.{IsThere};

use crate::changes::{file_allocate, file_stat_fput, file_stat_put};
use crate::listings::file_readdir;
use crate::reading::{fd_pread, map_file};
use crate::stats::{file_stat_fget, file_stat_get};
use crate::symlinks::file_readlink;
use crate::writing::fd_pwrite;
use abi_types::{FileCall, OpenKind, Reply};
use file_tree::Tree;
use std::alloc::{AllocError, Global};

/// Does a call on an open, at this time in nanoseconds since 1970: the reply, and the tree after it. `Err` comes only of a call
/// that takes memory and would else succeed, and changes nothing.
pub fn on_open(
    alloc: Global,
    tree: &mut Tree,
    kind: &OpenKind,
    now: u64,
    call: FileCall<'_>,
) -> Result<Reply, AllocError>
    requires { IsThere tree.old kind.now }
    ensures done { IsTreeDone (model.file_meaning (call_of_file call.entry)).takes_memory
        ((model.file_meaning (call_of_file call.entry)).effect now tree.old (Some kind.now)) tree.old tree.new result }
    ensures nodes { HasSameNodes tree.old tree.new }
{
    match call {
        FileCall::FdPread { length, offset, .. } => fd_pread(alloc, tree, kind, length, offset),
        FileCall::FdPwrite { bytes, offset, .. } => { fd_pwrite(tree, kind, now, offset, bytes) }
        FileCall::FileAllocate { offset, length, .. } => {
            file_allocate(tree, kind, now, offset, length)
        }
        FileCall::FileReaddir { length, cookie, .. } => {
            file_readdir(alloc, tree, kind, length, cookie)
        }
        FileCall::FileReadlink { path, length, .. } => {
            file_readlink(alloc, tree, kind, path, length)
        }
        FileCall::FileStatFget { .. } => Ok(file_stat_fget(tree, kind)),
        FileCall::FileStatFput { stat, flags, .. } => file_stat_fput(tree, kind, now, &stat, flags),
        FileCall::FileStatGet { lookup, path } => {
            Ok(file_stat_get(tree, kind, lookup.flags, path))
        }
        FileCall::FileStatPut {
            lookup,
            path,
            stat,
            flags,
        } => Ok(file_stat_put(tree, kind, now, lookup.flags, path, &stat, flags)),
        FileCall::MemMap {
            place,
            length,
            offset,
            ..
        } => map_file(alloc, tree, kind, place, length, offset),
    }
}
