//! What calls do at an open's offset.
ghost use Rattle.abi_types.specs.Families.{call_of_offset};
ghost use Rattle.kernel_model.specs.Calls.{takes_memory};
ghost use Rattle.fd_calls.specs.Calls as model;
ghost use Rattle.fd_calls.specs.AtOffset.{IsOffsetDone};
ghost use Rattle.file_calls.specs.Done.{HasSameNodes};
ghost use Rattle.file_calls.specs.Opens.{IsThere};

use crate::seeking::fd_seek;
use crate::transfers::{fd_read, fd_write};
use abi_types::{OffsetCall, OpenKind, Reply};
use file_tree::Tree;
use std::alloc::{AllocError, Global};

/// Reads, writes or seeks by an open, at this time in nanoseconds since 1970: the reply, and the tree and the open after it.
/// `Err` comes only of a call that takes memory and would else succeed, and changes nothing.
pub fn at_offset(
    alloc: Global,
    tree: &mut Tree,
    kind: &mut OpenKind,
    now: u64,
    call: OffsetCall<'_>,
) -> Result<Reply, AllocError>
    requires { IsThere tree.old kind.old }
    ensures done { IsOffsetDone (takes_memory (call_of_offset call.entry)) (model.offset_outcome_of now tree.old (call_of_offset call.entry) kind.old) tree.old tree.new kind.old kind.new result }
    ensures nodes { HasSameNodes tree.old tree.new }
{
    match call {
        OffsetCall::FdRead { length, .. } => fd_read(alloc, tree, kind, length),
        OffsetCall::FdSeek { offset, whence, .. } => Ok(fd_seek(tree, kind, offset, whence)),
        OffsetCall::FdWrite { bytes, .. } => fd_write(tree, kind, now, bytes),
    }
}
