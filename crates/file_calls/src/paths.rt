//! Where the path of a call leads, and why a call goes no further whose path leads nowhere.
ghost use Rattle.std.specs.Prelude.{◌≡◌, ◌<◌, ◌^◌, Some, Err};
ghost use Rattle.std.specs.Str.{is_utf8};
ghost use Rattle.path_lookup.proofs.Outside.{LeavesBy};
ghost use Rattle.abi_types.specs.declared.descriptor.Denial.TheVariants as denial;
ghost use Rattle.kernel_model.specs.Families.FilePaths as paths;
ghost use Rattle.kernel_model.specs.Reply.{denied};
ghost use Rattle.file_calls.specs.Walks.{end_or_refusal, node_at, node_or_refusal, reply_of};

use abi_types::flags::LOOKUP_SYMLINK_FOLLOW;
use abi_types::{Denial, Errno, ObjId, OpenKind, Reply};
use file_tree::Tree;
use path_lookup::{End, WalkFault, WalkMode};
use right_rules::refused;
use std::str;

// The most bytes of a path.
const LONGEST_PATH: usize = 1024;

/// Why a call by a path goes no further.
#[derive(Clone, Copy, Debug, PartialEq, Eq)]
pub enum PathFault {
    /// This error.
    Errno(Errno),
    /// The path leads outside the directory where it begins, at the component with this index, counted from 0.
    Outside(u32),
}

// A call is denied for a path that leads outside at this component.
fn denied_outside(component: u32) -> Reply
    ensures { result ≡ denied (denial.Outside component) }
{
    Reply {
        denial: Some(Denial::Outside { component }),
        ..refused(Errno::Notcapable)
    }
}

/// What a call answers that is refused.
pub fn reply_of(refusal: PathFault) -> Reply
    ensures { result ≡ reply_of refusal }
{
    match refusal {
        PathFault::Errno(errno) => refused(errno),
        PathFault::Outside(component) => denied_outside(component),
    }
}

/// What a walk does with a symlink that is last, by a call's lookup flags.
pub fn lookup_mode(flags: u32) -> WalkMode
    ensures { result ≡ paths.lookup_mode flags }
{
    if flags & LOOKUP_SYMLINK_FOLLOW == 0 {
        WalkMode::NoFollow
    } else {
        WalkMode::Follow
    }
}

fn is_utf8(bytes: &[u8]) -> bool
    ensures { result ≡ is_utf8 bytes.now }
{
    str::from_utf8(bytes).is_ok()
}

/// The error of a path's bytes, if there is one.
pub fn path_error(path: &[u8]) -> Option<Errno>
    ensures { result ≡ paths.path_error path.now }
{
    if path.len() > LONGEST_PATH {
        Some(Errno::NameTooLong)
    } else if !is_utf8(path) {
        Some(Errno::Ilseq)
    } else if path.contains(&0) {
        Some(Errno::Inval)
    } else {
        None
    }
}

// What a walk comes to that has no end.
fn walk_failed(fault: WalkFault) -> PathFault
    requires { LeavesBy 1024 (Err fault) }
    ensures { Err result ≡ end_or_refusal (paths.walk_failed fault) }
{
    match fault {
        WalkFault::NotDir => PathFault::Errno(Errno::Notdir),
        WalkFault::NoEntry => PathFault::Errno(Errno::Noent),
        WalkFault::Loop => PathFault::Errno(Errno::Loop),
        WalkFault::TooLong => PathFault::Errno(Errno::NameTooLong),
        WalkFault::Outside(component) => PathFault::Outside(component as u32),
    }
}

// The walk of a path from a directory.
fn walked_in(tree: &Tree, mode: WalkMode, path: &[u8], start: ObjId) -> Result<End, PathFault>
    ensures { result ≡ end_or_refusal (paths.walked_in tree.now mode path.now start) }
{
    if let Some(errno) = path_error(path) {
        return Err(PathFault::Errno(errno));
    }
    match tree.walk(start, path, mode) {
        Ok(end) => Ok(end),
        Err(fault) => Err(walk_failed(fault)),
    }
}

/// Where the path leads from the open, or why it leads nowhere. What is no directory is a bad
/// descriptor.
pub fn walked(tree: &Tree, mode: WalkMode, path: &[u8], kind: &OpenKind) -> Result<End, PathFault>
    ensures { result ≡ end_or_refusal (paths.walked tree.now mode path.now (Some kind.now)) }
{
    match kind {
        OpenKind::Directory { node, .. } => walked_in(tree, mode, path, *node),
        OpenKind::File { .. }
        | OpenKind::End { .. }
        | OpenKind::Terminal { .. }
        | OpenKind::Process { .. } => Err(PathFault::Errno(Errno::Badf)),
    }
}

// The node at which a walk ends.
fn node_at(end: End) -> Result<ObjId, PathFault>
    ensures { result ≡ node_at end }
{
    match end {
        End::Found(node) => Ok(node),
        End::Absent { .. } | End::Last { .. } => Err(PathFault::Errno(Errno::Noent)),
    }
}

/// The node to which the path leads from the open. A name that isn't there is no entry.
pub fn found(tree: &Tree, mode: WalkMode, path: &[u8], kind: &OpenKind) -> Result<ObjId, PathFault>
    ensures { result ≡ node_or_refusal (paths.walked tree.now mode path.now (Some kind.now)) }
{
    match walked(tree, mode, path, kind) {
        Ok(end) => node_at(end),
        Err(refusal) => Err(refusal),
    }
}
