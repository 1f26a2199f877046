//! Changes of a file's size, and of the times of a node.
ghost use Rattle.std.specs.Prelude.{◌≡◌, ◌+◌, ◌≤◌, ◌==◌, bit_and, true, OnOk, OnErr, Some};
ghost use Rattle.abi_types.specs.declared.node.Times.{Times};
ghost use Rattle.abi_types.specs.declared.reply.Answer.TheVariants as answer;
ghost use Rattle.tree_model.specs.Changes.{is_file};
ghost use Rattle.tree_model.specs.declared.limits.TheConstants.{MOST_FILE_BYTES};
ghost use Rattle.kernel_model.specs.Families.FileChanges as model;
ghost use Rattle.kernel_model.specs.Families.FilePaths as paths;
ghost use Rattle.file_calls.specs.Done.{HasSameNodes, IsDone, IsTreeDone};
ghost use Rattle.file_calls.specs.Opens.{IsThere};

use crate::paths::{found, lookup_mode, reply_of};
use abi_structures::FileStat;
use abi_types::flags::{
    FILESTAT_ATIM, FILESTAT_ATIM_NOW, FILESTAT_MTIM, FILESTAT_MTIM_NOW, FILESTAT_SIZE,
    FILESTAT_TIMES,
};
use abi_types::{Errno, ObjId, OpenKind, Reply, Times};
use file_tree::Tree;
use right_rules::{refused, success};
use std::alloc::AllocError;
use tree_model::MOST_FILE_BYTES;

// ---- parts of changes

/// The bytes of a file, or the names in a directory, have changed now. Nothing changes where there is no such node.
pub fn set_modified(tree: &mut Tree, node: ObjId, now: u64)
    ensures { tree.new ≡ model.retimed tree.old node (model.modified now) }
{
    if let Some(found) = tree.node(node) {
        let atim = found.times.atim;
        tree.set_times(
            node,
            Times {
                atim,
                mtim: now,
                ctim: now,
            },
        );
    }
}

/// The file has this size. One that it has already changes nothing. `Err` changes nothing.
pub fn set_size(tree: &mut Tree, node: ObjId, now: u64, size: u64) -> Result<(), AllocError>
    requires file { is_file tree.old node ≡ true }
    requires small { size ≤ MOST_FILE_BYTES }
    ensures ok { OnOk result (tree.new ≡ model.sized tree.old node now size) }
    ensures err { OnErr result (tree.new ≡ tree.old) }
{
    if tree.bytes(node).len() as u64 == size {
        return Ok(());
    }
    match tree.set_size(node, size) {
        Ok(()) => {
            set_modified(tree, node, now);
            Ok(())
        }
        Err(_) => Err(AllocError),
    }
}

// The file has at least this size. `Err` changes nothing.
fn set_least_size(tree: &mut Tree, node: ObjId, now: u64, size: u64) -> Result<(), AllocError>
    requires file { is_file tree.old node ≡ true }
    requires small { size ≤ MOST_FILE_BYTES }
    ensures ok { OnOk result (tree.new ≡ model.allocated tree.old node now size) }
    ensures err { OnErr result (tree.new ≡ tree.old) }
{
    if tree.bytes(node).len() as u64 >= size {
        return Ok(());
    }
    set_size(tree, node, now, size)
}

// A time by the flags: with the first it is given, with the second it is now, and else it stays.
fn chosen(flags: u32, give: u32, set_now: u32, given: u64, now: u64, old: u64) -> u64
    ensures { result ≡ model.chosen flags give set_now given now old }
{
    if flags & give != 0 {
        given
    } else if flags & set_now != 0 {
        now
    } else {
        old
    }
}

fn times_put(flags: u32, stat: &FileStat, now: u64, times: Times) -> Times
    ensures { result ≡ model.times_put flags stat.now now times }
{
    Times {
        atim: chosen(
            flags,
            FILESTAT_ATIM,
            FILESTAT_ATIM_NOW,
            stat.atim,
            now,
            times.atim,
        ),
        mtim: chosen(
            flags,
            FILESTAT_MTIM,
            FILESTAT_MTIM_NOW,
            stat.mtim,
            now,
            times.mtim,
        ),
        ctim: now,
    }
}

// The times are set, where some flag of a time is.
fn put_times(tree: &mut Tree, node: ObjId, now: u64, stat: &FileStat, flags: u32)
    ensures { tree.new ≡ model.put_times flags stat.now now tree.old node }
{
    if flags & FILESTAT_TIMES == 0 {
        return;
    }
    if let Some(found) = tree.node(node) {
        let times = times_put(flags, stat, now, found.times);
        tree.set_times(node, times);
    }
}

fn has_size(flags: u32) -> bool
    ensures { result ≡ model.has_size flags }
{
    flags & FILESTAT_SIZE != 0
}

// The size that is asked, 0 where none is.
fn asked_size(flags: u32, stat: &FileStat) -> u64
    ensures { result ≡ model.asked_size flags stat.now }
{
    if has_size(flags) { stat.size } else { 0 }
}

// The size is set, where its flag is. `Err` changes nothing.
fn put_size(
    tree: &mut Tree,
    node: ObjId,
    now: u64,
    stat: &FileStat,
    flags: u32,
) -> Result<(), AllocError>
    requires file { is_file tree.old node ≡ true }
    requires small { model.asked_size flags stat.now ≤ MOST_FILE_BYTES }
    ensures ok { OnOk result (tree.new ≡ model.put_size flags stat.now now tree.old node) }
    ensures err { OnErr result (tree.new ≡ tree.old) }
{
    if has_size(flags) {
        set_size(tree, node, now, stat.size)
    } else {
        Ok(())
    }
}

// The size first, and then the times. `Err` changes nothing.
fn put_stat(
    tree: &mut Tree,
    node: ObjId,
    now: u64,
    stat: &FileStat,
    flags: u32,
) -> Result<(), AllocError>
    requires file { is_file tree.old node ≡ true }
    requires small { model.asked_size flags stat.now ≤ MOST_FILE_BYTES }
    ensures ok { OnOk result (tree.new ≡ model.put_stat flags stat.now now tree.old node) }
    ensures err { OnErr result (tree.new ≡ tree.old) }
{
    put_size(tree, node, now, stat, flags)?;
    put_times(tree, node, now, stat, flags);
    Ok(())
}

// What a call answers that is done with this node.
fn done(tree: &Tree, node: ObjId) -> Reply
    ensures { answer.Reply result ≡ (model.becomes_in node tree.now).answer }
{
    match tree.node(node) {
        Some(_) => success(0, 0),
        None => refused(Errno::Badf),
    }
}

// ---- calls

/// Makes the file so long that it has this range. `Err` changes nothing.
pub(crate) fn file_allocate(
    tree: &mut Tree,
    kind: &OpenKind,
    now: u64,
    offset: u64,
    length: u64,
) -> Result<Reply, AllocError>
    requires { IsThere tree.old kind.now }
    ensures done { IsTreeDone true (model.allocate (offset + length) now tree.old (Some kind.now)) tree.old tree.new result }
    ensures nodes { HasSameNodes tree.old tree.new }
{
    match kind {
        OpenKind::File { node, .. } => {
            let size = offset.saturating_add(length);
            if size > MOST_FILE_BYTES {
                return Ok(refused(Errno::Fbig));
            }
            set_least_size(tree, *node, now, size)?;
            Ok(done(tree, *node))
        }
        OpenKind::Directory { .. }
        | OpenKind::End { .. }
        | OpenKind::Terminal { .. }
        | OpenKind::Process { .. } => Ok(refused(Errno::Badf)),
    }
}

/// Sets the size or the times of what the open is of. `Err` changes nothing.
pub(crate) fn file_stat_fput(
    tree: &mut Tree,
    kind: &OpenKind,
    now: u64,
    stat: &FileStat,
    flags: u32,
) -> Result<Reply, AllocError>
    requires { IsThere tree.old kind.now }
    ensures done { IsTreeDone true (model.put_open flags stat.now now tree.old (Some kind.now)) tree.old tree.new result }
    ensures nodes { HasSameNodes tree.old tree.new }
{
    match kind {
        OpenKind::File { node, .. } => {
            if asked_size(flags, stat) > MOST_FILE_BYTES {
                return Ok(refused(Errno::Fbig));
            }
            put_stat(tree, *node, now, stat, flags)?;
            Ok(done(tree, *node))
        }
        OpenKind::Directory { node, .. } => {
            if has_size(flags) {
                return Ok(refused(Errno::Badf));
            }
            put_times(tree, *node, now, stat, flags);
            Ok(done(tree, *node))
        }
        OpenKind::End { .. } | OpenKind::Terminal { .. } | OpenKind::Process { .. } => {
            Ok(refused(Errno::Badf))
        }
    }
}

/// Sets the times of what is at the path.
pub(crate) fn file_stat_put(
    tree: &mut Tree,
    kind: &OpenKind,
    now: u64,
    lookup_flags: u32,
    path: &[u8],
    stat: &FileStat,
    flags: u32,
) -> Reply
    ensures ok { IsDone
        (paths.at_walked (model.put_found flags stat.now now tree.old) (paths.walked tree.old (paths.lookup_mode lookup_flags) path.now (Some kind.now)))
        tree.old tree.new result }
    ensures nodes { HasSameNodes tree.old tree.new }
{
    match found(tree, lookup_mode(lookup_flags), path, kind) {
        Ok(node) => {
            put_times(tree, node, now, stat, flags);
            done(tree, node)
        }
        Err(refusal) => reply_of(refusal),
    }
}
