//! The entries of a directory.
ghost use Rattle.std.specs.Prelude.{◌≡◌, ◌+◌, ◌++◌, ◌<◌, ◌^◌, ◌≢◌, [], true, take, length, IfOk, OnOk, Some, option_copied};
ghost use Rattle.std.specs.FinMap as map;
ghost use Rattle.abi_layout.specs.Laws.{AreBytes};
ghost use Rattle.kernel_model.specs.Families.FileLooks as looks;
ghost use Rattle.kernel_model.specs.Reply as reply;
ghost use Rattle.file_calls.specs.Done.{IsReadDone};
ghost use Rattle.file_calls.specs.Heads.{low_head};

use crate::stats::node_type;
use abi_layout::write_dirent;
use abi_structures::Dirent;
use abi_types::{Bytes, Errno, Node, ObjId, OpenKind, Payload, Reply};
use file_tree::Tree;
use maps::NameEntries;
use right_rules::{refused, success_with};
use std::alloc::{AllocError, Global};

// The most bytes of a transfer.
const MOST_TRANSFERRED: u64 = 65_536;

/// How many of so many bytes a call has room for.
pub(crate) fn room_of(most: u64) -> usize
    ensures { result ≡ looks.room_of most }
{
    most.min(MOST_TRANSFERRED) as usize
}

/// The call is done, and gives these bytes and their count.
pub(crate) fn content(bytes: Bytes) -> Reply
    ensures { result ≡ reply.content bytes }
{
    let count = bytes.len() as u64;
    success_with(count, Payload::Content(bytes))
}

// The number of a node's type, 0 where there is none.
fn type_of(node: Option<&Node>) -> u8
    ensures { result ≡ looks.type_of (option_copied node.entry) }
{
    match node {
        Some(node) => node_type(&node.kind),
        None => 0,
    }
}

// The head of an entry. Of the name's length it has the low 32 bits.
fn head(tree: &Tree, position: u64, name: &[u8], id: ObjId) -> Dirent
    requires { position < 2 ^ 63 }
    ensures { result ≡ low_head (looks.dirent (map.get tree.now.nodes id) position (name.now, id)) }
{
    Dirent {
        next: position + 1,
        ino: id.0,
        namlen: (name.len() % 0x1_0000_0000) as u32,
        kind: type_of(tree.node(id)),
    }
}

// Puts a head and a name behind the bytes.
fn append_both(bytes: &mut Bytes, head: &[u8], name: &[u8]) -> Result<(), AllocError>
    ensures both { OnOk result (bytes.new ≡ bytes.old ++ (head.now ++ name.now)) }
    ensures head { AreBytes head.now }
{
    bytes.append(head)?;
    bytes.append(name)
}

// Puts an entry behind the bytes.
fn append_entry(
    bytes: &mut Bytes,
    tree: &Tree,
    position: u64,
    name: &[u8],
    id: ObjId,
) -> Result<(), AllocError>
    requires { position < 2 ^ 63 }
    ensures { OnOk result (bytes.new ≡ bytes.old ++ looks.entry_bytes (map.get tree.now.nodes id) position (name.now, id)) }
{
    append_both(bytes, &write_dirent(&head(tree, position, name, id)), name)
}

// The entries, of which the first has this position: their bytes, or as many of them as there is room for, and maybe more.
fn some_bytes(
    alloc: Global,
    tree: &Tree,
    position: u64,
    entries: NameEntries<'_, ObjId>,
    room: usize,
) -> Result<Bytes, AllocError>
    requires { position + length entries < 2 ^ 63 }
    ensures { IfOk result (λ bytes. take room bytes ≡ take room (looks.entries_bytes tree.now position entries.entry)) }
{
    let mut bytes = Bytes::new(alloc);
    let mut next = position;
    for (name, id) in entries {
        if bytes.len() >= room {
            break;
        }
        append_entry(&mut bytes, tree, next, name, *id)?;
        next += 1;
    }
    Ok(bytes)
}

// The first of the bytes, at most so many.
fn cut(bytes: Bytes, most: usize) -> Bytes
    ensures { result ≡ take most bytes }
{
    let mut all = bytes.into_vec();
    all.truncate(most);
    Bytes::from_vec(all)
}

// The names in a directory from a position on, in at most so many bytes. Past the last name there are none.
fn list_names(
    alloc: Global,
    tree: &Tree,
    dir: ObjId,
    most: u64,
    position: u64,
) -> Result<Reply, AllocError>
    ensures { IsReadDone true (looks.list_names tree.now most position (map.get tree.now.names dir)) result }
{
    let Some(entries) = tree.names_from(dir, position) else {
        return Ok(refused(Errno::Badf));
    };
    if position >= tree.names_len(dir) {
        return Ok(content(Bytes::new(alloc)));
    }
    let room = room_of(most);
    let bytes = some_bytes(alloc, tree, position, entries, room)?;
    Ok(content(cut(bytes, room)))
}

/// The entries of the directory from this position on, in at most so many bytes.
pub(crate) fn file_readdir(
    alloc: Global,
    tree: &Tree,
    kind: &OpenKind,
    most: u64,
    position: u64,
) -> Result<Reply, AllocError>
    ensures { IsReadDone true (looks.list_open most position tree.now (Some kind.now)) result }
{
    match kind {
        OpenKind::Directory { node, .. } => list_names(alloc, tree, *node, most, position),
        OpenKind::File { .. }
        | OpenKind::End { .. }
        | OpenKind::Terminal { .. }
        | OpenKind::Process { .. } => Ok(refused(Errno::Badf)),
    }
}
