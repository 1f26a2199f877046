//! What a file is, and what else an open stands for.
ghost use Rattle.std.specs.Prelude.{◌≡◌, ◌+◌, ◌<◌, Some};
ghost use Rattle.kernel_model.specs.Families.DescriptorCalls as descriptors;
ghost use Rattle.kernel_model.specs.Families.FileLooks as looks;
ghost use Rattle.kernel_model.specs.Families.FilePaths as model;
ghost use Rattle.kernel_model.specs.Outcome.{replies};
ghost use Rattle.kernel_model.specs.Start.{launch_object};
ghost use Rattle.file_calls.specs.Opens.{IsThere};

use crate::paths::{found, lookup_mode, reply_of};
use abi_structures::FileStat;
use abi_types::flags::{
    FILETYPE_CHARACTER_DEVICE, FILETYPE_DIRECTORY, FILETYPE_FIFO, FILETYPE_PROCESS,
    FILETYPE_REGULAR_FILE, FILETYPE_SOCKET_STREAM, FILETYPE_SYMBOLIC_LINK,
};
use abi_types::{Errno, Node, NodeKind, ObjId, OpenKind, Payload, Reply};
use file_tree::Tree;
use right_rules::{refused, success_with};

// The number of an object of the launch, but for its own.
const LAUNCH_OBJECTS: u64 = 0xffff_ffff_0000_0000;

/// The number of an open's type.
pub fn type_number(kind: &OpenKind) -> u8
    ensures { result ≡ descriptors.type_number kind.now }
{
    match kind {
        OpenKind::File { .. } => FILETYPE_REGULAR_FILE,
        OpenKind::Directory { .. } => FILETYPE_DIRECTORY,
        OpenKind::End {
            reads: Some(_),
            writes: Some(_),
            ..
        } => FILETYPE_SOCKET_STREAM,
        OpenKind::End { .. } => FILETYPE_FIFO,
        OpenKind::Terminal { .. } => FILETYPE_CHARACTER_DEVICE,
        OpenKind::Process { .. } => FILETYPE_PROCESS,
    }
}

/// The number of a node's type.
pub(crate) fn node_type(kind: &NodeKind) -> u8
    ensures { result ≡ looks.node_type kind.now }
{
    match kind {
        NodeKind::File(_) => FILETYPE_REGULAR_FILE,
        NodeKind::Directory => FILETYPE_DIRECTORY,
        NodeKind::Link(_) => FILETYPE_SYMBOLIC_LINK,
    }
}

// How many bytes a file has, or the text of a symlink. A directory has none.
fn node_size(kind: &NodeKind) -> u64
    ensures { result ≡ looks.node_size kind.now }
{
    match kind {
        NodeKind::File(bytes) | NodeKind::Link(bytes) => bytes.len() as u64,
        NodeKind::Directory => 0,
    }
}

fn node_stat(id: ObjId, node: &Node) -> FileStat
    ensures { result ≡ looks.node_stat id node.now }
{
    FileStat {
        dev: 0,
        ino: id.0,
        kind: node_type(&node.kind),
        nlink: node.links,
        size: node_size(&node.kind),
        atim: node.times.atim,
        mtim: node.times.mtim,
        ctim: node.times.ctim,
    }
}

// What an object of this number and type is that is no node.
fn object_stat(number: u64, kind: u8) -> FileStat
    ensures { result ≡ looks.object_stat number kind }
{
    FileStat {
        dev: 0,
        ino: number,
        kind,
        nlink: 1,
        size: 0,
        atim: 0,
        mtim: 0,
        ctim: 0,
    }
}

fn reported(stat: FileStat) -> Reply
    ensures { replies result ≡ looks.reported stat }
{
    success_with(0, Payload::FileStat(stat))
}

// What the node of this number is.
fn report_node(tree: &Tree, id: ObjId) -> Reply
    ensures { replies result ≡ looks.report_in tree.now id }
{
    match tree.node(id) {
        Some(node) => reported(node_stat(id, node)),
        None => refused(Errno::Badf),
    }
}

// The number of a standard stream.
fn stream_number(which: u32) -> u64
    requires { which < 3 }
    ensures { result ≡ launch_object (which + 1) }
{
    LAUNCH_OBJECTS + u64::from(which) + 1
}

/// What the open is of.
pub(crate) fn file_stat_fget(tree: &Tree, kind: &OpenKind) -> Reply
    requires { IsThere tree.now kind.now }
    ensures { replies result ≡ looks.report_open tree.now (Some kind.now) }
{
    match kind {
        OpenKind::File { node, .. } | OpenKind::Directory { node, .. } => report_node(tree, *node),
        OpenKind::End {
            reads: Some(number),
            ..
        }
        | OpenKind::End {
            reads: None,
            writes: Some(number),
            ..
        } => reported(object_stat(number.0, type_number(kind))),
        OpenKind::Terminal { which, .. } => {
            reported(object_stat(stream_number(*which), type_number(kind)))
        }
        OpenKind::Process { object, .. } => reported(object_stat(object.0, type_number(kind))),
        OpenKind::End {
            reads: None,
            writes: None,
            ..
        } => refused(Errno::Badf),
    }
}

/// What the file at the path is.
pub(crate) fn file_stat_get(tree: &Tree, kind: &OpenKind, flags: u32, path: &[u8]) -> Reply
    ensures { replies result
        ≡ model.at_walked (looks.report_in tree.now) (model.walked tree.now (model.lookup_mode flags) path.now (Some kind.now)) }
{
    match found(tree, lookup_mode(flags), path, kind) {
        Ok(node) => report_node(tree, node),
        Err(refusal) => reply_of(refusal),
    }
}
