//! What is done with a tree, and what it answers.
ghost use Rattle.std.specs.Prelude.{◌≡◌, IsTrue};
ghost use Rattle.tree_model.specs.Changes.{is_file};
ghost use Rattle.tree_model.specs.Tree.{links_of};

use abi_types::{Bytes, Node, NodeKind, ObjId, Times};
use file_tree::Tree;
use path_lookup::{End, WalkFault, WalkMode};
use std::alloc::{AllocError, Global};
use tree_model::{ROOT, TreeFault};

/// Times that no test looks at.
pub const TIMES: Times = Times {
    atim: 1,
    mtim: 2,
    ctim: 3,
};

/// What is done with a tree. Nodes have small numbers here: 0 is the root. Names have one byte.
#[derive(Clone, Copy)]
pub enum Operation {
    /// A new directory, file or symlink with this text: in which directory, by which name, of which number.
    Directory(u16, u8, u16),
    File(u16, u8, u16),
    Symlink(u16, u8, u16, &'static [u8]),
    /// One more name in a directory of a node.
    Link(u16, u8, u16),
    Unlink(u16, u8),
    Rename(u16, u8, u16, u8),
    /// The node of a name, and how many names a node counts.
    Entry(u16, u8),
    Links(u16),
    /// The node at a place of a directory's names.
    NameAt(u16, u64),
    /// The least node without a name above a number.
    Nameless(u16),
    Forget(u16),
    /// Bytes of a file: put at a place; the size; at most so many from a place on, which are these.
    Write(u16, u64, &'static [u8]),
    Size(u16, u64),
    Read(u16, u64, u32, &'static [u8]),
    Walk(u16, &'static [u8], WalkMode),
}

/// What comes of an operation.
#[derive(Clone, Copy, PartialEq, Eq)]
pub enum Answer {
    Done,
    /// A node, a number of names or of bytes.
    Is(u64),
    /// There is no such node, name or file.
    Nothing,
    /// The bytes are others.
    Other,
    /// The directory where a walk stands, and the place of the path's last name.
    Absent(u64, u64, u64),
    Last(u64, u64, u64),
    Refused(TreeFault),
    Lost(WalkFault),
    NoMemory,
}

// What a new node is.
#[derive(Clone, Copy)]
enum Made {
    Directory,
    File,
    Symlink(&'static [u8]),
}

// The node of a small number.
fn id(number: u16) -> ObjId {
    ObjId(ROOT + u64::from(number))
}

// The small number of a node. No row has that of a node of another launch.
fn number(node: ObjId) -> u64 {
    node.0.wrapping_sub(ROOT)
}

fn refused(fault: TreeFault) -> Answer {
    match fault {
        TreeFault::NoMemory => Answer::NoMemory,
        fault => Answer::Refused(fault),
    }
}

fn of_change(done: Result<(), TreeFault>) -> Answer {
    match done {
        Ok(()) => Answer::Done,
        Err(fault) => refused(fault),
    }
}

fn of_node(node: Option<ObjId>) -> Answer {
    match node {
        Some(node) => Answer::Is(number(node)),
        None => Answer::Nothing,
    }
}

fn of_test(holds: bool) -> Answer {
    if holds { Answer::Done } else { Answer::Other }
}

fn node_of(alloc: Global, made: Made) -> Result<Node, AllocError> {
    let kind = match made {
        Made::Directory => NodeKind::Directory,
        Made::File => NodeKind::File(Bytes::new(alloc)),
        Made::Symlink(text) => NodeKind::Link(Bytes::of(alloc, text)?),
    };
    Ok(Node {
        kind,
        times: TIMES,
        links: 7,
    })
}

fn make(tree: &mut Tree, alloc: Global, dir: u16, name: u8, node: u16, made: Made) -> Answer {
    let node = id(node);
    if tree.node(node).is_some() {
        return Answer::Other;
    }
    match node_of(alloc, made) {
        Ok(made) => of_change(tree.make(id(dir), &[name], node, made)),
        Err(_) => Answer::NoMemory,
    }
}

fn unlink(tree: &mut Tree, dir: u16, name: u8) -> Answer {
    match tree.unlink(id(dir), &[name]) {
        Ok(node) => Answer::Is(number(node)),
        Err(fault) => refused(fault),
    }
}

fn rename(tree: &mut Tree, from: u16, name: u8, to: u16, new: u8) -> Answer {
    match tree.rename(id(from), &[name], id(to), &[new]) {
        Ok(node) => of_node(node),
        Err(fault) => refused(fault),
    }
}

fn links(tree: &Tree, node: u16) -> Answer {
    match tree.node(id(node)) {
        Some(node) => Answer::Is(u64::from(node.links)),
        None => Answer::Nothing,
    }
}

fn name_at(tree: &Tree, dir: u16, place: u64) -> Answer {
    match tree.name_at(id(dir), place) {
        Some((_, node)) => Answer::Is(number(node)),
        None => Answer::Nothing,
    }
}

fn is_file(tree: &Tree, node: ObjId) -> bool
    ensures { result ≡ is_file tree.now node }
{
    match tree.node(node) {
        Some(node) => matches!(node.kind, NodeKind::File(_)),
        None => false,
    }
}

fn write(tree: &mut Tree, node: u16, at: u64, bytes: &'static [u8]) -> Answer {
    let node = id(node);
    if !is_file(tree, node) || bytes.len() > 65_536 {
        return Answer::Other;
    }
    match tree.write_at(node, at, bytes) {
        Ok(count) => Answer::Is(u64::from(count)),
        Err(fault) => refused(fault),
    }
}

fn set_size(tree: &mut Tree, node: u16, size: u64) -> Answer {
    let node = id(node);
    if !is_file(tree, node) {
        return Answer::Other;
    }
    of_change(tree.set_size(node, size))
}

fn read(tree: &Tree, node: u16, at: u64, most: u32, want: &[u8]) -> Answer {
    match tree.read_at(id(node), at, most) {
        Ok(bytes) => of_test(bytes.as_slice() == want),
        Err(_) => Answer::NoMemory,
    }
}

// Whether there is the node, and it has no name.
fn has_no_name(tree: &Tree, node: ObjId) -> bool
    ensures { IsTrue result → links_of tree.now node ≡ 0 }
{
    match tree.node(node) {
        Some(node) => node.links == 0,
        None => false,
    }
}

fn forget(tree: &mut Tree, node: u16) -> Answer {
    let node = id(node);
    if !has_no_name(tree, node) {
        return Answer::Other;
    }
    tree.forget(node);
    Answer::Done
}

fn walked(tree: &Tree, start: u16, path: &[u8], mode: WalkMode) -> Answer {
    match tree.walk(id(start), path, mode) {
        Ok(end) => of_end(end),
        Err(fault) => Answer::Lost(fault),
    }
}

fn of_end(end: End) -> Answer {
    match end {
        End::Found(node) => Answer::Is(number(node)),
        End::Absent { dir, from, len } => Answer::Absent(number(dir), from, len),
        End::Last { dir, from, len } => Answer::Last(number(dir), from, len),
    }
}

// What is asked of a tree, and changes nothing.
fn asked(tree: &Tree, operation: Operation) -> Answer {
    match operation {
        Operation::Entry(dir, name) => of_node(tree.entry(id(dir), &[name])),
        Operation::Links(node) => links(tree, node),
        Operation::NameAt(dir, place) => name_at(tree, dir, place),
        Operation::Nameless(after) => of_node(tree.nameless(Some(id(after)))),
        Operation::Read(node, at, most, want) => read(tree, node, at, most, want),
        Operation::Walk(start, path, mode) => walked(tree, start, path, mode),
        _ => Answer::Other,
    }
}

/// Does an operation.
pub fn operate(tree: &mut Tree, alloc: Global, operation: Operation) -> Answer {
    match operation {
        Operation::Directory(dir, name, node) => {
            make(tree, alloc, dir, name, node, Made::Directory)
        }
        Operation::File(dir, name, node) => make(tree, alloc, dir, name, node, Made::File),
        Operation::Symlink(dir, name, node, text) => {
            make(tree, alloc, dir, name, node, Made::Symlink(text))
        }
        Operation::Link(dir, name, node) => of_change(tree.link(id(dir), &[name], id(node))),
        Operation::Unlink(dir, name) => unlink(tree, dir, name),
        Operation::Rename(from, name, to, new) => rename(tree, from, name, to, new),
        Operation::Write(node, at, bytes) => write(tree, node, at, bytes),
        Operation::Size(node, size) => set_size(tree, node, size),
        Operation::Forget(node) => forget(tree, node),
        other => asked(tree, other),
    }
}

// Does operations one after another. The first row that gives another answer.
fn first_row(tree: &mut Tree, alloc: Global, operations: &[(Operation, Answer)]) -> Option<usize> {
    for (i, &(operation, want)) in operations.iter().enumerate() {
        if operate(tree, alloc, operation) != want {
            return Some(i);
        }
    }
    None
}

/// The same on a tree of the root alone.
pub fn first_other(
    alloc: Global,
    operations: &[(Operation, Answer)],
) -> Result<Option<usize>, AllocError> {
    let mut tree = Tree::new(alloc, TIMES)?;
    Ok(first_row(&mut tree, alloc, operations))
}
