//! Nodes of the file tree.
use lists::Bytes;

/// When a node was last read, when its bytes or names last changed, and when the node itself last changed, each in
/// nanoseconds since 1970.
#[derive(Clone, Copy)]
pub struct Times {
    pub atim: u64,
    pub mtim: u64,
    pub ctim: u64,
}

/// What a node is: a file with its bytes, a directory, or a symbolic link with its text.
#[derive(Drop)]
pub enum NodeKind {
    File(Bytes),
    Directory,
    Link(Bytes),
}

/// A node of the file tree, and how many names it has.
#[derive(Drop)]
pub struct Node {
    pub kind: NodeKind,
    pub times: Times,
    pub links: u32,
}
