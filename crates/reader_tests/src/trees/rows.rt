//! What only a tree's own values show: nodes by their numbers, nodes without a name, and places of names in paths.
use crate::trees::operations::{Answer, Operation, TIMES, first_other, operate};
use abi_types::{ObjId, Times, TryClone};
use file_tree::Tree;
use path_lookup::WalkMode::{Follow, NoFollow, Parent};
use std::alloc::{AllocError, Global};
use std::test::Fail;
use tree_model::{ROOT, TreeFault};

// Operations one after another, and what each gives.
type Operations = &'static [(Operation, Answer)];

const DONE: Answer = Answer::Done;

// Other times than those.
const LATER: Times = Times {
    atim: 4,
    mtim: 5,
    ctim: 6,
};

// Nodes that aren't there and directories that are none are reported, and so are the nodes without a name, until they get one or
// are forgotten.
const NODES_ARE_REPORTED: Operations = &[
    (Operation::Directory(0, b'd', 1), DONE),
    (Operation::File(0, b'f', 2), DONE),
    (Operation::Link(1, b'g', 2), DONE),
    (
        Operation::Link(1, b'h', 9),
        Answer::Refused(TreeFault::Absent),
    ),
    (
        Operation::Link(2, b'h', 2),
        Answer::Refused(TreeFault::NotDirectory),
    ),
    (
        Operation::Link(9, b'h', 2),
        Answer::Refused(TreeFault::Absent),
    ),
    (
        Operation::File(1, b'g', 3),
        Answer::Refused(TreeFault::Taken),
    ),
    (Operation::Links(3), Answer::Nothing),
    (Operation::Unlink(0, b'f'), Answer::Is(2)),
    (Operation::Nameless(0), Answer::Nothing),
    (Operation::Unlink(1, b'g'), Answer::Is(2)),
    (Operation::Nameless(0), Answer::Is(2)),
    (Operation::Nameless(2), Answer::Nothing),
    (Operation::Unlink(0, b'd'), Answer::Is(1)),
    (Operation::Nameless(0), Answer::Is(1)),
    (
        Operation::Link(1, b'x', 2),
        Answer::Refused(TreeFault::Absent),
    ),
    (Operation::Link(0, b'b', 2), DONE),
    (Operation::Links(2), Answer::Is(1)),
    (Operation::Nameless(1), Answer::Nothing),
    (Operation::Forget(1), DONE),
    (Operation::Links(1), Answer::Nothing),
    (Operation::Nameless(0), Answer::Nothing),
    (Operation::Entry(0, b'b'), Answer::Is(2)),
];

// A move reports the node that loses its name.
const MOVES_REPORT_NODES: Operations = &[
    (Operation::File(0, b'f', 4), DONE),
    (Operation::File(0, b'g', 5), DONE),
    (
        Operation::Rename(0, b'f', 4, b'c'),
        Answer::Refused(TreeFault::NotDirectory),
    ),
    (Operation::Rename(0, b'f', 0, b'g'), Answer::Is(5)),
    (Operation::Nameless(0), Answer::Is(5)),
    (Operation::Rename(0, b'g', 0, b'h'), Answer::Nothing),
];

// A walk ends at the place of a name in the path, also of one that is no name.
const WALKS_REPORT_PLACES: Operations = &[
    (Operation::Directory(0, b'a', 1), DONE),
    (Operation::Directory(1, b'b', 2), DONE),
    (Operation::Symlink(0, b's', 3, b"a/b"), DONE),
    (Operation::File(2, b'f', 4), DONE),
    (Operation::Walk(0, b"s/f", Follow), Answer::Is(4)),
    (
        Operation::Walk(0, b"a//new", Follow),
        Answer::Absent(1, 3, 3),
    ),
    (
        Operation::Walk(0, b"s/new", NoFollow),
        Answer::Absent(2, 2, 3),
    ),
    (Operation::Walk(0, b"a/b/", Parent), Answer::Last(2, 4, 0)),
    (Operation::Walk(0, b"a/..", Parent), Answer::Last(1, 2, 2)),
    (Operation::NameAt(0, 1), Answer::Is(3)),
    (Operation::NameAt(4, 0), Answer::Nothing),
];

// A file has no bytes behind its end, however far.
const BYTES_END: Operations = &[
    (Operation::File(0, b'f', 1), DONE),
    (Operation::Write(1, 0, b"abc"), Answer::Is(3)),
    (Operation::Size(1, 2), DONE),
    (Operation::Read(1, 0, 100, b"ab"), DONE),
    (Operation::Read(1, 0xffff_ffff_ffff_ffff, 1, b""), DONE),
];

// Each list of operations, on a tree of its own.
const ALL: &[(&str, Operations)] = &[
    ("nodes are reported", NODES_ARE_REPORTED),
    ("moves report nodes", MOVES_REPORT_NODES),
    ("walks report places", WALKS_REPORT_PLACES),
    ("bytes end", BYTES_END),
];

#[test]
fn trees_and_walks(rt: HostRuntime) -> Result<(), Fail> {
    for &(name, operations) in ALL {
        let other = first_other(rt.alloc(), operations)?;
        assert_eq!(rt; other, None, "{name}");
    }
    Ok(())
}

// A file that each of these trees has.
const FILE: ObjId = ObjId(ROOT + 1);

// A tree with that file, which has three bytes.
fn with_file(alloc: Global) -> Result<Tree, AllocError> {
    let mut tree = Tree::new(alloc, TIMES)?;
    operate(&mut tree, alloc, Operation::File(0, b'f', 1));
    operate(&mut tree, alloc, Operation::Write(1, 0, b"abc"));
    Ok(tree)
}

// How many nodes there are, and names in the root; whether the root and the file have names to be listed, and whether the file's name can be
// made and unlinked.
type Said = (u64, u64, [bool; 2], Result<(), TreeFault>, bool);

const SAID: Said = (2, 1, [true, false], Err(TreeFault::Taken), true);

fn said(tree: &Tree) -> Said {
    let root = ObjId(ROOT);
    (
        tree.len(),
        tree.names_len(root),
        [
            tree.names_from(root, 1).is_some(),
            tree.names_from(FILE, 0).is_some(),
        ],
        tree.check_make(root, b"f"),
        tree.check_unlink(root, b"f").is_ok(),
    )
}

// When the file was read last, and whether it has those bytes.
fn file_of(tree: &Tree) -> (Option<u64>, bool) {
    (
        tree.node(FILE).map(|node| node.times.atim),
        tree.bytes(FILE) == b"abc".as_slice(),
    )
}

// Questions that are no operations.
#[test]
fn trees_answer(rt: HostRuntime) -> Result<(), Fail> {
    let tree = with_file(rt.alloc())?;
    assert_eq!(rt; said(&tree), SAID);
    Ok(())
}

// What the file is once the tree has other times, and what it is in a copy from before.
fn with_times(tree: &mut Tree) -> Result<[(Option<u64>, bool); 2], AllocError> {
    let kept = tree.copy()?;
    tree.set_times(FILE, LATER);
    Ok([file_of(tree), file_of(&kept)])
}

#[test]
fn copies_are_apart(rt: HostRuntime) -> Result<(), Fail> {
    let mut tree = with_file(rt.alloc())?;
    assert_eq!(rt; with_times(&mut tree)?, [(Some(4), true), (Some(1), true)]);
    Ok(())
}
