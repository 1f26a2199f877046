//! The text of a tree.
ghost use Rattle.std.specs.Prelude.{◌≡◌, ◌<◌, ◌≤◌, ◌+◌, ◌++◌, ◌∷◌, IfNone, IfOk, IfSome, OnOk, [], length};
ghost use Rattle.std.specs.FinMap as map;
ghost use Rattle.tree_model.specs.Tree.{IsTree, names_of};
ghost use Rattle.tree_document.specs.Printing.{below_path, listed, listing, printed};
ghost use Rattle.tree_document.specs.Left.{IsGoing, reach, rows_left, steps_left};

use crate::printed::Printed;
use abi_types::{Bytes, NodeKind, ObjId};
use file_tree::Tree;
use maps::NameEntries;
use std::alloc::{AllocError, Global};
use tree_model::ROOT;

/// A directory whose names are being printed: its path, and the names that are left.
#[derive(Drop)]
pub struct Frame<'a> {
    pub path: Vec<u8>,
    pub names: NameEntries<'a, ObjId>,
}

// The names in a directory, and none of what is no directory.
fn names_in(tree: &Tree, id: ObjId) -> Option<NameEntries<'_, ObjId>>
    ensures some { IfSome result (λ names. names ≡ map.entries (names_of tree.now id)) }
    ensures none { IfNone result (map.entries (names_of tree.now id) ≡ []) }
    ensures tree { IsTree tree.now }
{
    match tree.node(id)?.kind {
        NodeKind::Directory => tree.names_from(id, 0),
        _ => None,
    }
}

// The path of a name in the directory of a path.
fn below_path(alloc: Global, path: &[u8], name: &[u8]) -> Result<Vec<u8>, AllocError>
    ensures { IfOk result (λ below. below.items ≡ below_path path.now name.now) }
{
    let mut below = path.to_vec(alloc)?;
    if !below.is_empty() {
        below.push(b'/')?;
    }
    below.extend_from_slice(name)?;
    Ok(below)
}

// Names that are to be printed next, those in a directory.
fn push_names<'a>(
    frames: &mut Vec<Frame<'a>>,
    tree: &'a Tree,
    path: Vec<u8>,
    id: ObjId,
) -> Result<(), AllocError>
    ensures rows { OnOk result (rows_left tree.now frames.new.items ≡ listed (reach tree.now id) tree.now path.items id ++ rows_left tree.now frames.old.items) }
    ensures few { OnOk result (length frames.new.items ≤ length frames.old.items + 1) }
    ensures tree { IsTree tree.now }
{
    if let Some(names) = names_in(tree, id) {
        frames.push(Frame { path, names })?;
    }
    Ok(())
}

// Prints the next name of a directory, if there is one, and has those below it printed next.
fn print_next<'a>(
    alloc: Global,
    tree: &'a Tree,
    printed: &mut Printed,
    frames: &mut Vec<Frame<'a>>,
    mut frame: Frame<'a>,
) -> Result<(), AllocError>
    requires { printed.old.records ≤ length printed.old.text.items }
    ensures going { IsGoing tree.now printed.old.text.items printed.old.records printed.old.firsts (frames.old.items ++ frame.entry ∷ [])
        → OnOk result (IsGoing tree.now printed.new.text.items printed.new.records printed.new.firsts frames.new.items) }
    ensures fewer { OnOk result (steps_left tree.now frames.new.items < steps_left tree.now (frames.old.items ++ frame.entry ∷ [])) }
{
    let Some((name, id)) = frame.names.next() else {
        return Ok(());
    };
    let path = below_path(alloc, &frame.path, name)?;
    printed.push(alloc, tree, &path, *id)?;
    frames.push(frame)?;
    push_names(frames, tree, path, *id)
}

/// A tree document, and the number of its records.
#[derive(Drop)]
pub struct TreeText {
    pub text: Bytes,
    pub records: u64,
}

/// The tree document of a tree, and the number of its records: each directory's names in the order of their bytes, and what
/// is in a directory behind its own record; the first name of a file is its `file` record. It takes time by the length of the
/// text, but for the steps that maps take to find a node.
///
/// # Errors
/// Only where memory runs out.
pub fn tree_text(alloc: Global, tree: &Tree) -> Result<TreeText, AllocError>
    ensures text { IfOk result (λ document. document.text ≡ printed tree.now) }
    ensures records { IfOk result (λ document. document.records ≡ length (listing tree.now)) }
{
    let mut printed = Printed::new(alloc);
    let mut frames = Vec::new(alloc);
    push_names(&mut frames, tree, Vec::new(alloc), ObjId(ROOT))?;
    while let Some(frame) = frames.pop() {
        print_next(alloc, tree, &mut printed, &mut frames, frame)?;
    }
    Ok(TreeText {
        text: Bytes::from_vec(printed.text),
        records: printed.records,
    })
}
