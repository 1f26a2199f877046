//! The descriptors of files and directories that nodes ask for.
ghost use Rattle.std.specs.Prelude.{◌≡◌, ◌&&◌, map, option_map, option_copied};
ghost use Rattle.launch_values.specs.Shape.{of_list, of_pairs};
ghost use Rattle.launch_values.specs.Views.{shape_of, pair_of, content_of_value};
ghost use Rattle.launch_plan.specs.Files as spec;

use crate::fault::PlanFault;
use abi_base::{Grant, GrantTarget, ObjId, Rights};
use abi_types::{DIRECTORY_RIGHTS, FILE_RIGHTS, NodeKind, OPENED_RIGHTS};
use file_tree::Tree;
use launch_values::{Node, NodeText, NodeValue};
use path_lookup::{End, WalkMode};
use tree_model::ROOT;

// What a pair of the map says.
#[derive(Clone, Copy)]
enum Part<'a> {
    /// The line of the path, and the path.
    Path(u32, &'a NodeText),
    /// The names of base rights.
    Base(&'a [Node]),
    /// The names of inheriting rights.
    Inheriting(&'a [Node]),
}

// What the parts of a map ask for, as far as they were read.
#[derive(Clone, Copy)]
struct Asked {
    /// A descriptor of what the path leads to, with all rights of its type.
    target: Option<Grant>,
    /// The base rights that are listed.
    base: Option<Rights>,
    /// The inheriting rights that are listed.
    inheriting: Option<Rights>,
}

// The text that a node without a tag is.
fn text_of(node: &Node) -> Option<&NodeText>
    ensures { option_copied result ≡ spec.text_of (shape_of node.now) }
{
    match (&node.tag, &node.value) {
        (None, NodeValue::Str(text)) => Some(text),
        _ => None,
    }
}

// The items of the sequence that a node without a tag is.
fn items_of(node: &Node) -> Option<&[Node]>
    ensures { option_map (λ items. of_list (map shape_of items.now)) result ≡ spec.items_of (shape_of node.now) }
{
    match (&node.tag, &node.value) {
        (None, NodeValue::Seq(items)) => Some(items.as_slice()),
        _ => None,
    }
}

// The part that a key and its value are.
fn part_of<'a>(key: &'a Node, value: &'a Node) -> Option<Part<'a>>
    ensures { option_map spec.part result ≡ spec.part_of (shape_of key.now) (shape_of value.now) }
{
    match text_of(key)?.as_str() {
        "path" => Some(Part::Path(value.line, text_of(value)?)),
        "rights" => Some(Part::Base(items_of(value)?)),
        "inheriting" => Some(Part::Inheriting(items_of(value)?)),
        _ => None,
    }
}

// Whether each pair is a part, and the path is among them.
fn is_file_map(pairs: &[(Node, Node)]) -> bool
    ensures { result ≡ (spec.are_parts (of_pairs (map pair_of pairs.now)) && spec.has_path (spec.parts_of (of_pairs (map pair_of pairs.now)))) }
{
    let mut has_path = false;
    for (key, value) in pairs {
        match part_of(key, value) {
            Some(Part::Path(_, _)) => has_path = true,
            Some(_) => {}
            None => return false,
        }
    }
    has_path
}

// The path behind its leading slashes.
fn without_slashes(path: &[u8]) -> &[u8]
    ensures { result.now ≡ spec.without_slashes path.now }
{
    let mut from = 0;
    while from < path.len() && path[from] == b'/' {
        from += 1;
    }
    &path[from..]
}

// The node to which a path without leading slashes leads from the root.
fn node_at(tree: &Tree, path: &[u8]) -> Option<ObjId>
    ensures { result ≡ spec.node_at tree.now path.now }
{
    if path.is_empty() {
        return Some(ObjId(ROOT));
    }
    let Ok(end) = tree.walk(ObjId(ROOT), path, WalkMode::Follow) else {
        return None;
    };
    match end {
        End::Found(id) => Some(id),
        End::Absent { .. } | End::Last { .. } => None,
    }
}

// A descriptor of a file or directory with all rights of its type. `None` for a symlink.
fn whole_of(tree: &Tree, id: ObjId) -> Option<Grant>
    ensures { result ≡ spec.whole_of tree.now id }
{
    let (base, inheriting) = match tree.node(id)?.kind {
        NodeKind::File(_) => (FILE_RIGHTS, Rights::NONE),
        NodeKind::Directory => (DIRECTORY_RIGHTS, OPENED_RIGHTS),
        NodeKind::Link(_) => return None,
    };
    Some(Grant {
        target: GrantTarget::Node(id),
        base,
        inheriting,
    })
}

// A descriptor of the file or directory to which a path leads.
fn target_at(tree: &Tree, path: &NodeText) -> Option<Grant>
    ensures { result ≡ spec.target_at tree.now path.now }
{
    whole_of(tree, node_at(tree, without_slashes(path.as_bytes()))?)
}

// The right that an item of a list names.
fn right_of(item: &Node) -> Result<Rights, PlanFault>
    ensures { result ≡ spec.as_rights (spec.right_of (shape_of item.now)) }
{
    let Some(name) = text_of(item) else {
        return Err(PlanFault::UnknownRight(item.line));
    };
    match Rights::from_name(name.as_str()) {
        Some(right) => Ok(right),
        None => Err(PlanFault::UnknownRight(item.line)),
    }
}

// All rights that a list names.
fn listed(items: &[Node]) -> Result<Rights, PlanFault>
    ensures { result ≡ spec.as_rights (spec.listed (of_list (map shape_of items.now))) }
{
    let mut rights = Rights::NONE;
    for item in items {
        rights = Rights(rights.0 | right_of(item)?.0);
    }
    Ok(rights)
}

impl Asked {
    // What was asked for, and what one part more asks for.
    fn and(self, tree: &Tree, part: Part<'_>) -> Result<Asked, PlanFault>
        ensures { result ≡ spec.asked_with self (spec.asked_by tree.now (spec.part part.entry)) }
    {
        match part {
            Part::Path(line, path) => match target_at(tree, path) {
                Some(target) => Ok(Asked {
                    target: Some(target),
                    ..self
                }),
                None => Err(PlanFault::NoSuchPath(line)),
            },
            Part::Base(items) => Ok(Asked {
                base: Some(listed(items)?),
                ..self
            }),
            Part::Inheriting(items) => Ok(Asked {
                inheriting: Some(listed(items)?),
                ..self
            }),
        }
    }
}

// What the parts of a map ask for.
fn asked_of(tree: &Tree, pairs: &[(Node, Node)]) -> Result<Asked, PlanFault>
    ensures { result ≡ spec.asked_of tree.now (spec.parts_of (of_pairs (map pair_of pairs.now))) }
{
    let mut asked = Asked {
        target: None,
        base: None,
        inheriting: None,
    };
    for (key, value) in pairs {
        if let Some(part) = part_of(key, value) {
            asked = asked.and(tree, part)?;
        }
    }
    Ok(asked)
}

// All rights, or those of them that are listed.
fn met(all: Rights, listed: Option<Rights>) -> Rights
    ensures { result ≡ spec.met all listed }
{
    match listed {
        Some(rights) => all.meet(rights),
        None => all,
    }
}

// The descriptor that the map on this line asks for.
fn map_grant(tree: &Tree, line: u32, pairs: &[(Node, Node)]) -> Result<Grant, PlanFault>
    ensures { result ≡ spec.map_grant tree.now line (of_pairs (map pair_of pairs.now)) }
{
    if !is_file_map(pairs) {
        return Err(PlanFault::BadFile(line));
    }
    let Asked {
        target,
        base,
        inheriting,
    } = asked_of(tree, pairs)?;
    match target {
        Some(grant) => Ok(Grant {
            target: grant.target,
            base: met(grant.base, base),
            inheriting: met(grant.inheriting, inheriting),
        }),
        None => Err(PlanFault::BadFile(line)),
    }
}

/// The descriptor that a node tagged `!file`, with this line and value, asks for.
#[tactic(auto, unfolding(crate::specs::Files::file_grant))]
pub fn file_grant(tree: &Tree, line: u32, value: &NodeValue) -> Result<Grant, PlanFault>
    ensures { result ≡ spec.file_grant tree.now line (content_of_value value.now) }
{
    match value {
        NodeValue::Map(pairs) => map_grant(tree, line, pairs.as_slice()),
        _ => Err(PlanFault::BadFile(line)),
    }
}
