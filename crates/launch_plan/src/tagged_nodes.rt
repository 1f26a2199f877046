//! The nodes of a document that have a tag, and the descriptors that they ask for.
ghost use Rattle.std.specs.Prelude.{◌≡◌, [], ◌∷◌, map};
ghost use Rattle.launch_values.specs.Shape.{of_list, of_pairs};
ghost use Rattle.launch_values.specs.Views.{shape_of, pair_of, content_of_value};
ghost use Rattle.launch_plan.specs.Tagged.{stream_of, stream_grant, grant_of, grants_behind, tagged, tagged_in, tagged_in_items, tagged_in_pairs};
ghost use Rattle.lists.specs.Results.{Gives};

use crate::fault::PlanFault;
use crate::files::file_grant;
use abi_base::{Grant, GrantList, GrantTarget, Rights};
use file_tree::Tree;
use launch_values::{Node, NodeTag, NodeValue};
use lists::Stop;

// The rights of standard input, and those of standard output and standard error.
const READING: Rights = Rights(0x1008_000a);

const WRITING: Rights = Rights(0x1008_0048);

fn stream_named(value: &NodeValue) -> Option<u32>
    ensures { result ≡ stream_of (content_of_value value.now) }
{
    let NodeValue::Str(text) = value else {
        return None;
    };
    match text.as_str() {
        "stdin" => Some(0),
        "stdout" => Some(1),
        "stderr" => Some(2),
        _ => None,
    }
}

fn stream(which: u32) -> Grant
    ensures { result ≡ stream_grant which }
{
    Grant {
        target: GrantTarget::Terminal(which),
        base: if which == 0 { READING } else { WRITING },
        inheriting: Rights::NONE,
    }
}

// The descriptor that a node with a tag asks for.
fn grant(tree: &Tree, line: u32, name: &NodeTag, value: &NodeValue) -> Result<Grant, PlanFault>
    ensures { result ≡ grant_of tree.now (record { line = line; name = name.now; value = content_of_value value.now }) }
{
    match name.as_str() {
        "fd" => match stream_named(value) {
            Some(which) => Ok(stream(which)),
            None => Err(PlanFault::BadFd(line)),
        },
        "file" => file_grant(tree, line, value),
        _ => Err(PlanFault::UnknownTag(line)),
    }
}

// Puts the descriptor that a node with a tag asks for behind the others. It is taken apart and made again, since the proof
// of the call can't be written for a whole one.
fn push_grant(
    grants: &mut GrantList,
    tree: &Tree,
    line: u32,
    name: &NodeTag,
    value: &NodeValue,
) -> Result<(), Stop<PlanFault>>
    ensures { Gives (λ done. grants.new) result (grants_behind tree.now grants.old (record { line = line; name = name.now; value = content_of_value value.now } ∷ [])) }
{
    let Grant {
        target,
        base,
        inheriting,
    } = grant(tree, line, name, value)?;
    match grants.push(Grant {
        target,
        base,
        inheriting,
    }) {
        Ok(()) => Ok(()),
        Err(_) => Err(Stop::Memory),
    }
}

/// Puts the descriptors that a node and those in it ask for behind the others, in document order.
#[cycle(tagged)]
pub fn push_grants(grants: &mut GrantList, tree: &Tree, node: &Node) -> Result<(), Stop<PlanFault>>
    ensures { Gives (λ done. grants.new) result (grants_behind tree.now grants.old (tagged (shape_of node.now))) }
{
    match &node.tag {
        Some(name) => push_grant(grants, tree, node.line, name, &node.value),
        None => push_inside(grants, tree, &node.value),
    }
}

#[cycle(tagged)]
fn push_inside(
    grants: &mut GrantList,
    tree: &Tree,
    value: &NodeValue,
) -> Result<(), Stop<PlanFault>>
    ensures { Gives (λ done. grants.new) result (grants_behind tree.now grants.old (tagged_in (content_of_value value.now))) }
{
    match value {
        NodeValue::Map(pairs) => push_of_pairs(grants, tree, pairs.as_slice()),
        NodeValue::Seq(items) => push_of_items(grants, tree, items.as_slice()),
        _ => Ok(()),
    }
}

#[cycle(tagged)]
fn push_of_items(grants: &mut GrantList, tree: &Tree, items: &[Node]) -> Result<(), Stop<PlanFault>>
    ensures { Gives (λ done. grants.new) result (grants_behind tree.now grants.old (tagged_in_items (of_list (map shape_of items.now)))) }
{
    for item in items {
        push_grants(grants, tree, item)?;
    }
    Ok(())
}

#[cycle(tagged)]
fn push_of_pairs(
    grants: &mut GrantList,
    tree: &Tree,
    pairs: &[(Node, Node)],
) -> Result<(), Stop<PlanFault>>
    ensures { Gives (λ done. grants.new) result (grants_behind tree.now grants.old (tagged_in_pairs (of_pairs (map pair_of pairs.now)))) }
{
    for (key, value) in pairs {
        push_grants(grants, tree, key)?;
        push_grants(grants, tree, value)?;
    }
    Ok(())
}
