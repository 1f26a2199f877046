//! How many opens are of each node of the file tree.
ghost use Rattle.std.specs.Prelude.{◌≡◌, ◌+◌, ◌<◌, ◌≤◌, ◌^◌, ℕ, OnOk, OnErr};
ghost use Rattle.std.specs.FinMap as map;
ghost use Rattle.maps.specs.Maps.{number, weight};
ghost use Rattle.object_store.specs.Nodes.{HasNoZero};
ghost use Rattle.tree_model.specs.Opens.{one_of_node};
ghost use Rattle.tree_model.specs.Tree.{one_for};

use abi_types::{ObjId, OpenKind};
use maps::NumMap;
use std::alloc::AllocError;

/// The node that the open is of: a file's or a directory's. Any other open is of none.
pub fn node_of(kind: &OpenKind) -> Option<ObjId>
    ensures { (n : ℕ) → one_of_node n kind.now ≡ weight (one_for n) result }
{
    match *kind {
        OpenKind::File { node, .. } | OpenKind::Directory { node, .. } => Some(node),
        OpenKind::End { .. } | OpenKind::Terminal { .. } | OpenKind::Process { .. } => None,
    }
}

/// How many opens are of the node, which is 0 where there is no entry.
pub fn count_of(by_node: &NumMap<u64>, node: ObjId) -> u64
    ensures { result ≡ number (map.get by_node.now node) }
{
    match by_node.get(node.0) {
        Some(count) => *count,
        None => 0,
    }
}

/// Counts one open more, if it is of a node. The first open of a node takes memory for an entry. Where memory runs out,
/// nothing changes.
pub fn count_open(by_node: &mut NumMap<u64>, kind: &OpenKind) -> Result<(), AllocError>
    requires { (n : ℕ) → number (map.get by_node.old n) < 2 ^ 63 }
    ensures more { OnOk result ((n : ℕ) → number (map.get by_node.new n) ≡ number (map.get by_node.old n) + one_of_node n kind.now) }
    ensures no_zero { HasNoZero by_node.old → HasNoZero by_node.new }
    ensures err { OnErr result (by_node.new ≡ by_node.old) }
{
    let Some(node) = node_of(kind) else {
        return Ok(());
    };
    let count = count_of(by_node, node);
    by_node.insert(node.0, count + 1)?;
    Ok(())
}

/// Counts one open less, if it is of a node. The last open of a node takes the node's entry away. Takes no memory.
pub fn uncount_open(by_node: &mut NumMap<u64>, kind: &OpenKind)
    requires { (n : ℕ) → one_of_node n kind.now ≤ number (map.get by_node.old n) }
    ensures less { (n : ℕ) → number (map.get by_node.new n) + one_of_node n kind.now ≡ number (map.get by_node.old n) }
    ensures no_zero { HasNoZero by_node.old → HasNoZero by_node.new }
{
    let Some(node) = node_of(kind) else {
        return;
    };
    let count = count_of(by_node, node);
    if count > 1 {
        by_node.replace(node.0, count - 1);
    } else {
        by_node.remove(node.0);
    }
}
