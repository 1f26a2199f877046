//! Paths in a tree.
ghost use Rattle.std.specs.Prelude.{◌≡◌};
ghost use Rattle.tree_model.specs.declared.limits.TheConstants.{ROOT};
ghost use Rattle.tree_records.specs.Paths.{parent};
ghost use Rattle.tree_records.specs.Reading.{names_in};
ghost use Rattle.tree_document.specs.Building.{node_at};

use abi_types::ObjId;
use file_tree::Tree;
use tree_model::ROOT;
use tree_records::Path;

/// The node that the path leads to from the root.
pub fn node_of(tree: &Tree, path: &Path) -> Option<ObjId>
    ensures { result ≡ node_at tree.now ROOT path.now }
{
    names_lead(tree, path.as_bytes())
}

/// The node that all names of the path but the last lead to from the root.
pub fn parent_of(tree: &Tree, path: &Path) -> Option<ObjId>
    ensures { result ≡ node_at tree.now ROOT (parent path.now) }
{
    let parent = path.parent();
    if parent.is_empty() {
        Some(ObjId(ROOT))
    } else {
        names_lead(tree, parent)
    }
}

// The node that names with a `/` between two lead to from the root.
fn names_lead(tree: &Tree, path: &[u8]) -> Option<ObjId>
    ensures { result ≡ node_at tree.now ROOT (names_in path.now) }
{
    let mut node = ObjId(ROOT);
    for name in path.split(|byte| *byte == b'/') {
        node = tree.entry(node, name)?;
    }
    Some(node)
}
