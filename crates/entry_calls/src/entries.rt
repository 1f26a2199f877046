//! Names in directories.
ghost use Rattle.std.specs.Prelude.{◌≡◌, ℕ, List};
ghost use Rattle.tree_model.specs.Tree.{entry_of};
ghost use Rattle.kernel_model.specs.Families.NameMeaning.{NameOutcome};
ghost use Rattle.kernel_model.specs.Families.NameRemoving.{unless_lost};

use abi_types::ObjId;
use file_tree::Tree;
use tree_model::ROOT;

/// Does nothing: each name in a tree is of a node that is there.
pub fn names_lead(tree: &Tree)
    ensures { (dir : ℕ) (name : List ℕ) (comes : NameOutcome) → unless_lost tree.now (entry_of tree.now dir name) comes ≡ comes }
{
    let _ = tree.node(ObjId(ROOT));
}
