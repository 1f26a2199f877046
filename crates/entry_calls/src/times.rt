//! The times of a node that has other names.
ghost use Rattle.std.specs.Prelude.{◌≡◌};
ghost use Rattle.kernel_model.specs.Families.NameRemoving.{with_new_count};

use abi_types::{ObjId, Times};
use file_tree::Tree;

/// The node has other names now. Nothing changes where there is no such node.
pub fn set_recounted(tree: &mut Tree, node: ObjId, now: u64)
    ensures { tree.new ≡ with_new_count now tree.old node }
{
    if let Some(found) = tree.node(node) {
        let times = found.times;
        tree.set_times(node, Times { ctim: now, ..times });
    }
}
