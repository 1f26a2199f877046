//! Nodes in an order.
ghost use Rattle.std.specs.Prelude.{◌≡◌, map};
ghost use Rattle.launch_values.specs.Views.{shape_of};

use crate::node::Node;
use std::marker::Model;

/// Nodes in an order, seen as the list of them.
#[cycle(node)]
#[derive(Drop)]
pub struct NodeList {
    items: Vec<Node>,
}

impl Model for NodeList {
    ghost use Rattle.std.specs.Prelude.{List, map};
    ghost use Rattle.std.specs.Coded.{coded_list};
    ghost use Rattle.std.proofs.Common.{arith};
    ghost use Rattle.launch_values.specs.Shape.{Shape, of_list, size_of_items};
    ghost use Rattle.launch_values.specs.Code.{shape_code};

    ghost Value = { List Shape };

    ghost coded = { coded_list shape_code };

    ghost use Rattle.launch_values.specs.Views.{shape_of};

    ghost view = { λ a. map shape_of a.items.items };

    ghost size = { λ xs. size_of_items (of_list xs) };

    ghost use Rattle.launch_values.specs.Sizes.{all_smaller};

    ghost size_decreases = { λ a h. Prim.omega (arith, all_smaller a.items.items) };
}

impl NodeList {
    /// The nodes, in their order.
    pub fn from_vec(items: Vec<Node>) -> Self
        ensures { result ≡ map shape_of items.items }
    {
        let mut items = items;
        // Room for more would stay unused.
        items.shrink_to_fit();
        NodeList { items }
    }

    /// The nodes, in their order.
    pub fn as_slice(&self) -> &[Node]
        ensures { map shape_of result.now ≡ self.now }
    {
        self.items.as_slice()
    }
}
