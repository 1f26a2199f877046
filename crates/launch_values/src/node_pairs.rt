//! Pairs of a key and a value, in an order.
ghost use Rattle.std.specs.Prelude.{◌≡◌, map};
ghost use Rattle.launch_values.specs.Views.{pair_of};

use crate::node::Node;
use std::marker::Model;

/// Pairs of a key and a value, seen as the list of them.
#[cycle(node)]
#[derive(Drop)]
pub struct NodePairs {
    pairs: Vec<(Node, Node)>,
}

impl Model for NodePairs {
    ghost use Rattle.std.specs.Prelude.{List, map};
    ghost use Rattle.std.specs.Coded.{coded_list, coded×};
    ghost use Rattle.std.proofs.Common.{arith};
    ghost use Rattle.launch_values.specs.Shape.{Shape, of_pairs, size_of_pairs};
    ghost use Rattle.launch_values.specs.Code.{shape_code};

    ghost Value = { List (Shape × Shape) };

    ghost coded = { coded_list (coded× shape_code shape_code) };

    ghost use Rattle.launch_values.specs.Views.{pair_of};

    ghost view = { λ a. map pair_of a.pairs.items };

    ghost size = { λ ps. size_of_pairs (of_pairs ps) };

    ghost use Rattle.launch_values.specs.Sizes.{pairs_smaller};

    ghost size_decreases = { λ a h. Prim.omega (arith, pairs_smaller a.pairs) };
}

impl NodePairs {
    /// The pairs, in their order.
    pub fn from_vec(pairs: Vec<(Node, Node)>) -> Self
        ensures { result ≡ map pair_of pairs.items }
    {
        let mut pairs = pairs;
        // Room for more would stay unused.
        pairs.shrink_to_fit();
        NodePairs { pairs }
    }

    /// The pairs, in their order.
    pub fn as_slice(&self) -> &[(Node, Node)]
        ensures { map pair_of result.now ≡ self.now }
    {
        self.pairs.as_slice()
    }
}
