//! How much argument data a document gives at least.
ghost use Rattle.std.specs.Prelude.{map};
ghost use Rattle.launch_values.specs.Shape.{of_list, of_pairs};
ghost use Rattle.launch_values.specs.Views.{shape_of, pair_of, content_of_value};
ghost use Rattle.launch_plan.specs.Sizes.{values_in, values_in_content, values_in_items, values_in_pairs, IsLeft};

use launch_values::{Node, NodeValue};

/// What is left of this room where each value that stands in a list of the node's argument data takes a byte of it. Nothing,
/// where they take more.
#[cycle(sizes)]
pub fn room_behind(room: usize, node: &Node) -> Option<usize>
    ensures { IsLeft room (values_in (shape_of node.now)) result }
{
    match &node.tag {
        Some(_) => Some(room),
        None => room_behind_content(room, &node.value),
    }
}

#[cycle(sizes)]
fn room_behind_content(room: usize, value: &NodeValue) -> Option<usize>
    ensures { IsLeft room (values_in_content (content_of_value value.now)) result }
{
    match value {
        NodeValue::Map(pairs) => room_behind_pairs(room, pairs.as_slice()),
        NodeValue::Seq(items) => room_behind_items(room, items.as_slice()),
        _ => Some(room),
    }
}

#[cycle(sizes)]
fn room_behind_items(room: usize, items: &[Node]) -> Option<usize>
    ensures { IsLeft room (values_in_items (of_list (map shape_of items.now))) result }
{
    let mut left = room;
    let mut rest = items;
    while let [item, after @ ..] = rest {
        left = room_behind(left.checked_sub(1)?, item)?;
        rest = after;
    }
    Some(left)
}

#[cycle(sizes)]
fn room_behind_pairs(room: usize, pairs: &[(Node, Node)]) -> Option<usize>
    ensures { IsLeft room (values_in_pairs (of_pairs (map pair_of pairs.now))) result }
{
    let mut left = room;
    let mut rest = pairs;
    while let [(key, value), after @ ..] = rest {
        let behind_key = room_behind(left.checked_sub(2)?, key)?;
        left = room_behind(behind_key, value)?;
        rest = after;
    }
    Some(left)
}
