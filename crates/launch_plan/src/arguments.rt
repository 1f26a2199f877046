//! The argument data of a document.
ghost use Rattle.std.specs.Prelude.{◌≡◌, ◌+◌, ◌<◌, ◌^◌, map, IfOk, OnOk, length};
ghost use Rattle.argdata_codec.specs.Views.{shape_of as argument_of, pair_of as argument_pair_of};
ghost use Rattle.argdata_codec.specs.Shape.{of_list as arguments_of_list, of_pairs as arguments_of_pairs};
ghost use Rattle.launch_values.specs.Shape.{of_list, of_pairs};
ghost use Rattle.launch_values.specs.Views.{shape_of, pair_of, content_of_value};
ghost use Rattle.launch_plan.specs.Tagged.{tagged_in, tagged_in_items, tagged_in_pairs};
ghost use Rattle.launch_plan.specs.Values.{count, value_of, content_value, item_values, pair_values};

use argdata_codec::Value;
use launch_values::{Node, NodeValue};
use lists::{Text, TryClone};
use std::alloc::{AllocError, Global};

/// The value of a node, whose descriptors are numbered from the next number on.
#[cycle(arguments)]
pub fn argument(alloc: Global, next: &mut u32, node: &Node) -> Result<Value, AllocError>
    requires { next.old + count (shape_of node.now) < 2 ^ 32 }
    ensures value { IfOk result (λ value. argument_of value ≡ value_of next.old (shape_of node.now)) }
    ensures next { OnOk result (next.new ≡ next.old + count (shape_of node.now)) }
{
    match &node.tag {
        Some(_) => {
            let number = *next;
            *next += 1;
            Ok(Value::Fd(number))
        }
        None => content(alloc, next, &node.value),
    }
}

#[cycle(arguments)]
fn content(alloc: Global, next: &mut u32, value: &NodeValue) -> Result<Value, AllocError>
    requires { next.old + length (tagged_in (content_of_value value.now)) < 2 ^ 32 }
    ensures value { IfOk result (λ made. argument_of made ≡ content_value next.old (content_of_value value.now)) }
    ensures next { OnOk result (next.new ≡ next.old + length (tagged_in (content_of_value value.now))) }
{
    Ok(match value {
        NodeValue::Null => Value::Null,
        NodeValue::Bool(b) => Value::Bool(*b),
        NodeValue::Int(integer) => Value::Int(integer.value()),
        NodeValue::Str(text) => Value::Str(Text::of(alloc, text.as_str())?),
        NodeValue::Binary(bytes) => Value::Binary(bytes.copy()?),
        NodeValue::Map(pairs) => Value::Map(content_of_pairs(alloc, next, pairs.as_slice())?),
        NodeValue::Seq(items) => Value::Seq(content_of_items(alloc, next, items.as_slice())?),
    })
}

#[cycle(arguments)]
fn content_of_items(alloc: Global, next: &mut u32, items: &[Node]) -> Result<Vec<Value>, AllocError>
    requires { next.old + length (tagged_in_items (of_list (map shape_of items.now))) < 2 ^ 32 }
    ensures value { IfOk result (λ made. arguments_of_list (map argument_of made.items) ≡ item_values next.old (of_list (map shape_of items.now))) }
    ensures next { OnOk result (next.new ≡ next.old + length (tagged_in_items (of_list (map shape_of items.now)))) }
{
    let mut values = Vec::new(alloc);
    for item in items {
        values.push(argument(alloc, next, item)?)?;
    }
    Ok(values)
}

#[cycle(arguments)]
fn content_of_pairs(
    alloc: Global,
    next: &mut u32,
    pairs: &[(Node, Node)],
) -> Result<Vec<(Value, Value)>, AllocError>
    requires { next.old + length (tagged_in_pairs (of_pairs (map pair_of pairs.now))) < 2 ^ 32 }
    ensures value { IfOk result (λ made. arguments_of_pairs (map argument_pair_of made.items) ≡ pair_values next.old (of_pairs (map pair_of pairs.now))) }
    ensures next { OnOk result (next.new ≡ next.old + length (tagged_in_pairs (of_pairs (map pair_of pairs.now)))) }
{
    let mut values = Vec::new(alloc);
    for (key, value) in pairs {
        let key = argument(alloc, next, key)?;
        values.push((key, argument(alloc, next, value)?))?;
    }
    Ok(values)
}
