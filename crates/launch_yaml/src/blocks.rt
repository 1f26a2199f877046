//! Values that stand on lines.
ghost use Rattle.std.specs.Prelude.{◌≡◌, ◌∷◌, true, map};
ghost use Rattle.launch_values.specs.Shape.{node as shape_node};
ghost use Rattle.launch_values.specs.Views.{shape_of, content_of_value, pair_of as pair_view};
ghost use Rattle.lists.specs.Results.{Gives};
ghost use Rattle.launch_lines.specs.Views.{row, rows, IsWithin, AllWithin};
ghost use Rattle.launch_yaml.specs.Entries.{Entry};
ghost use Rattle.launch_yaml.specs.Blocks.{begins_block, value_in, value_below, value_with, value_of_entry, item_of, items_at, pairs_at, block_at, root_at};
ghost use Rattle.launch_yaml.specs.TaggingViews.{tagging_view};

use crate::entries;
use crate::keys::{deepest, key_at};
use crate::single::{alone, kind_of_end, tagging_at, wrong_in};
use crate::tagging::Tagging;
use launch_lines::fault::Fault;
use launch_lines::line::{Line, at_line, content, from};
use launch_lines::rows;
use launch_scalars::{YamlKind, spaces};
use launch_values::keys::KeySet;
use launch_values::{Node, NodeList, NodePairs, NodeValue};
use lists::Stop;
use std::alloc::Global;

// A map or a sequence begins here.
fn begins_block(bytes: &[u8]) -> bool
    ensures { result ≡ begins_block bytes.now }
{
    rows::is_dash(bytes) || rows::behind_key(bytes).is_some()
}

// A value without a tag as a node.
fn untagged(line: u32, value: NodeValue) -> Node
    ensures { shape_of result ≡ shape_node line None (content_of_value value) }
{
    Node {
        line,
        tag: None,
        value,
    }
}

/// The root, which begins with a line and goes on with the others. So many maps and sequences may stand inside each other.
pub fn root(
    alloc: Global,
    text: &[u8],
    depth: usize,
    line: Line,
    others: &[Line],
) -> Result<Node, Stop<Fault>>
    requires { AllWithin text.now (line ∷ others.now) }
    ensures { Gives shape_of result (root_at depth (row text.now line) (rows text.now others.now)) }
{
    let bytes = content(text, line);
    value(
        alloc,
        text,
        depth,
        true,
        Tagging::Untagged,
        true,
        line,
        others,
        bytes,
    )
}

// A value from these bytes of a line on, perhaps with a tag. A map or a sequence may begin with fresh bytes alone.
#[cycle(blocks)]
fn value(
    alloc: Global,
    text: &[u8],
    depth: usize,
    is_root: bool,
    tagging: Tagging,
    fresh: bool,
    line: Line,
    others: &[Line],
    bytes: &[u8],
) -> Result<Node, Stop<Fault>>
    requires { AllWithin text.now (line ∷ others.now) }
    ensures { Gives shape_of result (value_with (block_at depth) depth is_root (tagging_view tagging) fresh (row text.now line) (rows text.now others.now) bytes.now) }
{
    match bytes {
        [b'!', rest @ ..] if tagging.is_untagged() => {
            let (tagging, behind) = tagging_at(alloc, text, line, rest)?;
            if rows::behind_key(behind).is_some() {
                return Err(Stop::At(wrong_in(text, line, YamlKind::Character, behind)));
            }
            untagged_value(
                alloc, text, depth, is_root, tagging, false, line, others, behind,
            )
        }
        _ => untagged_value(
            alloc, text, depth, is_root, tagging, fresh, line, others, bytes,
        ),
    }
}

// The same, where no tag may stand first.
#[cycle(blocks)]
fn untagged_value(
    alloc: Global,
    text: &[u8],
    depth: usize,
    is_root: bool,
    tagging: Tagging,
    fresh: bool,
    line: Line,
    others: &[Line],
    bytes: &[u8],
) -> Result<Node, Stop<Fault>>
    requires { AllWithin text.now (line ∷ others.now) }
    ensures { Gives shape_of result (value_in (block_at depth) depth is_root (value_below (block_at depth) depth is_root line.number (rows text.now others.now)) (tagging_view tagging) fresh (row text.now line) (rows text.now others.now) bytes.now) }
{
    match bytes {
        [] => below(alloc, text, depth, is_root, tagging, line.number, others),
        bytes if fresh && begins_block(bytes) => match tagging.binary_place() {
            Some(place) => Err(Stop::At(place)),
            None => {
                let value = block(alloc, text, depth, is_root, line, others)?;
                Ok(tagging.into_node(line.number, value))
            }
        },
        [b'!', ..] => match tagging.binary_place() {
            Some(place) => Err(Stop::At(place)),
            None => Err(Stop::At(wrong_in(text, line, YamlKind::Tag, bytes))),
        },
        [b'[' | b'{', ..] => match tagging.binary_place() {
            Some(place) => Err(Stop::At(place)),
            None => alone(alloc, text, depth, is_root, tagging, line, others, bytes),
        },
        _ => alone(alloc, text, depth, is_root, tagging, line, others, bytes),
    }
}

// A value on the lines behind that of this number, if there are any.
#[cycle(blocks)]
fn below(
    alloc: Global,
    text: &[u8],
    depth: usize,
    is_root: bool,
    tagging: Tagging,
    number: u32,
    others: &[Line],
) -> Result<Node, Stop<Fault>>
    requires { AllWithin text.now others.now }
    ensures { Gives shape_of result (value_below (block_at depth) depth is_root number (rows text.now others.now) (tagging_view tagging)) }
{
    match others {
        [] => tagging.absent(number),
        [line, rest @ ..] => {
            let bytes = content(text, *line);
            value(
                alloc, text, depth, is_root, tagging, true, *line, rest, bytes,
            )
        }
    }
}

// A map or a sequence, in which so many may stand inside each other, itself included.
#[cycle(blocks)]
#[tactic(auto, unfolding(crate::specs::Blocks::block_at))]
fn block(
    alloc: Global,
    text: &[u8],
    depth: usize,
    is_root: bool,
    line: Line,
    others: &[Line],
) -> Result<NodeValue, Stop<Fault>>
    requires { AllWithin text.now (line ∷ others.now) }
    ensures { Gives content_of_value result (block_at depth is_root (row text.now line) (rows text.now others.now)) }
{
    let Some(inside) = depth.checked_sub(1) else {
        return Err(deepest(alloc, text, line));
    };
    if rows::is_dash(content(text, line)) {
        Ok(NodeValue::Seq(NodeList::from_vec(items(alloc, text, inside, is_root, line, others)?)))
    } else {
        Ok(NodeValue::Map(NodePairs::from_vec(pairs(alloc, text, inside, is_root, line, others)?)))
    }
}

// The items of a sequence that begins with a line.
#[cycle(blocks)]
fn items(
    alloc: Global,
    text: &[u8],
    depth: usize,
    is_root: bool,
    line: Line,
    others: &[Line],
) -> Result<Vec<Node>, Stop<Fault>>
    requires { AllWithin text.now (line ∷ others.now) }
    ensures { Gives (λ v. map shape_of v.items) result (items_at (block_at depth) depth is_root (row text.now line) (rows text.now others.now)) }
{
    let mut items = Vec::new(alloc);
    let mut next = Some(line);
    let mut rest = others;
    while let Some(first) = next {
        let (mine, after) = entries::split(text, line.column as usize, false, rest);
        items.push(item(
            alloc,
            text,
            depth,
            line.column as usize,
            is_root,
            first,
            mine,
        )?)?;
        (next, rest) = entries::split_first(after);
    }
    Ok(items)
}

// The item that begins with a line and goes on with the others.
#[cycle(blocks)]
fn item(
    alloc: Global,
    text: &[u8],
    depth: usize,
    column: usize,
    is_root: bool,
    line: Line,
    others: &[Line],
) -> Result<Node, Stop<Fault>>
    requires { AllWithin text.now (line ∷ others.now) }
    ensures { Gives shape_of result (item_of (block_at depth) depth column is_root (record { first = row text.now line; others = rows text.now others.now })) }
{
    match content(text, line) {
        bytes @ [_, rest @ ..] if line.column as usize == column && rows::is_dash(bytes) => {
            let rest = spaces::after_gap(rest);
            let behind = from(text, line, rest);
            value(
                alloc,
                text,
                depth,
                false,
                Tagging::Untagged,
                true,
                behind,
                others,
                content(text, behind),
            )
        }
        _ => Err(Stop::At(at_line(line, kind_of_end(is_root)))),
    }
}

// The keys and values of a map that begins with a line.
#[cycle(blocks)]
fn pairs(
    alloc: Global,
    text: &[u8],
    depth: usize,
    is_root: bool,
    line: Line,
    others: &[Line],
) -> Result<Vec<(Node, Node)>, Stop<Fault>>
    requires { AllWithin text.now (line ∷ others.now) }
    ensures { Gives (λ v. map pair_view v.items) result (pairs_at (block_at depth) depth is_root (row text.now line) (rows text.now others.now)) }
{
    let mut pairs = Vec::new(alloc);
    let mut keys = KeySet::new(alloc);
    let mut next = Some(line);
    let mut rest = others;
    while let Some(first) = next {
        let awaits = rows::awaits_value(content(text, first));
        let (mine, after) = entries::split(text, line.column as usize, awaits, rest);
        let key = key_at(alloc, text, line.column as usize, is_root, &mut keys, first)?;
        let value = entry_value(alloc, text, depth, first, mine)?;
        pairs.push((untagged(first.number, key), value))?;
        (next, rest) = entries::split_first(after);
    }
    Ok(pairs)
}

// The value of the key that a line begins with.
#[cycle(blocks)]
fn entry_value(
    alloc: Global,
    text: &[u8],
    depth: usize,
    line: Line,
    others: &[Line],
) -> Result<Node, Stop<Fault>>
    requires { AllWithin text.now (line ∷ others.now) }
    ensures { Gives shape_of result (value_of_entry (block_at depth) depth (record { first = row text.now line; others = rows text.now others.now })) }
{
    let rest = rows::after_key(content(text, line));
    value(
        alloc,
        text,
        depth,
        false,
        Tagging::Untagged,
        false,
        line,
        others,
        rest,
    )
}
