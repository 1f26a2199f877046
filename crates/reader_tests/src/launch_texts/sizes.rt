//! How many entries documents have that give more argument data than there may be.
use crate::launch_texts::long_text::Part::{self, Numbers, Times};
use crate::launch_texts::long_text::long_text;
use launch_yaml::{NodeValue, parse};
use std::alloc::Global;

// Parts of a text, and how many pairs or items its root has.
const MANY: &[(&[Part], usize)] = &[
    (&[Numbers("key", 10_000, ": 0\n")], 10_000),
    (
        &[Times("{", 1), Numbers("", 10_000, ": a, "), Times("}", 1)],
        10_000,
    ),
    (
        &[Times("[", 1), Times("a,", 524_288), Times("]", 1)],
        524_288,
    ),
];

fn size_of(value: &NodeValue) -> usize {
    match value {
        NodeValue::Map(pairs) => pairs.as_slice().len(),
        NodeValue::Seq(items) => items.as_slice().len(),
        _ => 0,
    }
}

// How many pairs or items the root of a long text has.
fn size_of_parts(alloc: Global, parts: &[Part]) -> Option<usize> {
    match long_text(alloc, parts) {
        Ok(text) => match parse(alloc, text.as_bytes()) {
            Ok(doc) => Some(size_of(&doc.root.value)),
            Err(_) => None,
        },
        Err(_) => None,
    }
}

#[test]
fn many(rt: HostRuntime) {
    for (row, (parts, want)) in MANY.iter().enumerate() {
        assert_eq!(rt; size_of_parts(rt.alloc(), parts), Some(*want), "row {row}");
    }
}
