//! What texts are, worked out by hand: each row of a table is a text, and the document that it is as `printed` writes it.
use crate::launch_texts::printing::printed;
use launch_yaml::parse;
use std::alloc::{AllocError, Global};
use std::process::Abort;
use std::test::Fail;

type Row = (&'static str, &'static str);

// What a text is, as `printed` writes it.
fn found(alloc: Global, text: &str, with_lines: bool) -> Result<String, AllocError> {
    match parse(alloc, text.as_bytes()) {
        Ok(doc) => printed(alloc, &doc.root, with_lines),
        Err(_) => format!(in alloc; "a fault"),
    }
}

// Each text is what stands beside it.
fn check(rt: &impl Abort, alloc: Global, rows: &[Row], with_lines: bool) -> Result<(), Fail> {
    for (text, expected) in rows {
        let found = found(alloc, text, with_lines)?;
        assert!(rt; found.as_str() == *expected, "{text:?} gives {found}");
    }
    Ok(())
}

// Documents with tags that give nothing.
const TAGS: &[Row] = &[
    ("!a [b, c]", "!a ['b', 'c']"),
    ("x: !socket {}", "{'x': !socket {}}"),
    // The name goes up to a space, in a flow value also up to its characters.
    ("!a,b/c: d", "!a,b/c: 'd'"),
    ("!a[b] c", "!a[b] 'c'"),
    ("!\u{e9} a", "!\u{e9} 'a'"),
    (
        "[!a b, !c [d], !e {f: g}]",
        "[!a 'b', !c ['d'], !e {'f': 'g'}]",
    ),
    ("[!a[b], !c{d: e}]", "[!a ['b'], !c {'d': 'e'}]"),
    // A scalar with a tag is a text.
    (
        "[!a ~, !a true, !a 1, !a 1.5, !a .inf, !a 99999999999999999999]",
        "[!a '~', !a 'true', !a '1', !a '1.5', !a '.inf', !a '99999999999999999999']",
    ),
    ("!a 0x10", "!a '0x10'"),
    // A tag with no value.
    ("!a", "!a ~"),
    ("!a # b", "!a ~"),
    ("a: !b", "{'a': !b ~}"),
    ("a: !b\nc: 1", "{'a': !b ~, 'c': 1}"),
    ("- !a\n- !b # c\n- d", "[!a ~, !b ~, 'd']"),
    ("[!a, !b ]", "[!a ~, !b ~]"),
    ("{a: !b, c: !d}", "{'a': !b ~, 'c': !d ~}"),
    // A sequence on the following lines.
    ("!a\n- b\n- c", "!a ['b', 'c']"),
    ("a: !b\n  - c", "{'a': !b ['c']}"),
    ("a: !b\n- c\n- d\ne: 1", "{'a': !b ['c', 'd'], 'e': 1}"),
    ("a: !b # c\n- d", "{'a': !b ['d']}"),
    ("- !a\n  - b", "[!a ['b']]"),
    ("- a: !b\n  - c\n  d: 1", "[{'a': !b ['c'], 'd': 1}]"),
    // A line with nothing but a tag, before a sequence at the key's column.
    ("a:\n  !b\n- c\n- d\ne: 1", "{'a': !b ['c', 'd'], 'e': 1}"),
    ("a:\n  !b # c\n\n- d", "{'a': !b ['d']}"),
    ("- a:\n    !b\n  - c", "[{'a': !b ['c']}]"),
    ("a:\n  !b\nc: 1", "{'a': !b ~, 'c': 1}"),
    ("a:\n    !b\n  - c", "{'a': !b ['c']}"),
];

#[test]
fn tags(rt: HostRuntime) -> Result<(), Fail> {
    check(&rt, rt.alloc(), TAGS, false)
}

// Documents with the lines of their nodes. A node's line is its tag's.
const LINES: &[Row] = &[
    ("\n\na", "@3 'a'"),
    ("# a\r\n---\r\n!b c", "@3 !b 'c'"),
    (
        "a: 1\n\n# b\nc:\n  - d\n  - !e\n    f",
        "@1 {@1 'a': @1 1, @4 'c': @5 [@5 'd', @6 !e 'f']}",
    ),
    ("a:\n  b: 1", "@1 {@1 'a': @2 {@2 'b': @2 1}}"),
    ("!a\n\n- b", "@1 !a [@3 'b']"),
    ("a:\n  !b\n- c", "@1 {@1 'a': @2 !b [@3 'c']}"),
    ("- {a: [b]}", "@1 [@1 {@1 'a': @1 [@1 'b']}]"),
    ("a: !!binary\n  YQ==", "@1 {@1 'a': @1 <61>}"),
    (
        "a:\n\n- b\n- c: d\n  e: f",
        "@1 {@1 'a': @3 [@3 'b', @4 {@4 'c': @4 'd', @5 'e': @5 'f'}]}",
    ),
];

#[test]
fn lines_of_nodes(rt: HostRuntime) -> Result<(), Fail> {
    check(&rt, rt.alloc(), LINES, true)
}
