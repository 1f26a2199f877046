//! Nodes of a document.

use crate::integer::Integer;
use crate::node_list::NodeList;
use crate::node_pairs::NodePairs;
use crate::node_tag::NodeTag;
use crate::node_text::NodeText;
use lists::Bytes;

/// A value of a document, with its tag.
#[cycle(node)]
#[derive(Drop)]
pub struct Node {
    /// The line on which the tag stands, or the value where it has no tag, from 1.
    pub line: u32,
    /// The name of the tag, without its `!`. `!!binary` is no tag here: it makes a value of bytes.
    pub tag: Option<NodeTag>,
    /// The value.
    pub value: NodeValue,
}

/// A value of a document. A scalar with a tag is a text, whatever it looks like.
#[cycle(node)]
#[derive(Drop)]
pub enum NodeValue {
    /// No value.
    Null,
    /// True or false.
    Bool(bool),
    /// An integer from -2^63 to 2^64 - 1.
    Int(Integer),
    /// A text without zero bytes.
    Str(NodeText),
    /// Bytes that were written in base64.
    Binary(Bytes),
    /// Keys and values in their order. No two keys are equal.
    Map(NodePairs),
    /// Values in their order.
    Seq(NodeList),
}
