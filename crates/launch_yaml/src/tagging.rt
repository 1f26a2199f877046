//! What stands before a value: nothing, or a tag.
ghost use Rattle.std.specs.Prelude.{◌≡◌};
ghost use Rattle.launch_values.specs.Views.{shape_of, content_of_value};
ghost use Rattle.launch_yaml.specs.Blocks.{is_untagged, mode_of, node_of, absent, binary_place};
ghost use Rattle.lists.specs.Results.{Gives};
ghost use Rattle.launch_yaml.specs.TaggingViews.{tagging_view};

use launch_lines::fault::Fault;
use launch_values::{Mode, Node, NodeTag, NodeValue};
use lists::Stop;

/// What stands before a value.
#[derive(Drop)]
pub enum Tagging {
    /// Nothing.
    Untagged,
    /// A tag with a name.
    Tagged {
        /// The number of its line.
        line: u32,
        /// Its name.
        name: NodeTag,
    },
    /// `!!binary`, with its place.
    Base64(Fault),
}

impl Tagging {
    /// Nothing stands before the value.
    pub fn is_untagged(&self) -> bool
        ensures { result ≡ is_untagged (tagging_view self.now) }
    {
        matches!(self, Tagging::Untagged)
    }

    /// How a scalar behind it is read.
    pub fn mode(&self) -> Mode
        ensures { result ≡ mode_of (tagging_view self.now) }
    {
        match self {
            Tagging::Untagged => Mode::Resolved,
            Tagging::Tagged { .. } => Mode::Verbatim,
            Tagging::Base64(_) => Mode::Base64,
        }
    }

    /// The place of a `!!binary`.
    pub fn binary_place(&self) -> Option<Fault>
        ensures { result ≡ binary_place (tagging_view self.now) }
    {
        match self {
            Tagging::Base64(place) => Some(*place),
            _ => None,
        }
    }

    /// The value on a line as a node.
    pub fn into_node(self, line: u32, value: NodeValue) -> Node
        ensures { shape_of result ≡ node_of (tagging_view self) line (content_of_value value) }
    {
        match self {
            Tagging::Untagged => Node {
                line,
                tag: None,
                value,
            },
            Tagging::Tagged { line, name } => Node {
                line,
                tag: Some(name),
                value,
            },
            Tagging::Base64(place) => Node {
                line: place.line,
                tag: None,
                value,
            },
        }
    }

    /// A node where no value stands.
    pub fn absent(self, line: u32) -> Result<Node, Stop<Fault>>
        ensures { Gives shape_of result (absent (tagging_view self) line) }
    {
        match self {
            Tagging::Base64(place) => Err(Stop::At(place)),
            other => Ok(other.into_node(line, NodeValue::Null)),
        }
    }
}
