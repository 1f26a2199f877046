//! Tags of nodes.
ghost use Rattle.std.specs.Prelude.{◌≡◌, IfOk};

use crate::node_text::NodeText;
use std::alloc::{AllocError, Global};
use std::marker::Model;

/// The name of a tag in UTF-8, seen as the list of its bytes. It lies apart, since few nodes have one.
#[derive(Drop)]
pub struct NodeTag {
    name: Box<NodeText>,
}

impl Model for NodeTag {
    ghost use Rattle.std.specs.Prelude.{List, ℕ};

    ghost Value = { List ℕ };

    ghost view = { λ a. a.name.value };
}

impl NodeTag {
    /// A copy of this name.
    pub fn of(alloc: Global, name: &str) -> Result<Self, AllocError>
        ensures { IfOk result (λ made. made ≡ name.now) }
    {
        Ok(NodeTag {
            name: Box::new(alloc, NodeText::of(alloc, name)?)?,
        })
    }

    /// The name, without its `!`.
    pub fn as_str(&self) -> &str
        ensures { result.now ≡ self.now }
    {
        self.name.as_str()
    }
}
