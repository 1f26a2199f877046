//! Texts of nodes.
ghost use Rattle.std.specs.Prelude.{◌≡◌, IfOk};
ghost use Rattle.std.specs.Str.{IsUtf8};

use arrayvec::ArrayString;
use lists::Text;
use std::alloc::{AllocError, Global};
use std::marker::Model;

// Where the bytes of a text lie. Most texts are short, and memory of its own takes at least 32 bytes.
#[derive(Drop)]
enum Place {
    /// In the node.
    Inside(ArrayString<8>),
    /// In memory of its own.
    Apart(Box<Text>),
}

/// A text in UTF-8, seen as the list of its bytes. Up to 8 bytes take no memory of their own.
#[derive(Drop)]
pub struct NodeText {
    place: Place,
}

impl Model for NodeText {
    ghost use Rattle.std.specs.Prelude.{List, ℕ};
    ghost use Rattle.launch_values.specs.Texts.{bytes_at};

    ghost Value = { List ℕ };

    ghost view = { λ a. bytes_at a.place };
}

impl NodeText {
    /// A copy of this text.
    pub fn of(alloc: Global, text: &str) -> Result<Self, AllocError>
        ensures { IfOk result (λ made. made ≡ text.now) }
    {
        let place = match ArrayString::from(text) {
            Ok(short) => Place::Inside(short),
            Err(_) => Place::Apart(Box::new(alloc, Text::of(alloc, text)?)?),
        };
        Ok(NodeText { place })
    }

    /// The text.
    pub fn as_str(&self) -> &str
        ensures { result.now ≡ self.now }
    {
        match &self.place {
            Place::Inside(short) => short.as_str(),
            Place::Apart(text) => text.as_str(),
        }
    }

    /// The bytes of the text.
    pub fn as_bytes(&self) -> &[u8]
        ensures bytes { result.now ≡ self.now }
        ensures utf8 { IsUtf8 self.now }
    {
        self.as_str().as_bytes()
    }
}
