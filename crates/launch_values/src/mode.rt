//! How a scalar is read.

/// What a scalar's tag makes of it.
#[derive(Clone, Copy, Drop)]
pub enum Mode {
    /// No tag: a plain scalar is what it looks like.
    Resolved,
    /// A tag with a name: a text, whatever it looks like.
    Verbatim,
    /// `!!binary`: bytes in base64.
    Base64,
}
