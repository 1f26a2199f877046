//! Kinds of channels.

/// How a channel keeps what is sent into it.
#[derive(Clone, Copy, Debug, PartialEq, Eq)]
pub enum ChanKind {
    /// Bytes in order, of which a read takes as many as it asks for, whatever sends they came by.
    Stream,
}
