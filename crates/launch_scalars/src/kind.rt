//! The kinds of faults in a launch file.

/// What is wrong in a launch file. Of two faults at one place the one with the lower number counts.
#[derive(Clone, Copy, Debug, Drop, PartialEq, Eq)]
pub enum YamlKind {
    /// A line is deeper than what it stands in allows, or stands between two columns.
    Indent = 1,
    /// A tab in indentation.
    Tab = 2,
    /// A quoted scalar isn't closed in its line.
    Quote = 3,
    /// An escape of a double-quoted scalar that isn't one of those there are, or that stands for no character.
    Escape = 4,
    /// A flow value isn't closed in its line, or goes on otherwise than it may.
    Flow = 5,
    /// A tag of another form, one more tag, or `!!binary` before what isn't a scalar.
    Tag = 6,
    /// A key that its map has already.
    DuplicateKey = 7,
    /// An anchor or an alias.
    Anchor = 8,
    /// A block scalar.
    BlockScalar = 9,
    /// A number with a point or an exponent, an infinity, or what is no number.
    Float = 10,
    /// An integer below -2^63 or above 2^64 - 1.
    IntegerRange = 11,
    /// Text behind the document, or behind a value in its line.
    End = 12,
    /// The 65th map or sequence inside one another.
    Depth = 13,
    /// Bytes that aren't UTF-8, a control character, or a character that may not stand where it does.
    Character = 14,
    /// A `!!binary` scalar that isn't base64.
    Base64 = 15,
}
