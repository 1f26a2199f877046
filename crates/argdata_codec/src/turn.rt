//! What a field of a sequence or of a map is.
ghost use Rattle.std.specs.Prelude.{◌≡◌};
ghost use Rattle.argdata_codec.specs.Places.{next_turn, may_leave};

/// What the next field of a container is.
#[derive(Clone, Copy, Drop)]
pub enum Turn {
    /// A value of a sequence.
    Item,
    /// A key of a map.
    Key,
    /// The value to a key of a map.
    Value,
}

/// What the next byte of a field's length does.
#[derive(Clone, Copy, Drop)]
pub enum LengthStep {
    /// No encoding goes on with it.
    Stops,
    /// It is a group, and brings the groups to this number.
    Goes(u128),
    /// It is the last group, of this length.
    Ends(u128),
}

impl Turn {
    /// What the field behind it is.
    pub fn next(self) -> Turn
        ensures { result ≡ next_turn self }
    {
        match self {
            Turn::Item => Turn::Item,
            Turn::Key => Turn::Value,
            Turn::Value => Turn::Key,
        }
    }

    /// A container may end so many bytes behind the field.
    pub fn may_leave(self, left: u128) -> bool
        ensures { result ≡ may_leave self left }
    {
        match self {
            Turn::Item => true,
            Turn::Key => left > 0,
            Turn::Value => left != 1,
        }
    }
}
