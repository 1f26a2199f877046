//! The two sides of a channel.
ghost use Rattle.std.specs.Prelude.{◌≡◌};
ghost use Rattle.channels.specs.Channels.{shut_side};

/// A side of a channel.
#[derive(Clone, Copy, Debug, PartialEq, Eq)]
pub enum Side {
    /// The side of the end that reads it.
    Reader,
    /// The side of the end that writes it.
    Writer,
}

/// How a side of a channel stands.
#[derive(Clone, Copy, Debug, PartialEq, Eq)]
pub enum SideState {
    /// There is an end of it.
    Open,
    /// It was shut.
    Shut,
    /// Its end has ended.
    Gone,
}

impl SideState {
    /// A side once it was shut.
    pub fn shut(self) -> SideState
        ensures { result ≡ shut_side self }
    {
        match self {
            SideState::Open | SideState::Shut => SideState::Shut,
            SideState::Gone => SideState::Gone,
        }
    }
}
