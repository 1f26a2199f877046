//! Where a thread may stand.
ghost use Rattle.std.specs.Prelude.{◌≡◌};
ghost use Rattle.wait_set.specs.Spots.{same_spot, kind, number};

/// Where a thread may stand: at a channel, at the end of a process, or at a moment.
#[derive(Clone, Copy)]
pub enum Spot {
    Channel(u64),
    Ended(u64),
    Moment(u64),
}

impl Spot {
    /// Whether it is the same spot.
    pub fn is_same(self, other: Spot) -> bool
        ensures { result ≡ same_spot self other }
    {
        self.kind() == other.kind() && self.number() == other.number()
    }

    // Which kind of spot it is, counted from 0.
    fn kind(self) -> u8
        ensures { result ≡ kind self }
    {
        match self {
            Spot::Channel(_) => 0,
            Spot::Ended(_) => 1,
            Spot::Moment(_) => 2,
        }
    }

    // Its number among those of its kind.
    fn number(self) -> u64
        ensures { result ≡ number self }
    {
        match self {
            Spot::Channel(number) => number,
            Spot::Ended(number) => number,
            Spot::Moment(number) => number,
        }
    }
}
