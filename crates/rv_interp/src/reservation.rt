//! The address that a load-reserved reserves for a store-conditional.
ghost use Rattle.std.specs.Prelude.{◌≡◌};
ghost use Rattle.rv_interp.specs.Machine.{nothing_held, holds};

/// The address and the width in bytes of the last LR of a turn, until an SC ends it.
#[derive(Clone, Copy)]
pub struct Reservation {
    pub held: Option<(u64, u32)>,
}

impl Reservation {
    /// No address is reserved, as at the beginning of a turn.
    pub fn none() -> Self
        ensures { result ≡ nothing_held }
    {
        Reservation { held: None }
    }

    /// Whether the reservation is of this address and width.
    pub fn holds(&self, at: u64, width: u32) -> bool
        ensures { result ≡ holds self.now at width }
    {
        match self.held {
            Some((address, bytes)) => address == at && bytes == width,
            None => false,
        }
    }
}
