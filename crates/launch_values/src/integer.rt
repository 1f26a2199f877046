//! Integers of nodes.
ghost use Rattle.std.specs.Prelude.{◌≡◌, IsTrue};
ghost use Rattle.launch_scalars.specs.Numbers.{is_in_range};

use std::marker::Model;

/// An integer from -2^63 to 2^64 - 1, in half the room of an `i128`.
#[derive(Drop)]
pub struct Integer {
    is_negative: bool,
    // How far it is from 0, or from -1 where it is negative.
    distance: u64,
}

impl Model for Integer {
    ghost use Rattle.std.specs.Prelude.{ℤ};
    ghost use Rattle.launch_values.specs.Integers.{integer_at};

    ghost Value = { ℤ };

    ghost view = { λ a. integer_at a.is_negative a.distance };
}

impl Integer {
    /// This integer.
    pub fn of(integer: i128) -> Self
        requires { IsTrue (is_in_range integer) }
        ensures { result ≡ integer }
    {
        if integer < 0 {
            Integer {
                is_negative: true,
                distance: (-1 - integer) as u64,
            }
        } else {
            Integer {
                is_negative: false,
                distance: integer as u64,
            }
        }
    }

    /// The integer.
    pub fn value(&self) -> i128
        ensures { result ≡ self.now }
    {
        let distance = self.distance as i128;
        if self.is_negative {
            -1 - distance
        } else {
            distance
        }
    }
}
