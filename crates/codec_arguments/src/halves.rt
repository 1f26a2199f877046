//! The halves of a register.
ghost use Rattle.std.specs.Prelude.{◌≡◌};
ghost use Rattle.codec_arguments.specs.Arguments.{high, low};

/// The low half of a register.
pub fn low(value: u64) -> u32
    ensures { result ≡ low value }
{
    (value & 0xffff_ffff) as u32
}

/// The high half of a register.
pub fn high(value: u64) -> u32
    ensures { result ≡ high value }
{
    (value >> 32) as u32
}
