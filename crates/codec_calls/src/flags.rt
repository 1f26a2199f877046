//! Tests of arguments that several calls share.
ghost use Rattle.std.specs.Prelude.{◌≡◌};
ghost use Rattle.codec_calls.specs.Flags.{has_unknown};

/// Whether the flags hold a bit that is none of the known ones.
pub fn has_unknown(flags: u32, known: u32) -> bool
    ensures { result ≡ has_unknown flags known }
{
    flags & known != flags
}
