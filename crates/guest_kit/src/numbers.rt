//! Numbers in names of files.
ghost use Rattle.std.specs.Prelude.{◌≡◌, ◌+◌, ◌++◌, ◌<◌, OnOk};
ghost use Rattle.guest_kit.specs.Trees.{three_digits};

use std::alloc::AllocError;

// The decimal digit of a number below 10.
fn digit(n: u32) -> u8
    requires { n < 10 }
    ensures { result ≡ 48 + n }
{
    b'0' + n as u8
}

/// Puts a number below 1000 at the end, in three decimal digits.
pub(crate) fn push_three_digits(out: &mut Vec<u8>, n: u32) -> Result<(), AllocError>
    requires { n < 1000 }
    ensures { OnOk result (out.new.items ≡ out.old.items ++ three_digits n) }
{
    out.extend_from_slice(&[digit(n / 100), digit(n / 10 % 10), digit(n % 10)])
}
