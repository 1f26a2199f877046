//! Division (RISC-V unprivileged manual, "Division Operations"). A division by zero gives all ones, and the dividend as
//! remainder; the signed overflow gives the dividend, and 0.
ghost use Rattle.std.specs.Prelude.{◌≡◌};
ghost use Rattle.rv_code.specs.Operations.{div_of, divu_of, rem_of, remu_of};

/// DIV.
pub fn div(a: u64, b: u64) -> u64
    ensures { result ≡ div_of a b }
{
    if b == 0 {
        u64::MAX
    } else {
        a.cast_signed()
            .wrapping_div(b.cast_signed())
            .cast_unsigned()
    }
}

/// DIVU.
pub fn divu(a: u64, b: u64) -> u64
    ensures { result ≡ divu_of a b }
{
    if b == 0 { u64::MAX } else { a / b }
}

/// REM.
pub fn rem(a: u64, b: u64) -> u64
    ensures { result ≡ rem_of a b }
{
    if b == 0 {
        a
    } else {
        a.cast_signed()
            .wrapping_rem(b.cast_signed())
            .cast_unsigned()
    }
}

/// REMU.
pub fn remu(a: u64, b: u64) -> u64
    ensures { result ≡ remu_of a b }
{
    if b == 0 { a } else { a % b }
}
