//! Operations on the low 32 bits, whose results are sign-extended (RISC-V unprivileged manual, "RV64I Base Integer
//! Instruction Set" and "M" Extension).
ghost use Rattle.std.specs.Prelude.{◌≡◌, ◌%◌, ◌^◌};
ghost use Rattle.rv_code.specs.Operations.{low, extended, addw_of, subw_of, sllw_of, srlw_of, sraw_of, mulw_of, divw_of, divuw_of, remw_of, remuw_of};

/// The low 32 bits.
pub fn low(a: u64) -> u32
    ensures { result ≡ low a }
{
    (a & 0xffff_ffff) as u32
}

// A word, sign-extended.
fn extended(word: u32) -> u64
    ensures { result ≡ extended word }
{
    i64::from(word.cast_signed()).cast_unsigned()
}

/// ADDW and ADDIW.
pub fn addw(a: u64, b: u64) -> u64
    ensures { result ≡ addw_of a b }
{
    extended(low(a).wrapping_add(low(b)))
}

/// SUBW.
pub fn subw(a: u64, b: u64) -> u64
    ensures { result ≡ subw_of a b }
{
    extended(low(a).wrapping_sub(low(b)))
}

/// SLLW and SLLIW.
pub fn sllw(a: u64, b: u64) -> u64
    ensures { result ≡ sllw_of a b }
{
    extended(low(a) << (b % 32))
}

/// SRLW and SRLIW.
pub fn srlw(a: u64, b: u64) -> u64
    ensures { result ≡ srlw_of a b }
{
    extended(low(a) >> (b % 32))
}

/// SRAW and SRAIW.
pub fn sraw(a: u64, b: u64) -> u64
    ensures { result ≡ sraw_of a b }
{
    i64::from(low(a).cast_signed() >> (b % 32)).cast_unsigned()
}

/// MULW.
pub fn mulw(a: u64, b: u64) -> u64
    ensures { result ≡ mulw_of a b }
{
    extended(low(a).wrapping_mul(low(b)))
}

/// DIVW, of the low halves.
pub fn divw(a: u32, b: u32) -> u64
    ensures { result ≡ divw_of a b }
{
    if b == 0 {
        u64::MAX
    } else {
        i64::from(a.cast_signed().wrapping_div(b.cast_signed())).cast_unsigned()
    }
}

/// DIVUW, of the low halves.
pub fn divuw(a: u32, b: u32) -> u64
    ensures { result ≡ divuw_of a b }
{
    if b == 0 { u64::MAX } else { extended(a / b) }
}

/// REMW, of the low halves.
pub fn remw(a: u32, b: u32) -> u64
    ensures { result ≡ remw_of a b }
{
    if b == 0 {
        extended(a)
    } else {
        i64::from(a.cast_signed().wrapping_rem(b.cast_signed())).cast_unsigned()
    }
}

/// REMUW, of the low halves.
pub fn remuw(a: u32, b: u32) -> u64
    ensures { result ≡ remuw_of a b }
{
    if b == 0 { extended(a) } else { extended(a % b) }
}
