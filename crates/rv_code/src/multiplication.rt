//! The high halves of products (RISC-V unprivileged manual, "Multiplication Operations").
ghost use Rattle.std.specs.Prelude.{◌≡◌, ◌*ℤ◌, FitsSigned};
ghost use Rattle.std.specs.Int.{w64, w128, int_shr};
ghost use Rattle.rv_code.specs.Operations.{mulh_of, mulhsu_of, mulhu_of};

// A product of 128 bits.
fn times(a: i64, b: i128) -> i128
    requires { FitsSigned w128 (a *ℤ b) }
    ensures { result ≡ a *ℤ b }
{
    i128::from(a) * b
}

// The high half of a number of 128 bits.
fn high(product: i128) -> i64
    requires { FitsSigned w64 (int_shr product 64) }
    ensures { result ≡ int_shr product 64 }
{
    (product >> 64) as i64
}

/// MULH: both operands are signed.
pub fn mulh(a: u64, b: u64) -> u64
    ensures { result ≡ mulh_of a b }
{
    high(times(a.cast_signed(), i128::from(b.cast_signed()))).cast_unsigned()
}

/// MULHSU: the first operand is signed.
pub fn mulhsu(a: u64, b: u64) -> u64
    ensures { result ≡ mulhsu_of a b }
{
    high(times(a.cast_signed(), i128::from(b))).cast_unsigned()
}

/// MULHU: neither is signed.
pub fn mulhu(a: u64, b: u64) -> u64
    ensures { result ≡ mulhu_of a b }
{
    a.carrying_mul(b, 0).1
}
