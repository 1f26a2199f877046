//! The immediates of the formats (RISC-V unprivileged manual, "Immediate Encoding Variants").
ghost use Rattle.std.specs.Prelude.{◌≡◌};
ghost use Rattle.rv_code.specs.Immediates.{immediate_i_of, immediate_s_of, immediate_b_of, immediate_u_of, immediate_j_of};

/// That of format I, of 12 bits.
pub fn immediate_i(word: u32) -> i64
    ensures { result ≡ immediate_i_of word }
{
    let field = i64::from(word >> 20);
    if field < 2048 { field } else { field - 4096 }
}

/// That of format S, of 12 bits.
pub fn immediate_s(word: u32) -> i64
    ensures { result ≡ immediate_s_of word }
{
    let field = i64::from((word >> 25) * 32 + (word >> 7) % 32);
    if field < 2048 { field } else { field - 4096 }
}

/// That of format B, of 13 bits.
pub fn immediate_b(word: u32) -> i64
    ensures { result ≡ immediate_b_of word }
{
    let field = i64::from(
        (word >> 31) * 4096
            + (word >> 7) % 2 * 2048
            + (word >> 25) % 64 * 32
            + (word >> 8) % 16 * 2,
    );
    if field < 4096 { field } else { field - 8192 }
}

/// That of format U, of 32 bits.
pub fn immediate_u(word: u32) -> i64
    ensures { result ≡ immediate_u_of word }
{
    let field = i64::from((word >> 12) * 4096);
    if field < 0x8000_0000 {
        field
    } else {
        field - 0x1_0000_0000
    }
}

/// That of format J, of 21 bits.
pub fn immediate_j(word: u32) -> i64
    ensures { result ≡ immediate_j_of word }
{
    let field = i64::from(
        (word >> 31) * 0x10_0000
            + (word >> 12) % 256 * 4096
            + (word >> 20) % 2 * 2048
            + (word >> 21) % 1024 * 2,
    );
    if field < 0x10_0000 {
        field
    } else {
        field - 0x20_0000
    }
}
