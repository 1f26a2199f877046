//! The fields of a word (RISC-V unprivileged manual, "Base Instruction Formats").
ghost use Rattle.rv_words.specs.Fields.{AreFields, HasFields};

/// The fields of format R. The other formats have their immediates in places of these.
#[derive(Clone, Copy)]
pub struct Fields {
    /// Bits 6 to 0.
    pub opcode: u32,
    /// Bits 11 to 7.
    pub rd: u32,
    /// Bits 14 to 12.
    pub funct3: u32,
    /// Bits 19 to 15.
    pub rs1: u32,
    /// Bits 24 to 20.
    pub rs2: u32,
    /// Bits 31 to 25.
    pub funct7: u32,
}

/// The word that has these fields.
pub fn word(fields: Fields) -> u32
    requires { AreFields fields }
    ensures { HasFields result fields }
{
    fields.funct7 * 0x200_0000
        + fields.rs2 * 0x10_0000
        + fields.rs1 * 0x8000
        + fields.funct3 * 0x1000
        + fields.rd * 0x80
        + fields.opcode
}
