//! Decoded instructions, in eight bytes each.
ghost use Rattle.std.specs.Prelude.{◌≡◌, IfSome};
ghost use Rattle.rv_code.specs.Formats.{NamesRegisters};
ghost use Rattle.rv_code.specs.Operations.{register as bits_of};
ghost use Rattle.rv_interp.specs.Slots.{instr_of};

use rv_code::{Instr, Op};

/// A decoded instruction.
#[derive(Clone, Copy)]
pub struct Slot {
    pub op: Op,
    pub rd: u8,
    pub rs1: u8,
    pub rs2: u8,
    pub imm: i32,
}

/// A slot with no instruction. EBREAK is in no slot, so that it tells this one from all others.
pub const EMPTY: Slot = Slot {
    op: Op::Ebreak,
    rd: 0,
    rs1: 0,
    rs2: 0,
    imm: 0,
};

/// The slot of an instruction. All immediates have 32 bits at most.
pub fn packed(instr: &Instr) -> Option<Slot>
    requires { NamesRegisters instr.now }
    ensures { IfSome result (λ slot. instr_of slot ≡ instr.now) }
{
    let imm = i32::try_from(instr.imm).ok()?;
    Some(Slot {
        op: instr.op,
        rd: instr.rd as u8,
        rs1: instr.rs1 as u8,
        rs2: instr.rs2 as u8,
        imm,
    })
}

impl Slot {
    /// The instruction.
    #[inline(always)]
    pub fn instr(&self) -> Instr
        ensures { result ≡ instr_of self.now }
    {
        Instr {
            op: self.op,
            rd: u32::from(self.rd),
            rs1: u32::from(self.rs1),
            rs2: u32::from(self.rs2),
            imm: i64::from(self.imm),
        }
    }

    /// The immediate, modulo 2^64.
    #[inline(always)]
    pub fn immediate(&self) -> u64
        ensures { result ≡ bits_of self.now.imm }
    {
        i64::from(self.imm).cast_unsigned()
    }
}
