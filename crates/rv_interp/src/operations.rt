//! Operations on registers.
ghost use Rattle.std.specs.Prelude.{◌≡◌};
ghost use Rattle.abi_base.specs.Registers.{with_pc};
ghost use Rattle.rv_code.specs.Formats.{NamesRegisters};
ghost use Rattle.rv_code.specs.Operations.{alu_of, register as bits_of};
ghost use Rattle.rv_interp.specs.Instructions.{done_of, plus_immediate, register};

use crate::execution::Outcome;
use crate::jumps::{done, plus_immediate};
use abi_base::Regs;
use rv_code::{Instr, Op, alu};

/// An operation on two registers. It is passed beside the instruction, so that where it is a constant no test of it is
/// left.
#[inline(always)]
pub fn registers(regs: &mut Regs, pc: &mut u64, instr: &Instr, op: Op) -> Outcome
    requires names { NamesRegisters instr.now }
    requires op { op ≡ instr.now.op }
    ensures { done_of (with_pc regs.old pc.old) instr.now.rd (alu_of instr.now.op (register regs.old instr.now.rs1) (register regs.old instr.now.rs2)) ≡ record { outcome = result; regs = with_pc regs.new pc.new } }
{
    let value = alu(op, regs.get(instr.rs1), regs.get(instr.rs2));
    done(regs, pc, instr.rd, value)
}

/// An operation on a register and the immediate. It is passed beside the instruction, as in `registers`.
#[inline(always)]
pub fn immediate(regs: &mut Regs, pc: &mut u64, instr: &Instr, op: Op) -> Outcome
    requires names { NamesRegisters instr.now }
    requires op { op ≡ instr.now.op }
    ensures { done_of (with_pc regs.old pc.old) instr.now.rd (alu_of instr.now.op (register regs.old instr.now.rs1) (bits_of instr.now.imm)) ≡ record { outcome = result; regs = with_pc regs.new pc.new } }
{
    let value = alu(op, regs.get(instr.rs1), instr.imm.cast_unsigned());
    done(regs, pc, instr.rd, value)
}

/// LUI.
#[inline(always)]
pub fn load_upper(regs: &mut Regs, pc: &mut u64, instr: &Instr) -> Outcome
    requires { NamesRegisters instr.now }
    ensures { done_of (with_pc regs.old pc.old) instr.now.rd (bits_of instr.now.imm) ≡ record { outcome = result; regs = with_pc regs.new pc.new } }
{
    done(regs, pc, instr.rd, instr.imm.cast_unsigned())
}

/// AUIPC.
#[inline(always)]
pub fn add_upper(regs: &mut Regs, pc: &mut u64, instr: &Instr) -> Outcome
    requires { NamesRegisters instr.now }
    ensures { done_of (with_pc regs.old pc.old) instr.now.rd (plus_immediate pc.old instr.now) ≡ record { outcome = result; regs = with_pc regs.new pc.new } }
{
    let value = plus_immediate(*pc, instr);
    done(regs, pc, instr.rd, value)
}
