//! How the pc goes on after an instruction. It is a number beside the registers, whose own pc says nothing meanwhile, so that it
//! can lie in a register of the host.
ghost use Rattle.std.specs.Prelude.{◌≡◌, ◌<◌, ◌+◌, ◌%◌, ◌^◌};
ghost use Rattle.abi_base.specs.Registers.{with_pc};
ghost use Rattle.rv_code.specs.Formats.{NamesRegisters};
ghost use Rattle.rv_interp.specs.Instructions.{next, done_of, plus_immediate, jumped_of, jump_register_of, branch_of, address};

use crate::execution::Outcome;
use crate::values::{Condition, is_taken};
use abi_base::{INSTRUCTION_ALIGNMENT, Regs, Signal};
use rv_code::Instr;

/// The address after the instruction at the pc.
#[inline(always)]
pub fn next(pc: u64) -> u64
    ensures { result ≡ (pc + 4) % 2 ^ 64 }
{
    pc.wrapping_add(4)
}

/// The sum of a number and the immediate.
#[inline(always)]
pub fn plus_immediate(a: u64, instr: &Instr) -> u64
    ensures { result ≡ plus_immediate a instr.now }
{
    a.wrapping_add(instr.imm.cast_unsigned())
}

/// The address that a load, a store or a jump to a register names.
#[inline(always)]
pub fn address(regs: &Regs, instr: &Instr) -> u64
    requires { NamesRegisters instr.now }
    ensures { result ≡ address regs.now instr.now }
{
    plus_immediate(regs.get(instr.rs1), instr)
}

/// Writes a register, and goes on behind the instruction.
#[inline(always)]
pub fn done(regs: &mut Regs, pc: &mut u64, rd: u32, value: u64) -> Outcome
    requires { rd < 32 }
    ensures { done_of (with_pc regs.old pc.old) rd value ≡ record { outcome = result; regs = with_pc regs.new pc.new } }
{
    regs.set(rd, value);
    *pc = next(*pc);
    Outcome::Done
}

/// Writes a register, and goes on at the target, which has to be a multiple of 4.
#[inline(always)]
pub fn jump(regs: &mut Regs, pc: &mut u64, rd: u32, value: u64, target: u64) -> Outcome
    requires { rd < 32 }
    ensures { jumped_of (with_pc regs.old pc.old) rd value target ≡ record { outcome = result; regs = with_pc regs.new pc.new } }
{
    if target % INSTRUCTION_ALIGNMENT != 0 {
        return Outcome::Trap(Signal::Bus);
    }
    regs.set(rd, value);
    *pc = target;
    Outcome::Done
}

/// JAL.
#[inline(always)]
pub fn jump_near(regs: &mut Regs, pc: &mut u64, instr: &Instr) -> Outcome
    requires { NamesRegisters instr.now }
    ensures { jumped_of (with_pc regs.old pc.old) instr.now.rd (next (with_pc regs.old pc.old)) (plus_immediate pc.old instr.now) ≡ record { outcome = result; regs = with_pc regs.new pc.new } }
{
    let link = next(*pc);
    let target = plus_immediate(*pc, instr);
    jump(regs, pc, instr.rd, link, target)
}

/// JALR: the register is read before it is written.
#[inline(always)]
pub fn jump_register(regs: &mut Regs, pc: &mut u64, instr: &Instr) -> Outcome
    requires { NamesRegisters instr.now }
    ensures { jump_register_of (with_pc regs.old pc.old) instr.now ≡ record { outcome = result; regs = with_pc regs.new pc.new } }
{
    let target = address(regs, instr);
    let link = next(*pc);
    jump(regs, pc, instr.rd, link, target - target % 2)
}

/// A branch. Its condition is passed beside it, so that where it is a constant no test of it is left.
#[inline(always)]
pub fn branch(regs: &mut Regs, pc: &mut u64, instr: &Instr, condition: Condition) -> Outcome
    requires { NamesRegisters instr.now }
    ensures { branch_of (with_pc regs.old pc.old) condition instr.now ≡ record { outcome = result; regs = with_pc regs.new pc.new } }
{
    if is_taken(condition, regs.get(instr.rs1), regs.get(instr.rs2)) {
        let target = plus_immediate(*pc, instr);
        jump(regs, pc, 0, 0, target)
    } else {
        done(regs, pc, 0, 0)
    }
}
