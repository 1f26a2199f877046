//! Loads and stores.
ghost use Rattle.std.specs.Prelude.{◌≡◌};
ghost use Rattle.abi_base.specs.Registers.{with_pc};
ghost use Rattle.guest_memory.specs.Written.{KeepsUnwritable};
ghost use Rattle.rv_code.specs.Formats.{NamesRegisters};
ghost use Rattle.rv_interp.specs.Instructions.{loaded_of, load_step, store_step};

use crate::execution::Outcome;
use crate::jumps::{address, done};
use crate::values::loaded_value;
use crate::width::width;
use abi_base::{Regs, Signal};
use guest_memory::{GuestMemory, MemFault};
use rv_code::{Instr, Op};

// Writes what was read to the register.
#[inline(always)]
fn loaded(
    regs: &mut Regs,
    pc: &mut u64,
    instr: &Instr,
    op: Op,
    read: Result<u64, MemFault>,
) -> Outcome
    requires names { NamesRegisters instr.now }
    requires op { op ≡ instr.now.op }
    ensures { loaded_of (with_pc regs.old pc.old) instr.now read ≡ record { outcome = result; regs = with_pc regs.new pc.new } }
{
    match read {
        Ok(v) => done(regs, pc, instr.rd, loaded_value(op, v)),
        Err(_) => Outcome::Trap(Signal::Segv),
    }
}

/// A load. Its operation is passed beside it, so that where it is a constant no test of it is left.
#[inline(always)]
pub fn load(regs: &mut Regs, pc: &mut u64, mem: &mut GuestMemory, instr: &Instr, op: Op) -> Outcome
    requires names { NamesRegisters instr.now }
    requires op { op ≡ instr.now.op }
    ensures exact { load_step (with_pc regs.old pc.old) mem.old instr.now ≡ record { outcome = result; regs = with_pc regs.new pc.new } }
    ensures same { mem.new ≡ mem.old }
{
    let read = mem.load(address(regs, instr), width(op));
    loaded(regs, pc, instr, op, read)
}

/// A store. Its operation is passed beside it, so that where it is a constant no test of it is left.
#[inline(always)]
pub fn store(regs: &mut Regs, pc: &mut u64, mem: &mut GuestMemory, instr: &Instr, op: Op) -> Outcome
    requires names { NamesRegisters instr.now }
    requires op { op ≡ instr.now.op }
    ensures exact { store_step (with_pc regs.old pc.old) mem.old instr.now ≡ record { outcome = result; regs = with_pc regs.new pc.new; memory = mem.new } }
    ensures unwritable { KeepsUnwritable mem.old mem.new }
{
    match mem.store(address(regs, instr), width(op), regs.get(instr.rs2)) {
        Ok(()) => done(regs, pc, 0, 0),
        Err(_) => Outcome::Trap(Signal::Segv),
    }
}
