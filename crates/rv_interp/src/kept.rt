//! One instruction that is kept in a slot, at a place of code.
ghost use Rattle.std.specs.Prelude.{◌≡◌, ◌%◌};
ghost use Rattle.abi_base.specs.Registers.{with_pc};
ghost use Rattle.guest_memory.specs.Written.{KeepsUnwritable};
ghost use Rattle.rv_code.specs.Formats.{NamesRegisters};
ghost use Rattle.rv_code.specs.Operations.{alu_of, register as bits_of};
ghost use Rattle.rv_interp.specs.Instructions.{done_of, execute_of, loaded_of, load_step, plus_immediate, register, store_step};
ghost use Rattle.rv_interp.specs.Machine.{machine};
ghost use Rattle.rv_interp.specs.Slots.{address_at, instr_of};

use crate::atomics::{atomic_at, load_reserved_at, store_conditional_at};
use crate::execution::{Outcome, environment};
use crate::places::{
    address_at, branch_at, done_at, first, jump_near_at, jump_register_at, named_address, second,
};
use crate::reservation::Reservation;
use crate::slot::Slot;
use crate::values::{AtomicOperation, Condition, loaded_value};
use crate::width::width;
use abi_base::{INSTRUCTION_ALIGNMENT, Regs, Signal};
use guest_memory::{GuestMemory, MemFault};
use rv_code::{Op, alu};

// An operation on two registers. It is passed beside the slot, so that where it is a constant no test of it is left.
#[inline(always)]
fn registers(regs: &mut Regs, base: u64, at: &mut u64, slot: &Slot, op: Op) -> Outcome
    requires names { NamesRegisters (instr_of slot.now) }
    requires op { op ≡ slot.now.op }
    ensures { done_of (with_pc regs.old (address_at base at.old)) slot.now.rd (alu_of slot.now.op (register regs.old slot.now.rs1) (register regs.old slot.now.rs2)) ≡ record { outcome = result; regs = with_pc regs.new (address_at base at.new) } }
{
    let value = alu(op, first(regs, slot), second(regs, slot));
    done_at(regs, base, at, slot.rd, value)
}

// An operation on a register and the immediate.
#[inline(always)]
fn immediate(regs: &mut Regs, base: u64, at: &mut u64, slot: &Slot, op: Op) -> Outcome
    requires names { NamesRegisters (instr_of slot.now) }
    requires op { op ≡ slot.now.op }
    ensures { done_of (with_pc regs.old (address_at base at.old)) slot.now.rd (alu_of slot.now.op (register regs.old slot.now.rs1) (bits_of slot.now.imm)) ≡ record { outcome = result; regs = with_pc regs.new (address_at base at.new) } }
{
    let value = alu(op, first(regs, slot), slot.immediate());
    done_at(regs, base, at, slot.rd, value)
}

// LUI.
#[inline(always)]
fn load_upper(regs: &mut Regs, base: u64, at: &mut u64, slot: &Slot) -> Outcome
    requires { NamesRegisters (instr_of slot.now) }
    ensures { done_of (with_pc regs.old (address_at base at.old)) slot.now.rd (bits_of slot.now.imm) ≡ record { outcome = result; regs = with_pc regs.new (address_at base at.new) } }
{
    done_at(regs, base, at, slot.rd, slot.immediate())
}

// AUIPC.
#[inline(always)]
fn add_upper(regs: &mut Regs, base: u64, at: &mut u64, slot: &Slot) -> Outcome
    requires { NamesRegisters (instr_of slot.now) }
    ensures { done_of (with_pc regs.old (address_at base at.old)) slot.now.rd (plus_immediate (address_at base at.old) (instr_of slot.now)) ≡ record { outcome = result; regs = with_pc regs.new (address_at base at.new) } }
{
    let value = address_at(base, *at).wrapping_add(slot.immediate());
    done_at(regs, base, at, slot.rd, value)
}

// Writes what was read to the register.
#[inline(always)]
fn loaded(
    regs: &mut Regs,
    base: u64,
    at: &mut u64,
    slot: &Slot,
    op: Op,
    read: Result<u64, MemFault>,
) -> Outcome
    requires names { NamesRegisters (instr_of slot.now) }
    requires op { op ≡ slot.now.op }
    ensures { loaded_of (with_pc regs.old (address_at base at.old)) (instr_of slot.now) read ≡ record { outcome = result; regs = with_pc regs.new (address_at base at.new) } }
{
    match read {
        Ok(v) => done_at(regs, base, at, slot.rd, loaded_value(op, v)),
        Err(_) => Outcome::Trap(Signal::Segv),
    }
}

// A load.
#[inline(always)]
fn load(
    regs: &mut Regs,
    base: u64,
    at: &mut u64,
    mem: &mut GuestMemory,
    slot: &Slot,
    op: Op,
) -> Outcome
    requires names { NamesRegisters (instr_of slot.now) }
    requires op { op ≡ slot.now.op }
    ensures exact { load_step (with_pc regs.old (address_at base at.old)) mem.old (instr_of slot.now) ≡ record { outcome = result; regs = with_pc regs.new (address_at base at.new) } }
    ensures same { mem.new ≡ mem.old }
{
    let from = named_address(regs, slot);
    if let Some(v) = mem.load_by_hint(from, width(op)) {
        return done_at(regs, base, at, slot.rd, loaded_value(op, v));
    }
    let read = mem.load(from, width(op));
    loaded(regs, base, at, slot, op, read)
}

// A store.
#[inline(always)]
fn store(
    regs: &mut Regs,
    base: u64,
    at: &mut u64,
    mem: &mut GuestMemory,
    slot: &Slot,
    op: Op,
) -> Outcome
    requires names { NamesRegisters (instr_of slot.now) }
    requires op { op ≡ slot.now.op }
    ensures exact { store_step (with_pc regs.old (address_at base at.old)) mem.old (instr_of slot.now) ≡ record { outcome = result; regs = with_pc regs.new (address_at base at.new); memory = mem.new } }
    ensures unwritable { KeepsUnwritable mem.old mem.new }
{
    let to = named_address(regs, slot);
    let value = second(regs, slot);
    if mem.store_by_hint(to, width(op), value) {
        return done_at(regs, base, at, 0, 0);
    }
    match mem.store(to, width(op), value) {
        Ok(()) => done_at(regs, base, at, 0, 0),
        Err(_) => Outcome::Trap(Signal::Segv),
    }
}

/// Does the instruction of a slot, which is at a place of code. It is one match over all operations, and is inlined into the loop that
/// calls it, with what its arms call.
#[inline(always)]
#[tactic(auto, unfolding(crate::specs::Instructions::execute_of))]
pub fn execute_at(
    regs: &mut Regs,
    base: u64,
    at: &mut u64,
    mem: &mut GuestMemory,
    held: &mut Reservation,
    slot: &Slot,
) -> Outcome
    requires aligned { base % INSTRUCTION_ALIGNMENT ≡ 0 }
    requires names { NamesRegisters (instr_of slot.now) }
    ensures exact { execute_of (instr_of slot.now) (machine (with_pc regs.old (address_at base at.old)) mem.old held.old) ≡ record { outcome = result; after = machine (with_pc regs.new (address_at base at.new)) mem.new held.new } }
    ensures unwritable { KeepsUnwritable mem.old mem.new }
{
    match slot.op {
        Op::Lui => load_upper(regs, base, at, slot),
        Op::Auipc => add_upper(regs, base, at, slot),
        Op::Jal => jump_near_at(regs, base, at, slot),
        Op::Jalr => jump_register_at(regs, base, at, slot),
        Op::Beq => branch_at(regs, base, at, slot, Condition::Equal),
        Op::Bne => branch_at(regs, base, at, slot, Condition::NotEqual),
        Op::Blt => branch_at(regs, base, at, slot, Condition::Less),
        Op::Bge => branch_at(regs, base, at, slot, Condition::GreaterOrEqual),
        Op::Bltu => branch_at(regs, base, at, slot, Condition::LessUnsigned),
        Op::Bgeu => branch_at(regs, base, at, slot, Condition::GreaterOrEqualUnsigned),
        Op::Lb => load(regs, base, at, mem, slot, Op::Lb),
        Op::Lh => load(regs, base, at, mem, slot, Op::Lh),
        Op::Lw => load(regs, base, at, mem, slot, Op::Lw),
        Op::Ld => load(regs, base, at, mem, slot, Op::Ld),
        Op::Lbu => load(regs, base, at, mem, slot, Op::Lbu),
        Op::Lhu => load(regs, base, at, mem, slot, Op::Lhu),
        Op::Lwu => load(regs, base, at, mem, slot, Op::Lwu),
        Op::Sb => store(regs, base, at, mem, slot, Op::Sb),
        Op::Sh => store(regs, base, at, mem, slot, Op::Sh),
        Op::Sw => store(regs, base, at, mem, slot, Op::Sw),
        Op::Sd => store(regs, base, at, mem, slot, Op::Sd),
        Op::Addi => immediate(regs, base, at, slot, Op::Addi),
        Op::Slti => immediate(regs, base, at, slot, Op::Slti),
        Op::Sltiu => immediate(regs, base, at, slot, Op::Sltiu),
        Op::Xori => immediate(regs, base, at, slot, Op::Xori),
        Op::Ori => immediate(regs, base, at, slot, Op::Ori),
        Op::Andi => immediate(regs, base, at, slot, Op::Andi),
        Op::Slli => immediate(regs, base, at, slot, Op::Slli),
        Op::Srli => immediate(regs, base, at, slot, Op::Srli),
        Op::Srai => immediate(regs, base, at, slot, Op::Srai),
        Op::Addiw => immediate(regs, base, at, slot, Op::Addiw),
        Op::Slliw => immediate(regs, base, at, slot, Op::Slliw),
        Op::Srliw => immediate(regs, base, at, slot, Op::Srliw),
        Op::Sraiw => immediate(regs, base, at, slot, Op::Sraiw),
        Op::Add => registers(regs, base, at, slot, Op::Add),
        Op::Sub => registers(regs, base, at, slot, Op::Sub),
        Op::Sll => registers(regs, base, at, slot, Op::Sll),
        Op::Slt => registers(regs, base, at, slot, Op::Slt),
        Op::Sltu => registers(regs, base, at, slot, Op::Sltu),
        Op::Xor => registers(regs, base, at, slot, Op::Xor),
        Op::Srl => registers(regs, base, at, slot, Op::Srl),
        Op::Sra => registers(regs, base, at, slot, Op::Sra),
        Op::Or => registers(regs, base, at, slot, Op::Or),
        Op::And => registers(regs, base, at, slot, Op::And),
        Op::Mul => registers(regs, base, at, slot, Op::Mul),
        Op::Mulh => registers(regs, base, at, slot, Op::Mulh),
        Op::Mulhsu => registers(regs, base, at, slot, Op::Mulhsu),
        Op::Mulhu => registers(regs, base, at, slot, Op::Mulhu),
        Op::Div => registers(regs, base, at, slot, Op::Div),
        Op::Divu => registers(regs, base, at, slot, Op::Divu),
        Op::Rem => registers(regs, base, at, slot, Op::Rem),
        Op::Remu => registers(regs, base, at, slot, Op::Remu),
        Op::Addw => registers(regs, base, at, slot, Op::Addw),
        Op::Subw => registers(regs, base, at, slot, Op::Subw),
        Op::Sllw => registers(regs, base, at, slot, Op::Sllw),
        Op::Srlw => registers(regs, base, at, slot, Op::Srlw),
        Op::Sraw => registers(regs, base, at, slot, Op::Sraw),
        Op::Mulw => registers(regs, base, at, slot, Op::Mulw),
        Op::Divw => registers(regs, base, at, slot, Op::Divw),
        Op::Divuw => registers(regs, base, at, slot, Op::Divuw),
        Op::Remw => registers(regs, base, at, slot, Op::Remw),
        Op::Remuw => registers(regs, base, at, slot, Op::Remuw),
        Op::LrW | Op::LrD => load_reserved_at(regs, base, at, mem, held, slot),
        Op::ScW | Op::ScD => store_conditional_at(regs, base, at, mem, held, slot),
        Op::AmoswapW | Op::AmoswapD => atomic_at(regs, base, at, mem, slot, AtomicOperation::Swap),
        Op::AmoaddW | Op::AmoaddD => atomic_at(regs, base, at, mem, slot, AtomicOperation::Add),
        Op::AmoxorW | Op::AmoxorD => atomic_at(regs, base, at, mem, slot, AtomicOperation::Xor),
        Op::AmoandW | Op::AmoandD => atomic_at(regs, base, at, mem, slot, AtomicOperation::And),
        Op::AmoorW | Op::AmoorD => atomic_at(regs, base, at, mem, slot, AtomicOperation::Or),
        Op::AmominW | Op::AmominD => atomic_at(regs, base, at, mem, slot, AtomicOperation::Min),
        Op::AmomaxW | Op::AmomaxD => atomic_at(regs, base, at, mem, slot, AtomicOperation::Max),
        Op::AmominuW | Op::AmominuD => atomic_at(
            regs,
            base,
            at,
            mem,
            slot,
            AtomicOperation::MinUnsigned,
        ),
        Op::AmomaxuW | Op::AmomaxuD => atomic_at(
            regs,
            base,
            at,
            mem,
            slot,
            AtomicOperation::MaxUnsigned,
        ),
        Op::Fence | Op::FenceI => done_at(regs, base, at, 0, 0),
        Op::Ecall => environment(&slot.instr()),
        Op::Ebreak => environment(&slot.instr()),
    }
}
