//! One instruction.
ghost use Rattle.std.specs.Prelude.{◌≡◌, ◌≢◌, IfOk};
ghost use Rattle.abi_base.specs.Registers.{with_pc};
ghost use Rattle.guest_memory.specs.Written.{KeepsUnwritable};
ghost use Rattle.rv_code.specs.Formats.{NamesRegisters};
ghost use Rattle.rv_interp.specs.Instructions.{execute_of, instruction_at, step_of};
ghost use Rattle.rv_interp.specs.Machine.{machine};

use crate::atomics::{atomic, load_reserved, store_conditional};
use crate::jumps::{branch, done, jump_near, jump_register};
use crate::loads::{load, store};
use crate::operations::{add_upper, immediate, load_upper, registers};
use crate::reservation::Reservation;
use crate::values::{AtomicOperation, Condition};
use abi_base::{Regs, Signal};
use guest_memory::GuestMemory;
use rv_code::{Instr, Op, decode};

/// How an instruction ended.
#[derive(Clone, Copy, Debug, PartialEq, Eq)]
pub enum Outcome {
    /// It was done, and the next one is next.
    Done,
    /// It is an ECALL, which isn't done: nothing changed, and the pc stands at it.
    Ecall,
    /// It can't be done, for this reason: nothing changed.
    Trap(Signal),
}

/// The instruction at an address. A word that can't be fetched is a trap by SEGV, and one that is no instruction by ILL.
#[tactic(auto, unfolding(crate::specs::Instructions::instruction_at))]
pub fn instruction(mem: &mut GuestMemory, pc: u64) -> Result<Instr, Signal>
    ensures exact { result ≡ instruction_at mem.old pc }
    ensures registers { IfOk result NamesRegisters }
    ensures same { mem.new ≡ mem.old }
{
    match mem.fetch(pc) {
        Ok(word) => decode(word).ok_or(Signal::Ill),
        Err(_) => Err(Signal::Segv),
    }
}

/// Does the instruction at the pc. A word that can't be fetched traps by SEGV, and one that is no instruction by ILL.
#[inline]
#[tactic(auto, unfolding(crate::specs::Instructions::step_of))]
pub fn step(regs: &mut Regs, mem: &mut GuestMemory, held: &mut Reservation) -> Outcome
    ensures exact { step_of (machine regs.old mem.old held.old) ≡ record { outcome = result; after = machine regs.new mem.new held.new } }
    ensures unchanged { result ≢ Outcome.Done → (regs.new ≡ regs.old) × (mem.new ≡ mem.old) × (held.new ≡ held.old) }
    ensures unwritable { KeepsUnwritable mem.old mem.new }
{
    let mut pc = regs.pc();
    match instruction(mem, pc) {
        Ok(instr) => {
            let outcome = execute(regs, &mut pc, mem, held, &instr);
            regs.set_pc(pc);
            outcome
        }
        Err(signal) => Outcome::Trap(signal),
    }
}

// ECALL and EBREAK. It is called and not inlined: where an arm of `execute` only gave a constant, that constant would be
// set before each instruction.
#[cold]
#[inline(never)]
pub fn environment(instr: &Instr) -> Outcome
    ensures ecall { instr.now.op ≡ Op.Ecall → result ≡ Outcome.Ecall }
    ensures ebreak { instr.now.op ≡ Op.Ebreak → result ≡ Outcome.Trap Signal.Trap }
{
    if instr.op == Op::Ecall {
        Outcome::Ecall
    } else {
        Outcome::Trap(Signal::Trap)
    }
}

/// Does a decoded instruction, which is at the pc that is passed beside the registers. It is one match over all operations,
/// and is inlined into `step` with what its arms call.
#[inline(always)]
#[tactic(auto, unfolding(crate::specs::Instructions::execute_of))]
pub fn execute(
    regs: &mut Regs,
    pc: &mut u64,
    mem: &mut GuestMemory,
    held: &mut Reservation,
    instr: &Instr,
) -> Outcome
    requires { NamesRegisters instr.now }
    ensures exact { execute_of instr.now (machine (with_pc regs.old pc.old) mem.old held.old) ≡ record { outcome = result; after = machine (with_pc regs.new pc.new) mem.new held.new } }
    ensures unwritable { KeepsUnwritable mem.old mem.new }
{
    match instr.op {
        Op::Lui => load_upper(regs, pc, instr),
        Op::Auipc => add_upper(regs, pc, instr),
        Op::Jal => jump_near(regs, pc, instr),
        Op::Jalr => jump_register(regs, pc, instr),
        Op::Beq => branch(regs, pc, instr, Condition::Equal),
        Op::Bne => branch(regs, pc, instr, Condition::NotEqual),
        Op::Blt => branch(regs, pc, instr, Condition::Less),
        Op::Bge => branch(regs, pc, instr, Condition::GreaterOrEqual),
        Op::Bltu => branch(regs, pc, instr, Condition::LessUnsigned),
        Op::Bgeu => branch(regs, pc, instr, Condition::GreaterOrEqualUnsigned),
        Op::Lb => load(regs, pc, mem, instr, Op::Lb),
        Op::Lh => load(regs, pc, mem, instr, Op::Lh),
        Op::Lw => load(regs, pc, mem, instr, Op::Lw),
        Op::Ld => load(regs, pc, mem, instr, Op::Ld),
        Op::Lbu => load(regs, pc, mem, instr, Op::Lbu),
        Op::Lhu => load(regs, pc, mem, instr, Op::Lhu),
        Op::Lwu => load(regs, pc, mem, instr, Op::Lwu),
        Op::Sb => store(regs, pc, mem, instr, Op::Sb),
        Op::Sh => store(regs, pc, mem, instr, Op::Sh),
        Op::Sw => store(regs, pc, mem, instr, Op::Sw),
        Op::Sd => store(regs, pc, mem, instr, Op::Sd),
        Op::Addi => immediate(regs, pc, instr, Op::Addi),
        Op::Slti => immediate(regs, pc, instr, Op::Slti),
        Op::Sltiu => immediate(regs, pc, instr, Op::Sltiu),
        Op::Xori => immediate(regs, pc, instr, Op::Xori),
        Op::Ori => immediate(regs, pc, instr, Op::Ori),
        Op::Andi => immediate(regs, pc, instr, Op::Andi),
        Op::Slli => immediate(regs, pc, instr, Op::Slli),
        Op::Srli => immediate(regs, pc, instr, Op::Srli),
        Op::Srai => immediate(regs, pc, instr, Op::Srai),
        Op::Addiw => immediate(regs, pc, instr, Op::Addiw),
        Op::Slliw => immediate(regs, pc, instr, Op::Slliw),
        Op::Srliw => immediate(regs, pc, instr, Op::Srliw),
        Op::Sraiw => immediate(regs, pc, instr, Op::Sraiw),
        Op::Add => registers(regs, pc, instr, Op::Add),
        Op::Sub => registers(regs, pc, instr, Op::Sub),
        Op::Sll => registers(regs, pc, instr, Op::Sll),
        Op::Slt => registers(regs, pc, instr, Op::Slt),
        Op::Sltu => registers(regs, pc, instr, Op::Sltu),
        Op::Xor => registers(regs, pc, instr, Op::Xor),
        Op::Srl => registers(regs, pc, instr, Op::Srl),
        Op::Sra => registers(regs, pc, instr, Op::Sra),
        Op::Or => registers(regs, pc, instr, Op::Or),
        Op::And => registers(regs, pc, instr, Op::And),
        Op::Mul => registers(regs, pc, instr, Op::Mul),
        Op::Mulh => registers(regs, pc, instr, Op::Mulh),
        Op::Mulhsu => registers(regs, pc, instr, Op::Mulhsu),
        Op::Mulhu => registers(regs, pc, instr, Op::Mulhu),
        Op::Div => registers(regs, pc, instr, Op::Div),
        Op::Divu => registers(regs, pc, instr, Op::Divu),
        Op::Rem => registers(regs, pc, instr, Op::Rem),
        Op::Remu => registers(regs, pc, instr, Op::Remu),
        Op::Addw => registers(regs, pc, instr, Op::Addw),
        Op::Subw => registers(regs, pc, instr, Op::Subw),
        Op::Sllw => registers(regs, pc, instr, Op::Sllw),
        Op::Srlw => registers(regs, pc, instr, Op::Srlw),
        Op::Sraw => registers(regs, pc, instr, Op::Sraw),
        Op::Mulw => registers(regs, pc, instr, Op::Mulw),
        Op::Divw => registers(regs, pc, instr, Op::Divw),
        Op::Divuw => registers(regs, pc, instr, Op::Divuw),
        Op::Remw => registers(regs, pc, instr, Op::Remw),
        Op::Remuw => registers(regs, pc, instr, Op::Remuw),
        Op::LrW | Op::LrD => load_reserved(regs, pc, mem, held, instr),
        Op::ScW | Op::ScD => store_conditional(regs, pc, mem, held, instr),
        Op::AmoswapW | Op::AmoswapD => atomic(regs, pc, mem, instr, AtomicOperation::Swap),
        Op::AmoaddW | Op::AmoaddD => atomic(regs, pc, mem, instr, AtomicOperation::Add),
        Op::AmoxorW | Op::AmoxorD => atomic(regs, pc, mem, instr, AtomicOperation::Xor),
        Op::AmoandW | Op::AmoandD => atomic(regs, pc, mem, instr, AtomicOperation::And),
        Op::AmoorW | Op::AmoorD => atomic(regs, pc, mem, instr, AtomicOperation::Or),
        Op::AmominW | Op::AmominD => atomic(regs, pc, mem, instr, AtomicOperation::Min),
        Op::AmomaxW | Op::AmomaxD => atomic(regs, pc, mem, instr, AtomicOperation::Max),
        Op::AmominuW | Op::AmominuD => atomic(regs, pc, mem, instr, AtomicOperation::MinUnsigned),
        Op::AmomaxuW | Op::AmomaxuD => atomic(regs, pc, mem, instr, AtomicOperation::MaxUnsigned),
        Op::Fence | Op::FenceI => done(regs, pc, 0, 0),
        Op::Ecall => environment(instr),
        Op::Ebreak => environment(instr),
    }
}
