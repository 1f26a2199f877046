//! How many bytes of memory an instruction reads or writes.
ghost use Rattle.std.specs.Prelude.{◌≡◌};
ghost use Rattle.guest_memory.specs.Words.{IsWidth};
ghost use Rattle.rv_interp.specs.Kinds.{width_of};

use rv_code::Op;

/// How many bytes a load, a store or an atomic instruction reads or writes: 1, 2, 4 or 8. 8 for the operations that do
/// neither.
#[inline(always)]
pub fn width(op: Op) -> u32
    ensures exact { result ≡ width_of op }
    ensures width { IsWidth result }
{
    match op {
        Op::Lb | Op::Lbu | Op::Sb => 1,
        Op::Lh | Op::Lhu | Op::Sh => 2,
        Op::Lw | Op::Lwu | Op::Sw | Op::LrW | Op::ScW | Op::AmoswapW | Op::AmoaddW => 4,
        Op::AmoxorW | Op::AmoandW | Op::AmoorW | Op::AmominW | Op::AmomaxW | Op::AmominuW => 4,
        Op::AmomaxuW => 4,
        Op::Ld | Op::Sd | Op::LrD | Op::ScD | Op::AmoswapD | Op::AmoaddD | Op::AmoxorD => 8,
        Op::AmoandD | Op::AmoorD | Op::AmominD | Op::AmomaxD | Op::AmominuD | Op::AmomaxuD => 8,
        Op::Lui | Op::Auipc | Op::Jal | Op::Jalr | Op::Beq | Op::Bne | Op::Blt | Op::Bge => 8,
        Op::Bltu | Op::Bgeu | Op::Addi | Op::Slti | Op::Sltiu | Op::Xori | Op::Ori => 8,
        Op::Andi | Op::Slli | Op::Srli | Op::Srai | Op::Addiw | Op::Slliw | Op::Srliw => 8,
        Op::Sraiw | Op::Add | Op::Sub | Op::Sll | Op::Slt | Op::Sltu | Op::Xor | Op::Srl => 8,
        Op::Sra | Op::Or | Op::And | Op::Mul | Op::Mulh | Op::Mulhsu | Op::Mulhu | Op::Div => 8,
        Op::Divu | Op::Rem | Op::Remu | Op::Addw | Op::Subw | Op::Sllw | Op::Srlw | Op::Sraw => 8,
        Op::Mulw | Op::Divw | Op::Divuw | Op::Remw | Op::Remuw | Op::Fence | Op::FenceI => 8,
        Op::Ecall | Op::Ebreak => 8,
    }
}
