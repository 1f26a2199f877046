//! The word of each form's instruction, by its operands. `None` exactly where the operands are not the form's.
ghost use Rattle.std.specs.Prelude.{◌≡◌, IsTrue, IfSome, false, length, pos, negsuc};
ghost use Rattle.rv_syntax.specs.Forms.{is_fit};
ghost use Rattle.rv_asm.specs.Instructions.{registers_of, immediate_of, offset_of, store_of, upper_of, branch_of, jump_of, reserve_of, atomic_of, plain_of, address_of, instruction_of, code_of};
ghost use Rattle.rv_asm.specs.Items.{WordIs, PairIs};
ghost use Rattle.rv_syntax.specs.Names.{rows};
ghost use Rattle.rv_asm.specs.Sizes.{size_of_form};
ghost use Rattle.rv_syntax.specs.Forms.{is_directive};
ghost use Rattle.rv_asm.specs.Pieces.{PieceIs, piece_bytes};
ghost use Rattle.rv_words.specs.Ops.{is_register, is_immediate, is_shift, is_word_shift, is_store, is_upper, is_branch, is_atomic, is_reserve, is_plain};

use crate::piece::Piece;
use rv_code::Op;
use rv_syntax::{
    Form, Label, address_register, immediate, label_distance, memory, pair, register, target,
    triple, unsigned,
};
use rv_words::{
    Order, address_words, atomic_word, branch_word, immediate_word, jump_word, plain_word,
    register_word, reserve_word, shift_word, store_word, upper_word, word_shift_word,
};

/// `rd, rs1, rs2`
#[tactic(auto, unfolding(crate::specs::Instructions::registers_of))]
pub fn registers(op: Op, operands: &[u8]) -> Option<u32>
    requires { IsTrue (is_register op) }
    ensures { WordIs result (registers_of op operands.now) }
{
    let (rd, rs1, rs2) = triple(operands)?;
    let rd = register(rd)?;
    let rs1 = register(rs1)?;
    let rs2 = register(rs2)?;
    Some(register_word(op, rd, rs1, rs2))
}

/// `rd, rs1, N`, but a shift.
#[tactic(auto, unfolding(crate::specs::Instructions::immediate_of))]
pub fn immediates(op: Op, operands: &[u8]) -> Option<u32>
    requires { IsTrue (is_immediate op) }
    ensures { WordIs result (immediate_of (negsuc 2047) (pos 2047) op operands.now) }
{
    let (rd, rs1, n) = triple(operands)?;
    let rd = register(rd)?;
    let rs1 = register(rs1)?;
    let n = immediate(n, -2048, 2047)?;
    Some(immediate_word(op, rd, rs1, n))
}

/// `rd, rs1, N`, a shift of 64 bits.
#[tactic(auto, unfolding(crate::specs::Instructions::immediate_of))]
pub fn shifts(op: Op, operands: &[u8]) -> Option<u32>
    requires { IsTrue (is_shift op) }
    ensures { WordIs result (immediate_of (pos 0) (pos 63) op operands.now) }
{
    let (rd, rs1, n) = triple(operands)?;
    let rd = register(rd)?;
    let rs1 = register(rs1)?;
    let n = unsigned(n, 63)?;
    Some(shift_word(op, rd, rs1, n))
}

/// `rd, rs1, N`, a shift of 32 bits.
#[tactic(auto, unfolding(crate::specs::Instructions::immediate_of))]
pub fn word_shifts(op: Op, operands: &[u8]) -> Option<u32>
    requires { IsTrue (is_word_shift op) }
    ensures { WordIs result (immediate_of (pos 0) (pos 31) op operands.now) }
{
    let (rd, rs1, n) = triple(operands)?;
    let rd = register(rd)?;
    let rs1 = register(rs1)?;
    let n = unsigned(n, 31)?;
    Some(word_shift_word(op, rd, rs1, n))
}

/// `rd, N(rs1)`
#[tactic(auto, unfolding(crate::specs::Instructions::offset_of))]
pub fn offset(op: Op, operands: &[u8]) -> Option<u32>
    requires { IsTrue (is_immediate op) }
    ensures { WordIs result (offset_of op operands.now) }
{
    let (rd, place) = pair(operands)?;
    let rd = register(rd)?;
    let (offset, rs1) = memory(place)?;
    Some(immediate_word(op, rd, rs1, offset))
}

/// `rs2, N(rs1)`
#[tactic(auto, unfolding(crate::specs::Instructions::store_of))]
pub fn store(op: Op, operands: &[u8]) -> Option<u32>
    requires { IsTrue (is_store op) }
    ensures { WordIs result (store_of op operands.now) }
{
    let (rs2, place) = pair(operands)?;
    let rs2 = register(rs2)?;
    let (offset, rs1) = memory(place)?;
    Some(store_word(op, rs1, rs2, offset))
}

/// `rd, N`
#[tactic(auto, unfolding(crate::specs::Instructions::upper_of))]
pub fn upper(op: Op, operands: &[u8]) -> Option<u32>
    requires { IsTrue (is_upper op) }
    ensures { WordIs result (upper_of op operands.now) }
{
    let (rd, n) = pair(operands)?;
    let rd = register(rd)?;
    let n = unsigned(n, 0xf_ffff)?;
    Some(upper_word(op, rd, n))
}

/// `rs1, rs2, T`
#[tactic(auto, unfolding(crate::specs::Instructions::branch_of))]
pub fn branch(op: Op, labels: &[Label<'_>], here: u64, operands: &[u8]) -> Option<u32>
    requires { IsTrue (is_branch op) }
    ensures { WordIs result (branch_of op (rows labels.now) here operands.now) }
{
    let (rs1, rs2, place) = triple(operands)?;
    let rs1 = register(rs1)?;
    let rs2 = register(rs2)?;
    let distance = target(labels, here, place, -4096, 4094)?;
    Some(branch_word(op, rs1, rs2, distance))
}

/// `rd, T`
#[tactic(auto, unfolding(crate::specs::Instructions::jump_of))]
pub fn jump(labels: &[Label<'_>], here: u64, operands: &[u8]) -> Option<u32>
    ensures { WordIs result (jump_of (rows labels.now) here operands.now) }
{
    let (rd, place) = pair(operands)?;
    let rd = register(rd)?;
    let distance = target(labels, here, place, -0x10_0000, 0xf_fffe)?;
    Some(jump_word(rd, distance))
}

/// `rd, (rs1)`
#[tactic(auto, unfolding(crate::specs::Instructions::reserve_of))]
pub fn reserve(op: Op, order: Order, operands: &[u8]) -> Option<u32>
    requires { IsTrue (is_reserve op) }
    ensures { WordIs result (reserve_of op order operands.now) }
{
    let (rd, rs1) = pair(operands)?;
    let rd = register(rd)?;
    let rs1 = address_register(rs1)?;
    Some(reserve_word(op, order, rd, rs1))
}

/// `rd, rs2, (rs1)`
#[tactic(auto, unfolding(crate::specs::Instructions::atomic_of))]
pub fn atomic(op: Op, order: Order, operands: &[u8]) -> Option<u32>
    requires { IsTrue (is_atomic op) }
    ensures { WordIs result (atomic_of op order operands.now) }
{
    let (rd, rs2, rs1) = triple(operands)?;
    let rd = register(rd)?;
    let rs2 = register(rs2)?;
    let rs1 = address_register(rs1)?;
    Some(atomic_word(op, order, rd, rs1, rs2))
}

/// No operand.
#[tactic(auto, unfolding(crate::specs::Instructions::plain_of))]
pub fn plain(op: Op, operands: &[u8]) -> Option<u32>
    requires { IsTrue (is_plain op) }
    ensures { WordIs result (plain_of op operands.now) }
{
    if operands.is_empty() {
        Some(plain_word(op))
    } else {
        None
    }
}

/// The word of a form's instruction. `None` for a form that is no single instruction, too.
pub fn instruction(form: Form, labels: &[Label<'_>], here: u64, operands: &[u8]) -> Option<u32>
    requires { IsTrue (is_fit form) }
    ensures { WordIs result (instruction_of form (rows labels.now) here operands.now) }
{
    match form {
        Form::Registers(op) => registers(op, operands),
        Form::Immediate(op) => immediates(op, operands),
        Form::Shift(op) => shifts(op, operands),
        Form::WordShift(op) => word_shifts(op, operands),
        Form::Offset(op) => offset(op, operands),
        Form::Store(op) => store(op, operands),
        Form::Upper(op) => upper(op, operands),
        Form::Branch(op) => branch(op, labels, here, operands),
        Form::Jump => jump(labels, here, operands),
        Form::Reserve(op, order) => reserve(op, order, operands),
        Form::Atomic(op, order) => atomic(op, order, operands),
        Form::Plain(op) => plain(op, operands),
        _ => None,
    }
}

/// `rd, LABEL`
#[tactic(auto, unfolding(crate::specs::Instructions::address_of))]
pub fn address(labels: &[Label<'_>], here: u64, operands: &[u8]) -> Option<(u32, u32)>
    ensures { PairIs result (address_of (rows labels.now) here operands.now) }
{
    let (rd, name) = pair(operands)?;
    let rd = register(rd)?;
    let distance = label_distance(labels, here, name)?;
    Some(address_words(rd, distance))
}

/// The piece of a form that must be placed at a multiple of 4. `None` for a directive, too.
pub fn code<'a>(form: Form, labels: &[Label<'_>], here: u64, operands: &[u8]) -> Option<Piece<'a>>
    requires { IsTrue (is_fit form) }
    ensures exact { PieceIs result (code_of form (rows labels.now) here operands.now) }
    ensures size { is_directive form ≡ false → IfSome result (λ piece. length (piece_bytes piece) ≡ size_of_form form operands.now) }
{
    match form {
        Form::La => {
            let (first, second) = address(labels, here, operands)?;
            Some(Piece::Pair(first, second))
        }
        _ => Some(Piece::Word(instruction(form, labels, here, operands)?)),
    }
}
