//! What stands behind a mnemonic.

use rv_code::Op;
use rv_words::Order;

/// What a mnemonic stands for, and so which operands stand behind it.
#[derive(Clone, Copy)]
pub enum Form {
    /// `rd, rs1, rs2`
    Registers(Op),
    /// `rd, rs1, N`
    Immediate(Op),
    /// `rd, rs1, N`, a shift of 64 bits.
    Shift(Op),
    /// `rd, rs1, N`, a shift of 32 bits.
    WordShift(Op),
    /// `rd, N(rs1)`, a load or JALR.
    Offset(Op),
    /// `rs2, N(rs1)`
    Store(Op),
    /// `rd, N`
    Upper(Op),
    /// `rs1, rs2, T`
    Branch(Op),
    /// `rd, T`: JAL.
    Jump,
    /// `rd, (rs1)`
    Reserve(Op, Order),
    /// `rd, rs2, (rs1)`
    Atomic(Op, Order),
    /// No operand.
    Plain(Op),
    /// `rd, LABEL`: two instructions, which together give the label's address.
    La,
    /// `.byte N`
    Byte,
    /// `.word N`
    Word,
    /// `.dword N`
    Dword,
    /// `.zero N`
    Zero,
    /// `.ascii "TEXT"`
    Ascii,
}
