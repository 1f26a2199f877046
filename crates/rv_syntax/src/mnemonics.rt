//! The mnemonics, and what each stands for.
ghost use Rattle.std.specs.Prelude.{◌≡◌, ◌||◌, IfSome, IsTrue};
ghost use Rattle.rv_syntax.specs.Forms.{is_fit};
ghost use Rattle.rv_syntax.specs.Mnemonics.{mnemonics, word_atomics, double_atomics, orders, atomic_form, atomic_at, atomic_of, form_of};
ghost use Rattle.rv_syntax.specs.Names.{lookup};
ghost use Rattle.rv_words.specs.Ops.{is_atomic, is_reserve};

use crate::form::Form;
use crate::names::{Named, lookup};
use crate::text::split_at;
use rv_code::Op;
use rv_words::Order;

// The mnemonics but those of atomic instructions.
const MNEMONICS: [Named<'static, Form>; 72] = [
    (b"add", Form::Registers(Op::Add)),
    (b"sub", Form::Registers(Op::Sub)),
    (b"sll", Form::Registers(Op::Sll)),
    (b"slt", Form::Registers(Op::Slt)),
    (b"sltu", Form::Registers(Op::Sltu)),
    (b"xor", Form::Registers(Op::Xor)),
    (b"srl", Form::Registers(Op::Srl)),
    (b"sra", Form::Registers(Op::Sra)),
    (b"or", Form::Registers(Op::Or)),
    (b"and", Form::Registers(Op::And)),
    (b"mul", Form::Registers(Op::Mul)),
    (b"mulh", Form::Registers(Op::Mulh)),
    (b"mulhsu", Form::Registers(Op::Mulhsu)),
    (b"mulhu", Form::Registers(Op::Mulhu)),
    (b"div", Form::Registers(Op::Div)),
    (b"divu", Form::Registers(Op::Divu)),
    (b"rem", Form::Registers(Op::Rem)),
    (b"remu", Form::Registers(Op::Remu)),
    (b"addw", Form::Registers(Op::Addw)),
    (b"subw", Form::Registers(Op::Subw)),
    (b"sllw", Form::Registers(Op::Sllw)),
    (b"srlw", Form::Registers(Op::Srlw)),
    (b"sraw", Form::Registers(Op::Sraw)),
    (b"mulw", Form::Registers(Op::Mulw)),
    (b"divw", Form::Registers(Op::Divw)),
    (b"divuw", Form::Registers(Op::Divuw)),
    (b"remw", Form::Registers(Op::Remw)),
    (b"remuw", Form::Registers(Op::Remuw)),
    (b"addi", Form::Immediate(Op::Addi)),
    (b"slti", Form::Immediate(Op::Slti)),
    (b"sltiu", Form::Immediate(Op::Sltiu)),
    (b"xori", Form::Immediate(Op::Xori)),
    (b"ori", Form::Immediate(Op::Ori)),
    (b"andi", Form::Immediate(Op::Andi)),
    (b"addiw", Form::Immediate(Op::Addiw)),
    (b"slli", Form::Shift(Op::Slli)),
    (b"srli", Form::Shift(Op::Srli)),
    (b"srai", Form::Shift(Op::Srai)),
    (b"slliw", Form::WordShift(Op::Slliw)),
    (b"srliw", Form::WordShift(Op::Srliw)),
    (b"sraiw", Form::WordShift(Op::Sraiw)),
    (b"lb", Form::Offset(Op::Lb)),
    (b"lh", Form::Offset(Op::Lh)),
    (b"lw", Form::Offset(Op::Lw)),
    (b"ld", Form::Offset(Op::Ld)),
    (b"lbu", Form::Offset(Op::Lbu)),
    (b"lhu", Form::Offset(Op::Lhu)),
    (b"lwu", Form::Offset(Op::Lwu)),
    (b"jalr", Form::Offset(Op::Jalr)),
    (b"sb", Form::Store(Op::Sb)),
    (b"sh", Form::Store(Op::Sh)),
    (b"sw", Form::Store(Op::Sw)),
    (b"sd", Form::Store(Op::Sd)),
    (b"lui", Form::Upper(Op::Lui)),
    (b"auipc", Form::Upper(Op::Auipc)),
    (b"beq", Form::Branch(Op::Beq)),
    (b"bne", Form::Branch(Op::Bne)),
    (b"blt", Form::Branch(Op::Blt)),
    (b"bge", Form::Branch(Op::Bge)),
    (b"bltu", Form::Branch(Op::Bltu)),
    (b"bgeu", Form::Branch(Op::Bgeu)),
    (b"jal", Form::Jump),
    (b"ecall", Form::Plain(Op::Ecall)),
    (b"ebreak", Form::Plain(Op::Ebreak)),
    (b"fence", Form::Plain(Op::Fence)),
    (b"fence.i", Form::Plain(Op::FenceI)),
    (b"la", Form::La),
    (b".byte", Form::Byte),
    (b".word", Form::Word),
    (b".dword", Form::Dword),
    (b".zero", Form::Zero),
    (b".ascii", Form::Ascii),
];

// The atomic instructions on words, by the first part of their mnemonics.
const WORD_ATOMICS: [Named<'static, Op>; 11] = [
    (b"lr", Op::LrW),
    (b"sc", Op::ScW),
    (b"amoswap", Op::AmoswapW),
    (b"amoadd", Op::AmoaddW),
    (b"amoxor", Op::AmoxorW),
    (b"amoand", Op::AmoandW),
    (b"amoor", Op::AmoorW),
    (b"amomin", Op::AmominW),
    (b"amomax", Op::AmomaxW),
    (b"amominu", Op::AmominuW),
    (b"amomaxu", Op::AmomaxuW),
];

// The atomic instructions on double words, by the first part of their mnemonics.
const DOUBLE_ATOMICS: [Named<'static, Op>; 11] = [
    (b"lr", Op::LrD),
    (b"sc", Op::ScD),
    (b"amoswap", Op::AmoswapD),
    (b"amoadd", Op::AmoaddD),
    (b"amoxor", Op::AmoxorD),
    (b"amoand", Op::AmoandD),
    (b"amoor", Op::AmoorD),
    (b"amomin", Op::AmominD),
    (b"amomax", Op::AmomaxD),
    (b"amominu", Op::AmominuD),
    (b"amomaxu", Op::AmomaxuD),
];

// The orders, by the last part of a mnemonic.
const ORDERS: [Named<'static, Order>; 3] = [
    (b"rl", Order::Release),
    (b"aq", Order::Acquire),
    (b"aqrl", Order::AcquireRelease),
];

// The form of a mnemonic that isn't one of an atomic instruction.
fn plain_form(mnemonic: &[u8]) -> Option<Form>
    ensures exact { result ≡ lookup mnemonics mnemonic.now }
    ensures fit { IfSome result (λ form. IsTrue (is_fit form)) }
{
    lookup(&MNEMONICS, mnemonic)
}

// What an atomic operation stands for, with its order.
fn atomic_form(operation: Op, order: Order) -> Form
    requires { IsTrue (is_reserve operation || is_atomic operation) }
    ensures exact { result ≡ atomic_form order operation }
    ensures fit { IsTrue (is_fit result) }
{
    match operation {
        Op::LrW | Op::LrD => Form::Reserve(operation, order),
        _ => Form::Atomic(operation, order),
    }
}

// The form of an atomic instruction on words.
fn word_atomic(name: &[u8]) -> Option<Op>
    ensures exact { result ≡ lookup word_atomics name.now }
    ensures atomic { IfSome result (λ op. IsTrue (is_reserve op || is_atomic op)) }
{
    lookup(&WORD_ATOMICS, name)
}

// The form of an atomic instruction on double words.
fn double_atomic(name: &[u8]) -> Option<Op>
    ensures exact { result ≡ lookup double_atomics name.now }
    ensures atomic { IfSome result (λ op. IsTrue (is_reserve op || is_atomic op)) }
{
    lookup(&DOUBLE_ATOMICS, name)
}

// The form of an atomic instruction, by its name, its width and its order.
#[tactic(auto, unfolding(crate::specs::Mnemonics::atomic_at))]
fn atomic_at(name: &[u8], width: &[u8], order: Order) -> Option<Form>
    ensures exact { result ≡ atomic_at name.now width.now order }
    ensures fit { IfSome result (λ form. IsTrue (is_fit form)) }
{
    let operation = if width == b"w".as_slice() {
        word_atomic(name)?
    } else if width == b"d".as_slice() {
        double_atomic(name)?
    } else {
        return None;
    };
    Some(atomic_form(operation, order))
}

// The form of an atomic instruction's mnemonic.
#[tactic(auto, unfolding(crate::specs::Mnemonics::atomic_of))]
fn atomic(mnemonic: &[u8]) -> Option<Form>
    ensures exact { result ≡ atomic_of mnemonic.now }
    ensures fit { IfSome result (λ form. IsTrue (is_fit form)) }
{
    let (name, rest) = split_at(mnemonic, b'.')?;
    match split_at(rest, b'.') {
        None => atomic_at(name, rest, Order::Relaxed),
        Some((width, order)) => atomic_at(name, width, lookup(&ORDERS, order)?),
    }
}

/// What a mnemonic stands for. `None` exactly for what is none.
#[tactic(auto, unfolding(crate::specs::Mnemonics::form_of))]
pub fn form_of(mnemonic: &[u8]) -> Option<Form>
    ensures exact { result ≡ form_of mnemonic.now }
    ensures fit { IfSome result (λ form. IsTrue (is_fit form)) }
{
    match plain_form(mnemonic) {
        Some(form) => Some(form),
        None => atomic(mnemonic),
    }
}
