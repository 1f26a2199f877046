//! What stands in a line of the assembler's text: names, numbers, mnemonics, registers and other operands.
#![tactic(auto)]

pub use form::Form;
pub use mnemonics::form_of;
pub use names::{Label, Named, is_name, lookup};
pub use numbers::number_within;
pub use operands::{
    address_register, immediate, label_distance, memory, pair, target, triple, unsigned,
};
pub use registers::register;
pub use text::{has_control, split_at, trim, without_comment};

mod form;
mod mnemonics;
mod names;
mod numbers;
mod operands;
mod registers;
mod text;
