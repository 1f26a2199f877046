//! The words of the instructions of RV64IM, A and Zifencei, by their operations, registers and immediates (RISC-V
//! unprivileged manual). A word is decoded to the instruction that it was made of.
#![tactic(auto)]

pub use order::Order;
pub use words::{
    address_words, atomic_word, branch_word, immediate_word, jump_word, plain_word, register_word,
    reserve_word, shift_word, store_word, upper_word, word_shift_word,
};

mod fields;
mod order;
mod rows;
mod words;
