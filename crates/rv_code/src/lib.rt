//! The instructions of RV64IM, A and Zifencei: which instruction a word is, and what an operation on two registers gives
//! (RISC-V unprivileged manual).
#![tactic(auto)]

pub use decoding::decode;
pub use instr::{Instr, Op};
pub use operations::alu;

mod atomics;
mod decoding;
mod division;
mod formats;
mod immediates;
mod instr;
mod multiplication;
mod operations;
mod rows;
mod words;
