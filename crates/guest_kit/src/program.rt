//! The program of a workload.
ghost use Rattle.std.specs.Prelude.{◌≡◌, ◌≤◌, IfOk, length, string_bytes};
ghost use Rattle.rv_asm.specs.Lines.{Assembles};
ghost use Rattle.guest_kit.specs.Programs.{IsProgramFor, program_text};

use crate::program_text::{CHILD, PARENT, ROUTINES, START};
use itoa::Buffer;
use lists::Bytes;
use rv_asm::{AsmFault, assemble, write_elf};
use std::alloc::{AllocError, Global};

// Where the code stands.
const CODE_ADDRESS: u64 = 0x1_0000;

// The program's text, for so many children.
#[tactic(auto, unfolding(crate::specs::Programs::program_text))]
fn text(alloc: Global, n: u32) -> Result<String, AllocError>
    ensures { IfOk result (λ text. string_bytes text ≡ program_text n) }
{
    let mut digits = Buffer::new();
    let mut text = String::new(alloc);
    text.push_str(START)?;
    text.push_str(digits.format(n))?;
    text.push_str(PARENT)?;
    text.push_str(CHILD)?;
    text.push_str(ROUTINES)?;
    Ok(text)
}

// The program's code, for so many children.
#[tactic(auto, using(crate::proofs::Assembling::no_fault, crate::proofs::Assembling::code_length))]
fn code(alloc: Global, n: u32) -> Result<Bytes, AllocError>
    requires { n ≤ 128 }
    ensures assembled { IfOk result (λ code. Assembles (program_text n) code) }
    ensures sized { IfOk result (λ code. length code ≡ 968) }
{
    let text = text(alloc, n)?;
    match assemble(alloc, text.as_str()) {
        Ok(code) => Ok(code),
        Err(AsmFault::Line(_)) => unreachable!(),
        Err(AsmFault::NoMemory) => Err(AllocError),
    }
}

/// The program's file, for so many children.
pub(crate) fn program_file(alloc: Global, n: u32) -> Result<Bytes, AllocError>
    requires { n ≤ 128 }
    ensures { IfOk result (λ file. IsProgramFor n file) }
{
    let code = code(alloc, n)?;
    write_elf(alloc, code.as_slice(), CODE_ADDRESS, 0)
}
