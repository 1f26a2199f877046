//! ELF files of one segment (System V gABI and RISC-V psABI).
ghost use Rattle.std.specs.Prelude.{◌≡◌, None, IfOk, OnOk};
ghost use Rattle.elf_image.specs.Checks.{fault_of};
ghost use Rattle.elf_image.specs.Image.{image};
ghost use Rattle.rv_asm.specs.ElfFile.{HasHeaders, IsProgram, one_segment, with_sizes, with_file_header, with_program_header, file_bytes};

use abi_base::INSTRUCTION_ALIGNMENT;
use lists::Bytes;
use std::alloc::{AllocError, Global};

// e_ident: the magic number, 64 bits, the lowest byte first, version 1, no particular system, and padding.
const IDENTITY: [u8; 16] = [0x7f, b'E', b'L', b'F', 2, 1, 1, 0, 0, 0, 0, 0, 0, 0, 0, 0];

// e_type: a file that is placed at its own addresses.
const EXECUTABLE: u16 = 2;

// e_machine: RISC-V.
const RISCV: u16 = 243;

// e_version.
const CURRENT_VERSION: u32 = 1;

// e_ehsize, and e_phoff too: the program header stands behind the file's header.
const FILE_HEADER_SIZE: u16 = 64;

// e_phentsize.
const PROGRAM_HEADER_SIZE: u16 = 56;

// e_phnum.
const PROGRAM_HEADER_COUNT: u16 = 1;

// e_shoff, e_shentsize, e_shnum and e_shstrndx: there are no sections.
const NO_SECTION: u16 = 0;

// p_type: a segment to be loaded.
const LOAD: u32 = 1;

// p_flags: the segment may be read and executed.
const READ_EXECUTE: u32 = 5;

// p_offset: the code stands behind the headers.
const CODE_OFFSET: u64 = 120;

// Puts the last fields of a file's header at the end: the sizes and numbers of headers. `Err` may leave a part of them.
fn push_sizes(out: &mut Vec<u8>) -> Result<(), AllocError>
    ensures { OnOk result (out.new.items ≡ with_sizes out.old.items) }
{
    out.extend_from_slice(&FILE_HEADER_SIZE.to_le_bytes())?;
    out.extend_from_slice(&PROGRAM_HEADER_SIZE.to_le_bytes())?;
    out.extend_from_slice(&PROGRAM_HEADER_COUNT.to_le_bytes())?;
    out.extend_from_slice(&NO_SECTION.to_le_bytes())?;
    out.extend_from_slice(&NO_SECTION.to_le_bytes())?;
    out.extend_from_slice(&NO_SECTION.to_le_bytes())
}

// Puts a file's header at the end. `Err` may leave a part of it.
fn push_file_header(out: &mut Vec<u8>, entry: u64, flags: u32) -> Result<(), AllocError>
    ensures { OnOk result (out.new.items ≡ with_file_header out.old.items entry flags) }
{
    out.extend_from_slice(&IDENTITY)?;
    out.extend_from_slice(&EXECUTABLE.to_le_bytes())?;
    out.extend_from_slice(&RISCV.to_le_bytes())?;
    out.extend_from_slice(&CURRENT_VERSION.to_le_bytes())?;
    out.extend_from_slice(&entry.to_le_bytes())?;
    out.extend_from_slice(&(FILE_HEADER_SIZE as u64).to_le_bytes())?;
    out.extend_from_slice(&(NO_SECTION as u64).to_le_bytes())?;
    out.extend_from_slice(&flags.to_le_bytes())?;
    push_sizes(out)
}

// Puts the program header of a segment with so many file bytes at the end. `Err` may leave a part of it.
fn push_program_header(out: &mut Vec<u8>, address: u64, file_size: u64) -> Result<(), AllocError>
    ensures { OnOk result (out.new.items ≡ with_program_header out.old.items address file_size) }
{
    // There is no memory behind the file bytes.
    let memory_size = file_size;
    out.extend_from_slice(&LOAD.to_le_bytes())?;
    out.extend_from_slice(&READ_EXECUTE.to_le_bytes())?;
    out.extend_from_slice(&CODE_OFFSET.to_le_bytes())?;
    // p_vaddr and p_paddr
    out.extend_from_slice(&address.to_le_bytes())?;
    out.extend_from_slice(&address.to_le_bytes())?;
    out.extend_from_slice(&file_size.to_le_bytes())?;
    out.extend_from_slice(&memory_size.to_le_bytes())?;
    // p_align: addresses are those of instructions, and so is the offset.
    out.extend_from_slice(&INSTRUCTION_ALIGNMENT.to_le_bytes())
}

// The bytes of a file.
fn elf_bytes(alloc: Global, code: &[u8], at: u64, flags: u32) -> Result<Vec<u8>, AllocError>
    ensures { IfOk result (λ out. out.items ≡ file_bytes code.now at flags) }
{
    let mut out = Vec::new(alloc);
    push_file_header(&mut out, at, flags)?;
    push_program_header(&mut out, at, code.len() as u64)?;
    out.extend_from_slice(code)?;
    Ok(out)
}

/// An executable ELF file for RV64 whose code stands at this address, where the program begins to run. The file has one
/// segment, which is the code and may be read and executed but not written. `flags` is e_flags of the RISC-V psABI.
pub fn write_elf(alloc: Global, code: &[u8], at: u64, flags: u32) -> Result<Bytes, AllocError>
    // What the headers say, and where the code is, also where the file can't be loaded.
    ensures headers { IfOk result (λ file. HasHeaders file code.now at flags) }
    // The file of a program has no fault, and its image is the code at its address.
    ensures program { IfOk result (λ file. IsProgram code.now at flags → (fault_of file ≡ None) × (image file ≡ one_segment code.now at)) }
    // Any other file has a fault.
    ensures only { IfOk result (λ file. fault_of file ≡ None → IsProgram code.now at flags) }
{
    Ok(Bytes::from_vec(elf_bytes(alloc, code, at, flags)?))
}
