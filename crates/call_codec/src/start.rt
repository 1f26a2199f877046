//! What a program and a new thread start with.
ghost use Rattle.std.specs.Prelude.{◌≡◌, ◌++◌, ◌≤◌, length, IfOk, OnOk};
ghost use Rattle.call_codec.specs.Start.{MayStart, block_bytes, block_of, entry_bytes, first_registers, stack, start_pages, thread_registers, vector_of};

use crate::image::{READ_WRITE, load, map_segment};
use abi_base::PAGE_SIZE;
use abi_types::{Bytes, Pid, Regs, ThreadAttr, Tid};
use elf_image::{Elf, Segment};
use guest_memory::{GuestMemory, MemFault};
use std::alloc::{AllocError, Global};

// Where the first thread's stack ends.
const STACK_END: u64 = 0x3e_fff0_0000;

// How many bytes the stack has.
const STACK_LENGTH: u64 = 0x10_0000;

// Where the start block is.
const START_BLOCK: u64 = 0x3f_0000_0000;

// Where the canary is in the start block, behind the vector.
const CANARY: u64 = 0xc0;

// Where the argument data is in the start block, behind the canary.
const ARGDATA: u64 = 0x100;

// The first thread's stack.
fn stack(alloc: Global) -> Segment
    ensures { result ≡ stack }
{
    Segment {
        at: STACK_END - STACK_LENGTH,
        bytes: Bytes::new(alloc),
        length: STACK_LENGTH,
        prot: READ_WRITE,
    }
}

// Puts an entry of a vector at the end of bytes: a number and a value, of 8 bytes each.
fn append_entry(bytes: &mut Bytes, number: u64, value: u64) -> Result<(), AllocError>
    ensures { OnOk result (bytes.new ≡ bytes.old ++ entry_bytes (number, value)) }
{
    bytes.append(&number.to_le_bytes())?;
    bytes.append(&value.to_le_bytes())
}

// Puts the entries of a vector at the end of bytes.
fn append_entries(bytes: &mut Bytes, entries: &[(u64, u64)]) -> Result<(), AllocError>
    ensures { OnOk result (bytes.new ≡ bytes.old ++ vector_of entries.now) }
{
    for (number, value) in entries {
        append_entry(bytes, *number, *value)?;
    }
    Ok(())
}

// The bytes of the start block: the vector, the canary and the argument data.
fn block_bytes(
    alloc: Global,
    elf: &Elf,
    argdata: &[u8],
    canary: &[u8],
    pid: Pid,
    tid: Tid,
) -> Result<Bytes, AllocError>
    ensures { IfOk result (λ bytes. bytes ≡ block_bytes elf.now argdata.now canary.now pid tid) }
{
    let entries = [
        (256, START_BLOCK + ARGDATA),
        (257, argdata.len() as u64),
        (7, elf.base),
        (258, START_BLOCK + CANARY),
        (259, 64),
        (260, 1),
        (6, PAGE_SIZE),
        (3, elf.phdr),
        (4, elf.phnum),
        (263, u64::from(pid.0)),
        (261, u64::from(tid.0)),
        (0, 0),
    ];
    let mut bytes = Bytes::new(alloc);
    append_entries(&mut bytes, &entries)?;
    bytes.append(canary)?;
    bytes.append(argdata)?;
    Ok(bytes)
}

// The start block with these bytes.
fn start_block(bytes: Bytes) -> Segment
    ensures { result ≡ block_of bytes }
{
    Segment {
        at: START_BLOCK,
        length: bytes.len() as u64,
        bytes,
        prot: READ_WRITE,
    }
}

// The first thread's registers: it stands at the entry, with sp at the stack's end and a0 at the start block.
fn first_registers(entry: u64) -> Regs
    ensures { result ≡ first_registers entry }
{
    let mut regs = Regs::new(entry);
    regs.set(2, STACK_END);
    regs.set(10, START_BLOCK);
    regs
}

/// The registers that a new thread starts with: it stands at its entry, with sp at its stack's end, its number in a0 and its argument
/// in a1. Every other register is 0.
pub fn thread_registers(attributes: &ThreadAttr, tid: Tid) -> Regs
    ensures { result ≡ thread_registers attributes.now tid }
{
    let mut regs = Regs::new(attributes.entry);
    regs.set(2, attributes.stack.wrapping_add(attributes.stacklen));
    regs.set(10, u64::from(tid.0));
    regs.set(11, attributes.argument);
    regs
}

// The only fault that keeps a start from its memory: each other one would be a mistake of the loader.
fn out_of_memory(fault: MemFault) -> AllocError
    requires { fault ≡ MemFault.NoMemory }
{
    match fault {
        MemFault::NoMemory => AllocError,
        _ => unreachable!(),
    }
}

/// The memory and the registers that a process's first thread starts with: the image, a stack of 256 pages, and the start
/// block with a vector of 12 entries, the canary and the argument data. It fails only where memory runs out.
pub fn start_memory(
    alloc: Global,
    elf: &Elf,
    argdata: &[u8],
    canary: &[u8],
    pid: Pid,
    tid: Tid,
) -> Result<(GuestMemory, Regs), AllocError>
    requires { MayStart elf.now argdata.now canary.now }
    ensures memory { IfOk result (λ start. start.0 ≡ start_pages elf.now argdata.now canary.now pid tid) }
    ensures registers { IfOk result (λ start. start.1 ≡ first_registers elf.now.entry) }
{
    let stack = stack(alloc);
    let block = start_block(block_bytes(alloc, elf, argdata, canary, pid, tid)?);
    let mut memory = load(alloc, elf.segments.as_slice()).map_err(out_of_memory)?;
    map_segment(alloc, &mut memory, &stack).map_err(out_of_memory)?;
    map_segment(alloc, &mut memory, &block).map_err(out_of_memory)?;
    Ok((memory, first_registers(elf.entry)))
}
