//! What a process goes on with after proc_exec, and what a child begins with.
ghost use Rattle.std.specs.Prelude.{◌≡◌, IfOk};
ghost use Rattle.call_codec.specs.Processes.{MayRestart, child_registers, restart_pages, restart_registers};

use crate::start::start_memory;
use abi_types::{Pid, Regs, Tid};
use elf_image::read_elf;
use guest_memory::GuestMemory;
use std::alloc::{AllocError, Global};

// What a child has in place of a descriptor of itself.
const NO_DESCRIPTOR: u64 = 0xffff_ffff;

/// The registers that a child's thread begins with, which is a copy of the parent's that has these as it stands at the ECALL of its
/// proc_fork: it goes on behind that, with SUCCESS in a0, no descriptor in a1 and its number in a2.
pub fn child_registers(parent: &Regs, tid: Tid) -> Regs
    ensures { result ≡ child_registers parent.now tid }
{
    let mut regs = *parent;
    regs.set(10, 0);
    regs.set(11, NO_DESCRIPTOR);
    regs.set(12, u64::from(tid.0));
    regs.set_pc(parent.pc().wrapping_add(4));
    regs
}

/// The memory and the registers with which a process goes on after a proc_exec, in the thread that called it: those of a start with the
/// program's image. It fails only where memory runs out.
pub fn restart_memory(
    alloc: Global,
    program: &[u8],
    argdata: &[u8],
    canary: &[u8],
    pid: Pid,
    tid: Tid,
) -> Result<(GuestMemory, Regs), AllocError>
    requires { MayRestart program.now argdata.now canary.now }
    ensures memory { IfOk result (λ start. start.0 ≡ restart_pages program.now argdata.now canary.now pid tid) }
    ensures registers { IfOk result (λ start. start.1 ≡ restart_registers program.now) }
{
    // The program has no fault, so that it is refused only where memory runs out.
    let Ok(elf) = read_elf(alloc, program) else {
        return Err(AllocError);
    };
    let (memory, regs) = start_memory(alloc, &elf, argdata, canary, pid, tid)?;
    Ok((memory, regs))
}
