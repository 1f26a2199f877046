//! The calls about threads, but thread_exit, which names a lock.
ghost use Rattle.std.specs.Prelude.{◌≡◌};
ghost use Rattle.codec_calls.specs.ThreadCalls.{entry_misaligned, stack_passes, thread_create_of, thread_yield_of};

use abi_base::INSTRUCTION_ALIGNMENT;
use abi_types::{Call, Errno, Regs, ThreadAttr};
use codec_arguments::{read_threadattr, refuse_when};
use guest_memory::GuestMemory;

// Whether the stack's end is past every address.
fn stack_passes(attributes: &ThreadAttr) -> bool
    ensures { result ≡ stack_passes attributes.now }
{
    attributes.stacklen > u64::MAX - attributes.stack
}

// Whether no instruction stands at the entry, since it isn't a multiple of 4.
fn entry_misaligned(attributes: &ThreadAttr) -> bool
    ensures { result ≡ entry_misaligned attributes.now }
{
    attributes.entry % INSTRUCTION_ALIGNMENT != 0
}

/// thread_create: the address of how the thread begins. FAULT where that can't be read; INVAL for a stack whose end is past
/// 2^64 - 1, and for an entry that isn't a multiple of 4.
pub fn thread_create(regs: &Regs, memory: &GuestMemory) -> Result<Call, Errno>
    ensures { result ≡ thread_create_of memory.now regs.now }
{
    let attributes = read_threadattr(memory, regs.get(10))?;
    refuse_when(stack_passes(&attributes), Errno::Inval)?;
    refuse_when(entry_misaligned(&attributes), Errno::Inval)?;
    Ok(Call::ThreadCreate { attributes })
}

/// thread_yield: nothing.
pub fn thread_yield() -> Call
    ensures { result ≡ thread_yield_of }
{
    Call::ThreadYield
}
