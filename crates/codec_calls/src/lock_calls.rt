//! The calls that name a lock or a condition variable.
ghost use Rattle.std.specs.Prelude.{◌≡◌};
ghost use Rattle.codec_calls.specs.LockCalls.{condvar_signal_of, is_misaligned, lock_unlock_of, locked_at, scope_known, thread_exit_of};

use abi_types::flags::{SCOPE_PRIVATE, SCOPE_SHARED};
use abi_types::{Call, Errno, Regs};
use codec_arguments::{low, read_word, refuse_when};
use guest_memory::GuestMemory;

/// Whether no lock and no condition variable has an address, since it isn't a multiple of 4.
pub fn is_misaligned(at: u64) -> bool
    ensures { result ≡ is_misaligned at }
{
    at % 4 != 0
}

/// Whether a scope is supported: NOTSUP for SHARED, INVAL for another but PRIVATE.
pub fn check_scope(scope: u32) -> Result<(), Errno>
    ensures { result ≡ scope_known scope }
{
    refuse_when(scope == SCOPE_SHARED, Errno::Notsup)?;
    refuse_when(scope != SCOPE_PRIVATE, Errno::Inval)
}

// The word at an address of a scope: INVAL for an address that isn't a multiple of 4, the scope's refusals, FAULT for a word
// that may not be read and written.
fn read_locked(memory: &GuestMemory, at: u64, scope: u32) -> Result<u32, Errno>
    ensures { result ≡ locked_at memory.now at scope }
{
    refuse_when(is_misaligned(at), Errno::Inval)?;
    check_scope(scope)?;
    read_word(memory, at)
}

/// condvar_signal: a condition variable, its scope, and how many are woken.
pub fn condvar_signal(regs: &Regs, memory: &GuestMemory) -> Result<Call, Errno>
    ensures { result ≡ condvar_signal_of memory.now regs.now }
{
    let condvar = regs.get(10);
    let scope = low(regs.get(11));
    let word = read_locked(memory, condvar, scope)?;
    Ok(Call::CondvarSignal {
        condvar,
        word,
        scope,
        n: low(regs.get(12)),
    })
}

/// lock_unlock: a lock and its scope.
pub fn lock_unlock(regs: &Regs, memory: &GuestMemory) -> Result<Call, Errno>
    ensures { result ≡ lock_unlock_of memory.now regs.now }
{
    let lock = regs.get(10);
    let scope = low(regs.get(11));
    let word = read_locked(memory, lock, scope)?;
    Ok(Call::LockUnlock { lock, word, scope })
}

/// thread_exit: a lock and its scope.
pub fn thread_exit(regs: &Regs, memory: &GuestMemory) -> Result<Call, Errno>
    ensures { result ≡ thread_exit_of memory.now regs.now }
{
    let lock = regs.get(10);
    let scope = low(regs.get(11));
    let word = read_locked(memory, lock, scope)?;
    Ok(Call::ThreadExit { lock, word, scope })
}
