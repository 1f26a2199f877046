//! What a thread that waited in a call is given when it goes on.
ghost use Rattle.std.specs.Prelude.{◌≡◌, ◌*◌};
ghost use Rattle.codec_arguments.specs.Bytes.{writable};
ghost use Rattle.call_codec.specs.Given.{awaited_word, given_of, has_message, has_places, has_room, lock_awaited};

use crate::messages::iovecs_in;
use abi_types::{Call, Errno, Regs, WakeIn, What};
use codec_arguments::{check_writable, read_recv_in, read_room, read_word, refuse_when};
use codec_calls::MOST_SENT_DESCRIPTORS;
use codec_poll::EVENT_SIZE;
use guest_memory::GuestMemory;

/// What a thread with these registers is given that waited in the call: the present word of the lock that it waits for, or 0, where that
/// word and the places of the call's output are accessible and have the room that the call asked for. It takes no memory.
pub fn given(regs: &Regs, memory: &GuestMemory, call: &Call) -> WakeIn
    ensures { result ≡ given_of memory.now regs.now call.now }
{
    match read_awaited(regs, memory, call) {
        Ok(word) => WakeIn::Plain { word },
        Err(_) => WakeIn::Fault,
    }
}

// The word of the lock that a call waits for, or 0, where its output has its places.
fn read_awaited(regs: &Regs, memory: &GuestMemory, call: &Call) -> Result<u32, Errno>
    ensures { result ≡ awaited_word memory.now regs.now call.now }
{
    check_places(regs, memory, call)?;
    match lock_awaited(call) {
        Some(lock) => read_word(memory, lock),
        None => Ok(0),
    }
}

// FAULT where a place of a call's output can't be written, or they have less room than it asked for.
fn check_places(regs: &Regs, memory: &GuestMemory, call: &Call) -> Result<(), Errno>
    ensures { result ≡ has_places memory.now regs.now call.now }
{
    match call {
        Call::FdRead { length, .. } => {
            let room = read_room(memory, regs.get(11), regs.get(12))?;
            check_room(*length, room)
        }
        Call::Poll { subscriptions } => {
            check_room(subscriptions.len() as u64, regs.get(12))?;
            check_events(memory, regs.get(11), regs.get(12))
        }
        Call::SockRecv { length, fds, .. } => check_message(regs, memory, *length, *fds),
        Call::SockSend { .. } => check_writable(memory, regs.get(12), 8),
        _ => Ok(()),
    }
}

// FAULT where a place of a message can't be written, or they have less room than for so many bytes and descriptors.
fn check_message(regs: &Regs, memory: &GuestMemory, length: u64, fds: u64) -> Result<(), Errno>
    ensures { result ≡ has_message memory.now regs.now length fds }
{
    let places = read_recv_in(memory, regs.get(11))?;
    let room = read_room(memory, places.iovs, iovecs_in(&places))?;
    check_room(length, room)?;
    let count = places.fds_count.min(MOST_SENT_DESCRIPTORS);
    check_writable(memory, places.fds, 4 * count)?;
    check_room(fds, places.fds_count)?;
    check_writable(memory, regs.get(12), 24)
}

// FAULT where there is less room than was asked for.
fn check_room(asked: u64, room: u64) -> Result<(), Errno>
    ensures { result ≡ has_room asked room }
{
    refuse_when(room < asked, Errno::Fault)
}

// FAULT where so many events can't be written from an address on. More than there are addresses never can.
fn check_events(memory: &GuestMemory, at: u64, count: u64) -> Result<(), Errno>
    ensures { result ≡ writable memory.now at (32 * count) }
{
    memory.keeps_limits();
    match count.checked_mul(EVENT_SIZE) {
        Some(bytes) => check_writable(memory, at, bytes),
        None => Err(Errno::Fault),
    }
}

// The address of the lock that a call waits for; for a condition variable that of the lock that is taken afterwards.
fn lock_awaited(call: &Call) -> Option<u64>
    ensures { result ≡ lock_awaited call.now }
{
    let Call::Poll { subscriptions } = call else {
        return None;
    };
    let first = subscriptions.as_slice().first()?;
    match first.what {
        What::Condvar { lock, .. }
        | What::LockRdlock { lock, .. }
        | What::LockWrlock { lock, .. } => Some(lock),
        _ => None,
    }
}
