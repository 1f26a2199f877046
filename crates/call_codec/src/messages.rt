//! What came or went by a socket, in the caller's memory.
ghost use Rattle.std.specs.Prelude.{◌≡◌};
ghost use Rattle.call_codec.specs.Output.{iovecs_in, recv_out_bytes, send_out_bytes, with_descriptors, with_message, with_received, with_sent};

use crate::output::{put_bytes, put_into};
use abi_layout::{write_recv_out, write_send_out};
use abi_types::{Payload, RecvIn, RecvOut, Regs, SendOut};
use codec_arguments::{MOST_IOVECS, read_recv_in};
use guest_memory::GuestMemory;

/// How many iovecs of a message's array count. Over `MOST_IOVECS` may stand there at a wake.
pub(crate) fn iovecs_in(places: &RecvIn) -> u64
    ensures { result ≡ iovecs_in places.now }
{
    places.iovs_count.min(MOST_IOVECS)
}

// How much was received, as bytes.
fn recv_out_bytes(out: &RecvOut) -> [u8; 24]
    ensures { result ≡ recv_out_bytes out.now }
{
    write_recv_out(out)
}

// How much was sent, as bytes.
fn send_out_bytes(out: &SendOut) -> [u8; 8]
    ensures { result ≡ send_out_bytes out.now }
{
    write_send_out(out)
}

// Writes numbers of descriptors one behind the other from an address on.
fn put_descriptors(memory: &mut GuestMemory, at: u64, fds: &[u32])
    ensures { memory.new ≡ with_descriptors memory.old at fds.now }
{
    let mut next = at;
    for fd in fds {
        put_bytes(memory, next, &fd.to_le_bytes());
        next = next.wrapping_add(4);
    }
}

// Writes a message to its places, and then how much it was.
fn put_message(
    memory: &mut GuestMemory,
    out: u64,
    places: &RecvIn,
    bytes: &[u8],
    fds: &[u32],
    flags: u16,
)
    ensures { memory.new ≡ with_message memory.old out places.now bytes.now fds.now flags }
{
    put_into(memory, places.iovs, iovecs_in(places), bytes);
    put_descriptors(memory, places.fds, fds);
    let received = RecvOut {
        datalen: bytes.len() as u64,
        fdslen: fds.len() as u64,
        flags,
    };
    put_bytes(memory, out, &recv_out_bytes(&received));
}

/// Writes the message of the payload, if it has one, to the places that the structure at the address in a1 has, and how much it was
/// to the address in a2. The places are read before the first byte is written.
pub fn put_received(regs: &Regs, memory: &mut GuestMemory, payload: &Payload)
    ensures { memory.new ≡ with_received memory.old regs.now payload.now }
{
    if let Payload::Received { bytes, fds, flags } = payload {
        if let Ok(places) = read_recv_in(memory, regs.get(11)) {
            let bytes = bytes.as_slice();
            put_message(memory, regs.get(12), &places, bytes, fds.as_slice(), *flags);
        }
    }
}

/// Writes how many bytes were sent, if the payload says it, to the address in a2.
pub fn put_sent(regs: &Regs, memory: &mut GuestMemory, payload: &Payload)
    ensures { memory.new ≡ with_sent memory.old regs.now payload.now }
{
    if let Payload::Sent(count) = payload {
        let sent = SendOut { datalen: *count };
        put_bytes(memory, regs.get(12), &send_out_bytes(&sent));
    }
}
