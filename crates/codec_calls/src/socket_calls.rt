//! The calls about sockets.
ghost use Rattle.std.specs.Prelude.{◌≡◌};
ghost use Rattle.codec_arguments.specs.Reading.{Reads};
ghost use Rattle.codec_calls.specs.SocketCalls.{lacks_byte, received_room, sent_bytes, sent_descriptors, sent_known, sock_recv_of, sock_send_of, sock_shutdown_of};

use crate::flags::has_unknown;
use abi_types::flags::{SOCK_RECV_PEEK, SOCK_RECV_WAITALL};
use abi_types::{Bytes, Call, Errno, FdList, RecvIn, Regs, SendIn};
use codec_arguments::{
    ArgumentFault, MOST_IOVECS, check_writable, low, read_descriptors, read_recv_in, read_room,
    read_send_in, read_written, refuse_when,
};
use guest_memory::GuestMemory;
use std::alloc::Global;

/// The most descriptors that are sent with a message.
pub const MOST_SENT_DESCRIPTORS: u64 = 16;

/// The flags of sock_recv that there are.
pub const RECEIVE_FLAGS: u32 = (SOCK_RECV_PEEK | SOCK_RECV_WAITALL) as u32;

// The room of an iovec array in memory; 0 for an array of over 1024, which isn't read.
fn read_received_room(memory: &GuestMemory, given: &RecvIn) -> Result<u64, Errno>
    ensures { result ≡ received_room memory.now given.now }
{
    if given.iovs_count <= MOST_IOVECS {
        read_room(memory, given.iovs, given.iovs_count)
    } else {
        Ok(0)
    }
}

/// sock_recv: a descriptor, the address of where the message goes, and the address for what was received. FAULT for memory
/// that can't be read or written; INVAL for over 1024 iovecs, and for a flag but PEEK and WAITALL.
pub fn sock_recv(regs: &Regs, memory: &GuestMemory) -> Result<Call, Errno>
    ensures { result ≡ sock_recv_of memory.now regs.now }
{
    let given = read_recv_in(memory, regs.get(11))?;
    check_writable(memory, regs.get(12), 24)?;
    let length = read_received_room(memory, &given)?;
    check_writable(
        memory,
        given.fds,
        4 * given.fds_count.min(MOST_SENT_DESCRIPTORS),
    )?;
    refuse_when(given.iovs_count > MOST_IOVECS, Errno::Inval)?;
    refuse_when(
        has_unknown(u32::from(given.flags), RECEIVE_FLAGS),
        Errno::Inval,
    )?;
    Ok(Call::SockRecv {
        fd: low(regs.get(10)),
        length,
        fds: given.fds_count,
        flags: given.flags,
    })
}

// The bytes of an iovec array in memory; none for an array of over 1024, which isn't read.
fn read_sent_bytes(
    alloc: Global,
    memory: &GuestMemory,
    given: &SendIn,
) -> Result<Bytes, ArgumentFault>
    ensures { Reads result (sent_bytes memory.now given.now) }
{
    if given.iovs_count <= MOST_IOVECS {
        read_written(alloc, memory, given.iovs, given.iovs_count)
    } else {
        Ok(Bytes::new(alloc))
    }
}

// The descriptors that are sent; none for over 16, which aren't read.
fn read_sent_descriptors(
    alloc: Global,
    memory: &GuestMemory,
    given: &SendIn,
) -> Result<FdList, ArgumentFault>
    ensures { Reads result (sent_descriptors memory.now given.now) }
{
    if given.fds_count <= MOST_SENT_DESCRIPTORS {
        read_descriptors(alloc, memory, given.fds, given.fds_count)
    } else {
        Ok(FdList::new(alloc))
    }
}

// Whether descriptors go without a byte.
fn lacks_byte(bytes: &Bytes, fds: &FdList) -> bool
    ensures { result ≡ lacks_byte bytes.now fds.now }
{
    bytes.len() == 0 && fds.len() > 0
}

// What the structure in memory shows: INVAL for over 1024 iovecs, over 16 descriptors, a flag, and descriptors without a byte.
fn check_sent(given: &SendIn, bytes: &Bytes, fds: &FdList) -> Result<(), Errno>
    ensures { result ≡ sent_known given.now bytes.now fds.now }
{
    refuse_when(given.iovs_count > MOST_IOVECS, Errno::Inval)?;
    refuse_when(given.fds_count > MOST_SENT_DESCRIPTORS, Errno::Inval)?;
    refuse_when(given.flags != 0, Errno::Inval)?;
    refuse_when(lacks_byte(bytes, fds), Errno::Inval)
}

/// sock_send: a descriptor, the address of what is sent, and the address for how much was sent. FAULT for memory that can't be
/// read or written; INVAL for over 1024 iovecs, over 16 descriptors, a flag, and descriptors without a byte.
pub fn sock_send(alloc: Global, regs: &Regs, memory: &GuestMemory) -> Result<Call, ArgumentFault>
    ensures { Reads result (sock_send_of memory.now regs.now) }
{
    let given = read_send_in(memory, regs.get(11))?;
    check_writable(memory, regs.get(12), 8)?;
    let bytes = read_sent_bytes(alloc, memory, &given)?;
    let fds = read_sent_descriptors(alloc, memory, &given)?;
    check_sent(&given, &bytes, &fds)?;
    Ok(Call::SockSend {
        fd: low(regs.get(10)),
        bytes,
        fds,
        flags: given.flags,
    })
}

/// sock_shutdown: a descriptor, and which direction is shut. INVAL for one but 1 to 3.
pub fn sock_shutdown(regs: &Regs) -> Result<Call, Errno>
    ensures { result ≡ sock_shutdown_of regs.now }
{
    let how = low(regs.get(11));
    refuse_when(!(1 <= how && how <= 3), Errno::Inval)?;
    Ok(Call::SockShutdown {
        fd: low(regs.get(10)),
        how,
    })
}
