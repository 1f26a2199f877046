//! Whether calls on ends wait, and on which channel.
ghost use Rattle.std.specs.Prelude.{◌≡◌, ℕ, List, length};
ghost use Rattle.abi_types.specs.Families.{call_of_offset, call_of_socket};
ghost use Rattle.abi_types.specs.declared.descriptor.Descriptor.{Descriptor};
ghost use Rattle.abi_types.specs.declared.reply.Reply.{Reply};
ghost use Rattle.channel_calls.specs.Calls.{HasAllSent, end_outcome, socket_outcome};
ghost use Rattle.channel_calls.specs.Sends.{outcome_of};
ghost use Rattle.channel_calls.specs.Waits.{is_read_waiting};
ghost use Rattle.kernel_model.specs.Outcome.{is_parked};

use crate::kept::Channels;
use crate::receiving::must_wait;
use crate::sending::{Outgoing, Sending, is_nonblocking, ready};
use abi_types::{ObjId, OffsetCall, OpenKind, SocketCall};
use fd_table::FdTable;

/// Whether fd_read or fd_write on an end would wait. Takes no memory.
pub fn end_waits(channels: &Channels, kind: &OpenKind, call: OffsetCall<'_>) -> bool
    ensures { result ≡ is_parked (end_outcome channels.now kind.now (call_of_offset call.entry)).answer }
{
    let OpenKind::End {
        reads,
        writes,
        flags,
        ..
    } = kind
    else {
        return false;
    };
    match call {
        OffsetCall::FdRead { length, .. } => receive_waits(channels, *reads, *flags, length, 0),
        OffsetCall::FdWrite { bytes, .. } => {
            let end = Outgoing {
                writes: *writes,
                flags: *flags,
            };
            send_waits(channels, &end, bytes, 0)
        }
        OffsetCall::FdSeek { .. } => false,
    }
}

/// Whether a call on a socket would wait, whose sent descriptors the table has. Takes no memory.
#[tactic(auto, using(crate::proofs::Parks::picked_all))]
pub fn socket_waits(
    channels: &Channels,
    table: &FdTable,
    kind: &OpenKind,
    call: SocketCall<'_>,
) -> bool
    requires sent { HasAllSent table.now (call_of_socket call) }
    ensures { (p : ℕ) → result ≡ is_parked (socket_outcome p table.now channels.now kind.now (call_of_socket call.entry)).answer }
{
    let OpenKind::End {
        reads: Some(reads),
        writes: Some(writes),
        flags: mode,
        ..
    } = kind
    else {
        return false;
    };
    match call {
        SocketCall::SockRecv { length, flags, .. } => {
            receive_waits(channels, Some(*reads), *mode, length, flags)
        }
        SocketCall::SockSend { bytes, fds, .. } => {
            let end = Outgoing {
                writes: Some(*writes),
                flags: *mode,
            };
            send_waits(channels, &end, bytes, fds.len())
        }
        SocketCall::SockShutdown { .. } => false,
    }
}

// Whether a receive with these flags waits, which asks for so many bytes, on an end of this mode. A read is one without flags.
fn receive_waits(
    channels: &Channels,
    reads: Option<ObjId>,
    mode: u16,
    length: u64,
    flags: u16,
) -> bool
    ensures { result ≡ is_read_waiting channels.now mode flags length reads }
{
    let Some(id) = reads else {
        return false;
    };
    let Some(channel) = channels.get(id) else {
        return false;
    };
    !is_nonblocking(mode) && must_wait(channel, length, flags)
}

// Whether a send waits, with so many descriptors.
fn send_waits(channels: &Channels, end: &Outgoing, bytes: &[u8], carried: usize) -> bool
    ensures { (ds : List Descriptor) → length ds ≡ carried → (reply : ℕ → Reply) → result ≡ is_parked (outcome_of reply channels.now end.now bytes.now ds).answer }
{
    match ready(channels, end, bytes, carried) {
        Err(Sending::Waits) => true,
        _ => false,
    }
}
