//! The calls on ends of channels.
ghost use Rattle.std.specs.Prelude.{◌≡◌, ◌+◌, ◌≤◌, ℕ, true, OnErr, Some};
ghost use Rattle.std.specs.FinMap as map;
ghost use Rattle.abi_types.specs.Families.{call_of_offset, call_of_socket};
ghost use Rattle.channel_calls.specs.Calls.{AreCarried, AreFew, AreMoved, carriers_in, end_outcome, seen_in, socket_outcome};
ghost use Rattle.channel_calls.specs.Done.{IsEndDone, IsSocketDone};
ghost use Rattle.kernel_model.specs.Calls.{takes_memory};
ghost use Rattle.kernel_model.specs.Families.ChannelCalls.{picked, send_open};
ghost use Rattle.kernel_model.specs.Release.{count_in};
ghost use Rattle.maps.specs.Maps.{number};

use crate::kept::Channels;
use crate::receiving::{Asked, read, receive};
use crate::sending::{Outgoing, send_bytes, send_with, sent, written};
use crate::shutting::shut;
use abi_types::{Answer, Errno, OffsetCall, OpenKind, SocketCall};
use fd_table::FdTable;
use object_store::Objects;
use right_rules::refused;
use std::alloc::{AllocError, Global};

/// Does fd_read or fd_write on an end. Descriptors that come with bytes that are read are let go. `Err` comes only of a call that takes
/// memory and would else succeed, and changes nothing.
pub fn on_end(
    alloc: Global,
    objects: &mut Objects,
    channels: &mut Channels,
    kind: &OpenKind,
    call: OffsetCall<'_>,
) -> Result<Answer, AllocError>
    requires covered { (o : ℕ) → carriers_in o channels.old ≤ number (map.get objects.old.counts o) }
    ensures done { IsEndDone (takes_memory (call_of_offset call.entry)) (end_outcome channels.old kind.now (call_of_offset call.entry)) channels.old channels.new result }
    ensures kinds { objects.new.kinds ≡ objects.old.kinds }
    ensures counts { AreCarried channels.old channels.new objects.old.counts objects.new.counts }
    ensures few { AreFew channels.old → AreFew channels.new }
    ensures same_objects { OnErr result (objects.new ≡ objects.old) }
{
    let OpenKind::End {
        reads,
        writes,
        flags,
        ..
    } = kind
    else {
        return Ok(Answer::Reply(refused(Errno::Badf)));
    };
    match call {
        OffsetCall::FdRead { length, .. } => {
            read(alloc, objects, channels, *flags, *reads, length)
        }
        OffsetCall::FdWrite { bytes, .. } => {
            let end = Outgoing {
                writes: *writes,
                flags: *flags,
            };
            Ok(written(send_bytes(objects, channels, &end, bytes)?))
        }
        OffsetCall::FdSeek { .. } => Ok(Answer::Reply(refused(Errno::Badf))),
    }
}

/// Does a call on a socket. A descriptor that is sent holds its open while it waits; one that is received stands in the table, or is let go
/// where there is no room for it. `Err` comes only of a call that takes memory and would else succeed, and changes nothing.
#[tactic(auto, using(crate::proofs::Tables::send_keeps))]
pub fn on_socket(
    alloc: Global,
    table: &mut FdTable,
    objects: &mut Objects,
    channels: &mut Channels,
    kind: &OpenKind,
    call: SocketCall<'_>,
) -> Result<Answer, AllocError>
    requires covered { (o : ℕ) → count_in o table.old + carriers_in o channels.old ≤ number (map.get objects.old.counts o) }
    ensures done { (p : ℕ) → IsSocketDone (takes_memory (call_of_socket call.entry)) (socket_outcome p table.old channels.old kind.now (call_of_socket call.entry)) table.old table.new channels.old channels.new result }
    ensures kinds { objects.new.kinds ≡ objects.old.kinds }
    ensures counts { AreMoved table.old channels.old table.new channels.new objects.old.counts objects.new.counts }
    ensures few_carriers { AreFew channels.old → AreFew channels.new }
    ensures same_objects { OnErr result (objects.new ≡ objects.old) }
{
    match call {
        SocketCall::SockRecv {
            length,
            fds,
            flags,
            ..
        } => {
            let asked = Asked {
                length,
                room: fds,
                flags,
            };
            receive(alloc, table, objects, channels, kind, &asked)
        }
        SocketCall::SockSend { bytes, fds, .. } => {
            send(table, objects, channels, kind, bytes, fds)
        }
        SocketCall::SockShutdown { how, .. } => Ok(shut(objects, channels, kind, how)),
    }
}

// Does sock_send on an open.
fn send(
    table: &FdTable,
    objects: &mut Objects,
    channels: &mut Channels,
    kind: &OpenKind,
    bytes: &[u8],
    fds: &[u32],
) -> Result<Answer, AllocError>
    requires covered { (o : ℕ) → count_in o table.now + carriers_in o channels.old ≤ number (map.get objects.old.counts o) }
    ensures done { IsEndDone true (send_open (seen_in channels.old) bytes.now (picked table.now fds.now) (Some kind.now)) channels.old channels.new result }
    ensures kinds { objects.new.kinds ≡ objects.old.kinds }
    ensures counts { AreCarried channels.old channels.new objects.old.counts objects.new.counts }
    ensures few { AreFew channels.old → AreFew channels.new }
    ensures same_objects { OnErr result (objects.new ≡ objects.old) }
{
    let OpenKind::End {
        reads: Some(_),
        writes: Some(writes),
        flags,
        ..
    } = kind
    else {
        return Ok(Answer::Reply(refused(Errno::Notsock)));
    };
    let end = Outgoing {
        writes: Some(*writes),
        flags: *flags,
    };
    Ok(sent(send_with(table, objects, channels, &end, bytes, fds)?))
}
