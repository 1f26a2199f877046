//! What ends read and receive.
ghost use Rattle.std.specs.Prelude.{◌≡◌, ◌+◌, ◌≤◌, ℕ, [], true, drop, length, IfOk, OnErr, Some, IsSome, IfSome, IsNone};
ghost use Rattle.std.specs.FinMap as map;
ghost use Rattle.abi_base.specs.declared.errno.Errno.TheVariants.{Notsock};
ghost use Rattle.abi_types.specs.declared.open_kind.OpenKind.TheVariants.{End};
ghost use Rattle.abi_types.specs.declared.reply.Answer.TheVariants as answer;
ghost use Rattle.channel_calls.specs.Calls.{AreCarried, AreFew, AreMoved, carriers_in, seen_in};
ghost use Rattle.channel_calls.specs.Done.{IsEndDone, IsSocketDone};
ghost use Rattle.channel_calls.specs.Kept.{IsAt};
ghost use Rattle.kernel_model.specs.Channels.{pull};
ghost use Rattle.kernel_model.specs.Families.ChannelCalls.{is_nonblocking, must_wait_by, read_end, receive_open, received, received_reply, waits_unless};
ghost use Rattle.kernel_model.specs.Outcome.{replies};
ghost use Rattle.kernel_model.specs.Release.{count_carried, count_in};
ghost use Rattle.kernel_model.specs.Reply.{refused};
ghost use Rattle.kernel_model.specs.State.{Table};
ghost use Rattle.kernel_model.specs.View.{View};
ghost use Rattle.maps.specs.Maps.{number};

use crate::installing::install;
use crate::kept::Channels;
use crate::letting_go::{MOST_CARRIED, NOTHING, check, let_go_all};
use crate::sending::is_nonblocking;
use abi_base::MOST_DESCRIPTORS;
use abi_types::flags::{SOCK_RECV_FDS_TRUNCATED, SOCK_RECV_PEEK, SOCK_RECV_WAITALL};
use abi_types::{Answer, Bytes, ChanKind, Errno, FdList, ObjId, OpenKind, Payload, WordWrites};
use channels::Channel;
use fd_table::FdTable;
use object_store::Objects;
use right_rules::{refused, success_with};
use std::alloc::{AllocError, Global};

/// What a call on an end with these flags comes to where it can't go on: its thread waits, or it is AGAIN.
pub(crate) fn waits_unless(flags: u16) -> Answer
    ensures { result ≡ (waits_unless (is_nonblocking flags)).answer }
{
    if is_nonblocking(flags) {
        Answer::Reply(refused(Errno::Again))
    } else {
        Answer::Parked(WordWrites::Zero)
    }
}

// Fills the buffer with what waits first in a channel. Of the descriptors that come with it as many as this are kept, and the others
// are let go.
fn draw(objects: &mut Objects, channels: &mut Channels, id: ObjId, out: &mut [u8], kept: usize)
    requires there { IsSome (map.get channels.old id) }
    requires waits { IsAt channels.old id (λ channel. length (pull (length out.old) channel).bytes ≡ length out.old) }
    requires covered { (o : ℕ) → carriers_in o channels.old ≤ number (map.get objects.old.counts o) }
    ensures out { IsAt channels.old id (λ channel. out.new ≡ (pull (length out.old) channel).bytes) }
    ensures channels { IsAt channels.old id (λ channel. channels.new ≡ map.insert channels.old id (pull (length out.old) channel).rest) }
    ensures kinds { objects.new.kinds ≡ objects.old.kinds }
    ensures counts { IsAt channels.old id (λ channel. (o : ℕ) → number (map.get objects.new.counts o) + count_carried o (drop kept (pull (length out.old) channel).carried) ≡ number (map.get objects.old.counts o)) }
{
    check(channels, id);
    let mut fds = [NOTHING; MOST_CARRIED];
    let Ok(done) = channels.pull_from(id, out, &mut fds) else {
        unreachable!()
    };
    if kept < done.carried {
        let come = &fds[..done.carried];
        let_go_all(objects, &come[kept..]);
    }
}

/// Does fd_read on an end with these flags, which reads this channel. Descriptors that come with the bytes are let go. `Err` comes only
/// of a call that would else succeed, and changes nothing.
pub(crate) fn read(
    alloc: Global,
    objects: &mut Objects,
    channels: &mut Channels,
    flags: u16,
    reads: Option<ObjId>,
    length: u64,
) -> Result<Answer, AllocError>
    requires covered { (o : ℕ) → carriers_in o channels.old ≤ number (map.get objects.old.counts o) }
    ensures done { IsEndDone true (read_end (seen_in channels.old) length flags reads) channels.old channels.new result }
    ensures kinds { objects.new.kinds ≡ objects.old.kinds }
    ensures counts { AreCarried channels.old channels.new objects.old.counts objects.new.counts }
    ensures few { AreFew channels.old → AreFew channels.new }
    ensures same_objects { OnErr result (objects.new ≡ objects.old) }
{
    let Some(id) = reads else {
        return Ok(Answer::Reply(refused(Errno::Badf)));
    };
    let Some(channel) = channels.get(id) else {
        return Ok(Answer::Reply(refused(Errno::Badf)));
    };
    if channel.must_wait(length as usize) {
        return Ok(waits_unless(flags));
    }
    let count = channel.reach(length as usize);
    let mut out = vec![in alloc; 0u8; count]?;
    draw(objects, channels, id, &mut out, 0);
    let content = Payload::Content(Bytes::from_vec(out));
    Ok(Answer::Reply(success_with(count as u64, content)))
}

/// An end that reads a channel and writes one, with its flags.
#[derive(Clone, Copy)]
pub(crate) struct Socket {
    pub(crate) reads: ObjId,
    pub(crate) writes: ObjId,
    pub(crate) flags: u16,
    pub(crate) kind: ChanKind,
}

/// The open, if it is such an end.
pub(crate) fn socket_of(kind: &OpenKind) -> Option<Socket>
    ensures some { IfSome result (λ socket. kind.now ≡ End (Some socket.reads) (Some socket.writes) socket.flags socket.kind) }
    ensures none { IsNone result → (p : ℕ) (table : Table) (v : View) (n room flags : ℕ) → receive_open p table v n room flags (Some kind.now) ≡ replies (refused Notsock) }
{
    match kind {
        OpenKind::End {
            reads: Some(reads),
            writes: Some(writes),
            flags,
            kind,
        } => Some(Socket {
            reads: *reads,
            writes: *writes,
            flags: *flags,
            kind: *kind,
        }),
        _ => None,
    }
}

/// What a receive asks for.
#[derive(Clone, Copy)]
pub(crate) struct Asked {
    /// At most so many bytes.
    pub(crate) length: u64,
    /// For how many descriptors there is room.
    pub(crate) room: u64,
    /// Its flags.
    pub(crate) flags: u16,
}

/// Whether a receive with these flags can't go on, which asks for so many bytes. A read is one without flags.
pub(crate) fn must_wait(channel: &Channel, length: u64, flags: u16) -> bool
    ensures { result ≡ must_wait_by flags length channel.now }
{
    let length = length as usize;
    let all = flags & SOCK_RECV_WAITALL != 0;
    channel.must_wait(length) || (all && channel.must_wait_for_all(length))
}

// The answer that gives these bytes, descriptors and flags.
fn given(bytes: Vec<u8>, fds: FdList, flags: u16) -> Answer
    ensures { result ≡ answer.Reply (received_reply bytes.items fds flags) }
{
    let bytes = Bytes::from_vec(bytes);
    Answer::Reply(success_with(0, Payload::Received { bytes, fds, flags }))
}

// What a look at the bytes gives.
fn peek(alloc: Global, channel: &Channel, length: usize) -> Result<Answer, AllocError>
    ensures { IfOk result (λ given. given ≡ answer.Reply (received_reply (pull length channel.now).bytes [] 0)) }
{
    let count = channel.reach(length);
    let mut out = vec![in alloc; 0u8; count]?;
    let Ok(_) = channel.peek(&mut out) else {
        unreachable!()
    };
    Ok(given(out, FdList::new(alloc), 0))
}

// Takes what comes, where the receive can go on.
fn take(
    alloc: Global,
    table: &mut FdTable,
    objects: &mut Objects,
    channels: &mut Channels,
    id: ObjId,
    asked: &Asked,
) -> Result<Answer, AllocError>
    requires there { IsSome (map.get channels.old id) }
    requires covered { (o : ℕ) → carriers_in o channels.old ≤ number (map.get objects.old.counts o) }
    ensures done { IsAt channels.old id (λ channel. (p : ℕ) → IsSocketDone true (received p table.old asked.now.room id (pull asked.now.length channel)) table.old table.new channels.old channels.new result) }
    ensures kinds { objects.new.kinds ≡ objects.old.kinds }
    ensures counts { AreMoved table.old channels.old table.new channels.new objects.old.counts objects.new.counts }
    ensures few_carriers { AreFew channels.old → AreFew channels.new }
    ensures same_objects { OnErr result (objects.new ≡ objects.old) }
{
    check(channels, id);
    let Some(channel) = channels.get(id) else {
        unreachable!()
    };
    let mut fds = [NOTHING; MOST_CARRIED];
    let carried = channel.first_carried(asked.length as usize, &mut fds);
    let kept = carried.min(asked.room as usize);
    if table.len() + kept > MOST_DESCRIPTORS {
        return Ok(Answer::Reply(refused(Errno::Mfile)));
    }
    let count = channel.reach(asked.length as usize);
    let mut out = vec![in alloc; 0u8; count]?;
    let mut numbers = FdList::new(alloc);
    install(table, &fds[..kept], &mut numbers)?;
    draw(objects, channels, id, &mut out, kept);
    let flags = if kept < carried {
        SOCK_RECV_FDS_TRUNCATED
    } else {
        0
    };
    Ok(given(out, numbers, flags))
}

/// Does sock_recv on an open. A descriptor that comes stands in the table, or is let go where there is no room for it. `Err` comes only
/// of a call that would else succeed, and changes nothing.
pub(crate) fn receive(
    alloc: Global,
    table: &mut FdTable,
    objects: &mut Objects,
    channels: &mut Channels,
    kind: &OpenKind,
    asked: &Asked,
) -> Result<Answer, AllocError>
    requires covered { (o : ℕ) → count_in o table.old + carriers_in o channels.old ≤ number (map.get objects.old.counts o) }
    ensures done { (p : ℕ) → IsSocketDone true (receive_open p table.old (seen_in channels.old) asked.now.length asked.now.room asked.now.flags (Some kind.now)) table.old table.new channels.old channels.new result }
    ensures kinds { objects.new.kinds ≡ objects.old.kinds }
    ensures counts { AreMoved table.old channels.old table.new channels.new objects.old.counts objects.new.counts }
    ensures few_carriers { AreFew channels.old → AreFew channels.new }
    ensures same_objects { OnErr result (objects.new ≡ objects.old) }
{
    let Some(socket) = socket_of(kind) else {
        return Ok(Answer::Reply(refused(Errno::Notsock)));
    };
    let Some(channel) = channels.get(socket.reads) else {
        return Ok(Answer::Reply(refused(Errno::Badf)));
    };
    if must_wait(channel, asked.length, asked.flags) {
        return Ok(waits_unless(socket.flags));
    }
    if asked.flags & SOCK_RECV_PEEK != 0 {
        return peek(alloc, channel, asked.length as usize);
    }
    take(alloc, table, objects, channels, socket.reads, asked)
}
