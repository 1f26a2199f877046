//! What ends send.
ghost use Rattle.std.specs.Prelude.{◌≡◌, ◌+◌, ◌≤◌, ℕ, [], IfOk, IfErr, OnErr, IsTrue, length};
ghost use Rattle.std.specs.FinMap as map;
ghost use Rattle.channel_calls.specs.Calls.{AreCarried, AreFew, carriers_in};
ghost use Rattle.channel_calls.specs.Done.{IsSendDone};
ghost use Rattle.channel_calls.specs.Sends.{AreCarriable, AreHeld, CanSend, IsNotSent, answer_by};
ghost use Rattle.channels.specs.Channels.{IsFilled, most_carried};
ghost use Rattle.kernel_model.specs.Families.ChannelCalls.{is_nonblocking, picked, sent_reply, written_reply};
ghost use Rattle.kernel_model.specs.Release.{count_carried, count_in};
ghost use Rattle.maps.specs.Maps.{number};

use crate::kept::Channels;
use crate::letting_go::{MOST_CARRIED, NOTHING};
use abi_types::flags::FDFLAG_NONBLOCK;
use abi_types::{Answer, Descriptor, Errno, ObjId, Payload, WordWrites};
use fd_table::FdTable;
use object_store::Objects;
use right_rules::{refused, success, success_with};
use std::alloc::AllocError;

/// An open that is held as often isn't sent any more. No run gets there.
const MOST_HOLDERS: u64 = (1 << 62) - 64;

/// The channel that an end writes, and the end's flags.
#[derive(Clone, Copy)]
pub(crate) struct Outgoing {
    pub(crate) writes: Option<ObjId>,
    pub(crate) flags: u16,
}

/// What a send comes to.
#[derive(Clone, Copy)]
pub(crate) enum Sending {
    Refused(Errno),
    Waits,
    /// So many bytes were sent.
    Sent(u64),
}

/// Whether calls on an end of these flags answer AGAIN in place of waiting.
pub(crate) fn is_nonblocking(flags: u16) -> bool
    ensures { result ≡ is_nonblocking flags }
{
    flags & FDFLAG_NONBLOCK != 0
}

/// The answer of fd_write.
pub(crate) fn written(sending: Sending) -> Answer
    ensures { result ≡ answer_by written_reply sending }
{
    match sending {
        Sending::Refused(errno) => Answer::Reply(refused(errno)),
        Sending::Waits => Answer::Parked(WordWrites::Zero),
        Sending::Sent(count) => Answer::Reply(success(count, 0)),
    }
}

/// The answer of sock_send.
pub(crate) fn sent(sending: Sending) -> Answer
    ensures { result ≡ answer_by sent_reply sending }
{
    match sending {
        Sending::Refused(errno) => Answer::Reply(refused(errno)),
        Sending::Waits => Answer::Parked(WordWrites::Zero),
        Sending::Sent(count) => Answer::Reply(success_with(0, Payload::Sent(count))),
    }
}

/// The channel to which an end can send the bytes now, with so many descriptors. Else what the send comes to, which changes nothing.
pub(crate) fn ready(
    channels: &Channels,
    end: &Outgoing,
    bytes: &[u8],
    carried: usize,
) -> Result<ObjId, Sending>
    ensures ok { IfOk result (λ id. CanSend channels.now end.now bytes.now carried id) }
    ensures err { IfErr result (λ sending. IsNotSent channels.now end.now bytes.now carried sending) }
{
    if bytes.is_empty() {
        return Err(Sending::Sent(0));
    }
    let Some(id) = end.writes else {
        return Err(Sending::Refused(Errno::Badf));
    };
    let Some(channel) = channels.get(id) else {
        return Err(Sending::Refused(Errno::Badf));
    };
    if channel.is_hung() {
        return Err(Sending::Refused(Errno::Pipe));
    }
    if !channel.has_room(carried) {
        return Err(if is_nonblocking(end.flags) {
            Sending::Refused(Errno::Again)
        } else {
            Sending::Waits
        });
    }
    Ok(id)
}

/// Sends bytes, and no descriptors.
pub(crate) fn send_bytes(
    objects: &mut Objects,
    channels: &mut Channels,
    end: &Outgoing,
    bytes: &[u8],
) -> Result<Sending, AllocError>
    requires covered { (o : ℕ) → carriers_in o channels.old ≤ number (map.get objects.old.counts o) }
    ensures done { IsSendDone channels.old channels.new end.now bytes.now [] result }
    ensures kinds { objects.new.kinds ≡ objects.old.kinds }
    ensures counts { AreCarried channels.old channels.new objects.old.counts objects.new.counts }
    ensures few { AreFew channels.old → AreFew channels.new }
    ensures same_objects { OnErr result (objects.new ≡ objects.old) }
{
    match ready(channels, end, bytes, 0) {
        Ok(id) => deliver(objects, channels, id, end, bytes, &[]),
        Err(sending) => Ok(sending),
    }
}

/// Sends bytes, and the descriptors of these numbers with them.
pub(crate) fn send_with(
    table: &FdTable,
    objects: &mut Objects,
    channels: &mut Channels,
    end: &Outgoing,
    bytes: &[u8],
    fds: &[u32],
) -> Result<Sending, AllocError>
    requires covered { (o : ℕ) → count_in o table.now + carriers_in o channels.old ≤ number (map.get objects.old.counts o) }
    ensures done { IsSendDone channels.old channels.new end.now bytes.now (picked table.now fds.now) result }
    ensures kinds { objects.new.kinds ≡ objects.old.kinds }
    ensures counts { AreCarried channels.old channels.new objects.old.counts objects.new.counts }
    ensures few { AreFew channels.old → AreFew channels.new }
    ensures same_objects { OnErr result (objects.new ≡ objects.old) }
{
    let mut carried = [NOTHING; MOST_CARRIED];
    let count = pick(table, fds, &mut carried);
    match ready(channels, end, bytes, count) {
        Ok(id) => deliver(objects, channels, id, end, bytes, &carried[..count]),
        Err(sending) => Ok(sending),
    }
}

// Copies the descriptors of these numbers to the beginning of the buffer, as many as it has room for, and returns their number.
fn pick(table: &FdTable, fds: &[u32], out: &mut [Descriptor]) -> usize
    ensures count { result ≡ length (picked table.now fds.now) }
    ensures filled { result ≤ length out.old → IsFilled (picked table.now fds.now) out.old out.new }
{
    let mut count = 0;
    for fd in fds {
        if let Some(descriptor) = table.get(*fd) {
            if count < out.len() {
                out[count] = *descriptor;
            }
            count += 1;
        }
    }
    count
}

// Sends bytes and descriptors to a channel that has room for them.
fn deliver(
    objects: &mut Objects,
    channels: &mut Channels,
    id: ObjId,
    end: &Outgoing,
    bytes: &[u8],
    carried: &[Descriptor],
) -> Result<Sending, AllocError>
    requires can { CanSend channels.old end.now bytes.now (length carried.now) id }
    requires covered { (o : ℕ) → carriers_in o channels.old ≤ number (map.get objects.old.counts o) }
    requires held { AreHeld objects.old.counts carried.now }
    ensures done { IsSendDone channels.old channels.new end.now bytes.now carried.now result }
    ensures kinds { objects.new.kinds ≡ objects.old.kinds }
    ensures counts { AreCarried channels.old channels.new objects.old.counts objects.new.counts }
    ensures few { AreFew channels.old → AreFew channels.new }
    ensures same_objects { OnErr result (objects.new ≡ objects.old) }
{
    if !may_carry(objects, carried) {
        return Err(AllocError);
    }
    let Ok(count) = channels.push_to(id, bytes, carried) else {
        return Err(AllocError);
    };
    hold_all(objects, carried);
    Ok(Sending::Sent(count as u64))
}

// Whether the open of each descriptor may be held by so many more.
fn may_carry(objects: &Objects, carried: &[Descriptor]) -> bool
    ensures { IsTrue result → AreCarriable objects.now.counts carried.now }
{
    for descriptor in carried {
        if objects.count(descriptor.id) > MOST_HOLDERS {
            return false;
        }
    }
    true
}

// Each descriptor holds its open once more.
fn hold_all(objects: &mut Objects, carried: &[Descriptor])
    requires held { AreHeld objects.old.counts carried.now }
    requires carriable { AreCarriable objects.old.counts carried.now }
    requires few { length carried.now ≤ most_carried }
    ensures kinds { objects.new.kinds ≡ objects.old.kinds }
    ensures counts { (o : ℕ) → number (map.get objects.new.counts o) ≡ number (map.get objects.old.counts o) + count_carried o carried.now }
{
    for descriptor in carried {
        objects.hold(descriptor.id);
    }
}
