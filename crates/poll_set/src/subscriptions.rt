//! What one subscription of a poll is told, and what calls that wait look at beside their process's descriptors.
ghost use Rattle.std.specs.Prelude.{◌≡◌, ℕ, is_some, option_copied, IfSome, Some};
ghost use Rattle.std.specs.FinMap as map;
ghost use Rattle.std.specs.FinMap.{FinMap};
ghost use Rattle.std.specs.Ordering.{nat_cmp};
ghost use Rattle.abi_types.specs.declared.status.Status.{Status};
ghost use Rattle.kernel_model.specs.Calls.{meaning_of};
ghost use Rattle.kernel_model.specs.Channels.{Channel};
ghost use Rattle.kernel_model.specs.Families.FileMeaning.{open_of};
ghost use Rattle.kernel_model.specs.Families.Polls as model;
ghost use Rattle.poll_set.specs.Polls.{is_unread, is_unwritten, sight, BeginsWith};

use crate::clocks::has_come;
use abi_types::flags::EVENT_FD_READWRITE_HANGUP;
use abi_types::{Call, Constants, Event, EventType, ObjId, OpenKind, Status, Subscription, What};
use channel_calls::Channels;
use channels::{Channel, Side, SideState};
use fd_table::FdTable;
use maps::NumMap;
use object_store::Objects;

/// What a call that may wait looks at of a kernel beside its process's descriptors.
#[derive(Clone, Copy)]
pub struct Surroundings<'a> {
    pub constants: &'a Constants,
    pub objects: &'a Objects,
    pub channels: &'a Channels,
    /// How each process stands, by its number.
    pub statuses: &'a NumMap<Status>,
    /// The moment.
    pub now: u64,
}

// The open of the descriptor with this number in a table, if there is one.
fn open_at(objects: &Objects, table: &FdTable, fd: u32) -> Option<OpenKind>
    ensures { (channels : FinMap nat_cmp Channel) (statuses : FinMap nat_cmp Status) (now : ℕ) → result ≡ open_of (sight objects.now.kinds channels statuses now) (map.get table.now fd) }
{
    let descriptor = table.get(fd)?;
    objects.get(descriptor.id).copied()
}

/// The first subscription of a poll, where it is of a lock or a condition variable. A thread goes on from such a poll by how far its wait has
/// come.
#[tactic(auto, using(crate::proofs::PollReads::poll_by_stage))]
pub fn lock_subscription(call: &Call) -> Option<&Subscription>
    ensures first { IfSome result (λ first. BeginsWith first.now call.now) }
    ensures value { is_some result ≡ (meaning_of call.now).by_stage }
{
    let Call::Poll { subscriptions } = call else {
        return None;
    };
    let first = subscriptions.as_slice().first()?;
    match first.what {
        What::Condvar { .. } | What::LockRdlock { .. } | What::LockWrlock { .. } => Some(first),
        _ => None,
    }
}

/// An event of this type without an error, for the subscription with this number of the caller's.
pub fn event_of(userdata: u64, kind: EventType) -> Event
    ensures { result ≡ model.event_of userdata kind }
{
    Event {
        userdata,
        error: 0,
        kind: kind.number(),
        nbytes: 0,
        flags: 0,
        signal: 0,
        code: 0,
    }
}

// The event that so many bytes wait, or that there is room for so many.
fn bytes_event(userdata: u64, kind: EventType, nbytes: u64, hung: bool) -> Event
    ensures { result ≡ model.bytes_event userdata kind nbytes hung }
{
    Event {
        nbytes,
        flags: if hung { EVENT_FD_READWRITE_HANGUP } else { 0 },
        ..event_of(userdata, kind)
    }
}

// The event that a process has ended, by an exit code without a signal or by a signal without a code.
fn ended_event(userdata: u64, signal: u8, code: u32) -> Event
    ensures { result ≡ model.ended_event userdata signal code }
{
    Event {
        signal,
        code,
        ..event_of(userdata, EventType::ProcTerminate)
    }
}

// The event that a process has ended which stands so, if it has. One that was never made counts as ended.
fn end_event(userdata: u64, status: Option<&Status>) -> Option<Event>
    ensures { result ≡ model.end_event userdata (option_copied status.entry) }
{
    match status {
        Some(Status::Live) => None,
        Some(Status::Exit(code)) => Some(ended_event(userdata, 0, *code)),
        Some(Status::Killed(signal)) => Some(ended_event(userdata, signal.number(), 0)),
        None => Some(ended_event(userdata, 0, 0)),
    }
}

// Whether nobody reads the channel any more.
fn has_no_reader(channel: Option<&Channel>) -> bool
    ensures { result ≡ model.has_no_reader (option_copied channel.entry) }
{
    match channel {
        Some(channel) => channel.side(Side::Reader) != SideState::Open,
        None => false,
    }
}

// Whether nobody writes it.
fn has_no_writer(channel: Option<&Channel>) -> bool
    ensures { result ≡ model.has_no_writer (option_copied channel.entry) }
{
    match channel {
        Some(channel) => channel.side(Side::Writer) != SideState::Open,
        None => false,
    }
}

// The event that a channel may be read, if it may.
fn reading_event(userdata: u64, channel: Option<&Channel>) -> Option<Event>
    ensures { result ≡ model.reading_event userdata (option_copied channel.entry) }
{
    let Some(channel) = channel else {
        return Some(bytes_event(userdata, EventType::FdRead, 0, false));
    };
    if channel.must_wait(1) {
        return None;
    }
    let waiting = channel.waiting() as u64;
    Some(bytes_event(userdata, EventType::FdRead, waiting, channel.is_hung()))
}

// The event that a channel may be written, if it may.
fn writing_event(userdata: u64, channel: Option<&Channel>) -> Option<Event>
    ensures { result ≡ model.writing_event userdata (option_copied channel.entry) }
{
    let Some(channel) = channel else {
        return Some(bytes_event(userdata, EventType::FdWrite, 0, false));
    };
    let is_read = channel.side(Side::Reader) == SideState::Open;
    let room = channel.room() as u64;
    if room == 0 && is_read {
        return None;
    }
    Some(bytes_event(userdata, EventType::FdWrite, room, !is_read))
}

// Whether nobody reads what an end writes, where it writes a channel.
fn is_unread(channels: &Channels, writes: Option<ObjId>) -> bool
    ensures { result ≡ is_unread channels.now writes }
{
    match writes {
        Some(id) => has_no_reader(channels.get(id)),
        None => false,
    }
}

// Whether nobody writes what an end reads, where it reads a channel.
fn is_unwritten(channels: &Channels, reads: Option<ObjId>) -> bool
    ensures { result ≡ is_unwritten channels.now reads }
{
    match reads {
        Some(id) => has_no_writer(channels.get(id)),
        None => false,
    }
}

// The event that an open may be read, if it may.
fn read_event(around: Surroundings<'_>, userdata: u64, kind: Option<OpenKind>) -> Option<Event>
    ensures { result ≡ model.read_event userdata (sight around.entry.objects.now.kinds around.entry.channels.now around.entry.statuses.now around.entry.now) kind }
{
    let Some(OpenKind::End { reads, writes, .. }) = kind else {
        return Some(bytes_event(userdata, EventType::FdRead, 0, false));
    };
    let Some(id) = reads else {
        let hung = is_unread(around.channels, writes);
        return Some(bytes_event(userdata, EventType::FdRead, 0, hung));
    };
    reading_event(userdata, around.channels.get(id))
}

// The event that an open may be written, if it may.
fn write_event(around: Surroundings<'_>, userdata: u64, kind: Option<OpenKind>) -> Option<Event>
    ensures { result ≡ model.write_event userdata (sight around.entry.objects.now.kinds around.entry.channels.now around.entry.statuses.now around.entry.now) kind }
{
    let Some(OpenKind::End { reads, writes, .. }) = kind else {
        return Some(bytes_event(userdata, EventType::FdWrite, 0, false));
    };
    let Some(id) = writes else {
        let hung = is_unwritten(around.channels, reads);
        return Some(bytes_event(userdata, EventType::FdWrite, 0, hung));
    };
    writing_event(userdata, around.channels.get(id))
}

// The event that the process has ended that an open is of, if it has.
fn terminate_event(around: Surroundings<'_>, userdata: u64, kind: Option<OpenKind>) -> Option<Event>
    ensures { result ≡ model.terminate_event userdata (sight around.entry.objects.now.kinds around.entry.channels.now around.entry.statuses.now around.entry.now) kind }
{
    let Some(kind) = kind else {
        return end_event(userdata, None);
    };
    match kind {
        OpenKind::Process { pid, .. } => {
            end_event(userdata, around.statuses.get(u64::from(pid.0)))
        }
        _ => end_event(userdata, None),
    }
}

// What one subscription is told now, if it is ready, of a poll that was made at the moment `since` by a process with this table.
pub(crate) fn event_now(
    around: Surroundings<'_>,
    table: &FdTable,
    since: u64,
    subscription: &Subscription,
) -> Option<Event>
    ensures { result ≡ model.event_now around.entry.constants.now (sight around.entry.objects.now.kinds around.entry.channels.now around.entry.statuses.now around.entry.now) since table.now subscription.now.userdata subscription.now.what }
{
    let userdata = subscription.userdata;
    match subscription.what {
        What::Clock {
            clock,
            timeout,
            flags,
            ..
        } => {
            if has_come(around.constants, around.now, since, clock, timeout, flags) {
                Some(event_of(userdata, EventType::Clock))
            } else {
                None
            }
        }
        What::FdRead { fd } => read_event(around, userdata, open_at(around.objects, table, fd)),
        What::FdWrite { fd } => write_event(around, userdata, open_at(around.objects, table, fd)),
        What::ProcTerminate { fd } => {
            terminate_event(around, userdata, open_at(around.objects, table, fd))
        }
        What::Condvar { .. } | What::LockRdlock { .. } | What::LockWrlock { .. } => None,
    }
}
