//! Calls that wait: until when, whether they are over, and where their threads stand, which is wherever something may come that they wait for.
ghost use Rattle.std.specs.Prelude.{◌≡◌, ◌++◌, ℕ, false, Some, IfOk, OnOk, option_copied};
ghost use Rattle.std.specs.FinMap as map;
ghost use Rattle.abi_types.specs.Families.{call_of_offset, call_of_socket, fd_of_offset};
ghost use Rattle.channel_calls.specs.Calls.{HasAllSent};
ghost use Rattle.kernel_model.specs.Calls.{meaning_of};
ghost use Rattle.kernel_model.specs.Outcome.{is_parked};
ghost use Rattle.kernel_model.specs.Waits as model;
ghost use Rattle.kernel_parts.specs.Entries.{kind_with, open_in};
ghost use Rattle.kernel_parts.specs.Noted.{awaited_place, call_places, channel_place, end_place, moment_place, only, polled_places, read_place, wait_places, write_place};
ghost use Rattle.kernel_parts.specs.Waiting.{end_at, fd_of_socket, goes_on, is_over, socket_at};

use abi_types::{
    Call, Constants, Family, ObjId, OffsetCall, OpenKind, SocketCall, Stage, Subscription, What,
};
use channel_calls::{end_waits, socket_waits};
use fd_table::FdTable;
use guest_locks::has_left;
use object_store::Objects;
use poll_set::{Surroundings, is_due, lock_subscription, poll_deadline, poll_waits};
use right_rules::refusal;
use std::alloc::{AllocError, Global};
use wait_set::Spot;

// By which moment a call is over that was made at the moment `since`, if there is such a moment that counts.
fn deadline_of(constants: &Constants, call: &Call, since: u64) -> Option<u64>
    ensures { result ≡ model.deadline_of constants.now call.now since }
{
    match call {
        Call::Poll { subscriptions } => poll_deadline(constants, since, subscriptions.as_slice()),
        _ => None,
    }
}

/// Until when a thread waits in a call that was made at the moment `since`, and has come so far.
pub(crate) fn deadline_at(
    constants: &Constants,
    call: &Call,
    since: u64,
    stage: Stage,
) -> Option<u64>
    ensures { result ≡ model.deadline_at constants.now call.now since stage }
{
    if has_left(call, stage) {
        None
    } else {
        deadline_of(constants, call, since)
    }
}

// Whether a call at the offset of a descriptor's open waits now.
fn offset_waits(around: Surroundings<'_>, table: &FdTable, call: OffsetCall<'_>) -> bool
    ensures { result ≡ is_parked (end_at around.entry.channels.now (open_in around.entry.objects.now.kinds (map.get table.now (fd_of_offset call.entry))) (call_of_offset call.entry)).answer }
{
    let Some(descriptor) = table.get(call.fd()) else {
        return false;
    };
    match around.objects.get(descriptor.id) {
        Some(kind) => end_waits(around.channels, kind, call),
        None => false,
    }
}

/// The descriptor of a call on a socket.
pub fn socket_fd(call: SocketCall<'_>) -> u32
    ensures { result ≡ fd_of_socket call.entry }
{
    match call {
        SocketCall::SockRecv { fd, .. } => fd,
        SocketCall::SockSend { fd, .. } => fd,
        SocketCall::SockShutdown { fd, .. } => fd,
    }
}

// Whether a call on a socket waits now, whose sent descriptors the table has.
fn socket_call_waits(around: Surroundings<'_>, table: &FdTable, call: SocketCall<'_>) -> bool
    requires { HasAllSent table.now (call_of_socket call) }
    ensures { (p : ℕ) → result ≡ is_parked (socket_at p table.now around.entry.channels.now (open_in around.entry.objects.now.kinds (map.get table.now (fd_of_socket call.entry))) (call_of_socket call.entry)).answer }
{
    let Some(descriptor) = table.get(socket_fd(call)) else {
        return false;
    };
    match around.objects.get(descriptor.id) {
        Some(kind) => socket_waits(around.channels, table, kind, call),
        None => false,
    }
}

// Whether a call would be done now and not wait, which was made at the moment `since` by a thread of the process that has this table.
fn is_over(around: Surroundings<'_>, table: Option<&FdTable>, since: u64, call: &Call) -> bool
    requires { (meaning_of call.now).by_stage ≡ false }
    ensures { result ≡ is_over around.entry.constants.now around.entry.objects.now.kinds around.entry.channels.now around.entry.statuses.now around.entry.now (option_copied table.entry) since call.now }
{
    let Some(table) = table else {
        return true;
    };
    if refusal(table, call).is_some() {
        return true;
    }
    match call.family() {
        Family::Poll(subscriptions) => !poll_waits(around, table, since, subscriptions),
        Family::Offset(view) => !offset_waits(around, table, view),
        Family::Socket(view) => !socket_call_waits(around, table, view),
        _ => true,
    }
}

/// Whether a thread of the process that has this table goes on now, which waits in a call that was made at the moment `since`, no longer than
/// until the moment `until`, and whose wait has come so far.
pub fn goes_on(
    around: Surroundings<'_>,
    table: Option<&FdTable>,
    call: &Call,
    since: u64,
    until: Option<u64>,
    stage: Stage,
) -> bool
    ensures { result ≡ goes_on around.entry.constants.now around.entry.objects.now.kinds around.entry.channels.now around.entry.statuses.now around.entry.now (option_copied table.entry) call.now since until stage }
{
    if lock_subscription(call).is_some() {
        return guest_locks::goes_on(stage, is_due(around.now, until));
    }
    is_over(around, table, since, call)
}

// The open of a number in a table, if there is one.
fn kind_at(objects: &Objects, table: Option<&FdTable>, fd: u32) -> Option<OpenKind>
    ensures { result ≡ kind_with objects.now.kinds (option_copied table.entry) (Some fd) }
{
    let descriptor = table?.get(fd)?;
    objects.get(descriptor.id).copied()
}

// The channel with this number, if there is one.
fn channel_spot(id: Option<ObjId>) -> Option<Spot>
    ensures { result ≡ channel_place id }
{
    Some(Spot::Channel(id?.0))
}

// The channel that an open reads, if it is an end that reads one.
fn read_spot(kind: Option<OpenKind>) -> Option<Spot>
    ensures { result ≡ read_place kind }
{
    match kind? {
        OpenKind::End { reads, .. } => channel_spot(reads),
        _ => None,
    }
}

// The channel that it writes, if it is one that writes one.
fn write_spot(kind: Option<OpenKind>) -> Option<Spot>
    ensures { result ≡ write_place kind }
{
    match kind? {
        OpenKind::End { writes, .. } => channel_spot(writes),
        _ => None,
    }
}

// The end of the process that it is of, if it is of one.
fn ended_spot(kind: Option<OpenKind>) -> Option<Spot>
    ensures { result ≡ end_place kind }
{
    match kind? {
        OpenKind::Process { pid, .. } => Some(Spot::Ended(u64::from(pid.0))),
        _ => None,
    }
}

// Where what one subscription waits for comes from, if it waits for anything but a moment.
fn awaited_spot(objects: &Objects, table: Option<&FdTable>, what: &What) -> Option<Spot>
    ensures { result ≡ awaited_place objects.now.kinds (option_copied table.entry) what.now }
{
    match *what {
        What::FdRead { fd } => read_spot(kind_at(objects, table, fd)),
        What::FdWrite { fd } => write_spot(kind_at(objects, table, fd)),
        What::ProcTerminate { fd } => ended_spot(kind_at(objects, table, fd)),
        _ => None,
    }
}

// Adds a spot, if it is one. `Err` where memory ran out.
fn add_spot(spots: &mut Vec<Spot>, spot: Option<Spot>) -> Result<(), AllocError>
    ensures { OnOk result (spots.new.items ≡ spots.old.items ++ only spot) }
{
    if let Some(spot) = spot {
        spots.push(spot)?;
    }
    Ok(())
}

// Adds where what the subscriptions wait for comes from. `Err` where memory ran out.
fn add_awaited(
    spots: &mut Vec<Spot>,
    objects: &Objects,
    table: Option<&FdTable>,
    subscriptions: &[Subscription],
) -> Result<(), AllocError>
    ensures { OnOk result (spots.new.items ≡ spots.old.items ++ polled_places objects.now.kinds (option_copied table.entry) subscriptions.now) }
{
    for subscription in subscriptions {
        add_spot(spots, awaited_spot(objects, table, &subscription.what))?;
    }
    Ok(())
}

// Adds where what a call waits for comes from, that isn't for a lock or at a condition variable. `Err` where memory ran out.
fn add_places(
    spots: &mut Vec<Spot>,
    objects: &Objects,
    table: Option<&FdTable>,
    call: &Call,
) -> Result<(), AllocError>
    ensures { OnOk result (spots.new.items ≡ spots.old.items ++ call_places objects.now.kinds (option_copied table.entry) call.now) }
{
    match call {
        Call::Poll { subscriptions } => {
            add_awaited(spots, objects, table, subscriptions.as_slice())
        }
        Call::FdRead { fd, .. } | Call::SockRecv { fd, .. } => {
            add_spot(spots, read_spot(kind_at(objects, table, *fd)))
        }
        Call::FdWrite { fd, .. } | Call::SockSend { fd, .. } => {
            add_spot(spots, write_spot(kind_at(objects, table, *fd)))
        }
        _ => Ok(()),
    }
}

// The moment, if there is one.
fn moment_spot(until: Option<u64>) -> Option<Spot>
    ensures { result ≡ moment_place until }
{
    Some(Spot::Moment(until?))
}

// At how many spots at most a thread stands that waits in a call.
fn most_spots(call: &Call) -> usize {
    match call {
        Call::Poll { subscriptions } => subscriptions.len().saturating_add(1),
        _ => 2,
    }
}

/// Where a thread stands that waits in a call until this moment, and whose process has this table: at the channels on which its call waits, at the
/// ends of processes that it waits for, and last at the moment. One that waits for a lock or at a condition variable stands at its moment alone. `Err`
/// where memory ran out.
pub fn wait_spots(
    alloc: Global,
    objects: &Objects,
    table: Option<&FdTable>,
    call: &Call,
    until: Option<u64>,
) -> Result<Vec<Spot>, AllocError>
    ensures { IfOk result (λ spots. spots.items ≡ wait_places objects.now.kinds (option_copied table.entry) call.now until) }
{
    let mut spots = Vec::with_capacity(alloc, most_spots(call))?;
    if lock_subscription(call).is_none() {
        add_places(&mut spots, objects, table, call)?;
    }
    add_spot(&mut spots, moment_spot(until))?;
    Ok(spots)
}
