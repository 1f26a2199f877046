//! What a poll comes to.
ghost use Rattle.std.specs.Prelude.{◌≡◌, IfOk, OnErr, true};
ghost use Rattle.kernel_model.specs.Families.Polls as model;
ghost use Rattle.kernel_model.specs.Outcome.{is_parked, IsSuccess};
ghost use Rattle.poll_set.specs.Polls.{is_told, poll_outcome, sight};

use crate::subscriptions::{Surroundings, event_now};
use abi_types::{Answer, EventList, Payload, Subscription, WordWrites};
use fd_table::FdTable;
use right_rules::success_with;
use std::alloc::{AllocError, Global};

// Whether some subscription is ready of a poll that was made at the moment `since`.
fn is_some_ready(
    around: Surroundings<'_>,
    table: &FdTable,
    since: u64,
    subscriptions: &[Subscription],
) -> bool
    ensures { result ≡ is_told (model.events_now around.entry.constants.now (sight around.entry.objects.now.kinds around.entry.channels.now around.entry.statuses.now around.entry.now) since table.now subscriptions.now) }
{
    for subscription in subscriptions {
        if event_now(around, table, since, subscription).is_some() {
            return true;
        }
    }
    false
}

// The events of all that are ready, in the order of the subscriptions.
fn events_now(
    alloc: Global,
    around: Surroundings<'_>,
    table: &FdTable,
    since: u64,
    subscriptions: &[Subscription],
) -> Result<EventList, AllocError>
    ensures ok { IfOk result (λ events. events ≡ model.events_now around.entry.constants.now (sight around.entry.objects.now.kinds around.entry.channels.now around.entry.statuses.now around.entry.now) since table.now subscriptions.now) }
    ensures err { OnErr result (is_told (model.events_now around.entry.constants.now (sight around.entry.objects.now.kinds around.entry.channels.now around.entry.statuses.now around.entry.now) since table.now subscriptions.now) ≡ true) }
{
    let mut events = EventList::new(alloc);
    for subscription in subscriptions {
        if let Some(event) = event_now(around, table, since, subscription) {
            events.push(event)?;
        }
    }
    Ok(events)
}

/// Whether a poll waits now that was made at the moment `since` by a process with this table, and that doesn't begin with a lock or a
/// condition variable. Takes no memory.
pub fn poll_waits(
    around: Surroundings<'_>,
    table: &FdTable,
    since: u64,
    subscriptions: &[Subscription],
) -> bool
    ensures { result ≡ is_parked (poll_outcome around.entry.constants.now around.entry.objects.now.kinds around.entry.channels.now around.entry.statuses.now around.entry.now table.now since subscriptions.now).answer }
{
    !is_some_ready(around, table, since, subscriptions)
}

// The answer with these events, if there is one, and else the thread waits.
fn told_or_waits(events: EventList) -> Answer
    ensures { result ≡ (model.told_or_waits events).answer }
{
    let count = events.len() as u64;
    if count == 0 {
        return Answer::Parked(WordWrites::Zero);
    }
    Answer::Reply(success_with(count, Payload::Events(events)))
}

/// What a poll answers now that was made at the moment `since` by a process with this table, and that doesn't begin with a lock or a
/// condition variable: the events of all that are ready, and where none is it waits. `Err` comes only where it would else succeed.
pub fn poll(
    alloc: Global,
    around: Surroundings<'_>,
    table: &FdTable,
    since: u64,
    subscriptions: &[Subscription],
) -> Result<Answer, AllocError>
    ensures ok { IfOk result (λ given. given ≡ (poll_outcome around.entry.constants.now around.entry.objects.now.kinds around.entry.channels.now around.entry.statuses.now around.entry.now table.now since subscriptions.now).answer) }
    ensures err { OnErr result (IsSuccess (poll_outcome around.entry.constants.now around.entry.objects.now.kinds around.entry.channels.now around.entry.statuses.now around.entry.now table.now since subscriptions.now).answer) }
{
    let events = events_now(alloc, around, table, since, subscriptions)?;
    Ok(told_or_waits(events))
}
