//! Times of clocks that a poll waits for.
ghost use Rattle.std.specs.Prelude.{◌≡◌, Some};
ghost use Rattle.kernel_model.specs.Deadlines as deadlines;
ghost use Rattle.kernel_model.specs.Families.Polls.{deadline_in, has_come, sooner, soonest};
ghost use Rattle.kernel_model.specs.Families.WaitCalls as model;
ghost use Rattle.poll_set.specs.Polls.{poll_deadline};

use abi_types::flags::{CLOCK_REALTIME, SUBSCRIPTION_CLOCK_ABSTIME};
use abi_types::{Constants, Subscription, What};

// A deadline at this moment or later doesn't count.
const NEVER: u64 = 1 << 62;

/// The deadline, where it counts: one of 2^62 or more does not.
pub fn soon(until: Option<u64>) -> Option<u64>
    ensures { result ≡ deadlines.soon until }
{
    let moment = until?;
    if moment < NEVER { Some(moment) } else { None }
}

/// Whether the deadline has come.
pub fn is_due(now: u64, until: Option<u64>) -> bool
    ensures { result ≡ deadlines.is_due now until }
{
    match until {
        Some(moment) => now >= moment,
        None => false,
    }
}

// The moment of a time of a clock, which for one since 1970 is counted from the run's epoch on.
fn moment_of(constants: &Constants, clock: u32, time: u64) -> u64
    ensures { result ≡ model.moment_of constants.now clock time }
{
    if clock == CLOCK_REALTIME {
        time.saturating_sub(constants.epoch)
    } else {
        time
    }
}

// The moment by which the time of a clock has come that a call waits for, which was made at the moment `since`, where it counts.
fn clock_deadline(
    constants: &Constants,
    since: u64,
    clock: u32,
    timeout: u64,
    flags: u16,
) -> Option<u64>
    ensures { result ≡ deadlines.soon (Some (model.clock_deadline constants.now since clock timeout flags)) }
{
    if flags == SUBSCRIPTION_CLOCK_ABSTIME {
        return soon(Some(moment_of(constants, clock, timeout)));
    }
    soon(since.checked_add(timeout))
}

// Whether the time of a clock has come that a call waits for, which was made at the moment `since`.
pub(crate) fn has_come(
    constants: &Constants,
    now: u64,
    since: u64,
    clock: u32,
    timeout: u64,
    flags: u16,
) -> bool
    ensures { result ≡ has_come constants.now now since clock timeout flags }
{
    is_due(now, clock_deadline(constants, since, clock, timeout, flags))
}

// Until when one subscription waits, where it is of a clock and the moment counts.
fn deadline_in(constants: &Constants, since: u64, what: &What) -> Option<u64>
    ensures { result ≡ deadlines.soon (deadline_in constants.now since what.now) }
{
    match *what {
        What::Clock {
            clock,
            timeout,
            flags,
            ..
        } => clock_deadline(constants, since, clock, timeout, flags),
        _ => None,
    }
}

/// The sooner of two moments, or the one that there is.
pub fn sooner(first: Option<u64>, second: Option<u64>) -> Option<u64>
    ensures { result ≡ sooner first second }
{
    match first {
        None => second,
        Some(one) => match second {
            None => first,
            Some(other) => Some(one.min(other)),
        },
    }
}

// The soonest moment of the clocks that counts.
fn soonest(constants: &Constants, since: u64, subscriptions: &[Subscription]) -> Option<u64>
    ensures { result ≡ deadlines.soon (soonest constants.now since subscriptions.now) }
{
    let mut found = None;
    for subscription in subscriptions {
        found = sooner(found, deadline_in(constants, since, &subscription.what));
    }
    found
}

/// Until when a poll waits that was made at the moment `since`, if there is such a moment that counts: the soonest of its clocks'.
pub fn poll_deadline(
    constants: &Constants,
    since: u64,
    subscriptions: &[Subscription],
) -> Option<u64>
    ensures { result ≡ poll_deadline constants.now since subscriptions.now }
{
    soonest(constants, since, subscriptions)
}
