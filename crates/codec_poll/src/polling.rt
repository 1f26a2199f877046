//! The poll that registers and memory encode: its subscriptions as they stand in memory, with the words of their locks and condition
//! variables, and what they must be like.
ghost use Rattle.std.specs.Prelude.{◌≡◌};
ghost use Rattle.std.specs.List.{list_any};
ghost use Rattle.codec_arguments.specs.Reading.{Reads};
ghost use Rattle.codec_poll.specs.Poll.{all_found, all_known, allowed, are_placed, found_at, has_bad_address, has_cpu_clock, has_lock};
ghost use Rattle.codec_poll.specs.Poll.{has_unknown_clock, is_deadline, poll_of, scopes_in, scopes_known, stand_for_lock};
ghost use Rattle.codec_poll.specs.Poll.{subscription_of, with_words, worded};

use abi_layout::read_subscription;
use abi_types::flags::SUBSCRIPTION_CLOCK_ABSTIME;
use abi_types::{Call, Errno, Items, Regs, Subscription, SubscriptionList, What};
use codec_arguments::{ArgumentFault, check_writable, fill, read_word, refuse_when};
use codec_calls::{check_scope, has_unknown, is_cpu_clock, is_misaligned, is_time_clock};
use guest_memory::GuestMemory;
use std::alloc::Global;

/// The most subscriptions of a poll.
pub const MOST_SUBSCRIPTIONS: u64 = 256;

/// How many bytes an event has.
pub const EVENT_SIZE: u64 = 32;

// The subscription in 56 bytes. `None` exactly where its type isn't known.
#[tactic(auto, using(crate::proofs::Subscriptions::known_subscription, crate::proofs::Subscriptions::no_subscription))]
fn known_subscription(bytes: &[u8; 56]) -> Option<Subscription>
    ensures { result ≡ subscription_of bytes.now }
{
    read_subscription(bytes)
}

// What is waited for, with the words that stand at its addresses. FAULT where one may not be read and written.
fn read_words(memory: &GuestMemory, what: What) -> Result<What, Errno>
    ensures { result ≡ worded memory.now what }
{
    match what {
        What::Condvar {
            condvar,
            lock,
            condvar_scope,
            lock_scope,
            ..
        } => Ok(What::Condvar {
            condvar,
            condvar_word: read_word(memory, condvar)?,
            lock,
            lock_word: read_word(memory, lock)?,
            condvar_scope,
            lock_scope,
        }),
        What::LockRdlock { lock, scope, .. } => Ok(What::LockRdlock {
            lock,
            word: read_word(memory, lock)?,
            scope,
        }),
        What::LockWrlock { lock, scope, .. } => Ok(What::LockWrlock {
            lock,
            word: read_word(memory, lock)?,
            scope,
        }),
        other => Ok(other),
    }
}

// The subscription at an address, with its words; `None` where its type isn't known. FAULT where it can't be read, or one of
// its words may not be read and written.
fn read_found(memory: &GuestMemory, at: u64) -> Result<Option<Subscription>, Errno>
    ensures { result ≡ found_at memory.now at }
{
    let mut bytes = [0; 56];
    fill(memory, at, &mut bytes)?;
    match known_subscription(&bytes) {
        Some(Subscription { userdata, what }) => Ok(Some(Subscription {
            userdata,
            what: read_words(memory, what)?,
        })),
        None => Ok(None),
    }
}

// The `count` subscriptions from an address on, each `None` where its type isn't known. FAULT where one can't be read, or a
// word of one may not be read and written.
fn read_all_found(
    alloc: Global,
    memory: &GuestMemory,
    at: u64,
    count: u64,
) -> Result<Items<Option<Subscription>>, ArgumentFault>
    ensures { Reads result (all_found memory.now at count) }
{
    let mut found = Items::new(alloc);
    let mut next = at;
    for _ in 0..count {
        match read_found(memory, next) {
            Ok(subscription) => found.push(subscription)?,
            Err(errno) => return Err(ArgumentFault::Errno(errno)),
        }
        next = next.wrapping_add(56);
    }
    Ok(found)
}

// The subscriptions, of which each is `None` where its type isn't known: that is INVAL.
fn all_known(
    alloc: Global,
    found: &[Option<Subscription>],
) -> Result<SubscriptionList, ArgumentFault>
    ensures { Reads result (all_known found.now) }
{
    let mut subscriptions = SubscriptionList::new(alloc);
    for subscription in found {
        match subscription {
            Some(subscription) => subscriptions.push(*subscription)?,
            None => return Err(ArgumentFault::Errno(Errno::Inval)),
        }
    }
    Ok(subscriptions)
}

// Whether it is a CLOCK of a clock or with a flag that there isn't.
fn has_unknown_clock(subscription: &Subscription) -> bool
    ensures { result ≡ has_unknown_clock subscription.now }
{
    match subscription.what {
        What::Clock { clock, flags, .. } => {
            !(is_cpu_clock(clock) || is_time_clock(clock))
                || has_unknown(u32::from(flags), u32::from(SUBSCRIPTION_CLOCK_ABSTIME))
        }
        _ => false,
    }
}

// Whether one is a CLOCK of a clock or with a flag that there isn't.
fn any_unknown_clock(subscriptions: &[Subscription]) -> bool
    ensures { result ≡ list_any has_unknown_clock subscriptions.now }
{
    subscriptions.iter().any(|one| has_unknown_clock(one))
}

// Whether it is a CLOCK of a processor's time.
fn has_cpu_clock(subscription: &Subscription) -> bool
    ensures { result ≡ has_cpu_clock subscription.now }
{
    match subscription.what {
        What::Clock { clock, .. } => is_cpu_clock(clock),
        _ => false,
    }
}

// Whether one is a CLOCK of a processor's time.
fn any_cpu_clock(subscriptions: &[Subscription]) -> bool
    ensures { result ≡ list_any has_cpu_clock subscriptions.now }
{
    subscriptions.iter().any(|one| has_cpu_clock(one))
}

// Whether it is a LOCK or a CONDVAR.
fn has_lock(subscription: &Subscription) -> bool
    ensures { result ≡ has_lock subscription.now }
{
    matches!(
        subscription.what,
        What::Condvar { .. } | What::LockRdlock { .. } | What::LockWrlock { .. }
    )
}

// Whether one is a LOCK or a CONDVAR.
fn any_lock(subscriptions: &[Subscription]) -> bool
    ensures { result ≡ list_any has_lock subscriptions.now }
{
    subscriptions.iter().any(|one| has_lock(one))
}

// Whether it is a CLOCK with ABSTIME.
fn is_deadline(subscription: &Subscription) -> bool
    ensures { result ≡ is_deadline subscription.now }
{
    match subscription.what {
        What::Clock { flags, .. } => flags == SUBSCRIPTION_CLOCK_ABSTIME,
        _ => false,
    }
}

// Whether there is one subscription, or two of which the second is a CLOCK with ABSTIME.
fn stand_for_lock(subscriptions: &[Subscription]) -> bool
    ensures { result ≡ stand_for_lock subscriptions.now }
{
    match subscriptions {
        [] | [_] => true,
        [_, second] => is_deadline(second),
        _ => false,
    }
}

// Whether a LOCK or a CONDVAR among them stands alone, or first of two of which the second is a CLOCK with ABSTIME.
fn are_placed(subscriptions: &[Subscription]) -> bool
    ensures { result ≡ are_placed subscriptions.now }
{
    !any_lock(subscriptions) || stand_for_lock(subscriptions)
}

// Whether an address of a lock or a condition variable isn't a multiple of 4, or both have one address.
fn has_bad_address(subscription: &Subscription) -> bool
    ensures { result ≡ has_bad_address subscription.now }
{
    match subscription.what {
        What::Condvar { condvar, lock, .. } => {
            is_misaligned(condvar) || is_misaligned(lock) || condvar == lock
        }
        What::LockRdlock { lock, .. } | What::LockWrlock { lock, .. } => is_misaligned(lock),
        _ => false,
    }
}

// Whether one has a bad address.
fn any_bad_address(subscriptions: &[Subscription]) -> bool
    ensures { result ≡ list_any has_bad_address subscriptions.now }
{
    subscriptions.iter().any(|one| has_bad_address(one))
}

// Whether the scopes are supported, a condition variable's before its lock's.
fn check_scopes(what: What) -> Result<(), Errno>
    ensures { result ≡ scopes_in what }
{
    match what {
        What::Condvar {
            condvar_scope,
            lock_scope,
            ..
        } => {
            check_scope(u32::from(condvar_scope))?;
            check_scope(u32::from(lock_scope))
        }
        What::LockRdlock { scope, .. } | What::LockWrlock { scope, .. } => {
            check_scope(u32::from(scope))
        }
        _ => Ok(()),
    }
}

// Whether the scopes of the first subscription are supported, which alone may be a LOCK or a CONDVAR.
fn check_first_scopes(subscriptions: &[Subscription]) -> Result<(), Errno>
    ensures { result ≡ scopes_known subscriptions.now }
{
    match subscriptions {
        [first, ..] => check_scopes(first.what),
        [] => Ok(()),
    }
}

// Whether subscriptions of known types are as they must be: INVAL for a clock or a flag that there isn't, NOTSUP for a clock
// of a processor's time, INVAL for a LOCK or a CONDVAR at another place and for a bad address, and the scopes' refusals.
fn check_allowed(subscriptions: &[Subscription]) -> Result<(), Errno>
    ensures { result ≡ allowed subscriptions.now }
{
    refuse_when(any_unknown_clock(subscriptions), Errno::Inval)?;
    refuse_when(any_cpu_clock(subscriptions), Errno::Notsup)?;
    refuse_when(!are_placed(subscriptions), Errno::Inval)?;
    refuse_when(any_bad_address(subscriptions), Errno::Inval)?;
    check_first_scopes(subscriptions)
}

/// poll: the address of subscriptions, the address for events, and how many there are of each. INVAL for none or over 256;
/// FAULT for a subscription that can't be read, room for events that can't be written, and a word of a lock or a condition
/// variable that may not be read and written; then what the subscriptions show.
pub fn poll(alloc: Global, regs: &Regs, memory: &GuestMemory) -> Result<Call, ArgumentFault>
    ensures { Reads result (poll_of memory.now regs.now) }
{
    let count = regs.get(12);
    refuse_when(!(1 <= count && count <= MOST_SUBSCRIPTIONS), Errno::Inval)?;
    let found = read_all_found(alloc, memory, regs.get(10), count)?;
    check_writable(memory, regs.get(11), EVENT_SIZE * count)?;
    let subscriptions = all_known(alloc, found.as_slice())?;
    check_allowed(subscriptions.as_slice())?;
    Ok(Call::Poll { subscriptions })
}
