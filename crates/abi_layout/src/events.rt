//! Events and subscriptions, whose layouts depend on the type of the event.
ghost use Rattle.std.specs.Prelude.{◌≡◌, ◌≤◌, length, MatchOption};
ghost use Rattle.abi_structures.specs.Events.{number_of, type_of};
ghost use Rattle.abi_layout.specs.Layout as layout;
ghost use Rattle.abi_layout.specs.Layout.{Fit, IsLaidOut, numbers};
ghost use Rattle.abi_layout.specs.Events as specs;
ghost use Rattle.abi_layout.specs.Events.{LacksAreZero, WordsAreZero, HasNoType, IsSubscriptionIn};
ghost use Rattle.abi_layout.specs.Events.{event_layout, event_values, outcome_fields, outcome_values};
ghost use Rattle.abi_layout.specs.Events.{subscription_layout, subscription_values, what_fields, what_values};

use crate::fields::{put_u8, put_u16, put_u32, put_u64, u8_at, u16_at, u32_at, u64_at};
use abi_structures::{Event, EventType, Subscription, What};

// ---- events

// Whether an event of this kind is that bytes may be read or written.
fn is_transfer(kind: u8) -> bool
    ensures { result ≡ specs.is_transfer kind }
{
    kind == EventType::FdRead.number() || kind == EventType::FdWrite.number()
}

// Whether an event of this kind is that a process ended.
fn is_end(kind: u8) -> bool
    ensures { result ≡ specs.is_end kind }
{
    kind == EventType::ProcTerminate.number()
}

/// Reads an event from its bytes. What its kind lacks is 0.
pub fn read_event(bytes: &[u8; 32]) -> Event
    ensures values { event_values result ≡ numbers (event_layout result.kind).fields bytes.now }
    ensures lacks { LacksAreZero result }
{
    let head = Event {
        userdata: u64_at(bytes, 0),
        error: u16_at(bytes, 8),
        kind: u8_at(bytes, 10),
        nbytes: 0,
        flags: 0,
        signal: 0,
        code: 0,
    };
    if is_transfer(head.kind) {
        Event {
            nbytes: u64_at(bytes, 16),
            flags: u16_at(bytes, 24),
            ..head
        }
    } else if is_end(head.kind) {
        Event {
            signal: u8_at(bytes, 16),
            code: u32_at(bytes, 20),
            ..head
        }
    } else {
        head
    }
}

// Writes the fields that stand after an event's kind.
fn put_outcome(bytes: &mut [u8], event: &Event)
    requires { 32 ≤ length bytes.old }
    ensures written { bytes.new ≡ layout.written (outcome_fields event.now.kind) (outcome_values event.now) bytes.old }
    ensures fits { Fit (outcome_fields event.now.kind) (outcome_values event.now) }
{
    if is_transfer(event.kind) {
        put_u64(bytes, 16, event.nbytes);
        put_u16(bytes, 24, event.flags);
    } else if is_end(event.kind) {
        put_u8(bytes, 16, event.signal);
        put_u32(bytes, 20, event.code);
    }
}

/// Writes an event as bytes. A field that its kind lacks isn't written.
pub fn write_event(event: &Event) -> [u8; 32]
    ensures { IsLaidOut (event_layout event.now.kind) (event_values event.now) result }
{
    let mut bytes = [0; 32];
    put_u64(&mut bytes, 0, event.userdata);
    put_u16(&mut bytes, 8, event.error);
    put_u8(&mut bytes, 10, event.kind);
    put_outcome(&mut bytes, event);
    bytes
}

// ---- subscriptions

// Reads what a subscription of a type waits for. The words of locks and condition variables are 0.
fn read_what(event_type: EventType, bytes: &[u8]) -> What
    requires { 56 ≤ length bytes.now }
    ensures kind { type_of result ≡ event_type }
    ensures values { what_values result ≡ numbers (what_fields result) bytes.now }
    ensures words { WordsAreZero result }
{
    match event_type {
        EventType::Clock => What::Clock {
            clock: u32_at(bytes, 24),
            timeout: u64_at(bytes, 32),
            precision: u64_at(bytes, 40),
            flags: u16_at(bytes, 48),
        },
        EventType::Condvar => What::Condvar {
            condvar: u64_at(bytes, 16),
            condvar_word: 0,
            lock: u64_at(bytes, 24),
            lock_word: 0,
            condvar_scope: u8_at(bytes, 32),
            lock_scope: u8_at(bytes, 33),
        },
        EventType::FdRead => What::FdRead {
            fd: u32_at(bytes, 16),
        },
        EventType::FdWrite => What::FdWrite {
            fd: u32_at(bytes, 16),
        },
        EventType::LockRdlock => What::LockRdlock {
            lock: u64_at(bytes, 16),
            word: 0,
            scope: u8_at(bytes, 24),
        },
        EventType::LockWrlock => What::LockWrlock {
            lock: u64_at(bytes, 16),
            word: 0,
            scope: u8_at(bytes, 24),
        },
        EventType::ProcTerminate => What::ProcTerminate {
            fd: u32_at(bytes, 16),
        },
    }
}

/// Reads a subscription from its bytes. `None` exactly where its kind is no event's type.
pub fn read_subscription(bytes: &[u8; 56]) -> Option<Subscription>
    ensures { MatchOption result (HasNoType bytes.now) (IsSubscriptionIn bytes.now) }
{
    match EventType::from_number(u8_at(bytes, 8)) {
        Some(event_type) => Some(Subscription {
            userdata: u64_at(bytes, 0),
            what: read_what(event_type, bytes),
        }),
        None => None,
    }
}

// Writes the fields that stand after a subscription's kind.
fn put_what(bytes: &mut [u8], what: &What)
    requires { 56 ≤ length bytes.old }
    ensures written { bytes.new ≡ layout.written (what_fields what.now) (what_values what.now) bytes.old }
    ensures fits { Fit (what_fields what.now) (what_values what.now) }
{
    match what {
        What::Clock {
            clock,
            timeout,
            precision,
            flags,
        } => {
            put_u32(bytes, 24, *clock);
            put_u64(bytes, 32, *timeout);
            put_u64(bytes, 40, *precision);
            put_u16(bytes, 48, *flags);
        }
        What::Condvar {
            condvar,
            lock,
            condvar_scope,
            lock_scope,
            ..
        } => {
            put_u64(bytes, 16, *condvar);
            put_u64(bytes, 24, *lock);
            put_u8(bytes, 32, *condvar_scope);
            put_u8(bytes, 33, *lock_scope);
        }
        What::LockRdlock { lock, scope, .. } | What::LockWrlock { lock, scope, .. } => {
            put_u64(bytes, 16, *lock);
            put_u8(bytes, 24, *scope);
        }
        What::FdRead { fd } | What::FdWrite { fd } | What::ProcTerminate { fd } => put_u32(
            bytes, 16, *fd,
        ),
    }
}

/// Writes a subscription as bytes. Its words of locks and condition variables are 0, since the bytes have none.
pub fn write_subscription(subscription: &Subscription) -> [u8; 56]
    requires { WordsAreZero subscription.now.what }
    ensures { IsLaidOut (subscription_layout subscription.now.what) (subscription_values subscription.now) result }
{
    let mut bytes = [0; 56];
    put_u64(&mut bytes, 0, subscription.userdata);
    put_u8(&mut bytes, 8, subscription.what.event_type().number());
    put_what(&mut bytes, &subscription.what);
    bytes
}
