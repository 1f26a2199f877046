//! What a thread that waited is given where its memory changed meanwhile, and what its answer leaves.
use crate::calls::showing::{ABSENT, DATA, LEFT, memory_of, registers_of};
use abi_base::{GUEST_END, PAGE_SIZE};
use abi_types::{
    Answer, Call, Errno, Event, EventList, Payload, Prot, Reply, SubscriptionList, WakeIn,
    WordWrite, WordWrites,
};
use call_codec::{args, given, put_woken};
use guest_memory::{GuestMemory, MemFault};
use std::alloc::{AllocError, Global};
use std::test::Fail;

const LOCK: u64 = DATA + 0x800;

const CONDVAR: u64 = DATA + 0x2000;

// A page of its own, for events or for bytes that are read.
const PLACE: u64 = DATA + 0x1000;

// Pages of their own, for descriptors that are received, and for how much was received or sent.
const FDS: u64 = DATA + 0x2000;

const OUT: u64 = DATA + 0x3000;

const CLOCK: &[u64] = &[9, 1, 0, 1, 1000, 0, 0];

const WRLOCK: &[u64] = &[9, 6, LOCK, 4, 0, 0, 0];

const WAIT: &[u64] = &[9, 2, CONDVAR, LOCK, 0x404, 0, 0];

// Room for 100 bytes and two descriptors, and behind it the range.
const ROOM: &[u64] = &[DATA + 40, 1, FDS, 2, 0, PLACE, 100];

// 100 bytes and a descriptor, and behind them the range and its number.
const SENT: &[u64] = &[DATA + 40, 1, DATA + 56, 1, 0, PLACE, 100, 5];

// What happens to the memory while the thread waits.
#[derive(Clone, Copy)]
enum Change {
    Nothing,
    // To the page at an address.
    Unmapped(u64),
    ReadOnly(u64),
    // A number of 64 bits at an address.
    Stored(u64, u64),
}

use Change::{Nothing, ReadOnly, Stored, Unmapped};

// A call's number, its arguments, the numbers of 64 bits that stand from `DATA` on, the change, and what is given.
type Row = (u64, &'static [u64], &'static [u64], Change, WakeIn);

const PLAIN: WakeIn = WakeIn::Plain { word: 0 };

const ROWS: &[Row] = &[
    (37, &[DATA, PLACE, 1], CLOCK, Nothing, PLAIN),
    (37, &[DATA, PLACE, 1], CLOCK, Unmapped(DATA), PLAIN),
    (37, &[DATA, PLACE, 1], CLOCK, Unmapped(PLACE), WakeIn::Fault),
    (37, &[DATA, PLACE, 1], CLOCK, ReadOnly(PLACE), WakeIn::Fault),
    (
        37,
        &[DATA, PLACE - 16, 1],
        CLOCK,
        Unmapped(PLACE),
        WakeIn::Fault,
    ),
    (37, &[DATA, PLACE - 32, 1], CLOCK, Unmapped(PLACE), PLAIN),
    (37, &[DATA, PLACE, 1], WRLOCK, Nothing, PLAIN),
    (
        37,
        &[DATA, PLACE, 1],
        WRLOCK,
        Stored(LOCK, 7),
        WakeIn::Plain { word: 7 },
    ),
    (37, &[DATA, PLACE, 1], WRLOCK, ReadOnly(DATA), WakeIn::Fault),
    (
        37,
        &[DATA, PLACE, 1],
        WAIT,
        Stored(LOCK, 0x4000_0001),
        WakeIn::Plain { word: 0x4000_0001 },
    ),
    (37, &[DATA, PLACE, 1], WAIT, Unmapped(CONDVAR), PLAIN),
    (37, &[DATA, PLACE, 1], WAIT, Unmapped(DATA), WakeIn::Fault),
    (10, &[0, DATA, 1], &[PLACE, 100], Nothing, PLAIN),
    (
        10,
        &[0, DATA, 1],
        &[PLACE, 100],
        ReadOnly(PLACE),
        WakeIn::Fault,
    ),
    (
        10,
        &[0, DATA, 1],
        &[PLACE, 100],
        Unmapped(DATA),
        WakeIn::Fault,
    ),
    (
        10,
        &[0, DATA, 1],
        &[PLACE, 100],
        Stored(DATA + 8, 99),
        WakeIn::Fault,
    ),
    (
        10,
        &[0, DATA, 1],
        &[PLACE, 100],
        Stored(DATA + 8, 101),
        PLAIN,
    ),
    (
        10,
        &[0, DATA, 1],
        &[PLACE, 100],
        Stored(DATA, CONDVAR),
        PLAIN,
    ),
    (16, &[0, DATA, 1], &[PLACE, 100], Unmapped(DATA), PLAIN),
    (48, &[], &[], Unmapped(DATA), PLAIN),
    (43, &[0, DATA, OUT], ROOM, Nothing, PLAIN),
    (43, &[0, DATA, OUT], ROOM, Unmapped(DATA), WakeIn::Fault),
    (43, &[0, DATA, OUT], ROOM, ReadOnly(DATA), PLAIN),
    (43, &[0, DATA, OUT], ROOM, ReadOnly(PLACE), WakeIn::Fault),
    (43, &[0, DATA, OUT], ROOM, ReadOnly(FDS), WakeIn::Fault),
    (43, &[0, DATA, OUT], ROOM, ReadOnly(OUT), WakeIn::Fault),
    (43, &[0, DATA, OUT], ROOM, Unmapped(OUT), WakeIn::Fault),
    (
        43,
        &[0, DATA, OUT],
        ROOM,
        Stored(DATA + 24, 1),
        WakeIn::Fault,
    ),
    (43, &[0, DATA, OUT], ROOM, Stored(DATA + 24, 3), PLAIN),
    (
        43,
        &[0, DATA, OUT],
        ROOM,
        Stored(DATA + 16, ABSENT),
        WakeIn::Fault,
    ),
    (
        43,
        &[0, DATA, OUT],
        ROOM,
        Stored(DATA + 48, 99),
        WakeIn::Fault,
    ),
    (43, &[0, DATA, OUT], ROOM, Stored(DATA + 48, 101), PLAIN),
    (
        43,
        &[0, DATA, OUT],
        ROOM,
        Stored(DATA + 8, 0),
        WakeIn::Fault,
    ),
    (43, &[0, DATA, OUT], ROOM, Stored(DATA + 8, 2000), PLAIN),
    (43, &[0, DATA, OUT], ROOM, Stored(DATA + 32, 0xff), PLAIN),
    (44, &[0, DATA, OUT], SENT, Nothing, PLAIN),
    (44, &[0, DATA, OUT], SENT, Unmapped(DATA), PLAIN),
    (44, &[0, DATA, OUT], SENT, Unmapped(PLACE), PLAIN),
    (44, &[0, DATA, OUT], SENT, ReadOnly(OUT), WakeIn::Fault),
    (44, &[0, DATA, OUT], SENT, Unmapped(OUT), WakeIn::Fault),
];

const READ: Prot = Prot {
    read: true,
    write: false,
    exec: false,
};

// The change, made.
fn changed(memory: &mut GuestMemory, change: Change) -> Result<(), MemFault> {
    match change {
        Nothing => Ok(()),
        Unmapped(at) if at % PAGE_SIZE == 0 && at < GUEST_END => {
            memory.unmap(at, 1);
            Ok(())
        }
        ReadOnly(at) if at % PAGE_SIZE == 0 && at < GUEST_END => memory.protect(at, 1, READ),
        Unmapped(at) | ReadOnly(at) => Err(MemFault::NotMapped(at)),
        Stored(at, number) => memory.write_bytes(at, &number.to_le_bytes()),
    }
}

// Whether what is given is what is wanted, in the row's memory.
fn is_given_in(alloc: Global, memory: &mut GuestMemory, row: &Row) -> Result<bool, AllocError> {
    let &(number, arguments, _, change, want) = row;
    let regs = registers_of(number, arguments);
    let call = args(alloc, &regs, memory, LEFT)?;
    Ok(changed(memory, change).is_ok() && given(&regs, memory, &call) == want)
}

fn is_given(alloc: Global, row: &Row) -> Result<bool, AllocError> {
    match memory_of(alloc, row.2) {
        Ok(mut memory) => is_given_in(alloc, &mut memory, row),
        Err(_) => Ok(false),
    }
}

// The first row where what is given isn't what is wanted.
fn first_other(alloc: Global) -> Result<Option<usize>, AllocError> {
    for (place, row) in ROWS.iter().enumerate() {
        if !is_given(alloc, row)? {
            return Ok(Some(place));
        }
    }
    Ok(None)
}

#[test]
fn wakes_look_at_the_memory(rt: HostRuntime) -> Result<(), Fail> {
    assert_eq!(rt; first_other(rt.alloc())?, None);
    Ok(())
}

// A lock that was had, and bytes to read.
fn events(alloc: Global) -> Result<EventList, AllocError> {
    let had = Event {
        userdata: 9,
        error: 0,
        kind: 6,
        nbytes: 0,
        flags: 0,
        signal: 0,
        code: 0,
    };
    let mut events = EventList::new(alloc);
    events.push(had)?;
    events.push(Event {
        userdata: 8,
        kind: 3,
        nbytes: 5,
        ..had
    })?;
    Ok(events)
}

// Their bytes.
const EVENTS: [u8; 64] = [
    9, 0, 0, 0, 0, 0, 0, 0, 0, 0, 6, 0, 0, 0, 0, 0, 0, 0, 0, 0, 0, 0, 0, 0, 0, 0, 0, 0, 0, 0, 0, 0, //
    8, 0, 0, 0, 0, 0, 0, 0, 0, 0, 3, 0, 0, 0, 0, 0, 5, 0, 0, 0, 0, 0, 0, 0, 0, 0, 0, 0, 0, 0, 0, 0,
];

// Words at the lock, and over the first event, which is written after them.
const WORDS: WordWrites = WordWrites::Two(
    WordWrite {
        address: LOCK,
        word: 0x8000_0001,
    },
    WordWrite {
        address: PLACE,
        word: 7,
    },
);

// What the answer to a poll leaves: a0, a1, the pc, whether the events stand, and the word at the lock.
type Left = (u64, u64, u64, bool, u64);

fn left_in(alloc: Global, memory: &mut GuestMemory, answer: &Answer) -> Result<Left, MemFault> {
    let mut regs = registers_of(37, &[DATA, PLACE, 2]);
    let call = Call::Poll {
        subscriptions: SubscriptionList::new(alloc),
    };
    put_woken(&mut regs, memory, &call, answer);
    let mut bytes = [0; 64];
    memory.read_bytes(PLACE, &mut bytes)?;
    let word = memory.load(LOCK, 4)?;
    Ok((regs.get(10), regs.get(11), regs.pc(), bytes == EVENTS, word))
}

fn left(alloc: Global, answer: &Answer) -> Result<Left, MemFault> {
    let mut memory = memory_of(alloc, CLOCK)?;
    left_in(alloc, &mut memory, answer)
}

// A poll that is answered with those events.
fn done(alloc: Global) -> Result<Answer, AllocError> {
    Ok(Answer::Reply(Reply {
        errno: Errno::Success,
        r1: 2,
        r2: 0,
        payload: Payload::Events(events(alloc)?),
        writes: WORDS,
        denial: None,
    }))
}

#[test]
fn words_and_events_are_put(rt: HostRuntime) -> Result<(), Fail> {
    let done = done(rt.alloc())?;
    assert_eq!(rt;
        left(rt.alloc(), &done),
        Ok((0, 2, 0x10004, true, 0x8000_0001))
    );
    Ok(())
}

#[test]
fn words_are_put_where_the_thread_waits_on(rt: HostRuntime) -> Result<(), Fail> {
    assert_eq!(rt;
        left(rt.alloc(), &Answer::Parked(WORDS)),
        Ok((DATA, PLACE, 0x10000, false, 0x8000_0001))
    );
    Ok(())
}
