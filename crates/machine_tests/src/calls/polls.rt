//! Polls. A subscription has seven numbers of 64 bits: the number for the event, its type, and five that depend on the type.
use crate::calls::showing::Want::{No, Yes};
use crate::calls::showing::{ABSENT, DATA, READ_ONLY, Row, WRITE_ONLY, first_other};
use abi_types::Errno;
use std::test::Fail;

const LOCK: u64 = DATA + 0x800;

const OTHER: u64 = DATA + 0x804;

const EVENTS: u64 = DATA + 0x1000;

// A CLOCK, of 1000 nanoseconds of MONOTONIC; with ABSTIME; of a processor's time; of no clock; with no flag that there is.
const CLOCK: &[u64] = &[9, 1, 0, 1, 1000, 0, 0];

const CPU_CLOCK: &[u64] = &[9, 1, 0, 2, 1000, 0, 0];

const NO_CLOCK: &[u64] = &[9, 1, 0, 5, 1000, 0, 0];

const NO_FLAG: &[u64] = &[9, 1, 0, 1, 1000, 0, 2];

// Two subscriptions each.
const LOCK_AND_DEADLINE: &[u64] = &[9, 6, LOCK, 4, 0, 0, 0, 8, 1, 0, 3, 1000, 0, 1];

const LOCK_AND_CLOCK: &[u64] = &[9, 6, LOCK, 4, 0, 0, 0, 8, 1, 0, 3, 1000, 0, 0];

const DEADLINE_AND_LOCK: &[u64] = &[8, 1, 0, 3, 1000, 0, 1, 9, 6, LOCK, 4, 0, 0, 0];

const LOCK_AND_READ: &[u64] = &[9, 6, LOCK, 4, 0, 0, 0, 8, 3, 1, 0, 0, 0, 0];

const CPU_CLOCK_AND_NO_TYPE: &[u64] = &[9, 1, 0, 2, 0, 0, 0, 8, 9, 0, 0, 0, 0, 0];

const CPU_CLOCK_AND_BAD_LOCK: &[u64] = &[9, 1, 0, 4, 0, 0, 0, 8, 5, LOCK + 2, 9, 0, 0, 0];

const NO_TYPE_AND_FAULT: &[u64] = &[9, 0, 0, 0, 0, 0, 0, 8, 5, ABSENT, 4, 0, 0, 0];

const THREE: &[u64] = &[
    9, 3, 1, 0, 0, 0, 0, 8, 7, 2, 0, 0, 0, 0, 7, 4, 3, 0, 0, 0, 0,
];

const LOCK_OF_THREE: &[u64] = &[
    9, 5, LOCK, 4, 0, 0, 0, 8, 1, 0, 3, 1000, 0, 1, 7, 4, 3, 0, 0, 0, 0,
];

const ROWS: &[Row] = &[
    (37, &[ABSENT, ABSENT, 0], &[], No(Errno::Inval)),
    (37, &[ABSENT, ABSENT, 257], &[], No(Errno::Inval)),
    (37, &[ABSENT, EVENTS, 256], &[], No(Errno::Fault)),
    (37, &[DATA, EVENTS, 1], CLOCK, Yes(&[1, 9, 1])),
    (37, &[DATA, READ_ONLY, 1], CLOCK, No(Errno::Fault)),
    (37, &[DATA, WRITE_ONLY + 4064, 1], CLOCK, Yes(&[1, 9, 1])),
    (37, &[DATA, WRITE_ONLY + 4065, 1], CLOCK, No(Errno::Fault)),
    (37, &[DATA, EVENTS, 1], CPU_CLOCK, No(Errno::Notsup)),
    (37, &[DATA, EVENTS, 1], NO_CLOCK, No(Errno::Inval)),
    (37, &[DATA, EVENTS, 1], NO_FLAG, No(Errno::Inval)),
    (37, &[DATA, EVENTS, 3], THREE, Yes(&[3, 9, 3])),
    (37, &[DATA, EVENTS, 4], THREE, No(Errno::Inval)),
    // by sentence, over all subscriptions
    (
        37,
        &[DATA, EVENTS, 2],
        CPU_CLOCK_AND_NO_TYPE,
        No(Errno::Inval),
    ),
    (
        37,
        &[DATA, EVENTS, 2],
        CPU_CLOCK_AND_BAD_LOCK,
        No(Errno::Notsup),
    ),
    (37, &[DATA, EVENTS, 2], NO_TYPE_AND_FAULT, No(Errno::Fault)),
    // a lock's place
    (37, &[DATA, EVENTS, 1], LOCK_AND_CLOCK, Yes(&[1, 9, 6])),
    (37, &[DATA, EVENTS, 2], LOCK_AND_DEADLINE, Yes(&[2, 9, 6])),
    (37, &[DATA, EVENTS, 2], LOCK_AND_CLOCK, No(Errno::Inval)),
    (37, &[DATA, EVENTS, 2], DEADLINE_AND_LOCK, No(Errno::Inval)),
    (37, &[DATA, EVENTS, 2], LOCK_AND_READ, No(Errno::Inval)),
    (37, &[DATA, EVENTS, 3], LOCK_OF_THREE, No(Errno::Inval)),
    // a lock's address and scope
    (
        37,
        &[DATA, EVENTS, 1],
        &[9, 5, DATA, 4, 0, 0, 0],
        Yes(&[1, 9, 5, 0, 9]),
    ),
    (
        37,
        &[DATA, EVENTS, 1],
        &[9, 5, LOCK + 2, 8, 0, 0, 0],
        No(Errno::Inval),
    ),
    (
        37,
        &[DATA, EVENTS, 1],
        &[9, 5, ABSENT + 2, 8, 0, 0, 0],
        No(Errno::Fault),
    ),
    (
        37,
        &[DATA, EVENTS, 1],
        &[9, 5, READ_ONLY, 4, 0, 0, 0],
        No(Errno::Fault),
    ),
    (
        37,
        &[DATA, EVENTS, 1],
        &[9, 5, LOCK, 8, 0, 0, 0],
        No(Errno::Notsup),
    ),
    (
        37,
        &[DATA, EVENTS, 1],
        &[9, 5, LOCK, 5, 0, 0, 0],
        No(Errno::Inval),
    ),
    // a condition variable's and its lock's
    (
        37,
        &[DATA, EVENTS, 1],
        &[9, 2, DATA + 8, DATA, 0x404, 0, 0],
        Yes(&[1, 9, 2, 2, 9]),
    ),
    (
        37,
        &[DATA, EVENTS, 1],
        &[9, 2, LOCK, LOCK, 0x808, 0, 0],
        No(Errno::Inval),
    ),
    (
        37,
        &[DATA, EVENTS, 1],
        &[9, 2, LOCK, OTHER + 1, 0x808, 0, 0],
        No(Errno::Inval),
    ),
    (
        37,
        &[DATA, EVENTS, 1],
        &[9, 2, LOCK, OTHER, 0x508, 0, 0],
        No(Errno::Notsup),
    ),
    (
        37,
        &[DATA, EVENTS, 1],
        &[9, 2, LOCK, OTHER, 0x805, 0, 0],
        No(Errno::Inval),
    ),
    (
        37,
        &[DATA, EVENTS, 1],
        &[9, 2, LOCK, OTHER, 0x804, 0, 0],
        No(Errno::Notsup),
    ),
    (
        37,
        &[DATA, EVENTS, 1],
        &[9, 2, LOCK, ABSENT, 0x808, 0, 0],
        No(Errno::Fault),
    ),
];

#[test]
fn polls_are_read(rt: HostRuntime) -> Result<(), Fail> {
    assert_eq!(rt; first_other(rt.alloc(), ROWS)?, None);
    Ok(())
}
