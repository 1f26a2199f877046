//! Sockets.
use crate::calls::showing::Want::{No, Yes};
use crate::calls::showing::{ABC, ABSENT, DATA, DATA_END, READ_ONLY, Row, first_other};
use abi_types::Errno;
use std::test::Fail;

const OUT: u64 = DATA + 0x300;

// A range of 9 bytes stands behind where a message goes.
const RANGE: u64 = DATA + 0x28;

const PLACE: u64 = DATA + 0x200;

// The range of `abc`, the descriptors 5 and 2, and `abc` stand behind what is sent.
const FDS: u64 = DATA + 0x38;

const TEXT: u64 = DATA + 0x40;

const BOTH: u64 = 0x2_0000_0005;

const ROWS: &[Row] = &[
    // sock_recv
    (
        43,
        &[1, DATA, OUT],
        &[RANGE, 1, OUT, 3, 20, PLACE, 9],
        Yes(&[1, 9, 3, 20]),
    ),
    (
        43,
        &[1, DATA, OUT],
        &[RANGE, 1, DATA_END - 64, 1 << 40, 0, PLACE, 9],
        Yes(&[1, 9, 1 << 40, 0]),
    ),
    (
        43,
        &[1, DATA, OUT],
        &[RANGE, 1, DATA_END - 60, 17, 0, PLACE, 9],
        No(Errno::Fault),
    ),
    (
        43,
        &[1, DATA, OUT],
        &[RANGE, 1, ABSENT, 1, 1, PLACE, 9],
        No(Errno::Fault),
    ),
    (
        43,
        &[1, DATA, OUT],
        &[RANGE, 1, OUT, 1, 1, PLACE, 9],
        No(Errno::Inval),
    ),
    (
        43,
        &[1, DATA, OUT],
        &[ABSENT, 1025, OUT, 1, 0],
        No(Errno::Inval),
    ),
    (
        43,
        &[1, DATA, OUT],
        &[ABSENT, 1025, ABSENT, 1, 0],
        No(Errno::Fault),
    ),
    (
        43,
        &[1, DATA, OUT],
        &[ABSENT, 1024, OUT, 1, 0],
        No(Errno::Fault),
    ),
    (
        43,
        &[1, DATA, OUT],
        &[RANGE, 1, OUT, 0, 0, READ_ONLY, 9],
        No(Errno::Fault),
    ),
    (43, &[1, ABSENT, OUT], &[], No(Errno::Fault)),
    (
        43,
        &[1, DATA, READ_ONLY],
        &[RANGE, 0, OUT, 0, 0],
        No(Errno::Fault),
    ),
    // sock_send
    (
        44,
        &[1, DATA, OUT],
        &[RANGE, 1, FDS, 2, 0, TEXT, 3, BOTH, ABC],
        Yes(&[1, 3, 0x61, 2, 5, 0]),
    ),
    (
        44,
        &[1, DATA, OUT],
        &[ABSENT, 0, ABSENT, 0, 0],
        Yes(&[1, 0, 0, 0, 0, 0]),
    ),
    (
        44,
        &[1, DATA, OUT],
        &[RANGE, 1, ABSENT, 17, 0, TEXT, 3],
        No(Errno::Inval),
    ),
    (
        44,
        &[1, DATA, OUT],
        &[RANGE, 1, ABSENT, 16, 0, TEXT, 3],
        No(Errno::Fault),
    ),
    (
        44,
        &[1, DATA, OUT],
        &[ABSENT, 1025, ABSENT, 17, 0],
        No(Errno::Inval),
    ),
    (
        44,
        &[1, DATA, OUT],
        &[ABSENT, 1, ABSENT, 17, 0],
        No(Errno::Fault),
    ),
    (
        44,
        &[1, DATA, OUT],
        &[RANGE, 1, FDS, 2, 4, TEXT, 3, BOTH],
        No(Errno::Inval),
    ),
    (
        44,
        &[1, DATA, OUT],
        &[RANGE, 1, FDS, 2, 0, TEXT, 0, BOTH],
        No(Errno::Inval),
    ),
    (
        44,
        &[1, DATA, READ_ONLY],
        &[ABSENT, 0, ABSENT, 0, 4],
        No(Errno::Fault),
    ),
    (44, &[1, DATA_END - 39, OUT], &[], No(Errno::Fault)),
    // sock_shutdown
    (45, &[1, 3], &[], Yes(&[1, 3])),
    (45, &[1, 0], &[], No(Errno::Inval)),
    (45, &[1, 4], &[], No(Errno::Inval)),
];

#[test]
fn socket_calls_are_read(rt: HostRuntime) -> Result<(), Fail> {
    assert_eq!(rt; first_other(rt.alloc(), ROWS)?, None);
    Ok(())
}
