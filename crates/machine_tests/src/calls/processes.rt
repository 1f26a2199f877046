//! Processes, threads and random bytes.
use crate::calls::showing::Want::{No, Yes};
use crate::calls::showing::{ABC, ABSENT, DATA, DATA_END, LEFT, READ_ONLY, Row, first_other};
use abi_types::Errno;
use std::test::Fail;

// `abc`, and the descriptors 5 and 2 behind it.
const PROGRAM: &[u64] = &[ABC, 0x2_0000_0005];

const ROWS: &[Row] = &[
    // proc_exec
    (
        38,
        &[1, DATA, 3, DATA + 8, 2],
        PROGRAM,
        Yes(&[1, 3, 0x61, 2, 5]),
    ),
    (38, &[1, ABSENT, 0, ABSENT, 0], &[], Yes(&[1, 0, 0, 0, 0])),
    (
        38,
        &[1, DATA, 65_536, DATA, 1024],
        PROGRAM,
        Yes(&[1, 65_536, 0x61, 1024, 0x63_6261]),
    ),
    (
        38,
        &[1, ABSENT, 65_537, ABSENT, 1025],
        &[],
        No(Errno::TooBig),
    ),
    (38, &[1, ABSENT, 1, ABSENT, 1025], &[], No(Errno::Inval)),
    (38, &[1, ABSENT, 1, DATA, 1], &[], No(Errno::Fault)),
    (38, &[1, DATA, 1, DATA_END - 4, 2], &[], No(Errno::Fault)),
    // proc_exit and proc_fork
    (39, &[0x1_0000_0007], &[], Yes(&[7])),
    (40, &[], &[], Yes(&[LEFT])),
    // proc_raise
    (41, &[1], &[], Yes(&[1])),
    (41, &[26], &[], Yes(&[26])),
    (41, &[0], &[], No(Errno::Inval)),
    (41, &[27], &[], No(Errno::Inval)),
    (41, &[14], &[], No(Errno::Notsup)),
    (41, &[18], &[], No(Errno::Notsup)),
    (41, &[19], &[], No(Errno::Notsup)),
    (41, &[20], &[], No(Errno::Notsup)),
    // random_get
    (42, &[DATA, 65_536], &[], Yes(&[65_536])),
    (42, &[ABSENT, 65_537], &[], No(Errno::Inval)),
    (42, &[READ_ONLY, 1], &[], No(Errno::Fault)),
    (42, &[ABSENT, 0], &[], Yes(&[0])),
    // thread_create
    (
        46,
        &[DATA],
        &[0x10004, 0x1000, 0x2000, 7],
        Yes(&[0x10004, 0x1000, 0x2000, 7]),
    ),
    (46, &[DATA], &[4, u64::MAX, 0, 7], Yes(&[4, u64::MAX, 0, 7])),
    (46, &[DATA], &[4, u64::MAX, 1, 7], No(Errno::Inval)),
    (46, &[DATA], &[2, 0, 0, 7], No(Errno::Inval)),
    (46, &[DATA_END - 31], &[], No(Errno::Fault)),
    // thread_yield
    (48, &[], &[], Yes(&[])),
];

#[test]
fn process_calls_are_read(rt: HostRuntime) -> Result<(), Fail> {
    assert_eq!(rt; first_other(rt.alloc(), ROWS)?, None);
    Ok(())
}
