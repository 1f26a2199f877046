//! Clocks, locks and condition variables.
use crate::calls::showing::Want::{No, Yes};
use crate::calls::showing::{ABSENT, DATA, DATA_END, READ_ONLY, Row, WRITE_ONLY, first_other};
use abi_types::Errno;
use std::test::Fail;

const WORD: &[u64] = &[0, 0x1122_3344_4000_0001];

const ROWS: &[Row] = &[
    // clock_res_get
    (0, &[1], &[], Yes(&[1])),
    (0, &[3], &[], Yes(&[3])),
    (0, &[0x5_0000_0001], &[], Yes(&[1])),
    (0, &[2], &[], No(Errno::Notsup)),
    (0, &[4], &[], No(Errno::Notsup)),
    (0, &[0], &[], No(Errno::Inval)),
    (0, &[5], &[], No(Errno::Inval)),
    // clock_time_get
    (1, &[3, 0x1_0000_0007], &[], Yes(&[3, 0x1_0000_0007])),
    (1, &[4], &[], No(Errno::Notsup)),
    (1, &[9], &[], No(Errno::Inval)),
    // condvar_signal
    (
        2,
        &[DATA + 8, 4, 0x1_0000_0005],
        WORD,
        Yes(&[DATA + 8, 0x4000_0001, 4, 5]),
    ),
    (2, &[DATA_END - 4, 4, 1], &[], Yes(&[DATA_END - 4, 0, 4, 1])),
    (2, &[DATA + 2, 8, 1], &[], No(Errno::Inval)),
    (2, &[ABSENT, 8, 1], &[], No(Errno::Notsup)),
    (2, &[ABSENT, 5, 1], &[], No(Errno::Inval)),
    (2, &[ABSENT, 4, 1], &[], No(Errno::Fault)),
    (2, &[READ_ONLY, 4, 1], &[], No(Errno::Fault)),
    (2, &[WRITE_ONLY, 4, 1], &[], No(Errno::Fault)),
    // lock_unlock
    (31, &[DATA + 12, 4], WORD, Yes(&[DATA + 12, 0x1122_3344, 4])),
    (31, &[DATA + 1, 4], &[], No(Errno::Inval)),
    (31, &[DATA, 8], &[], No(Errno::Notsup)),
    (31, &[DATA, 0], &[], No(Errno::Inval)),
    (31, &[READ_ONLY, 4], &[], No(Errno::Fault)),
    // thread_exit
    (47, &[DATA + 12, 4], WORD, Yes(&[DATA + 12, 0x1122_3344, 4])),
    (47, &[DATA + 3, 4], &[], No(Errno::Inval)),
    (47, &[DATA, 8], &[], No(Errno::Notsup)),
    (47, &[WRITE_ONLY, 4], &[], No(Errno::Fault)),
];

#[test]
fn locks_and_clocks_are_read(rt: HostRuntime) -> Result<(), Fail> {
    assert_eq!(rt; first_other(rt.alloc(), ROWS)?, None);
    Ok(())
}
