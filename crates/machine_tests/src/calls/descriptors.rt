//! Descriptors. Which arguments are refused is shown by cases/calls/arguments-are-refused.calls.
use crate::calls::showing::Want::{No, Yes};
use crate::calls::showing::{
    ABC, ABSENT, DATA, DATA_END, READ_ONLY, Row, TOP, WRITE_ONLY, first_other,
};
use abi_types::Errno;
use std::test::Fail;

// Two ranges, of 5 and of 3 bytes.
const RANGES: &[u64] = &[DATA + 0x100, 5, DATA + 0x200, 3];

// A range of 65,536 bytes, and one that can't be read or written.
const LONG: &[u64] = &[DATA, 65_536, ABSENT, 9];

// A range without a byte where no page is, and one of 5 bytes.
const EMPTY: &[u64] = &[ABSENT, 0, DATA + 0x100, 5];

// The range of `abc`, which stands behind it.
const WRITTEN: &[u64] = &[DATA + 0x10, 3, ABC];

// A state of a descriptor: kind 17, flag 4, base right FD_WRITE, inheriting right FD_READ.
const STAT: &[u64] = &[0x4_0011, 0x40, 2];

const ROWS: &[Row] = &[
    // fd_close, fd_datasync, fd_dup, fd_replace and fd_sync
    (3, &[0x1_0000_0007], &[], Yes(&[7])),
    (6, &[9], &[], Yes(&[9])),
    (7, &[9], &[], Yes(&[9])),
    (11, &[3, 0x1_0000_0004], &[], Yes(&[3, 4])),
    (15, &[9], &[], Yes(&[9])),
    // fd_create2
    (5, &[48], &[], Yes(&[48])),
    (5, &[130], &[], Yes(&[130])),
    (5, &[128], &[], No(Errno::Notsup)),
    (5, &[96], &[], No(Errno::Notsup)),
    (5, &[1], &[], No(Errno::Inval)),
    // fd_pread
    (8, &[1, DATA, 2, 6], RANGES, Yes(&[1, 8, 6])),
    (8, &[1, DATA, 2, TOP - 1], LONG, Yes(&[1, 65_536, TOP - 1])),
    (8, &[1, DATA, 2, 0], EMPTY, Yes(&[1, 5, 0])),
    (8, &[1, ABSENT, 0, 0], &[], Yes(&[1, 0, 0])),
    (8, &[1, DATA, 1, 0], &[WRITE_ONLY, 1], Yes(&[1, 1, 0])),
    // fd_pwrite
    (9, &[1, DATA, 1, 2], WRITTEN, Yes(&[1, 3, 0x61, 2])),
    (9, &[1, DATA, 2, 0], LONG, Yes(&[1, 65_536, 0, 0])),
    (9, &[1, DATA, 1, 0], &[READ_ONLY, 1], Yes(&[1, 1, 0, 0])),
    // fd_read
    (10, &[1, DATA, 2], RANGES, Yes(&[1, 8])),
    // fd_seek
    (12, &[1, u64::MAX, 1], &[], Yes(&[1, u64::MAX, 1])),
    (12, &[1, u64::MAX, 2], &[], Yes(&[1, u64::MAX, 2])),
    (12, &[1, TOP - 1, 3], &[], Yes(&[1, TOP - 1, 3])),
    // fd_stat_get
    (13, &[1, DATA_END - 24], &[], Yes(&[1])),
    // fd_stat_put
    (14, &[1, DATA, 3], STAT, Yes(&[1, 0x11, 4, 0x40, 2, 3])),
    (
        14,
        &[1, DATA, 1],
        &[0x1f_0000, 0x81_5fff_f7ff, 0x81_5fff_f7ff],
        Yes(&[1, 0, 31, 0x81_5fff_f7ff, 0x81_5fff_f7ff, 1]),
    ),
    // fd_write
    (16, &[1, DATA, 1], WRITTEN, Yes(&[1, 3, 0x61])),
];

#[test]
fn descriptor_calls_are_read(rt: HostRuntime) -> Result<(), Fail> {
    assert_eq!(rt; first_other(rt.alloc(), ROWS)?, None);
    Ok(())
}
