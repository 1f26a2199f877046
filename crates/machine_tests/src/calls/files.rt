//! Files, and calls about memory. Which arguments are refused is shown by cases/calls/arguments-are-refused.calls.
use crate::calls::showing::Want::Yes;
use crate::calls::showing::{ABC, ABSENT, DATA, DATA_END, Row, TOP, WRITE_ONLY, first_other};
use std::test::Fail;

// The path `abc`, a state of a descriptor behind it, with flag 4 and the base right FD_READ, and a wrong one behind that.
const PATH: &[u64] = &[ABC, 0x4_0000, 2, 0, 0, 0x800, 0];

// A state of a file, of size 0x444 and with the times 0x555 and 0x666, and the path `abc` behind it.
const STAT: &[u64] = &[1, 2, 3, 0x444, 0x555, 0x666, 0x777, ABC];

const FOLLOW: u64 = 0x1_0000_0000;

const ROWS: &[Row] = &[
    // file_advise
    (17, &[1, 2, 3, 6], &[], Yes(&[1, 2, 3, 6])),
    (17, &[1, TOP - 2, 1, 1], &[], Yes(&[1, TOP - 2, 1, 1])),
    // file_allocate
    (18, &[1, 2, 3], &[], Yes(&[1, 2, 3])),
    // file_create
    (19, &[1, DATA, 3, 32], PATH, Yes(&[1, 0, 3, 0x61, 32])),
    (19, &[1, ABSENT, 1025, 32], &[], Yes(&[1, 0, 1025, 0, 32])),
    (
        19,
        &[1, DATA, u64::MAX, 32],
        PATH,
        Yes(&[1, 0, 1025, 0, 32]),
    ),
    (19, &[1, ABSENT, 0, 32], &[], Yes(&[1, 0, 0, 0, 32])),
    // file_link
    (
        20,
        &[FOLLOW + 5, DATA, 3, 7, DATA + 1, 2],
        PATH,
        Yes(&[5, 1, 3, 0x61, 7, 2, 0x62]),
    ),
    // file_open
    (
        21,
        &[5, DATA, 3, 13, DATA + 8],
        PATH,
        Yes(&[5, 0, 3, 0x61, 13, 4, 2]),
    ),
    // file_readdir
    (22, &[1, DATA, 70_000, 9], &[], Yes(&[1, 70_000, 9])),
    (22, &[1, ABSENT, 0, 9], &[], Yes(&[1, 0, 9])),
    // file_readlink
    (
        23,
        &[1, DATA, 3, WRITE_ONLY, 4096],
        PATH,
        Yes(&[1, 0, 3, 0x61, 4096]),
    ),
    (
        23,
        &[1, DATA, 3, DATA, u64::MAX],
        PATH,
        Yes(&[1, 0, 3, 0x61, u64::MAX]),
    ),
    // file_rename
    (
        24,
        &[1, DATA, 3, 7, DATA + 1, 2],
        PATH,
        Yes(&[1, 0, 3, 0x61, 7, 2, 0x62]),
    ),
    // file_stat_fget
    (25, &[1, DATA_END - 56], &[], Yes(&[1])),
    // file_stat_fput
    (26, &[1, DATA, 21], STAT, Yes(&[1, 0x444, 0x555, 21])),
    (26, &[1, DATA, 10], STAT, Yes(&[1, 0x444, 0x555, 10])),
    // file_stat_get
    (
        27,
        &[FOLLOW + 5, DATA, 3, WRITE_ONLY],
        PATH,
        Yes(&[5, 1, 3, 0x61]),
    ),
    // file_stat_put
    (
        28,
        &[5, DATA + 56, 3, DATA, 5],
        STAT,
        Yes(&[5, 0, 3, 0x61, 0x444, 0x555, 5]),
    ),
    // file_symlink
    (
        29,
        &[DATA, 3, 7, DATA + 1, 2],
        PATH,
        Yes(&[0, 0, 3, 0x61, 7, 2, 0x62]),
    ),
    (
        29,
        &[DATA, 3, 7, ABSENT, 1025],
        PATH,
        Yes(&[0, 0, 3, 0x61, 7, 1025, 0]),
    ),
    // file_unlink
    (30, &[1, DATA, 3, 1], PATH, Yes(&[1, 0, 3, 0x61, 1])),
    // mem_map, of a file and without one
    (
        33,
        &[1, 4097, 4, 4, 3, 4096],
        &[],
        Yes(&[0x20_0000_0000, 4097, 4, 4, 3, 4096]),
    ),
    (33, &[DATA, 1, 6, 7, 3, 0], &[], Yes(&[DATA, 1, 6, 7, 3, 0])),
];

// The numbers of errors.
const FAULT: u64 = 21;

const INVAL: u64 = 28;

const NOTSUP: u64 = 58;

// Each of these calls has its number and what it answers.
const ABOUT_PAGES: &[Row] = &[
    // mem_advise
    (32, &[DATA, 1, 6], &[], Yes(&[32, 0])),
    (32, &[DATA, 1, 7], &[], Yes(&[32, INVAL])),
    (32, &[DATA + 1, 1, 6], &[], Yes(&[32, INVAL])),
    (32, &[ABSENT, 1, 6], &[], Yes(&[32, FAULT])),
    // mem_protect
    (34, &[DATA, 1, 4], &[], Yes(&[34, 0])),
    (34, &[DATA, 1, 8], &[], Yes(&[34, INVAL])),
    (34, &[DATA + 1, 1, 3], &[], Yes(&[34, INVAL])),
    (34, &[ABSENT, 1, 3], &[], Yes(&[34, NOTSUP])),
    (34, &[ABSENT, 1, 4], &[], Yes(&[34, FAULT])),
    // mem_sync
    (35, &[DATA, 1, 4], &[], Yes(&[35, 0])),
    (35, &[DATA, 1, 5], &[], Yes(&[35, INVAL])),
    (35, &[DATA + 1, 1, 4], &[], Yes(&[35, INVAL])),
    (35, &[ABSENT, 1, 4], &[], Yes(&[35, FAULT])),
    // mem_unmap
    (36, &[ABSENT, 1], &[], Yes(&[36, 0])),
    (36, &[DATA + 1, 1], &[], Yes(&[36, INVAL])),
    (36, &[DATA, 0], &[], Yes(&[36, INVAL])),
];

#[test]
fn file_calls_are_read(rt: HostRuntime) -> Result<(), Fail> {
    assert_eq!(rt; first_other(rt.alloc(), ROWS)?, None);
    Ok(())
}

#[test]
fn calls_about_pages_hold_their_answer(rt: HostRuntime) -> Result<(), Fail> {
    assert_eq!(rt; first_other(rt.alloc(), ABOUT_PAGES)?, None);
    Ok(())
}
