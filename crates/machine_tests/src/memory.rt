//! Bytes, numbers and pages of a memory.
use abi_base::{GUEST_BEGIN, GUEST_END, PAGE_LIMIT, PAGE_SIZE, Prot};
use guest_memory::{Access, GuestMemory, MemFault};
use std::alloc::{AllocError, Global};
use std::test::Fail;

const NONE: Prot = Prot {
    read: false,
    write: false,
    exec: false,
};

const READ: Prot = Prot { read: true, ..NONE };

const WRITE: Prot = Prot {
    write: true,
    ..NONE
};

const EXEC: Prot = Prot { exec: true, ..NONE };

const READ_WRITE: Prot = Prot {
    write: true,
    ..READ
};

// What is done with a memory.
#[derive(Clone, Copy)]
enum Operation {
    // At an address, so many pages, with these rights.
    Map(u64, u32, Prot),
    MapFixed(u64, u32, Prot),
    // At an address, so many pages, which aren't mapped in the end.
    Room(u64, u32),
    Protect(u64, u32, Prot),
    Unmap(u64, u32),
    // The lowest gap of so many pages.
    Gap(u32),
    // How many pages there are, and how many from an address on are there.
    Len,
    Within(u64, u32),
    // Whether so many pages from an address on are there.
    Mapped(u64, u64),
    // Whether so many bytes from an address on may be accessed.
    Check(Access, u64, usize),
    // What may be done with the page at an address: 4 for reading, 2 for writing, 1 for executing.
    Rights(u64),
    // Numbers of 1, 2, 4 or 8 bytes.
    Load(u64, u32),
    Store(u64, u32, u64),
    Fetch(u64),
    // At most 16 bytes.
    Write(u64, &'static [u8]),
    // Reads bytes, which are these.
    Bytes(u64, &'static [u8]),
}

// What an operation gives: a number, or 0 where it gives none.
type Answer = Result<u64, MemFault>;

const DONE: Answer = Ok(0);

// There is no gap, or there are other bytes.
const NONE_SUCH: Answer = Err(MemFault::NoMemory);

// A row that asks for pages outside the guest's part of the address space is none that a test has.
const OUTSIDE: Answer = Err(MemFault::NotMapped(1));

fn map(memory: &mut GuestMemory, alloc: Global, at: u64, pages: u32, prot: Prot) -> Answer {
    if at % PAGE_SIZE != 0
        || at < GUEST_BEGIN
        || at >= GUEST_END
        || PAGE_SIZE * u64::from(pages) > GUEST_END - at
    {
        return OUTSIDE;
    }
    memory.map(alloc, at, pages, prot)?;
    DONE
}

// Makes room for pages, and maps them with these rights. Without rights the room is taken away again, and the answer is how many
// pages there were with it.
fn map_fixed(
    memory: &mut GuestMemory,
    alloc: Global,
    at: u64,
    pages: u32,
    prot: Option<Prot>,
) -> Answer {
    if at % PAGE_SIZE != 0
        || at < GUEST_BEGIN
        || at >= GUEST_END
        || PAGE_SIZE * u64::from(pages) > GUEST_END - at
    {
        return OUTSIDE;
    }
    let staying = memory.len() as u64 - memory.mapped_within(at, pages);
    if staying + u64::from(pages) > PAGE_LIMIT {
        return OUTSIDE;
    }
    let Ok(room) = memory.make_room(alloc, at, pages) else {
        return NONE_SUCH;
    };
    match prot {
        Some(prot) => {
            memory.map_fixed(room, at, pages, prot);
            DONE
        }
        None => {
            let count = memory.len() as u64;
            memory.remove_room(room);
            Ok(count)
        }
    }
}

fn protect(memory: &mut GuestMemory, at: u64, pages: u32, prot: Prot) -> Answer {
    if at % PAGE_SIZE != 0 || at >= GUEST_END {
        return OUTSIDE;
    }
    memory.protect(at, pages, prot)?;
    DONE
}

fn unmap(memory: &mut GuestMemory, at: u64, pages: u32) -> Answer {
    if at % PAGE_SIZE != 0 || at >= GUEST_END {
        return OUTSIDE;
    }
    memory.unmap(at, pages);
    DONE
}

fn within(memory: &GuestMemory, at: u64, pages: u32) -> Answer {
    if at % PAGE_SIZE != 0 || at >= GUEST_END {
        return OUTSIDE;
    }
    Ok(memory.mapped_within(at, pages))
}

fn mapped(memory: &GuestMemory, at: u64, pages: u64) -> Answer {
    if at % PAGE_SIZE != 0 || pages > 0x10_0000_0000_0000 {
        return OUTSIDE;
    }
    memory.check_mapped(at, pages)?;
    DONE
}

fn rights(memory: &GuestMemory, at: u64) -> Answer {
    let fault = Err(MemFault::NotMapped(at));
    if memory.check(Access::Read, at, 1) == fault {
        return Err(MemFault::NotMapped(at));
    }
    let read = u64::from(memory.check(Access::Read, at, 1).is_ok());
    let write = u64::from(memory.check(Access::Write, at, 1).is_ok());
    let exec = u64::from(memory.check(Access::Exec, at, 1).is_ok());
    Ok(read * 4 + write * 2 + exec)
}

fn load(memory: &mut GuestMemory, at: u64, n: u32) -> Answer {
    match n {
        1 => memory.load(at, 1),
        2 => memory.load(at, 2),
        4 => memory.load(at, 4),
        8 => memory.load(at, 8),
        _ => OUTSIDE,
    }
}

fn store(memory: &mut GuestMemory, at: u64, n: u32, v: u64) -> Answer {
    let stored = match n {
        1 => memory.store(at, 1, v),
        2 => memory.store(at, 2, v),
        4 => memory.store(at, 4, v),
        8 => memory.store(at, 8, v),
        _ => return OUTSIDE,
    };
    stored?;
    DONE
}

// A refused read leaves the bytes that it was to fill.
fn bytes(memory: &GuestMemory, at: u64, want: &[u8]) -> Answer {
    let mut buffer = [9; 16];
    if want.len() > 16 {
        return OUTSIDE;
    }
    let read = memory.read_bytes(at, &mut buffer[..want.len()]);
    match read {
        Ok(()) if buffer.starts_with(want) => DONE,
        Err(fault) if buffer == [9; 16] => Err(fault),
        _ => NONE_SUCH,
    }
}

// Does an operation.
fn answer(memory: &mut GuestMemory, alloc: Global, operation: Operation) -> Answer {
    match operation {
        Operation::Map(at, pages, prot) => map(memory, alloc, at, pages, prot),
        Operation::MapFixed(at, pages, prot) => map_fixed(memory, alloc, at, pages, Some(prot)),
        Operation::Room(at, pages) => map_fixed(memory, alloc, at, pages, None),
        Operation::Protect(at, pages, prot) => protect(memory, at, pages, prot),
        Operation::Unmap(at, pages) => unmap(memory, at, pages),
        Operation::Gap(pages) => memory.find_gap(pages).ok_or(MemFault::NoMemory),
        Operation::Len => Ok(memory.len() as u64),
        Operation::Within(at, pages) => within(memory, at, pages),
        Operation::Mapped(at, pages) => mapped(memory, at, pages),
        Operation::Check(access, at, count) => {
            memory.check(access, at, count)?;
            DONE
        }
        Operation::Rights(at) => rights(memory, at),
        Operation::Load(at, n) => load(memory, at, n),
        Operation::Store(at, n, v) => store(memory, at, n, v),
        Operation::Fetch(at) => Ok(u64::from(memory.fetch(at)?)),
        Operation::Write(at, bytes) => {
            memory.write_bytes(at, bytes)?;
            DONE
        }
        Operation::Bytes(at, want) => bytes(memory, at, want),
    }
}

// Operations one after another, and what each gives.
type Operations = &'static [(Operation, Answer)];

// Does operations. The first row that gives another answer.
fn first_other(memory: &mut GuestMemory, alloc: Global, operations: Operations) -> Option<usize> {
    for (i, &(operation, want)) in operations.iter().enumerate() {
        if answer(memory, alloc, operation) != want {
            return Some(i);
        }
    }
    None
}

// The first byte that may not be accessed is named.
const FIRST_FAULT_IS_NAMED: Operations = &[
    (Operation::Map(0x10000, 2, READ_WRITE), DONE),
    (Operation::Map(0x12000, 1, READ), DONE),
    (Operation::Map(0x13000, 1, WRITE), DONE),
    (Operation::Map(0x14000, 1, EXEC), DONE),
    (Operation::Check(Access::Read, 0x10ff8, 16), DONE),
    (Operation::Check(Access::Read, 0x12ff8, 8), DONE),
    (
        Operation::Check(Access::Read, 0x12ff8, 9),
        Err(MemFault::NoRight(0x13000)),
    ),
    (
        Operation::Check(Access::Read, 0x13004, 1),
        Err(MemFault::NoRight(0x13004)),
    ),
    (
        Operation::Check(Access::Read, 0xfff8, 16),
        Err(MemFault::NotMapped(0xfff8)),
    ),
    (
        Operation::Check(Access::Write, 0x11ff8, 16),
        Err(MemFault::NoRight(0x12000)),
    ),
    (Operation::Check(Access::Write, 0x13000, 4096), DONE),
    (
        Operation::Check(Access::Write, 0x13000, 8192),
        Err(MemFault::NoRight(0x14000)),
    ),
    (Operation::Check(Access::Exec, 0x14000, 4096), DONE),
    (
        Operation::Check(Access::Exec, 0x14ffe, 4),
        Err(MemFault::NotMapped(0x15000)),
    ),
    (
        Operation::Check(Access::Exec, 0x10000, 4),
        Err(MemFault::NoRight(0x10000)),
    ),
    (Operation::Check(Access::Read, 0x15000, 0), DONE),
    (
        Operation::Check(Access::Read, u64::MAX, 2),
        Err(MemFault::NotMapped(u64::MAX)),
    ),
];

// What is refused writes no byte, neither to memory nor from there.
const REFUSALS_CHANGE_NOTHING: Operations = &[
    (Operation::Map(0x10000, 2, READ_WRITE), DONE),
    (Operation::Map(0x12000, 1, READ), DONE),
    (Operation::Map(0x13000, 1, WRITE), DONE),
    (Operation::Map(0x14000, 1, EXEC), DONE),
    (Operation::Write(0x11ff8, b"abcdefgh"), DONE),
    (
        Operation::Write(0x11ff9, b"ABCDEFGHI"),
        Err(MemFault::NoRight(0x12000)),
    ),
    (
        Operation::Store(0x11ffc, 8, 0),
        Err(MemFault::NoRight(0x12000)),
    ),
    (Operation::Bytes(0x11ff8, b"abcdefgh"), DONE),
    (
        Operation::Bytes(0x12ffc, b"abcdefgh"),
        Err(MemFault::NoRight(0x13000)),
    ),
];

// A right is none of the others.
const EACH_RIGHT_IS_ITS_OWN: Operations = &[
    (Operation::Map(0x10000, 2, READ_WRITE), DONE),
    (Operation::Map(0x12000, 1, READ), DONE),
    (Operation::Map(0x13000, 1, WRITE), DONE),
    (Operation::Map(0x14000, 1, EXEC), DONE),
    (Operation::Store(0x10ffe, 4, 0xdead_beef), DONE),
    (Operation::Fetch(0x10ffe), Err(MemFault::NoRight(0x10ffe))),
    (Operation::Load(0x12000, 8), Ok(0)),
    (
        Operation::Store(0x12000, 8, 1),
        Err(MemFault::NoRight(0x12000)),
    ),
    (Operation::Store(0x13000, 8, 7), DONE),
    (Operation::Load(0x13000, 8), Err(MemFault::NoRight(0x13000))),
    (Operation::Fetch(0x14000), Ok(0)),
    (Operation::Load(0x14000, 4), Err(MemFault::NoRight(0x14000))),
    (Operation::Protect(0x10000, 2, EXEC), DONE),
    (Operation::Fetch(0x10ffc), Ok(0xbeef_0000)),
    (Operation::Fetch(0x10ffe), Ok(0xdead_beef)),
    (Operation::Protect(0x13000, 1, READ), DONE),
    (Operation::Load(0x13000, 8), Ok(7)),
];

// Gaps where no page is: all that is between 0x2000000000 and 0x3e00000000, and more.
const GAPS_OF_NOTHING: Operations = &[
    (Operation::Gap(1), Ok(0x20_0000_0000)),
    (Operation::Gap(2), Ok(0x20_0000_0000)),
    (Operation::Gap(0x1e0_0000), Ok(0x20_0000_0000)),
    (Operation::Gap(0x1df_fffc), Ok(0x20_0000_0000)),
    (Operation::Gap(0x1df_fffd), Ok(0x20_0000_0000)),
    (Operation::Gap(0x1e0_0001), NONE_SUCH),
    (Operation::Gap(u32::MAX), NONE_SUCH),
];

// Gaps round three pages, and what is behind them.
const LOWEST_GAP_IS_FOUND: Operations = &[
    (Operation::Map(0x20_0000_0000, 2, READ_WRITE), DONE),
    (Operation::Map(0x20_0000_3000, 1, READ), DONE),
    (Operation::Gap(1), Ok(0x20_0000_2000)),
    (Operation::Gap(2), Ok(0x20_0000_4000)),
    (Operation::Gap(0x1e0_0000), NONE_SUCH),
    (Operation::Gap(0x1df_fffc), Ok(0x20_0000_4000)),
    (Operation::Gap(0x1df_fffd), NONE_SUCH),
    (Operation::Gap(0x1e0_0001), NONE_SUCH),
    (Operation::Gap(u32::MAX), NONE_SUCH),
];

// Gaps beside two pages that are apart, and two pages below.
const GAPS_BETWEEN_PAGES: Operations = &[
    (Operation::Map(0x20000, 2, READ), DONE),
    (Operation::Gap(0x1e0_0000), Ok(0x20_0000_0000)),
    (Operation::Gap(0x1e0_0001), NONE_SUCH),
    (Operation::Map(0x20_0000_0000, 1, READ), DONE),
    (Operation::Map(0x20_0000_3000, 1, READ), DONE),
    (Operation::Gap(0), Ok(0x20_0000_0000)),
    (Operation::Gap(1), Ok(0x20_0000_1000)),
    (Operation::Gap(2), Ok(0x20_0000_1000)),
    (Operation::Gap(3), Ok(0x20_0000_4000)),
    (Operation::Gap(0x1df_fffc), Ok(0x20_0000_4000)),
    (Operation::Gap(0x1df_fffd), NONE_SUCH),
    (Operation::Gap(0x1e0_0000), NONE_SUCH),
];

// The first page that is there already comes before the limit.
const MAP_NAMES_ITS_FAULT: Operations = &[
    (Operation::Map(0x20000, 2, READ), DONE),
    (
        Operation::Map(0x20000, 1, READ),
        Err(MemFault::Overlaps(0x20000)),
    ),
    (
        Operation::Map(0x1e000, 8, READ),
        Err(MemFault::Overlaps(0x20000)),
    ),
    (
        Operation::Map(0x21000, 8, READ),
        Err(MemFault::Overlaps(0x21000)),
    ),
    (
        Operation::Map(0x10000, 70_000, READ),
        Err(MemFault::Overlaps(0x20000)),
    ),
    (
        Operation::Map(0x22000, 65_535, READ),
        Err(MemFault::PageLimit),
    ),
    (Operation::Map(0x20000, 0, READ), DONE),
    (Operation::Map(0x1f000, 1, READ), DONE),
    (Operation::Map(0x22000, 1, READ), DONE),
    (Operation::Map(0x3f_ffff_f000, 1, READ), DONE),
    (
        Operation::Map(0x1f000, 4, READ),
        Err(MemFault::Overlaps(0x1f000)),
    ),
    (Operation::Len, Ok(5)),
];

// There are at most 65,536 pages.
const AT_THE_LIMIT: Operations = &[
    (
        Operation::Map(0x10000, 65_537, READ),
        Err(MemFault::PageLimit),
    ),
    (Operation::Map(0x10000, 65_536, READ), DONE),
    (
        Operation::Map(0x2000_0000, 1, READ),
        Err(MemFault::PageLimit),
    ),
    (Operation::Map(0x2000_0000, 0, READ), DONE),
    (Operation::Unmap(0x10000, 1), DONE),
    (Operation::Map(0x2000_0000, 1, READ), DONE),
];

// Pages that aren't there are passed over.
const UNMAP_PASSES_OVER_ABSENT_PAGES: Operations = &[
    (Operation::Map(0x20000, 2, READ), DONE),
    (Operation::Unmap(0x22000, 1), DONE),
    (Operation::Unmap(0x1f000, 2), DONE),
    (
        Operation::Rights(0x1f000),
        Err(MemFault::NotMapped(0x1f000)),
    ),
    (
        Operation::Rights(0x20000),
        Err(MemFault::NotMapped(0x20000)),
    ),
    (Operation::Rights(0x21000), Ok(4)),
    (
        Operation::Rights(0x22000),
        Err(MemFault::NotMapped(0x22000)),
    ),
    (Operation::Unmap(0, u32::MAX), DONE),
    (Operation::Len, Ok(0)),
];

// Where a page isn't there, no page is changed.
const PROTECT_CHANGES_ALL_OR_NOTHING: Operations = &[
    (Operation::Map(0x20000, 2, READ), DONE),
    (
        Operation::Protect(0x21000, 2, EXEC),
        Err(MemFault::NotMapped(0x22000)),
    ),
    (Operation::Rights(0x20000), Ok(4)),
    (Operation::Rights(0x21000), Ok(4)),
    (
        Operation::Protect(0x1f000, 2, EXEC),
        Err(MemFault::NotMapped(0x1f000)),
    ),
    (Operation::Rights(0x20000), Ok(4)),
    (Operation::Rights(0x21000), Ok(4)),
    (Operation::Protect(0x21000, 1, EXEC), DONE),
    (Operation::Rights(0x20000), Ok(4)),
    (Operation::Rights(0x21000), Ok(1)),
    (Operation::Protect(0x20000, 2, EXEC), DONE),
    (Operation::Rights(0x20000), Ok(1)),
    (Operation::Rights(0x21000), Ok(1)),
    (Operation::Protect(0x40000, 0, EXEC), DONE),
    (Operation::Rights(0x20000), Ok(1)),
    (Operation::Rights(0x21000), Ok(1)),
];

// How many pages of a range are there, and the first that isn't.
const PAGES_ARE_COUNTED_AND_CHECKED: Operations = &[
    (Operation::Map(0x20000, 2, READ), DONE),
    (Operation::Map(0x24000, 1, EXEC), DONE),
    (Operation::Len, Ok(3)),
    (Operation::Within(0x20000, 2), Ok(2)),
    (Operation::Mapped(0x20000, 2), DONE),
    (Operation::Within(0x20000, 5), Ok(3)),
    (
        Operation::Mapped(0x20000, 5),
        Err(MemFault::NotMapped(0x22000)),
    ),
    (Operation::Within(0x1f000, 2), Ok(1)),
    (
        Operation::Mapped(0x1f000, 2),
        Err(MemFault::NotMapped(0x1f000)),
    ),
    (Operation::Within(0x22000, 2), Ok(0)),
    (
        Operation::Mapped(0x22000, 2),
        Err(MemFault::NotMapped(0x22000)),
    ),
    (Operation::Within(0x24000, 1), Ok(1)),
    (Operation::Mapped(0x24000, 1), DONE),
    (Operation::Within(0x30000, 0), Ok(0)),
    (Operation::Mapped(0x30000, 0), DONE),
    (Operation::Within(0, u32::MAX), Ok(3)),
    (
        Operation::Mapped(0, 0xffff_ffff),
        Err(MemFault::NotMapped(0)),
    ),
    (
        Operation::Mapped(0xffff_ffff_ffff_f000, 0x10_0000_0000_0000),
        Err(MemFault::NotMapped(0xffff_ffff_ffff_f000)),
    ),
];

// Fixed mappings are of zeros with the rights asked.
const FIXED_MAPPINGS_REPLACE_PAGES: Operations = &[
    (Operation::Map(0x20000, 2, READ), DONE),
    (Operation::Map(0x24000, 1, READ_WRITE), DONE),
    (Operation::Write(0x24ff8, &[7; 8]), DONE),
    // room for the two free pages between, which is taken away again
    (Operation::Len, Ok(3)),
    (Operation::Room(0x21000, 4), Ok(5)),
    (Operation::Len, Ok(3)),
    // over the second of the first two pages and the free one behind it, over nothing, and over the page with bytes
    (Operation::MapFixed(0x21000, 2, EXEC), DONE),
    (Operation::MapFixed(0x30000, 0, EXEC), DONE),
    (Operation::MapFixed(0x24000, 2, READ), DONE),
    (Operation::Rights(0x20000), Ok(4)),
    (Operation::Rights(0x21000), Ok(1)),
    (Operation::Rights(0x22000), Ok(1)),
    (
        Operation::Rights(0x23000),
        Err(MemFault::NotMapped(0x23000)),
    ),
    (Operation::Rights(0x24000), Ok(4)),
    (Operation::Rights(0x25000), Ok(4)),
    (
        Operation::Rights(0x26000),
        Err(MemFault::NotMapped(0x26000)),
    ),
    (
        Operation::Rights(0x30000),
        Err(MemFault::NotMapped(0x30000)),
    ),
    (Operation::Bytes(0x24ff8, &[0; 16]), DONE),
    (Operation::Len, Ok(5)),
];

// Each begins with a memory that has no page.
const ALL: &[(&str, Operations)] = &[
    ("first fault is named", FIRST_FAULT_IS_NAMED),
    ("refusals change nothing", REFUSALS_CHANGE_NOTHING),
    ("each right is its own", EACH_RIGHT_IS_ITS_OWN),
    ("gaps of nothing", GAPS_OF_NOTHING),
    ("lowest gap is found", LOWEST_GAP_IS_FOUND),
    ("gaps between pages", GAPS_BETWEEN_PAGES),
    ("map names its fault", MAP_NAMES_ITS_FAULT),
    (
        "unmap passes over absent pages",
        UNMAP_PASSES_OVER_ABSENT_PAGES,
    ),
    (
        "protect changes all or nothing",
        PROTECT_CHANGES_ALL_OR_NOTHING,
    ),
    (
        "pages are counted and checked",
        PAGES_ARE_COUNTED_AND_CHECKED,
    ),
    ("fixed mappings replace pages", FIXED_MAPPINGS_REPLACE_PAGES),
];

// The same on a memory without a page.
fn other_of_new(alloc: Global, operations: Operations) -> Option<usize> {
    let mut memory = GuestMemory::new(alloc);
    first_other(&mut memory, alloc, operations)
}

#[test]
fn acts_are_answered(rt: HostRuntime) -> Result<(), Fail> {
    for &(name, operations) in ALL {
        assert_eq!(rt; other_of_new(rt.alloc(), operations), None, "{name}");
    }
    Ok(())
}

// The pages of this one take long.
#[test]
fn page_limit(rt: HostRuntime) -> Result<(), Fail> {
    assert_eq!(rt; other_of_new(rt.alloc(), AT_THE_LIMIT), None);
    Ok(())
}

// Operations before a memory is copied for a child, those that change it then, those on the copy, and those on it behind them.
struct Copied {
    before: Operations,
    then: Operations,
    copy: Operations,
    behind: Operations,
}

const COPIES: &[Copied] = &[
    Copied {
        before: &[
            (Operation::Map(0x20000, 2, READ), DONE),
            (Operation::Map(0x3f_ffff_f000, 1, EXEC), DONE),
        ],
        then: &[
            (Operation::Unmap(0x20000, 1), DONE),
            (Operation::Protect(0x21000, 1, EXEC), DONE),
        ],
        copy: &[
            (Operation::Rights(0x20000), Ok(4)),
            (Operation::Rights(0x21000), Ok(4)),
            (Operation::Rights(0x3f_ffff_f000), Ok(1)),
            (Operation::Len, Ok(3)),
        ],
        behind: &[(Operation::Rights(0x21000), Ok(1)), (Operation::Len, Ok(2))],
    },
    Copied {
        before: &[
            (Operation::Map(0x20_0000_0000, 2, READ_WRITE), DONE),
            (Operation::Map(0x20_0000_3000, 1, READ), DONE),
            // The first page that is there is named, even where there would be too many too.
            (
                Operation::Map(0x20_0000_2000, 2, READ),
                Err(MemFault::Overlaps(0x20_0000_3000)),
            ),
            (
                Operation::Map(0x1f_ffff_f000, 65_536, READ),
                Err(MemFault::Overlaps(0x20_0000_0000)),
            ),
            // There are three pages.
            (
                Operation::Map(0x10000, 65_534, READ),
                Err(MemFault::PageLimit),
            ),
            (
                Operation::Load(0x20_0000_2000, 1),
                Err(MemFault::NotMapped(0x20_0000_2000)),
            ),
            (
                Operation::Protect(0x20_0000_0000, 4, READ),
                Err(MemFault::NotMapped(0x20_0000_2000)),
            ),
            (
                Operation::Store(0x20_0000_0ffc, 8, 0x8877_6655_4433_2211),
                DONE,
            ),
        ],
        then: &[
            (Operation::Unmap(0x20_0000_1000, 2), DONE),
            (
                Operation::Load(0x20_0000_0ffc, 8),
                Err(MemFault::NotMapped(0x20_0000_1000)),
            ),
            (Operation::Load(0x20_0000_3000, 8), Ok(0)),
            (Operation::Map(0x20_0000_1000, 1, READ), DONE),
            (Operation::Load(0x20_0000_0ffc, 8), Ok(0x4433_2211)),
        ],
        copy: &[
            (
                Operation::Load(0x20_0000_0ffc, 8),
                Ok(0x8877_6655_4433_2211),
            ),
            (Operation::Gap(1), Ok(0x20_0000_2000)),
        ],
        behind: &[],
    },
    // What either of them stores isn't there for the other.
    Copied {
        before: &[
            (Operation::Map(0x10000, 3, READ_WRITE), DONE),
            (Operation::Store(0x10000, 8, 1), DONE),
            (Operation::Store(0x11000, 8, 2), DONE),
            (Operation::Store(0x12000, 8, 3), DONE),
        ],
        then: &[
            (Operation::Store(0x10000, 8, 4), DONE),
            (Operation::Load(0x10000, 8), Ok(4)),
        ],
        copy: &[
            (Operation::Load(0x10000, 8), Ok(1)),
            (Operation::Store(0x10000, 8, 5), DONE),
            (Operation::Store(0x11000, 8, 6), DONE),
            (Operation::Load(0x10000, 8), Ok(5)),
            (Operation::Load(0x11000, 8), Ok(6)),
            (Operation::Load(0x12000, 8), Ok(3)),
        ],
        behind: &[
            (Operation::Load(0x10000, 8), Ok(4)),
            (Operation::Load(0x11000, 8), Ok(2)),
            (Operation::Load(0x12000, 8), Ok(3)),
        ],
    },
];

// The first row of each list that gives another answer, on a memory without a page.
fn copy_in(
    alloc: Global,
    memory: &mut GuestMemory,
    row: &Copied,
) -> Result<[Option<usize>; 4], AllocError> {
    let before = first_other(memory, alloc, row.before);
    let mut copy = memory.fork(alloc)?;
    let then = first_other(memory, alloc, row.then);
    let copied = first_other(&mut copy, alloc, row.copy);
    let behind = first_other(memory, alloc, row.behind);
    Ok([before, then, copied, behind])
}

fn copy_and_change(alloc: Global, row: &Copied) -> Result<[Option<usize>; 4], AllocError> {
    let mut memory = GuestMemory::new(alloc);
    copy_in(alloc, &mut memory, row)
}

#[test]
fn copies_are_apart(rt: HostRuntime) -> Result<(), Fail> {
    for row in COPIES {
        assert_eq!(rt; copy_and_change(rt.alloc(), row)?, [None; 4]);
    }
    Ok(())
}
