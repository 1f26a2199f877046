//! Events and subscriptions, with their bytes written down by hand from the table of layouts.
use abi_layout::{read_event, read_subscription, write_event, write_subscription};
use abi_structures::{Event, Subscription, What};

// ---- events

// An event with no field after its kind.
const PLAIN: Event = Event {
    userdata: 5,
    error: 6,
    kind: 1,
    nbytes: 0,
    flags: 0,
    signal: 0,
    code: 0,
};

// Events that bytes may be read, that they may be written, and that a process ended.
const EVENTS: &[(Event, [u8; 32])] = &[
    (
        Event {
            userdata: 0x1112_1314_1516_1718,
            error: 0x2122,
            kind: 3,
            nbytes: 0x3132_3334_3536_3738,
            flags: 0x4142,
            signal: 0,
            code: 0,
        },
        [
            0x18, 0x17, 0x16, 0x15, 0x14, 0x13, 0x12, 0x11, // userdata
            0x22, 0x21, 3, 0, 0, 0, 0, 0, // error at 8, kind at 10
            0x38, 0x37, 0x36, 0x35, 0x34, 0x33, 0x32, 0x31, // nbytes
            0x42, 0x41, 0, 0, 0, 0, 0, 0, // flags
        ],
    ),
    (
        Event {
            userdata: 1,
            error: 0,
            kind: 4,
            nbytes: 2,
            flags: 3,
            signal: 0,
            code: 0,
        },
        [
            1, 0, 0, 0, 0, 0, 0, 0, 0, 0, 4, 0, 0, 0, 0, 0, 2, 0, 0, 0, 0, 0, 0, 0, 3, 0, 0, 0, 0,
            0, 0, 0,
        ],
    ),
    (
        Event {
            userdata: 0x1112_1314_1516_1718,
            error: 0x2122,
            kind: 7,
            nbytes: 0,
            flags: 0,
            signal: 0x31,
            code: 0x4142_4344,
        },
        [
            0x18, 0x17, 0x16, 0x15, 0x14, 0x13, 0x12, 0x11, // userdata
            0x22, 0x21, 7, 0, 0, 0, 0, 0, // error at 8, kind at 10
            0x31, 0, 0, 0, 0x44, 0x43, 0x42, 0x41, // signal at 16, code at 20
            0, 0, 0, 0, 0, 0, 0, 0,
        ],
    ),
    // A time came, a lock was taken or a condition variable was signalled.
    (
        Event { kind: 1, ..PLAIN },
        [
            5, 0, 0, 0, 0, 0, 0, 0, 6, 0, 1, 0, 0, 0, 0, 0, 0, 0, 0, 0, 0, 0, 0, 0, 0, 0, 0, 0, 0,
            0, 0, 0,
        ],
    ),
    (
        Event { kind: 2, ..PLAIN },
        [
            5, 0, 0, 0, 0, 0, 0, 0, 6, 0, 2, 0, 0, 0, 0, 0, 0, 0, 0, 0, 0, 0, 0, 0, 0, 0, 0, 0, 0,
            0, 0, 0,
        ],
    ),
    (
        Event { kind: 5, ..PLAIN },
        [
            5, 0, 0, 0, 0, 0, 0, 0, 6, 0, 5, 0, 0, 0, 0, 0, 0, 0, 0, 0, 0, 0, 0, 0, 0, 0, 0, 0, 0,
            0, 0, 0,
        ],
    ),
    (
        Event { kind: 6, ..PLAIN },
        [
            5, 0, 0, 0, 0, 0, 0, 0, 6, 0, 6, 0, 0, 0, 0, 0, 0, 0, 0, 0, 0, 0, 0, 0, 0, 0, 0, 0, 0,
            0, 0, 0,
        ],
    ),
];

// Bytes that an event's kind does not name, which are not read.
const READ_EVENTS: &[([u8; 32], Event)] = &[
    (
        [
            0xff, 0xff, 0xff, 0xff, 0xff, 0xff, 0xff, 0xff, 0xff, 0xff, 1, 0xff, 0xff, 0xff, 0xff,
            0xff, 0xff, 0xff, 0xff, 0xff, 0xff, 0xff, 0xff, 0xff, 0xff, 0xff, 0xff, 0xff, 0xff,
            0xff, 0xff, 0xff,
        ],
        Event {
            userdata: 0xffff_ffff_ffff_ffff,
            error: 0xffff,
            kind: 1,
            ..PLAIN
        },
    ),
    (
        [
            0xff, 0xff, 0xff, 0xff, 0xff, 0xff, 0xff, 0xff, 0xff, 0xff, 7, 0xff, 0xff, 0xff, 0xff,
            0xff, 0xff, 0xff, 0xff, 0xff, 0xff, 0xff, 0xff, 0xff, 0xff, 0xff, 0xff, 0xff, 0xff,
            0xff, 0xff, 0xff,
        ],
        Event {
            userdata: 0xffff_ffff_ffff_ffff,
            error: 0xffff,
            kind: 7,
            signal: 0xff,
            code: 0xffff_ffff,
            ..PLAIN
        },
    ),
    (
        [
            0xff, 0xff, 0xff, 0xff, 0xff, 0xff, 0xff, 0xff, 0xff, 0xff, 4, 0xff, 0xff, 0xff, 0xff,
            0xff, 0xff, 0xff, 0xff, 0xff, 0xff, 0xff, 0xff, 0xff, 0xff, 0xff, 0xff, 0xff, 0xff,
            0xff, 0xff, 0xff,
        ],
        Event {
            userdata: 0xffff_ffff_ffff_ffff,
            error: 0xffff,
            kind: 4,
            nbytes: 0xffff_ffff_ffff_ffff,
            flags: 0xffff,
            ..PLAIN
        },
    ),
];

// Fields that an event's kind lacks, which are not written.
const FULL: Event = Event {
    kind: 1,
    nbytes: 1,
    flags: 1,
    signal: 1,
    code: 1,
    ..PLAIN
};

#[test]
fn events(rt: HostRuntime) {
    for (row, (event, bytes)) in EVENTS.iter().enumerate() {
        assert!(rt;
            write_event(event) == *bytes && read_event(bytes) == *event,
            "row {row}"
        );
    }
    for (row, (bytes, event)) in READ_EVENTS.iter().enumerate() {
        assert!(rt; read_event(bytes) == *event, "row {row}");
    }
    assert!(rt; write_event(&FULL) == write_event(&PLAIN));
}

// ---- subscriptions

// What a subscription waits for, and the bytes of the subscription.
const SUBSCRIPTIONS: &[(What, [u8; 56])] = &[
    (
        What::Clock {
            clock: 0x2122_2324,
            timeout: 0x3132_3334_3536_3738,
            precision: 0x4142_4344_4546_4748,
            flags: 0x5152,
        },
        [
            0x18, 0x17, 0x16, 0x15, 0x14, 0x13, 0x12, 0x11, // userdata
            1, 0, 0, 0, 0, 0, 0, 0, // kind
            0, 0, 0, 0, 0, 0, 0, 0, //
            0x24, 0x23, 0x22, 0x21, 0, 0, 0, 0, // clock
            0x38, 0x37, 0x36, 0x35, 0x34, 0x33, 0x32, 0x31, // timeout
            0x48, 0x47, 0x46, 0x45, 0x44, 0x43, 0x42, 0x41, // precision
            0x52, 0x51, 0, 0, 0, 0, 0, 0, // flags
        ],
    ),
    (
        What::Condvar {
            condvar: 0x2122_2324_2526_2728,
            condvar_word: 0,
            lock: 0x3132_3334_3536_3738,
            lock_word: 0,
            condvar_scope: 0x41,
            lock_scope: 0x51,
        },
        [
            0x18, 0x17, 0x16, 0x15, 0x14, 0x13, 0x12, 0x11, // userdata
            2, 0, 0, 0, 0, 0, 0, 0, // kind
            0x28, 0x27, 0x26, 0x25, 0x24, 0x23, 0x22, 0x21, // condvar
            0x38, 0x37, 0x36, 0x35, 0x34, 0x33, 0x32, 0x31, // lock
            0x41, 0x51, 0, 0, 0, 0, 0, 0, // the condvar's scope at 32, the lock's at 33
            0, 0, 0, 0, 0, 0, 0, 0, //
            0, 0, 0, 0, 0, 0, 0, 0, //
        ],
    ),
    (
        What::FdRead { fd: 0x2122_2324 },
        [
            0x18, 0x17, 0x16, 0x15, 0x14, 0x13, 0x12, 0x11, // userdata
            3, 0, 0, 0, 0, 0, 0, 0, // kind
            0x24, 0x23, 0x22, 0x21, 0, 0, 0, 0, // fd
            0, 0, 0, 0, 0, 0, 0, 0, //
            0, 0, 0, 0, 0, 0, 0, 0, //
            0, 0, 0, 0, 0, 0, 0, 0, //
            0, 0, 0, 0, 0, 0, 0, 0, //
        ],
    ),
    (
        What::FdWrite { fd: 0x2122_2324 },
        [
            0x18, 0x17, 0x16, 0x15, 0x14, 0x13, 0x12, 0x11, // userdata
            4, 0, 0, 0, 0, 0, 0, 0, // kind
            0x24, 0x23, 0x22, 0x21, 0, 0, 0, 0, // fd
            0, 0, 0, 0, 0, 0, 0, 0, //
            0, 0, 0, 0, 0, 0, 0, 0, //
            0, 0, 0, 0, 0, 0, 0, 0, //
            0, 0, 0, 0, 0, 0, 0, 0, //
        ],
    ),
    (
        What::ProcTerminate { fd: 0x2122_2324 },
        [
            0x18, 0x17, 0x16, 0x15, 0x14, 0x13, 0x12, 0x11, // userdata
            7, 0, 0, 0, 0, 0, 0, 0, // kind
            0x24, 0x23, 0x22, 0x21, 0, 0, 0, 0, // fd
            0, 0, 0, 0, 0, 0, 0, 0, //
            0, 0, 0, 0, 0, 0, 0, 0, //
            0, 0, 0, 0, 0, 0, 0, 0, //
            0, 0, 0, 0, 0, 0, 0, 0, //
        ],
    ),
    (
        What::LockRdlock {
            lock: 0x2122_2324_2526_2728,
            word: 0,
            scope: 0x31,
        },
        [
            0x18, 0x17, 0x16, 0x15, 0x14, 0x13, 0x12, 0x11, // userdata
            5, 0, 0, 0, 0, 0, 0, 0, // kind
            0x28, 0x27, 0x26, 0x25, 0x24, 0x23, 0x22, 0x21, // lock
            0x31, 0, 0, 0, 0, 0, 0, 0, // scope
            0, 0, 0, 0, 0, 0, 0, 0, //
            0, 0, 0, 0, 0, 0, 0, 0, //
            0, 0, 0, 0, 0, 0, 0, 0, //
        ],
    ),
    (
        What::LockWrlock {
            lock: 0x2122_2324_2526_2728,
            word: 0,
            scope: 0x31,
        },
        [
            0x18, 0x17, 0x16, 0x15, 0x14, 0x13, 0x12, 0x11, // userdata
            6, 0, 0, 0, 0, 0, 0, 0, // kind
            0x28, 0x27, 0x26, 0x25, 0x24, 0x23, 0x22, 0x21, // lock
            0x31, 0, 0, 0, 0, 0, 0, 0, // scope
            0, 0, 0, 0, 0, 0, 0, 0, //
            0, 0, 0, 0, 0, 0, 0, 0, //
            0, 0, 0, 0, 0, 0, 0, 0, //
        ],
    ),
];

// Kinds that are no event's type, and bytes that no field names, which are not read.
const READ_SUBSCRIPTIONS: &[([u8; 56], Option<What>)] = &[
    (
        [
            0x18, 0x17, 0x16, 0x15, 0x14, 0x13, 0x12, 0x11, // userdata
            0, 0, 0, 0, 0, 0, 0, 0, // kind
            0x24, 0x23, 0x22, 0x21, 0, 0, 0, 0, // fd
            0, 0, 0, 0, 0, 0, 0, 0, //
            0, 0, 0, 0, 0, 0, 0, 0, //
            0, 0, 0, 0, 0, 0, 0, 0, //
            0, 0, 0, 0, 0, 0, 0, 0, //
        ],
        None,
    ),
    (
        [
            0x18, 0x17, 0x16, 0x15, 0x14, 0x13, 0x12, 0x11, // userdata
            8, 0, 0, 0, 0, 0, 0, 0, // kind
            0x24, 0x23, 0x22, 0x21, 0, 0, 0, 0, // fd
            0, 0, 0, 0, 0, 0, 0, 0, //
            0, 0, 0, 0, 0, 0, 0, 0, //
            0, 0, 0, 0, 0, 0, 0, 0, //
            0, 0, 0, 0, 0, 0, 0, 0, //
        ],
        None,
    ),
    (
        [
            0x18, 0x17, 0x16, 0x15, 0x14, 0x13, 0x12, 0x11, // userdata
            255, 0, 0, 0, 0, 0, 0, 0, // kind
            0x24, 0x23, 0x22, 0x21, 0, 0, 0, 0, // fd
            0, 0, 0, 0, 0, 0, 0, 0, //
            0, 0, 0, 0, 0, 0, 0, 0, //
            0, 0, 0, 0, 0, 0, 0, 0, //
            0, 0, 0, 0, 0, 0, 0, 0, //
        ],
        None,
    ),
    (
        [
            0x18, 0x17, 0x16, 0x15, 0x14, 0x13, 0x12, 0x11, // userdata
            3, 0xf1, 0, 0, 0, 0, 0, 0xf7, // kind
            0x24, 0x23, 0x22, 0x21, 0xf4, 0, 0, 0, // fd
            0, 0, 0, 0, 0, 0, 0, 0, //
            0, 0, 0, 0, 0, 0, 0, 0, //
            0, 0, 0, 0, 0, 0, 0, 0, //
            0, 0, 0, 0, 0, 0, 0, 0xf7, //
        ],
        Some(What::FdRead { fd: 0x2122_2324 }),
    ),
];

fn subscription(what: &What) -> Subscription {
    Subscription {
        userdata: 0x1112_1314_1516_1718,
        what: *what,
    }
}

// The subscription is read from the bytes and written to them.
fn is_read_and_written(what: &What, bytes: &[u8; 56]) -> bool {
    match read_subscription(bytes) {
        Some(read) => read == subscription(what) && write_subscription(&read) == *bytes,
        None => false,
    }
}

#[test]
fn subscriptions(rt: HostRuntime) {
    for (row, (what, bytes)) in SUBSCRIPTIONS.iter().enumerate() {
        assert!(rt; is_read_and_written(what, bytes), "row {row}");
    }
    for (row, (bytes, what)) in READ_SUBSCRIPTIONS.iter().enumerate() {
        assert!(rt;
            read_subscription(bytes) == what.as_ref().map(subscription),
            "row {row}"
        );
    }
}
