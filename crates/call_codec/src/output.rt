//! What an answer writes into the caller's memory.
ghost use Rattle.std.specs.Prelude.{◌≡◌, ◌≤◌, ◌*◌, length, IsOk};
ghost use Rattle.codec_arguments.specs.Arguments.{argument};
ghost use Rattle.codec_arguments.specs.Ranges.{ranges_at};
ghost use Rattle.call_codec.specs.Output.{content_of, event_bytes, events_bytes, fdstat_bytes, filestat_bytes, into_ranges, scattered};
ghost use Rattle.call_codec.specs.Output.{with_bytes, with_content, with_payload, with_word, with_words};
ghost use Rattle.guest_memory.specs.declared.access.Access.TheVariants as access;
ghost use Rattle.guest_memory.specs.Bytes.{bytes_from};
ghost use Rattle.guest_memory.specs.Written.{set_bytes};

use abi_layout::{write_event, write_fdstat, write_filestat};
use abi_structures::{Event, Iovec};
use abi_types::{Payload, Regs, WordWrite, WordWrites};
use codec_arguments::{MOST_IOVECS, NO_RANGE, check_writable, fill_ranges};
use codec_poll::EVENT_SIZE;
use guest_memory::GuestMemory;

// How many iovecs most calls have at most. Room for so few is made at once.
const FEW: usize = 8;

// How many iovecs a call has at most. Room for so many is 16 KiB, which are written first.
const MANY: usize = MOST_IOVECS as usize;

// Writes bytes from an address on; where one of them can't be written, none is.
pub(crate) fn put_bytes(memory: &mut GuestMemory, at: u64, bytes: &[u8])
    ensures { memory.new ≡ with_bytes memory.old at bytes.now }
{
    let _ = memory.write_bytes(at, bytes);
}

// Writes a word at its address.
fn put_word(memory: &mut GuestMemory, write: WordWrite)
    ensures { memory.new ≡ with_word memory.old write }
{
    put_bytes(memory, write.address, &write.word.to_le_bytes());
}

/// Writes words, each at its address, the lowest byte first. It takes no memory.
pub fn put_words(memory: &mut GuestMemory, writes: &WordWrites)
    ensures { memory.new ≡ with_words memory.old writes.now }
{
    match writes {
        WordWrites::Zero => {}
        WordWrites::One(write) => put_word(memory, *write),
        WordWrites::Two(first, second) => {
            put_word(memory, *first);
            put_word(memory, *second);
        }
    }
}

// An event as bytes.
fn event_bytes(event: &Event) -> [u8; 32]
    ensures { result ≡ event_bytes event.now }
{
    write_event(event)
}

// Writes events one behind the other from an address on, where all of their bytes can be written.
fn put_each_event(memory: &mut GuestMemory, at: u64, events: &[Event])
    requires { IsOk (bytes_from access.Write memory.old at (32 * length events.now)) }
    ensures { memory.new ≡ set_bytes memory.old at (events_bytes events.now) }
{
    let mut next = at;
    for event in events {
        put_bytes(memory, next, &event_bytes(event));
        next = next.wrapping_add(EVENT_SIZE);
    }
}

// Writes events one behind the other from an address on; where one of their bytes can't be written, none is.
fn put_events(memory: &mut GuestMemory, at: u64, events: &[Event])
    ensures { memory.new ≡ with_bytes memory.old at (events_bytes events.now) }
{
    let count = events.len() as u64;
    if check_writable(memory, at, EVENT_SIZE * count).is_ok() {
        put_each_event(memory, at, events);
    }
}

// Writes bytes into the ranges, one after another, into each as many as it has room for.
fn scatter(memory: &mut GuestMemory, ranges: &[Iovec], bytes: &[u8])
    ensures { memory.new ≡ scattered memory.old ranges.now bytes.now }
{
    let mut rest = bytes;
    for range in ranges {
        let count = range.length.min(rest.len() as u64) as usize;
        let (part, behind) = rest.split_at(count);
        put_bytes(memory, range.address, part);
        rest = behind;
    }
}

// Writes bytes into the ranges of an array of at most N iovecs. The whole array is read first; where that can't be, nothing is
// written.
#[inline(never)]
fn put_ranges<const N: usize>(memory: &mut GuestMemory, at: u64, count: u64, bytes: &[u8])
    requires fits { count ≤ N }
    requires few { N ≤ MOST_IOVECS }
    ensures { memory.new ≡ into_ranges memory.old (ranges_at memory.old at count) bytes.now }
{
    let mut ranges = [NO_RANGE; N];
    let ranges = &mut ranges[..count as usize];
    if fill_ranges(memory, at, ranges).is_ok() {
        scatter(memory, ranges, bytes);
    }
}

// The same of an array of at most `MOST_IOVECS`.
pub(crate) fn put_into(memory: &mut GuestMemory, at: u64, count: u64, bytes: &[u8])
    requires { count ≤ MOST_IOVECS }
    ensures { memory.new ≡ into_ranges memory.old (ranges_at memory.old at count) bytes.now }
{
    if count <= FEW as u64 {
        put_ranges::<FEW>(memory, at, count, bytes);
    } else {
        put_ranges::<MANY>(memory, at, count, bytes);
    }
}

/// Writes the bytes of the payload, if it has some, into the ranges of the iovec array that the registers name: a1 has its
/// address, and a2 its count.
pub fn put_content(regs: &Regs, memory: &mut GuestMemory, payload: &Payload)
    requires { argument regs.now 2 ≤ MOST_IOVECS }
    ensures { memory.new ≡ with_content memory.old regs.now payload.now }
{
    if let Payload::Content(bytes) = payload {
        put_into(memory, regs.get(11), regs.get(12), bytes.as_slice());
    }
}

/// The bytes of the payload, if it has some.
pub fn content(payload: &Payload) -> &[u8]
    ensures { result.now ≡ content_of payload.now }
{
    match payload {
        Payload::Content(bytes) => bytes.as_slice(),
        _ => &[],
    }
}

/// Writes the payload from an address on, if it is bytes, the state of a descriptor or of a file, or events.
pub fn put_payload(memory: &mut GuestMemory, at: u64, payload: &Payload)
    ensures { memory.new ≡ with_payload memory.old at payload.now }
{
    match payload {
        Payload::Content(bytes) => put_bytes(memory, at, bytes.as_slice()),
        Payload::FdStat(stat) => put_bytes(memory, at, &write_fdstat(stat)),
        Payload::FileStat(stat) => put_bytes(memory, at, &write_filestat(stat)),
        Payload::Event(event) => put_bytes(memory, at, &event_bytes(event)),
        Payload::Events(events) => put_events(memory, at, events.as_slice()),
        _ => {}
    }
}
