//! Rows of calls: a number, arguments, what stands in memory, and what is wanted.
use abi_types::{Bytes, Call, Errno, FdList, Lookup, Place, Prot, Regs, SubscriptionList, What};
use call_codec::args;
use guest_memory::{GuestMemory, MemFault};
use std::alloc::{AllocError, Global};

/// 17 pages that may be read and written.
pub const DATA: u64 = 0x10000;

/// Where these end. No page comes after them.
pub const DATA_END: u64 = 0x21000;

/// A page that may be read.
pub const READ_ONLY: u64 = 0x30000;

/// A page that may be written.
pub const WRITE_ONLY: u64 = 0x40000;

/// No page.
pub const ABSENT: u64 = 0x50000;

/// The turns that the process has left.
pub const LEFT: u64 = 77;

/// The path `abc`.
pub const ABC: u64 = 0x63_6261;

/// The bit 2^63.
pub const TOP: u64 = 0x8000_0000_0000_0000;

/// What is wanted: a refusal, or a call with these numbers in its fields, in their order. Of bytes and lists they are how
/// many there are and the first; of a state those that the tests name.
#[derive(Clone, Copy)]
pub enum Want {
    No(Errno),
    Yes(&'static [u64]),
}

/// A call's number, its arguments, the numbers of 64 bits that stand from `DATA` on, and what is wanted.
pub type Row = (u64, &'static [u64], &'static [u64], Want);

fn prot(read: bool, write: bool) -> Prot {
    Prot {
        read,
        write,
        exec: false,
    }
}

/// The memory of a row.
pub fn memory_of(alloc: Global, content: &[u64]) -> Result<GuestMemory, MemFault> {
    let mut memory = GuestMemory::new(alloc);
    memory.map(alloc, DATA, 17, prot(true, true))?;
    memory.map(alloc, READ_ONLY, 1, prot(true, false))?;
    memory.map(alloc, WRITE_ONLY, 1, prot(false, true))?;
    let mut at = DATA;
    for number in content {
        memory.write_bytes(at, &number.to_le_bytes())?;
        at = at.wrapping_add(8);
    }
    Ok(memory)
}

/// The registers of a row.
pub fn registers_of(number: u64, arguments: &[u64]) -> Regs {
    let mut regs = Regs::new(0x10000);
    regs.set(17, number);
    let mut register = 10;
    for argument in arguments {
        if register < 16 {
            regs.set(register, *argument);
            register += 1;
        }
    }
    regs
}

// The numbers, and zeros after them.
fn padded(numbers: &[u64]) -> [u64; 8] {
    let mut all = [0; 8];
    for (place, number) in all.iter_mut().zip(numbers) {
        *place = *number;
    }
    all
}

// How many bytes there are, and the first.
fn of_bytes(bytes: &Bytes) -> (u64, u64) {
    let first = bytes.as_slice().first().copied().unwrap_or(0);
    (bytes.len() as u64, u64::from(first))
}

// How many descriptors there are, and the first.
fn of_fds(fds: &FdList) -> (u64, u64) {
    let first = fds.as_slice().first().copied().unwrap_or(0);
    (fds.len() as u64, u64::from(first))
}

fn of_place(place: Place) -> u64 {
    match place {
        Place::At(at) => at,
        Place::Refused(errno) => u64::from(errno.number()),
    }
}

// The type of what is waited for, and the words of a condition variable and a lock.
fn of_what(what: &What) -> (u64, u64, u64) {
    let kind = u64::from(what.event_type().number());
    match *what {
        What::Condvar {
            condvar_word,
            lock_word,
            ..
        } => (kind, u64::from(condvar_word), u64::from(lock_word)),
        What::LockRdlock { word, .. } | What::LockWrlock { word, .. } => (kind, 0, u64::from(word)),
        _ => (kind, 0, 0),
    }
}

// How many subscriptions there are, and of the first its number for the event, its type and its words.
fn of_subscriptions(subscriptions: &SubscriptionList) -> [u64; 8] {
    match subscriptions.as_slice() {
        [first, ..] => {
            let (kind, condvar, lock) = of_what(&first.what);
            let count = subscriptions.len() as u64;
            padded(&[count, first.userdata, kind, condvar, lock])
        }
        [] => [0; 8],
    }
}

// The fields of a call about descriptors.
fn of_descriptor_call(call: &Call) -> [u64; 8] {
    match call {
        Call::FdClose { fd }
        | Call::FdDatasync { fd }
        | Call::FdDup { fd }
        | Call::FdStatGet { fd }
        | Call::FdSync { fd } => padded(&[u64::from(*fd)]),
        Call::FdCreate2 { kind } => padded(&[u64::from(*kind)]),
        Call::FdPread { fd, length, offset } => padded(&[u64::from(*fd), *length, *offset]),
        Call::FdPwrite { fd, bytes, offset } => {
            let (count, first) = of_bytes(bytes);
            padded(&[u64::from(*fd), count, first, *offset])
        }
        Call::FdRead { fd, length } => padded(&[u64::from(*fd), *length]),
        Call::FdReplace { from, to } => padded(&[u64::from(*from), u64::from(*to)]),
        Call::FdSeek { fd, offset, whence } => {
            padded(&[u64::from(*fd), *offset, u64::from(*whence)])
        }
        Call::FdStatPut { fd, stat, flags } => padded(&[
            u64::from(*fd),
            u64::from(stat.kind),
            u64::from(stat.flags),
            stat.base.0,
            stat.inheriting.0,
            u64::from(*flags),
        ]),
        Call::FdWrite { fd, bytes } => {
            let (count, first) = of_bytes(bytes);
            padded(&[u64::from(*fd), count, first])
        }
        _ => of_file_call(call),
    }
}

// The fields of two paths: where they begin, how long they are, and their first bytes.
fn of_paths(lookup: Lookup, path: &Bytes, fd: u32, new_path: &Bytes) -> [u64; 8] {
    let (count, first) = of_bytes(path);
    let (new_count, new_first) = of_bytes(new_path);
    padded(&[
        u64::from(lookup.fd),
        u64::from(lookup.flags),
        count,
        first,
        u64::from(fd),
        new_count,
        new_first,
    ])
}

// The fields of a path: where it begins, how long it is, its first byte, and three more numbers.
fn of_path(lookup: Lookup, path: &Bytes, more: [u64; 3]) -> [u64; 8] {
    let (count, first) = of_bytes(path);
    let [one, two, three] = more;
    padded(&[
        u64::from(lookup.fd),
        u64::from(lookup.flags),
        count,
        first,
        one,
        two,
        three,
    ])
}

fn from(fd: u32) -> Lookup {
    Lookup { fd, flags: 0 }
}

// The fields of a call about files that has a path.
fn of_file_call(call: &Call) -> [u64; 8] {
    match call {
        Call::FileCreate { fd, path, kind } => of_path(from(*fd), path, [u64::from(*kind), 0, 0]),
        Call::FileLink {
            lookup,
            path,
            new_fd,
            new_path,
        } => of_paths(*lookup, path, *new_fd, new_path),
        Call::FileOpen {
            lookup,
            path,
            oflags,
            stat,
        } => {
            let flags = u64::from(stat.flags);
            of_path(*lookup, path, [u64::from(*oflags), flags, stat.base.0])
        }
        Call::FileReadlink { fd, path, length } => of_path(from(*fd), path, [*length, 0, 0]),
        Call::FileRename {
            fd,
            path,
            new_fd,
            new_path,
        } => of_paths(from(*fd), path, *new_fd, new_path),
        Call::FileStatGet { lookup, path } => of_path(*lookup, path, [0, 0, 0]),
        Call::FileStatPut {
            lookup,
            path,
            stat,
            flags,
        } => of_path(*lookup, path, [stat.size, stat.atim, u64::from(*flags)]),
        Call::FileSymlink { text, fd, path } => of_paths(from(0), text, *fd, path),
        Call::FileUnlink { fd, path, flags } => of_path(from(*fd), path, [u64::from(*flags), 0, 0]),
        _ => of_node_call(call),
    }
}

// The fields of a call about a file without a path, or about memory.
fn of_node_call(call: &Call) -> [u64; 8] {
    match call {
        Call::FileAdvise {
            fd,
            offset,
            length,
            advice,
        } => padded(&[u64::from(*fd), *offset, *length, u64::from(*advice)]),
        Call::FileAllocate { fd, offset, length } => padded(&[u64::from(*fd), *offset, *length]),
        Call::FileReaddir { fd, length, cookie } => padded(&[u64::from(*fd), *length, *cookie]),
        Call::FileStatFget { fd } => padded(&[u64::from(*fd)]),
        Call::FileStatFput { fd, stat, flags } => {
            padded(&[u64::from(*fd), stat.size, stat.atim, u64::from(*flags)])
        }
        Call::MemMap {
            place,
            length,
            prot,
            flags,
            fd,
            offset,
        } => padded(&[
            of_place(*place),
            *length,
            u64::from(*prot),
            u64::from(*flags),
            u64::from(*fd),
            *offset,
        ]),
        Call::Memory { number, errno } => {
            padded(&[u64::from(number.number()), u64::from(errno.number())])
        }
        _ => of_other_call(call),
    }
}

// The fields of a call about clocks, locks, processes, sockets and threads.
fn of_other_call(call: &Call) -> [u64; 8] {
    match call {
        Call::ClockResGet { clock } => padded(&[u64::from(*clock)]),
        Call::ClockTimeGet { clock, precision } => padded(&[u64::from(*clock), *precision]),
        Call::CondvarSignal {
            condvar,
            word,
            scope,
            n,
        } => padded(&[*condvar, u64::from(*word), u64::from(*scope), u64::from(*n)]),
        Call::LockUnlock { lock, word, scope } | Call::ThreadExit { lock, word, scope } => {
            padded(&[*lock, u64::from(*word), u64::from(*scope)])
        }
        Call::Poll { subscriptions } => of_subscriptions(subscriptions),
        Call::ProcExit { code } => padded(&[u64::from(*code)]),
        Call::ProcFork { left } => padded(&[*left]),
        Call::ProcRaise { signal } => padded(&[u64::from(*signal)]),
        Call::RandomGet { length } => padded(&[*length]),
        Call::ThreadCreate { attributes } => padded(&[
            attributes.entry,
            attributes.stack,
            attributes.stacklen,
            attributes.argument,
        ]),
        _ => of_socket_call(call),
    }
}

// The fields of a call about sockets, and of proc_exec.
fn of_socket_call(call: &Call) -> [u64; 8] {
    match call {
        Call::ProcExec { fd, bytes, fds } => {
            let (count, first) = of_bytes(bytes);
            let (fd_count, first_fd) = of_fds(fds);
            padded(&[u64::from(*fd), count, first, fd_count, first_fd])
        }
        Call::SockRecv {
            fd,
            length,
            fds,
            flags,
        } => padded(&[u64::from(*fd), *length, *fds, u64::from(*flags)]),
        Call::SockSend {
            fd,
            bytes,
            fds,
            flags,
        } => {
            let (count, first) = of_bytes(bytes);
            let (fd_count, first_fd) = of_fds(fds);
            padded(&[
                u64::from(*fd),
                count,
                first,
                fd_count,
                first_fd,
                u64::from(*flags),
            ])
        }
        Call::SockShutdown { fd, how } => padded(&[u64::from(*fd), u64::from(*how)]),
        _ => [0; 8],
    }
}

// Whether it is the call that this number asks for.
fn has_number(call: &Call, number: u64) -> bool {
    match call.number() {
        Ok(known) => u64::from(known.number()) == number,
        Err(unknown) => unknown == number,
    }
}

// The error that refuses the call: NOSYS for a number that no call has.
fn refusal_of(call: &Call) -> Option<Errno> {
    match call {
        Call::Refused { errno, .. } => Some(*errno),
        Call::Unknown { .. } => Some(Errno::Nosys),
        _ => None,
    }
}

// Whether the call is the wanted one of this number.
fn is_wanted(call: &Call, number: u64, want: Want) -> bool {
    let matches = match (refusal_of(call), want) {
        (Some(errno), Want::No(error)) => errno == error,
        (None, Want::Yes(fields)) => of_descriptor_call(call) == padded(fields),
        _ => false,
    };
    matches && has_number(call, number)
}

// Whether a row's call is the wanted one, in the row's memory.
fn is_wanted_in(alloc: Global, memory: &GuestMemory, row: &Row) -> Result<bool, AllocError> {
    let &(number, arguments, _, want) = row;
    let regs = registers_of(number, arguments);
    let call = args(alloc, &regs, memory, LEFT)?;
    Ok(is_wanted(&call, number, want))
}

fn is_read(alloc: Global, row: &Row) -> Result<bool, AllocError> {
    match memory_of(alloc, row.2) {
        Ok(memory) => is_wanted_in(alloc, &memory, row),
        Err(_) => Ok(false),
    }
}

/// The first row whose call isn't the wanted one.
pub fn first_other(alloc: Global, rows: &[Row]) -> Result<Option<usize>, AllocError> {
    for (place, row) in rows.iter().enumerate() {
        if !is_read(alloc, row)? {
            return Ok(Some(place));
        }
    }
    Ok(None)
}
