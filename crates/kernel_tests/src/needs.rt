//! What calls on locks and condition variables name and need, fd_create1, which the command refuses before the kernel sees it, a poll of
//! descriptors, and proc_exec, proc_fork and proc_raise, and their refusals for lack of that: with no descriptor at all, with just what they
//! need, and with each needed right taken away in turn. The same of the other calls is shown by scripts of calls (docs/GATE.md).
use crate::stdout_kernel::{answer_to, bare_kernel};
use abi_types::{
    Answer, Bytes, Call, CallNumber, Denial, Descriptor, Errno, FdList, ObjId, OpenType, Reply,
    Rights, Subscription, SubscriptionList, What,
};
use fd_table::FdTable;
use right_rules::{fits, refusal};
use std::alloc::{AllocError, Global};
use std::test::Fail;

// A row of needs: a descriptor, and its base rights.
type Row = (u32, &'static [Rights]);

// A call by its place in `call_at`, the descriptors that must be there, the rights that it needs of them, and what a process without
// descriptors is answered.
struct Case {
    name: &'static str,
    number: u64,
    named: &'static [u32],
    rows: &'static [Row],
    bare: Errno,
}

// How many descriptors the tests' tables have.
const COUNT: u32 = 3;

const CASES: &[Case] = &[
    Case {
        name: "condvar_signal",
        number: 2,
        named: &[],
        rows: &[],
        bare: Errno::Success,
    },
    // its arguments are always refused before the kernel sees it
    Case {
        name: "fd_create1",
        number: 4,
        named: &[],
        rows: &[],
        bare: Errno::Nosys,
    },
    // nobody has the lock
    Case {
        name: "lock_unlock",
        number: 31,
        named: &[],
        rows: &[],
        bare: Errno::Perm,
    },
    Case {
        name: "poll",
        number: 37,
        named: &[0, 1, 2],
        rows: &[
            (0, &[Rights::POLL_FD_READWRITE]),
            (1, &[Rights::POLL_FD_READWRITE]),
            (2, &[Rights::POLL_PROC_TERMINATE]),
        ],
        bare: Errno::Badf,
    },
    Case {
        name: "proc_exec",
        number: 38,
        named: &[0, 1, 2],
        rows: &[(0, &[Rights::PROC_EXEC])],
        bare: Errno::Badf,
    },
    Case {
        name: "proc_fork",
        number: 40,
        named: &[],
        rows: &[],
        bare: Errno::Success,
    },
    Case {
        name: "proc_raise",
        number: 41,
        named: &[],
        rows: &[],
        bare: Errno::Success,
    },
];

// Things to wait for: bytes from 0, a time, room at 1, the end of 2, and a lock.
fn waits(alloc: Global) -> Result<SubscriptionList, AllocError> {
    let mut list = SubscriptionList::new(alloc);
    for what in [
        What::FdRead { fd: 0 },
        What::Clock {
            clock: 1,
            timeout: 0,
            precision: 0,
            flags: 0,
        },
        What::FdWrite { fd: 1 },
        What::ProcTerminate { fd: 2 },
        What::LockRdlock {
            lock: 0,
            word: 0,
            scope: 4,
        },
    ] {
        list.push(Subscription { userdata: 0, what })?;
    }
    Ok(list)
}

// The descriptors 1 and 2.
fn listed(alloc: Global) -> Result<FdList, AllocError> {
    let mut list = FdList::new(alloc);
    list.push(1)?;
    list.push(2)?;
    Ok(list)
}

// A text that stands for bytes.
fn text(alloc: Global) -> Result<Bytes, AllocError> {
    Bytes::of(alloc, b"a")
}

// The calls of the cases from 0 on.
fn calls_from_0(place: usize) -> Option<Call> {
    Some(match place {
        0 => Call::CondvarSignal {
            condvar: 0,
            word: 0,
            scope: 4,
            n: 1,
        },
        1 => Call::FdCreate1 { kind: 48 },
        2 => Call::LockUnlock {
            lock: 0,
            word: 0,
            scope: 4,
        },
        _ => return None,
    })
}

// The calls of the cases from 3 on.
fn calls_from_3(alloc: Global, place: usize) -> Result<Option<Call>, AllocError> {
    Ok(Some(match place {
        3 => Call::Poll {
            subscriptions: waits(alloc)?,
        },
        4 => Call::ProcExec {
            fd: 0,
            bytes: text(alloc)?,
            fds: listed(alloc)?,
        },
        5 => Call::ProcFork { left: 100 },
        // CHLD, which ends no process
        6 => Call::ProcRaise { signal: 4 },
        _ => return Ok(None),
    }))
}

// The call of a case.
fn call_at(alloc: Global, place: usize) -> Result<Option<Call>, AllocError> {
    match place {
        0..3 => Ok(calls_from_0(place)),
        _ => calls_from_3(alloc, place),
    }
}

// The error and the denial of a refusal, if there is one.
type Reported = Option<(Errno, Option<Denial>)>;

const ABSENT: Reported = Some((Errno::Badf, None));

// A right that is taken away from a descriptor.
#[derive(Clone, Copy)]
enum Taken {
    Nothing,
    Right(u32, Rights),
}

impl Taken {
    // The rights, without the one taken from them.
    fn rest(self, fd: u32, held: Rights) -> Rights {
        match self {
            Taken::Right(from, right) if from == fd => held.minus(right),
            _ => held,
        }
    }

    // The refusal that must come of it.
    fn refusal(self) -> Reported {
        match self {
            Taken::Nothing => None,
            Taken::Right(fd, base) => {
                let denial = Denial::Missing {
                    fd,
                    base,
                    inheriting: Rights::NONE,
                };
                Some((Errno::Notcapable, Some(denial)))
            }
        }
    }
}

// All of these rights.
fn joined(rights: &[Rights]) -> Rights {
    let mut all = Rights::NONE;
    for right in rights {
        all = Rights(all.0 | right.0);
    }
    all
}

// What the rows need of this descriptor.
fn needed_of(rows: &[Row], fd: u32) -> Rights {
    let mut needed = Rights::NONE;
    for (of, base) in rows {
        if *of == fd {
            needed = joined(base);
        }
    }
    needed
}

// A table with the descriptors 0 to 2, each with just what the rows need of it, less what is taken.
fn table_of(alloc: Global, rows: &[Row], taken: Taken) -> Result<FdTable, AllocError> {
    let mut table = FdTable::new(alloc);
    for fd in 0..COUNT {
        let descriptor = Descriptor {
            id: ObjId(u64::from(fd)),
            base: taken.rest(fd, needed_of(rows, fd)),
            inheriting: Rights::NONE,
        };
        table.insert_at(fd, descriptor)?;
    }
    Ok(table)
}

// The refusal's error and denial, if there is one.
fn reported(reply: Option<Reply>) -> Reported {
    reply.map(|reply| (reply.errno, reply.denial))
}

// The error of an answer, if it is a reply.
fn error_of(answer: &Option<Answer>) -> Option<Errno> {
    match answer {
        Some(Answer::Reply(reply)) => Some(reply.errno),
        _ => None,
    }
}

// The answer of a kernel whose process has no descriptor.
fn bare_answer(alloc: Global, call: &Call) -> Result<Option<Errno>, AllocError> {
    let mut kernel = bare_kernel(alloc)?;
    let answer = answer_to(&mut kernel, call);
    Ok(error_of(&answer))
}

// Whether the refusal with what is left of the rights is the one that must come of it.
fn needs_what_is_taken(
    alloc: Global,
    rows: &[Row],
    call: &Call,
    taken: Taken,
) -> Result<bool, AllocError> {
    let table = table_of(alloc, rows, taken)?;
    Ok(reported(refusal(&table, call)) == taken.refusal())
}

// Whether it needs each of these rights of a descriptor.
fn needs_each(alloc: Global, rows: &[Row], call: &Call, row: &Row) -> Result<bool, AllocError> {
    let (fd, base) = row;
    for right in *base {
        if !needs_what_is_taken(alloc, rows, call, Taken::Right(*fd, *right))? {
            return Ok(false);
        }
    }
    Ok(true)
}

// Whether it needs no more rights than those of the rows, and each of them.
fn needs_its_rights(alloc: Global, rows: &[Row], call: &Call) -> Result<bool, AllocError> {
    for row in rows {
        if !needs_each(alloc, rows, call, row)? {
            return Ok(false);
        }
    }
    needs_what_is_taken(alloc, rows, call, Taken::Nothing)
}

// Whether it is BADF without this descriptor.
fn needs_descriptor(alloc: Global, rows: &[Row], call: &Call, fd: u32) -> Result<bool, AllocError> {
    let mut table = table_of(alloc, rows, Taken::Nothing)?;
    table.remove(fd);
    Ok(reported(refusal(&table, call)) == ABSENT)
}

// Whether it is BADF without each of the descriptors that the call names.
fn needs_its_descriptors(alloc: Global, case: &Case, call: &Call) -> Result<bool, AllocError> {
    for fd in case.named {
        if !needs_descriptor(alloc, case.rows, call, *fd)? {
            return Ok(false);
        }
    }
    Ok(true)
}

fn has_number(call: &Call, number: u64) -> bool {
    call.number().ok() == CallNumber::of(number)
}

// Whether a case's call has its number, and is refused as it must be.
fn is_refused_as_wanted(alloc: Global, case: &Case, call: &Call) -> Result<bool, AllocError> {
    Ok(
        has_number(call, case.number)
            && needs_its_rights(alloc, case.rows, call)?
            && needs_its_descriptors(alloc, case, call)?
            && bare_answer(alloc, call)? == Some(case.bare),
    )
}

// The same of the case's call by its place.
fn is_refused_at(alloc: Global, place: usize, case: &Case) -> Result<bool, AllocError> {
    match call_at(alloc, place)? {
        Some(call) => is_refused_as_wanted(alloc, case, &call),
        None => Ok(false),
    }
}

#[test]
fn needs(rt: HostRuntime) -> Result<(), Fail> {
    for (place, case) in CASES.iter().enumerate() {
        let holds = is_refused_at(rt.alloc(), place, case)?;
        assert_eq!(rt; holds, true, "{}", case.name);
    }
    Ok(())
}

// The rights of the type of which no program starts with a descriptor, by their bits.
const TYPES: &[(OpenType, &[u32])] = &[(OpenType::Process, &[19, 30])];

// The set of the rights with these bits.
fn bits(places: &[u32]) -> Rights {
    let mut all = Rights::NONE;
    for place in places {
        all = Rights(all.0 | 1u64.wrapping_shl(*place));
    }
    all
}

#[test]
fn types_have_their_rights(rt: HostRuntime) -> Result<(), Fail> {
    for (kind, places) in TYPES {
        assert_eq!(rt; fits(*kind), bits(places));
    }
    Ok(())
}
