//! Reports of runs that the command doesn't come to: of entries that the kernel isn't asked for, and of runs that stop on the way.
use crate::stdout_kernel::{PID, TID, answer_to, expire, stdout_kernel, write_of};
use abi_types::{
    Answer, Bytes, Call, CallNumber, Denial, Errno, Payload, Pid, Reply, Rights, Signal, Tid,
    WakeIn, WordWrites,
};
use block_list::BlockList;
use denied_calls::DeniedCall;
use kernel_core::Kernel;
use run_report::report;
use run_types::{Act, Entry, TurnList};
use std::alloc::{AllocError, Global};
use std::test::Fail;

// An entry that the kernel isn't asked for.
enum Other {
    // A call of this number that lacks these rights of descriptor 3.
    Denied(u64, Rights, Rights),
    // A call of this number at this moment in which its thread waits.
    Waits { moment: u64, number: u64 },
    // A wake out of a call that lacks these rights of descriptor 3.
    DeniedWake(u64, Rights, Rights),
    // A wake at this moment out of a call of this number, which gives this first number.
    Wake { moment: u64, number: u64, r1: u64 },
    // A trap at this moment, after three turns.
    Trap(u64),
    // The end of its turns at this moment, after three turns.
    Expire(u64),
    // An idle jump to this moment.
    Idle(u64),
}

// A run, and the report that it comes to.
struct Run {
    // What the first thread writes to stdout, if it makes a call.
    written: Option<&'static str>,
    others: &'static [Other],
    // Whether the process is ended from outside.
    expires: bool,
    // Whether the report has the history's lines.
    lines: bool,
    report: &'static str,
}

const DENIED: Run = Run {
    written: Some("hi"),
    others: &[
        Other::Denied(37, Rights(0x1000_0042), Rights::FD_TELL),
        Other::Denied(49, Rights::NONE, Rights::NONE),
    ],
    expires: false,
    lines: false,
    report: "== stdout 2\nhi\n== stderr 0\n== status live\n== run stalled\n== denials 2\n0abcdef0.12 poll fd 3 base FD_READ,FD_WRITE,POLL_FD_READWRITE inheriting FD_TELL\n0abcdef0.12 49 fd 3 base - inheriting -\n== tree 0\n",
};

const RUNS: &[Run] = &[
    DENIED,
    Run {
        expires: true,
        report: "== stdout 2\nhi\n== stderr 0\n== status signal 25 XCPU\n== run ended\n== denials 2\n0abcdef0.12 poll fd 3 base FD_READ,FD_WRITE,POLL_FD_READWRITE inheriting FD_TELL\n0abcdef0.12 49 fd 3 base - inheriting -\n== tree 0\n",
        ..DENIED
    },
    Run {
        written: None,
        others: &[
            Other::Denied(50, Rights::FD_READ, Rights::NONE),
            Other::Trap(4000),
            Other::Expire(u64::MAX),
        ],
        expires: false,
        lines: true,
        report: "== stdout 0\n== stderr 0\n== status live\n== run stalled\n== denials 1\n0abcdef0.12 50 fd 3 base FD_READ inheriting -\n== tree 0\n== history 3\n0 0abcdef0.12 0 call 50 NOTCAPABLE 0 0\n4000 01000002.7 3 trap - - 0 0\n18446744073709551615 01000002.7 3 expire - - 0 0\n",
    },
    Run {
        written: None,
        others: &[
            Other::Waits {
                moment: 1000,
                number: 37,
            },
            Other::Idle(5_000_000),
            Other::Wake {
                moment: 5_001_000,
                number: 37,
                r1: 1,
            },
            Other::DeniedWake(10, Rights::FD_READ, Rights::NONE),
        ],
        expires: false,
        lines: true,
        report: "== stdout 0\n== stderr 0\n== status live\n== run stalled\n== denials 1\n0abcdef0.12 fd_read fd 3 base FD_READ inheriting -\n== tree 0\n== history 4\n1000 00000000.1 0 call poll PARKED 0 0\n5000000 00000000.0 0 idle - - 0 0\n5001000 00000000.1 0 wake poll SUCCESS 1 0\n0 0abcdef0.12 0 wake fd_read NOTCAPABLE 0 0\n",
    },
];

// Writes a text in the first thread, with its entry. Nothing where that thread can make no call.
fn write(
    alloc: Global,
    kernel: &mut Kernel,
    history: &mut BlockList<Entry>,
    text: &str,
) -> Result<(), AllocError> {
    history.reserve()?;
    let call = write_of(alloc, text)?;
    if let Some(answer) = answer_to(kernel, &call) {
        history.push_reserved(Entry {
            moment: kernel.moment(),
            pid: PID,
            tid: TID,
            turns: TurnList::new(alloc),
            act: Act::Call { call, answer },
        });
    }
    Ok(())
}

// The answer to a call that lacks these rights of descriptor 3.
fn lacking(base: Rights, inheriting: Rights) -> Answer {
    let reply = Reply {
        errno: Errno::Notcapable,
        r1: 0,
        r2: 0,
        payload: Payload::Nothing,
        writes: WordWrites::Zero,
        denial: Some(Denial::Missing {
            fd: 3,
            base,
            inheriting,
        }),
    };
    Answer::Reply(reply)
}

// The answer to a call that succeeded and gives this first number.
fn giving(r1: u64) -> Answer {
    let reply = Reply {
        errno: Errno::Success,
        r1,
        r2: 0,
        payload: Payload::Nothing,
        writes: WordWrites::Zero,
        denial: None,
    };
    Answer::Reply(reply)
}

// A call of this number.
fn numbered(number: u64) -> Call {
    match CallNumber::of(number) {
        Some(number) => Call::Refused {
            number,
            errno: Errno::Notcapable,
        },
        None => Call::Unknown { number },
    }
}

// A wake out of a call of this number, which waited for no lock.
fn wake_of(number: u64, answer: Answer) -> Act {
    Act::Wake {
        call: numbered(number),
        given: WakeIn::Plain { word: 0 },
        answer,
    }
}

// The entry of what a thread of another process did, at moment 0.
fn of_another(alloc: Global, act: Act) -> Entry {
    Entry {
        moment: 0,
        pid: Pid(0xabc_def0),
        tid: Tid(12),
        turns: TurnList::new(alloc),
        act,
    }
}

// The entry of what happened in process 0 at a moment, after no turn.
fn of_first(alloc: Global, moment: u64, tid: Tid, act: Act) -> Entry {
    Entry {
        moment,
        pid: PID,
        tid,
        turns: TurnList::new(alloc),
        act,
    }
}

// The entry of a call of this number that was denied.
fn denied(alloc: Global, number: u64, base: Rights, inheriting: Rights) -> Entry {
    let act = Act::Call {
        call: numbered(number),
        answer: lacking(base, inheriting),
    };
    of_another(alloc, act)
}

// Three turns of a thread.
fn three_turns(alloc: Global) -> Result<TurnList, AllocError> {
    let mut turns = TurnList::new(alloc);
    for _ in 0..3 {
        turns.push(Tid(7))?;
    }
    Ok(turns)
}

// The entry of an end, after three turns.
fn end_after_turns(alloc: Global, moment: u64, act: Act) -> Result<Entry, AllocError> {
    Ok(Entry {
        moment,
        pid: Pid(0x100_0002),
        tid: Tid(7),
        turns: three_turns(alloc)?,
        act,
    })
}

fn entry_of(alloc: Global, other: &Other) -> Result<Entry, AllocError> {
    match other {
        Other::Denied(number, base, inheriting) => Ok(denied(alloc, *number, *base, *inheriting)),
        Other::DeniedWake(number, base, inheriting) => {
            Ok(of_another(alloc, wake_of(*number, lacking(*base, *inheriting))))
        }
        Other::Waits { moment, number } => Ok(of_first(
            alloc,
            *moment,
            TID,
            Act::Call {
                call: numbered(*number),
                answer: Answer::Parked(WordWrites::Zero),
            },
        )),
        Other::Wake { moment, number, r1 } => {
            Ok(of_first(alloc, *moment, TID, wake_of(*number, giving(*r1))))
        }
        Other::Trap(moment) => end_after_turns(alloc, *moment, Act::Trap(Signal::Segv)),
        Other::Expire(moment) => end_after_turns(alloc, *moment, Act::Expire),
        Other::Idle(moment) => Ok(of_first(alloc, *moment, Tid(0), Act::Idle)),
    }
}

// Puts the entries of a run into a history, as the kernel goes through it.
fn go_through(
    alloc: Global,
    kernel: &mut Kernel,
    history: &mut BlockList<Entry>,
    run: &Run,
) -> Result<(), AllocError> {
    if let Some(text) = run.written {
        write(alloc, kernel, history, text)?;
    }
    for other in run.others {
        history.reserve()?;
        history.push_reserved(entry_of(alloc, other)?);
    }
    if run.expires {
        expire(kernel);
    }
    Ok(())
}

fn history_of(
    alloc: Global,
    kernel: &mut Kernel,
    run: &Run,
) -> Result<BlockList<Entry>, AllocError> {
    let mut history = BlockList::new(alloc);
    go_through(alloc, kernel, &mut history, run)?;
    Ok(history)
}

// The denied calls of a history.
fn denied_of(
    alloc: Global,
    history: &BlockList<Entry>,
) -> Result<BlockList<DeniedCall>, AllocError> {
    let mut denied = BlockList::new(alloc);
    for index in 0..history.len() {
        denied.reserve()?;
        if let Some(call) = DeniedCall::of_entry(history.at(index)) {
            denied.push_reserved(call);
        }
    }
    Ok(denied)
}

// The report of a kernel that went through a history.
fn report_after(
    alloc: Global,
    kernel: &Kernel,
    history: &BlockList<Entry>,
    lines: bool,
) -> Result<Bytes, AllocError> {
    let denied = denied_of(alloc, history)?;
    report(alloc, kernel, &denied, history, lines)
}

fn report_in(alloc: Global, kernel: &mut Kernel, run: &Run) -> Result<Bytes, AllocError> {
    let history = history_of(alloc, kernel, run)?;
    report_after(alloc, kernel, &history, run.lines)
}

fn report_of(alloc: Global, run: &Run) -> Result<Bytes, AllocError> {
    let mut kernel = stdout_kernel(alloc)?;
    report_in(alloc, &mut kernel, run)
}

#[test]
fn reports(rt: HostRuntime) -> Result<(), Fail> {
    for run in RUNS {
        let text = report_of(rt.alloc(), run)?;
        assert_eq!(rt; text.as_slice(), run.report.as_bytes(), "{}", run.report);
    }
    Ok(())
}
