//! The board of tickets, as workers come to it one after another.
use crate::tickets::{Named, name_of, ticket};
use abi_base::{Pid, Tid};
use std::test::Fail;
use turn_queue::{Back, Board, Passed, Task, Ticket};

// What comes to a board, and its answer. Tickets and threads are told by the tickets' names.
#[derive(Clone, Copy)]
enum Event {
    Put(char),
    // Some thread may be ready by what that of this ticket did.
    Tell(char),
    // A worker takes its next task, of which this is expected.
    Gets(Next),
    // A ticket comes back so, and is given back or not.
    Back(char, How, bool),
    // A ticket comes back of a thread that goes on, which made the thread with this number.
    Starts(char, u32),
    // A ticket comes back of a thread that goes on, with that of a child.
    Child(char, char),
    // The kernel named this thread.
    Asked(Option<char>),
    Passed(Passed),
    // The thread has ended, and its ticket is given or not.
    Gone(char, bool),
    // Whether a worker is to wait.
    Waits(bool),
    // A worker begins to wait, or waits no more.
    Sleeps,
    Wakes,
    // Whether a worker that waits is to be woken.
    Rings(bool),
    // Whether one that is awake waits on.
    WaitsOn(bool),
    // Whether another worker is to be started, and one that was has come.
    Wants(bool),
    Comes,
}

// How a ticket comes back of which no other thread was made.
#[derive(Clone, Copy)]
enum How {
    Runs,
    Waits,
    Leaves,
    NoMemory,
}

// A task, or none.
#[derive(Clone, Copy)]
enum Next {
    Run(char),
    Ask(Option<char>),
    Idle,
    Leave,
}

// What comes to a board, one after another.
const CASES: &[&[Event]] = &[
    // Nothing is there, also where something is told.
    &[
        Event::Tell('a'),
        Event::Waits(false),
        Event::Gets(Next::Leave),
    ],
    // All wait, time goes on, and the thread that it makes ready is found; then nothing can happen any more.
    &[
        Event::Put('a'),
        Event::Gets(Next::Run('a')),
        Event::Waits(true),
        Event::Back('a', How::Waits, false),
        Event::Gets(Next::Idle),
        Event::Waits(true),
        Event::Passed(Passed::Jumped),
        Event::Gets(Next::Ask(None)),
        Event::Waits(true),
        Event::Asked(Some('a')),
        Event::Gets(Next::Run('a')),
        Event::Back('a', How::Waits, false),
        Event::Gets(Next::Ask(Some('a'))),
        Event::Asked(None),
        Event::Gets(Next::Ask(None)),
        Event::Asked(None),
        Event::Gets(Next::Idle),
        Event::Passed(Passed::Busy),
        Event::Gets(Next::Ask(None)),
        Event::Asked(None),
        Event::Gets(Next::Idle),
        Event::Passed(Passed::Stopped),
        Event::Waits(false),
        Event::Gets(Next::Leave),
    ],
    // Whose ticket is parked gets the worker who asked, and between two answers a ticket that is ready has its turn.
    &[
        Event::Put('a'),
        Event::Put('c'),
        Event::Put('e'),
        Event::Gets(Next::Run('a')),
        Event::Back('a', How::Waits, false),
        Event::Gets(Next::Run('c')),
        Event::Back('c', How::Waits, false),
        Event::Gets(Next::Run('e')),
        Event::Tell('e'),
        Event::Back('e', How::Runs, false),
        Event::Gets(Next::Ask(None)),
        Event::Asked(Some('a')),
        Event::Gets(Next::Run('a')),
        Event::Waits(false),
        Event::Gets(Next::Run('e')),
        Event::Waits(false),
        Event::Gets(Next::Ask(Some('a'))),
        Event::Waits(true),
        Event::Asked(Some('c')),
        Event::Gets(Next::Run('c')),
        Event::Waits(true),
        Event::Back('a', How::Waits, false),
        Event::Gets(Next::Ask(Some('c'))),
        Event::Asked(None),
        Event::Gets(Next::Ask(None)),
        Event::Asked(None),
        Event::Waits(true),
        Event::Back('c', How::Leaves, true),
        Event::Back('e', How::Runs, false),
        Event::Gets(Next::Run('e')),
        Event::Back('e', How::Leaves, true),
        Event::Gets(Next::Idle),
    ],
    // What is told while the kernel is asked isn't lost. Meanwhile no ticket is handed out of the process that told last.
    &[
        Event::Put('a'),
        Event::Put('c'),
        Event::Put('e'),
        Event::Gets(Next::Run('a')),
        Event::Back('a', How::Waits, false),
        Event::Gets(Next::Run('c')),
        Event::Tell('c'),
        Event::Back('c', How::Runs, false),
        Event::Gets(Next::Ask(None)),
        Event::Gets(Next::Run('e')),
        Event::Waits(true),
        Event::Tell('e'),
        Event::Back('e', How::Waits, false),
        Event::Waits(true),
        Event::Asked(None),
        Event::Waits(false),
        Event::Gets(Next::Ask(None)),
        Event::Gets(Next::Run('c')),
        Event::Asked(Some('a')),
        Event::Gets(Next::Run('a')),
        Event::Back('a', How::Leaves, true),
        Event::Back('c', How::Leaves, true),
        Event::Gets(Next::Ask(Some('a'))),
        Event::Asked(None),
        Event::Gets(Next::Ask(None)),
        Event::Asked(None),
        Event::Gets(Next::Idle),
    ],
    // Nor is one of a process whose ticket comes back meanwhile.
    &[
        Event::Put('a'),
        Event::Put('c'),
        Event::Put('e'),
        Event::Gets(Next::Run('a')),
        Event::Back('a', How::Waits, false),
        Event::Gets(Next::Run('c')),
        Event::Gets(Next::Run('e')),
        Event::Tell('e'),
        Event::Back('e', How::Runs, false),
        Event::Gets(Next::Ask(None)),
        Event::Back('c', How::Runs, false),
        Event::Waits(true),
        Event::Asked(None),
        Event::Waits(false),
        Event::Gets(Next::Run('e')),
        Event::Gets(Next::Run('c')),
    ],
    // A pass that names only threads whose tickets are ready or lent ends. A ticket that was lent comes once more, though its thread waits.
    &[
        Event::Put('a'),
        Event::Put('c'),
        Event::Put('e'),
        Event::Gets(Next::Run('a')),
        Event::Back('a', How::Waits, false),
        Event::Gets(Next::Run('c')),
        Event::Tell('c'),
        Event::Gets(Next::Ask(None)),
        Event::Asked(Some('c')),
        Event::Gets(Next::Run('e')),
        Event::Back('e', How::Runs, false),
        Event::Gets(Next::Ask(Some('c'))),
        Event::Asked(Some('e')),
        Event::Gets(Next::Run('e')),
        Event::Gets(Next::Ask(Some('e'))),
        Event::Asked(None),
        Event::Waits(true),
        Event::Back('c', How::Waits, false),
        Event::Gets(Next::Run('c')),
        Event::Back('c', How::Waits, false),
        Event::Waits(true),
        Event::Back('e', How::Waits, false),
        Event::Gets(Next::Idle),
    ],
    // A thread that is ready of a busy process has its turn once that is free. Where all parked tickets are of busy processes nobody asks.
    &[
        Event::Put('a'),
        Event::Put('b'),
        Event::Put('c'),
        Event::Gets(Next::Run('a')),
        Event::Back('a', How::Waits, false),
        Event::Gets(Next::Run('b')),
        Event::Tell('b'),
        Event::Gets(Next::Run('c')),
        Event::Waits(true),
        Event::Back('c', How::Waits, false),
        Event::Gets(Next::Ask(None)),
        Event::Asked(Some('a')),
        Event::Gets(Next::Ask(Some('a'))),
        Event::Asked(None),
        Event::Gets(Next::Ask(None)),
        Event::Asked(Some('a')),
        Event::Gets(Next::Ask(Some('a'))),
        Event::Asked(None),
        Event::Waits(true),
        Event::Back('b', How::Runs, false),
        Event::Gets(Next::Run('a')),
        Event::Waits(true),
        Event::Back('a', How::Leaves, true),
        Event::Gets(Next::Run('b')),
    ],
    // The ticket of a thread that has ended is given where it is parked. One that was lent comes once more.
    &[
        Event::Put('a'),
        Event::Put('c'),
        Event::Put('d'),
        Event::Gets(Next::Run('a')),
        Event::Back('a', How::Waits, false),
        Event::Gets(Next::Run('c')),
        Event::Back('c', How::Waits, false),
        Event::Gets(Next::Run('d')),
        Event::Gone('c', true),
        Event::Gone('c', false),
        Event::Gone('d', false),
        Event::Back('d', How::Waits, false),
        Event::Gone('d', false),
        Event::Gets(Next::Run('d')),
        Event::Back('d', How::Leaves, true),
        Event::Gets(Next::Idle),
    ],
    // A worker that waits is woken where something is left to do, but not while another one asks.
    &[
        Event::Put('a'),
        Event::Put('c'),
        Event::Gets(Next::Run('a')),
        Event::Back('a', How::Waits, false),
        Event::Gets(Next::Run('c')),
        Event::Waits(true),
        Event::Sleeps,
        Event::Rings(false),
        Event::Tell('c'),
        Event::Back('c', How::Runs, false),
        Event::Gets(Next::Ask(None)),
        Event::Rings(false),
        Event::Asked(Some('a')),
        Event::Gets(Next::Run('a')),
        Event::Rings(true),
        Event::Rings(false),
        Event::WaitsOn(false),
        Event::Wakes,
        Event::Rings(false),
        Event::Gets(Next::Run('c')),
        Event::Waits(true),
        Event::Sleeps,
        Event::Back('a', How::NoMemory, true),
        Event::Rings(true),
    ],
    // Nobody is woken while one that was woken is on its way, who takes the task or finds that another worker took it.
    &[
        Event::Put('a'),
        Event::Gets(Next::Run('a')),
        Event::Waits(true),
        Event::Sleeps,
        Event::Sleeps,
        Event::Put('c'),
        Event::Rings(true),
        Event::Put('e'),
        Event::Rings(false),
        Event::WaitsOn(false),
        Event::Wakes,
        Event::Gets(Next::Run('c')),
        Event::Rings(true),
        Event::Back('c', How::Runs, false),
        Event::Gets(Next::Run('e')),
        Event::Rings(false),
        Event::Gets(Next::Run('c')),
        Event::WaitsOn(true),
        Event::Rings(false),
    ],
    // A worker is started where a task is left that no worker takes who waits or is on its way.
    &[
        Event::Put('a'),
        Event::Put('b'),
        Event::Gets(Next::Run('a')),
        Event::Wants(false),
        Event::Put('c'),
        Event::Wants(true),
        Event::Put('e'),
        Event::Wants(false),
        Event::Comes,
        Event::Gets(Next::Run('c')),
        Event::Wants(true),
        Event::Comes,
        Event::Gets(Next::Run('e')),
        Event::Wants(false),
        Event::Sleeps,
        Event::Back('c', How::Runs, false),
        Event::Wants(false),
        Event::Rings(true),
    ],
    // Tickets of threads and of children that are made.
    &[
        Event::Put('a'),
        Event::Gets(Next::Run('a')),
        Event::Starts('a', 2),
        Event::Gets(Next::Run('b')),
        Event::Waits(true),
        Event::Child('b', 'e'),
        Event::Gets(Next::Run('a')),
        Event::Gets(Next::Run('e')),
        Event::Back('a', How::NoMemory, true),
        Event::Waits(false),
        Event::Gets(Next::Leave),
    ],
];

// Whether these name the same thread.
fn is_same(thread: Option<(Pid, Tid)>, name: Option<char>) -> bool {
    match thread {
        Some((pid, tid)) => name_of(pid, tid) == name,
        None => name.is_none(),
    }
}

// Whether a worker gets this.
fn gets(board: &mut Board<Named>, next: Next) -> bool {
    match (board.hand_out(), next) {
        (Task::Run(ticket), Next::Run(name)) => ticket.name == name,
        (Task::Ask(after), Next::Ask(name)) => is_same(after, name),
        (Task::Idle, Next::Idle) | (Task::Leave, Next::Leave) => true,
        _ => false,
    }
}

// How the board sees that.
fn back(how: How) -> Back {
    match how {
        How::Runs => Back::Runs,
        How::Waits => Back::Waits,
        How::Leaves => Back::Leaves,
        How::NoMemory => Back::NoMemory,
    }
}

// Whether a ticket was given, which is the one of this name, or none.
fn is_given(ticket: Option<Named>, name: char, given: bool) -> bool {
    match ticket {
        Some(ticket) => given && ticket.name == name,
        None => !given,
    }
}

// Lets an event come to a board. Whether its answer is the event's.
fn follow(board: &mut Board<Named>, event: Event) -> bool {
    match event {
        Event::Put(name) => board.put(ticket(name)),
        Event::Tell(name) => board.tell(ticket(name).pid(), true),
        Event::Gets(next) => return gets(board, next),
        Event::Back(name, how, given) => {
            return is_given(board.take_back(ticket(name), back(how), None), name, given);
        }
        Event::Starts(name, tid) => {
            let given = board.take_back(ticket(name), Back::Started(Tid(tid)), None);
            return is_given(given, name, false);
        }
        Event::Child(name, child) => {
            let given = board.take_back(ticket(name), Back::Runs, Some(ticket(child)));
            return is_given(given, name, false);
        }
        Event::Asked(name) => board.take_asked(name.map(|name| {
            let named = ticket(name);
            (named.pid(), named.tid())
        })),
        Event::Passed(passed) => board.take_passed(passed),
        Event::Gone(name, given) => {
            let named = ticket(name);
            return is_given(board.drop_parked(named.pid(), named.tid()), name, given);
        }
        Event::Waits(waits) => return board.waits() == waits,
        Event::Sleeps => board.begin_waiting(),
        Event::Wakes => board.end_waiting(),
        Event::Rings(rings) => return board.rings() == rings,
        Event::WaitsOn(waits) => return board.waits_on() == waits,
        Event::Wants(wants) => return board.wants_worker() == wants,
        Event::Comes => board.begin_work(),
    }
    true
}

#[test]
fn tasks_are_handed_out(rt: HostRuntime) -> Result<(), Fail> {
    for (number, events) in CASES.iter().enumerate() {
        let mut board = Board::new(rt.alloc());
        board.tell(ticket('a').pid(), false);
        for (place, event) in events.iter().enumerate() {
            assert!(rt;
                follow(&mut board, *event),
                "event {place} of case {number}"
            );
        }
    }
    Ok(())
}
