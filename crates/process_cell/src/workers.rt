//! The run of a launch that has begun, to the closed book, by workers. Each takes a ticket, takes turns of its thread, and gives it back. Where
//! the board was told that some thread may be ready, one worker asks the kernel for it; where all threads wait, one lets time go on.
ghost use Rattle.std.specs.Prelude.{◌≡◌};
ghost use Rattle.call_codec.specs.Bounded.{IsBounded};
ghost use Rattle.kernel_cell.specs.Cell.{IsBookOf};
ghost use Rattle.kernel_model.specs.Waits.{HasDeadlines};
ghost use Rattle.process_cell.specs.Driven.{ComesOut, IsDriven};

use crate::process::{Gate, Process, Worker};
use crate::results::{Did, Phase};
use abi_types::{Pid, Tid};
use guest_process::FIRST_THREAD;
use kernel_cell::{After, Begun, Book, Came, Cell, Idled, Naming};
use std::alloc::{AllocError, Global};
use std::marker::Brand;
use std::sync::{Arc, Condvar, Mutex, MutexGuard, Wait};
use std::thread;
use std::thread::Threads;
use turn_queue::{Back, Board, Passed, SharedTicket, Task, Ticket};

// How many steps a worker takes with a ticket at most before it gives it back, and with it the memory lock of the ticket's process.
const STEPS: u32 = 64;

// The right to run a thread of a process. The process is behind the memory lock, which all tickets of its threads share.
#[derive(Drop)]
struct ThreadTicket<J: Naming> {
    pid: Pid,
    tid: Tid,
    process: Arc<Mutex<Process<J>>, Global>,
}

impl<J: Naming> Ticket for ThreadTicket<J> {
    ghost process = { λ ticket. ticket.pid };

    ghost thread = { λ ticket. ticket.tid };

    fn pid(&self) -> Pid {
        self.pid
    }

    fn tid(&self) -> Tid {
        self.tid
    }
}

impl<J: Naming> SharedTicket for ThreadTicket<J> {
    fn beside(&self, tid: Tid) -> Result<ThreadTicket<J>, AllocError> {
        let process = self.process.clone()?;
        Ok(ThreadTicket {
            pid: self.pid,
            tid,
            process,
        })
    }
}

impl<J: Naming> ThreadTicket<J> {
    // The ticket of the only thread of a process, which has this number. `Err` where memory ran out.
    fn new(alloc: Global, process: Process<J>, tid: Tid) -> Result<ThreadTicket<J>, AllocError> {
        let pid = process.pid();
        let process = Arc::new(alloc, Mutex::new(process))?;
        Ok(ThreadTicket { pid, tid, process })
    }
}

// What came of steps of a thread.
#[derive(Drop)]
struct Ran<J: Naming> {
    // What became of the thread by the last one.
    came: Came<After>,
    // The ticket of the child that it made, if it made one.
    child: Option<ThreadTicket<J>>,
    // Whether some thread may be ready by them, or gone.
    told: bool,
}

// What a worker did.
#[derive(Drop)]
enum Done<J: Naming> {
    // Steps of a ticket's thread.
    Ran(ThreadTicket<J>, Ran<J>),
    // It asked the kernel for a ready thread, and this one is.
    Asked(Option<(Pid, Tid)>),
    // It asked the kernel to let time go on, of which this came.
    Idled(Idled),
}

impl<J: Naming> Done<J> {
    // Tells the board. With it comes the ticket of a thread that has ended.
    fn tell(self, board: &mut Board<ThreadTicket<J>>) -> Option<ThreadTicket<J>> {
        match self {
            Done::Ran(ticket, ran) => {
                let Ran { came, child, told } = ran;
                board.tell(ticket.pid(), told);
                board.take_back(ticket, back(&came), child)
            }
            Done::Asked(found) => {
                board.take_asked(found);
                None
            }
            Done::Idled(idled) => {
                board.take_passed(passed(idled));
                None
            }
        }
    }
}

// How the ticket comes back of a thread of whose last step this came.
fn back(came: &Came<After>) -> Back {
    match came {
        Came::NoMemory | Came::Done(After::Lost) => Back::NoMemory,
        Came::Gone | Came::Done(After::Leaves) | Came::Done(After::Ended) => Back::Leaves,
        Came::Done(After::Runs) | Came::Done(After::Begins) => Back::Runs,
        Came::Done(After::Starts(tid)) => Back::Started(*tid),
        Came::NotReady | Came::Done(After::Waits) => Back::Waits,
    }
}

// What came of time.
fn passed(idled: Idled) -> Passed {
    match idled {
        Idled::Jumped => Passed::Jumped,
        Idled::Busy => Passed::Busy,
        Idled::Stalled | Idled::Over | Idled::NoMemory => Passed::Stopped,
    }
}

// What the workers of a run share beside its kernel: the board of tickets behind a lock, and the bell that they wait for.
#[derive(Drop)]
struct Workplace<J: Naming> {
    board: Mutex<Board<ThreadTicket<J>>>,
    bell: Condvar,
}

impl<J: Naming> Workplace<J> {
    // Leaves the board. Another worker is woken only where one waits that need wait no more.
    fn leave(&self, mut board: MutexGuard<'_, Board<ThreadTicket<J>>>) {
        let rings = board.rings();
        drop(board);
        if rings {
            self.bell.notify_one();
        }
    }

    // The next task for a worker, who says what it did. The ticket of a thread that has ended is dropped while the board is left, since a
    // process's last ticket drops its memory.
    fn next<R: Wait>(&self, rt: &R, done: Option<Done<J>>) -> Task<ThreadTicket<J>> {
        let mut board = self.board.lock(rt);
        if let Some(done) = done {
            if let Some(ended) = done.tell(&mut board) {
                self.leave(board);
                drop(ended);
                board = self.board.lock(rt);
            }
        }
        if board.waits() {
            board.begin_waiting();
            board = self.bell.wait_while(rt, board, |board| board.waits_on());
            board.end_waiting();
        }
        let task = board.hand_out();
        self.leave(board);
        task
    }

    // Drops the parked ticket of a thread that has ended, once the board is left.
    fn drop_parked<R: Wait>(&self, rt: &R, pid: Pid, tid: Tid) {
        let mut board = self.board.lock(rt);
        let ended = board.drop_parked(pid, tid);
        drop(board);
        drop(ended);
    }
}

impl<J: Naming, R: Wait, G: Gate> Worker<'_, J, R, G> {
    // The next step of a process's thread; where it stands at a proc_fork then, that too, with the ticket of the child, if there is one. Where
    // memory runs out for the ticket the child is lost, and with it the run.
    fn step(
        &self,
        process: &mut Process<J>,
        told: &mut bool,
        tid: Tid,
    ) -> (Did, Option<ThreadTicket<J>>) {
        let did = process.step(self, told, tid);
        let Phase::Forks(forker) = process.phase() else {
            return (did, None);
        };
        let (did, child) = process.fork(self, told, forker);
        let Some(child) = child else {
            return (did, None);
        };
        match ThreadTicket::new(self.alloc, child, forker) {
            Ok(ticket) => (did, Some(ticket)),
            Err(_) => (Did::unasked(Came::NoMemory), None),
        }
    }

    // Steps of a ticket's thread, under the memory lock of its process, until it gives way to others or can't go on, or until others are to
    // have their turn. Then the process is looked at, which others may have ended.
    fn run(&self, ticket: &ThreadTicket<J>) -> Ran<J> {
        let mut process = ticket.process.lock(self.rt);
        let mut told = false;
        for _ in 0..STEPS {
            let (did, child) = self.step(&mut process, &mut told, ticket.tid());
            if !did.goes_on() {
                return Ran {
                    came: did.came,
                    child,
                    told,
                };
            }
        }
        process.look(self);
        let came = match process.phase() {
            Phase::Gone => Came::Gone,
            _ => Came::Done(After::Runs),
        };
        Ran {
            came,
            child: None,
            told,
        }
    }

    // Drops the parked tickets of threads that have ended while they waited.
    fn drop_gone(&self, workplace: &Workplace<J>) {
        for _ in self.rt.forever() {
            let Some((pid, tid)) = self.cell.take_gone(self.rt) else {
                return;
            };
            workplace.drop_parked(self.rt, pid, tid);
        }
    }

    // The work of a worker, until there is nothing more to do.
    fn work(&self, workplace: &Workplace<J>) {
        let mut done = None;
        for _ in self.rt.forever() {
            done = match workplace.next(self.rt, done) {
                Task::Run(ticket) => {
                    let ran = self.run(&ticket);
                    Some(Done::Ran(ticket, ran))
                }
                Task::Ask(after) => {
                    self.drop_gone(workplace);
                    let found = self.cell.next_ready(self.rt, after);
                    Some(Done::Asked(found))
                }
                Task::Idle => {
                    let idled = self.cell.idle(self.rt);
                    Some(Done::Idled(idled))
                }
                Task::Leave => return,
            };
        }
    }
}

// Runs a process with all its threads, and all that it makes, with this many workers, of which the caller is one. A worker whose thread
// can't be started is left out.
fn run_process<J: Naming + Send + Sync, R: Threads + Wait + Sync, G: Gate + Sync>(
    rt: &R,
    alloc: Global,
    cell: &Cell<J>,
    process: Process<J>,
    workers: u32,
    gate: &G,
) {
    let Ok(ticket) = ThreadTicket::new(alloc, process, FIRST_THREAD) else {
        return;
    };
    let mut board = Board::new(alloc);
    board.put(ticket);
    let workplace = Workplace {
        board: Mutex::new(board),
        bell: Condvar::new(),
    };
    let shared = &workplace;
    thread::scope(thread::scope_env(), rt, |scope| {
        for number in 1..workers {
            let spawned = scope.spawn(move || {
                let worker = Worker {
                    rt,
                    alloc,
                    cell,
                    gate,
                    number,
                };
                worker.work(shared)
            });
            if spawned.is_err() {
                break;
            }
        }
        let first = Worker {
            rt,
            alloc,
            cell,
            gate,
            number: 0,
        };
        first.work(shared);
    });
}

/// How a run came out, with its book.
#[derive(Drop)]
pub enum Driven {
    /// It ended: no process is live.
    Ended(Book),
    /// It stalled: all threads wait, and nothing can happen any more.
    Stalled(Book),
    /// Memory ran out before it ended. The book has what came until then, which is at least one entry.
    Lacking(Book),
    /// Memory ran out before its first entry, and the book has none.
    NotBegun(Book),
}

// Runs a launch that has begun, by its name.
fn run_named<J: Naming + Send + Sync, R: Threads + Wait + Sync, G: Gate + Sync>(
    rt: &R,
    alloc: Global,
    begun: Begun,
    workers: u32,
    gate: &G,
) -> Book
    requires table { begun.table ≡ J.table }
    requires launch { begun.launch ≡ J.launch }
    requires all { begun.keeps_all ≡ J.keeps_all }
    requires bounded { IsBounded begun.launch }
    ensures { IsBookOf begun.launch begun.keeps_all result }
{
    let (cell, pass) = begun.named::<J>();
    match Process::first(alloc, cell.launch(), pass) {
        Ok(process) => run_process(rt, alloc, &cell, process, workers, gate),
        Err(pass) => cell.spend(rt, pass),
    }
    cell.close()
}

// How the run came out whose book this is.
fn outcome(mut book: Book) -> Driven
    requires { HasDeadlines book.launch.constants book.kernel }
    ensures { ComesOut book result }
{
    if !book.kernel.any_live() {
        Driven::Ended(book)
    } else if book.kernel.stalled(&book.launch.constants) {
        Driven::Stalled(book)
    } else if book.kernel.moment() > 0 {
        Driven::Lacking(book)
    } else {
        Driven::NotBegun(book)
    }
}

/// Runs a launch that has begun to its end with this many workers, each a thread of its own. The gate is passed at each step of a process.
pub fn drive<R: Threads + Wait + Sync, G: Gate + Sync>(
    rt: &R,
    alloc: Global,
    begun: Begun,
    workers: u32,
    gate: &G,
) -> Driven
    requires { IsBounded begun.launch }
    ensures { IsDriven begun.launch begun.keeps_all result }
{
    outcome(run_named::<Brand, R, G>(rt, alloc, begun, workers, gate))
}
