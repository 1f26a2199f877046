//! What the workers of a run share under one lock: the tickets, and who has one or waits for one.
use crate::asking::Asking;
use crate::queue::{Queue, Ticket};
use crate::ready_tickets::key_of;
use abi_base::{Pid, Tid};
use maps::NumMap;
use std::alloc::{AllocError, Global};

/// A ticket of a process's thread, which can make that of another. Who is done with it lets it go.
pub trait SharedTicket: Ticket + Drop {
    /// The ticket of another thread of its process. `Err` where memory ran out.
    fn beside(&self, tid: Tid) -> Result<Self, AllocError>;
}

/// What a worker is to do next.
#[derive(Drop)]
pub enum Task<T> {
    /// Steps of a thread.
    Run(T),
    /// To ask the kernel for the next ready thread behind this one, or for the first.
    Ask(Option<(Pid, Tid)>),
    /// To let time go on, because all threads wait.
    Idle,
    /// Nothing more.
    Leave,
}

/// How a ticket comes back from the worker that had it.
#[derive(Clone, Copy)]
pub enum Back {
    /// Its thread goes on.
    Runs,
    /// Its thread goes on, and made the thread with this number.
    Started(Tid),
    /// Its thread waits.
    Waits,
    /// Its thread has ended, or its process, also where others ended that meanwhile.
    Leaves,
    /// Memory ran out.
    NoMemory,
}

/// What came of time that was to go on.
#[derive(Clone, Copy)]
pub enum Passed {
    /// It went on.
    Jumped,
    /// Some thread is ready already.
    Busy,
    /// Nothing can happen any more, or memory ran out.
    Stopped,
}

// The ticket of this thread of a process, and whether it is to be handed out again even if the thread waits when the ticket is back.
#[derive(Clone, Copy, Drop)]
struct Lent {
    tid: Tid,
    again: bool,
}

// The tickets that workers have, by their processes.
#[derive(Drop)]
struct Outside {
    lent: NumMap<Lent>,
}

impl Outside {
    // No ticket.
    fn new(alloc: Global) -> Outside {
        Outside {
            lent: NumMap::new(alloc),
        }
    }

    // Enters the ticket of a thread. `Err` where memory ran out.
    fn enter(&mut self, pid: Pid, tid: Tid) -> Result<(), AllocError> {
        let lent = Lent { tid, again: false };
        self.lent.insert(key_of(pid), lent)?;
        Ok(())
    }

    // Takes the ticket of this process off. Whether it is to be handed out again.
    fn leave(&mut self, pid: Pid) -> bool {
        match self.lent.remove(key_of(pid)) {
            Some(lent) => lent.again,
            None => false,
        }
    }

    // Notes that the ticket of a thread is to be handed out again, if it is one of these.
    fn mark(&mut self, pid: Pid, tid: Tid) {
        let key = key_of(pid);
        let Some(lent) = self.lent.get(key) else {
            return;
        };
        if lent.tid.0 == tid.0 {
            self.lent.replace(key, Lent { tid, again: true });
        }
    }
}

/// The tickets of a run, those that workers have, whether the kernel is to be asked for threads that are ready, how many workers are at work,
/// how many wait for something to do, and whether all are to stop, because memory ran out or because nothing can happen any more.
#[derive(Drop)]
pub struct Board<T: SharedTicket> {
    queue: Queue<T>,
    outside: Outside,
    asking: Asking,
    // The ticket of a free process that the last answer brought, until the worker who asked takes it.
    found: Option<T>,
    // Tickets that are ready have their turn, since the last task was to ask, or came of that.
    asked_last: bool,
    // The process of the thread by which something was told last, and those of which no ticket is handed out until the worker who asks is back.
    teller: Option<Pid>,
    held: Vec<Pid, Global>,
    at_work: u32,
    waiting: u32,
    // A worker that was woken, or is being started, hasn't come for its task yet.
    coming: bool,
    stops: bool,
}

impl<T: SharedTicket> Board<T> {
    /// A board without a ticket.
    pub fn new(alloc: Global) -> Board<T> {
        Board {
            queue: Queue::new(alloc),
            outside: Outside::new(alloc),
            asking: Asking::new(),
            found: None,
            asked_last: false,
            teller: None,
            held: Vec::new(alloc),
            at_work: 0,
            waiting: 0,
            coming: false,
            stops: false,
        }
    }

    /// Puts a ticket behind those that are ready. Where memory runs out, all workers are to stop.
    pub fn put(&mut self, ticket: T) {
        if self.queue.put(ticket).is_err() {
            self.stops = true;
        }
    }

    // Parks the ticket of a thread that waits in a call. Where memory runs out, all workers are to stop.
    fn park(&mut self, ticket: T) {
        if self.queue.park(ticket).is_err() {
            self.stops = true;
        }
    }

    /// Tells whether some thread may be ready by what a thread of this process did, or gone, whose ticket is parked.
    pub fn tell(&mut self, pid: Pid, news: bool) {
        if news {
            self.asking.tell();
            self.teller = Some(pid);
        }
    }

    // Has the kernel asked. Meanwhile no ticket is handed out of the process that told of something last, nor of one whose ticket comes back, as if
    // the worker who asks had one: else their threads could go far before those that wait have their answer, since the host may stop that worker.
    fn ask(&mut self) -> Task<T> {
        self.asked_last = true;
        if let Some(pid) = self.teller.take() {
            if !self.queue.is_held(pid) && self.queue.hold(pid).is_ok() {
                self.hold_back(pid);
            }
        }
        Task::Ask(self.asking.begin())
    }

    // Keeps a process, which is held, until the worker who asks is back. Where memory lacks for that it is free at once.
    fn hold_back(&mut self, pid: Pid) {
        if self.held.push(pid).is_err() {
            self.release(pid);
        }
    }

    // Notes that no worker has the process. Where memory runs out, all workers are to stop.
    fn release(&mut self, pid: Pid) {
        if self.queue.release(pid).is_err() {
            self.stops = true;
        }
    }

    // Puts the ticket of another thread of the process. Where memory runs out, all workers are to stop.
    fn put_beside(&mut self, ticket: &T, tid: Tid) {
        match ticket.beside(tid) {
            Ok(started) => self.put(started),
            Err(_) => self.stops = true,
        }
    }

    // Takes a ticket back that comes so. That of a thread that goes on, or that waits and was marked, stands behind those that are ready. A
    // thread that was made has a ticket from then on. One that has ended has none, and its ticket is given back.
    fn place(&mut self, ticket: T, back: Back) -> Option<T> {
        let again = self.outside.leave(ticket.pid());
        if self.asking.is_under_way() {
            self.hold_back(ticket.pid());
        } else {
            self.release(ticket.pid());
        }
        match back {
            Back::NoMemory => {
                self.stops = true;
                return Some(ticket);
            }
            Back::Leaves => return Some(ticket),
            Back::Runs => self.put(ticket),
            Back::Started(tid) => {
                self.put_beside(&ticket, tid);
                self.put(ticket);
            }
            Back::Waits => {
                if again {
                    self.put(ticket);
                } else {
                    self.park(ticket);
                }
            }
        }
        None
    }

    // A worker is at work no more.
    fn end_work(&mut self) {
        self.at_work = self.at_work.saturating_sub(1);
    }

    /// Takes a ticket back from the worker that had it, and before it that of the child that was made with it, if one was. What is given back is
    /// to be dropped once the board's lock is left: the last ticket of a process drops its memory.
    pub fn take_back(&mut self, ticket: T, back: Back, child: Option<T>) -> Option<T> {
        self.end_work();
        if let Some(child) = child {
            self.put(child);
        }
        self.place(ticket, back)
    }

    /// Takes what came of time from the worker that was to let it go on. Where it went on, or a thread is ready already, the kernel is to be
    /// asked for those that are.
    pub fn take_passed(&mut self, passed: Passed) {
        self.end_work();
        match passed {
            Passed::Jumped | Passed::Busy => self.asking.tell(),
            Passed::Stopped => self.stops = true,
        }
    }

    /// Takes the kernel's answer from the worker that was to ask. The parked ticket of the thread that it names is the worker's next task, if its
    /// process is free, and else becomes ready. One that a worker has is handed out once more where it comes back as that of a thread that
    /// waits.
    pub fn take_asked(&mut self, found: Option<(Pid, Tid)>) {
        self.end_work();
        for pid in &self.held {
            if self.queue.release(*pid).is_err() {
                self.stops = true;
            }
        }
        self.held.clear();
        if let Some(thread) = &found {
            self.take_ready(thread.0, thread.1);
        }
        self.asking.end(found);
    }

    // Sees to the ticket of a ready thread. One that is ready already stays where it is.
    fn take_ready(&mut self, pid: Pid, tid: Tid) {
        let Some(ticket) = self.queue.take_parked(pid, tid) else {
            self.outside.mark(pid, tid);
            return;
        };
        self.asking.bring();
        if self.queue.is_held(pid) {
            self.put(ticket);
        } else {
            self.found = Some(ticket);
        }
    }

    /// Takes out the ticket of a thread that has ended while it waited, if it is parked. It is to be dropped once the board's lock is left. One
    /// that isn't parked is ready, or comes back as that of a thread that waits: so it is handed out once more, and given back then.
    pub fn drop_parked(&mut self, pid: Pid, tid: Tid) -> Option<T> {
        let ticket = self.queue.take_parked(pid, tid);
        if ticket.is_none() {
            self.outside.mark(pid, tid);
        }
        ticket
    }

    // Hands out a ticket whose process is held. Where memory runs out, all workers are to stop.
    fn lend(&mut self, ticket: T) -> Task<T> {
        if self.outside.enter(ticket.pid(), ticket.tid()).is_err() {
            self.stops = true;
            return Task::Leave;
        }
        Task::Run(ticket)
    }

    // Hands out the ticket that was found, whose process is free.
    fn lend_found(&mut self, ticket: T) -> Task<T> {
        if self.queue.hold(ticket.pid()).is_err() {
            self.stops = true;
            return Task::Leave;
        }
        self.lend(ticket)
    }

    // Hands out the ticket that has been ready longest of those whose process no worker has, if there is one.
    fn lend_first(&mut self) -> Option<Task<T>> {
        match self.queue.take_free() {
            Ok(Some(ticket)) => {
                self.asked_last = false;
                Some(self.lend(ticket))
            }
            Ok(None) => None,
            Err(AllocError) => {
                self.stops = true;
                Some(Task::Leave)
            }
        }
    }

    // Whether the kernel may be asked. Where all parked tickets are of processes that workers have, no answer brings a task: then it is asked
    // once one of them is back.
    fn may_ask(&self) -> bool {
        self.asking.is_due() && self.queue.has_parked()
    }

    // Whether it is asked now. Where a ticket is ready, that has its turn before the next answer.
    fn asks(&self) -> bool {
        self.may_ask() && !(self.asked_last && self.queue.has_free())
    }

    // What a worker is to do: what was found as it asked; or to ask; or the ticket that has been ready longest of those whose process no other
    // worker has, since two workers of one process would fight for its memory lock. Where none is ready, nobody is to be asked for, none is at
    // work and some are parked, time is to go on.
    fn task(&mut self) -> Task<T> {
        if let Some(ticket) = self.found.take() {
            return self.lend_found(ticket);
        }
        if self.asks() {
            return self.ask();
        }
        if let Some(task) = self.lend_first() {
            return task;
        }
        if self.at_work == 0 && self.queue.parked_count() > 0 {
            return Task::Idle;
        }
        Task::Leave
    }

    /// What a worker is to do that waits no more. It is at work until it is done with it.
    pub fn hand_out(&mut self) -> Task<T> {
        if self.stops {
            return Task::Leave;
        }
        let task = self.task();
        if !matches!(task, Task::Leave) {
            self.at_work = self.at_work.saturating_add(1);
        }
        task
    }

    // Whether there is a task for a worker beside those that are at work.
    fn has_task(&self) -> bool {
        self.found.is_some() || self.may_ask() || self.queue.has_free()
    }

    /// Whether a worker is to wait: no ticket of a free process is ready, and no answer of the kernel can bring one. But some worker is at work,
    /// by which a ticket may come back, a process become free, or something be told.
    pub fn waits(&self) -> bool {
        !self.stops && self.at_work > 0 && !self.has_task()
    }

    /// Counts a worker that begins to wait.
    pub fn begin_waiting(&mut self) {
        self.waiting = self.waiting.saturating_add(1);
    }

    /// Whether a worker that waits is to wait on, each time that it is awake and has the board. It has come then.
    pub fn waits_on(&mut self) -> bool {
        self.coming = false;
        self.waits()
    }

    /// Counts a worker that waits no more.
    pub fn end_waiting(&mut self) {
        self.waiting = self.waiting.saturating_sub(1);
    }

    /// Notes that a worker that was started has come.
    pub fn begin_work(&mut self) {
        self.coming = false;
    }

    // Whether there is a task, or all are to leave, and no worker is on its way to the board. While a worker asks the kernel none is called: it
    // comes back at once.
    fn calls(&self) -> bool {
        !self.coming && !self.asking.is_under_way() && !self.waits()
    }

    // No worker waits in vain. Tickets become ready, processes free, workers fewer and the kernel is to be asked by what is taken and told, and
    // `hand_out` only makes a process busy, or has the kernel asked, or stops all. Who comes with one of these takes the first task itself. If
    // another one is left then, or all are to leave, one that waits is woken, takes the next, and is asked the same. If somebody else takes that
    // task before, it waits on, and that one is asked. Who asks the kernel comes with its answer, and wakes then whom nobody woke meanwhile.
    //
    // Nobody is woken while one that was woken is on its way, since that one sees all that came meanwhile: it takes a task, and is asked the
    // same, or finds none. It does come: where `coming` is set some worker waits, and whoever set it wakes one after that. If none sleeps then,
    // those that waited are awake, and the first of them that has the board notes that it has come.
    /// Whether a worker that waits is to be woken, which is on its way from then on. It is asked after each `take_back`, `take_passed`,
    /// `take_asked` and `hand_out`, under the lock under which these were, and who is told so wakes one that waits.
    pub fn rings(&mut self) -> bool {
        let rings = self.waiting > 0 && self.calls();
        if rings {
            self.coming = true;
        }
        rings
    }

    /// Whether a worker is to be started, which is on its way from then on: there is a task, and no worker waits or is on its way. It is asked
    /// after `rings`, under the same lock. The new worker calls `begin_work` when it has the board, as does who can't start it.
    pub fn wants_worker(&mut self) -> bool {
        let wants = self.waiting == 0 && !self.stops && self.has_task() && self.calls();
        if wants {
            self.coming = true;
        }
        wants
    }
}
