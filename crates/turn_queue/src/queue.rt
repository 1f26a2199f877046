//! A queue of tickets: those that are ready, first come first served, and those that are parked, which are found by their threads.
ghost use Rattle.std.specs.Prelude.{◌≡◌, ◌==◌, ◌*◌, ◌+◌, ◌/◌, ◌^◌, ◌&&◌, not, cond, true, false, ℕ, is_some, OnOk, OnErr, IfOk, IfErr, IfSome, None};
ghost use Rattle.std.specs.FinMap as map;
ghost use Rattle.std.specs.List.{list_any};
ghost use Rattle.maps.specs.Maps.{least_key};
ghost use Rattle.turn_queue.specs.Numbered.{is_free};
ghost use Rattle.turn_queue.specs.Tickets.{held, none, number_of, put_or_parked, released, with_parked, with_ready, without, IsTicketOf, MayTake, NoneParked, SomeParked, StandsUnder};

use crate::ready_tickets::{ReadyTickets, key_of, note};
use abi_base::{Pid, Tid};
use maps::NumMap;
use std::alloc::{AllocError, Global};
use std::marker::Model;

/// The right to run a thread: who has its ticket runs it, and nobody else does.
pub trait Ticket {
    ghost use Rattle.std.specs.Prelude.{◌≡◌, ℕ};

    ghost process: { Self → ℕ };

    ghost thread: { Self → ℕ };

    /// The thread's process.
    fn pid(&self) -> Pid
        ensures { result ≡ process self.now };

    /// The thread's number in its process.
    fn tid(&self) -> Tid
        ensures { result ≡ thread self.now };
}

/// Tickets that are ready, which contracts see as a list, tickets that are parked, which they see as a finite map from the numbers of threads,
/// and the processes that workers have. Each ticket is in one place: it is ready, or parked, or outside with who took it. No answer takes a look
/// at more than a few tickets, however many there are.
#[derive(Drop)]
pub struct Queue<T: Ticket> {
    ready: ReadyTickets<T>,
    parked: NumMap<T>,
    // The processes that have a parked ticket and that no worker has.
    idle: NumMap<()>,
}

impl<T: Ticket> Model for Queue<T> {
    ghost use Rattle.turn_queue.specs.Tickets.{Tickets};

    ghost Value = { Tickets T };

    ghost use Rattle.turn_queue.specs.Codes.{tickets_code};

    ghost coded = { tickets_code T.code };

    ghost use Rattle.std.specs.FinMap as map;
    ghost use Rattle.turn_queue.specs.Tickets.{IsQueue};

    ghost view = { λ q. record { ready = map.values q.ready.tickets; parked = q.parked; busy = q.ready.busy } };

    ghost invariant = { λ q. IsQueue T.process T.thread q.parked q.ready.busy q.idle };
}

impl<T: Ticket> Queue<T> {
    /// A queue without a ticket.
    pub fn new(alloc: Global) -> Queue<T>
        ensures { result ≡ none }
    {
        Queue {
            ready: ReadyTickets::new(alloc),
            parked: NumMap::new(alloc),
            idle: NumMap::new(alloc),
        }
    }

    /// Whether a ticket is ready of a process that no worker has.
    pub fn has_free(&self) -> bool
        ensures { result ≡ list_any (is_free T.process self.now.busy) self.now.ready }
    {
        self.ready.first_free().is_some()
    }

    /// How many tickets are parked.
    pub fn parked_count(&self) -> usize
        ensures { result ≡ map.len self.now.parked }
    {
        self.parked.len()
    }

    /// Whether a ticket is parked of a process that no worker has.
    pub fn has_parked(&self) -> bool
        ensures some { result ≡ true → SomeParked T.process self.now.busy self.now.parked }
        ensures none { result ≡ false → NoneParked T.process self.now.busy self.now.parked }
    {
        self.idle.first_from(0).is_some()
    }

    /// Whether a worker has the process.
    pub fn is_held(&self, pid: Pid) -> bool
        ensures { result ≡ map.contains_key self.now.busy pid }
    {
        self.ready.is_busy(pid)
    }

    /// Puts a ticket behind those that are ready. `Err` gives it back where memory ran out.
    pub fn put(&mut self, ticket: T) -> Result<(), T>
        ensures ok { OnOk result (self.new ≡ with_ready ticket self.old) }
        ensures err { IfErr result (λ back. (back ≡ ticket) × (self.new ≡ self.old)) }
    {
        self.ready.put(ticket)
    }

    /// Takes the ticket that has been ready longest of those whose process no worker has, and notes that a worker has its process. The others keep
    /// their order. `None` exactly where there is no such ticket, `Err` where memory ran out.
    pub fn take_free(&mut self) -> Result<Option<T>, AllocError>
        ensures ok { IfOk result (λ taken. MayTake T.process taken self.old self.new) }
        ensures err { OnErr result (self.new ≡ self.old) }
    {
        match self.ready.take_free() {
            Ok(Some(ticket)) => {
                self.idle.remove(key_of(ticket.pid()));
                Ok(Some(ticket))
            }
            Ok(None) => Ok(None),
            Err(failed) => Err(failed),
        }
    }

    /// Parks a ticket. It becomes ready, behind those that are, where one of the same thread is parked already. `Err` gives the ticket back where
    /// memory ran out.
    pub fn park(&mut self, ticket: T) -> Result<(), T>
        ensures ok { OnOk result (self.new ≡ put_or_parked (number_of (T.process ticket) (T.thread ticket)) ticket self.old) }
        ensures err { IfErr result (λ back. (back ≡ ticket) × (self.new ≡ self.old)) }
    {
        let pid = ticket.pid();
        let number = number_of(pid, ticket.tid());
        if self.parked.contains(number) {
            return self.put(ticket);
        }
        self.park_first(pid, number, ticket)
    }

    // Parks a ticket of a thread of which none is parked. `Err` gives it back where memory ran out.
    fn park_first(&mut self, pid: Pid, number: u64, ticket: T) -> Result<(), T>
        requires none { map.get self.now.parked number ≡ None }
        requires pid { pid ≡ T.process ticket }
        requires number { StandsUnder T.process T.thread number ticket }
        ensures ok { OnOk result (self.new ≡ with_parked number ticket self.old) }
        ensures err { IfErr result (λ back. (back ≡ ticket) × (self.new ≡ self.old)) }
    {
        let enters = is_missing(&self.ready, &self.idle, pid);
        let Ok(()) = enter(&mut self.idle, pid, enters) else {
            return Err(ticket);
        };
        match self.parked.insert(number, ticket) {
            Ok(None) => Ok(()),
            // None was parked of the thread.
            Ok(Some(other)) => Err(other),
            Err(failed) => {
                leave(&mut self.idle, pid, enters);
                Err(failed.value.1)
            }
        }
    }

    /// Takes the parked ticket of a thread. `None` exactly where none is parked of it.
    pub fn take_parked(&mut self, pid: Pid, tid: Tid) -> Option<T>
        ensures value { result ≡ map.get self.old.parked (number_of pid tid) }
        ensures whose { IfSome result (IsTicketOf T.process T.thread pid tid) }
        ensures new { self.new ≡ without (number_of pid tid) self.old }
    {
        let ticket = self.parked.remove(number_of(pid, tid))?;
        let leaves = !has_beside(&self.parked, pid);
        leave(&mut self.idle, pid, leaves);
        Some(ticket)
    }

    /// Notes that a worker has the process. `Err` where memory ran out.
    pub fn hold(&mut self, pid: Pid) -> Result<(), AllocError>
        ensures ok { OnOk result (self.new ≡ held pid self.old) }
        ensures err { OnErr result (self.new ≡ self.old) }
    {
        self.ready.hold(pid)?;
        self.idle.remove(key_of(pid));
        Ok(())
    }

    /// Notes that no worker has the process. `Err` where memory ran out.
    pub fn release(&mut self, pid: Pid) -> Result<(), AllocError>
        ensures ok { OnOk result (self.new ≡ released pid self.old) }
        ensures err { OnErr result (self.new ≡ self.old) }
    {
        if !self.ready.is_busy(pid) {
            return Ok(());
        }
        let enters = has_beside(&self.parked, pid);
        enter(&mut self.idle, pid, enters)?;
        match self.ready.release(pid) {
            Ok(()) => Ok(()),
            Err(failed) => {
                self.idle.remove(key_of(pid));
                Err(failed)
            }
        }
    }
}

// The number of a thread of all threads.
fn number_of(pid: Pid, tid: Tid) -> u64
    ensures { result ≡ number_of pid tid }
{
    u64::from(pid.0) * 0x1_0000_0000 + u64::from(tid.0)
}

// Whether one of these, which stand under the numbers of their threads, is of the process.
fn has_beside<T>(parked: &NumMap<T>, pid: Pid) -> bool
    ensures { result ≡ is_some (least_key (λ number _. number / 2 ^ 32 == pid) parked.now) }
{
    match parked.first_from(number_of(pid, Tid(0))) {
        Some(number) => number / 0x1_0000_0000 == key_of(pid),
        None => false,
    }
}

// Whether the process is to be noted as idle, once a ticket of it is parked.
fn is_missing<T: Ticket>(ready: &ReadyTickets<T>, idle: &NumMap<()>, pid: Pid) -> bool
    ensures { result ≡ (not (map.contains_key ready.now.busy pid) && not (map.contains_key idle.now pid)) }
{
    !ready.is_busy(pid) && !idle.contains(key_of(pid))
}

// Notes a process, if it is to be noted. `Err` where memory ran out.
fn enter(idle: &mut NumMap<()>, pid: Pid, enters: bool) -> Result<(), AllocError>
    ensures ok { OnOk result (idle.new ≡ cond enters (map.insert idle.old pid tt) idle.old) }
    ensures err { OnErr result (idle.new ≡ idle.old) }
{
    if enters {
        return note(idle, pid);
    }
    Ok(())
}

// Forgets a process, if it is to be forgotten.
fn leave(idle: &mut NumMap<()>, pid: Pid, leaves: bool)
    ensures { idle.new ≡ cond leaves (map.remove idle.old pid) idle.old }
{
    if leaves {
        idle.remove(key_of(pid));
    }
}
