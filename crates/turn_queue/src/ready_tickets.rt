//! The tickets that are ready, in the order in which they came, and the processes that workers have.
ghost use Rattle.std.specs.Prelude.{◌≡◌, ◌+◌, ◌*◌, ◌-◌, ◌/◌, ◌^◌, ◌<◌, ◌==◌, true, ℕ, OnOk, OnErr, IfOk, IfErr, IfSome, None, Some, option_map};
ghost use Rattle.std.specs.FinMap as map;
ghost use Rattle.turn_queue.specs.Numbered.{first_free, first_if_put, first_of, led_by, led_no_more, none_numbered, number_beside, place_of, with_busy, with_free, with_last, without_number, TakesFirst};

use crate::queue::Ticket;
use crate::wide_set::WideSet;
use abi_base::Pid;
use maps::NumMap;
use std::alloc::{AllocError, Global};
use std::marker::Model;

// How tickets are found, which are told by their numbers.
#[derive(Drop)]
struct Lines {
    // The tickets of each process, in the order of their numbers.
    places: WideSet,
    // The first ticket of each process that has one and that no worker has, with the process.
    firsts: NumMap<Pid>,
}

impl Lines {
    // Adds a ticket. If there is a first one by it, that leads to its process. `Err` where memory ran out.
    fn add(&mut self, pid: Pid, number: u64, first: Option<u64>) -> Result<(), AllocError>
        requires { IfSome first (λ n. map.get self.now.firsts n ≡ None) }
        ensures places { OnOk result (self.new.places ≡ map.insert self.old.places (place_of pid number) tt) }
        ensures firsts { OnOk result (self.new.firsts ≡ led_by pid first self.old.firsts) }
        ensures err_places { OnErr result (self.new.places ≡ self.old.places) }
        ensures err_firsts { OnErr result (self.new.firsts ≡ self.old.firsts) }
    {
        self.lead(pid, first)?;
        match self.places.insert(place_of(pid, number)) {
            Ok(()) => Ok(()),
            Err(failed) => {
                self.lead_no_more(first);
                Err(failed)
            }
        }
    }

    // Has the first ticket of a free process, if it has one, lead to it. `Err` where memory ran out.
    fn lead(&mut self, pid: Pid, first: Option<u64>) -> Result<(), AllocError>
        ensures places { self.new.places ≡ self.old.places }
        ensures ok { OnOk result (self.new.firsts ≡ led_by pid first self.old.firsts) }
        ensures err { OnErr result (self.new.firsts ≡ self.old.firsts) }
    {
        let Some(number) = first else {
            return Ok(());
        };
        self.firsts.insert(number, pid)?;
        Ok(())
    }

    // Has the first ticket of a process, if it has one, lead to it no more.
    fn lead_no_more(&mut self, first: Option<u64>)
        ensures places { self.new.places ≡ self.old.places }
        ensures firsts { self.new.firsts ≡ led_no_more first self.old.firsts }
    {
        if let Some(number) = first {
            self.firsts.remove(number);
        }
    }

    // Takes off again what was added.
    fn take_off(&mut self, pid: Pid, number: u64)
        ensures places { self.new.places ≡ map.remove self.old.places (place_of pid number) }
        ensures firsts { self.new.firsts ≡ map.remove self.old.firsts number }
    {
        self.places.remove(place_of(pid, number));
        self.firsts.remove(number);
    }
}

/// Tickets that are ready, and the processes that workers have. Contracts see the tickets as a finite map from the numbers with which they came.
/// The first ticket of a free process is found at one look, and a process without a ticket that no worker has leaves no trace.
#[derive(Drop)]
pub struct ReadyTickets<T: Ticket> {
    tickets: NumMap<T>,
    next: u64,
    lines: Lines,
    busy: NumMap<()>,
}

impl<T: Ticket> Model for ReadyTickets<T> {
    ghost use Rattle.turn_queue.specs.Numbered.{Numbered};

    ghost Value = { Numbered T };

    ghost use Rattle.turn_queue.specs.Codes.{numbered_code};

    ghost coded = { numbered_code T.code };

    ghost use Rattle.turn_queue.specs.Numbered.{IsNumbered};

    ghost view = { λ q. record { tickets = q.tickets; next = q.next; busy = q.busy } };

    ghost invariant = { λ q. IsNumbered T.process q.tickets q.next q.lines.places q.lines.firsts q.busy };
}

impl<T: Ticket> ReadyTickets<T> {
    /// No ticket, and no process.
    pub fn new(alloc: Global) -> ReadyTickets<T>
        ensures { result ≡ none_numbered }
    {
        let lines = Lines {
            places: WideSet::new(alloc),
            firsts: NumMap::new(alloc),
        };
        ReadyTickets {
            tickets: NumMap::new(alloc),
            next: 0,
            lines,
            busy: NumMap::new(alloc),
        }
    }

    /// Whether a worker has the process.
    pub fn is_busy(&self, pid: Pid) -> bool
        ensures { result ≡ map.contains_key self.now.busy pid }
    {
        self.busy.contains(key_of(pid))
    }

    /// The number of the first ticket whose process no worker has.
    pub fn first_free(&self) -> Option<u64>
        ensures { result ≡ first_free T.process self.now }
    {
        self.lines.firsts.first_from(0)
    }

    // The number of the first ticket of a process.
    fn first_of(&self, pid: Pid) -> Option<u64>
        ensures { result ≡ first_of T.process pid self.now.tickets }
    {
        let Some(place) = self.lines.places.first_from(place_of(pid, 0)) else {
            return None;
        };
        number_beside(pid, place)
    }

    // The number of a ticket of the process that comes now, if it is the first one of a free process.
    fn first_if_put(&self, pid: Pid) -> Option<u64>
        ensures { result ≡ first_if_put T.process pid self.now }
    {
        if !self.is_busy(pid) && self.first_of(pid).is_none() {
            return Some(self.next);
        }
        None
    }

    // The process of the ticket with this number.
    fn pid_at(&self, number: u64) -> Option<Pid>
        ensures { result ≡ option_map T.process (map.get self.now.tickets number) }
    {
        match self.tickets.get(number) {
            Some(ticket) => Some(ticket.pid()),
            None => None,
        }
    }

    /// Puts a ticket behind the others. `Err` gives it back where memory or numbers ran out.
    pub fn put(&mut self, ticket: T) -> Result<(), T>
        ensures ok { OnOk result (self.new ≡ with_last ticket self.old) }
        ensures last { (n : ℕ) (other : T) → map.get self.old.tickets n ≡ Some other → n < self.old.next }
        ensures err { IfErr result (λ back. (back ≡ ticket) × (self.new ≡ self.old)) }
    {
        let number = self.next;
        let Some(next) = number.checked_add(1) else {
            return Err(ticket);
        };
        let pid = ticket.pid();
        let first = self.first_if_put(pid);
        let Ok(()) = self.lines.add(pid, number, first) else {
            return Err(ticket);
        };
        match self.tickets.insert(number, ticket) {
            Ok(None) => {
                self.next = next;
                Ok(())
            }
            // No ticket has the next number.
            Ok(Some(other)) => Err(other),
            Err(failed) => {
                self.lines.take_off(pid, number);
                Err(failed.value.1)
            }
        }
    }

    // Takes the ticket with this number, whose process a worker has.
    fn take(&mut self, number: u64) -> Option<T>
        requires { (ticket : T) → map.get self.now.tickets number ≡ Some ticket → map.contains_key self.now.busy (T.process ticket) ≡ true }
        ensures value { result ≡ map.get self.old.tickets number }
        ensures new { self.new ≡ without_number number self.old }
    {
        let ticket = self.tickets.remove(number)?;
        self.lines.places.remove(place_of(ticket.pid(), number));
        Some(ticket)
    }

    /// Notes that a worker has the process. `Err` where memory ran out.
    pub fn hold(&mut self, pid: Pid) -> Result<(), AllocError>
        ensures ok { OnOk result (self.new ≡ with_busy pid self.old) }
        ensures err { OnErr result (self.new ≡ self.old) }
    {
        let first = self.first_of(pid);
        note(&mut self.busy, pid)?;
        self.lines.lead_no_more(first);
        Ok(())
    }

    /// Notes that no worker has the process. `Err` where memory ran out.
    pub fn release(&mut self, pid: Pid) -> Result<(), AllocError>
        ensures ok { OnOk result (self.new ≡ with_free pid self.old) }
        ensures err { OnErr result (self.new ≡ self.old) }
    {
        let first = self.first_of(pid);
        self.lines.lead(pid, first)?;
        self.busy.remove(key_of(pid));
        Ok(())
    }

    /// Takes the first ticket of a process that no worker has, and notes that a worker has that one. `Err` where memory ran out.
    pub fn take_free(&mut self) -> Result<Option<T>, AllocError>
        ensures ok { IfOk result (λ taken. TakesFirst T.process taken self.old self.new) }
        ensures err { OnErr result (self.new ≡ self.old) }
    {
        let Some(number) = self.first_free() else {
            return Ok(None);
        };
        let Some(pid) = self.pid_at(number) else {
            return Ok(None);
        };
        self.hold(pid)?;
        Ok(self.take(number))
    }
}

/// The key of a process in maps.
pub fn key_of(pid: Pid) -> u64
    ensures { result ≡ pid }
{
    u64::from(pid.0)
}

/// Puts a process to these. `Err` where memory ran out.
pub fn note(pids: &mut NumMap<()>, pid: Pid) -> Result<(), AllocError>
    ensures ok { OnOk result (pids.new ≡ map.insert pids.old pid tt) }
    ensures err { OnErr result (pids.new ≡ pids.old) }
{
    pids.insert(key_of(pid), ())?;
    Ok(())
}

// Where the ticket with this number stands of those of the process.
fn place_of(pid: Pid, number: u64) -> u128
    ensures { result ≡ place_of pid number }
{
    u128::from(pid.0) * 0x1_0000_0000_0000_0000 + u128::from(number)
}

// The number of the ticket at this place, if it is one of the process.
fn number_beside(pid: Pid, place: u128) -> Option<u64>
    ensures { result ≡ number_beside pid place }
{
    if place / 0x1_0000_0000_0000_0000 != u128::from(pid.0) {
        return None;
    }
    Some((place - place_of(pid, 0)) as u64)
}
