//! Tickets under names, for the tests of the queue and of the board.
ghost use Rattle.std.specs.Prelude.{◌≡◌};

use abi_base::{Pid, Tid};
use std::alloc::AllocError;
use turn_queue::{SharedTicket, Ticket};

/// A ticket of a thread, under a name.
#[derive(Clone, Copy, Drop)]
pub struct Named {
    pid: Pid,
    tid: Tid,
    pub name: char,
}

impl Ticket for Named {
    ghost process = { λ ticket. ticket.pid };

    ghost thread = { λ ticket. ticket.tid };

    fn pid(&self) -> Pid {
        self.pid
    }

    fn tid(&self) -> Tid {
        self.tid
    }
}

// The names of all tickets.
const NAMES: &str = "abcde";

/// The ticket of this name. Those of a and b are of one process, as are those of c and d. Those of a, c and e are of threads of one number.
pub fn ticket(name: char) -> Named {
    let (pid, tid) = match name {
        'a' => (Pid(0), Tid(1)),
        'b' => (Pid(0), Tid(2)),
        'c' => (Pid(7), Tid(1)),
        'd' => (Pid(7), Tid(2)),
        _ => (Pid(9), Tid(1)),
    };
    Named { pid, tid, name }
}

/// The name of the ticket of this thread.
pub fn name_of(pid: Pid, tid: Tid) -> Option<char> {
    NAMES.chars().find(|name| {
        let named = ticket(*name);
        named.pid.0 == pid.0 && named.tid.0 == tid.0
    })
}

impl SharedTicket for Named {
    fn beside(&self, tid: Tid) -> Result<Named, AllocError> {
        match name_of(self.pid, tid) {
            Some(name) => Ok(ticket(name)),
            None => Err(AllocError),
        }
    }
}
