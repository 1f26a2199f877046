//! The kernel behind its lock, as threads share it, from the begin of a run to its book.
ghost use Rattle.std.specs.Prelude.{◌≡◌, [], IfOk};
ghost use Rattle.call_codec.specs.Bounded.{IsBounded};
ghost use Rattle.run_model.specs.World.{world};
ghost use Rattle.guest_process.specs.Children.{IsFork};
ghost use Rattle.kernel_cell.specs.Acting.{IsActed, IsForked, Looked};
ghost use Rattle.kernel_cell.specs.Asking.{Asks, AsksCall};
ghost use Rattle.kernel_cell.specs.Cell.{IsBookOf};

use crate::locked::Locked;
use crate::results::{After, Asked, Body, Came, Idled};
use abi_types::{Call, Pid, Tid};
use atomic_table::{Seat, Table};
use guest_process::{FIRST, Guest};
use kernel_core::Kernel;
use run_types::{Entry, Launch};
use shared_history::{Keeper, Kept, Naming, OneHistory, Pass, Passes, Past, View};
use std::alloc::{AllocError, Global};
use std::marker::Model;
use std::sync::{Mutex, Wait};

/// A run that has begun, and has no name yet. Contracts see what its name is to stand for.
#[derive(Drop)]
pub struct Begun {
    table: Table<Entry, View, Launch, OneHistory, Global>,
    seat: Seat<Entry, View>,
    kernel: Kernel,
    launch: Launch,
    kept: Kept,
    alloc: Global,
}

impl Model for Begun {
    ghost use Rattle.shared_history.specs.Names.{Name, name_code};

    ghost Value = { Name };

    ghost coded = { name_code };

    ghost use Rattle.kernel_cell.specs.Cell.{HasBegun};

    ghost view = { λ b. record { table = b.table.shared.table_id; launch = b.launch; keeps_all = b.kept.all } };

    ghost invariant = { λ b. HasBegun b.launch b.table.shared.table_id b.seat.table_id b.table.shared.key b.seat.me b.kernel b.kept };
}

impl Begun {
    /// Begins a run of a launch, of which the denied calls are kept in memory, and where `all` is set the entries. `Err` where memory ran out.
    pub fn begin(alloc: Global, launch: Launch, all: bool) -> Result<Begun, AllocError>
        requires { IsBounded launch }
        ensures launch { IfOk result (λ begun. begun.launch ≡ launch) }
        ensures all { IfOk result (λ begun. begun.keeps_all ≡ all) }
    {
        let kernel = Kernel::start(alloc, &launch)?;
        let (table, seat) = Table::of_words(alloc, &[0], &launch)?;
        Ok(Begun {
            table,
            seat,
            kernel,
            launch,
            kept: Kept::new(alloc, all),
            alloc,
        })
    }

    /// The run under its name, and the pass of process 0.
    pub fn named<J: Naming>(self) -> (Cell<J>, Pass<J>)
        requires table { self.table ≡ J.table }
        requires launch { self.launch ≡ J.launch }
        requires all { self.keeps_all ≡ J.keeps_all }
        ensures { result.1 ≡ record { pid = 0; seen = [] } }
    {
        let Begun {
            table,
            seat,
            kernel,
            launch,
            kept,
            alloc,
        } = self;
        let passes = Passes::new(table);
        let mut keeper = Keeper::new(seat);
        let pass = keeper.hand_out(&passes, FIRST);
        let locked = Locked {
            kernel,
            constants: launch.constants,
            keeper,
            kept,
            alloc,
        };
        let cell = Cell {
            passes,
            guarded: Mutex::new(Guarded { locked }),
            launch,
        };
        (cell, pass)
    }
}

// What stands behind the lock. Its history is legal, and the kernel's state is its world's.
#[derive(Drop)]
struct Guarded<J: Naming> {
    locked: Locked<J>,
}

impl<J: Naming> Model for Guarded<J> {
    ghost use Rattle.std.specs.Prelude.{List};
    ghost use Rattle.run_types.specs.declared.history.Entry.{Entry};
    ghost use Rattle.kernel_cell.specs.Recorded.{IsInOrder};

    ghost Value = { List Entry };

    ghost view = { λ g. g.locked.keeper.log };

    ghost invariant = { λ g. IsInOrder J.launch J.keeps_all g.locked };
}

/// A run's kernel with its history behind a lock, and the table of its passes. The threads of a run share it.
#[derive(Drop)]
pub struct Cell<J: Naming> {
    passes: Passes<J>,
    guarded: Mutex<Guarded<J>>,
    launch: Launch,
    ghost launch_is: { launch ≡ J.launch },
}

/// What is left of a run that is over: its kernel, its launch, its history, and what was kept of it in memory.
#[derive(Drop)]
pub struct Book {
    pub kernel: Kernel,
    pub launch: Launch,
    pub history: Past,
    pub kept: Kept,
}

impl<J: Naming> Cell<J> {
    /// The run's launch.
    pub fn launch(&self) -> &Launch
        ensures { result.now ≡ J.launch }
    {
        &self.launch
    }

    /// What a thread asks for, which is no proc_fork, after the turns of its process that no entry has yet: its guest, which is the process's at
    /// that, gets the answer to its call. Where the thread waits, that is the call that it waits in, and the answer is a reply, or the words that
    /// are written where it waits on.
    pub fn act<R: Wait>(
        &self,
        rt: &R,
        pass: &mut Pass<J>,
        body: &mut Body,
        tid: Tid,
        what: Asked,
        told: &mut bool,
    ) -> Came<After>
        requires { Asks (world J.launch pass.old.seen) pass.old.pid tid body.old what }
        ensures acted { IsActed J.launch pass.old tid body.old what body.new pass.new result }
    {
        self.guarded
            .lock(rt)
            .locked
            .act(&self.passes, pass, body, tid, what, told)
    }

    /// A thread's proc_fork, after the turns of its process that no entry has yet. Its guest is the process's at that call, and gets the
    /// answer. With the child's pass comes the guest that the child begins with.
    pub fn fork<R: Wait>(
        &self,
        rt: &R,
        pass: &mut Pass<J>,
        body: &mut Body,
        tid: Tid,
        call: Call,
        told: &mut bool,
    ) -> Came<Option<(Pass<J>, Guest)>>
        requires asks { AsksCall (world J.launch pass.old.seen) pass.old.pid tid body.old.turns body.old.guest call }
        requires fork { IsFork call }
        ensures forked { IsForked J.launch pass.old tid body.old call body.new pass.new result }
    {
        self.guarded
            .lock(rt)
            .locked
            .fork(&self.passes, pass, body, tid, call, told)
    }

    /// Lets time go to the next deadline where no thread takes turns or is ready.
    pub fn idle<R: Wait>(&self, rt: &R) -> Idled {
        self.guarded.lock(rt).locked.idle(&self.passes)
    }

    /// The ready thread with the least numbers behind this one, or of all.
    pub fn next_ready<R: Wait>(&self, rt: &R, after: Option<(Pid, Tid)>) -> Option<(Pid, Tid)> {
        self.guarded.lock(rt).locked.next_ready(after)
    }

    /// A thread that waited and is no more, of which nobody was told.
    pub fn take_gone<R: Wait>(&self, rt: &R) -> Option<(Pid, Tid)> {
        self.guarded.lock(rt).locked.take_gone()
    }

    /// Whether the pass's process is live.
    pub fn look<R: Wait>(&self, rt: &R, pass: &mut Pass<J>) -> bool
        ensures { Looked J.launch pass.old pass.new result }
    {
        self.guarded.lock(rt).locked.look(&self.passes, pass)
    }

    /// Takes back the pass of a process that needs it no more.
    pub fn spend<R: Wait>(&self, rt: &R, pass: Pass<J>) {
        self.guarded.lock(rt).locked.spend(&self.passes, pass);
    }

    /// The book of the run, once no thread shares it any more.
    pub fn close(self) -> Book
        ensures { IsBookOf J.launch J.keeps_all result }
    {
        let Cell {
            passes: _,
            guarded,
            launch,
        } = self;
        let Guarded { locked } = guarded.into_inner();
        let Locked {
            kernel,
            constants: _,
            keeper,
            kept,
            alloc: _,
        } = locked;
        Book {
            kernel,
            launch,
            history: keeper.into_past(),
            kept,
        }
    }
}
