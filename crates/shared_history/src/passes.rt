//! Passes: each process has one, which says how much of the history was seen for it.
ghost use Rattle.std.specs.Prelude.{◌≡◌};
ghost use Rattle.shared_history.specs.Passes.{seen_of, IsPassOf};

use crate::rule::{OneHistory, View};
use abi_types::Pid;
use atomic_table::{Badge, Table};
use run_types::{Entry, Launch};
use std::alloc::Global;
use std::marker::{Brand, Model, PhantomData};
use std::mem;

/// Names one run: its table of passes, its launch, and whether all its entries are kept in memory. Contracts alone see it.
/// The values of one name belong together.
pub trait Naming {
    ghost use Rattle.std.specs.Prelude.{Bool};
    ghost use Rattle.atomic_table.specs.Seated.{TableId};
    ghost use Rattle.run_types.specs.declared.launch.Launch.{Launch};

    ghost table: { TableId };

    ghost launch: { Launch };

    ghost keeps_all: { Bool };
}

impl Naming for Brand {
    ghost use Rattle.std.specs.Prelude.{false};
    ghost use Rattle.shared_history.specs.Names.{no_table, no_launch};

    ghost table = { no_table };

    ghost launch = { no_launch };

    ghost keeps_all = { false };
}

/// The table of a run's passes, which threads share.
#[derive(Drop)]
pub struct Passes<J: Naming> {
    pub(crate) table: Table<Entry, View, Launch, OneHistory, Global>,
    of: PhantomData<J>,
    ghost table_is: { table.shared.table_id ≡ J.table },
    ghost launch_is: { table.shared.key ≡ J.launch },
    ghost one_word: { table.shared.table_id.words ≡ 1 },
}

impl<J: Naming> Passes<J> {
    /// The table under a name.
    pub fn new(table: Table<Entry, View, Launch, OneHistory, Global>) -> Passes<J>
        requires table { table.shared.table_id ≡ J.table }
        requires launch { table.shared.key ≡ J.launch }
        requires words { table.shared.table_id.words ≡ 1 }
    {
        Passes {
            table,
            of: PhantomData,
        }
    }
}

/// The pass of a process. Contracts see the process and the history that was seen for it, which is a beginning of the run's
/// history with all entries of the process. No process has two.
#[derive(Drop)]
pub struct Pass<J: Naming> {
    /// The process.
    pub pid: Pid,
    /// What stands for the process at the table. It is open so that a pass behind a reference can be lent, and another put in its place.
    pub badge: Badge<View>,
    pub(crate) of: PhantomData<J>,
}

impl<J: Naming> Model for Pass<J> {
    ghost use Rattle.shared_history.specs.Passes.{Passing, seen_of, IsPassOf};

    ghost Value = { Passing };

    ghost view = { λ p. record { pid = p.pid; seen = seen_of p.badge.views } };

    ghost invariant = { λ p. IsPassOf J.table J.launch p.pid p.badge.table_id p.badge.views };
}

impl<J: Naming> Pass<J> {
    /// The pass with this badge, whose place is left blank.
    pub fn lent(pid: Pid, badge: &mut Badge<View>) -> Pass<J>
        requires { IsPassOf J.table J.launch pid badge.old.table_id badge.old.views }
        ensures { result ≡ record { pid = pid; seen = seen_of badge.old.views } }
    {
        Pass {
            pid,
            badge: mem::replace(badge, Badge::blank()),
            of: PhantomData,
        }
    }

    /// The process.
    pub fn pid(&self) -> Pid
        ensures { result ≡ self.now.pid }
    {
        self.pid
    }
}
