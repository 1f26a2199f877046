//! The keeper of the history: what the seat behind the lock knows, and its steps on the table of passes. This is the only file
//! that touches seats and their views.
ghost use Rattle.std.specs.Prelude.{◌≡◌, ℕ, ◌^◌, ◌<◌, [], ◌∷◌, ◌++◌, length, Contains};
ghost use Rattle.run_model.specs.Legal.{Fits};
ghost use Rattle.run_model.specs.Own.{born};
ghost use Rattle.run_model.specs.World.{world};
ghost use Rattle.shared_history.specs.Entries.{act_of, answered_call};
ghost use Rattle.shared_history.specs.Keeper.{IsAtRest};
ghost use Rattle.shared_history.specs.Passes.{IsSeen, Later};
ghost use Rattle.shared_history.specs.Rule.{first_view, Covers, IsAppended, tail_of};

use crate::entries::EntryHead;
use crate::passes::{Naming, Pass, Passes};
use crate::rule::{Appends, Compares, EntryName, HandsOut, TakesIn, View};
use abi_types::{Answer, Call, Pid, WakeIn};
use atomic_table::Seat;
use run_types::Entry;
use std::marker::{Brand, Model, PhantomData};

/// The keeper of a run's history. Contracts see the history, of which no memory is used here, and the processes whose passes
/// the keeper holds at the moment.
#[derive(Drop)]
pub struct Keeper<J: Naming> {
    seat: Seat<Entry, View>,
    of: PhantomData<J>,
}

impl<J: Naming> Model for Keeper<J> {
    ghost use Rattle.shared_history.specs.Keeper.{Keeping, IsKeeperOf};

    ghost Value = { Keeping };

    ghost view = { λ k. record { log = k.seat.me.0.log; held = k.seat.me.0.held } };

    ghost invariant = { λ k. IsKeeperOf J.table k.seat.table_id k.seat.me };
}

// One more entry, at the keeper's seat.
fn append_as<E: EntryName, J: Naming>(
    passes: &Passes<J>,
    seat: &mut Seat<Entry, View>,
    entry: &Entry,
)
    requires entry { entry.now ≡ E.entry }
    requires table { seat.old.table_id ≡ J.table }
    requires rest { IsAtRest seat.old.me }
    requires covers { Covers entry.now seat.old.me.0.held }
    requires fits { Fits (world J.launch seat.old.me.0.log) entry.now }
    requires room { length seat.old.me.0.log < 2 ^ 63 }
    ensures table { seat.new.table_id ≡ seat.old.table_id }
    ensures view { IsAppended entry.now seat.old.me seat.new.me }
{
    passes.table.shared.fetch_add::<Appends<E>>(seat, 0, 1);
}

// The same of the entry of a thread's call or wake, which is told by its parts.
fn append_call_as<E: EntryName, J: Naming>(
    passes: &Passes<J>,
    seat: &mut Seat<Entry, View>,
    head: &EntryHead,
    call: &Call,
    given: Option<WakeIn>,
    answer: &Answer,
)
    requires entry { answered_call head.now call.now given answer.now ≡ E.entry }
    requires table { seat.old.table_id ≡ J.table }
    requires rest { IsAtRest seat.old.me }
    requires covers { Contains seat.old.me.0.held head.now.pid }
    requires fits { Fits (world J.launch seat.old.me.0.log) (answered_call head.now call.now given answer.now) }
    requires room { length seat.old.me.0.log < 2 ^ 63 }
    ensures table { seat.new.table_id ≡ seat.old.table_id }
    ensures view { IsAppended (answered_call head.now call.now given answer.now) seat.old.me seat.new.me }
{
    passes.table.shared.fetch_add::<Appends<E>>(seat, 0, 1);
}

impl<J: Naming> Keeper<J> {
    /// The keeper whose seat is a new table's. It holds process 0, and there is no entry.
    pub fn new(seat: Seat<Entry, View>) -> Keeper<J>
        requires table { seat.table_id ≡ J.table }
        requires first { seat.me ≡ (first_view, []) }
        ensures { result ≡ record { log = []; held = 0 ∷ [] } }
    {
        Keeper {
            seat,
            of: PhantomData,
        }
    }

    /// Takes a pass in. The keeper then holds its process alone.
    pub fn take_in(&mut self, passes: &Passes<J>, pass: Pass<J>)
        ensures keeper { self.new ≡ record { log = self.old.log; held = pass.pid ∷ [] } }
        ensures later { Later pass.pid pass.seen self.old.log }
    {
        let Pass {
            pid: _,
            badge,
            of: _,
        } = pass;
        let shared = &passes.table.shared;
        shared.join_seat::<TakesIn>(&mut self.seat, badge.into_seat());
        shared.load::<Compares>(&mut self.seat, 0);
    }

    /// Appends an entry, which is of a process that the keeper holds, or an idle jump.
    pub fn append(&mut self, passes: &Passes<J>, entry: &Entry)
        requires covers { Covers entry.now self.old.held }
        requires fits { Fits (world J.launch self.old.log) entry.now }
        requires room { length self.old.log < 2 ^ 63 }
        ensures { self.new ≡ record { log = self.old.log ++ entry.now ∷ []; held = born entry.now.act ++ self.old.held } }
    {
        append_as::<Brand, J>(passes, &mut self.seat, entry);
    }

    /// Appends the entry of a call of a thread whose process the keeper holds, or of the wake of a thread that waited in the call,
    /// where something was given to it. The entry isn't made: proofs alone see it. The keeper then holds a child that the call made too.
    pub fn append_call(
        &mut self,
        passes: &Passes<J>,
        head: &EntryHead,
        call: &Call,
        given: Option<WakeIn>,
        answer: &Answer,
    )
        requires covers { Contains self.old.held head.now.pid }
        requires fits { Fits (world J.launch self.old.log) (answered_call head.now call.now given answer.now) }
        requires room { length self.old.log < 2 ^ 63 }
        ensures { self.new ≡ record { log = self.old.log ++ answered_call head.now call.now given answer.now ∷ []; held = born (act_of call.now given answer.now) ++ self.old.held } }
    {
        append_call_as::<Brand, J>(passes, &mut self.seat, head, call, given, answer);
    }

    /// Hands out a pass of the first process that the keeper holds.
    pub fn hand_out(&mut self, passes: &Passes<J>, pid: Pid) -> Pass<J>
        requires first { self.old.held ≡ pid ∷ tail_of self.old.held }
        requires apart { ¬ Contains (tail_of self.old.held) pid }
        requires seen { IsSeen J.launch pid self.old.log }
        ensures keeper { self.new ≡ record { log = self.old.log; held = tail_of self.old.held } }
        ensures pass { result ≡ record { pid = pid; seen = self.old.log } }
    {
        let seat = passes.table.shared.split_seat::<HandsOut>(&mut self.seat);
        Pass {
            pid,
            badge: seat.into_badge(),
            of: PhantomData,
        }
    }

    /// The history, once nothing more is added to it.
    pub fn into_past(self) -> Past
        ensures { result ≡ self.log }
    {
        let Keeper { seat, of: _ } = self;
        Past { seat }
    }
}

/// A history. Contracts see its entries, and no memory holds them.
#[derive(Drop)]
pub struct Past {
    seat: Seat<Entry, View>,
}

impl Model for Past {
    ghost use Rattle.std.specs.Prelude.{List};
    ghost use Rattle.run_types.specs.declared.history.Entry.{Entry};

    ghost Value = { List Entry };

    ghost view = { λ p. p.seat.me.0.log };
}
