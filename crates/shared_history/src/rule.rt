//! The rule of the table of passes: what its seats know, and what each step on it does and tells. The table has one word, the
//! number of entries of the history. What a seat knows is there for proofs alone, and takes no memory.
use atomic_table::{Join, Play, Split, TableRule};
use run_types::{Entry, Launch};
use std::collections::LinkedList;
use std::marker::{Brand, PhantomData};

/// What a seat knows. No value of this type is made.
pub struct View {
    /// Whether the seat is the keeper's, which stays behind the lock.
    pub keeps: bool,
    /// The keeper's: the whole history.
    pub log: LinkedList<Entry>,
    /// The processes that the seat stands for: a pass's one, or those whose passes the keeper took in.
    pub held: LinkedList<u32>,
    /// What was seen for them, a beginning of the history with all their entries.
    pub seen: LinkedList<Entry>,
}

/// The rule: the word is the length of a legal history, the keeper knows it, and each process has at most one seat, which has
/// seen a beginning of the history with all entries of the process.
pub struct OneHistory;

impl TableRule<Entry, View, Launch> for OneHistory {
    ghost use Rattle.shared_history.specs.Rule.{IsKept, first_view};

    ghost holds = { IsKept };

    ghost first = { λ launch. first_view };
}

/// Names an entry for the step that appends it.
pub trait EntryName {
    ghost use Rattle.run_types.specs.declared.history.Entry.{Entry};

    ghost entry: { Entry };
}

impl EntryName for Brand {
    ghost use Rattle.shared_history.specs.Names.{no_entry};

    ghost entry = { no_entry };
}

/// The step by which the keeper appends an entry.
pub struct Appends<E: EntryName> {
    of: PhantomData<E>,
}

impl<E: EntryName> Play<Entry, View> for Appends<E> {
    ghost use Rattle.shared_history.specs.Rule.{IsAppended};

    ghost then = { λ s v found w. IsAppended E.entry v w };
}

/// The step by which the keeper compares what was seen with the whole history.
pub struct Compares;

impl Play<Entry, View> for Compares {
    ghost use Rattle.shared_history.specs.Rule.{IsCompared};

    ghost then = { λ s v found w. IsCompared v w };
}

/// The keeper takes a pass in.
pub struct TakesIn;

impl Join<View> for TakesIn {
    ghost use Rattle.shared_history.specs.Rule.{joined, spent_view};

    ghost both = { joined };

    ghost spent = { spent_view };
}

/// The keeper hands out a pass of the first process that it holds.
pub struct HandsOut;

impl Split<View> for HandsOut {
    ghost use Rattle.shared_history.specs.Rule.{without_first, first_pass};

    ghost left = { without_first };

    ghost right = { first_pass };
}
