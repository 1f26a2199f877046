//! The set of threads that wait or run.
ghost use Rattle.std.specs.Prelude.{◌≡◌, ◌+◌, ◌<◌, ◌≤◌, ◌||◌, ◌&&◌, ◌++◌, ◌∷◌, [], ℕ, Bool, Option, true, false, None, Some};
ghost use Rattle.std.specs.Prelude.{cond, length, nat_eq, nat_le, nat_lt, option_map, take, IfSome, IsSome, OnOk, OnErr};
ghost use Rattle.std.specs.FinMap as map;
ghost use Rattle.wait_set.specs.Next.{is_after, IsNext};
ghost use Rattle.wait_set.specs.declared.spot.Spot.{Spot};
ghost use Rattle.wait_set.specs.declared.waiting.Waiting.{Waiting};
ghost use Rattle.wait_set.specs.Spots.{listed};
ghost use Rattle.wait_set.specs.SpotQueues.{spot_has};
ghost use Rattle.wait_set.specs.Waits.{counted, flag, fresh, is_awaited, is_due, is_everywhere, is_left, is_ready, is_running, is_up, lists, mark_of};
ghost use Rattle.wait_set.specs.Waits.{resting, running, stands, tested, touched, where_so, AreTested, IsExact, IsStood};

use crate::leaving::leave;
use crate::number_set::NumberSet;
use crate::queues::next_key;
use crate::spot::Spot;
use crate::spot_list::SpotList;
use crate::spot_queues::SpotQueues;
use crate::steps::{Parts, Steps};
use crate::waiting::Waiting;
use maps::NumMap;
use std::alloc::{AllocError, Global};
use std::marker::Model;
use std::sync::ledger::Ledger;

/// The threads that wait or run, by number. In contracts it is a finite map from each to where it stands, how it is marked, and whether
/// it runs. One that runs again keeps its places, but for moments: one that waits in the same call again and again takes none anew.
///
/// To begin, to stand somewhere and to leave take the logarithm of how many threads there are, for each place that is taken or given
/// up. Memory is taken by `begin` and `stand_anew` alone.
#[derive(Drop)]
pub struct WaitSet {
    pub(crate) alloc: Global,
    pub(crate) threads: NumMap<Waiting>,
    pub(crate) queues: SpotQueues,
    pub(crate) ready: NumberSet,
    pub(crate) everywhere: NumberSet,
    pub(crate) left: NumberSet,
    // How many threads run.
    running: usize,
    gone: Vec<u64>,
}

impl Model for WaitSet {
    ghost use Rattle.std.specs.FinMap as map;
    ghost use Rattle.std.specs.Coded.{coded_ℕ};
    ghost use Rattle.wait_set.specs.contracts.waiting.Waiting as waiting;
    ghost use Rattle.wait_set.specs.Waits.{WaitMap};
    ghost use Rattle.std.specs.Prelude.{length, vec_capacity};
    ghost use Rattle.wait_set.specs.Tied.{IsTied};

    ghost Value = { WaitMap };

    ghost coded = { map.code coded_ℕ waiting.the_row.coded };

    ghost view = { λ a. a.threads };

    ghost invariant = { λ a. IsTied a.threads a.queues a.ready a.everywhere a.left a.running (length a.gone.items) (vec_capacity a.gone) };
}

impl WaitSet {
    /// No thread. Takes no memory.
    pub fn new(alloc: Global) -> Self
        ensures { result ≡ map.empty }
    {
        WaitSet {
            alloc,
            threads: NumMap::new(alloc),
            queues: SpotQueues::new(alloc),
            ready: NumberSet::new(alloc),
            everywhere: NumberSet::new(alloc),
            left: NumberSet::new(alloc),
            running: 0,
            gone: Vec::new(alloc),
        }
    }

    /// How many threads there are.
    pub fn len(&self) -> usize
        ensures { result ≡ map.len self.now }
    {
        self.threads.len()
    }

    /// Whether there is no thread.
    pub fn is_empty(&self) -> bool
        ensures { result ≡ nat_eq (map.len self.now) 0 }
    {
        self.threads.len() == 0
    }

    /// Whether the thread is in.
    pub fn contains(&self, thread: u64) -> bool
        ensures { result ≡ map.contains_key self.now thread }
    {
        self.threads.contains(thread)
    }

    /// The thread is in from here on. It runs, and stands nowhere. `Err` where memory ran out: then nothing has changed.
    pub fn begin(&mut self, thread: u64) -> Result<(), AllocError>
        requires { map.get self.old thread ≡ None }
        ensures ok { OnOk result (self.new ≡ map.insert self.old thread fresh) }
        ensures err { OnErr result (self.new ≡ self.old) }
    {
        let count = self.threads.len() + 1;
        self.ready.make_room(count)?;
        self.everywhere.make_room(count)?;
        self.left.make_room(count)?;
        self.gone.reserve(count)?;
        let waiting = Waiting {
            spots: SpotList::new(self.alloc),
            everywhere: false,
            ready: false,
            left: true,
            runs: true,
        };
        self.threads.insert(thread, waiting)?;
        self.running += 1;
        Ok(())
    }

    /// The thread, which is in, stands at these spots alone from here on, and where memory ran out everywhere. Spots at the front of the
    /// list at which it stands by that list take no time.
    pub fn stand_anew(&mut self, thread: u64, spots: &[Spot])
        requires { IsSome (map.get self.old thread) }
        ensures there { (s : Waiting) → map.get self.old thread ≡ Some s
            → (w : Waiting) × (self.new ≡ map.insert self.old thread w) × IsStood spots.now s w }
    {
        let waiting = self.threads.get_mut(thread);
        let stands = take_anew(&mut waiting.spots, &mut self.queues, spots, thread);
        let everywhere = stands.is_err();
        self.everywhere
            .change(thread, waiting.everywhere, everywhere);
        waiting.everywhere = everywhere;
    }

    /// The thread, which is in, runs from here on. It keeps the spots of its list that are no moments. Takes no memory.
    pub fn run(&mut self, thread: u64)
        requires { IsSome (map.get self.old thread) }
        ensures { (s : Waiting) → map.get self.old thread ≡ Some s → self.new ≡ map.insert self.old thread (running s) }
    {
        let waiting = self.threads.get_mut(thread);
        self.queues.leave_moments(waiting.spots.as_slice(), thread);
        self.ready.change(thread, waiting.is_ready(), false);
        self.everywhere.change(thread, waiting.everywhere, false);
        self.left.change(thread, waiting.is_left(), false);
        self.running += usize::from(!waiting.runs);
        waiting.spots.drop_moments();
        waiting.everywhere = false;
        waiting.ready = false;
        waiting.left = true;
        waiting.runs = true;
    }

    /// The thread, which is in, waits from here on, and is left to be tested or not. Takes no memory.
    pub fn rest(&mut self, thread: u64, is_left: bool)
        requires { IsSome (map.get self.old thread) }
        ensures { (s : Waiting) → map.get self.old thread ≡ Some s → self.new ≡ map.insert self.old thread (resting is_left s) }
    {
        let waiting = self.threads.get_mut(thread);
        self.ready.change(thread, waiting.is_ready(), false);
        self.left.change(thread, waiting.is_left(), is_left);
        self.running -= usize::from(waiting.runs);
        waiting.ready = false;
        waiting.left = is_left;
        waiting.runs = false;
    }

    /// The thread, which is in, stands at each spot from here on, or at those of its list alone. Takes no memory.
    pub fn spread(&mut self, thread: u64, everywhere: bool)
        requires { IsSome (map.get self.old thread) }
        ensures { (s : Waiting) → map.get self.old thread ≡ Some s → self.new ≡ map.insert self.old thread (record s { everywhere = everywhere }) }
    {
        let waiting = self.threads.get_mut(thread);
        self.everywhere
            .change(thread, waiting.everywhere, everywhere);
        waiting.everywhere = everywhere;
    }

    /// The thread is no longer in, and stands nowhere. Takes no memory, and the time of the places that it has.
    pub fn remove(&mut self, thread: u64)
        ensures { self.new ≡ map.remove self.old thread }
    {
        self.take_out(thread, false);
    }

    // The thread is no longer in, and stands nowhere. It is put on the list of those that are gone, if it is to be noted.
    pub(crate) fn take_out(&mut self, thread: u64, is_noted: bool)
        ensures { self.new ≡ map.remove self.old thread }
    {
        let Some(waiting) = self.threads.remove(thread) else {
            return;
        };
        self.queues.leave_all(waiting.spots.as_slice(), thread);
        self.ready.change(thread, waiting.is_ready(), false);
        self.everywhere.change(thread, waiting.everywhere, false);
        self.left.change(thread, waiting.is_left(), false);
        self.running -= usize::from(waiting.runs);
        if is_noted {
            self.gone.push(thread).unwrap();
        }
    }

    /// Whether a thread waits and is left to be tested, or `take_gone` has one to tell.
    pub fn has_news(&self) -> bool
        ensures { result ≡ false → (t : ℕ) → flag is_left (map.get self.now t) ≡ false }
    {
        self.has_left() || !self.gone.is_empty()
    }

    /// A thread that `remove_between` took out, each once. Takes no memory.
    pub fn take_gone(&mut self) -> Option<u64>
        ensures { self.new ≡ self.old }
    {
        self.gone.pop()
    }

    /// The thread is left to be tested, if it waits. Takes no memory.
    pub fn touch_thread(&mut self, thread: u64)
        ensures { (k : ℕ) → map.get self.new k ≡ cond (nat_eq k thread) (option_map touched (map.get self.old k)) (map.get self.old k) }
    {
        if self.contains(thread) {
            self.leave(thread);
        }
    }

    // The thread, which is in, is left to be tested.
    pub(crate) fn leave(&mut self, thread: u64)
        requires { IsSome (map.get self.old thread) }
        ensures { (s : Waiting) → map.get self.old thread ≡ Some s → self.new ≡ map.insert self.old thread (touched s) }
    {
        leave(&mut self.threads, &mut self.left, thread);
    }

    /// Each thread that stands at the spot is left to be tested. It tests none, and takes no memory.
    ///
    /// `exact`: where a change concerns those at the spot alone, each thread that isn't left is marked as before by whether it is ready.
    pub fn touch(&mut self, spot: Spot)
        ensures marks { self.new ≡ where_so (stands spot) (λ _ s. touched s) self.old }
        ensures places { (x : Spot) (t : ℕ) → flag (stands x) (map.get self.new t) ≡ flag (stands x) (map.get self.old t) }
        ensures count { counted is_left self.new ≤ counted is_left self.old + counted (stands spot) self.old }
        ensures exact { (before now : ℕ → Bool) → IsExact before self.old → ((t : ℕ) → flag (stands spot) (map.get self.old t) ≡ false → before t ≡ now t) → IsExact now self.new }
    {
        self.touch_listed(spot);
        self.touch_everywhere();
    }

    /// Each thread that stands, by its list, at a moment after `after` and up to `until` is left to be tested. It tests none, and takes
    /// no memory.
    pub fn touch_moments(&mut self, after: Option<u64>, until: u64)
        ensures marks { self.new ≡ where_so (is_due after (Some until)) (λ _ s. touched s) self.old }
        ensures places { (x : Spot) (t : ℕ) → flag (stands x) (map.get self.new t) ≡ flag (stands x) (map.get self.old t) }
        ensures count { counted is_left self.new ≤ counted is_left self.old + counted (is_due after (Some until)) self.old }
        ensures exact { (before now : ℕ → Bool) → IsExact before self.old → ((t : ℕ) → flag (is_due after (Some until)) (map.get self.old t) ≡ false → before t ≡ now t) → IsExact now self.new }
    {
        let mut reached = after;
        while let Some(moment) = self.next_due(reached, until) {
            self.touch_listed(Spot::Moment(moment));
            reached = Some(moment);
        }
    }

    /// Each thread that stands everywhere is left to be tested. It tests none, and takes no memory.
    pub fn touch_everywhere(&mut self)
        ensures { self.new ≡ where_so is_everywhere (λ _ s. touched s) self.old }
    {
        let mut after = None;
        while let Some(thread) = self.next_everywhere(after) {
            self.leave(thread);
            after = Some(thread);
        }
    }

    // The next moment after `after` and up to `until` at which a thread stands by its list.
    fn next_due(&self, after: Option<u64>, until: u64) -> Option<u64>
        ensures { IsNext (λ m. nat_le m until && is_awaited self.now m) after result }
    {
        match self.next_moment(after) {
            None => None,
            Some(moment) => { if moment <= until { Some(moment) } else { None } }
        }
    }

    // Each thread that stands at the spot by its list is left to be tested.
    fn touch_listed(&mut self, spot: Spot)
        ensures { self.new ≡ where_so (lists spot) (λ _ s. touched s) self.old }
    {
        self.queues
            .leave_each(spot, &mut self.threads, &mut self.left);
    }

    // The thread, which waits, is marked as ready or not, and is no longer left to be tested.
    fn mark(&mut self, thread: u64, ready: bool)
        requires there { IsSome (map.get self.old thread) }
        requires waits { flag is_running (map.get self.old thread) ≡ false }
        ensures { (s : Waiting) → map.get self.old thread ≡ Some s → self.new ≡ map.insert self.old thread (tested ready s) }
    {
        let waiting = self.threads.get_mut(thread);
        self.ready.change(thread, waiting.is_ready(), ready);
        self.left.change(thread, waiting.is_left(), false);
        waiting.ready = ready;
        waiting.left = false;
    }

    /// How a thread that waits is marked: whether it is ready. `None` where there is none, it runs, or it is left to be tested.
    pub fn marked(&self, thread: u64) -> Option<bool>
        ensures { result ≡ mark_of (map.get self.now thread) }
    {
        let waiting = self.threads.get(thread)?;
        if waiting.left || waiting.runs {
            None
        } else {
            Some(waiting.ready)
        }
    }

    // The next thread after `after` that waits and is marked as ready.
    fn next_ready(&self, after: Option<u64>) -> Option<u64>
        ensures { IsNext (λ t. flag is_ready (map.get self.now t)) after result }
    {
        self.ready.next(after)
    }

    // The next thread after `after` that waits and is left to be tested.
    fn next_left(&self, after: Option<u64>) -> Option<u64>
        ensures { IsNext (λ t. flag is_left (map.get self.now t)) after result }
    {
        self.left.next(after)
    }

    // Whether some thread waits and is left to be tested.
    fn has_left(&self) -> bool
        ensures { result ≡ false → (t : ℕ) → flag is_left (map.get self.now t) ≡ false }
    {
        self.next_left(None).is_some()
    }

    /// Whether some thread runs.
    pub fn has_running(&self) -> bool
        ensures { result ≡ nat_lt 0 (counted is_running self.now) }
    {
        self.running > 0
    }

    /// The next thread after `after`.
    pub fn next_thread(&self, after: Option<u64>) -> Option<u64>
        ensures { IsNext (λ t. map.contains_key self.now t) after result }
    {
        next_key(&self.threads, after)
    }

    /// The next thread after `after` that stands at each spot.
    pub fn next_everywhere(&self, after: Option<u64>) -> Option<u64>
        ensures { IsNext (λ t. flag is_everywhere (map.get self.now t)) after result }
    {
        self.everywhere.next(after)
    }

    /// The next moment after `after` at which a thread stands by its list.
    pub fn next_moment(&self, after: Option<u64>) -> Option<u64>
        ensures { IsNext (λ m. is_awaited self.now m) after result }
    {
        self.queues.next_moment(after)
    }

    // Tests the thread, which waits, and marks it by what comes of it.
    fn settle_thread<P: Parts, L: Ledger>(&mut self, parts: &P, thread: u64, steps: &mut Steps<L>)
        requires { flag is_left (map.get self.old thread) ≡ true }
        ensures marks { (s : Waiting) → map.get self.old thread ≡ Some s → self.new ≡ map.insert self.old thread (tested (P.ready parts.now thread) s) }
        ensures cost { steps.new ≡ steps.old + 1 }
    {
        let ready = parts.is_ready(thread, steps);
        self.mark(thread, ready);
    }

    /// The ready thread with the least number after `after`, or of all where that is `None`. On the way to it those are tested, once each, that
    /// wait and are left to be, and marked by what comes of it. Takes no memory.
    ///
    /// `next`: where each thread that isn't left is marked by whether it is ready, no ready thread is missed.
    pub fn next_settled<P: Parts, L: Ledger>(
        &mut self,
        parts: &P,
        after: Option<u64>,
        steps: &mut Steps<L>,
    ) -> Option<u64>
        ensures marks { AreTested (P.ready parts.now) self.old self.new }
        ensures cost { steps.new + counted is_left self.new ≡ steps.old + counted is_left self.old }
        ensures exact { IsExact (P.ready parts.now) self.old → IsExact (P.ready parts.now) self.new }
        ensures next { IsExact (P.ready parts.now) self.old → IsNext (λ t. is_up (P.ready parts.now) (map.get self.old t) t) after result }
    {
        while let Some(thread) = self.next_test(after) {
            self.settle_thread(parts, thread, steps);
        }
        self.next_ready(after)
    }

    // The first thread after `after` that waits and is left to be tested, unless one before it is marked as ready.
    fn next_test(&self, after: Option<u64>) -> Option<u64>
        ensures left { IfSome result (λ t. flag is_left (map.get self.now t) ≡ true) }
        ensures none { result ≡ None → (t : ℕ) → is_after after t ≡ true → flag is_left (map.get self.now t) ≡ true
            → (k : ℕ) × (k < t) × (is_after after k ≡ true) × (flag is_ready (map.get self.now k) ≡ true) }
    {
        let left = self.next_left(after)?;
        match self.next_ready(after) {
            Some(ready) if ready < left => None,
            _ => Some(left),
        }
    }
}

// Takes these places, and gives up the thread's own unless they are at the front of the list. `Err` where memory ran out: then some are
// its own.
fn take_anew(
    own: &mut SpotList,
    queues: &mut SpotQueues,
    spots: &[Spot],
    thread: u64,
) -> Result<(), AllocError>
    requires { (x : Spot) → spot_has queues.old x thread ≡ listed x own.old }
    ensures stands { (x : Spot) (t : ℕ) → spot_has queues.new x t ≡ cond (nat_eq t thread) (listed x own.new) (spot_has queues.old x t) }
    ensures ok { OnOk result (own.new ≡ spots.now) }
{
    if own.is_front_of(spots) {
        return take_rest(own, queues, spots, thread);
    }
    queues.leave_all(own.as_slice(), thread);
    own.clear();
    take_rest(own, queues, spots, thread)
}

// Takes the places of the list behind the thread's own, which are the front of it. `Err` where memory ran out: then some are its own.
fn take_rest(
    own: &mut SpotList,
    queues: &mut SpotQueues,
    spots: &[Spot],
    thread: u64,
) -> Result<(), AllocError>
    requires stands { (x : Spot) → spot_has queues.old x thread ≡ listed x own.old }
    requires front { take (length own.old) spots.now ≡ own.old }
    ensures stands { (x : Spot) (t : ℕ) → spot_has queues.new x t ≡ cond (nat_eq t thread) (listed x own.new) (spot_has queues.old x t) }
    ensures ok { OnOk result (own.new ≡ spots.now) }
{
    own.make_room(spots.len())?;
    let first = own.len();
    for place in first..spots.len() {
        take_place(own, queues, spots[place], thread)?;
    }
    Ok(())
}

// Takes one more place. `Err` where memory ran out: then nothing has changed.
fn take_place(
    own: &mut SpotList,
    queues: &mut SpotQueues,
    spot: Spot,
    thread: u64,
) -> Result<(), AllocError>
    requires { (x : Spot) → spot_has queues.old x thread ≡ listed x own.old }
    ensures stands { (x : Spot) (t : ℕ) → spot_has queues.new x t ≡ cond (nat_eq t thread) (listed x own.new) (spot_has queues.old x t) }
    ensures ok { OnOk result (own.new ≡ own.old ++ spot ∷ []) }
    ensures err { OnErr result (own.new ≡ own.old) }
{
    own.push(spot)?;
    if let Err(error) = queues.stand_at(spot, thread) {
        own.pop();
        return Err(error);
    }
    Ok(())
}
