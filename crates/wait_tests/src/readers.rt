//! Readers of channels, by example.
ghost use Rattle.std.specs.Prelude.{◌≡◌, ◌<◌, nat_eq, true};

use std::alloc::{AllocError, Global};
use std::cell::Cell;
use std::marker::Brand;
use std::sync::ledger::{Blank, Ledger};
use wait_set::{Parts, Spot, Steps, WaitSet};

// One thread is ready.
#[derive(Drop)]
struct OneReady {
    thread: u64,
    asked: Cell<u64>,
}

impl Parts for OneReady {
    ghost ready = { λ p t. nat_eq t p.thread };

    fn is_ready<L: Ledger>(&self, thread: u64, steps: &mut Steps<L>) -> bool {
        steps.tick();
        self.asked.set(self.asked.get().saturating_add(1));
        thread == self.thread
    }
}

// Each thread is ready.
#[derive(Drop)]
struct AllReady {
    asked: Cell<u64>,
}

impl Parts for AllReady {
    ghost ready = { λ p t. true };

    fn is_ready<L: Ledger>(&self, thread: u64, steps: &mut Steps<L>) -> bool {
        steps.tick();
        self.asked.set(self.asked.get().saturating_add(1));
        true
    }
}

// The thread waits at these spots from here on, and is left to be tested.
pub fn wait_at(set: &mut WaitSet, thread: u64, spots: &[Spot]) -> Result<(), AllocError> {
    if !set.contains(thread) {
        set.begin(thread)?;
    }
    if set.contains(thread) {
        set.stand_anew(thread, spots);
    }
    if set.contains(thread) {
        set.rest(thread, true);
    }
    Ok(())
}

// The thread runs from here on.
pub fn run(set: &mut WaitSet, thread: u64) {
    if set.contains(thread) {
        set.run(thread);
    }
}

// Forty threads stand at a channel each, and at a moment each. Who is ready then, who after a change of the seventh channel, how many
// tests that took, the first moment, and who is ready once that thread has gone.
type Seen = (Option<u64>, Option<u64>, u64, Option<u64>, Option<u64>);

fn one_write<L: Ledger>(alloc: Global, blank: Blank) -> Result<Seen, AllocError>
    requires name { blank.name ≡ L.name }
    requires parts { blank.parts ≡ L.parts }
    requires some { 0 < blank.parts }
{
    let mut steps = Steps::<L>::new(blank);
    let mut set = WaitSet::new(alloc);
    for thread in 0..40u64 {
        wait_at(
            &mut set,
            thread,
            &[Spot::Channel(thread), Spot::Moment(1000 - thread)],
        )?;
    }
    let nobody = OneReady {
        thread: 40,
        asked: Cell::new(0),
    };
    let before = set.next_settled(&nobody, None, &mut steps);
    let written = OneReady {
        thread: 7,
        asked: Cell::new(0),
    };
    set.touch(Spot::Channel(7));
    let after = set.next_settled(&written, None, &mut steps);
    let moment = set.next_moment(None);
    set.remove(7);
    let gone = set.next_settled(&written, None, &mut steps);
    Ok((before, after, written.asked.get(), moment, gone))
}

#[test]
fn a_write_settles_its_reader(rt: HostRuntime) -> Result<(), AllocError> {
    let seen = one_write::<Brand>(rt.alloc(), Blank::new(1))?;
    assert_eq!(rt; seen, (None, Some(7), 1, Some(961), None));
    Ok(())
}

// The number of a thread: those of a process stand one behind another.
fn key(process: u64, thread: u64) -> u64 {
    process.saturating_mul(4_294_967_296).saturating_add(thread)
}

// How many of the first 400 that are asked for are ready.
fn count_ready<L: Ledger>(set: &mut WaitSet, ready: &AllReady, steps: &mut Steps<L>) -> u64 {
    let mut marked = 0u64;
    let mut after = None;
    for _ in 0..400 {
        if let Some(thread) = set.next_settled(ready, after, steps) {
            marked = marked.saturating_add(1);
            after = Some(thread);
        } else {
            break;
        }
    }
    marked
}

// How many are gone, and the last that is told.
fn take_all_gone(set: &mut WaitSet) -> (u64, Option<u64>) {
    let mut gone = 0u64;
    let mut last = None;
    for _ in 0..200 {
        if let Some(thread) = set.take_gone() {
            gone = gone.saturating_add(1);
            last = Some(thread);
        }
    }
    (gone, last)
}

// Three processes of a hundred threads each stand at a channel.
fn three_processes(set: &mut WaitSet) -> Result<(), AllocError> {
    for process in 0..3u64 {
        for thread in 0..100u64 {
            wait_at(set, key(process, thread), &[Spot::Channel(process)])?;
        }
    }
    Ok(())
}

// All threads of the second process stand everywhere, then one of them stands anew and one runs, and a thread that isn't in is touched.
fn change_second(set: &mut WaitSet) -> Result<(), AllocError> {
    set.spread_between(key(1, 0), key(2, 0));
    set.touch_thread(key(4, 0));
    let anew = [Spot::Channel(1), Spot::Ended(2)];
    wait_at(set, key(1, 3), &anew)?;
    run(set, key(1, 4));
    Ok(())
}

// How many tests it took once the second process had changed, how many were ready then, who stood everywhere, how many threads were gone
// with the process, which of them was told last, and how many were ready in the end.
type Gone = (u64, u64, Option<u64>, u64, Option<u64>, u64);

fn one_process_goes<L: Ledger>(alloc: Global, blank: Blank) -> Result<Gone, AllocError>
    requires name { blank.name ≡ L.name }
    requires parts { blank.parts ≡ L.parts }
    requires some { 0 < blank.parts }
{
    let mut steps = Steps::<L>::new(blank);
    let mut set = WaitSet::new(alloc);
    let ready = AllReady {
        asked: Cell::new(0),
    };
    three_processes(&mut set)?;
    count_ready(&mut set, &ready, &mut steps);
    change_second(&mut set)?;
    ready.asked.set(0);
    let found = count_ready(&mut set, &ready, &mut steps);
    let everywhere = set.next_everywhere(Some(key(1, 2)));
    set.remove_between(key(1, 0), key(2, 0));
    let (gone, last) = take_all_gone(&mut set);
    let asked = ready.asked.get();
    let stay = count_ready(&mut set, &ready, &mut steps);
    Ok((asked, found, everywhere, gone, last, stay))
}

#[test]
fn a_process_goes(rt: HostRuntime) -> Result<(), AllocError> {
    let seen = one_process_goes::<Brand>(rt.alloc(), Blank::new(1))?;
    let wanted = (99, 299, Some(key(1, 5)), 100, Some(key(1, 0)), 200);
    assert_eq!(rt; seen, wanted);
    Ok(())
}
