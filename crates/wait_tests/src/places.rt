//! Where a thread stands, and how it is marked, as it waits, runs and waits again.
use crate::readers::{run, wait_at};
use std::alloc::AllocError;
use wait_set::{Spot, WaitSet};

// The thread rests, and isn't left to be tested.
fn rest(set: &mut WaitSet, thread: u64) {
    if set.contains(thread) {
        set.rest(thread, false);
    }
}

#[test]
fn a_thread_that_rests_runs_no_longer(rt: HostRuntime) -> Result<(), AllocError> {
    let mut set = WaitSet::new(rt.alloc());
    assert!(rt; !set.has_running());
    for thread in 0..2u64 {
        if !set.contains(thread) {
            set.begin(thread)?;
        }
    }
    rest(&mut set, 0);
    assert!(rt; set.has_running());
    rest(&mut set, 1);
    assert!(rt; !set.has_running());
    run(&mut set, 1);
    run(&mut set, 1);
    assert!(rt; set.has_running());
    assert_eq!(rt; set.marked(0), Some(false));
    assert_eq!(rt; set.marked(1), None);
    set.remove(1);
    assert!(rt; !set.has_running());
    Ok(())
}

#[test]
fn a_thread_keeps_its_places_while_it_runs(rt: HostRuntime) -> Result<(), AllocError> {
    let spots = [Spot::Channel(5), Spot::Moment(9), Spot::Ended(2)];
    let mut set = WaitSet::new(rt.alloc());
    wait_at(&mut set, 1, &spots)?;
    assert_eq!(rt; set.next_moment(None), Some(9));
    run(&mut set, 1);
    assert_eq!(rt; set.next_moment(None), None);
    wait_at(&mut set, 1, &spots)?;
    assert_eq!(rt; set.next_moment(None), Some(9));
    for spot in &spots {
        rest(&mut set, 1);
        assert_eq!(rt; set.marked(1), Some(false));
        set.touch(*spot);
        assert_eq!(rt; set.marked(1), None);
    }
    Ok(())
}

#[test]
fn other_places_leave_the_old_ones(rt: HostRuntime) -> Result<(), AllocError> {
    let mut set = WaitSet::new(rt.alloc());
    wait_at(&mut set, 1, &[Spot::Channel(5), Spot::Ended(2)])?;
    run(&mut set, 1);
    wait_at(&mut set, 1, &[Spot::Channel(5), Spot::Channel(6)])?;
    rest(&mut set, 1);
    set.touch(Spot::Ended(2));
    assert_eq!(rt; set.marked(1), Some(false));
    assert!(rt; !set.has_news());
    set.touch(Spot::Channel(6));
    assert_eq!(rt; set.marked(1), None);
    assert!(rt; set.has_news());
    Ok(())
}
