//! The queue of tickets, step by step.
use crate::tickets::{Named, ticket};
use abi_base::Pid;
use std::alloc::{AllocError, Global};
use std::test::Fail;
use turn_queue::{Queue, Ticket};

// A step of a queue with a ticket, which is told by its name, and its answer.
#[derive(Clone, Copy)]
enum Step {
    Put(char),
    Park(char),
    Take(Option<char>),
    // While workers have these processes.
    TakeFree(&'static [u32], Option<char>),
    // Of the thread that has the ticket.
    TakeParked(char, bool),
    Revive(char, bool),
    // Whether one is parked of a free process, while workers have these.
    HasParked(&'static [u32], bool),
}

// More tickets than any of these queues has.
const MANY: usize = 8;

// The steps of a queue, in their order; the names of the tickets that are then ready, longest first; and of those that are parked.
struct Case {
    steps: &'static [Step],
    ready: &'static str,
    parked: &'static str,
}

const CASES: &[Case] = &[
    Case {
        steps: &[
            Step::Take(None),
            Step::Revive('a', false),
            Step::TakeParked('a', false),
            Step::HasParked(&[], false),
            Step::Take(None),
        ],
        ready: "",
        parked: "",
    },
    Case {
        steps: &[
            Step::Put('a'),
            Step::Put('b'),
            Step::Put('c'),
            Step::Revive('b', false),
            Step::TakeParked('c', false),
            Step::Take(Some('a')),
        ],
        ready: "bc",
        parked: "",
    },
    Case {
        steps: &[
            Step::Put('a'),
            Step::Put('b'),
            Step::Put('c'),
            Step::TakeFree(&[7, 0], None),
            Step::TakeFree(&[1, 0], Some('c')),
            Step::TakeFree(&[0], None),
        ],
        ready: "ab",
        parked: "",
    },
    Case {
        steps: &[
            Step::Put('c'),
            Step::Put('a'),
            Step::Park('b'),
            Step::Put('c'),
            Step::TakeFree(&[7], Some('a')),
            Step::TakeFree(&[7], None),
        ],
        ready: "cc",
        parked: "b",
    },
    Case {
        steps: &[
            Step::Park('e'),
            Step::Park('a'),
            Step::Park('d'),
            Step::Park('b'),
            Step::Park('c'),
            Step::Take(None),
            Step::TakeParked('d', true),
            Step::TakeParked('d', false),
        ],
        ready: "",
        parked: "abce",
    },
    Case {
        steps: &[
            Step::Park('a'),
            Step::Park('b'),
            Step::Park('c'),
            Step::Revive('b', true),
            Step::Revive('b', false),
            Step::Revive('c', true),
        ],
        ready: "bc",
        parked: "a",
    },
    Case {
        steps: &[Step::Park('b'), Step::Park('c'), Step::Revive('a', false)],
        ready: "",
        parked: "bc",
    },
    Case {
        steps: &[
            Step::Put('c'),
            Step::Park('b'),
            Step::Park('b'),
            Step::TakeFree(&[7], Some('b')),
        ],
        ready: "c",
        parked: "b",
    },
    Case {
        steps: &[
            Step::Park('a'),
            Step::Park('b'),
            Step::HasParked(&[], true),
            Step::HasParked(&[0], false),
            Step::HasParked(&[7, 9], true),
            Step::Park('c'),
            Step::Park('d'),
            Step::HasParked(&[7], true),
            Step::HasParked(&[0], true),
            Step::HasParked(&[7, 0], false),
            Step::Park('e'),
            Step::HasParked(&[7, 0], true),
            Step::HasParked(&[9, 7, 0], false),
        ],
        ready: "",
        parked: "abcde",
    },
];

// Notes that workers have the processes of these numbers.
fn hold(queue: &mut Queue<Named>, numbers: &[u32]) -> Result<(), AllocError> {
    for number in numbers {
        queue.hold(Pid(*number))?;
    }
    Ok(())
}

// Notes that none has them.
fn release(queue: &mut Queue<Named>, numbers: &[u32]) -> Result<(), AllocError> {
    for number in numbers {
        queue.release(Pid(*number))?;
    }
    Ok(())
}

// Takes the first ticket of a process that no worker has. No worker has it after that.
fn take(queue: &mut Queue<Named>) -> Result<Option<char>, AllocError> {
    let Some(ticket) = queue.take_free()? else {
        return Ok(None);
    };
    queue.release(ticket.pid())?;
    Ok(Some(ticket.name))
}

// Takes the parked ticket of the thread that has this one. Whether it is that one.
fn takes_parked(queue: &mut Queue<Named>, name: char) -> bool {
    let named = ticket(name);
    queue
        .take_parked(named.pid(), named.tid())
        .map(|ticket| ticket.name)
        == Some(name)
}

// Makes the parked ticket of the thread that has this one ready. Whether there is one.
fn revive(queue: &mut Queue<Named>, name: char) -> Result<bool, AllocError> {
    let named = ticket(name);
    let Some(parked) = queue.take_parked(named.pid(), named.tid()) else {
        return Ok(false);
    };
    queue.put(parked).map_err(|_| AllocError)?;
    Ok(true)
}

// Does a step. Whether its answer is the step's.
fn follow(queue: &mut Queue<Named>, step: Step) -> Result<bool, AllocError> {
    match step {
        Step::Put(name) => queue.put(ticket(name)).map_err(|_| AllocError)?,
        Step::Park(name) => queue.park(ticket(name)).map_err(|_| AllocError)?,
        Step::Take(name) => return Ok(take(queue)? == name),
        Step::TakeFree(busy, name) => {
            hold(queue, busy)?;
            let has = queue.has_free();
            let took = take(queue)?;
            release(queue, busy)?;
            return Ok(has == name.is_some() && took == name);
        }
        Step::TakeParked(name, answer) => return Ok(takes_parked(queue, name) == answer),
        Step::Revive(name, answer) => return Ok(revive(queue, name)? == answer),
        Step::HasParked(busy, answer) => {
            hold(queue, busy)?;
            let has = queue.has_parked();
            release(queue, busy)?;
            return Ok(has == answer);
        }
    }
    Ok(true)
}

// The names of the tickets that are ready, which are taken.
fn taken(alloc: Global, queue: &mut Queue<Named>) -> Result<String, AllocError> {
    let mut names = String::new(alloc);
    for _ in 0..MANY {
        if let Some(name) = take(queue)? {
            names.push(name)?;
        }
    }
    Ok(names)
}

#[test]
fn tickets_are_served_in_order(rt: HostRuntime) -> Result<(), Fail> {
    for case in CASES {
        let mut queue = Queue::new(rt.alloc());
        for step in case.steps {
            assert!(rt;
                follow(&mut queue, *step)?,
                "before {} and {}",
                case.ready,
                case.parked
            );
        }
        assert_eq!(rt; queue.parked_count(), case.parked.len());
        assert_eq!(rt; taken(rt.alloc(), &mut queue)?.as_str(), case.ready);
        for name in case.parked.chars() {
            assert!(rt; takes_parked(&mut queue, name), "{name} of {}", case.parked);
        }
    }
    Ok(())
}
