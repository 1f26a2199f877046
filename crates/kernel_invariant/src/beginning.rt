//! What process 0 begins with beside its descriptors.
ghost use Rattle.std.specs.Prelude.{◌≡◌, IfOk};
ghost use Rattle.std.specs.FinMap as map;
ghost use Rattle.kernel_model.specs.Start.{first_process};
ghost use Rattle.kernel_parts.specs.Keys.{key};
ghost use Rattle.wait_set.specs.Waits.{fresh};

use abi_types::{Pid, Status, Tid};
use kernel_parts::{ProcessState, single, thread_key};
use maps::NumMap;
use std::alloc::{AllocError, Global};
use wait_set::WaitSet;

/// Process 0 as a run begins: it lives, with one thread, which runs.
#[derive(Drop)]
pub struct FirstProcess {
    /// What it has of its own beside its descriptors.
    pub processes: NumMap<ProcessState>,
    /// That it lives.
    pub statuses: NumMap<Status>,
    /// The entry of its thread.
    pub waits: WaitSet,
}

// The first thread, alone.
fn first_waits(alloc: Global) -> Result<WaitSet, AllocError>
    ensures { IfOk result (λ waits. waits ≡ map.insert map.empty (key 0 1) fresh) }
{
    let mut waits = WaitSet::new(alloc);
    waits.begin(thread_key(Pid(0), Tid(1)))?;
    Ok(waits)
}

/// What process 0 begins with. `Err` where memory ran out.
pub fn first_process(alloc: Global) -> Result<FirstProcess, AllocError>
    ensures own { IfOk result (λ first. first.processes ≡ map.insert map.empty 0 first_process) }
    ensures lives { IfOk result (λ first. first.statuses ≡ map.insert map.empty 0 Status.Live) }
    ensures waits { IfOk result (λ first. first.waits ≡ map.insert map.empty (key 0 1) fresh) }
{
    Ok(FirstProcess {
        processes: single(alloc, 0, ProcessState::first(alloc)?)?,
        statuses: single(alloc, 0, Status::Live)?,
        waits: first_waits(alloc)?,
    })
}
