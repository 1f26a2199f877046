//! What a kernel says of its first process before and behind its end.
use crate::stdout_kernel::{PID, TID, answer_to, expire, stdout_kernel};
use abi_types::{Call, Signal, Status, Thread};
use kernel_core::Kernel;
use std::test::Fail;

// The moment, the process's status, whether it is live, and whether its first thread takes turns.
type Stand = (u64, Option<Status>, bool, bool);

const BEFORE: Stand = (0, Some(Status::Live), true, true);

// The end at the first call's moment, with this status.
const fn behind(status: Status) -> Stand {
    (1000, Some(status), false, false)
}

fn stand(kernel: &Kernel) -> Stand {
    (
        kernel.moment(),
        kernel.status(PID),
        kernel.live(PID),
        matches!(kernel.thread(PID, TID), Some(Thread::Runnable)),
    )
}

// Before its exit and behind it.
fn exit(kernel: &mut Kernel) -> [Stand; 2] {
    let before = stand(kernel);
    let call = Call::ProcExit { code: 7 };
    answer_to(kernel, &call);
    [before, stand(kernel)]
}

#[test]
fn ends_by_its_exit(rt: HostRuntime) -> Result<(), Fail> {
    let mut kernel = stdout_kernel(rt.alloc())?;
    assert_eq!(rt; exit(&mut kernel), [BEFORE, behind(Status::Exit(7))]);
    Ok(())
}

// Before its end from outside and behind it.
fn end(kernel: &mut Kernel) -> [Stand; 2] {
    let before = stand(kernel);
    expire(kernel);
    [before, stand(kernel)]
}

#[test]
fn ends_from_outside(rt: HostRuntime) -> Result<(), Fail> {
    let mut kernel = stdout_kernel(rt.alloc())?;
    assert_eq!(rt;
        end(&mut kernel),
        [BEFORE, behind(Status::Killed(Signal::Xcpu))]
    );
    Ok(())
}
