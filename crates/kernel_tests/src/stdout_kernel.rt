//! A kernel whose process has one descriptor, of stdout, or none, and calls of its first thread.
ghost use Rattle.std.specs.Prelude.{◌≡◌, IfOk};
ghost use Rattle.tree_model.specs.Grants.{AreGrants, MayBegin};
ghost use Rattle.tree_model.specs.Tree.{Tree};

use abi_types::{
    Answer, Bytes, Call, Constants, Grant, GrantList, GrantTarget, Pid, Rights, Signal, Status,
    Thread, Tid, Times,
};
use elf_image::{Elf, SegmentList};
use kernel_core::{Kernel, Launch};
use std::alloc::{AllocError, Global};
use tree_document::read_tree;

pub const PID: Pid = Pid(0);

pub const TID: Tid = Tid(1);

/// What stays the same for the whole run: no call of these tests reads it.
pub const CONSTANTS: Constants = Constants {
    key: [0; 32],
    epoch: 0,
};

// No call of these tests reads them.
const TIMES: Times = Times {
    atim: 0,
    mtim: 0,
    ctim: 0,
};

// The grant of stdout with all rights of its type.
fn stdout_grants(alloc: Global) -> Result<GrantList, AllocError>
    ensures { IfOk result (λ grants. (t : Tree) → AreGrants t grants) }
{
    let mut grants = GrantList::new(alloc);
    grants.push(Grant {
        target: GrantTarget::Terminal(1),
        base: Rights(0x1008_0048),
        inheriting: Rights::NONE,
    })?;
    Ok(grants)
}

// A launch of no program with these grants, and with no files.
fn launch_with(alloc: Global, grants: GrantList) -> Result<Launch, AllocError>
    requires { (t : Tree) → AreGrants t grants }
    ensures { IfOk result (λ launch. MayBegin launch.tree launch.grants) }
{
    let Ok(tree) = read_tree(alloc, &[], TIMES) else {
        return Err(AllocError);
    };
    Ok(Launch {
        elf: Elf {
            base: 0,
            entry: 0,
            phdr: 0,
            phnum: 0,
            segments: SegmentList::new(alloc),
        },
        argdata: Bytes::new(alloc),
        grants,
        tree,
        stdin: Bytes::new(alloc),
        constants: CONSTANTS,
        turns: 1,
    })
}

/// A kernel whose process has a descriptor of stdout, with all rights of its type.
pub fn stdout_kernel(alloc: Global) -> Result<Kernel, AllocError> {
    let grants = stdout_grants(alloc)?;
    Kernel::start(alloc, &launch_with(alloc, grants)?)
}

/// A kernel whose process has no descriptor.
pub fn bare_kernel(alloc: Global) -> Result<Kernel, AllocError> {
    Kernel::start(alloc, &launch_with(alloc, GrantList::new(alloc))?)
}

/// fd_write of a text to descriptor 0.
pub fn write_of(alloc: Global, text: &str) -> Result<Call, AllocError> {
    Ok(Call::FdWrite {
        fd: 0,
        bytes: Bytes::of(alloc, text.as_bytes())?,
    })
}

/// The answer to a call of the first thread. `None` where that thread can make no call.
pub fn answer_to(kernel: &mut Kernel, call: &Call) -> Option<Answer> {
    if !kernel.live(PID) || kernel.moment() > 1_000_000 {
        return None;
    }
    match kernel.thread(PID, TID) {
        Some(Thread::Runnable) => Some(kernel.step(&CONSTANTS, PID, TID, call)),
        _ => None,
    }
}

/// The end of the process from outside, because its turns are used up.
pub fn expire(kernel: &mut Kernel) {
    if !kernel.live(PID) || kernel.moment() > 1_000_000 {
        return;
    }
    kernel.end(PID, Status::Killed(Signal::Xcpu));
}
