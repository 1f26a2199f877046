//! Who makes a call.
use crate::thread::Stage;
use abi_base::{Pid, Tid};

/// Who makes a call, and when: a process, one of its threads, and the moment at which the call was made. A call that waited is done
/// later than it was made, and its wait has come so far; one that is just made has no stage.
#[derive(Clone, Copy)]
pub struct Who {
    pub pid: Pid,
    pub tid: Tid,
    pub since: u64,
    pub stage: Option<Stage>,
}
