//! The call that shows a clock.
ghost use Rattle.std.specs.Prelude.{◌≡◌, ◌+◌, ◌<◌, ◌^◌};
ghost use Rattle.kernel_model.specs.Families.ClockCalls as model;
ghost use Rattle.kernel_model.specs.Reply as reply;

use crate::kernel::Kernel;
use abi_types::{Constants, Reply};
use kernel_parts::time_of;
use right_rules::success;

impl Kernel {
    // What a clock shows now.
    pub(crate) fn clock_time(&self, constants: &Constants, clock: u32) -> Reply
        requires early { self.now.clock + constants.now.epoch < 2 ^ 64 }
        ensures { result ≡ reply.success (model.time_of constants.now clock self.now.clock) 0 }
    {
        success(time_of(constants, clock, self.clock), 0)
    }
}
