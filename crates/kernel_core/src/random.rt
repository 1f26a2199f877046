//! The call for random bytes.
ghost use Rattle.std.specs.Prelude.{true, ◌≡◌};
ghost use Rattle.std.specs.FinMap as map;
ghost use Rattle.kernel_model.specs.Done.{IsDone};
ghost use Rattle.kernel_model.specs.Families.ClockCalls.{drawn_by};
ghost use Rattle.kernel_model.specs.Release.{lives};

use crate::kernel::Kernel;
use abi_types::{Answer, Constants, Pid};
use std::alloc::AllocError;

impl Kernel {
    // Draws so many random bytes of the process's stream. `Err` changes nothing.
    pub(crate) fn random_get(
        &mut self,
        constants: &Constants,
        pid: Pid,
        length: u64,
    ) -> Result<Answer, AllocError>
        requires there { lives (map.get self.old.statuses pid) ≡ true }
        ensures { IsDone true (drawn_by constants.now pid (map.get self.old.processes pid) length)
            self.old self.new result }
    {
        let own = self.processes.get_mut(u64::from(pid.0));
        own.draw(self.alloc, constants, pid, length)
    }
}
