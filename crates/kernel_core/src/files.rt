//! The calls on the file or the directory that an open is of.
ghost use Rattle.std.specs.Prelude.{◌≡◌, ◌+◌, ◌<◌, ◌^◌, Some};
ghost use Rattle.std.specs.FinMap as map;
ghost use Rattle.abi_types.specs.Families.{call_of_file};
ghost use Rattle.kernel_model.specs.Done.{IsDone};
ghost use Rattle.kernel_core.specs.Files.{file_outcome};
ghost use Rattle.kernel_model.specs.Calls.{takes_memory};
ghost use Rattle.kernel_model.specs.Families.FileCalls as model;
ghost use Rattle.kernel_model.specs.State.{Table};

use crate::kernel::Kernel;
use abi_types::{Answer, Constants, Errno, FileCall, Pid};
use file_calls::on_open;
use kernel_parts::open_of;
use right_rules::refused;
use std::alloc::AllocError;

impl Kernel {
    // Does a call on the open of a descriptor. `Err` changes nothing.
    pub(crate) fn file_call(
        &mut self,
        constants: &Constants,
        pid: Pid,
        fd: u32,
        call: FileCall<'_>,
    ) -> Result<Answer, AllocError>
        requires on { model.file_fd (call_of_file call) ≡ Some fd }
        requires early { self.old.clock + constants.now.epoch < 2 ^ 64 }
        ensures { (table : Table) → map.get self.old.tables pid ≡ Some table
            → IsDone (takes_memory (call_of_file call.entry))
            (file_outcome constants.now self.old table fd (call_of_file call.entry)) self.old self.new result }
    {
        let Some((_, kind)) = open_of(&self.tables, &self.objects, pid, fd) else {
            return Ok(Answer::Reply(refused(Errno::Badf)));
        };
        let now = self.clock + constants.epoch;
        let reply = on_open(self.alloc, &mut self.tree, &kind, now, call)?;
        Ok(Answer::Reply(reply))
    }
}
