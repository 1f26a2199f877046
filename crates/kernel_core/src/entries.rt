//! The calls that make names of files, move them or take them away.
ghost use Rattle.std.specs.Prelude.{◌≡◌, ◌+◌, ◌<◌, ◌^◌, Some, IsSome, true};
ghost use Rattle.std.specs.FinMap as map;
ghost use Rattle.abi_types.specs.Families.{call_of_entry};
ghost use Rattle.kernel_model.specs.Done.{IsDone};
ghost use Rattle.kernel_core.specs.Entries.{entry_outcome};
ghost use Rattle.kernel_model.specs.Calls.{takes_memory};
ghost use Rattle.kernel_model.specs.Families.EntryCalls as model;
ghost use Rattle.kernel_model.specs.Release.{lives};
ghost use Rattle.kernel_model.specs.State.{Table};

use crate::kernel::Kernel;
use abi_types::{Answer, Constants, EntryCall, Errno, Pid};
use kernel_parts::{Caller, change_entries, forget_nameless, kind_of, open_of};
use right_rules::refused;
use std::alloc::AllocError;

impl Kernel {
    // Does a call on names, by the path of one descriptor or of two. What nothing leads to any more goes. `Err` changes nothing.
    pub(crate) fn entry_call(
        &mut self,
        constants: &Constants,
        pid: Pid,
        fd: u32,
        other: Option<u32>,
        call: EntryCall<'_>,
    ) -> Result<Answer, AllocError>
        requires there { lives (map.get self.old.statuses pid) ≡ true }
        requires on { model.entry_fds (call_of_entry call) ≡ Some (fd, other) }
        requires named { (table : Table) → map.get self.old.tables pid ≡ Some table → IsSome (map.get table fd) }
        requires early { self.old.clock + constants.now.epoch < 2 ^ 64 }
        ensures { (table : Table) → map.get self.old.tables pid ≡ Some table
            → IsDone (takes_memory (call_of_entry call.entry))
            (entry_outcome constants.now self.old pid table fd other (call_of_entry call.entry)) self.old self.new result }
    {
        let Some((_, here)) = open_of(&self.tables, &self.objects, pid, fd) else {
            return Ok(Answer::Reply(refused(Errno::Badf)));
        };
        let there = kind_of(&self.tables, &self.objects, pid, other);
        let caller = Caller {
            pid,
            time: self.clock + constants.epoch,
        };
        let own = self.processes.get_mut(u64::from(pid.0));
        let done = change_entries(
            self.alloc,
            own,
            &mut self.tree,
            &caller,
            &here,
            there.as_ref(),
            call,
        )?;
        forget_nameless(&mut self.tree, &self.objects, done.lost);
        Ok(Answer::Reply(done.reply))
    }
}
