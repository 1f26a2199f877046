//! The call that lets another program begin in a process.
ghost use Rattle.std.specs.Prelude.{◌≡◌, ℕ, Some, true, IfOk, IfErr, OnErr};
ghost use Rattle.std.specs.FinMap as map;
ghost use Rattle.fd_table.specs.Table.{IsTable};
ghost use Rattle.kernel_model.specs.Done.{IsDone};
ghost use Rattle.process_calls.specs.NewPrograms.{Begins, begun_updates, exec_outcome};
ghost use Rattle.kernel_model.specs.Families.ClockCalls.{can_draw};
ghost use Rattle.kernel_model.specs.Outcome.{IsSuccess, replies};
ghost use Rattle.kernel_model.specs.Release.{lives, release};
ghost use Rattle.kernel_model.specs.Start.{canary_words};
ghost use Rattle.kernel_model.specs.State.{ProcessState, put_all, Table};
ghost use Rattle.kernel_model.specs.Valid.{IsNearlyValid, IsValid};
ghost use Rattle.process_calls.specs.Forks.{IsOpenOf};

use crate::kernel::Kernel;
use abi_types::{Answer, Constants, Errno, Payload, Pid, Reply, Tid, Who};
use fd_table::FdTable;
use kernel_parts::{keep_thread, open_of, release, touch_numbers};
use process_calls::{NewProgram, plan_program, program_of, put_table};
use right_rules::{refused, success_with};
use std::alloc::AllocError;

impl Kernel {
    // The program that a call lets begin, or the reply where it lets none. All that takes memory is done here.
    fn plan_exec(
        &self,
        constants: &Constants,
        who: &Who,
        fd: u32,
        fds: &[u32],
    ) -> Result<Result<NewProgram, Reply>, AllocError>
        ensures ok { IfOk result (λ planned. IfOk planned (λ new. (table : Table) → map.get self.now.tables who.now.pid ≡ Some table
            → Begins (exec_outcome constants.now.key self.now who.now.pid who.now.tid table fd fds.now) self.now who.now.pid who.now.tid new)) }
        ensures refused { IfOk result (λ planned. IfErr planned (λ reply. (table : Table) → map.get self.now.tables who.now.pid ≡ Some table
            → exec_outcome constants.now.key self.now who.now.pid who.now.tid table fd fds.now ≡ replies reply)) }
        ensures only { OnErr result ((table : Table) → map.get self.now.tables who.now.pid ≡ Some table
            → IsSuccess (exec_outcome constants.now.key self.now who.now.pid who.now.tid table fd fds.now).answer) }
    {
        let p = u64::from(who.pid.0);
        let (Some(table), Some(own)) = (self.tables.get(p), self.processes.get(p)) else {
            return Ok(Err(refused(Errno::Badf)));
        };
        let Some((_, kind)) = open_of(&self.tables, &self.objects, who.pid, fd) else {
            return Ok(Err(refused(Errno::Badf)));
        };
        let Some(elf) = program_of(&self.tree, &kind) else {
            return Ok(Err(refused(Errno::Badf)));
        };
        plan_program(self.alloc, constants, who.pid, own, table, elf, fds)
    }

    // Lets a program begin in the process, by this thread, with these descriptors. What nothing holds any more ends.
    fn begin(&mut self, pid: Pid, tid: Tid, table: FdTable)
        requires there { lives (map.get self.old.statuses pid) ≡ true }
        requires can { (own : ProcessState) → map.get self.old.processes pid ≡ Some own → can_draw canary_words own ≡ true }
        requires small { IsTable table }
        requires opens { (n : ℕ) → IsOpenOf self.old.opens (map.get table n) }
        requires nearly { (own : ProcessState) → map.get self.old.processes pid ≡ Some own
            → IsNearlyValid (put_all (begun_updates pid tid own table) self.old) }
        ensures { (own : ProcessState) → map.get self.old.processes pid ≡ Some own
            → self.new ≡ release (put_all (begun_updates pid tid own table) self.old) }
    {
        let p = u64::from(pid.0);
        keep_thread(&mut self.waits, pid, tid);
        touch_numbers(&mut self.waits, pid);
        let own = self.processes.get_mut(p);
        own.begin_anew(tid);
        put_table(self.tables.get_mut(p), &mut self.objects, table);
        release(
            &mut self.objects,
            &mut self.tree,
            &mut self.tables,
            &mut self.processes,
            &mut self.statuses,
            &mut self.channels,
            &mut self.waits,
        );
    }

    // Lets the program of a descriptor begin in the process, with the descriptors that are listed. `Err` changes nothing.
    pub(crate) fn proc_exec(
        &mut self,
        constants: &Constants,
        who: &Who,
        fd: u32,
        fds: &[u32],
    ) -> Result<Answer, AllocError>
        requires there { lives (map.get self.old.statuses who.now.pid) ≡ true }
        requires valid { IsValid self.old }
        ensures { (table : Table) → map.get self.old.tables who.now.pid ≡ Some table
            → IsDone true (exec_outcome constants.now.key self.old who.now.pid who.now.tid table fd fds.now)
            self.old self.new result }
    {
        let NewProgram { elf, canary, table } = match self.plan_exec(constants, who, fd, fds)? {
            Ok(new) => new,
            Err(reply) => return Ok(Answer::Reply(reply)),
        };
        self.begin(who.pid, who.tid, table);
        let image = Payload::Image { elf, canary };
        Ok(Answer::Reply(success_with(0, image)))
    }
}
