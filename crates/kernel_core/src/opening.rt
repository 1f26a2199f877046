//! The call that opens what a path leads to.
ghost use Rattle.std.specs.Prelude.{◌≡◌, ◌+◌, ◌<◌, ◌^◌, ℕ, Some, IfOk, IfErr, true};
ghost use Rattle.std.specs.FinMap as map;
ghost use Rattle.kernel_model.specs.Done.{IsDone};
ghost use Rattle.kernel_core.specs.Opening.{IsOpening, open_outcome};
ghost use Rattle.kernel_model.specs.Families.ClockCalls.{real_time};
ghost use Rattle.kernel_model.specs.Outcome.{replies};
ghost use Rattle.kernel_model.specs.Release.{lives};
ghost use Rattle.kernel_model.specs.State.{Table};

use crate::kernel::Kernel;
use abi_types::{Answer, Constants, Errno, ObjId, OpenCall, Pid, Reply};
use entry_calls::plan_open;
use file_calls::reply_of;
use kernel_invariant::touch_number_of;
use kernel_parts::{Opening, open_of, put_opening};
use right_rules::{refused, success};
use std::alloc::AllocError;

impl Kernel {
    // What a call opens, or its reply where it opens nothing. A free number is looked for first.
    fn plan_opening(&self, pid: Pid, call: &OpenCall<'_>) -> Result<Opening, Reply>
        ensures ok { IfOk result (λ opening. (table : Table) → map.get self.now.tables pid ≡ Some table
            → IsOpening self.now pid table call.now.lookup call.now.path.now call.now.oflags call.now.stat opening) }
        ensures refused { IfErr result (λ reply. (table : Table) → map.get self.now.tables pid ≡ Some table
            → (now : ℕ) → open_outcome now self.now pid table call.now.lookup call.now.path.now call.now.oflags call.now.stat ≡ replies reply) }
    {
        let p = u64::from(pid.0);
        let (Some(table), Some(own)) = (self.tables.get(p), self.processes.get(p)) else {
            return Err(refused(Errno::Badf));
        };
        let Some(fd) = table.lowest() else {
            return Err(refused(Errno::Mfile));
        };
        let Some((_, here)) = open_of(&self.tables, &self.objects, pid, call.lookup.fd) else {
            return Err(refused(Errno::Badf));
        };
        let plan = match plan_open(&self.tree, &here, call.oflags, call.lookup.flags, call.path) {
            Ok(plan) => plan,
            Err(refusal) => return Err(reply_of(refusal)),
        };
        let Some(id) = own.numbered(pid, plan.new_nodes() + 1) else {
            return Err(refused(Errno::Again));
        };
        let new = ObjId(id.0 - u64::from(plan.new_nodes()));
        Ok(Opening {
            fd,
            descriptor: plan.descriptor(id, &call.stat),
            kind: plan.kind(call.stat.flags, new),
            plan,
            new,
        })
    }

    // Opens what the path leads to. No node loses a name or an open by it, so none goes. `Err` changes nothing.
    pub(crate) fn file_open(
        &mut self,
        constants: &Constants,
        pid: Pid,
        call: &OpenCall<'_>,
    ) -> Result<Answer, AllocError>
        requires there { lives (map.get self.old.statuses pid) ≡ true }
        requires early { self.old.clock + constants.now.epoch < 2 ^ 64 }
        ensures { (table : Table) → map.get self.old.tables pid ≡ Some table
            → IsDone true
            (open_outcome (real_time constants.now self.old.clock) self.old pid table call.now.lookup call.now.path.now call.now.oflags call.now.stat)
            self.old self.new result }
    {
        let opening = match self.plan_opening(pid, call) {
            Ok(opening) => opening,
            Err(reply) => return Ok(Answer::Reply(reply)),
        };
        let p = u64::from(pid.0);
        let now = self.clock + constants.epoch;
        let table = self.tables.get_mut(p);
        put_opening(
            self.alloc,
            table,
            &mut self.objects,
            &mut self.tree,
            &opening,
            call.path,
            now,
        )?;
        self.processes.get_mut(p).make(opening.plan.new_nodes() + 1);
        touch_number_of(&mut self.waits, &self.processes, pid, opening.fd);
        Ok(Answer::Reply(success(u64::from(opening.fd), 0)))
    }
}
