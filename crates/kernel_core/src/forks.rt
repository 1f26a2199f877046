//! The call that makes a child of a process.
ghost use Rattle.std.specs.Prelude.{◌≡◌, ℕ, Some, IfOk, IfErr, OnOk, OnErr, true};
ghost use Rattle.std.specs.FinMap as map;
ghost use Rattle.kernel_model.specs.Done.{IsDone};
ghost use Rattle.kernel_invariant.specs.Forks.{IsChildOf};
ghost use Rattle.kernel_model.specs.Families.DescriptorCalls.{lowest_free};
ghost use Rattle.kernel_model.specs.Families.ForkCalls.{fork_at, fork_updates, forked_reply};
ghost use Rattle.kernel_model.specs.Outcome.{replies};
ghost use Rattle.kernel_model.specs.Release.{lives, release};
ghost use Rattle.kernel_model.specs.State.{ProcessState, put_all, Table};
ghost use Rattle.kernel_model.specs.Valid.{IsValid};
ghost use Rattle.process_calls.specs.Forks.{IsPlan};

use crate::kernel::Kernel;
use abi_types::{Answer, Errno, Payload, Pid, Reply, Who};
use kernel_invariant::touch_number_of;
use kernel_parts::{ensure_entry, thread_key};
use process_calls::{NewChild, plan_child, put_child};
use right_rules::{refused, success_with};
use std::alloc::AllocError;

// The reply to a call that makes this child, of which its parent has this descriptor.
fn fork_reply(fd: u32, child: Pid) -> Reply
    ensures { result ≡ forked_reply fd child }
{
    success_with(u64::from(fd), Payload::Child(child.0))
}

impl Kernel {
    // The child that a call makes, or its reply where it makes none.
    fn plan_fork(&self, who: &Who, left: u64) -> Result<NewChild, Reply>
        ensures ok { IfOk result (λ plan. (table : Table) (own : ProcessState) → map.get self.now.tables who.now.pid ≡ Some table
            → map.get self.now.processes who.now.pid ≡ Some own → IsPlan left who.now.pid who.now.tid own table plan) }
        ensures refused { IfErr result (λ reply. (table : Table) → map.get self.now.tables who.now.pid ≡ Some table
            → fork_at left who.now.pid who.now.tid (map.get self.now.processes who.now.pid) table (lowest_free table) ≡ replies reply) }
    {
        let p = u64::from(who.pid.0);
        let (Some(table), Some(own)) = (self.tables.get(p), self.processes.get(p)) else {
            return Err(refused(Errno::Badf));
        };
        plan_child(table, own, who.pid, who.tid, left)
    }

    // Makes the child. Nothing ends by it. `Err` changes nothing.
    fn bear(&mut self, plan: &NewChild) -> Result<(), AllocError>
        requires { (left : ℕ) × IsChildOf self.old left plan.now }
        ensures ok { OnOk result ((table : Table) (own : ProcessState) → map.get self.old.tables plan.now.parent ≡ Some table
            → map.get self.old.processes plan.now.parent ≡ Some own
            → self.new ≡ release (put_all (fork_updates plan.now.parent plan.now.tid own table plan.now.fd) self.old)) }
        ensures err { OnErr result (self.new ≡ self.old) }
    {
        ensure_entry(&mut self.waits, plan.child, plan.tid)?;
        let put = put_child(
            self.alloc,
            &mut self.tables,
            &mut self.processes,
            &mut self.statuses,
            &mut self.objects,
            plan,
        );
        if let Err(error) = put {
            self.waits.remove(thread_key(plan.child, plan.tid));
            return Err(error);
        }
        touch_number_of(&mut self.waits, &self.processes, plan.parent, plan.fd);
        Ok(())
    }

    // Makes a child of the process, with copies of its descriptors. `Err` changes nothing.
    pub(crate) fn proc_fork(&mut self, who: &Who, left: u64) -> Result<Answer, AllocError>
        requires there { lives (map.get self.old.statuses who.now.pid) ≡ true }
        requires valid { IsValid self.old }
        ensures { (table : Table) → map.get self.old.tables who.now.pid ≡ Some table
            → IsDone true (fork_at left who.now.pid who.now.tid (map.get self.old.processes who.now.pid) table (lowest_free table))
            self.old self.new result }
    {
        let plan = match self.plan_fork(who, left) {
            Ok(plan) => plan,
            Err(reply) => return Ok(Answer::Reply(reply)),
        };
        self.bear(&plan)?;
        Ok(Answer::Reply(fork_reply(plan.fd, plan.child)))
    }
}
