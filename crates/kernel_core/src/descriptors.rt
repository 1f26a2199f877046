//! The calls that look at a process's descriptors or change them.
ghost use Rattle.std.specs.Prelude.{◌≡◌, Some, true};
ghost use Rattle.std.specs.FinMap as map;
ghost use Rattle.abi_types.specs.Families.{call_of_change};
ghost use Rattle.abi_types.specs.declared.reply.Answer.TheVariants as answer;
ghost use Rattle.kernel_model.specs.Done.{IsDone};
ghost use Rattle.kernel_model.specs.Calls.{takes_memory};
ghost use Rattle.kernel_model.specs.Families.DescriptorCalls.{stat_get, stat_of, flags_of};
ghost use Rattle.kernel_model.specs.Release.{lives};
ghost use Rattle.kernel_model.specs.State.{Table};
ghost use Rattle.kernel_model.specs.View.{whole};
ghost use Rattle.kernel_parts.specs.Changes.{change_outcome, HasReplaced};
ghost use Rattle.kernel_invariant.specs.Readiness.{number_changed, number_given, open_changed};

use crate::kernel::Kernel;
use abi_types::{
    Answer, Descriptor, DescriptorChange, Errno, FdStat, OpenKind, Payload, Pid, Reply,
};
use file_calls::type_number;
use kernel_invariant::touch_changed;
use kernel_parts::{change_table, open_of, release};
use right_rules::{refused, success_with};
use std::alloc::AllocError;

// An open's flags. A process has none.
fn flags_of(kind: &OpenKind) -> u16
    ensures { result ≡ flags_of kind.now }
{
    match kind {
        OpenKind::File { flags, .. }
        | OpenKind::Directory { flags, .. }
        | OpenKind::End { flags, .. }
        | OpenKind::Terminal { flags, .. } => *flags,
        OpenKind::Process { .. } => 0,
    }
}

// What a descriptor of the open is and may do.
fn stat_of(descriptor: &Descriptor, kind: &OpenKind) -> FdStat
    ensures { result ≡ stat_of descriptor.now kind.now }
{
    FdStat {
        kind: type_number(kind),
        flags: flags_of(kind),
        base: descriptor.base,
        inheriting: descriptor.inheriting,
    }
}

impl Kernel {
    // What the descriptor is and may do.
    pub(crate) fn fd_stat_get(&self, pid: Pid, fd: u32) -> Reply
        ensures { (table : Table) → map.get self.now.tables pid ≡ Some table → answer.Reply result ≡ (stat_get (whole self.now) (map.get table fd)).answer }
    {
        match open_of(&self.tables, &self.objects, pid, fd) {
            None => refused(Errno::Badf),
            Some((descriptor, kind)) => {
                success_with(0, Payload::FdStat(stat_of(&descriptor, &kind)))
            }
        }
    }

    // The lowest free number of a process, if there is one.
    fn lowest_free(&self, pid: Pid) -> Option<u32>
        ensures { result ≡ number_given (map.get self.now.tables pid) }
    {
        self.tables.get(u64::from(pid.0))?.lowest()
    }

    // The number that a change gives to something else, if it does, and the open whose flags it may put.
    fn changed_by(&self, pid: Pid, change: DescriptorChange) -> (Option<u32>, Option<OpenKind>)
        ensures number { result.0 ≡ number_changed (map.get self.now.tables pid) change }
        ensures open { result.1 ≡ open_changed self.now.opens (map.get self.now.tables pid) change }
    {
        match change {
            DescriptorChange::Close { fd } | DescriptorChange::Replace { to: fd, .. } => {
                (Some(fd), None)
            }
            DescriptorChange::Dup { .. } => (self.lowest_free(pid), None),
            DescriptorChange::StatPut { fd, .. } => (
                Some(fd),
                open_of(&self.tables, &self.objects, pid, fd).map(|(_, kind)| kind),
            ),
        }
    }

    // Changes the process's descriptors. What nothing holds any more ends. `Err` changes nothing.
    pub(crate) fn change_descriptors(
        &mut self,
        pid: Pid,
        change: DescriptorChange,
    ) -> Result<Answer, AllocError>
        requires there { lives (map.get self.old.statuses pid) ≡ true }
        requires replaced { (table : Table) → map.get self.old.tables pid ≡ Some table → HasReplaced table change }
        ensures { (table : Table) → map.get self.old.tables pid ≡ Some table
            → IsDone (takes_memory (call_of_change change)) (change_outcome pid self.old.opens table change)
            self.old self.new result }
    {
        let p = u64::from(pid.0);
        let changed = self.changed_by(pid, change);
        let reply = change_table(self.tables.get_mut(p), &mut self.objects, change)?;
        touch_changed(&mut self.waits, &self.processes, pid, &changed);
        release(
            &mut self.objects,
            &mut self.tree,
            &mut self.tables,
            &mut self.processes,
            &mut self.statuses,
            &mut self.channels,
            &mut self.waits,
        );
        Ok(Answer::Reply(reply))
    }
}
