//! Changes of a process's descriptors, with the holders of the opens that they name.
ghost use Rattle.std.specs.Prelude.{◌≡◌, ◌^◌, ◌<◌, ◌≤◌, ℕ, true, OnOk, IsSome, bit_and};
ghost use Rattle.std.specs.FinMap as map;
ghost use Rattle.abi_types.specs.Families.{call_of_change};
ghost use Rattle.abi_types.specs.declared.reply.Answer.TheVariants as answer;
ghost use Rattle.maps.specs.Maps.{number};
ghost use Rattle.kernel_parts.specs.Changes.{change_outcome, opens_after, stat_put_at, table_after, HasReplaced, IsChangeDone, IsMoved};
ghost use Rattle.kernel_model.specs.Calls.{takes_memory};
ghost use Rattle.kernel_model.specs.Families.DescriptorCalls.{dup_of, replaced_by, with_flags};
ghost use Rattle.kernel_model.specs.Release.{count_in};

use abi_base::MOST_DESCRIPTORS;
use abi_types::flags::{FDSTAT_FLAGS, FDSTAT_RIGHTS};
use abi_types::{DescriptorChange, Errno, FdStat, OpenKind, Reply};
use fd_table::FdTable;
use object_store::Objects;
use right_rules::{refused, success};
use std::alloc::AllocError;

// Takes a number away, and lets its open go.
fn close(table: &mut FdTable, objects: &mut Objects, fd: u32)
    requires { (o : ℕ) → count_in o table.old ≤ number (map.get objects.old.counts o) }
    ensures table { table.new ≡ map.remove table.old fd }
    ensures kinds { objects.new.kinds ≡ objects.old.kinds }
    ensures counts { IsMoved table.old table.new objects.old.counts objects.new.counts }
{
    if let Some(gone) = table.remove(fd) {
        objects.let_go(gone.id);
    }
}

// Gives what a number stands for the lowest number that is free.
fn dup(table: &mut FdTable, objects: &mut Objects, fd: u32) -> Result<Reply, AllocError>
    requires covered { (o : ℕ) → count_in o table.old ≤ number (map.get objects.old.counts o) }
    requires few { (o : ℕ) → number (map.get objects.old.counts o) < 2 ^ 63 }
    ensures done { (p : ℕ) → IsChangeDone true (dup_of p table.old (map.get table.old fd)) table.old table.new objects.old objects.new result }
    ensures counts { OnOk result (IsMoved table.old table.new objects.old.counts objects.new.counts) }
{
    let Some(held) = table.get(fd) else {
        return Ok(refused(Errno::Badf));
    };
    let descriptor = *held;
    if table.len() == MOST_DESCRIPTORS {
        return Ok(refused(Errno::Mfile));
    }
    let Some(number) = table.lowest() else {
        unreachable!()
    };
    let id = descriptor.id;
    table.insert_at(number, descriptor)?;
    objects.hold(id);
    Ok(success(u64::from(number), 0))
}

// Gives `to` what `from` stands for, and lets go what it was.
fn replace(table: &mut FdTable, objects: &mut Objects, from: u32, to: u32) -> Reply
    requires covered { (o : ℕ) → count_in o table.old ≤ number (map.get objects.old.counts o) }
    requires few { (o : ℕ) → number (map.get objects.old.counts o) < 2 ^ 63 }
    requires there { IsSome (map.get table.old to) }
    ensures reply { (p : ℕ) → answer.Reply result ≡ (replaced_by p table.old to (map.get table.old from)).answer }
    ensures table { (p : ℕ) → table.new ≡ table_after table.old (replaced_by p table.old to (map.get table.old from)).updates }
    ensures kinds { objects.new.kinds ≡ objects.old.kinds }
    ensures counts { IsMoved table.old table.new objects.old.counts objects.new.counts }
{
    let Some(held) = table.get(from) else {
        return refused(Errno::Badf);
    };
    let descriptor = *held;
    objects.hold(descriptor.id);
    if let Some(gone) = table.replace(to, descriptor) {
        objects.let_go(gone.id);
    }
    success(0, 0)
}

// The open with these flags. A process has none.
fn with_flags(kind: OpenKind, flags: u16) -> OpenKind
    ensures { result ≡ with_flags kind flags }
{
    match kind {
        OpenKind::File { node, offset, .. } => OpenKind::File {
            node,
            offset,
            flags,
        },
        OpenKind::Directory { node, .. } => OpenKind::Directory { node, flags },
        OpenKind::End {
            reads,
            writes,
            kind,
            ..
        } => OpenKind::End {
            reads,
            writes,
            flags,
            kind,
        },
        OpenKind::Terminal { which, .. } => OpenKind::Terminal { which, flags },
        OpenKind::Process { pid, object } => OpenKind::Process { pid, object },
    }
}

// Sets the flags of a descriptor's open, where the flags have 1, and lowers the descriptor's rights, where they have 2.
fn stat_put(table: &mut FdTable, objects: &mut Objects, fd: u32, stat: &FdStat, flags: u32) -> Reply
    ensures reply { (p : ℕ) → answer.Reply result ≡ (stat_put_at p objects.old.kinds table.old fd stat.now flags (map.get table.old fd)).answer }
    ensures table { (p : ℕ) → table.new ≡ table_after table.old (stat_put_at p objects.old.kinds table.old fd stat.now flags (map.get table.old fd)).updates }
    ensures kinds { (p : ℕ) → objects.new.kinds ≡ opens_after objects.old.kinds (stat_put_at p objects.old.kinds table.old fd stat.now flags (map.get table.old fd)).updates }
    ensures counts { IsMoved table.old table.new objects.old.counts objects.new.counts }
{
    let Some(held) = table.get(fd) else {
        return refused(Errno::Badf);
    };
    let descriptor = *held;
    let Some(kind) = objects.get(descriptor.id) else {
        return refused(Errno::Badf);
    };
    if flags & FDSTAT_FLAGS != 0 {
        let kind = with_flags(*kind, stat.flags);
        objects.set(descriptor.id, kind);
    }
    if flags & FDSTAT_RIGHTS != 0 {
        let base = descriptor.base.meet(stat.base);
        let inheriting = descriptor.inheriting.meet(stat.inheriting);
        table.lower(fd, base, inheriting);
    }
    success(0, 0)
}

/// Makes the change. The counts of holders change with the table; an open that nothing holds any more stays. Where
/// memory runs out, which only `Dup` meets, and only where it would else succeed, nothing changes.
pub fn change_table(
    table: &mut FdTable,
    objects: &mut Objects,
    change: DescriptorChange,
) -> Result<Reply, AllocError>
    requires covered { (o : ℕ) → count_in o table.old ≤ number (map.get objects.old.counts o) }
    requires few { (o : ℕ) → number (map.get objects.old.counts o) < 2 ^ 63 }
    requires replaced { HasReplaced table.old change }
    ensures done { (p : ℕ) → IsChangeDone (takes_memory (call_of_change change)) (change_outcome p objects.old.kinds table.old change) table.old table.new objects.old objects.new result }
    ensures counts { OnOk result (IsMoved table.old table.new objects.old.counts objects.new.counts) }
{
    match change {
        DescriptorChange::Close { fd } => {
            close(table, objects, fd);
            Ok(success(0, 0))
        }
        DescriptorChange::Dup { fd } => dup(table, objects, fd),
        DescriptorChange::Replace { from, to } => Ok(replace(table, objects, from, to)),
        DescriptorChange::StatPut { fd, stat, flags } => {
            Ok(stat_put(table, objects, fd, &stat, flags))
        }
    }
}
