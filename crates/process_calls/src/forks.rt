//! The child that a process makes.
ghost use Rattle.std.specs.Prelude.{◌≡◌, ◌+◌, ◌<◌, ◌^◌, ℕ, None, Some, true, IfOk, IfErr, IsSome, OnOk, OnErr};
ghost use Rattle.std.specs.FinMap as map;
ghost use Rattle.abi_types.specs.declared.open_kind.OpenKind.TheVariants.{Process};
ghost use Rattle.abi_types.specs.declared.status.Status.TheVariants.{Live};
ghost use Rattle.kernel_model.specs.Families.DescriptorCalls.{lowest_free};
ghost use Rattle.kernel_model.specs.Families.ForkCalls.{child_number, child_process, fork_at};
ghost use Rattle.kernel_model.specs.Fits.{fits};
ghost use Rattle.kernel_model.specs.OwnChanges.{may_bear};
ghost use Rattle.kernel_model.specs.Outcome.{replies};
ghost use Rattle.kernel_model.specs.Release.{count_in};
ghost use Rattle.kernel_model.specs.State.{ProcessState, Table};
ghost use Rattle.maps.specs.Maps.{number, total};
ghost use Rattle.process_calls.specs.Forks.{ChildIsPut, IsOpenOf, IsPlan, MayPut};

use abi_base::MOST_DESCRIPTORS;
use abi_types::{
    Descriptor, Errno, ObjId, OpenKind, OpenType, Pid, Reply, Rights, Status, Tid, TryClone,
};
use fd_table::FdTable;
use kernel_parts::{ProcessState, add_open, hold_all};
use maps::NumMap;
use object_store::Objects;
use right_rules::{fits, refused};
use std::alloc::{AllocError, Global};

/// A child that a process is to have.
#[derive(Clone, Copy)]
pub struct NewChild {
    /// The process.
    pub parent: Pid,
    /// The thread that makes the child, and that the child has.
    pub tid: Tid,
    /// The child's number.
    pub child: Pid,
    /// The number of the parent's descriptor of it, which is free.
    pub fd: u32,
    /// The number of the child's object, which comes before that of the open.
    pub object: ObjId,
    /// The number of the descriptor's open.
    pub open: ObjId,
}

/// The child that a proc_fork of this thread makes, of a process that has these descriptors and so many turns left; or the call's reply where it
/// makes none. A free number for the descriptor is looked for first.
pub fn plan_child(
    table: &FdTable,
    own: &ProcessState,
    pid: Pid,
    tid: Tid,
    left: u64,
) -> Result<NewChild, Reply>
    requires fits { may_bear own.now ≡ true → child_number pid own.now < 2 ^ 32 }
    ensures ok { IfOk result (IsPlan left pid tid own.now table.now) }
    ensures refused { IfErr result (λ reply. fork_at left pid tid (Some own.now) table.now (lowest_free table.now) ≡ replies reply) }
{
    if table.len() == MOST_DESCRIPTORS {
        return Err(refused(Errno::Mfile));
    }
    let Some(fd) = table.lowest() else {
        unreachable!()
    };
    if !own.can_fork(pid, tid, left) {
        return Err(refused(Errno::Again));
    }
    let Some(last) = own.numbered(pid, 2) else {
        return Err(refused(Errno::Again));
    };
    Ok(NewChild {
        parent: pid,
        tid,
        child: own.next_child(pid),
        fd,
        object: ObjId(last.0 - 1),
        open: last,
    })
}

// The number under which a process's parts stand.
fn key(pid: Pid) -> u64
    ensures { result ≡ pid }
{
    u64::from(pid.0)
}

// The parent's descriptor of the child, with all rights of its type, and its open. It passes on none.
fn descriptor_of(plan: &NewChild) -> (Descriptor, OpenKind)
    ensures descriptor { result.0 ≡ record { id = plan.now.open; base = record { 0 = fits (Process plan.now.child plan.now.object) }; inheriting = record { 0 = 0 } } }
    ensures kind { result.1 ≡ Process plan.now.child plan.now.object }
{
    let descriptor = Descriptor {
        id: plan.open,
        base: fits(OpenType::Process),
        inheriting: Rights::NONE,
    };
    let kind = OpenKind::Process {
        pid: plan.child,
        object: plan.object,
    };
    (descriptor, kind)
}

// What the child starts with: its parent's descriptors, and what it has of its own.
fn parts_of(
    alloc: Global,
    tables: &NumMap<FdTable>,
    processes: &NumMap<ProcessState>,
    plan: &NewChild,
) -> Result<(FdTable, ProcessState), AllocError>
    requires bears { (own : ProcessState) → map.get processes.now plan.now.parent ≡ Some own → may_bear own ≡ true }
    requires there { (own : ProcessState) → map.get processes.now plan.now.parent ≡ Some own → IsSome (map.get own.threads plan.now.tid) }
    ensures table { IfOk result (λ made. map.get tables.now plan.now.parent ≡ Some made.0) }
    ensures own { IfOk result (λ made. (own : ProcessState) → map.get processes.now plan.now.parent ≡ Some own → made.1 ≡ child_process plan.now.tid own) }
{
    let parent = u64::from(plan.parent.0);
    let (Some(table), Some(own)) = (tables.get(parent), processes.get(parent)) else {
        return Err(AllocError);
    };
    Ok((table.copy()?, own.child(alloc, plan.tid)?))
}

// What a child has beside its descriptors, which has nothing yet. `Err` changes nothing.
fn put_own(
    processes: &mut NumMap<ProcessState>,
    statuses: &mut NumMap<Status>,
    child: u64,
    own: ProcessState,
) -> Result<(), AllocError>
    requires { map.get processes.old child ≡ None }
    ensures processes { OnOk result (processes.new ≡ map.insert processes.old child own) }
    ensures statuses { OnOk result (statuses.new ≡ map.insert statuses.old child Live) }
    ensures same_processes { OnErr result (processes.new ≡ processes.old) }
    ensures same_statuses { OnErr result (statuses.new ≡ statuses.old) }
{
    processes.insert(child, own)?;
    if let Err(_) = statuses.insert(child, Status::Live) {
        processes.remove(child);
        return Err(AllocError);
    }
    Ok(())
}

// What a child has, which has nothing yet. `Err` changes nothing.
fn put_parts(
    tables: &mut NumMap<FdTable>,
    processes: &mut NumMap<ProcessState>,
    statuses: &mut NumMap<Status>,
    child: Pid,
    table: FdTable,
    own: ProcessState,
) -> Result<(), AllocError>
    requires no_table { map.get tables.old child ≡ None }
    requires no_own { map.get processes.old child ≡ None }
    ensures tables { OnOk result (tables.new ≡ map.insert tables.old child table) }
    ensures processes { OnOk result (processes.new ≡ map.insert processes.old child own) }
    ensures statuses { OnOk result (statuses.new ≡ map.insert statuses.old child Live) }
    ensures same_tables { OnErr result (tables.new ≡ tables.old) }
    ensures same_processes { OnErr result (processes.new ≡ processes.old) }
    ensures same_statuses { OnErr result (statuses.new ≡ statuses.old) }
{
    let q = key(child);
    tables.insert(q, table)?;
    if let Err(error) = put_own(processes, statuses, q, own) {
        tables.remove(q);
        return Err(error);
    }
    Ok(())
}

/// Makes the child: it has copies of its parent's descriptors, and the parent a descriptor of it. `Err` where memory ran out, and changes nothing
/// but that a count of 0 may stand for none.
pub fn put_child(
    alloc: Global,
    tables: &mut NumMap<FdTable>,
    processes: &mut NumMap<ProcessState>,
    statuses: &mut NumMap<Status>,
    objects: &mut Objects,
    plan: &NewChild,
) -> Result<(), AllocError>
    requires may { MayPut plan.now tables.old processes.old statuses.old objects.old.kinds }
    requires unheld { number (map.get objects.old.counts plan.now.open) ≡ 0 }
    requires counted { (o : ℕ) → IsSome (map.get objects.old.kinds o) → IsSome (map.get objects.old.counts o) }
    requires opens { (table : Table) (n : ℕ) → map.get tables.old plan.now.parent ≡ Some table → IsOpenOf objects.old.kinds (map.get table n) }
    requires few { (o : ℕ) → number (map.get objects.old.counts o) < 2 ^ 62 + 2 ^ 61 }
    ensures put { OnOk result (ChildIsPut plan.now tables.old processes.old statuses.old objects.old.kinds tables.new processes.new statuses.new objects.new.kinds) }
    ensures counts { OnOk result ((o : ℕ) → number (map.get objects.new.counts o) + total (count_in o) tables.old ≡ number (map.get objects.old.counts o) + total (count_in o) tables.new) }
    ensures same_tables { OnErr result (tables.new ≡ tables.old) }
    ensures same_processes { OnErr result (processes.new ≡ processes.old) }
    ensures same_statuses { OnErr result (statuses.new ≡ statuses.old) }
    ensures same_kinds { OnErr result (objects.new.kinds ≡ objects.old.kinds) }
    ensures same_counts { OnErr result ((o : ℕ) → number (map.get objects.new.counts o) ≡ number (map.get objects.old.counts o)) }
{
    let parent = key(plan.parent);
    let (table, own) = parts_of(alloc, tables, processes, plan)?;
    let (descriptor, kind) = descriptor_of(plan);
    add_open(tables.get_mut(parent), objects, plan.fd, descriptor, kind)?;
    if let Err(error) = put_parts(tables, processes, statuses, plan.child, table, own) {
        tables.get_mut(parent).remove(plan.fd);
        objects.remove(plan.open);
        return Err(error);
    }
    hold_all(tables.get_mut(key(plan.child)), objects);
    let own = processes.get_mut(parent);
    own.count_child();
    own.make(2);
    Ok(())
}
