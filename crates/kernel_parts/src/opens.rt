//! The opens of a process's descriptors: the one that a number leads to, and one more.
ghost use Rattle.std.specs.Prelude.{◌≡◌, ◌<◌, ℕ, IsSome, None, OnOk, OnErr};
ghost use Rattle.abi_base.specs.declared.limits.TheConstants.{MOST_DESCRIPTORS};
ghost use Rattle.entry_calls.specs.Done.{IsNew};
ghost use Rattle.entry_calls.specs.Plans.{change_of, new_nodes_of};
ghost use Rattle.kernel_parts.specs.Changes.{IsMoved};
ghost use Rattle.kernel_parts.specs.Entries.{kind_with, open_with};
ghost use Rattle.maps.specs.Maps.{number};
ghost use Rattle.std.specs.FinMap as map;

use abi_types::{Descriptor, ObjId, OpenKind, Pid};
use entry_calls::{OpenPlan, apply_plan};
use fd_table::FdTable;
use file_tree::Tree;
use maps::NumMap;
use object_store::Objects;
use std::alloc::{AllocError, Global};

/// A process's descriptor with this number, and its open. `None` exactly where there is no such process, descriptor or open.
pub fn open_of(
    tables: &NumMap<FdTable>,
    objects: &Objects,
    pid: Pid,
    fd: u32,
) -> Option<(Descriptor, OpenKind)>
    ensures { result ≡ open_with objects.now.kinds (map.get tables.now pid) fd }
{
    let descriptor = *tables.get(u64::from(pid.0))?.get(fd)?;
    let kind = *objects.get(descriptor.id)?;
    Some((descriptor, kind))
}

/// The open of a process's descriptor, where a number is given.
pub fn kind_of(
    tables: &NumMap<FdTable>,
    objects: &Objects,
    pid: Pid,
    fd: Option<u32>,
) -> Option<OpenKind>
    ensures { result ≡ kind_with objects.now.kinds (map.get tables.now pid) fd }
{
    let (_, kind) = open_of(tables, objects, pid, fd?)?;
    Some(kind)
}

/// What is opened: the number in the table, the descriptor and its open, and what is done to the tree, where a node that is made
/// has the number `new`.
#[derive(Clone, Copy)]
pub struct Opening {
    /// The number in the table, which is free.
    pub fd: u32,
    /// The descriptor.
    pub descriptor: Descriptor,
    /// Its open.
    pub kind: OpenKind,
    /// What is done to the tree.
    pub plan: OpenPlan,
    /// The number of the node that is made.
    pub new: ObjId,
}

/// Puts a descriptor at a free number, and its open, which it alone holds. `Err` changes nothing.
pub fn add_open(
    table: &mut FdTable,
    objects: &mut Objects,
    fd: u32,
    descriptor: Descriptor,
    kind: OpenKind,
) -> Result<(), AllocError>
    requires few { fd < MOST_DESCRIPTORS }
    requires free { map.get table.old fd ≡ None }
    requires new { map.get objects.old.kinds descriptor.id ≡ None }
    requires unheld { number (map.get objects.old.counts descriptor.id) ≡ 0 }
    ensures table { OnOk result (table.new ≡ map.insert table.old fd descriptor) }
    ensures kinds { OnOk result (objects.new.kinds ≡ map.insert objects.old.kinds descriptor.id kind) }
    ensures counts { OnOk result (IsMoved table.old table.new objects.old.counts objects.new.counts) }
    ensures there { (o : ℕ) → IsSome (map.get objects.old.counts o) → IsSome (map.get objects.new.counts o) }
    ensures same_table { OnErr result (table.new ≡ table.old) }
    ensures same_objects { OnErr result (objects.new ≡ objects.old) }
{
    let id = descriptor.id;
    table.insert_at(fd, descriptor)?;
    if let Err(error) = objects.add(id, kind) {
        table.remove(fd);
        return Err(error);
    }
    objects.hold(id);
    Ok(())
}

/// Opens what was planned for the path, at this time in nanoseconds since 1970. `Err` changes nothing but that a count of 0 may
/// stand for none.
pub fn put_opening(
    alloc: Global,
    table: &mut FdTable,
    objects: &mut Objects,
    tree: &mut Tree,
    opening: &Opening,
    path: &[u8],
    now: u64,
) -> Result<(), AllocError>
    requires few { opening.now.fd < MOST_DESCRIPTORS }
    requires free { map.get table.old opening.now.fd ≡ None }
    requires new { map.get objects.old.kinds opening.now.descriptor.id ≡ None }
    requires unheld { number (map.get objects.old.counts opening.now.descriptor.id) ≡ 0 }
    requires made { IsNew (new_nodes_of opening.now.plan) tree.old opening.now.new }
    ensures table { OnOk result (table.new ≡ map.insert table.old opening.now.fd opening.now.descriptor) }
    ensures kinds { OnOk result (objects.new.kinds ≡ map.insert objects.old.kinds opening.now.descriptor.id opening.now.kind) }
    ensures counts { OnOk result (IsMoved table.old table.new objects.old.counts objects.new.counts) }
    ensures tree { OnOk result (tree.new ≡ (change_of opening.now.plan path.now now opening.now.new tree.old).tree) }
    ensures same_table { OnErr result (table.new ≡ table.old) }
    ensures same_kinds { OnErr result (objects.new.kinds ≡ objects.old.kinds) }
    ensures same_counts { OnErr result ((o : ℕ) → number (map.get objects.new.counts o) ≡ number (map.get objects.old.counts o)) }
    ensures same_tree { OnErr result (tree.new ≡ tree.old) }
{
    add_open(table, objects, opening.fd, opening.descriptor, opening.kind)?;
    if let Err(error) = apply_plan(alloc, tree, &opening.plan, path, now, opening.new) {
        table.remove(opening.fd);
        objects.remove(opening.descriptor.id);
        return Err(error);
    }
    Ok(())
}
