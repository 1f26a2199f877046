//! Holding what a table names, and letting go of it.
ghost use Rattle.std.specs.Prelude.{◌≡◌, ℕ, ◌+◌, ◌≤◌, ◌^◌, Some, IsSome};
ghost use Rattle.std.specs.FinMap as map;
ghost use Rattle.abi_types.specs.declared.descriptor.Descriptor.{Descriptor};
ghost use Rattle.maps.specs.Maps.{number, total};
ghost use Rattle.kernel_model.specs.Release.{count_in};

use fd_table::FdTable;
use maps::NumMap;
use object_store::Objects;

/// Empties a table: each open has as many holders less as the table named it.
pub fn let_go_all(table: &mut FdTable, objects: &mut Objects)
    requires { (o : ℕ) → count_in o table.old ≤ number (map.get objects.old.counts o) }
    ensures empty { table.new ≡ map.empty }
    ensures kinds { objects.new.kinds ≡ objects.old.kinds }
    ensures counts { (o : ℕ) → number (map.get objects.new.counts o) + count_in o table.old ≡ number (map.get objects.old.counts o) }
{
    while let Some((_, descriptor)) = table.pop_first() {
        objects.let_go(descriptor.id);
    }
}

/// Takes a process's table away, if it has one: each open has as many holders less as the table named it.
pub fn drop_table(tables: &mut NumMap<FdTable>, process: u64, objects: &mut Objects)
    requires { (o : ℕ) → total (count_in o) tables.old ≤ number (map.get objects.old.counts o) }
    ensures tables { tables.new ≡ map.remove tables.old process }
    ensures kinds { objects.new.kinds ≡ objects.old.kinds }
    ensures counts { (o : ℕ) → number (map.get objects.new.counts o) + total (count_in o) tables.old ≡ number (map.get objects.old.counts o) + total (count_in o) tables.new }
{
    if let Some(mut table) = tables.remove(process) {
        let_go_all(&mut table, objects);
    }
}

/// Each open has as many holders more as the table names it. Looks at no number above the table's highest.
pub fn hold_all(table: &FdTable, objects: &mut Objects)
    requires there { (n : ℕ) (d : Descriptor) → map.get table.now n ≡ Some d → IsSome (map.get objects.old.counts d.id) }
    requires few { (o : ℕ) → number (map.get objects.old.counts o) ≤ 2 ^ 62 + 2 ^ 61 }
    ensures kinds { objects.new.kinds ≡ objects.old.kinds }
    ensures counts { (o : ℕ) → number (map.get objects.new.counts o) ≡ number (map.get objects.old.counts o) + count_in o table.now }
{
    let mut left = table.len();
    let mut fd = 0;
    while left > 0 {
        if let Some(descriptor) = table.get(fd) {
            objects.hold(descriptor.id);
            left -= 1;
        }
        fd += 1;
    }
}
