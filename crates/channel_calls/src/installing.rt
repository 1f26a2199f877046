//! Descriptors that come into a table.
ghost use Rattle.std.specs.Prelude.{◌≡◌, ◌+◌, ◌++◌, ◌≤◌, length, OnOk, OnErr, Some};
ghost use Rattle.std.specs.FinMap as map;
ghost use Rattle.abi_base.specs.declared.limits.TheConstants.{MOST_DESCRIPTORS};
ghost use Rattle.kernel_model.specs.Families.ChannelCalls.{Installed, install};

use abi_types::{Descriptor, FdList};
use fd_table::FdTable;
use std::alloc::AllocError;

/// Puts the descriptors at the lowest free numbers of a table, of which there are enough, and the numbers at the end of the list. `Err`
/// leaves the table as it is.
pub(crate) fn install(
    table: &mut FdTable,
    descriptors: &[Descriptor],
    numbers: &mut FdList,
) -> Result<(), AllocError>
    requires free { length descriptors.now + map.len table.old ≤ MOST_DESCRIPTORS }
    ensures ok { OnOk result ((installed : Installed) × (install table.old descriptors.now ≡ Some installed) × (table.new ≡ installed.table) × (numbers.new ≡ numbers.old ++ installed.fds)) }
    ensures err { OnErr result (table.new ≡ table.old) }
{
    let Some((first, rest)) = descriptors.split_first() else {
        return Ok(());
    };
    let Some(number) = table.lowest() else {
        unreachable!()
    };
    numbers.push(number)?;
    table.insert_at(number, *first)?;
    if let Err(error) = install(table, rest, numbers) {
        table.remove(number);
        return Err(error);
    }
    Ok(())
}
