//! What a launched process starts with: its descriptors and their opens.
ghost use Rattle.std.specs.Prelude.{◌≡◌, ◌+◌, ◌^◌, ◌<◌, ◌≤◌, [], length, IfOk, OnOk, None, option_copied};
ghost use Rattle.std.specs.FinMap as map;
ghost use Rattle.kernel_model.specs.Start.{launch_object, first_open, open_of, open_of_node, granted_descriptor, granted_open, granted_table, unwritten};
ghost use Rattle.kernel_parts.specs.Start.{granted_objects};

use crate::terminal::Terminal;
use abi_base::MOST_DESCRIPTORS;
use abi_types::{Bytes, Descriptor, Grant, GrantTarget, NodeKind, ObjId, OpenKind, TryClone};
use fd_table::FdTable;
use file_tree::Tree;
use maps::NumMap;
use object_store::Objects;
use std::alloc::{AllocError, Global};

/// The process number that stands in the numbers of the objects that the launch makes.
pub const LAUNCH_PROCESS: u64 = 0xffff_ffff;

// The count of the tree's root among the launch's objects: 1 to 3 are the standard streams, and behind the root come the
// tree's other nodes, and then the opens of the granted descriptors.
const ROOT_COUNT: u64 = 4;

/// The number of the launch's object with this count.
pub fn launch_object(count: u64) -> ObjId
    requires { count < 2 ^ 32 }
    ensures { result ≡ launch_object count }
{
    ObjId((LAUNCH_PROCESS << 32) + count)
}

/// A map with one entry.
pub fn single<V: Drop>(alloc: Global, key: u64, value: V) -> Result<NumMap<V>, AllocError>
    ensures { IfOk result (λ made. made ≡ map.insert map.empty key value) }
{
    let mut made = NumMap::new(alloc);
    made.insert(key, value)?;
    Ok(made)
}

/// The three standard streams, where these bytes can be read from standard input, with nothing written.
pub fn streams(alloc: Global, stdin: &Bytes) -> Result<NumMap<Terminal>, AllocError>
    ensures { IfOk result (λ made. made ≡ map.insert (map.insert (map.insert map.empty 0 (unwritten stdin.now)) 1 (unwritten [])) 2 (unwritten [])) }
{
    let mut made = single(alloc, 0, Terminal::new(alloc, stdin.copy()?))?;
    made.insert(1, Terminal::new(alloc, Bytes::new(alloc)))?;
    made.insert(2, Terminal::new(alloc, Bytes::new(alloc)))?;
    Ok(made)
}

// What a node is opened as.
fn open_of_node(tree: &Tree, id: ObjId) -> OpenKind
    ensures { result ≡ open_of_node id (map.get tree.now.nodes id) }
{
    match tree.node(id) {
        Some(node) if matches!(node.kind, NodeKind::Directory) => OpenKind::Directory {
            node: id,
            flags: 0,
        },
        _ => OpenKind::File {
            node: id,
            offset: 0,
            flags: 0,
        },
    }
}

// What a grant opens.
fn open_of(tree: &Tree, target: GrantTarget) -> OpenKind
    ensures { result ≡ open_of tree.now target }
{
    match target {
        GrantTarget::Terminal(which) => OpenKind::Terminal { which, flags: 0 },
        GrantTarget::Node(id) => open_of_node(tree, id),
    }
}

// Puts a granted descriptor at its number, and its open, which it alone holds.
fn put_grant(
    table: &mut FdTable,
    objects: &mut Objects,
    tree: &Tree,
    number: u64,
    grant: &Grant,
) -> Result<(), AllocError>
    requires few { number < MOST_DESCRIPTORS }
    requires nodes { map.len tree.now.nodes ≤ 2 ^ 31 }
    requires free { map.get objects.old.kinds (first_open tree.now + number) ≡ None }
    ensures table { OnOk result (table.new ≡ map.insert table.old number (granted_descriptor tree.now number grant.now)) }
    ensures objects { OnOk result (objects.new ≡ record {
      kinds = map.insert objects.old.kinds (first_open tree.now + number) (granted_open tree.now number grant.now);
      counts = map.insert objects.old.counts (first_open tree.now + number) 1;
    }) }
{
    let id = launch_object(ROOT_COUNT + tree.len() + number);
    objects.add(id, open_of(tree, grant.target))?;
    objects.hold(id);
    let descriptor = Descriptor {
        id,
        base: grant.base,
        inheriting: grant.inheriting,
    };
    table.insert_at(number as u32, descriptor)?;
    Ok(())
}

/// The table of the granted descriptors, and their opens, each held once.
pub fn granted(
    alloc: Global,
    tree: &Tree,
    grants: &[Grant],
) -> Result<(FdTable, Objects), AllocError>
    requires nodes { map.len tree.now.nodes ≤ 2 ^ 31 }
    requires few { length grants.now ≤ MOST_DESCRIPTORS }
    ensures { IfOk result (λ made. (made.0 ≡ granted_table tree.now grants.now) × (made.1 ≡ granted_objects tree.now grants.now)) }
{
    let mut table = FdTable::new(alloc);
    let mut objects = Objects::new(alloc);
    for (number, grant) in grants.iter().enumerate() {
        put_grant(&mut table, &mut objects, tree, number as u64, grant)?;
    }
    Ok((table, objects))
}
