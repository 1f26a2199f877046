//! What ends because nothing holds it, and the nodes of the file tree that go with it.
ghost use Rattle.std.specs.Prelude.{◌≡◌, ◌≤◌, ◌⊎◌, ◌+◌, ℕ, None, Some, IsSome, true, false};
ghost use Rattle.std.specs.FinMap as map;
ghost use Rattle.std.specs.Ordering.{nat_cmp};
ghost use Rattle.channel_calls.specs.Calls.{AllGoOn, AreFew, carriers_in};
ghost use Rattle.kernel_model.specs.Channels.{Channel};
ghost use Rattle.kernel_model.specs.Release.{count_in, lives, release};
ghost use Rattle.kernel_parts.specs.Released.{IsKilledIn, state_by};
ghost use Rattle.kernel_parts.specs.Touched.{IsTouched};
ghost use Rattle.kernel_parts.specs.Touching.{HasNoLast};
ghost use Rattle.maps.specs.Maps.{number, total};
ghost use Rattle.tree_model.specs.Changes.{forgotten};
ghost use Rattle.tree_model.specs.Opens.{is_used};
ghost use Rattle.tree_model.specs.Retained.{retained};
ghost use Rattle.tree_model.specs.Tree.{IsTree};

use crate::process::ProcessState;
use crate::table::drop_table;
use crate::touching::{touch_end, touch_ended};
use abi_types::{ObjId, OpenKind, Pid, Signal, Status};
use channel_calls::{Channels, leave};
use fd_table::FdTable;
use file_tree::Tree;
use maps::NumMap;
use object_store::{Objects, node_of};
use wait_set::WaitSet;

// Lets a node go that has neither a name nor an open.
fn forget_unused(tree: &mut Tree, objects: &Objects, node: ObjId)
    ensures used { is_used objects.now.kinds tree.old node ≡ true → tree.new ≡ tree.old }
    ensures absent { map.get tree.old.nodes node ≡ None → tree.new ≡ tree.old }
    ensures unused { is_used objects.now.kinds tree.old node ≡ false → IsSome (map.get tree.old.nodes node) → tree.new ≡ forgotten tree.old node }
    ensures tree { IsTree tree.new }
{
    let Some(found) = tree.node(node) else {
        return;
    };
    if found.links == 0 && objects.opens_of(node) == 0 {
        tree.forget(node);
    }
}

// Whether a process with this status lives.
fn is_alive(status: Option<Status>) -> bool
    ensures { result ≡ lives status }
{
    matches!(status, Some(Status::Live))
}

// Kills a process, where it lives: it has nothing of its own any more, and no thread that waits. Those that wait for its end are left.
fn kill(
    pid: Pid,
    objects: &mut Objects,
    tables: &mut NumMap<FdTable>,
    processes: &mut NumMap<ProcessState>,
    statuses: &mut NumMap<Status>,
    waits: &mut WaitSet,
)
    requires { (o : ℕ) → total (count_in o) tables.old ≤ number (map.get objects.old.counts o) }
    ensures kinds { objects.new.kinds ≡ objects.old.kinds }
    ensures counts { (o : ℕ) → number (map.get objects.new.counts o) + total (count_in o) tables.old ≡ number (map.get objects.old.counts o) + total (count_in o) tables.new }
    ensures parts { IsKilledIn pid tables.old processes.old statuses.old tables.new processes.new statuses.new }
    ensures touched { (channels : map.FinMap nat_cmp Channel) (tree : Tree) → HasNoLast waits.old → IsTouched (state_by tables.old processes.old statuses.old objects.old.kinds channels tree) (state_by tables.new processes.new statuses.new objects.new.kinds channels tree) waits.old waits.new }
{
    let p = u64::from(pid.0);
    if is_alive(statuses.get(p).copied()) {
        statuses.replace(p, Status::Killed(Signal::Kill));
        touch_ended(waits, pid);
        processes.remove(p);
        drop_table(tables, p, objects);
    }
}

/// Takes each open away that nothing holds, with each open of a process that lives the process, with each end of a channel what waited
/// in the channel that it read, each channel that has lost both ends, and each node that then has neither a name nor an open. Looks at
/// no open that is held, at no channel but those of the ends that end, and at no node but those of the opens that do. Takes no memory.
///
/// `touched`: of the threads that wait those are left that stand at a channel which changes, or at the end of a process that is killed, and
/// those of such a process wait no longer.
pub fn release(
    objects: &mut Objects,
    tree: &mut Tree,
    tables: &mut NumMap<FdTable>,
    processes: &mut NumMap<ProcessState>,
    statuses: &mut NumMap<Status>,
    channels: &mut Channels,
    waits: &mut WaitSet,
)
    requires tree { IsTree tree.old }
    requires used { (n : ℕ) → IsSome (map.get tree.old.nodes n) → is_used objects.old.kinds tree.old n ≡ true }
    requires counted { (o : ℕ) → number (map.get objects.old.counts o) ≡ total (count_in o) tables.old + carriers_in o channels.old }
    requires going { AllGoOn channels.old }
    ensures state { state_by tables.new processes.new statuses.new objects.new.kinds channels.new tree.new ≡ release (state_by tables.old processes.old statuses.old objects.old.kinds channels.old tree.old) }
    ensures counted { (o : ℕ) → number (map.get objects.new.counts o) ≡ total (count_in o) tables.new + carriers_in o channels.new }
    ensures few { AreFew channels.old → AreFew channels.new }
    ensures touched { HasNoLast waits.old → IsTouched (state_by tables.old processes.old statuses.old objects.old.kinds channels.old tree.old) (state_by tables.new processes.new statuses.new objects.new.kinds channels.new tree.new) waits.old waits.new }
{
    while let Some((_, kind)) = objects.pop_unheld() {
        match kind {
            OpenKind::Process { pid, .. } => {
                kill(pid, objects, tables, processes, statuses, waits);
            }
            OpenKind::End { .. } => {
                touch_end(waits, &kind);
                leave(objects, channels, &kind);
            }
            _ => {
                if let Some(node) = node_of(&kind) {
                    forget_unused(tree, objects, node);
                }
            }
        }
    }
}

/// Takes the node away that has lost a name, where it has neither another nor an open. Looks at that node alone, since each other
/// has one of them. Takes no memory.
pub fn forget_nameless(tree: &mut Tree, objects: &Objects, lost: Option<ObjId>)
    requires tree { IsTree tree.old }
    requires others { (n : ℕ) → IsSome (map.get tree.old.nodes n) → (lost ≡ Some n) ⊎ (is_used objects.now.kinds tree.old n ≡ true) }
    ensures { tree.new ≡ retained tree.old (is_used objects.now.kinds tree.old) }
{
    if let Some(node) = lost {
        forget_unused(tree, objects, node);
    }
}
