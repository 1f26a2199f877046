//! The calls that make names of files, move them or take them away: what they leave of the tree and of what their process has of
//! its own.
ghost use Rattle.std.specs.Prelude.{◌≡◌, true, None, Some, IfOk, OnErr, option_copied};
ghost use Rattle.abi_types.specs.Families.{call_of_entry};
ghost use Rattle.kernel_parts.specs.Entries.{IsLeftBy};
ghost use Rattle.kernel_model.specs.Families.EntryCalls as model;
ghost use Rattle.kernel_model.specs.Families.NameMeaning.{outcome_of};
ghost use Rattle.kernel_model.specs.Families.Numbers.{can_number, next_object};
ghost use Rattle.kernel_model.specs.Outcome.{IsSuccess};
ghost use Rattle.entry_calls.specs.Done.{IsNew, LosesOnly};

use crate::process::ProcessState;
use abi_types::{EntryCall, Errno, ObjId, OpenKind, Pid, Reply};
use entry_calls::{Failure, check_entries, new_nodes, on_entries};
use file_calls::reply_of;
use file_tree::Tree;
use right_rules::{refused, success};
use std::alloc::{AllocError, Global};

/// Who does a call, and when.
#[derive(Clone, Copy)]
pub struct Caller {
    /// The process.
    pub pid: Pid,
    /// The time, in nanoseconds since 1970.
    pub time: u64,
}

/// What a call on names answers, and which node it took a name from.
#[derive(Drop)]
pub struct EntryReply {
    /// The reply.
    pub reply: Reply,
    /// The node that lost a name, where one did: no other has lost its last one.
    pub lost: Option<ObjId>,
}

// A call that took no name from a node.
fn replied(reply: Reply) -> EntryReply
    ensures { result ≡ record { reply = reply; lost = None } }
{
    EntryReply { reply, lost: None }
}

/// Does a call on names from these opens. Where its process can't number what it would make, it is refused, though for any
/// other reason first. `Err` comes only where it would else succeed, and changes nothing.
pub fn change_entries(
    alloc: Global,
    own: &mut ProcessState,
    tree: &mut Tree,
    caller: &Caller,
    here: &OpenKind,
    there: Option<&OpenKind>,
    call: EntryCall<'_>,
) -> Result<EntryReply, AllocError>
    requires new { can_number caller.now.pid (model.name_meaning (call_of_entry call)).new_nodes (Some own.old) ≡ true
        → IsNew (model.name_meaning (call_of_entry call)).new_nodes tree.old (next_object caller.now.pid (Some own.old) (model.name_meaning (call_of_entry call)).new_nodes) }
    ensures done { IfOk result (λ done. IsLeftBy caller.now.pid (model.name_meaning (call_of_entry call.entry)).new_nodes own.old own.new tree.old tree.new
        ((model.name_meaning (call_of_entry call.entry)).effect caller.now.time (next_object caller.now.pid (Some own.old) 1) tree.old (Some here.now) (option_copied there.entry)) done.reply) }
    ensures lost { IfOk result (λ done. LosesOnly tree.old tree.new done.lost) }
    ensures only { OnErr result (IsSuccess (outcome_of caller.now.pid (Some own.old) (model.name_meaning (call_of_entry call.entry)).new_nodes
        ((model.name_meaning (call_of_entry call.entry)).effect caller.now.time (next_object caller.now.pid (Some own.old) 1) tree.old (Some here.now) (option_copied there.entry))).answer) }
    ensures same_process { OnErr result (own.new ≡ own.old) }
    ensures same_tree { OnErr result (tree.new ≡ tree.old) }
{
    let count = new_nodes(call);
    let Some(new) = own.numbered(caller.pid, count) else {
        return match check_entries(tree, here, call) {
            Ok(()) => Ok(replied(refused(Errno::Again))),
            Err(refusal) => Ok(replied(reply_of(refusal))),
        };
    };
    match on_entries(alloc, tree, here, there, caller.time, new, call) {
        Ok(lost) => {
            own.make(count);
            Ok(EntryReply {
                reply: success(0, 0),
                lost,
            })
        }
        Err(Failure::Refused(refusal)) => Ok(replied(reply_of(refusal))),
        Err(Failure::NoMemory) => Err(AllocError),
    }
}
