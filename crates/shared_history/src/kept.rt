//! What a run keeps of its history in memory.
ghost use Rattle.std.specs.Prelude.{◌≡◌, ◌<◌, [], ◌∷◌, ◌++◌, OnOk};
ghost use Rattle.denied_calls.specs.DeniedCalls.{denied_calls};
ghost use Rattle.shared_history.specs.Entries.{answered_call};
ghost use Rattle.shared_history.specs.Kept.{kept_of, listed, HasRoom};

use crate::entries::{EntryHead, act_of};
use abi_types::{Answer, Call, WakeIn};
use block_list::BlockList;
use denied_calls::DeniedCall;
use run_types::Entry;
use std::alloc::{AllocError, Global};

/// What is kept of a history in memory: its denied calls, of which a report without the history is written, and its entries, or none of
/// them.
#[derive(Drop)]
pub struct Kept {
    /// Whether the entries are kept.
    pub all: bool,
    /// The entries, in their order, where they are kept.
    pub entries: BlockList<Entry>,
    /// The denied calls, in their order.
    pub denied: BlockList<DeniedCall>,
}

// Puts a denied call, if there is one, at the end.
fn push_denied(denied: &mut BlockList<DeniedCall>, call: Option<DeniedCall>)
    requires { 0 < denied.old.room }
    ensures { denied.new.items ≡ denied.old.items ++ listed call }
{
    if let Some(call) = call {
        denied.push_reserved(call);
    }
}

impl Kept {
    /// Of a history without an entry.
    pub fn new(alloc: Global, all: bool) -> Kept
        ensures all { result.all ≡ all }
        ensures entries { result.entries.items ≡ [] }
        ensures denied { result.denied.items ≡ [] }
    {
        Kept {
            all,
            entries: BlockList::new(alloc),
            denied: BlockList::new(alloc),
        }
    }

    /// Makes room for one more entry. `Err` where memory ran out.
    pub fn reserve(&mut self) -> Result<(), AllocError>
        ensures all { self.new.all ≡ self.old.all }
        ensures entries { self.new.entries.items ≡ self.old.entries.items }
        ensures denied { self.new.denied.items ≡ self.old.denied.items }
        ensures ok { OnOk result (HasRoom self.new) }
    {
        self.denied.reserve()?;
        if self.all {
            self.entries.reserve()
        } else {
            Ok(())
        }
    }

    /// Keeps the entry, and the call that it denies, as they are to be kept.
    pub fn take(&mut self, entry: Entry)
        requires { HasRoom self.old }
        ensures all { self.new.all ≡ self.old.all }
        ensures entries { self.new.entries.items ≡ self.old.entries.items ++ kept_of self.old.all (entry ∷ []) }
        ensures denied { self.new.denied.items ≡ self.old.denied.items ++ denied_calls (entry ∷ []) }
    {
        push_denied(&mut self.denied, DeniedCall::of_entry(&entry));
        if self.all {
            self.entries.push_reserved(entry);
        }
    }

    /// The same of the entry of a thread's call, or of the wake of a thread that waited in the call, where something was given to it.
    /// The entry is made only where it is kept.
    #[tactic(auto, using(crate::proofs::KeptEntries::denied_as_call))]
    pub fn take_call(&mut self, head: EntryHead, call: Call, given: Option<WakeIn>, answer: Answer)
        requires { HasRoom self.old }
        ensures all { self.new.all ≡ self.old.all }
        ensures entries { self.new.entries.items ≡ self.old.entries.items ++ kept_of self.old.all (answered_call head call given answer ∷ []) }
        ensures denied { self.new.denied.items ≡ self.old.denied.items ++ denied_calls (answered_call head call given answer ∷ []) }
    {
        let denied = DeniedCall::of_call(head.pid, head.tid, &call, &answer);
        push_denied(&mut self.denied, denied);
        if self.all {
            self.entries
                .push_reserved(head.with(act_of(call, given, answer)));
        }
    }
}
