//! A thread is left to be tested: in its entry, and in the set of those that are.
ghost use Rattle.std.specs.Prelude.{◌≡◌, Some, IsSome};
ghost use Rattle.std.specs.FinMap as map;
ghost use Rattle.wait_set.specs.declared.waiting.Waiting.{Waiting};
ghost use Rattle.wait_set.specs.Tied.{IsFlagged};
ghost use Rattle.wait_set.specs.Waits.{is_left, touched};

use crate::number_set::NumberSet;
use crate::waiting::Waiting;
use maps::NumMap;

/// The thread, which is in, is left to be tested.
pub(crate) fn leave(threads: &mut NumMap<Waiting>, left: &mut NumberSet, thread: u64)
    requires there { IsSome (map.get threads.old thread) }
    requires set { IsFlagged is_left threads.old left.old }
    ensures marks { (s : Waiting) → map.get threads.old thread ≡ Some s → threads.new ≡ map.insert threads.old thread (touched s) }
    ensures set { IsFlagged is_left threads.new left.new }
{
    let waiting = threads.get_mut(thread);
    left.change(thread, waiting.is_left(), !waiting.runs);
    waiting.left = true;
}
