//! The tree that a text means.
ghost use Rattle.std.specs.Prelude.{◌≡◌, ◌<◌, ◌+◌, ◌^◌, ◌++◌, ℕ, List, IfOk, IfErr, length};
ghost use Rattle.tree_model.specs.Grants.{IsStartTree};
ghost use Rattle.tree_records.specs.Records.{Record, IsRecord, encoded};
ghost use Rattle.tree_document.specs.Building.{IsAllowed, IsFresh, with_record};
ghost use Rattle.tree_document.specs.Documents.{IsFaultyAt, IsNoRecord, Means};
ghost use Rattle.tree_document.specs.Meaning.{meaning};
ghost use Rattle.tree_document.specs.Views.{Gives, IsAt, IsFault, making};

use crate::building::Building;
use crate::fault::TreeDocFault;
use abi_types::Times;
use file_tree::Tree;
use lists::Stop;
use std::alloc::{AllocError, Global};
use tree_records::{Read, read_record};

// Reads the record at the front of a text, and adds what it says. Returns what stands behind the record.
fn add_next<'a>(alloc: Global, building: &mut Building, text: &'a [u8]) -> Read<&'a [u8]>
    requires fresh { IsFresh (making building.old) }
    requires room { building.old.next + 1 < 2 ^ 64 }
    ensures ok { IfOk result (λ rest. (r : Record) × IsRecord r × IsAllowed (making building.old) r × (text.now ≡ encoded r ++ rest.now)
        × (making building.new ≡ with_record (making building.old) r)) }
    ensures err { IfErr result (λ stop. IsAt stop → IsNoRecord (making building.old) text.now) }
    ensures shorter { IfOk result (λ rest. length rest.now < length text.now) }
{
    let (record, rest) = read_record(alloc, text)?;
    building.add(alloc, &record)?;
    Ok(rest)
}

/// The tree that a tree document means. Its nodes have the numbers behind the root's, in the order of their records, and all of
/// them, the root too, these times. The text has fewer than 2^31 bytes, so that there are numbers enough. It takes time by the
/// length of the text, but for the steps that maps take to find a name.
///
/// # Errors
/// [`Stop::At`] exactly where the text is no tree document, with the byte at which the first record begins that is none or
/// may not stand there. [`Stop::Memory`] where memory ran out.
pub fn read_tree(alloc: Global, bytes: &[u8], times: Times) -> Result<Tree, Stop<TreeDocFault>>
    requires { length bytes.now < 2 ^ 31 }
    ensures tree { IfOk result (λ tree. Means times bytes.now tree) }
    ensures fault { IfErr result (λ stop. IsFault times bytes.now stop) }
    ensures start { IfOk result IsStartTree }
    ensures exact { Gives result (meaning times bytes.now) }
{
    let mut building = Building::new(alloc, times)?;
    let mut rest = bytes;
    while !rest.is_empty() {
        match add_next(alloc, &mut building, rest) {
            Ok(behind) => rest = behind,
            Err(Stop::At(_)) => {
                return Err(Stop::At(TreeDocFault {
                    byte: (bytes.len() - rest.len()) as u64,
                }));
            }
            Err(Stop::Memory) => return Err(Stop::Memory),
        }
    }
    Ok(building.tree)
}
