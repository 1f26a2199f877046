//! Setting an open's offset.
ghost use Rattle.std.specs.Prelude.{◌≡◌, true};
ghost use Rattle.kernel_model.specs.Families.FileOffsets as model;
ghost use Rattle.fd_calls.specs.AtOffset.{IsAtOffset};

use abi_types::flags::{WHENCE_CUR, WHENCE_END, WHENCE_SET};
use abi_types::{Errno, ObjId, OpenKind, Reply};
use file_tree::Tree;
use right_rules::{refused, success};

// The first number that is no offset; as the bits of a signed number it is the least one.
const OFFSET_LIMIT: u64 = 0x8000_0000_0000_0000;

// The number, where it is an offset.
#[tactic(auto, unfolding(kernel_model::specs::Families::FileOffsets::as_offset))]
fn as_offset(number: u64) -> Option<u64>
    ensures { result ≡ model.as_offset number }
{
    if number < OFFSET_LIMIT {
        Some(number)
    } else {
        None
    }
}

// The sum of a place and of the signed number with these bits, where it is an offset.
#[tactic(auto, unfolding(kernel_model::specs::Families::FileOffsets::offset_from, kernel_model::specs::Families::FileOffsets::as_offset))]
fn offset_from(place: u64, bits: u64) -> Option<u64>
    ensures { result ≡ model.offset_from place bits }
{
    if bits < OFFSET_LIMIT {
        return as_offset(place.checked_add(bits)?);
    }
    let back = bits.wrapping_neg();
    if place < back {
        None
    } else {
        as_offset(place - back)
    }
}

// Where the file is sought.
fn sought(tree: &Tree, node: ObjId, offset: u64, bits: u64, whence: u32) -> Option<u64>
    ensures { result ≡ model.sought tree.now node offset bits whence }
{
    match whence {
        WHENCE_CUR => offset_from(offset, bits),
        WHENCE_END => offset_from(tree.bytes(node).len() as u64, bits),
        WHENCE_SET => as_offset(bits),
        _ => None,
    }
}

/// Sets the open's offset: from where it is (`whence` 1) or from the file's end (2), so far away as the signed number with
/// these bits says, or to the place that they are (3).
pub(crate) fn fd_seek(tree: &Tree, kind: &mut OpenKind, bits: u64, whence: u32) -> Reply
    ensures { IsAtOffset (model.seek_open_file tree.now bits whence kind.old) tree.now tree.now kind.old kind.new result }
{
    match kind {
        OpenKind::File { node, offset, .. } => match sought(tree, *node, *offset, bits, whence) {
            None => refused(Errno::Inval),
            Some(place) => {
                *offset = place;
                success(place, 0)
            }
        },
        OpenKind::Directory { .. }
        | OpenKind::End { .. }
        | OpenKind::Terminal { .. }
        | OpenKind::Process { .. } => refused(Errno::Badf),
    }
}
