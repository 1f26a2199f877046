//! Where a number stands in blocks that are packed: none is empty, and two neighbours have at least 33 numbers.
ghost use Rattle.std.specs.Prelude.{◌≡◌, ◌⊎◌, ◌≤◌, ◌<◌, ◌+◌, ◌^◌, ◌++◌, ℕ, length, take, drop, get_or};
ghost use Rattle.std.specs.List.{concat, remove};
ghost use Rattle.wait_set.specs.Numbers.{IsPacked, IsPlace, IsJoined, HasSome, block};

use crate::block::MOST;
use crate::blocks::Blocks;

// Two neighbours with no more numbers than so many are made one.
const FEW: usize = 32;

/// The block in which the number stands, or would stand: those in the blocks before it are below the number, and those in the
/// blocks behind it above.
pub fn find(blocks: &Blocks, number: u64) -> usize
    requires packed { IsPacked blocks.now.used }
    requires some { 0 < length blocks.now.used }
    ensures place { IsPlace blocks.now.used number result }
    ensures bound { result + 1 < 2 ^ 64 }
{
    let (mut low, mut high) = ends(blocks, number);
    while high - low > 1 {
        let middle = low + (high - low) / 2;
        if blocks.at(middle).at(0) <= number {
            low = middle;
        } else {
            high = middle;
        }
    }
    low
}

/// The same, of a block with room for one more: a full one is made two.
pub fn make_place(blocks: &mut Blocks, number: u64) -> usize
    requires packed { IsPacked blocks.old.used }
    requires some { 0 < length blocks.old.used }
    requires spare { length blocks.old.used < blocks.old.total }
    ensures packed { IsPacked blocks.new.used }
    ensures same { concat blocks.new.used ≡ concat blocks.old.used }
    ensures total { blocks.new.total ≡ blocks.old.total }
    ensures place { IsPlace blocks.new.used number result }
    ensures room { length (block blocks.new.used result) < 64 }
{
    let index = find(blocks, number);
    if blocks.at(index).len() < MOST {
        return index;
    }
    blocks.split(index);
    if blocks.at(index + 1).at(0) <= number {
        index + 1
    } else {
        index
    }
}

/// Takes the number at a place of a block out.
pub fn take_at(blocks: &mut Blocks, index: usize, place: usize)
    requires packed { IsPacked blocks.old.used }
    requires index { index < length blocks.old.used }
    requires place { place < length (block blocks.old.used index) }
    ensures packed { IsPacked blocks.new.used }
    ensures list { concat blocks.new.used ≡ concat (take index blocks.old.used) ++ (remove (block blocks.old.used index) place ++ concat (drop (index + 1) blocks.old.used)) }
    ensures total { blocks.new.total ≡ blocks.old.total }
{
    blocks.remove_at(index, place);
    if blocks.at(index).len() == 0 {
        blocks.drop_at(index);
        return;
    }
    join_few(blocks, index);
    if index > 0 {
        join_few(blocks, index - 1);
    }
}

// Between which blocks the number stands: from the first one on, and before the second. A walk over all puts numbers in at the last
// block, and takes them out at the first one: these are tried before a search.
fn ends(blocks: &Blocks, number: u64) -> (usize, usize)
    requires packed { IsPacked blocks.now.used }
    requires some { 0 < length blocks.now.used }
    ensures order { result.0 < result.1 }
    ensures bound { result.1 ≤ length blocks.now.used }
    ensures below { (result.0 ≡ 0) ⊎ (get_or (block blocks.now.used result.0) 0 0 ≤ number) }
    ensures above { (result.1 ≡ length blocks.now.used) ⊎ (number < get_or (block blocks.now.used result.1) 0 0) }
{
    let last = blocks.len() - 1;
    if last == 0 || blocks.at(last).at(0) <= number {
        return (last, last + 1);
    }
    if number < blocks.at(1).at(0) {
        (0, 1)
    } else {
        (0, last)
    }
}

// Makes a block and the next one, if there is one, one block, if they have few numbers.
fn join_few(blocks: &mut Blocks, index: usize)
    requires some { HasSome blocks.old.used }
    requires index { index < length blocks.old.used }
    ensures joined { IsJoined blocks.old.used blocks.new.used index }
    ensures same { concat blocks.new.used ≡ concat blocks.old.used }
    ensures total { blocks.new.total ≡ blocks.old.total }
{
    let count = blocks.len();
    if index + 1 < count && blocks.at(index).len() + blocks.at(index + 1).len() <= FEW {
        blocks.join(index);
    }
}
