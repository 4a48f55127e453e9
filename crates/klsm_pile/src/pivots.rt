//! The pivots of a pile: how many of the least items each block has.
ghost use Rattle.std.specs.Prelude.{◌≡◌, ◌<◌, List, [], length, take, slice_index_or};
ghost use Rattle.klsm_run.specs.Content.{sorted};
ghost use Rattle.klsm_pile.specs.Piece.{PieceState};
ghost use Rattle.klsm_pile.specs.Pieces.{at_level, blocks_below};
ghost use Rattle.klsm_pile.specs.Counting.{AreCounts};
ghost use Rattle.klsm_pile.specs.Front.{singles};

use crate::front::Front;
use std::alloc::Allocator;

/// The number of blocks: how many levels have items.
pub(crate) fn count_blocks(counts: &[usize]) -> usize
    ensures { (ps : List PieceState) → AreCounts counts.now ps
        → result ≡ length (blocks_below (length counts.now) ps) }
{
    let mut blocks = 0;
    for level in 0..counts.len() {
        if counts[level] != 0 {
            blocks += 1;
        }
    }
    blocks
}

/// The level of block `index`, counted from the greatest level that has items.
pub(crate) fn level_of_block(counts: &[usize], index: usize) -> usize
    requires there { (ps : List PieceState) × AreCounts counts.now ps
        × (index < length (blocks_below (length counts.now) ps)) }
    ensures within { result < length counts.now }
    ensures block { (ps : List PieceState) → AreCounts counts.now ps
        → slice_index_or (blocks_below (length counts.now) ps) index [] ≡ sorted (at_level result ps) }
{
    let mut left = index;
    let mut level = counts.len();
    while level > 0 {
        level -= 1;
        if counts[level] != 0 {
            if left == 0 {
                return level;
            }
            left -= 1;
        }
    }
    unreachable!()
}

/// How many of the first items of the front are of a level.
pub(crate) fn count_first<A: Allocator + Copy>(front: &Front<A>, level: usize, most: usize) -> usize
    ensures { result ≡ length (at_level level (singles (take most front.now.items))) }
{
    let mut count = 0;
    for index in 0..most.min(front.len()) {
        if front.at(index).level == level {
            count += 1;
        }
    }
    count
}
