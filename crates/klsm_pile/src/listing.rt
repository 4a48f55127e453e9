//! How an item is found by its place, if all items are counted block after block.
ghost use Rattle.std.specs.Prelude.{◌≡◌, ◌<◌, length, slice_get, Some};
ghost use Rattle.klsm_run.specs.Content.{sorted, IsAscending};
ghost use Rattle.klsm_lsm.specs.Lsm.{content};
ghost use Rattle.klsm_pile.specs.Pieces.{every_item, blocks_below};
ghost use Rattle.klsm_pile.specs.Counting.{AreCounts};
ghost use Rattle.klsm_pile.specs.Front.{parts};

use crate::front::Front;
use crate::piece::Piece;
use crate::seeking::item_of_level;
use klsm_run::Item;
use std::alloc::Allocator;

/// Item `index`, counted block after block, the greatest level first. It is searched for by one pass for each item of
/// its block up to it.
pub(crate) fn item_listed<A: Allocator + Copy>(
    front: &Front<A>,
    pieces: &[Piece<A>],
    counts: &[usize],
    index: usize,
) -> Item
    requires counted { AreCounts counts.now (parts front.now.items pieces.now) }
    requires distinct { IsAscending (sorted (every_item (parts front.now.items pieces.now))) }
    requires there { index
        < length (content (blocks_below (length counts.now) (parts front.now.items pieces.now))) }
    ensures { slice_get (content (blocks_below (length counts.now) (parts front.now.items pieces.now))) index
        ≡ Some result }
{
    let mut left = index;
    let mut level = counts.len();
    while level > 0 {
        level -= 1;
        if left < counts[level] {
            return item_of_level(front, pieces, level, left);
        }
        left -= counts[level];
    }
    unreachable!()
}
