//! What a call does to the front, the pieces and the counts of a pile, whose invariant does not hold between two of these
//! steps.
ghost use Rattle.std.specs.Prelude.{List, ◌≡◌, ◌<◌, ◌≤◌, ◌^◌, ◌+◌, length, slice_get, slice_index_or, Some, vec_capacity};
ghost use Rattle.klsm_run.specs.Capacity.{heap_room};
ghost use Rattle.klsm_run.specs.Block.{HasLevel};
ghost use Rattle.klsm_pile.specs.Piece.{PieceState};
ghost use Rattle.klsm_pile.specs.Pieces.{at_level, every_item, blocks_below};
ghost use Rattle.klsm_pile.specs.Counting.{AreCounts, AreNumberedBelow};
ghost use Rattle.klsm_pile.specs.Front.{parts, front_items};
ghost use Rattle.klsm_pile.specs.Piles.{IsConsistent, IsItemCut};
ghost use Rattle.klsm_pile.specs.Renumbering.{IsRenumbered};
ghost use Rattle.klsm_pile.specs.Settling.{regrouped_level, regrouped, relabelled, IsSettled};

use crate::counts::{gather, next_below, take_from};
use crate::fetched::Fetched;
use crate::front::{Front, level_within};
use crate::piece::Piece;
use klsm_run::{Item, level_of};
use std::alloc::Allocator;

/// The blocks of the levels from one to another are one block from now on, of one of these levels.
pub(crate) fn regroup<A: Allocator + Copy>(
    front: &mut Front<A>,
    pieces: &mut Vec<Piece<A>, A>,
    counts: &mut [usize],
    low: usize,
    high: usize,
    to: usize,
)
    requires order { low ≤ to }
    requires within { to ≤ high }
    requires fits { high < length counts.old }
    requires counted { AreCounts counts.old (parts front.old.items pieces.old.items) }
    requires few { length (every_item (parts front.old.items pieces.old.items)) ≤ heap_room }
    ensures parts { parts front.new.items pieces.new.items
        ≡ regrouped low high to (parts front.old.items pieces.old.items) }
    ensures counted { AreCounts counts.new (parts front.new.items pieces.new.items) }
    ensures same { IsRenumbered (length counts.old) front.old.items pieces.old.items front.new.items pieces.new.items }
    ensures len { length counts.new ≡ length counts.old }
    ensures capacity { (front.new.capacity ≡ front.old.capacity)
        × (vec_capacity pieces.new ≡ vec_capacity pieces.old) }
{
    front.relabel(low, high, to);
    regroup_pieces(pieces, low, high, to);
    gather(counts, low, high, to);
}

/// Takes the item of a rank out. The front may have less items than it needs after that.
pub(crate) fn remove_at<A: Allocator + Copy>(
    front: &mut Front<A>,
    pieces: &mut Vec<Piece<A>, A>,
    counts: &mut [usize],
    rank: usize,
) -> Item
    requires held { IsConsistent (length counts.old) front.old.items pieces.old.items counts.old }
    requires few { length (every_item (parts front.old.items pieces.old.items)) ≤ heap_room }
    requires rank { rank < length front.old.items }
    ensures held { IsConsistent (length counts.old) front.new.items pieces.new.items counts.new }
    ensures item { slice_get (front_items front.old.items) rank ≡ Some result }
    ensures cut { IsItemCut result (blocks_below (length counts.old) (parts front.old.items pieces.old.items))
        (blocks_below (length counts.old) (parts front.new.items pieces.new.items)) }
    ensures one_less { (length front.new.items + 1 ≡ length front.old.items)
        × (every_item pieces.new.items ≡ every_item pieces.old.items) }
    ensures len { length counts.new ≡ length counts.old }
    ensures capacity { (front.new.capacity ≡ front.old.capacity)
        × (vec_capacity pieces.new ≡ vec_capacity pieces.old) }
{
    let Fetched { item, level } = front.remove(rank);
    take_from(counts, level, 1);
    settle(front, pieces, counts, level);
    item
}

/// Settles the number of a block of which items have left: with the next block it becomes one if it has fallen to the
/// level of that.
pub(crate) fn settle<A: Allocator + Copy>(
    front: &mut Front<A>,
    pieces: &mut Vec<Piece<A>, A>,
    counts: &mut [usize],
    level: usize,
)
    requires level { level < length counts.old }
    requires lower { AreNumberedBelow level (parts front.old.items pieces.old.items) }
    requires fits { length (at_level level (parts front.old.items pieces.old.items)) ≤ 2 ^ level }
    requires counted { AreCounts counts.old (parts front.old.items pieces.old.items) }
    requires few { length (every_item (parts front.old.items pieces.old.items)) ≤ heap_room }
    ensures settled { IsSettled level (parts front.old.items pieces.old.items)
        (parts front.new.items pieces.new.items) }
    ensures counted { AreCounts counts.new (parts front.new.items pieces.new.items) }
    ensures same { IsRenumbered (length counts.old) front.old.items pieces.old.items front.new.items pieces.new.items }
    ensures len { length counts.new ≡ length counts.old }
    ensures capacity { (front.new.capacity ≡ front.old.capacity)
        × (vec_capacity pieces.new ≡ vec_capacity pieces.old) }
{
    let left = counts[level];
    if left == 0 {
        return;
    }
    let own = level_of(left);
    if own == level {
        return;
    }
    let (low, to) = group_of(counts, level, left, own);
    regroup(front, pieces, counts, low, level, to);
}

// Which levels become one once so many items are left of a block, and are of another level than it: those from the first
// to the block's own become the second.
fn group_of(counts: &[usize], level: usize, left: usize, own: usize) -> (usize, usize)
    requires level { level < length counts.now }
    requires left { slice_index_or counts.now level 0 ≡ left }
    requires own { HasLevel own left }
    requires fits { own ≤ level }
    requires parts { (ps : List PieceState) × AreCounts counts.now ps × AreNumberedBelow level ps
        × (length (every_item ps) ≤ heap_room) }
    ensures order { result.0 ≤ result.1 }
    ensures within { result.1 ≤ level }
    ensures settles { (ps : List PieceState) → AreCounts counts.now ps → AreNumberedBelow level ps
        → IsSettled level ps (regrouped result.0 level result.1 ps) }
{
    let Some(next) = next_below(counts, level) else {
        return (own, own);
    };
    if next < own {
        return (own, own);
    }
    (next, level_of(left + counts[next]))
}

// What the pieces become.
fn regroup_pieces<A: Allocator + Copy>(
    pieces: &mut Vec<Piece<A>, A>,
    low: usize,
    high: usize,
    to: usize,
)
    ensures items { pieces.new.items ≡ regrouped low high to pieces.old.items }
    ensures capacity { vec_capacity pieces.new ≡ vec_capacity pieces.old }
{
    for index in 0..pieces.len() {
        let level = level_within(pieces[index].level(), low, high, to);
        pieces[index].set_level(level);
    }
}
