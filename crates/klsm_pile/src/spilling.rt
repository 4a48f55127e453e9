//! How the last items of the front become pieces.
ghost use Rattle.std.specs.Prelude.{ℕ, List, ◌≡◌, ◌+◌, ◌<◌, ◌≤◌, ◌++◌, length, take, drop, is_ok, if◌then◌else◌, IfOk, OnOk, OnErr, vec_capacity};
ghost use Rattle.klsm_run.specs.Capacity.{heap_room};
ghost use Rattle.klsm_run.specs.Content.{IsAscending};
ghost use Rattle.klsm_pile.specs.Pieces.{at_level, every_item, HaveSame};
ghost use Rattle.klsm_pile.specs.Front.{singles, parts, front_items};
ghost use Rattle.klsm_pile.specs.Piles.{IsConsistent};
ghost use Rattle.klsm_pile.specs.Spilling.{piece_of};

use crate::front::Front;
use crate::piece::Piece;
use klsm_run::{FixedRun, HeapRun};
use klsm_union::SharedRun;
use std::alloc::{AllocError, Allocator};

/// The items of the front behind the first `keep` become pieces, one for each level. If memory is refused, nothing has
/// changed.
pub(crate) fn spill<A: Allocator + Copy>(
    front: &mut Front<A>,
    pieces: &mut Vec<Piece<A>, A>,
    levels: usize,
    keep: usize,
) -> Result<(), AllocError>
    requires held { (counts : List ℕ) × IsConsistent levels front.old.items pieces.old.items counts }
    requires few { length (every_item (parts front.old.items pieces.old.items)) ≤ heap_room }
    requires slots { length pieces.old.items + levels ≤ vec_capacity pieces.old }
    ensures held { (counts : List ℕ) → IsConsistent levels front.old.items pieces.old.items counts
        → IsConsistent levels front.new.items pieces.new.items counts }
    ensures same { HaveSame (parts front.new.items pieces.new.items)
        (parts front.old.items pieces.old.items) }
    ensures front { OnOk result (front.new.items ≡ take keep front.old.items) }
    ensures kept { OnOk result (length front.new.items ≤ keep) }
    ensures unchanged { OnErr result ((front.new.items ≡ front.old.items)
        × (pieces.new.items ≡ pieces.old.items)) }
    ensures fewer { length front.new.items ≤ length front.old.items }
    ensures slots { length pieces.new.items ≤ length pieces.old.items + levels }
    ensures capacity { (front.new.capacity ≡ front.old.capacity)
        × (vec_capacity pieces.new ≡ vec_capacity pieces.old) }
{
    let before = pieces.len();
    for level in 0..levels {
        let Ok(()) = copy_level(front, pieces, level, keep) else {
            pieces.truncate(before);
            return Err(AllocError);
        };
    }
    front.truncate(keep);
    Ok(())
}

// The items of one level behind the first `keep` of the front become a piece. If there are none, no piece comes.
fn copy_level<A: Allocator + Copy>(
    front: &Front<A>,
    pieces: &mut Vec<Piece<A>, A>,
    level: usize,
    keep: usize,
) -> Result<(), AllocError>
    requires ascending { IsAscending (front_items front.now.items) }
    requires few { length front.now.items ≤ heap_room }
    requires slots { length pieces.old.items < vec_capacity pieces.old }
    ensures pieces { pieces.new.items ≡ (if is_ok result
        then pieces.old.items ++ piece_of level (at_level level (singles (drop keep front.now.items)))
        else pieces.old.items) }
    ensures capacity { vec_capacity pieces.new ≡ vec_capacity pieces.old }
{
    let count = count_level(front, level, keep);
    if count == 0 {
        return Ok(());
    }
    let alloc = *pieces.allocator();
    let run = run_of_level(alloc, front, level, keep, count)?;
    let Ok(run) = SharedRun::new(alloc, run) else {
        return Err(AllocError);
    };
    pieces.push_reserved(Piece::new(run, level));
    Ok(())
}

// How many items of one level are behind the first `keep` of the front.
fn count_level<A: Allocator + Copy>(front: &Front<A>, level: usize, keep: usize) -> usize
    requires { length front.now.items ≤ heap_room }
    ensures { result ≡ length (at_level level (singles (drop keep front.now.items))) }
{
    let mut count = 0;
    for index in keep..front.len() {
        if front.at(index).level == level {
            count += 1;
        }
    }
    count
}

// These items, of which there are `count`, as a run.
fn run_of_level<A: Allocator + Copy>(
    alloc: A,
    front: &Front<A>,
    level: usize,
    keep: usize,
    count: usize,
) -> Result<HeapRun<A>, AllocError>
    requires ascending { IsAscending (front_items front.now.items) }
    requires few { length front.now.items ≤ heap_room }
    requires count { count ≡ length (at_level level (singles (drop keep front.now.items))) }
    ensures { IfOk result (λ run.
        run.items ≡ at_level level (singles (drop keep front.now.items))) }
{
    let none = FixedRun::<1>::empty();
    let Ok(mut run) = HeapRun::copy_of_for(alloc, &none, count) else {
        return Err(AllocError);
    };
    for index in keep..front.len() {
        let fetched = front.at(index);
        if fetched.level == level {
            run.unite_items(&[fetched.item]);
        }
    }
    Ok(run)
}
