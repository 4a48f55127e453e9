//! How a run is put among the pieces.
ghost use Rattle.std.specs.Prelude.{ℕ, ◌≡◌, ◌+◌, ◌-◌, ◌<◌, ◌≤◌, ◌^◌, length, take, drop, OnOk, OnErr, vec_capacity};
ghost use Rattle.std.specs.List.{AllByRecursion};
ghost use Rattle.klsm_run.specs.Block.{IsBlock};
ghost use Rattle.klsm_run.specs.Capacity.{heap_room};
ghost use Rattle.klsm_run.specs.Content.{ShareNone};
ghost use Rattle.klsm_lsm.specs.Adding.{add};
ghost use Rattle.klsm_pile.specs.Pieces.{every_item, blocks_below};
ghost use Rattle.klsm_pile.specs.Absorbing.{AreLow};
ghost use Rattle.klsm_pile.specs.Front.{parts};
ghost use Rattle.klsm_pile.specs.Piles.{IsConsistent};

use crate::counts::{add_to, landing};
use crate::front::Front;
use crate::levels::regroup;
use crate::making_room::make_room;
use crate::merging::merge_in;
use crate::piece::Piece;
use crate::uniting::unite_last;
use klsm_run::level_of;
use klsm_union::SharedRun;
use std::alloc::{AllocError, Allocator};

/// Puts a run in: its first items, so many of them, go to the front, and the others are a piece.
pub(crate) fn put<A: Allocator + Copy>(
    front: &mut Front<A>,
    pieces: &mut Vec<Piece<A>, A>,
    counts: &mut [usize],
    mut run: SharedRun<A>,
    low: usize,
)
    requires held { IsConsistent (length counts.old) front.old.items pieces.old.items counts.old }
    requires levels { 0 < length counts.old }
    requires some { 0 < length run }
    requires apart { ShareNone (every_item (parts front.old.items pieces.old.items)) run }
    requires limit { length (every_item (parts front.old.items pieces.old.items)) + length run
        ≤ 2 ^ (length counts.old - 1) }
    requires few { length (every_item (parts front.old.items pieces.old.items)) + length run
        ≤ heap_room }
    requires low { AreLow low run front.old.items pieces.old.items }
    requires places { length front.old.items + low ≤ front.old.capacity }
    requires slots { length pieces.old.items < vec_capacity pieces.old }
    ensures held { IsConsistent (length counts.old) front.new.items pieces.new.items counts.new }
    ensures blocks { blocks_below (length counts.old) (parts front.new.items pieces.new.items)
        ≡ add (blocks_below (length counts.old) (parts front.old.items pieces.old.items)) run }
    ensures total { length (every_item (parts front.new.items pieces.new.items))
        ≡ length (every_item (parts front.old.items pieces.old.items)) + length run }
    ensures lengths { length front.new.items ≡ length front.old.items + low }
    ensures capacity { front.new.capacity ≡ front.old.capacity }
{
    let from = level_for(&run);
    let to = landing(counts, from);
    regroup(front, pieces, counts, from, to, to);
    add_to(counts, to, run.len());
    merge_in(front, &run.as_slice()[..low], to);
    run.remove_first(low);
    let Ok(()) = pieces.push(Piece::new(run, to)) else {
        unreachable!();
    };
}

// The level of a run that is a block of its own.
fn level_for<A: Allocator + Copy>(run: &SharedRun<A>) -> usize
    requires { 0 < length run.now }
    ensures block { IsBlock result run.now }
    ensures least { (l : ℕ) → length run.now ≤ 2 ^ l → result ≤ l }
{
    level_of(run.as_slice().len())
}

/// Puts a run in. A refusal, for want of memory, changes nothing. The front may have fewer items than it
/// needs after that.
pub(crate) fn absorb<A: Allocator + Copy>(
    front: &mut Front<A>,
    pieces: &mut Vec<Piece<A>, A>,
    counts: &mut [usize],
    run: SharedRun<A>,
    reach: usize,
    places: usize,
) -> Result<(), AllocError>
    requires held { IsConsistent (length counts.old) front.old.items pieces.old.items counts.old }
    requires levels { 0 < length counts.old }
    requires some { 0 < length run }
    requires apart { ShareNone (every_item (parts front.old.items pieces.old.items)) run }
    requires limit { length (every_item (parts front.old.items pieces.old.items)) + length run
        ≤ 2 ^ (length counts.old - 1) }
    requires few { length (every_item (parts front.old.items pieces.old.items)) + length run
        ≤ heap_room }
    requires reach { reach ≤ places }
    requires fits { length front.old.items ≤ places }
    requires places { places ≤ front.old.capacity }
    requires slots { length pieces.old.items + length counts.old < vec_capacity pieces.old }
    ensures held { IsConsistent (length counts.old) front.new.items pieces.new.items counts.new }
    ensures blocks { OnOk result (blocks_below (length counts.old) (parts front.new.items pieces.new.items)
        ≡ add (blocks_below (length counts.old) (parts front.old.items pieces.old.items)) run) }
    ensures total { OnOk result (length (every_item (parts front.new.items pieces.new.items))
        ≡ length (every_item (parts front.old.items pieces.old.items)) + length run) }
    ensures unchanged { OnErr result ((front.new.items ≡ front.old.items)
        × (pieces.new.items ≡ pieces.old.items) × (counts.new ≡ counts.old)) }
    ensures few { length front.new.items ≤ places }
    ensures len { length counts.new ≡ length counts.old }
    ensures capacity { front.new.capacity ≡ front.old.capacity }
{
    let low = make_room(front, pieces, counts.len(), run.as_slice(), reach, places)?;
    put(front, pieces, counts, run, low);
    unite_last(pieces);
    Ok(())
}
