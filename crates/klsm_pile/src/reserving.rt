//! The places that a pile needs before a run is put in.
ghost use Rattle.std.specs.Prelude.{◌≡◌, ◌+◌, ◌<◌, ◌≤◌, ℕ, length, OnOk, vec_capacity};
ghost use Rattle.std.specs.List.{AllByRecursion};
ghost use Rattle.klsm_run.specs.Capacity.{heap_room};
ghost use Rattle.klsm_run.specs.Content.{sorted, IsAscending};
ghost use Rattle.klsm_run.specs.declared.limits.TheConstants.{MOST_LEVELS};
ghost use Rattle.klsm_pile.specs.Piece.{PieceState};
ghost use Rattle.klsm_pile.specs.Pieces.{every_item, HaveSame};

use crate::front::Front;
use crate::piece::Piece;
use crate::uniting::unite_any;
use std::alloc::{AllocError, Allocator};

// With as many pieces two of a block become one before a run is put in. The more there are, the further one sinks that has
// lost items to the front.
const PIECES: usize = 64;

/// Sees to so many places in the front, and in the list of the pieces to one for a run and one for each level, into which
/// the front may have to spill. A refusal, for want of memory, leaves the blocks as they were.
pub(crate) fn reserve<A: Allocator + Copy>(
    front: &mut Front<A>,
    pieces: &mut Vec<Piece<A>, A>,
    levels: usize,
    places: usize,
) -> Result<(), AllocError>
    requires distinct { IsAscending (sorted (every_item pieces.old.items)) }
    requires few { length (every_item pieces.old.items) ≤ heap_room }
    requires levels { levels ≤ MOST_LEVELS }
    requires places { length front.old.items ≤ places }
    ensures front { front.new.items ≡ front.old.items }
    ensures room { OnOk result (places ≤ front.new.capacity) }
    ensures capacity { front.old.capacity ≤ front.new.capacity }
    ensures slots { OnOk result (length pieces.new.items + levels < vec_capacity pieces.new) }
    ensures same { HaveSame pieces.new.items pieces.old.items }
    ensures below { (n : ℕ) → AllByRecursion (λ (p : PieceState). p.level < n) pieces.old.items
        → AllByRecursion (λ (p : PieceState). p.level < n) pieces.new.items }
{
    front.reserve(places)?;
    reserve_slots(pieces, levels)
}

// Sees to the places in the list of the pieces. It grows if no two can become one: unions cannot, or memory is refused.
fn reserve_slots<A: Allocator + Copy>(
    pieces: &mut Vec<Piece<A>, A>,
    levels: usize,
) -> Result<(), AllocError>
    requires distinct { IsAscending (sorted (every_item pieces.old.items)) }
    requires few { length (every_item pieces.old.items) ≤ heap_room }
    requires levels { levels ≤ MOST_LEVELS }
    ensures slots { OnOk result (length pieces.new.items + levels < vec_capacity pieces.new) }
    ensures same { HaveSame pieces.new.items pieces.old.items }
    ensures below { (n : ℕ) → AllByRecursion (λ (p : PieceState). p.level < n) pieces.old.items
        → AllByRecursion (λ (p : PieceState). p.level < n) pieces.new.items }
{
    while pieces.len() >= PIECES {
        if !unite_any(pieces) {
            return pieces.reserve_exact(levels + 1);
        }
    }
    pieces.reserve_exact(PIECES + levels - pieces.len())
}
