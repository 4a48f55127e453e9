//! How the front gets room for the first items of a run.
ghost use Rattle.std.specs.Prelude.{ℕ, List, ◌≡◌, ◌+◌, ◌≤◌, length, IfOk, OnErr, vec_capacity};
ghost use Rattle.klsm_run.specs.Capacity.{heap_room};
ghost use Rattle.klsm_run.specs.Content.{IsAscending, ShareNone};
ghost use Rattle.klsm_pile.specs.Piece.{PieceState};
ghost use Rattle.klsm_pile.specs.Pieces.{every_item, HaveSame};
ghost use Rattle.klsm_pile.specs.Absorbing.{AreLow};
ghost use Rattle.klsm_pile.specs.Front.{parts, front_items, IsFront};
ghost use Rattle.klsm_pile.specs.Piles.{IsConsistent};

use crate::fetching::count_under;
use crate::front::Front;
use crate::piece::Piece;
use crate::spilling::spill;
use klsm_run::Item;
use std::alloc::{AllocError, Allocator};

/// The front gets room for the items of a run that go there, within `places`. It answers how many these are. If memory
/// is refused, nothing has changed.
pub(crate) fn make_room<A: Allocator + Copy>(
    front: &mut Front<A>,
    pieces: &mut Vec<Piece<A>, A>,
    levels: usize,
    items: &[Item],
    reach: usize,
    places: usize,
) -> Result<usize, AllocError>
    requires held { (counts : List ℕ) × IsConsistent levels front.old.items pieces.old.items counts }
    requires few { length (every_item (parts front.old.items pieces.old.items)) ≤ heap_room }
    requires slots { length pieces.old.items + levels ≤ vec_capacity pieces.old }
    requires ascending { IsAscending items.now }
    requires apart { ShareNone (every_item (parts front.old.items pieces.old.items)) items.now }
    requires places { reach ≤ places }
    requires fits { length front.old.items ≤ places }
    ensures held { (counts : List ℕ) → IsConsistent levels front.old.items pieces.old.items counts
        → IsConsistent levels front.new.items pieces.new.items counts }
    ensures same { HaveSame (parts front.new.items pieces.new.items)
        (parts front.old.items pieces.old.items) }
    ensures unchanged { OnErr result ((front.new.items ≡ front.old.items)
        × (pieces.new.items ≡ pieces.old.items)) }
    ensures fewer { length front.new.items ≤ length front.old.items }
    ensures slots { length pieces.new.items ≤ length pieces.old.items + levels }
    ensures capacity { (front.new.capacity ≡ front.old.capacity)
        × (vec_capacity pieces.new ≡ vec_capacity pieces.old) }
    ensures low { IfOk result (λ low. AreLow low items.now front.new.items pieces.new.items
        × (length front.new.items + low ≤ places)) }
{
    let low = count_low(front, items);
    if low <= places - front.len() {
        return Ok(low);
    }
    // The items that the front has to have stay there if there is room for them and all of the run.
    let keep = if items.len() <= places - reach {
        reach
    } else {
        0
    };
    spill(front, pieces, levels, keep)?;
    Ok(count_low(front, items))
}

/// How many of the first items of a run go to the front: those below its last item.
pub(crate) fn count_low<A: Allocator + Copy>(front: &Front<A>, items: &[Item]) -> usize
    requires ascending { IsAscending items.now }
    requires apart { ShareNone (front_items front.now.items) items.now }
    ensures low { (ps : List PieceState) → IsFront front.now.items ps
        → AreLow result items.now front.now.items ps }
    ensures none { length front.now.items ≡ 0 → result ≡ 0 }
{
    let len = front.len();
    if len == 0 {
        return 0;
    }
    count_under(items, Some(front.at(len - 1).item), items.len())
}
