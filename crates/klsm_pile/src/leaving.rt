//! How the least items leave.
ghost use Rattle.std.specs.Prelude.{List, ◌≡◌, ◌≤◌, ◌<◌, length, take, drop, vec_capacity};
ghost use Rattle.std.specs.List.{AllByRecursion};
ghost use Rattle.klsm_run.specs.Capacity.{heap_room};
ghost use Rattle.klsm_pile.specs.Piece.{PieceState};
ghost use Rattle.klsm_pile.specs.Pieces.{every_item, blocks_below};
ghost use Rattle.klsm_pile.specs.Counting.{AreCounts};
ghost use Rattle.klsm_pile.specs.Front.{singles, parts, front_items};
ghost use Rattle.klsm_pile.specs.Leaving.{cut_least};
ghost use Rattle.klsm_pile.specs.Piles.{IsConsistent};

use crate::counts::take_from;
use crate::fetched::Fetched;
use crate::front::Front;
use crate::levels::settle;
use crate::piece::Piece;
use klsm_run::Item;
use std::alloc::Allocator;

/// Takes the first items of the front out, as many as there are places, and puts them there in their order. The front
/// may have fewer items than it needs after that.
pub(crate) fn take_first<A: Allocator + Copy>(
    front: &mut Front<A>,
    pieces: &mut Vec<Piece<A>, A>,
    counts: &mut [usize],
    places: &mut [Item],
)
    requires held { IsConsistent (length counts.old) front.old.items pieces.old.items counts.old }
    requires few { length (every_item (parts front.old.items pieces.old.items)) ≤ heap_room }
    requires there { length places.old ≤ length front.old.items }
    ensures held { IsConsistent (length counts.old) front.new.items pieces.new.items counts.new }
    ensures taken { places.new ≡ take (length places.old) (front_items front.old.items) }
    ensures left { front_items front.new.items
        ≡ drop (length places.old) (front_items front.old.items) }
    ensures pieces { every_item pieces.new.items ≡ every_item pieces.old.items }
    ensures blocks { blocks_below (length counts.old) (parts front.new.items pieces.new.items)
        ≡ cut_least (length places.old)
        (blocks_below (length counts.old) (parts front.old.items pieces.old.items)) }
    ensures len { length counts.new ≡ length counts.old }
    ensures capacity { (front.new.capacity ≡ front.old.capacity)
        × (vec_capacity pieces.new ≡ vec_capacity pieces.old) }
{
    move_first(front, counts, places);
    for level in 0..counts.len() {
        settle(front, pieces, counts, level);
    }
}

// Moves the first items of the front to places, and takes each from the count of its level.
fn move_first<A: Allocator + Copy>(front: &mut Front<A>, counts: &mut [usize], places: &mut [Item])
    requires counted { (ps : List PieceState) × AreCounts counts.old (parts front.old.items ps) }
    requires below { AllByRecursion (λ (p : PieceState). p.level < length counts.old)
        (singles front.old.items) }
    requires there { length places.old ≤ length front.old.items }
    ensures taken { places.new ≡ take (length places.old) (front_items front.old.items) }
    ensures left { front.new.items ≡ drop (length places.old) front.old.items }
    ensures counted { (ps : List PieceState) → AreCounts counts.old (parts front.old.items ps)
        → AreCounts counts.new (parts front.new.items ps) }
    ensures len { length counts.new ≡ length counts.old }
    ensures capacity { front.new.capacity ≡ front.old.capacity }
{
    for place in places.iter_mut() {
        let Fetched { item, level } = front.remove_first();
        take_from(counts, level, 1);
        *place = item;
    }
}
