//! The deletion from an own part alone, by the front of the shared part.
ghost use Rattle.std.specs.Prelude.{◌≡◌, ℕ, List, [], Option, MatchOption, IfSome, Some};
ghost use Rattle.klsm_run.specs.declared.item.Item.{Item};
ghost use Rattle.klsm_parts.specs.Least.{IsLeast};
ghost use Rattle.klsm_board.specs.Steps.{mine, rest_of};
ghost use Rattle.klsm_board.specs.Seats.{Has, IsSeatOf, own_in_hand};
ghost use Rattle.klsm_board.specs.Deleting.{LooksInVain, TakesEarly};
ghost use Rattle.klsm_board.specs.Entries.{with_look};
ghost use Rattle.klsm_board.specs.Effects.{TakesEffect};

use crate::marking::release_marked;
use crate::rule::{Locks, MemberSeat};
use crate::slot::PartSlot;
use crate::steps::look_at_front;
use klsm_run::Item;

/// Deletes the least own item, with the own part in hand, where its key is below the front, and releases
/// the part. Else the seat keeps the part.
pub(crate) fn delete_early<S: PartSlot>(
    table: &Locks<S>,
    seat: &mut MemberSeat<S>,
    thread: usize,
    threads: usize,
) -> Option<Item>
    requires seat { IsSeatOf seat.old.table_id table.now.table_id table.now.key thread }
    requires threads { threads ≡ table.now.key.threads }
    requires has { (own : List Item)
        × Has S.content S.suits table.now.key thread (own_in_hand thread own) seat.old.me }
    ensures same { seat.new.table_id ≡ seat.old.table_id }
    ensures others { rest_of seat.new.me.0 ≡ rest_of seat.old.me.0 }
    ensures done { (own : List Item)
        → Has S.content S.suits table.now.key thread (own_in_hand thread own) seat.old.me
        → MatchOption result
        ((look : Option ℕ) × LooksInVain own look
        × Has S.content S.suits table.now.key thread (own_in_hand thread own) seat.new.me
        × (mine seat.new.me.0 ≡ with_look look (mine seat.old.me.0)))
        (λ item. Has S.content S.suits table.now.key thread [] seat.new.me
        × TakesEarly table.now.key thread own (mine seat.old.me.0) (mine seat.new.me.0) item) }
    ensures effect { IfSome result (λ item. TakesEffect table.now.key thread
        (rest_of seat.old.me.0) (mine seat.old.me.0) (mine seat.new.me.0) (Some item)) }
{
    let least = least_own(table, seat, thread)?;
    if least.key >= look_at_front(table, seat, threads, thread, least) {
        return None;
    }
    let item = seat.slot_mut(table, thread + 1).take_least();
    release_marked(table, seat, thread, item.key);
    Some(item)
}

// The least item of the own part in hand.
fn least_own<S: PartSlot>(table: &Locks<S>, seat: &mut MemberSeat<S>, thread: usize) -> Option<Item>
    requires seat { IsSeatOf seat.old.table_id table.now.table_id table.now.key thread }
    requires has { (own : List Item)
        × Has S.content S.suits table.now.key thread (own_in_hand thread own) seat.old.me }
    ensures same { (seat.new.table_id ≡ seat.old.table_id) × (seat.new.id ≡ seat.old.id)
        × (seat.new.me.0 ≡ seat.old.me.0) }
    ensures looked { (own : List Item)
        → Has S.content S.suits table.now.key thread (own_in_hand thread own) seat.old.me
        → Has S.content S.suits table.now.key thread (own_in_hand thread own) seat.new.me
        × MatchOption result (own ≡ []) (λ x. IsLeast x own) }
{
    seat.slot_mut(table, thread + 1).find_least()
}
