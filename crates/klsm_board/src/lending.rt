//! The own part and the shared one at once: the shared part leaves the seat, and the own part is
//! changed beside it. A slot moves as a tag and a pointer.
ghost use Rattle.std.specs.Prelude.{◌≡◌, ◌∷◌, List};
ghost use Rattle.atomic_table.specs.Table.{rest};
ghost use Rattle.klsm_run.specs.declared.item.Item.{Item};
ghost use Rattle.klsm_schedules.specs.OwnSteps.{own_part, shared_part};
ghost use Rattle.klsm_board.specs.Seats.{Carries, LendsShared, both_in_hand, last_arriving};

use crate::rule::{Locks, MemberSeat};
use crate::slot::PartSlot;

/// Takes the shared part out of the seat, and brings the own one to the front.
#[inline]
pub(crate) fn lend_shared<S: PartSlot>(
    table: &Locks<S>,
    seat: &mut MemberSeat<S>,
    thread: usize,
) -> S
    requires seat { seat.old.table_id ≡ table.now.table_id }
    requires carries { (own : List Item) × (shared : List Item)
        × Carries S.content S.suits table.now.key thread (both_in_hand thread own shared)
        seat.old.me }
    ensures same { (seat.new.table_id ≡ seat.old.table_id) × (seat.new.id ≡ seat.old.id)
        × (seat.new.me.0 ≡ seat.old.me.0) }
    ensures lent { (own : List Item) → (shared : List Item)
        → Carries S.content S.suits table.now.key thread (both_in_hand thread own shared)
        seat.old.me
        → LendsShared S.content S.suits S.is_vacant table.now.key thread own seat.new.me
        × (S.content result ≡ shared) × S.suits table.now.key.k shared_part result }
{
    // For the proof: the contract alone names the thread.
    let _ = thread;
    let shared = table.exchange(seat, 0, S::vacant());
    seat.turn();
    shared
}

/// Puts the shared part back into the seat, in front of the own one.
#[inline]
pub(crate) fn return_shared<S: PartSlot>(
    table: &Locks<S>,
    seat: &mut MemberSeat<S>,
    thread: usize,
    shared: S,
)
    requires seat { seat.old.table_id ≡ table.now.table_id }
    requires lends { (own : List Item)
        × LendsShared S.content S.suits S.is_vacant table.now.key thread own seat.old.me }
    requires shared { S.suits table.now.key.k shared_part shared }
    ensures same { (seat.new.table_id ≡ seat.old.table_id) × (seat.new.id ≡ seat.old.id)
        × (seat.new.me.0 ≡ seat.old.me.0) }
    ensures back { (own : List Item)
        → LendsShared S.content S.suits S.is_vacant table.now.key thread own seat.old.me
        → Carries S.content S.suits table.now.key thread
        (both_in_hand thread own (S.content shared)) seat.new.me }
    ensures arriving { (own : S) → seat.old.me.1 ≡ (own_part thread, own) ∷ rest seat.old.me.1
        → last_arriving S.arriving seat.new.me.1 ≡ S.arriving own }
{
    // For the proof: the contract alone names the thread.
    let _ = thread;
    seat.turn();
    table.exchange(seat, 0, shared).discard();
}
