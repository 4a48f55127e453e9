//! What a deletion does to an own part and the shared one while it has both: it takes an item out and, where that was
//! a shared one, fetches others to places beside the own part, into which they are merged later.
ghost use Rattle.std.specs.Prelude.{◌≡◌, ℕ, MatchOption};
ghost use Rattle.klsm_run.specs.Content.{ShareNone};
ghost use Rattle.klsm_parts.specs.Events.{MayTake, MayFindNothing, own_after_take};
ghost use Rattle.klsm_schedules.specs.OwnSteps.{own_part, shared_part};
ghost use Rattle.klsm_board.specs.Choosing.{Chooses};
ghost use Rattle.klsm_board.specs.TakingOut.{FetchesTo, TakesTo};

use crate::slot::PartSlot;
use klsm_parts::Picker;
use klsm_run::Item;

/// What the front becomes by the deletion of a shared item, and then by the moving of others, where some move.
#[derive(Clone, Copy)]
pub(crate) struct Fronts {
    pub taken: u64,
    pub refilled: Option<u64>,
}

/// Takes an item out of an own part and the shared one, for the member of this number, and answers it; `None` where
/// both are empty. Where it was a shared one, the least shared items are then on their way to the own part, at most
/// `refill` and as many as half its room is for, and it is answered with the fronts that this leaves.
#[inline]
pub(crate) fn take_and_fetch<S: PartSlot, P: Picker>(
    own: &mut S,
    shared: &mut S,
    owner: u32,
    refill: usize,
    picker: &mut P,
) -> Option<(Item, Option<Fronts>)>
    requires sized { S.is_sized }
    requires parts { (k : ℕ) × (t : ℕ) × S.suits k (own_part t) own.old
        × S.suits k shared_part shared.old }
    requires apart { ShareNone (S.content own.old) (S.content shared.old) }
    ensures kind { (k t : ℕ) → S.suits k (own_part t) own.old → S.suits k (own_part t) own.new }
    ensures shared_kind { (k : ℕ) → S.suits k shared_part shared.old
        → S.suits k shared_part shared.new }
    ensures done { (k t : ℕ) → S.suits k (own_part t) own.old → MatchOption result
        (MayFindNothing (S.content own.old) (S.content shared.old)
        × (S.content own.new ≡ S.content own.old)
        × (S.content shared.new ≡ S.content shared.old)
        × (picker.new ≡ picker.old))
        (λ taken. MayTake k owner (S.content own.old) (S.content shared.old) taken.0
        × Chooses P.may_pick picker.old picker.new k owner (S.content own.old)
        (S.content shared.old) taken.0
        × (S.content own.new ≡ own_after_take (S.content own.old) taken.0)
        × TakesTo refill k (S.content own.old) (S.content shared.old) taken.0 taken.1
        (S.content shared.new) (S.arriving own.new)) }
{
    let count = shared.len();
    let item = own.take(owner, shared, picker)?;
    if shared.len() == count {
        return Some((item, None));
    }
    let taken = shared.front();
    let refilled = fetch_from(own, shared, refill);
    Some((item, Some(Fronts { taken, refilled })))
}

// Moves the least shared items to the places beside the own part, at most `most` and as many as half its room is for.
// It answers the front of what is left, where some moved.
fn fetch_from<S: PartSlot>(own: &mut S, shared: &mut S, most: usize) -> Option<u64>
    requires sized { S.is_sized }
    requires parts { (k : ℕ) × (t : ℕ) × S.suits k (own_part t) own.old
        × S.suits k shared_part shared.old }
    ensures kind { (k t : ℕ) → S.suits k (own_part t) own.old → S.suits k (own_part t) own.new }
    ensures shared_kind { (k : ℕ) → S.suits k shared_part shared.old
        → S.suits k shared_part shared.new }
    ensures same { S.content own.new ≡ S.content own.old }
    ensures done { (k t : ℕ) → S.suits k (own_part t) own.old
        → FetchesTo most k (S.content own.old) (S.content shared.old) result
        (S.content shared.new) (S.arriving own.new) }
{
    if most == 0 {
        return None;
    }
    if own.fetch(shared, most) {
        Some(shared.front())
    } else {
        None
    }
}
