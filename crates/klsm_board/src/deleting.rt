//! Deletion. It takes effect where the front is looked at, where it is set, or where the shared lock is
//! released.
ghost use Rattle.std.specs.Prelude.{◌≡◌, ◌++◌, ℕ, List, [], ◌∷◌, IfOk, IfErr, MatchOption};
ghost use Rattle.klsm_run.specs.declared.item.Item.{Item};
ghost use Rattle.klsm_run.specs.Content.{ShareNone};
ghost use Rattle.klsm_parts.specs.Events.{MayTake, MayFindNothing, MayRefill, own_after_take, shared_after_take, own_after_refill, shared_after_refill, front_of};
ghost use Rattle.klsm_parts.specs.Refilling.{refill_of};
ghost use Rattle.klsm_schedules.specs.declared.step.Event.TheVariants.{Take, Refill};
ghost use Rattle.klsm_schedules.specs.declared.step.Entry.TheVariants.{Committed};
ghost use Rattle.klsm_schedules.specs.OwnSteps.{hand_of, no_key, work_at, work_of};
ghost use Rattle.klsm_schedules.specs.OwnListLaws.{SkipsFew, KeepsOwnOrder};
ghost use Rattle.klsm_board.specs.Rule.{world_limits};
ghost use Rattle.klsm_board.specs.Steps.{mine, rest_of, AreReached};
ghost use Rattle.klsm_board.specs.Seats.{Carries, Stands, Has, CarriedOut, QuotaAllows, LeavesShared, SetsFront, IsSeatOf, own_in_hand, both_in_hand, last_arriving};
ghost use Rattle.klsm_board.specs.Entries.{both_marked};
ghost use Rattle.klsm_board.specs.Choosing.{Chooses};
ghost use Rattle.klsm_board.specs.Effects.{MeetsHolder, TakesEffect};
ghost use Rattle.klsm_board.specs.TakingOut.{FetchesInHand, HasFetched, TakesTo};
ghost use Rattle.klsm_board.specs.Deleting.{AnswersDeletion, Deletes, FindsNothing, MissesDeletion, refilled, refilled_after, moving_at_most};

use crate::acquiring::try_acquire;
use crate::early::delete_early;
use crate::errors::Busy;
use crate::lending::{lend_shared, return_shared};
use crate::marking::{release_both_marked, release_marked};
use crate::rule::{Locks, MemberSeat};
use crate::slot::PartSlot;
use crate::spying::search_victims;
use crate::steps::{
    commit_by_front, commit_refill, commit_with_shared, release_part, release_shared,
};
use crate::taking::{Fronts, take_and_fetch};
use klsm_parts::Picker;
use klsm_run::Item;
use klsm_schedules::Event;

/// Deletes an item, if the locks that it needs are free. Where it was a shared one, at most `refill` others move to
/// the own part.
pub(crate) fn delete_now<S: PartSlot, P: Picker>(
    table: &Locks<S>,
    seat: &mut MemberSeat<S>,
    thread: usize,
    threads: usize,
    refill: usize,
    picker: &mut P,
) -> Result<Option<Item>, Busy>
    requires sized { S.is_sized }
    requires seat { IsSeatOf seat.old.table_id table.now.table_id table.now.key thread }
    requires threads { threads ≡ table.now.key.threads }
    requires stands { Stands S.content S.suits table.now.key thread [] seat.old.me }
    ensures same { seat.new.table_id ≡ seat.old.table_id }
    ensures others { rest_of seat.new.me.0 ≡ rest_of seat.old.me.0 }
    ensures has { Has S.content S.suits table.now.key thread [] seat.new.me }
    ensures ok { IfOk result (λ answer. AnswersDeletion P.may_pick picker.old picker.new
        (moving_at_most refill table.now.key) thread (mine seat.old.me.0) (mine seat.new.me.0)
        answer) }
    ensures effect { IfOk result (TakesEffect table.now.key thread (rest_of seat.old.me.0)
        (mine seat.old.me.0) (mine seat.new.me.0)) }
    ensures busy { IfErr result (λ busy. (picker.new ≡ picker.old)
        × MissesDeletion thread (mine seat.old.me.0) (mine seat.new.me.0) busy) }
    ensures holder { IfErr result (MeetsHolder table.now.key thread (rest_of seat.old.me.0)
        (mine seat.new.me.0)) }
{
    try_acquire(table, seat, thread + 1, thread)?;
    if let Some(item) = delete_early(table, seat, thread, threads) {
        return Ok(Some(item));
    }
    if let Err(busy) = try_acquire(table, seat, 0, thread) {
        release_part(table, seat, thread + 1, thread);
        return Err(busy);
    }
    Ok(delete_under_both(table, seat, thread, threads, refill, picker))
}

// Deletes an item, with both parts in hand, and releases them. Where they are empty, others' parts
// are searched first.
fn delete_under_both<S: PartSlot, P: Picker>(
    table: &Locks<S>,
    seat: &mut MemberSeat<S>,
    thread: usize,
    threads: usize,
    refill: usize,
    picker: &mut P,
) -> Option<Item>
    requires sized { S.is_sized }
    requires seat { IsSeatOf seat.old.table_id table.now.table_id table.now.key thread }
    requires threads { threads ≡ table.now.key.threads }
    requires has { (own : List Item) × (shared : List Item)
        × Has S.content S.suits table.now.key thread (both_in_hand thread own shared) seat.old.me }
    ensures same { seat.new.table_id ≡ seat.old.table_id }
    ensures others { rest_of seat.new.me.0 ≡ rest_of seat.old.me.0 }
    ensures has { Has S.content S.suits table.now.key thread [] seat.new.me }
    ensures done { (own : List Item) → (shared : List Item)
        → Has S.content S.suits table.now.key thread (both_in_hand thread own shared) seat.old.me
        → MatchOption result
        (FindsNothing (moving_at_most refill table.now.key) thread own shared (mine seat.old.me.0)
        (mine seat.new.me.0)
        × (picker.new ≡ picker.old))
        (Deletes P.may_pick picker.old picker.new (moving_at_most refill table.now.key) thread own
        shared (mine seat.old.me.0) (mine seat.new.me.0)) }
    ensures effect { TakesEffect table.now.key thread (rest_of seat.old.me.0)
        (mine seat.old.me.0) (mine seat.new.me.0) result }
{
    if let Some(item) = take_both_out(table, seat, thread, threads, refill, picker) {
        return Some(item);
    }
    if search_victims(table, seat, thread, threads) {
        return take_both_out(table, seat, thread, threads, refill, picker);
    }
    release_committed(table, seat, thread, &Event::Nothing, u64::MAX);
    None
}

// Takes an item out of the two parts in hand and releases them. Where both are empty, the seat
// keeps them.
fn take_both_out<S: PartSlot, P: Picker>(
    table: &Locks<S>,
    seat: &mut MemberSeat<S>,
    thread: usize,
    threads: usize,
    refill: usize,
    picker: &mut P,
) -> Option<Item>
    requires sized { S.is_sized }
    requires seat { IsSeatOf seat.old.table_id table.now.table_id table.now.key thread }
    requires threads { threads ≡ table.now.key.threads }
    requires has { (own : List Item) × (shared : List Item)
        × Has S.content S.suits table.now.key thread (both_in_hand thread own shared) seat.old.me }
    ensures same { seat.new.table_id ≡ seat.old.table_id }
    ensures others { rest_of seat.new.me.0 ≡ rest_of seat.old.me.0 }
    ensures done { (own : List Item) → (shared : List Item)
        → Has S.content S.suits table.now.key thread (both_in_hand thread own shared) seat.old.me
        → MatchOption result
        (MayFindNothing own shared
        × Has S.content S.suits table.now.key thread (both_in_hand thread own shared) seat.new.me
        × (mine seat.new.me.0 ≡ mine seat.old.me.0) × (picker.new ≡ picker.old))
        (λ item. Has S.content S.suits table.now.key thread [] seat.new.me
        × MayTake table.now.key.k thread own shared item
        × Chooses P.may_pick picker.old picker.new table.now.key.k thread own shared item
        × SkipsFew (world_limits table.now.key) thread (mine seat.old.me.0) item
        × KeepsOwnOrder (world_limits table.now.key) thread (mine seat.old.me.0) item
        × (mine seat.new.me.0
        ≡ mine seat.old.me.0 ++ Committed (Take item)
        ∷ (refilled_after refill table.now.key.k own shared item
        ++ both_marked thread item.key))) }
{
    let (item, fronts) = take_out(table, seat, thread, refill, picker)?;
    match fronts {
        Some(fronts) => release_by_front(table, seat, threads, thread, fronts, item),
        None => release_committed(table, seat, thread, &Event::Take(item), item.key),
    }
    Some(item)
}

// Commits the deletion of a shared item by setting the front, and then, where items are on their way to the own part,
// that they move; and releases both parts. The seat carries what both events leave of the shared part.
fn release_by_front<S: PartSlot>(
    table: &Locks<S>,
    seat: &mut MemberSeat<S>,
    threads: usize,
    thread: usize,
    fronts: Fronts,
    item: Item,
)
    requires sized { S.is_sized }
    requires seat { IsSeatOf seat.old.table_id table.now.table_id table.now.key thread }
    requires threads { threads ≡ table.now.key.threads }
    requires room { QuotaAllows table.now.key.quota (mine seat.old.me.0) (Take item) }
    requires sets { SetsFront thread (hand_of thread (mine seat.old.me.0)) (Take item) fronts.taken }
    requires out { (most : ℕ) × (own : List Item) × (shared : List Item)
        × (hand_of thread (mine seat.old.me.0) ≡ both_in_hand thread own shared)
        × MayTake table.now.key.k thread own shared item
        × FetchesInHand S.content S.suits S.arriving table.now.key thread most
        (own_after_take own item) (shared_after_take own shared item) fronts.refilled seat.old.me }
    ensures same { seat.new.table_id ≡ seat.old.table_id }
    ensures others { rest_of seat.new.me.0 ≡ rest_of seat.old.me.0 }
    ensures has { Has S.content S.suits table.now.key thread [] seat.new.me }
    ensures list { (most : ℕ) (own shared : List Item)
        → hand_of thread (mine seat.old.me.0) ≡ both_in_hand thread own shared
        → FetchesInHand S.content S.suits S.arriving table.now.key thread most
        (own_after_take own item) (shared_after_take own shared item) fronts.refilled seat.old.me
        → mine seat.new.me.0 ≡ mine seat.old.me.0 ++ Committed (Take item)
        ∷ (refilled (refill_of most table.now.key.k (own_after_take own item)
        (shared_after_take own shared item)) ++ both_marked thread item.key) }
{
    let Fronts { taken, refilled } = fronts;
    commit_by_front(table, seat, threads, thread, taken, &Event::Take(item));
    match refilled {
        Some(front) => release_refilled(table, seat, threads, thread, front, item.key),
        None => release_both_marked(table, seat, thread, item.key),
    }
}

// Commits that the items on their way to the own part move there, by setting the front, and releases the shared part.
// Only then, when others may have that, are they merged into the own part, which is released last, when the key that the
// thread works at is marked.
fn release_refilled<S: PartSlot>(
    table: &Locks<S>,
    seat: &mut MemberSeat<S>,
    threads: usize,
    thread: usize,
    front: u64,
    key: u64,
)
    requires sized { S.is_sized }
    requires seat { IsSeatOf seat.old.table_id table.now.table_id table.now.key thread }
    requires threads { threads ≡ table.now.key.threads }
    requires reached { AreReached table.now.key thread seat.old.me.0 }
    requires key { key ≡ work_of (mine seat.old.me.0) }
    requires fetched { (own : List Item) × (shared : List Item)
        × (hand_of thread (mine seat.old.me.0) ≡ both_in_hand thread own shared)
        × HasFetched S.content S.suits S.arriving table.now.key thread own shared seat.old.me
        × (front ≡ front_of (shared_after_refill shared
        (last_arriving S.arriving seat.old.me.1))) }
    ensures same { seat.new.table_id ≡ seat.old.table_id }
    ensures others { rest_of seat.new.me.0 ≡ rest_of seat.old.me.0 }
    ensures has { Has S.content S.suits table.now.key thread [] seat.new.me }
    ensures list { mine seat.new.me.0 ≡ mine seat.old.me.0
        ++ Committed (Refill (last_arriving S.arriving seat.old.me.1)) ∷ both_marked thread key }
{
    commit_refill(table, seat, threads, thread, front);
    release_shared(table, seat, thread);
    take_fetched_in(table, seat, thread);
    release_marked(table, seat, thread, key);
}

// Merges the items that are on their way to the own part, which the seat carries, into it.
fn take_fetched_in<S: PartSlot>(table: &Locks<S>, seat: &mut MemberSeat<S>, thread: usize)
    requires sized { S.is_sized }
    requires seat { IsSeatOf seat.old.table_id table.now.table_id table.now.key thread }
    requires carries { (own : List Item) × (shared : List Item)
        × Carries S.content S.suits table.now.key thread (own_in_hand thread own) seat.old.me
        × MayRefill table.now.key.k own shared (last_arriving S.arriving seat.old.me.1)
        × ShareNone own (last_arriving S.arriving seat.old.me.1) }
    ensures same { (seat.new.table_id ≡ seat.old.table_id) × (seat.new.id ≡ seat.old.id)
        × (seat.new.me.0 ≡ seat.old.me.0) }
    ensures joined { (own : List Item)
        → Carries S.content S.suits table.now.key thread (own_in_hand thread own) seat.old.me
        → Carries S.content S.suits table.now.key thread (own_in_hand thread
        (own_after_refill own (last_arriving S.arriving seat.old.me.1))) seat.new.me }
{
    seat.slot_mut(table, thread + 1).take_in();
}

// Commits an event that inserts nothing, leaves the shared part and was carried out in the two parts in
// hand, and releases them. The key is the one that the thread then works at.
fn release_committed<S: PartSlot>(
    table: &Locks<S>,
    seat: &mut MemberSeat<S>,
    thread: usize,
    event: &Event,
    key: u64,
)
    requires seat { IsSeatOf seat.old.table_id table.now.table_id table.now.key thread }
    requires room { QuotaAllows table.now.key.quota (mine seat.old.me.0) event.now }
    requires leaves { LeavesShared thread (hand_of thread (mine seat.old.me.0)) event.now }
    requires key { key ≡ work_at (work_of (mine seat.old.me.0)) event.now }
    requires out { (own : List Item) × (shared : List Item)
        × CarriedOut S.content S.suits table.now.key thread event.now
        (both_in_hand thread own shared) seat.old.me }
    ensures same { seat.new.table_id ≡ seat.old.table_id }
    ensures others { rest_of seat.new.me.0 ≡ rest_of seat.old.me.0 }
    ensures has { Has S.content S.suits table.now.key thread [] seat.new.me }
    ensures list { mine seat.new.me.0
        ≡ mine seat.old.me.0 ++ Committed event.now ∷ both_marked thread key }
{
    commit_with_shared(table, seat, thread, event);
    release_marked(table, seat, thread, key);
}

// Takes an item out of the two parts that the seat carries. Where it was a shared one, the least shared items are then
// on their way to the own part, at most `refill`, and it is answered with the fronts that this leaves.
fn take_out<S: PartSlot, P: Picker>(
    table: &Locks<S>,
    seat: &mut MemberSeat<S>,
    thread: usize,
    refill: usize,
    picker: &mut P,
) -> Option<(Item, Option<Fronts>)>
    requires sized { S.is_sized }
    requires seat { IsSeatOf seat.old.table_id table.now.table_id table.now.key thread }
    requires carries { (own : List Item) × (shared : List Item)
        × Carries S.content S.suits table.now.key thread (both_in_hand thread own shared)
        seat.old.me
        × ShareNone own shared }
    ensures same { (seat.new.table_id ≡ seat.old.table_id) × (seat.new.id ≡ seat.old.id)
        × (seat.new.me.0 ≡ seat.old.me.0) }
    ensures done { (own : List Item) → (shared : List Item)
        → Carries S.content S.suits table.now.key thread (both_in_hand thread own shared)
        seat.old.me
        → MatchOption result
        (MayFindNothing own shared
        × Carries S.content S.suits table.now.key thread (both_in_hand thread own shared)
        seat.new.me
        × (picker.new ≡ picker.old))
        (λ taken. MayTake table.now.key.k thread own shared taken.0
        × Chooses P.may_pick picker.old picker.new table.now.key.k thread own shared taken.0
        × ((shared' : List Item)
        × Carries S.content S.suits table.now.key thread
        (both_in_hand thread (own_after_take own taken.0) shared') seat.new.me
        × TakesTo refill table.now.key.k own shared taken.0 taken.1 shared'
        (last_arriving S.arriving seat.new.me.1))) }
{
    let mut shared = lend_shared(table, seat, thread);
    let own = seat.slot_mut(table, thread + 1);
    let taken = take_and_fetch(own, &mut shared, thread as u32, refill, picker);
    return_shared(table, seat, thread, shared);
    taken
}
