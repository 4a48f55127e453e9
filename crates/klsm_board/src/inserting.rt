//! Insertion. It takes effect where the own lock is released or, where items move to the shared part,
//! where the front is set.
ghost use Rattle.std.specs.Prelude.{◌≡◌, ◌<◌, ◌≤◌, ◌+◌, ℕ, List, [], ◌∷◌, ◌++◌, length, IfErr, IfOk, OnOk, OnErr, IsErrAnd, MatchBool};
ghost use Rattle.std.specs.List.{Contains};
ghost use Rattle.klsm_run.specs.declared.item.Item.{Item};
ghost use Rattle.klsm_run.specs.Capacity.{heap_room};
ghost use Rattle.klsm_run.specs.Content.{ShareNone};
ghost use Rattle.klsm_parts.specs.Limit.{limit_of};
ghost use Rattle.klsm_parts.specs.Events.{MayPut, MayFlush, own_after_put, own_after_flush, shared_after_flush, front_of};
ghost use Rattle.klsm_schedules.specs.declared.step.Event.TheVariants.{Put, Flush};
ghost use Rattle.klsm_schedules.specs.declared.step.Entry.TheVariants.{Committed, Released};
ghost use Rattle.klsm_schedules.specs.OwnSteps.{own_part, inserted, deleted};
ghost use Rattle.klsm_schedules.specs.LegalSteps.{BearsStamp};
ghost use Rattle.klsm_board.specs.Steps.{mine, rest_of};
ghost use Rattle.klsm_board.specs.Seats.{Carries, Stands, Has, CarriedOut, IsSeatOf, own_in_hand, both_in_hand};
ghost use Rattle.klsm_board.specs.Effects.{MeetsHolder};
ghost use Rattle.klsm_board.specs.Entries.{both_released};
ghost use Rattle.klsm_board.specs.Inserting.{Inserts, LacksRoom, IsBelowLimit, RefusesInsert};

use crate::acquiring::try_acquire;
use crate::errors::{Busy, TryInsertError};
use crate::lending::{lend_shared, return_shared};
use crate::rule::{Locks, MemberSeat};
use crate::slot::PartSlot;
use crate::steps::{commit_event, commit_moving_by_front, release_both, release_part};
use klsm_parts::LsmError;
use klsm_run::Item;
use klsm_schedules::Event;

/// Inserts an item, if no lock that it needs is held.
pub(crate) fn insert_now<S: PartSlot>(
    table: &Locks<S>,
    seat: &mut MemberSeat<S>,
    thread: usize,
    threads: usize,
    item: Item,
) -> Result<(), TryInsertError>
    requires sized { S.is_sized }
    requires seat { IsSeatOf seat.old.table_id table.now.table_id table.now.key thread }
    requires threads { threads ≡ table.now.key.threads }
    requires stamp { BearsStamp thread (length (inserted (mine seat.old.me.0))) item }
    requires room { length (inserted (mine seat.old.me.0)) < table.now.key.quota }
    requires stands { Stands S.content S.suits table.now.key thread [] seat.old.me }
    ensures same { seat.new.table_id ≡ seat.old.table_id }
    ensures others { rest_of seat.new.me.0 ≡ rest_of seat.old.me.0 }
    ensures has { Has S.content S.suits table.now.key thread [] seat.new.me }
    ensures ok { OnOk result (Inserts S.levels table.now.key.k thread (mine seat.old.me.0)
        (mine seat.new.me.0) item) }
    ensures refused { IfErr result (RefusesInsert ⊥ S.levels table.now.key.k thread
        (mine seat.old.me.0) (mine seat.new.me.0)) }
    ensures holder { (busy : Busy) → IsErrAnd result (λ why. why ≡ TryInsertError.Busy busy)
        → MeetsHolder table.now.key thread (rest_of seat.old.me.0) (mine seat.new.me.0) busy }
{
    if let Err(busy) = try_acquire(table, seat, thread + 1, thread) {
        return Err(TryInsertError::Busy(busy));
    }
    if put_own(table, seat, thread, item) {
        return Ok(());
    }
    if let Err(busy) = try_acquire(table, seat, 0, thread) {
        release_part(table, seat, thread + 1, thread);
        return Err(TryInsertError::Busy(busy));
    }
    match flush_both(table, seat, thread, threads, item) {
        Ok(()) => Ok(()),
        Err(LsmError::Full) => Err(TryInsertError::Full),
        Err(LsmError::NoMemory) => Err(TryInsertError::NoMemory),
    }
}

// Puts the item into the own part and releases that, if there is room.
fn put_own<S: PartSlot>(
    table: &Locks<S>,
    seat: &mut MemberSeat<S>,
    thread: usize,
    item: Item,
) -> bool
    requires sized { S.is_sized }
    requires seat { IsSeatOf seat.old.table_id table.now.table_id table.now.key thread }
    requires stamp { BearsStamp thread (length (inserted (mine seat.old.me.0))) item }
    requires room { length (inserted (mine seat.old.me.0)) < table.now.key.quota }
    requires has { (own : List Item)
        × Has S.content S.suits table.now.key thread (own_in_hand thread own) seat.old.me }
    ensures same { seat.new.table_id ≡ seat.old.table_id }
    ensures others { rest_of seat.new.me.0 ≡ rest_of seat.old.me.0 }
    ensures done { (own : List Item)
        → Has S.content S.suits table.now.key thread (own_in_hand thread own) seat.old.me
        → MatchBool result
        (MayPut table.now.key.k own × Has S.content S.suits table.now.key thread [] seat.new.me
        × (mine seat.new.me.0
        ≡ mine seat.old.me.0 ++ Committed (Put item) ∷ Released (own_part thread) ∷ []))
        ((length own ≡ table.now.key.k)
        × Has S.content S.suits table.now.key thread (own_in_hand thread own) seat.new.me
        × (mine seat.new.me.0 ≡ mine seat.old.me.0)) }
{
    if put_in(table, seat, thread, item) {
        commit_event(table, seat, thread + 1, thread, &Event::Put(item));
        true
    } else {
        false
    }
}

// Puts the item into the own part, which the seat carries, if there is room.
fn put_in<S: PartSlot>(
    table: &Locks<S>,
    seat: &mut MemberSeat<S>,
    thread: usize,
    item: Item,
) -> bool
    requires sized { S.is_sized }
    requires seat { IsSeatOf seat.old.table_id table.now.table_id table.now.key thread }
    requires carries { (own : List Item)
        × Carries S.content S.suits table.now.key thread (own_in_hand thread own) seat.old.me
        × ¬ Contains own item }
    ensures same { (seat.new.table_id ≡ seat.old.table_id) × (seat.new.id ≡ seat.old.id)
        × (seat.new.me.0 ≡ seat.old.me.0) }
    ensures done { (own : List Item)
        → Carries S.content S.suits table.now.key thread (own_in_hand thread own) seat.old.me
        → MatchBool result
        (MayPut table.now.key.k own × Carries S.content S.suits table.now.key thread
        (own_in_hand thread (own_after_put own item)) seat.new.me)
        ((length own ≡ table.now.key.k) × Carries S.content S.suits table.now.key thread
        (own_in_hand thread own) seat.new.me) }
{
    seat.slot_mut(table, thread + 1).put(item)
}

// Puts the item into the own part, which is full, moves what has to move to the shared part, and
// releases both.
fn flush_both<S: PartSlot>(
    table: &Locks<S>,
    seat: &mut MemberSeat<S>,
    thread: usize,
    threads: usize,
    item: Item,
) -> Result<(), LsmError>
    requires sized { S.is_sized }
    requires seat { IsSeatOf seat.old.table_id table.now.table_id table.now.key thread }
    requires threads { threads ≡ table.now.key.threads }
    requires stamp { BearsStamp thread (length (inserted (mine seat.old.me.0))) item }
    requires room { length (inserted (mine seat.old.me.0)) < table.now.key.quota }
    requires has { (own : List Item) × (shared : List Item)
        × Has S.content S.suits table.now.key thread (both_in_hand thread own shared) seat.old.me
        × (length own ≡ table.now.key.k) }
    ensures same { seat.new.table_id ≡ seat.old.table_id }
    ensures others { rest_of seat.new.me.0 ≡ rest_of seat.old.me.0 }
    ensures has { Has S.content S.suits table.now.key thread [] seat.new.me }
    ensures done { OnOk result ((own : List Item) → (shared : List Item)
        → Has S.content S.suits table.now.key thread (both_in_hand thread own shared) seat.old.me
        → (moved : List Item) × MayFlush table.now.key.k own item moved
        × (length shared + length moved ≤ limit_of S.levels heap_room)
        × (mine seat.new.me.0
        ≡ mine seat.old.me.0 ++ Committed (Flush item moved) ∷ both_released thread)) }
    ensures refused { OnErr result (mine seat.new.me.0 ≡ mine seat.old.me.0 ++ both_released thread) }
    ensures full { IfErr result (λ why. why ≡ LsmError.Full
        → (own : List Item) → (shared : List Item)
        → Has S.content S.suits table.now.key thread (both_in_hand thread own shared) seat.old.me
        → LacksRoom S.levels table.now.key.k shared) }
    ensures memory { IfErr result (λ why. why ≡ LsmError.NoMemory
        → (own : List Item) → (shared : List Item)
        → Has S.content S.suits table.now.key thread (both_in_hand thread own shared) seat.old.me
        → IsBelowLimit S.levels shared) }
{
    match flush_in(table, seat, thread, item) {
        Ok(front) => {
            commit_moving_by_front(table, seat, threads, thread, front, &item);
            release_both(table, seat, thread);
            Ok(())
        }
        Err(why) => {
            release_both(table, seat, thread);
            Err(why)
        }
    }
}

// Moves what has to move from the own part, which is full, to the shared one, and puts the item into
// the own part. The seat carries both. It answers the front of what the shared part then has.
fn flush_in<S: PartSlot>(
    table: &Locks<S>,
    seat: &mut MemberSeat<S>,
    thread: usize,
    item: Item,
) -> Result<u64, LsmError>
    requires sized { S.is_sized }
    requires seat { IsSeatOf seat.old.table_id table.now.table_id table.now.key thread }
    requires carries { (own : List Item) × (shared : List Item)
        × Carries S.content S.suits table.now.key thread (both_in_hand thread own shared)
        seat.old.me
        × (length own ≡ table.now.key.k) × ShareNone own shared
        × (¬ Contains own item) × ¬ Contains shared item }
    ensures same { (seat.new.table_id ≡ seat.old.table_id) × (seat.new.id ≡ seat.old.id)
        × (seat.new.me.0 ≡ seat.old.me.0) }
    ensures done { IfOk result (λ front. (own : List Item) → (shared : List Item)
        → Carries S.content S.suits table.now.key thread (both_in_hand thread own shared)
        seat.old.me
        → (moved : List Item) × MayFlush table.now.key.k own item moved
        × Carries S.content S.suits table.now.key thread (both_in_hand thread
        (own_after_flush own item moved) (shared_after_flush shared moved)) seat.new.me
        × (length shared + length moved ≤ limit_of S.levels heap_room)
        × (front ≡ front_of (shared_after_flush shared moved))) }
    ensures unchanged { OnErr result ((own : List Item) → (shared : List Item)
        → Carries S.content S.suits table.now.key thread (both_in_hand thread own shared)
        seat.old.me
        → Carries S.content S.suits table.now.key thread (both_in_hand thread own shared)
        seat.new.me) }
    ensures full { IfErr result (λ why. why ≡ LsmError.Full
        → (own : List Item) → (shared : List Item)
        → Carries S.content S.suits table.now.key thread (both_in_hand thread own shared)
        seat.old.me
        → LacksRoom S.levels table.now.key.k shared) }
    ensures memory { IfErr result (λ why. why ≡ LsmError.NoMemory
        → (own : List Item) → (shared : List Item)
        → Carries S.content S.suits table.now.key thread (both_in_hand thread own shared)
        seat.old.me
        → IsBelowLimit S.levels shared) }
{
    let mut shared = lend_shared(table, seat, thread);
    let answer = seat.slot_mut(table, thread + 1).flush(&mut shared, item);
    let front = shared.front();
    return_shared(table, seat, thread, shared);
    match answer {
        Ok(()) => Ok(front),
        Err(why) => Err(why),
    }
}
