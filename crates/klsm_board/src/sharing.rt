//! The sharing of all own items. It takes effect where the front is set.
ghost use Rattle.std.specs.Prelude.{◌≡◌, ◌<◌, ◌++◌, List, [], ◌∷◌, length, IfSome, IfErr, IfOk, OnOk, OnErr, IsErrAnd};
ghost use Rattle.klsm_run.specs.declared.item.Item.{Item};
ghost use Rattle.klsm_run.specs.Content.{ShareNone};
ghost use Rattle.klsm_parts.specs.Events.{front_of};
ghost use Rattle.klsm_parts.specs.Sharing.{MayShare, own_after_share, shared_after_share};
ghost use Rattle.klsm_schedules.specs.declared.step.Event.TheVariants.{Share};
ghost use Rattle.klsm_schedules.specs.declared.step.Entry.TheVariants.{Committed};
ghost use Rattle.klsm_schedules.specs.OwnSteps.{Hand, hand_of};
ghost use Rattle.klsm_board.specs.Steps.{mine, rest_of};
ghost use Rattle.klsm_board.specs.Seats.{Carries, CarriedOut, Stands, Has, IsSeatOf, SetsFront, own_in_hand, both_in_hand};
ghost use Rattle.klsm_board.specs.Effects.{MeetsHolder};
ghost use Rattle.klsm_board.specs.Entries.{both_released};
ghost use Rattle.klsm_board.specs.Sharing.{Shares, LacksRoomFor, HasRoomFor, RefusesShare};

use crate::acquiring::try_acquire;
use crate::errors::{Busy, TryShareError};
use crate::held::look;
use crate::lending::{lend_shared, return_shared};
use crate::rule::{Locks, MemberSeat};
use crate::slot::PartSlot;
use crate::steps::{Sharing, commit_moving_by_front, release_both, release_part};
use klsm_parts::{LsmError, SharedRun};
use std::alloc::Global;

/// Shares all own items, if no lock that it needs is held. It answers how many moved.
pub(crate) fn share_now<S: PartSlot>(
    table: &Locks<S>,
    seat: &mut MemberSeat<S>,
    thread: usize,
    threads: usize,
) -> Result<usize, TryShareError>
    requires sized { S.is_sized }
    requires seat { IsSeatOf seat.old.table_id table.now.table_id table.now.key thread }
    requires threads { threads ≡ table.now.key.threads }
    requires stands { Stands S.content S.suits table.now.key thread [] seat.old.me }
    ensures same { seat.new.table_id ≡ seat.old.table_id }
    ensures others { rest_of seat.new.me.0 ≡ rest_of seat.old.me.0 }
    ensures has { Has S.content S.suits table.now.key thread [] seat.new.me }
    ensures ok { IfOk result (Shares S.levels thread (mine seat.old.me.0) (mine seat.new.me.0)) }
    ensures refused { IfErr result (RefusesShare S.levels thread (mine seat.old.me.0)
        (mine seat.new.me.0)) }
    ensures holder { (busy : Busy) → IsErrAnd result (λ why. why ≡ TryShareError.Busy busy)
        → MeetsHolder table.now.key thread (rest_of seat.old.me.0) (mine seat.new.me.0) busy }
{
    if let Err(busy) = try_acquire(table, seat, thread + 1, thread) {
        return Err(TryShareError::Busy(busy));
    }
    let count = count_own(table, seat, thread);
    if count == 0 {
        release_part(table, seat, thread + 1, thread);
        return Ok(0);
    }
    let copy = copy_own(table, seat, thread);
    if let Err(busy) = try_acquire(table, seat, 0, thread) {
        release_part(table, seat, thread + 1, thread);
        return Err(TryShareError::Busy(busy));
    }
    match share_both(table, seat, thread, threads, copy) {
        Ok(()) => Ok(count),
        Err(LsmError::Full) => Err(TryShareError::Full),
        Err(LsmError::NoMemory) => Err(TryShareError::NoMemory),
    }
}

// How many items the own part in hand has.
fn count_own<S: PartSlot>(table: &Locks<S>, seat: &mut MemberSeat<S>, thread: usize) -> usize
    requires seat { IsSeatOf seat.old.table_id table.now.table_id table.now.key thread }
    requires has { (own : List Item)
        × Has S.content S.suits table.now.key thread (own_in_hand thread own) seat.old.me }
    ensures same { seat.new.table_id ≡ seat.old.table_id }
    ensures others { rest_of seat.new.me.0 ≡ rest_of seat.old.me.0 }
    ensures counted { (own : List Item)
        → Has S.content S.suits table.now.key thread (own_in_hand thread own) seat.old.me
        → (result ≡ length own)
        × Has S.content S.suits table.now.key thread (own_in_hand thread own) seat.new.me
        × (mine seat.new.me.0 ≡ mine seat.old.me.0) }
{
    look(table, seat, thread + 1, thread).0
}

// A copy of all items of the own part in hand, if there is memory for it. It is made before the shared lock is tried,
// so that no other member waits for the merge.
fn copy_own<S: PartSlot>(
    table: &Locks<S>,
    seat: &mut MemberSeat<S>,
    thread: usize,
) -> Option<SharedRun<Global>>
    requires sized { S.is_sized }
    requires seat { IsSeatOf seat.old.table_id table.now.table_id table.now.key thread }
    requires has { (own : List Item)
        × Has S.content S.suits table.now.key thread (own_in_hand thread own) seat.old.me }
    ensures same { seat.new.table_id ≡ seat.old.table_id }
    ensures others { rest_of seat.new.me.0 ≡ rest_of seat.old.me.0 }
    ensures copied { (own : List Item)
        → Has S.content S.suits table.now.key thread (own_in_hand thread own) seat.old.me
        → IfSome result (λ run. run ≡ own)
        × Has S.content S.suits table.now.key thread (own_in_hand thread own) seat.new.me
        × (mine seat.new.me.0 ≡ mine seat.old.me.0) }
{
    seat.slot_mut(table, thread + 1).prepare_sharing()
}

// Moves all own items, of which there are some, to the shared part, and releases both.
fn share_both<S: PartSlot>(
    table: &Locks<S>,
    seat: &mut MemberSeat<S>,
    thread: usize,
    threads: usize,
    copy: Option<SharedRun<Global>>,
) -> Result<(), LsmError>
    requires sized { S.is_sized }
    requires seat { IsSeatOf seat.old.table_id table.now.table_id table.now.key thread }
    requires threads { threads ≡ table.now.key.threads }
    requires has { (own : List Item) × (shared : List Item)
        × Has S.content S.suits table.now.key thread (both_in_hand thread own shared) seat.old.me
        × (0 < length own) × IfSome copy (λ run. run ≡ own) }
    ensures same { seat.new.table_id ≡ seat.old.table_id }
    ensures others { rest_of seat.new.me.0 ≡ rest_of seat.old.me.0 }
    ensures has { Has S.content S.suits table.now.key thread [] seat.new.me }
    ensures done { OnOk result ((own : List Item) → (shared : List Item)
        → Has S.content S.suits table.now.key thread (both_in_hand thread own shared) seat.old.me
        → MayShare own own × HasRoomFor S.levels own shared
        × (mine seat.new.me.0
        ≡ mine seat.old.me.0 ++ Committed (Share own) ∷ both_released thread)) }
    ensures refused { OnErr result (mine seat.new.me.0 ≡ mine seat.old.me.0 ++ both_released thread) }
    ensures full { IfErr result (λ why. why ≡ LsmError.Full
        → (own : List Item) → (shared : List Item)
        → Has S.content S.suits table.now.key thread (both_in_hand thread own shared) seat.old.me
        → LacksRoomFor S.levels own shared) }
    ensures memory { IfErr result (λ why. why ≡ LsmError.NoMemory
        → (own : List Item) → (shared : List Item)
        → Has S.content S.suits table.now.key thread (both_in_hand thread own shared) seat.old.me
        → HasRoomFor S.levels own shared) }
{
    match share_in(table, seat, thread, copy) {
        Ok(front) => {
            commit_sharing(table, seat, threads, thread, front);
            release_both(table, seat, thread);
            Ok(())
        }
        Err(why) => {
            release_both(table, seat, thread);
            Err(why)
        }
    }
}

// Commits that all own items moved, by setting the front to what that leaves it. The caller learns of the items that its
// list names that their moving leaves what the seat carried.
fn commit_sharing<S: PartSlot>(
    table: &Locks<S>,
    seat: &mut MemberSeat<S>,
    threads: usize,
    thread: usize,
    front: u64,
)
    requires seat { IsSeatOf seat.old.table_id table.now.table_id table.now.key thread }
    requires threads { threads ≡ table.now.key.threads }
    requires out { (moved : List Item) × (hand : Hand)
        × CarriedOut S.content S.suits table.now.key thread (Share moved) hand seat.old.me
        × SetsFront thread (hand_of thread (mine seat.old.me.0)) (Share moved) front }
    ensures same { (seat.new.table_id ≡ seat.old.table_id) × (seat.new.id ≡ seat.old.id) }
    ensures others { rest_of seat.new.me.0 ≡ rest_of seat.old.me.0 }
    ensures has { (hand : Hand) → Carries S.content S.suits table.now.key thread hand seat.old.me
        → Has S.content S.suits table.now.key thread hand seat.new.me }
    ensures list { (hand : Hand) → Carries S.content S.suits table.now.key thread hand seat.old.me
        → (moved : List Item)
        × CarriedOut S.content S.suits table.now.key thread (Share moved) hand seat.old.me
        × (mine seat.new.me.0 ≡ mine seat.old.me.0 ++ Committed (Share moved) ∷ []) }
{
    commit_moving_by_front(table, seat, threads, thread, front, &Sharing);
}

// Moves all own items, of which there are some, to the shared part. The seat carries both. It answers the front of
// what the shared part then has.
fn share_in<S: PartSlot>(
    table: &Locks<S>,
    seat: &mut MemberSeat<S>,
    thread: usize,
    copy: Option<SharedRun<Global>>,
) -> Result<u64, LsmError>
    requires sized { S.is_sized }
    requires seat { IsSeatOf seat.old.table_id table.now.table_id table.now.key thread }
    requires carries { (own : List Item) × (shared : List Item)
        × Carries S.content S.suits table.now.key thread (both_in_hand thread own shared)
        seat.old.me
        × ShareNone own shared × (0 < length own) × IfSome copy (λ run. run ≡ own) }
    ensures same { (seat.new.table_id ≡ seat.old.table_id) × (seat.new.id ≡ seat.old.id)
        × (seat.new.me.0 ≡ seat.old.me.0) }
    ensures done { IfOk result (λ front. (own : List Item) → (shared : List Item)
        → Carries S.content S.suits table.now.key thread (both_in_hand thread own shared)
        seat.old.me
        → MayShare own own
        × Carries S.content S.suits table.now.key thread (both_in_hand thread
        (own_after_share own own) (shared_after_share shared own)) seat.new.me
        × HasRoomFor S.levels own shared
        × (front ≡ front_of (shared_after_share shared own))) }
    ensures unchanged { OnErr result ((own : List Item) → (shared : List Item)
        → Carries S.content S.suits table.now.key thread (both_in_hand thread own shared)
        seat.old.me
        → Carries S.content S.suits table.now.key thread (both_in_hand thread own shared)
        seat.new.me) }
    ensures full { IfErr result (λ why. why ≡ LsmError.Full
        → (own : List Item) → (shared : List Item)
        → Carries S.content S.suits table.now.key thread (both_in_hand thread own shared)
        seat.old.me
        → LacksRoomFor S.levels own shared) }
    ensures memory { IfErr result (λ why. why ≡ LsmError.NoMemory
        → (own : List Item) → (shared : List Item)
        → Carries S.content S.suits table.now.key thread (both_in_hand thread own shared)
        seat.old.me
        → HasRoomFor S.levels own shared) }
{
    let mut shared = lend_shared(table, seat, thread);
    let answer = seat.slot_mut(table, thread + 1).share(&mut shared, copy);
    let front = shared.front();
    return_shared(table, seat, thread, shared);
    match answer {
        Ok(_) => Ok(front),
        Err(why) => Err(why),
    }
}
