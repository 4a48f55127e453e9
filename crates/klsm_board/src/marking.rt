//! The key that a thread works at: that of the item that it deleted last, until it is answered nothing or rests.
//!
//! A thread marks it with its own part in hand, in a word beside the lock of that part. So who has the part in hand sees
//! there what the thread works at, and that stays so as long as it has the part.
ghost use Rattle.std.specs.Prelude.{◌≡◌, ◌≤◌, ◌<◌, ◌-◌, ◌++◌, ◌⊎◌, [], ◌∷◌, List};
ghost use mathlib.Core.Option.{none};
ghost use Rattle.atomic_table.specs.Table.{step};
ghost use Rattle.klsm_run.specs.declared.item.Item.{Item};
ghost use Rattle.klsm_schedules.specs.declared.step.Entry.TheVariants.{Marked, Saw};
ghost use Rattle.klsm_schedules.specs.OwnSteps.{Hand, HoldsSome, hand_of, no_key, own_part, work_of};
ghost use Rattle.klsm_board.specs.Rule.{mark_place};
ghost use Rattle.klsm_board.specs.Steps.{mine, rest_of, IsMine, mark_stored, saw};
ghost use Rattle.klsm_board.specs.Seats.{Carries, Stands, Has, IsMarked, IsSeatOf, own_in_hand, both_in_hand};
ghost use Rattle.klsm_board.specs.Entries.{own_marked, both_marked};

use crate::plays::{Intent, Mark, See};
use crate::rule::{Holding, Locks, MemberSeat, STRIDE};
use crate::steps::{release_part, release_shared};
use std::marker::Brand;

// Sets the thread's mark, with its own part in hand, to the key that it works at, or to the greatest number.
fn store_mark<S: Holding, D: Intent>(
    table: &Locks<S>,
    seat: &mut MemberSeat<S>,
    thread: usize,
    key: u64,
)
    requires outcome { (D.sizes ≡ table.now.key) × (D.thread ≡ thread) }
    requires seat { IsSeatOf seat.old.table_id table.now.table_id table.now.key thread }
    requires view { IsMine seat.old.me.0 thread }
    requires held { HoldsSome (hand_of thread (mine seat.old.me.0)) (own_part thread) }
    requires key { (key ≡ work_of (mine seat.old.me.0)) ⊎ (key ≡ no_key) }
    ensures same { (seat.new.table_id ≡ seat.old.table_id) × (seat.new.id ≡ seat.old.id) }
    ensures outcome { mark_stored table.now.key thread
        (step table.now.table_id.slots (mark_place thread) (no_key - key) 0 none) seat.old.me
        (no_key - key) seat.new.me }
{
    table.store::<Mark<D>>(seat, (thread + 1) * STRIDE + 1, u64::MAX - key);
}

// Loads the mark of a thread whose own part is in hand, and the list notes the key that this thread works at.
fn load_mark<S: Holding, D: Intent>(
    table: &Locks<S>,
    seat: &mut MemberSeat<S>,
    thread: usize,
    other: usize,
) -> u64
    requires outcome { (D.sizes ≡ table.now.key) × (D.thread ≡ thread) }
    requires seat { IsSeatOf seat.old.table_id table.now.table_id table.now.key thread }
    requires other { other < table.now.key.threads }
    requires view { IsMine seat.old.me.0 thread }
    requires held { HoldsSome (hand_of thread (mine seat.old.me.0)) (own_part other) }
    requires marked { IsMarked (mine seat.old.me.0) }
    ensures same { (seat.new.table_id ≡ seat.old.table_id) × (seat.new.id ≡ seat.old.id) }
    ensures outcome { saw table.now.key thread (step table.now.table_id.slots other 0 0 none)
        seat.old.me result seat.new.me }
{
    // For the proof: the contract alone names the thread.
    let _ = thread;
    table.load::<See<D>>(seat, (other + 1) * STRIDE + 1)
}

// Marks the key that the thread works at, or that it works at none, with its own part in hand.
fn mark<S: Holding>(table: &Locks<S>, seat: &mut MemberSeat<S>, thread: usize, key: u64)
    requires seat { IsSeatOf seat.old.table_id table.now.table_id table.now.key thread }
    requires carries { (own : List Item)
        × Carries S.content S.suits table.now.key thread (own_in_hand thread own) seat.old.me
        × (hand_of thread (mine seat.old.me.0) ≡ own_in_hand thread own) }
    requires key { (key ≡ work_of (mine seat.old.me.0)) ⊎ (key ≡ no_key) }
    ensures same { (seat.new.table_id ≡ seat.old.table_id) × (seat.new.id ≡ seat.old.id) }
    ensures others { rest_of seat.new.me.0 ≡ rest_of seat.old.me.0 }
    ensures has { (own : List Item)
        → Carries S.content S.suits table.now.key thread (own_in_hand thread own) seat.old.me
        → hand_of thread (mine seat.old.me.0) ≡ own_in_hand thread own
        → Has S.content S.suits table.now.key thread (own_in_hand thread own) seat.new.me }
    ensures list { mine seat.new.me.0 ≡ mine seat.old.me.0 ++ Marked key ∷ [] }
{
    store_mark::<S, Brand>(table, seat, thread, key);
}

/// Marks the key that the thread works at, or that it works at none, with its own part in hand, and releases that part.
pub(crate) fn release_marked<S: Holding>(
    table: &Locks<S>,
    seat: &mut MemberSeat<S>,
    thread: usize,
    key: u64,
)
    requires seat { IsSeatOf seat.old.table_id table.now.table_id table.now.key thread }
    requires carries { (own : List Item)
        × Carries S.content S.suits table.now.key thread (own_in_hand thread own) seat.old.me
        × (hand_of thread (mine seat.old.me.0) ≡ own_in_hand thread own) }
    requires key { (key ≡ work_of (mine seat.old.me.0)) ⊎ (key ≡ no_key) }
    ensures same { (seat.new.table_id ≡ seat.old.table_id) × (seat.new.id ≡ seat.old.id) }
    ensures others { rest_of seat.new.me.0 ≡ rest_of seat.old.me.0 }
    ensures has { Has S.content S.suits table.now.key thread [] seat.new.me }
    ensures list { mine seat.new.me.0 ≡ mine seat.old.me.0 ++ own_marked thread key }
{
    mark(table, seat, thread, key);
    release_part(table, seat, thread + 1, thread);
}

/// Gives back the two parts in hand, the shared one first, and marks between.
pub(crate) fn release_both_marked<S: Holding>(
    table: &Locks<S>,
    seat: &mut MemberSeat<S>,
    thread: usize,
    key: u64,
)
    requires seat { IsSeatOf seat.old.table_id table.now.table_id table.now.key thread }
    requires carries { (own : List Item) × (shared : List Item)
        × Carries S.content S.suits table.now.key thread (both_in_hand thread own shared)
        seat.old.me
        × (hand_of thread (mine seat.old.me.0) ≡ both_in_hand thread own shared) }
    requires key { (key ≡ work_of (mine seat.old.me.0)) ⊎ (key ≡ no_key) }
    ensures same { (seat.new.table_id ≡ seat.old.table_id) × (seat.new.id ≡ seat.old.id) }
    ensures others { rest_of seat.new.me.0 ≡ rest_of seat.old.me.0 }
    ensures has { Has S.content S.suits table.now.key thread [] seat.new.me }
    ensures list { mine seat.new.me.0 ≡ mine seat.old.me.0 ++ both_marked thread key }
{
    release_shared(table, seat, thread);
    release_marked(table, seat, thread, key);
}

/// The key that a thread works at whose own part is in hand.
pub(crate) fn see_work<S: Holding>(
    table: &Locks<S>,
    seat: &mut MemberSeat<S>,
    thread: usize,
    other: usize,
) -> u64
    requires seat { IsSeatOf seat.old.table_id table.now.table_id table.now.key thread }
    requires other { other < table.now.key.threads }
    requires has { (hand : Hand) × Stands S.content S.suits table.now.key thread hand seat.old.me
        × HoldsSome hand (own_part other) }
    ensures same { (seat.new.table_id ≡ seat.old.table_id) × (seat.new.id ≡ seat.old.id) }
    ensures others { rest_of seat.new.me.0 ≡ rest_of seat.old.me.0 }
    ensures still { (hand : Hand) → Stands S.content S.suits table.now.key thread hand seat.old.me
        → Has S.content S.suits table.now.key thread hand seat.new.me }
    ensures list { mine seat.new.me.0 ≡ mine seat.old.me.0 ++ Saw other result ∷ [] }
{
    u64::MAX - load_mark::<S, Brand>(table, seat, thread, other)
}
