//! What a member takes from another's part though its own has items.
ghost use Rattle.std.specs.Prelude.{◌≡◌, ◌≢◌, ◌<◌, ◌++◌, ℕ, List, [], IfErr, IfOk, MatchBool};
ghost use Rattle.klsm_run.specs.declared.item.Item.{Item};
ghost use Rattle.klsm_run.specs.Content.{ShareNone};
ghost use Rattle.klsm_parts.specs.Stealing.{MaySteal, own_after_steal, victim_after_steal};
ghost use Rattle.klsm_schedules.specs.declared.step.Entry.{Entry};
ghost use Rattle.klsm_schedules.specs.OwnSteps.{own_part};
ghost use Rattle.klsm_board.specs.Steps.{mine, rest_of};
ghost use Rattle.klsm_board.specs.Effects.{MeetsHolder};
ghost use Rattle.klsm_board.specs.Inserting.{MissesOwn};
ghost use Rattle.klsm_board.specs.Seats.{Carries, Has, IsSeatOf, Stands, own_in_hand, victim_in_hand};
ghost use Rattle.klsm_board.specs.Stealing.{Balances, Steals, StealsNone, gains_by, stolen};

use crate::acquiring::try_acquire;
use crate::errors::Busy;
use crate::rule::{Locks, MemberSeat};
use crate::slot::PartSlot;
use crate::steps::{Stealing, acquire_after_look, commit_moving, release_part, see_front};
use klsm_run::Item;

/// Tries one victim, if the own lock is not held: true where items moved from its part to the own one.
pub(crate) fn balance_now<S: PartSlot>(
    table: &Locks<S>,
    seat: &mut MemberSeat<S>,
    thread: usize,
    threads: usize,
    victim: u32,
    most: usize,
) -> Result<bool, Busy>
    requires sized { S.is_sized }
    requires seat { IsSeatOf seat.old.table_id table.now.table_id table.now.key thread }
    requires threads { threads ≡ table.now.key.threads }
    requires victim { (victim < table.now.key.threads) × (victim ≢ thread) }
    requires stands { Stands S.content S.suits table.now.key thread [] seat.old.me }
    ensures same { seat.new.table_id ≡ seat.old.table_id }
    ensures others { rest_of seat.new.me.0 ≡ rest_of seat.old.me.0 }
    ensures has { Has S.content S.suits table.now.key thread [] seat.new.me }
    ensures ok { IfOk result (Balances table.now.key thread most victim (mine seat.old.me.0)
        (mine seat.new.me.0)) }
    ensures busy { IfErr result (MissesOwn thread (mine seat.old.me.0) (mine seat.new.me.0)) }
    ensures holder { IfErr result (MeetsHolder table.now.key thread (rest_of seat.old.me.0)
        (mine seat.new.me.0)) }
{
    try_acquire(table, seat, thread + 1, thread)?;
    let front = see_front(table, seat, threads, thread);
    let moves = steal_from(table, seat, thread, victim, front, most);
    release_part(table, seat, thread + 1, thread);
    Ok(moves)
}

// Tries one victim: true where items moved from its part to the own one. The least items of the victim's part move,
// `most` at most, where the least of them is below the front and smaller than the least own item.
fn steal_from<S: PartSlot>(
    table: &Locks<S>,
    seat: &mut MemberSeat<S>,
    thread: usize,
    victim: u32,
    front: u64,
    most: usize,
) -> bool
    requires sized { S.is_sized }
    requires seat { IsSeatOf seat.old.table_id table.now.table_id table.now.key thread }
    requires victim { (victim < table.now.key.threads) × (victim ≢ thread) }
    requires has { (own : List Item)
        × Has S.content S.suits table.now.key thread (own_in_hand thread own) seat.old.me }
    ensures same { seat.new.table_id ≡ seat.old.table_id }
    ensures others { rest_of seat.new.me.0 ≡ rest_of seat.old.me.0 }
    ensures done { (own : List Item)
        → Has S.content S.suits table.now.key thread (own_in_hand thread own) seat.old.me
        → MatchBool result
        ((moved : List Item) × Has S.content S.suits table.now.key thread
        (own_in_hand thread (own_after_steal own moved)) seat.new.me
        × Steals front most table.now.key.k victim own (mine seat.old.me.0) (mine seat.new.me.0)
        moved)
        (Has S.content S.suits table.now.key thread (own_in_hand thread own) seat.new.me
        × ((added : List Entry) × StealsNone front most table.now.key.k victim own added
        × (mine seat.new.me.0 ≡ mine seat.old.me.0 ++ added))) }
{
    let lock = victim as usize + 1;
    if acquire_after_look(table, seat, lock, thread) != 0 {
        return false;
    }
    if !steal_in(table, seat, thread, lock, front, most) {
        release_part(table, seat, lock, thread);
        return false;
    }
    commit_moving(table, seat, lock, thread, &Stealing { victim });
    true
}

// Moves items from the victim's part, which the seat acquired last, to the own one: true where some moved.
fn steal_in<S: PartSlot>(
    table: &Locks<S>,
    seat: &mut MemberSeat<S>,
    thread: usize,
    lock: usize,
    front: u64,
    most: usize,
) -> bool
    requires sized { S.is_sized }
    requires seat { IsSeatOf seat.old.table_id table.now.table_id table.now.key thread }
    requires carries { (victim : ℕ) × (found : List Item) × (own : List Item)
        × (lock ≡ own_part victim)
        × Carries S.content S.suits table.now.key thread (victim_in_hand thread victim found own)
        seat.old.me
        × ShareNone own found }
    ensures same { (seat.new.table_id ≡ seat.old.table_id) × (seat.new.id ≡ seat.old.id)
        × (seat.new.me.0 ≡ seat.old.me.0) }
    ensures done { (victim : ℕ) → (found : List Item) → (own : List Item)
        → lock ≡ own_part victim
        → Carries S.content S.suits table.now.key thread (victim_in_hand thread victim found own)
        seat.old.me
        → MatchBool result
        (MaySteal table.now.key.k own found (stolen front most table.now.key.k own found)
        × Carries S.content S.suits table.now.key thread (victim_in_hand thread victim
        (victim_after_steal found (stolen front most table.now.key.k own found))
        (own_after_steal own (stolen front most table.now.key.k own found))) seat.new.me)
        ((stolen front most table.now.key.k own found ≡ [])
        × Carries S.content S.suits table.now.key thread (victim_in_hand thread victim found own)
        seat.new.me) }
{
    let mut victim = table.exchange(seat, lock, S::vacant());
    seat.turn();
    let moved = steal_where_gains(seat.slot_mut(table, thread + 1), &mut victim, front, most);
    seat.turn();
    table.exchange(seat, lock, victim).discard();
    moved
}

// Moves items from a victim's part to an own one, where the victim's least gains: true where some moved.
fn steal_where_gains<S: PartSlot>(own: &mut S, victim: &mut S, front: u64, most: usize) -> bool
    requires sized { S.is_sized }
    requires parts { (k : ℕ) × (t : ℕ) × (v : ℕ) × S.suits k (own_part t) own.old
        × S.suits k (own_part v) victim.old }
    requires apart { ShareNone (S.content own.old) (S.content victim.old) }
    ensures kind { (k t : ℕ) → S.suits k (own_part t) own.old → S.suits k (own_part t) own.new }
    ensures victim_kind { (k t : ℕ) → S.suits k (own_part t) victim.old
        → S.suits k (own_part t) victim.new }
    ensures done { (k t : ℕ) → S.suits k (own_part t) own.old → MatchBool result
        (MaySteal k (S.content own.old) (S.content victim.old)
        (stolen front most k (S.content own.old) (S.content victim.old))
        × (S.content own.new ≡ own_after_steal (S.content own.old)
        (stolen front most k (S.content own.old) (S.content victim.old)))
        × (S.content victim.new ≡ victim_after_steal (S.content victim.old)
        (stolen front most k (S.content own.old) (S.content victim.old))))
        ((stolen front most k (S.content own.old) (S.content victim.old) ≡ [])
        × (S.content own.new ≡ S.content own.old)
        × (S.content victim.new ≡ S.content victim.old)) }
{
    if gains(front, own.least(), victim.least()) {
        own.steal(victim, most)
    } else {
        false
    }
}

// Whether a victim's least item is below a front, and smaller than the least own one.
fn gains(front: u64, own: Option<Item>, victim: Option<Item>) -> bool
    ensures { result ≡ gains_by front own victim }
{
    match (own, victim) {
        (_, None) => false,
        (None, Some(theirs)) => theirs.key < front,
        (Some(mine), Some(theirs)) => theirs.key < front && theirs.is_before(&mine),
    }
}
