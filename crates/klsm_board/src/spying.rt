//! What a member that finds both parts empty takes from another's.
ghost use Rattle.std.specs.Prelude.{◌≡◌, ◌≢◌, ◌<◌, ◌≤◌, ◌+◌, ◌-◌, ◌++◌, ℕ, List, [], ◌∷◌, MatchBool};
ghost use Rattle.klsm_run.specs.declared.item.Item.{Item};
ghost use Rattle.klsm_run.specs.declared.limits.TheConstants.{MOST_THREADS};
ghost use Rattle.klsm_parts.specs.Events.{MaySpy, own_after_spy, victim_after_spy};
ghost use Rattle.klsm_schedules.specs.declared.step.Event.TheVariants.{Spy};
ghost use Rattle.klsm_schedules.specs.declared.step.Entry.{Entry};
ghost use Rattle.klsm_schedules.specs.declared.step.Entry.TheVariants.{Acquired, Committed, Released};
ghost use Rattle.klsm_schedules.specs.OwnSteps.{own_part};
ghost use Rattle.klsm_board.specs.Steps.{mine, rest_of};
ghost use Rattle.klsm_board.specs.Seats.{Carries, Has, IsSeatOf, both_in_hand, three_in_hand};
ghost use Rattle.klsm_board.specs.Deleting.{Passes, PassesBy, Spies, SpiesAfter, victim_of};

use crate::rule::{Locks, MemberSeat};
use crate::slot::PartSlot;
use crate::steps::{acquire_part, commit_moving, release_part};

/// Tries each other member's part once, from the next member's on, until items came: true where
/// they did. The seat has both its parts before and after.
pub(crate) fn search_victims<S: PartSlot>(
    table: &Locks<S>,
    seat: &mut MemberSeat<S>,
    thread: usize,
    threads: usize,
) -> bool
    requires sized { S.is_sized }
    requires seat { IsSeatOf seat.old.table_id table.now.table_id table.now.key thread }
    requires threads { threads ≡ table.now.key.threads }
    requires has { (shared : List Item)
        × Has S.content S.suits table.now.key thread (both_in_hand thread [] shared) seat.old.me }
    ensures same { seat.new.table_id ≡ seat.old.table_id }
    ensures others { rest_of seat.new.me.0 ≡ rest_of seat.old.me.0 }
    ensures done { (shared : List Item)
        → Has S.content S.suits table.now.key thread (both_in_hand thread [] shared) seat.old.me
        → MatchBool result
        ((moved : List Item) × Has S.content S.suits table.now.key thread
        (both_in_hand thread moved shared) seat.new.me
        × SpiesAfter threads thread (mine seat.old.me.0) (mine seat.new.me.0) moved)
        (Has S.content S.suits table.now.key thread (both_in_hand thread [] shared) seat.new.me
        × ((added : List Entry) × Passes threads thread (threads - 1) added
        × (mine seat.new.me.0 ≡ mine seat.old.me.0 ++ added))) }
{
    for step in 1..threads {
        if try_victim(table, seat, thread, victim_at(thread, threads, step)) {
            return true;
        }
    }
    false
}

// The member that is so many places behind another, in the round of all.
pub(crate) fn victim_at(thread: usize, threads: usize, step: usize) -> u32
    requires { (thread < threads) × (0 < step) × (step < threads) × (threads ≤ MOST_THREADS) }
    ensures value { result ≡ victim_of threads thread step }
    ensures another { (result < threads) × (result ≢ thread) }
{
    let victim = thread + step;
    if victim < threads {
        victim as u32
    } else {
        (victim - threads) as u32
    }
}

// Tries one victim: true where items moved from its part to the own one.
fn try_victim<S: PartSlot>(
    table: &Locks<S>,
    seat: &mut MemberSeat<S>,
    thread: usize,
    victim: u32,
) -> bool
    requires sized { S.is_sized }
    requires seat { IsSeatOf seat.old.table_id table.now.table_id table.now.key thread }
    requires victim { (victim < table.now.key.threads) × (victim ≢ thread) }
    requires has { (shared : List Item)
        × Has S.content S.suits table.now.key thread (both_in_hand thread [] shared) seat.old.me }
    ensures same { seat.new.table_id ≡ seat.old.table_id }
    ensures others { rest_of seat.new.me.0 ≡ rest_of seat.old.me.0 }
    ensures done { (shared : List Item)
        → Has S.content S.suits table.now.key thread (both_in_hand thread [] shared) seat.old.me
        → MatchBool result
        ((moved : List Item) × Has S.content S.suits table.now.key thread
        (both_in_hand thread moved shared) seat.new.me
        × Spies victim (mine seat.old.me.0) (mine seat.new.me.0) moved)
        (Has S.content S.suits table.now.key thread (both_in_hand thread [] shared) seat.new.me
        × ((added : List Entry) × PassesBy victim added
        × (mine seat.new.me.0 ≡ mine seat.old.me.0 ++ added))) }
{
    let lock = victim as usize + 1;
    if acquire_part(table, seat, lock, thread) != 0 {
        return false;
    }
    if !spy_in(table, seat, thread, lock) {
        release_part(table, seat, lock, thread);
        return false;
    }
    commit_moving(table, seat, lock, thread, &victim);
    true
}

// Moves items from the victim's part, which the seat acquired last, to the own one, which is empty: true
// where some moved.
fn spy_in<S: PartSlot>(
    table: &Locks<S>,
    seat: &mut MemberSeat<S>,
    thread: usize,
    lock: usize,
) -> bool
    requires sized { S.is_sized }
    requires seat { IsSeatOf seat.old.table_id table.now.table_id table.now.key thread }
    requires carries { (victim : ℕ) × (found : List Item) × (shared : List Item)
        × (lock ≡ own_part victim)
        × Carries S.content S.suits table.now.key thread
        (three_in_hand thread victim found [] shared) seat.old.me }
    ensures same { (seat.new.table_id ≡ seat.old.table_id) × (seat.new.id ≡ seat.old.id)
        × (seat.new.me.0 ≡ seat.old.me.0) }
    ensures done { (victim : ℕ) → (found : List Item) → (shared : List Item)
        → lock ≡ own_part victim
        → Carries S.content S.suits table.now.key thread
        (three_in_hand thread victim found [] shared) seat.old.me
        → MatchBool result
        ((moved : List Item) × MaySpy [] found moved
        × Carries S.content S.suits table.now.key thread
        (three_in_hand thread victim (victim_after_spy found moved) (own_after_spy moved) shared)
        seat.new.me)
        ((found ≡ []) × Carries S.content S.suits table.now.key thread
        (three_in_hand thread victim found [] shared) seat.new.me) }
{
    let mut victim = table.exchange(seat, lock, S::vacant());
    seat.turn();
    seat.turn();
    let moved = seat.slot_mut(table, thread + 1).spy(&mut victim);
    seat.turn();
    table.exchange(seat, lock, victim).discard();
    moved
}
