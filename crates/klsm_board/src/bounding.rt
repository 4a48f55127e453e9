//! The least key of all live items, how many live, and the least key in work. All parts are in hand for a moment, in
//! which the keys in work are seen, and each part is read when it is released: what it has is what it had since it was
//! acquired.
ghost use Rattle.std.specs.Prelude.{◌≡◌, ◌≤◌, ◌+◌, ◌++◌, ℕ, List, [], ◌∷◌, length, slice_get, IfErr, IfOk, OnOk, None, Option};
ghost use Rattle.klsm_run.specs.declared.item.Item.{Item};
ghost use Rattle.klsm_run.specs.Content.{sorted};
ghost use Rattle.klsm_parts.specs.Events.{front_of};
ghost use Rattle.klsm_schedules.specs.declared.step.Entry.TheVariants.{Released};
ghost use Rattle.klsm_schedules.specs.LiveLaws.{HasAllParts};
ghost use Rattle.klsm_schedules.specs.OwnSteps.{Hand, found_in};
ghost use Rattle.klsm_board.specs.Steps.{mine, rest_of};
ghost use Rattle.klsm_board.specs.Seats.{Stands, Has, IsSeatOf};
ghost use Rattle.klsm_board.specs.Effects.{MeetsHolder};
ghost use Rattle.klsm_board.specs.Members.{most_deletions, most_insertions};
ghost use Rattle.klsm_board.specs.Bounding.{Bounds, IsBoundOf, MissesSome, SeesAllLive, all_in_hand, all_items, all_released, keys_seen, least_key, owns_acquired, owns_in_hand, owns_items, owns_released};

use crate::acquiring::try_acquire;
use crate::errors::Busy;
use crate::held::look;
use crate::marking::see_work;
use crate::rule::{Locks, MemberSeat};
use crate::slot::PartSlot;
use crate::steps::release_part;
use klsm_run::Item;

/// What lives on a board at one moment, in all parts together.
#[derive(Clone, Copy, Debug, PartialEq, Eq)]
pub struct Bound {
    /// The least key of all live items, and the greatest number where none lives.
    pub queue: u64,
    /// The least key of the items that members work at, which are those that each deleted last, unless it has been
    /// answered nothing since, or rested. It is the greatest number where none works.
    pub work: u64,
    /// How many items live.
    pub items: usize,
}

/// Acquires all parts and reads them, if no lock is held.
pub(crate) fn bound_now<S: PartSlot>(
    table: &Locks<S>,
    seat: &mut MemberSeat<S>,
    thread: usize,
    threads: usize,
) -> Result<Bound, Busy>
    requires seat { IsSeatOf seat.old.table_id table.now.table_id table.now.key thread }
    requires threads { threads ≡ table.now.key.threads }
    requires quota { table.now.key.quota ≤ most_insertions }
    requires stands { Stands S.content S.suits table.now.key thread [] seat.old.me }
    ensures same { seat.new.table_id ≡ seat.old.table_id }
    ensures others { rest_of seat.new.me.0 ≡ rest_of seat.old.me.0 }
    ensures has { Has S.content S.suits table.now.key thread [] seat.new.me }
    ensures ok { IfOk result (Bounds threads (mine seat.old.me.0) (mine seat.new.me.0)) }
    ensures live { IfOk result (SeesAllLive table.now.key thread (rest_of seat.old.me.0)
        (mine seat.old.me.0) (mine seat.new.me.0)) }
    ensures busy { IfErr result (MissesSome threads (mine seat.old.me.0) (mine seat.new.me.0)) }
    ensures holder { IfErr result (MeetsHolder table.now.key thread (rest_of seat.old.me.0)
        (mine seat.new.me.0)) }
{
    acquire_owns(table, seat, thread, threads)?;
    if let Err(busy) = try_acquire(table, seat, 0, thread) {
        release_owns(table, seat, thread, threads);
        return Err(busy);
    }
    let work = see_all_work(table, seat, thread, threads);
    Ok(read_all(table, seat, thread, threads, work))
}

// Acquires the own parts of all members, in the order of their numbers; where one of them is held, none.
fn acquire_owns<S: PartSlot>(
    table: &Locks<S>,
    seat: &mut MemberSeat<S>,
    thread: usize,
    threads: usize,
) -> Result<(), Busy>
    requires seat { IsSeatOf seat.old.table_id table.now.table_id table.now.key thread }
    requires threads { threads ≡ table.now.key.threads }
    requires stands { Stands S.content S.suits table.now.key thread [] seat.old.me }
    ensures same { seat.new.table_id ≡ seat.old.table_id }
    ensures others { rest_of seat.new.me.0 ≡ rest_of seat.old.me.0 }
    ensures ok { OnOk result ((owns : List (List Item)) × (length owns ≡ threads)
        × Has S.content S.suits table.now.key thread (owns_in_hand owns) seat.new.me
        × (mine seat.new.me.0 ≡ mine seat.old.me.0 ++ owns_acquired owns)) }
    ensures busy { IfErr result (λ busy.
        Has S.content S.suits table.now.key thread [] seat.new.me
        × MissesSome threads (mine seat.old.me.0) (mine seat.new.me.0) busy) }
    ensures holder { IfErr result (MeetsHolder table.now.key thread (rest_of seat.old.me.0)
        (mine seat.new.me.0)) }
{
    for number in 0..threads {
        if let Err(busy) = try_acquire(table, seat, number + 1, thread) {
            release_owns(table, seat, thread, number);
            return Err(busy);
        }
    }
    Ok(())
}

// Releases the own parts of so many members, which the seat acquired in the order of their numbers, the last one first.
fn release_owns<S: PartSlot>(
    table: &Locks<S>,
    seat: &mut MemberSeat<S>,
    thread: usize,
    count: usize,
)
    requires seat { IsSeatOf seat.old.table_id table.now.table_id table.now.key thread }
    requires count { count ≤ table.now.key.threads }
    requires has { (owns : List (List Item)) × (length owns ≡ count)
        × Has S.content S.suits table.now.key thread (owns_in_hand owns) seat.old.me }
    ensures same { seat.new.table_id ≡ seat.old.table_id }
    ensures others { rest_of seat.new.me.0 ≡ rest_of seat.old.me.0 }
    ensures has { Has S.content S.suits table.now.key thread [] seat.new.me }
    ensures list { mine seat.new.me.0 ≡ mine seat.old.me.0 ++ owns_released count }
{
    for done in 0..count {
        release_part(table, seat, count - done, thread);
    }
}

// The least of the keys that all threads work at, whose own parts the seat has.
fn see_all_work<S: PartSlot>(
    table: &Locks<S>,
    seat: &mut MemberSeat<S>,
    thread: usize,
    threads: usize,
) -> u64
    requires seat { IsSeatOf seat.old.table_id table.now.table_id table.now.key thread }
    requires threads { threads ≡ table.now.key.threads }
    requires has { (hand : Hand) × Has S.content S.suits table.now.key thread hand seat.old.me
        × HasAllParts threads hand }
    ensures same { seat.new.table_id ≡ seat.old.table_id }
    ensures others { rest_of seat.new.me.0 ≡ rest_of seat.old.me.0 }
    ensures has { (hand : Hand) → Has S.content S.suits table.now.key thread hand seat.old.me
        → Has S.content S.suits table.now.key thread hand seat.new.me }
    ensures seen { (keys : List ℕ) × (length keys ≡ threads) × (result ≡ least_key keys)
        × (mine seat.new.me.0 ≡ mine seat.old.me.0 ++ keys_seen keys) }
{
    let mut least = u64::MAX;
    for other in 0..threads {
        let key = see_work(table, seat, thread, other);
        least = key.min(least);
    }
    least
}

// Reads all parts, which the seat has, and releases them, the shared one first. The least key in work is known.
fn read_all<S: PartSlot>(
    table: &Locks<S>,
    seat: &mut MemberSeat<S>,
    thread: usize,
    threads: usize,
    work: u64,
) -> Bound
    requires seat { IsSeatOf seat.old.table_id table.now.table_id table.now.key thread }
    requires threads { threads ≡ table.now.key.threads }
    requires has { (owns : List (List Item)) × (shared : List Item) × (length owns ≡ threads)
        × Has S.content S.suits table.now.key thread (all_in_hand owns shared) seat.old.me
        × (length (all_items owns shared) ≤ most_deletions) }
    ensures same { seat.new.table_id ≡ seat.old.table_id }
    ensures others { rest_of seat.new.me.0 ≡ rest_of seat.old.me.0 }
    ensures has { Has S.content S.suits table.now.key thread [] seat.new.me }
    ensures list { mine seat.new.me.0 ≡ mine seat.old.me.0 ++ all_released threads }
    ensures read { (owns : List (List Item)) → (shared : List Item) → length owns ≡ threads
        → Has S.content S.suits table.now.key thread (all_in_hand owns shared) seat.old.me
        → IsBoundOf (all_items owns shared) result }
    ensures work { result.work ≡ work }
{
    let none = Bound {
        queue: u64::MAX,
        work,
        items: 0,
    };
    let shared = read_part(table, seat, thread, 0, none);
    read_owns(table, seat, thread, threads, shared)
}

// Reads the own parts of all members, which the seat acquired in the order of their numbers, and releases them, the last
// one first. It answers the bound of what they have and of what was read before.
fn read_owns<S: PartSlot>(
    table: &Locks<S>,
    seat: &mut MemberSeat<S>,
    thread: usize,
    threads: usize,
    before: Bound,
) -> Bound
    requires seat { IsSeatOf seat.old.table_id table.now.table_id table.now.key thread }
    requires threads { threads ≡ table.now.key.threads }
    requires has { (owns : List (List Item)) × (read : List Item) × (length owns ≡ threads)
        × Has S.content S.suits table.now.key thread (owns_in_hand owns) seat.old.me
        × IsBoundOf read before × (length (read ++ owns_items owns) ≤ most_deletions) }
    ensures same { seat.new.table_id ≡ seat.old.table_id }
    ensures others { rest_of seat.new.me.0 ≡ rest_of seat.old.me.0 }
    ensures has { Has S.content S.suits table.now.key thread [] seat.new.me }
    ensures list { mine seat.new.me.0 ≡ mine seat.old.me.0 ++ owns_released threads }
    ensures read { (owns : List (List Item)) → (read : List Item) → length owns ≡ threads
        → Has S.content S.suits table.now.key thread (owns_in_hand owns) seat.old.me
        → IsBoundOf read before → IsBoundOf (read ++ owns_items owns) result }
    ensures work { result.work ≡ before.work }
{
    let mut bound = before;
    for done in 0..threads {
        bound = read_part(table, seat, thread, threads - done, bound);
    }
    bound
}

// Reads the part that was acquired last, and releases it. It answers the bound of what it has and of what was read before.
fn read_part<S: PartSlot>(
    table: &Locks<S>,
    seat: &mut MemberSeat<S>,
    thread: usize,
    part: usize,
    before: Bound,
) -> Bound
    requires seat { IsSeatOf seat.old.table_id table.now.table_id table.now.key thread }
    requires part { part ≤ table.now.key.threads }
    requires has { (found : List Item) × (hand : Hand)
        × Has S.content S.suits table.now.key thread ((part, found) ∷ hand) seat.old.me
        × (found_in hand part ≡ None) × (before.items + length found ≤ most_deletions) }
    ensures same { seat.new.table_id ≡ seat.old.table_id }
    ensures others { rest_of seat.new.me.0 ≡ rest_of seat.old.me.0 }
    ensures list { mine seat.new.me.0 ≡ mine seat.old.me.0 ++ Released part ∷ [] }
    ensures released { (found : List Item) → (hand : Hand)
        → Has S.content S.suits table.now.key thread ((part, found) ∷ hand) seat.old.me
        → found_in hand part ≡ None
        → Has S.content S.suits table.now.key thread hand seat.new.me }
    ensures read { (found : List Item) → (hand : Hand) → (read : List Item)
        → Has S.content S.suits table.now.key thread ((part, found) ∷ hand) seat.old.me
        → IsBoundOf read before → IsBoundOf (read ++ found) result }
    ensures work { result.work ≡ before.work }
{
    let (len, least) = look(table, seat, part, thread);
    release_part(table, seat, part, thread);
    let items = before.items + len;
    let queue = least_read(before.queue, least);
    Bound {
        queue,
        work: before.work,
        items,
    }
}

// The least key of some items and of others, of which these are the least key and the least item.
fn least_read(key: u64, least: Option<Item>) -> u64
    ensures { (read : List Item) → (found : List Item) → key ≡ front_of read
        → least ≡ slice_get (sorted found) 0 → result ≡ front_of (read ++ found) }
{
    match least {
        Some(item) => key.min(item.key),
        None => key,
    }
}
