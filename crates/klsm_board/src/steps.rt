//! The steps on a lock and on the front, as the world sees them.
ghost use Rattle.std.specs.Prelude.{◌≡◌, ◌≢◌, ◌<◌, ◌≤◌, ◌+◌, ◌-◌, ◌++◌, ◌==◌, ℕ, [], ◌∷◌, List, length, MatchBool, None};
ghost use mathlib.Core.Option.{none};
ghost use Rattle.atomic_table.specs.Table.{rest, step};
ghost use Rattle.klsm_run.specs.declared.item.Item.{Item};
ghost use Rattle.klsm_schedules.specs.declared.step.Event.{Event};
ghost use Rattle.klsm_schedules.specs.declared.step.Event.TheVariants.{Refill};
ghost use Rattle.klsm_schedules.specs.declared.step.Entry.TheVariants.{Acquired, Committed, Released, Missed, Looked};
ghost use Rattle.klsm_schedules.specs.OwnSteps.{Hand, Holds, own_part, found_in, after_event, hand_of, inserted};
ghost use Rattle.klsm_parts.specs.Least.{IsLeast};
ghost use Rattle.klsm_board.specs.Rule.{place, view};
ghost use Rattle.klsm_board.specs.Turning.{turned, HasList};
ghost use Rattle.klsm_schedules.specs.LegalSteps.{MayCommit};
ghost use Rattle.klsm_board.specs.Steps.{mine, rest_of, gain, IsMine, AreReached, HasFront, HasHolder, attempted, watched, released, committed, looked, glanced, set_front, turned_to};
ghost use Rattle.klsm_board.specs.Seats.{Carries, Stands, Has, CarriedOut, IsMarked, QuotaAllows, LeavesShared, LeavesWork, SetsFront, IsSeatOf, own_in_hand, both_in_hand, last_arriving};
ghost use Rattle.klsm_board.specs.Entries.{both_released};

use crate::plays::{Acquire, Commit, Glance, Intent, Look, Release, SetFront, Turn, Watch};
use crate::rule::{Holding, Locks, MemberSeat, STRIDE};
use klsm_run::Item;
use klsm_schedules::Event;
use std::marker::Brand;

// A try to acquire a part. The word found is 0 where it came to the seat.
fn acquire<S: Holding, D: Intent>(
    table: &Locks<S>,
    seat: &mut MemberSeat<S>,
    part: usize,
    thread: usize,
) -> u64
    requires outcome { (D.sizes ≡ table.now.key) × (D.thread ≡ thread) }
    requires seat { IsSeatOf seat.old.table_id table.now.table_id table.now.key thread }
    requires part { part ≤ table.now.key.threads }
    requires view { IsMine seat.old.me.0 thread }
    requires away { found_in (hand_of thread (mine seat.old.me.0)) part ≡ None }
    ensures same { (seat.new.table_id ≡ seat.old.table_id) × (seat.new.id ≡ seat.old.id) }
    ensures outcome { attempted S.content S.suits table.now.key thread
        (step table.now.table_id.slots part 0 (thread + 1) none) seat.old.me result seat.new.me }
{
    let free = 0;
    table.compare_exchange::<Acquire<D>>(seat, part * STRIDE, free, thread as u64 + 1)
}

// A look at the lock of a part. The word found is 0 where the part is free.
fn load_lock<S: Holding, D: Intent>(
    table: &Locks<S>,
    seat: &mut MemberSeat<S>,
    part: usize,
    thread: usize,
) -> u64
    requires outcome { (D.sizes ≡ table.now.key) × (D.thread ≡ thread) }
    requires seat { IsSeatOf seat.old.table_id table.now.table_id table.now.key thread }
    requires part { part ≤ table.now.key.threads }
    requires view { IsMine seat.old.me.0 thread }
    requires away { found_in (hand_of thread (mine seat.old.me.0)) part ≡ None }
    ensures same { (seat.new.table_id ≡ seat.old.table_id) × (seat.new.id ≡ seat.old.id) }
    ensures outcome { watched table.now.key thread (step table.now.table_id.slots part 0 0 none)
        seat.old.me result seat.new.me }
{
    // For the proof: the contract alone names the thread.
    let _ = thread;
    table.load::<Watch<D>>(seat, part * STRIDE)
}

// Releases the part that was acquired last, with the content that the seat's list says.
fn release<S: Holding, D: Intent>(
    table: &Locks<S>,
    seat: &mut MemberSeat<S>,
    part: usize,
    thread: usize,
)
    requires outcome { (D.sizes ≡ table.now.key) × (D.thread ≡ thread) }
    requires seat { IsSeatOf seat.old.table_id table.now.table_id table.now.key thread }
    requires part { part ≤ table.now.key.threads }
    requires view { IsMine seat.old.me.0 thread }
    requires carried { (y : S) × (seat.old.me.1 ≡ (part, y) ∷ rest seat.old.me.1)
        × S.suits table.now.key.k part y
        × Holds (hand_of thread (mine seat.old.me.0)) part (S.content y) }
    requires marked { part ≡ own_part thread → IsMarked (mine seat.old.me.0) }
    ensures same { (seat.new.table_id ≡ seat.old.table_id) × (seat.new.id ≡ seat.old.id) }
    ensures outcome { released table.now.key thread (step table.now.table_id.slots part 0 0 none)
        seat.old.me 0 seat.new.me }
{
    // For the proof: the contract alone names the thread.
    let _ = thread;
    table.store::<Release<D>>(seat, part * STRIDE, 0);
}

// Commits some event that D fits, and releases the part that was acquired last, with the content
// that the event leaves it. The caller knows the event by what it fits, and D by what the event is
// about.
fn commit<S: Holding, D: Intent, T>(
    table: &Locks<S>,
    seat: &mut MemberSeat<S>,
    part: usize,
    thread: usize,
    about: &T,
)
    requires outcome { (D.sizes ≡ table.now.key) × (D.thread ≡ thread) }
    requires seat { IsSeatOf seat.old.table_id table.now.table_id table.now.key thread }
    requires part { part ≤ table.now.key.threads }
    requires view { IsMine seat.old.me.0 thread }
    requires event { (e : Event) × D.fits e
        × MayCommit table.now.key.k thread (hand_of thread (mine seat.old.me.0))
        (length (inserted (mine seat.old.me.0))) e
        × QuotaAllows table.now.key.quota (mine seat.old.me.0) e
        × LeavesShared thread (hand_of thread (mine seat.old.me.0)) e
        × ((y : S) × (seat.old.me.1 ≡ (part, y) ∷ rest seat.old.me.1)
        × S.suits table.now.key.k part y
        × Holds (after_event thread (hand_of thread (mine seat.old.me.0)) e) part (S.content y))
        × (part ≡ own_part thread → IsMarked (mine seat.old.me.0) × LeavesWork e) }
    ensures same { (seat.new.table_id ≡ seat.old.table_id) × (seat.new.id ≡ seat.old.id) }
    ensures outcome { committed D.fits table.now.key thread
        (step table.now.table_id.slots part 0 0 none) seat.old.me 0 seat.new.me }
{
    // For the proof: the contract alone names the thread and what the event is about.
    let _ = thread;
    let _ = about;
    table.store::<Commit<D>>(seat, part * STRIDE, 0);
}

// Commits some event that D fits by setting the front to what the event leaves it.
fn store_front<S: Holding, D: Intent, T>(
    table: &Locks<S>,
    seat: &mut MemberSeat<S>,
    threads: usize,
    thread: usize,
    front: u64,
    about: &T,
)
    requires outcome { (D.sizes ≡ table.now.key) × (D.thread ≡ thread) }
    requires seat { IsSeatOf seat.old.table_id table.now.table_id table.now.key thread }
    requires threads { threads ≡ table.now.key.threads }
    requires view { IsMine seat.old.me.0 thread }
    requires event { (e : Event) × D.fits e
        × MayCommit table.now.key.k thread (hand_of thread (mine seat.old.me.0))
        (length (inserted (mine seat.old.me.0))) e
        × QuotaAllows table.now.key.quota (mine seat.old.me.0) e
        × SetsFront thread (hand_of thread (mine seat.old.me.0)) e front }
    ensures same { (seat.new.table_id ≡ seat.old.table_id) × (seat.new.id ≡ seat.old.id) }
    ensures outcome { set_front D.fits table.now.key thread
        (step table.now.table_id.slots (place (threads + 1)) front 0 none) seat.old.me front
        seat.new.me }
{
    // For the proof: the contract alone names the thread and what the event is about.
    let _ = thread;
    let _ = about;
    table.store::<SetFront<D>>(seat, (threads + 1) * STRIDE, front);
}

// Loads the front. Where the key of D's item is below it, the load commits the deletion of that item, and
// else the list notes the look.
fn load_front<S: Holding, D: Intent>(
    table: &Locks<S>,
    seat: &mut MemberSeat<S>,
    threads: usize,
    thread: usize,
    least: Item,
) -> u64
    requires outcome { (D.sizes ≡ table.now.key) × (D.thread ≡ thread) × (D.least ≡ least) }
    requires seat { IsSeatOf seat.old.table_id table.now.table_id table.now.key thread }
    requires threads { threads ≡ table.now.key.threads }
    requires view { IsMine seat.old.me.0 thread }
    requires least { (own : List Item)
        × Holds (hand_of thread (mine seat.old.me.0)) (own_part thread) own × IsLeast least own }
    ensures same { (seat.new.table_id ≡ seat.old.table_id) × (seat.new.id ≡ seat.old.id) }
    ensures outcome { looked least table.now.key thread
        (step table.now.table_id.slots (place (threads + 1)) 0 0 none) seat.old.me result
        seat.new.me }
{
    // For the proof: the contract alone names the thread and the item.
    let _ = thread;
    let _ = least;
    table.load::<Look<D>>(seat, (threads + 1) * STRIDE)
}

// Loads the front, and the list notes that.
fn load_front_alone<S: Holding, D: Intent>(
    table: &Locks<S>,
    seat: &mut MemberSeat<S>,
    threads: usize,
    thread: usize,
) -> u64
    requires outcome { (D.sizes ≡ table.now.key) × (D.thread ≡ thread) }
    requires seat { IsSeatOf seat.old.table_id table.now.table_id table.now.key thread }
    requires threads { threads ≡ table.now.key.threads }
    requires view { IsMine seat.old.me.0 thread }
    ensures same { (seat.new.table_id ≡ seat.old.table_id) × (seat.new.id ≡ seat.old.id) }
    ensures outcome { glanced table.now.key thread
        (step table.now.table_id.slots (place (threads + 1)) 0 0 none) seat.old.me result
        seat.new.me }
{
    // For the proof: the contract alone names the thread.
    let _ = thread;
    table.load::<Glance<D>>(seat, (threads + 1) * STRIDE)
}

// Loads a word, and brings the thread's list to the front.
fn load_turning<S: Holding, D: Intent>(
    table: &Locks<S>,
    seat: &mut MemberSeat<S>,
    thread: usize,
) -> u64
    requires outcome { (D.sizes ≡ table.now.key) × (D.thread ≡ thread) }
    requires seat { IsSeatOf seat.old.table_id table.now.table_id table.now.key thread }
    requires has { HasList seat.old.me.0.lists thread }
    ensures same { (seat.new.table_id ≡ seat.old.table_id) × (seat.new.id ≡ seat.old.id) }
    ensures outcome { turned_to table.now.key thread (step table.now.table_id.slots 0 0 0 none)
        seat.old.me result seat.new.me }
{
    // For the proof: the contract alone names the thread.
    let _ = thread;
    table.load::<Turn<D>>(seat, 0)
}

/// A try to acquire a part. The word found is 0 where it came to the seat, and else names its holder.
pub(crate) fn acquire_part<S: Holding>(
    table: &Locks<S>,
    seat: &mut MemberSeat<S>,
    part: usize,
    thread: usize,
) -> u64
    requires seat { IsSeatOf seat.old.table_id table.now.table_id table.now.key thread }
    requires part { part ≤ table.now.key.threads }
    requires has { (hand : Hand) × Stands S.content S.suits table.now.key thread hand seat.old.me
        × (found_in hand part ≡ None) }
    ensures same { (seat.new.table_id ≡ seat.old.table_id) × (seat.new.id ≡ seat.old.id) }
    ensures others { rest_of seat.new.me.0 ≡ rest_of seat.old.me.0 }
    ensures outcome { (hand : Hand) → Stands S.content S.suits table.now.key thread hand seat.old.me
        → MatchBool (result == 0)
        ((found : List Item)
        × Has S.content S.suits table.now.key thread ((part, found) ∷ hand) seat.new.me
        × (mine seat.new.me.0 ≡ mine seat.old.me.0 ++ Acquired part found ∷ []))
        (Has S.content S.suits table.now.key thread hand seat.new.me
        × (mine seat.new.me.0 ≡ mine seat.old.me.0 ++ Missed part (result - 1) ∷ [])
        × (result ≤ table.now.key.threads)) }
    ensures holder { result ≢ 0
        → HasHolder table.now.key thread seat.old.me.0 part (result - 1) }
{
    acquire::<S, Brand>(table, seat, part, thread)
}

/// A try to acquire a part, with the answer of `acquire_part`, that looks at the lock first. A compare-exchange takes
/// the lock's cache line from the holder even in vain; a load only shares it.
pub(crate) fn acquire_after_look<S: Holding>(
    table: &Locks<S>,
    seat: &mut MemberSeat<S>,
    part: usize,
    thread: usize,
) -> u64
    requires seat { IsSeatOf seat.old.table_id table.now.table_id table.now.key thread }
    requires part { part ≤ table.now.key.threads }
    requires has { (hand : Hand) × Stands S.content S.suits table.now.key thread hand seat.old.me
        × (found_in hand part ≡ None) }
    ensures same { (seat.new.table_id ≡ seat.old.table_id) × (seat.new.id ≡ seat.old.id) }
    ensures others { rest_of seat.new.me.0 ≡ rest_of seat.old.me.0 }
    ensures outcome { (hand : Hand) → Stands S.content S.suits table.now.key thread hand seat.old.me
        → MatchBool (result == 0)
        ((found : List Item)
        × Has S.content S.suits table.now.key thread ((part, found) ∷ hand) seat.new.me
        × (mine seat.new.me.0 ≡ mine seat.old.me.0 ++ Acquired part found ∷ []))
        (Has S.content S.suits table.now.key thread hand seat.new.me
        × (mine seat.new.me.0 ≡ mine seat.old.me.0 ++ Missed part (result - 1) ∷ [])
        × (result ≤ table.now.key.threads)) }
    ensures holder { result ≢ 0
        → HasHolder table.now.key thread seat.old.me.0 part (result - 1) }
{
    let found = load_lock::<S, Brand>(table, seat, part, thread);
    if found != 0 {
        return found;
    }
    acquire_part(table, seat, part, thread)
}

/// Releases the part that was acquired last.
pub(crate) fn release_part<S: Holding>(
    table: &Locks<S>,
    seat: &mut MemberSeat<S>,
    part: usize,
    thread: usize,
)
    requires seat { IsSeatOf seat.old.table_id table.now.table_id table.now.key thread }
    requires part { part ≤ table.now.key.threads }
    requires has { (found : List Item) × (hand : Hand)
        × Stands S.content S.suits table.now.key thread ((part, found) ∷ hand) seat.old.me
        × (found_in hand part ≡ None) }
    ensures same { (seat.new.table_id ≡ seat.old.table_id) × (seat.new.id ≡ seat.old.id) }
    ensures others { rest_of seat.new.me.0 ≡ rest_of seat.old.me.0 }
    ensures released { (found : List Item) → (hand : Hand)
        → Stands S.content S.suits table.now.key thread ((part, found) ∷ hand) seat.old.me
        → found_in hand part ≡ None
        → Has S.content S.suits table.now.key thread hand seat.new.me }
    ensures list { mine seat.new.me.0 ≡ mine seat.old.me.0 ++ Released part ∷ [] }
{
    release::<S, Brand>(table, seat, part, thread);
}

/// Gives back the two parts in hand, the shared one first.
pub(crate) fn release_both<S: Holding>(table: &Locks<S>, seat: &mut MemberSeat<S>, thread: usize)
    requires seat { IsSeatOf seat.old.table_id table.now.table_id table.now.key thread }
    requires stands { (own : List Item) × (shared : List Item)
        × Stands S.content S.suits table.now.key thread (both_in_hand thread own shared)
        seat.old.me }
    ensures same { (seat.new.table_id ≡ seat.old.table_id) × (seat.new.id ≡ seat.old.id) }
    ensures others { rest_of seat.new.me.0 ≡ rest_of seat.old.me.0 }
    ensures has { Has S.content S.suits table.now.key thread [] seat.new.me }
    ensures list { mine seat.new.me.0 ≡ mine seat.old.me.0 ++ both_released thread }
{
    release_part(table, seat, 0, thread);
    release_part(table, seat, thread + 1, thread);
}

/// Releases the shared part, which is as the list says, while the own part may be one event behind the list.
pub(crate) fn release_shared<S: Holding>(table: &Locks<S>, seat: &mut MemberSeat<S>, thread: usize)
    requires seat { IsSeatOf seat.old.table_id table.now.table_id table.now.key thread }
    requires carries { (own : List Item) × (due : List Item) × (shared : List Item)
        × Carries S.content S.suits table.now.key thread (both_in_hand thread own shared)
        seat.old.me
        × (hand_of thread (mine seat.old.me.0) ≡ both_in_hand thread due shared) }
    ensures same { (seat.new.table_id ≡ seat.old.table_id) × (seat.new.id ≡ seat.old.id)
        × (seat.new.me ≡ (gain seat.old.me.0 (Released 0), rest seat.old.me.1)) }
    ensures carries { (own due shared : List Item)
        → Carries S.content S.suits table.now.key thread (both_in_hand thread own shared)
        seat.old.me
        → hand_of thread (mine seat.old.me.0) ≡ both_in_hand thread due shared
        → Carries S.content S.suits table.now.key thread (own_in_hand thread own) seat.new.me
        × (hand_of thread (mine seat.new.me.0) ≡ own_in_hand thread due) }
{
    release::<S, Brand>(table, seat, 0, thread);
}

/// Commits an event that was carried out in the parts that the seat carries and is no deletion, and releases the one
/// that was acquired last.
pub(crate) fn commit_event<S: Holding>(
    table: &Locks<S>,
    seat: &mut MemberSeat<S>,
    part: usize,
    thread: usize,
    event: &Event,
)
    requires seat { IsSeatOf seat.old.table_id table.now.table_id table.now.key thread }
    requires part { part ≤ table.now.key.threads }
    requires room { QuotaAllows table.now.key.quota (mine seat.old.me.0) event.now }
    requires leaves { LeavesShared thread (hand_of thread (mine seat.old.me.0)) event.now }
    requires work { LeavesWork event.now }
    requires out { (left : List Item) × (hand : Hand)
        × CarriedOut S.content S.suits table.now.key thread event.now ((part, left) ∷ hand)
        seat.old.me
        × (found_in hand part ≡ None) }
    ensures same { (seat.new.table_id ≡ seat.old.table_id) × (seat.new.id ≡ seat.old.id) }
    ensures others { rest_of seat.new.me.0 ≡ rest_of seat.old.me.0 }
    ensures released { (left : List Item) → (hand : Hand)
        → Carries S.content S.suits table.now.key thread ((part, left) ∷ hand) seat.old.me
        → found_in hand part ≡ None
        → Has S.content S.suits table.now.key thread hand seat.new.me }
    ensures list { mine seat.new.me.0
        ≡ mine seat.old.me.0 ++ Committed event.now ∷ Released part ∷ [] }
{
    commit::<S, Brand, Event>(table, seat, part, thread, event);
}

/// Commits an event that was carried out in the two parts that the seat carries, and releases the shared one, which it
/// leaves as it was. Where it is a deletion, the key is still to be marked.
pub(crate) fn commit_with_shared<S: Holding>(
    table: &Locks<S>,
    seat: &mut MemberSeat<S>,
    thread: usize,
    event: &Event,
)
    requires seat { IsSeatOf seat.old.table_id table.now.table_id table.now.key thread }
    requires room { QuotaAllows table.now.key.quota (mine seat.old.me.0) event.now }
    requires leaves { LeavesShared thread (hand_of thread (mine seat.old.me.0)) event.now }
    requires out { (own : List Item) × (shared : List Item)
        × CarriedOut S.content S.suits table.now.key thread event.now
        (both_in_hand thread own shared) seat.old.me }
    ensures same { (seat.new.table_id ≡ seat.old.table_id) × (seat.new.id ≡ seat.old.id) }
    ensures others { rest_of seat.new.me.0 ≡ rest_of seat.old.me.0 }
    ensures released { (own : List Item) → (shared : List Item)
        → Carries S.content S.suits table.now.key thread (both_in_hand thread own shared)
        seat.old.me
        → Carries S.content S.suits table.now.key thread (own_in_hand thread own) seat.new.me
        × (hand_of thread (mine seat.new.me.0) ≡ own_in_hand thread own) }
    ensures list { mine seat.new.me.0
        ≡ mine seat.old.me.0 ++ Committed event.now ∷ Released 0 ∷ [] }
{
    commit::<S, Brand, Event>(table, seat, 0, thread, event);
}

/// What an event is about by which items move from one part to another. No value names these items.
pub(crate) trait Moving {
    ghost use Rattle.std.specs.Prelude.{List};
    ghost use Rattle.klsm_run.specs.declared.item.Item.{Item};
    ghost use Rattle.klsm_schedules.specs.declared.step.Event.{Event};

    // The event by which these items move.
    ghost event: { Self → List Item → Event };
}

/// The insertion of an item, by which others move to the shared part.
impl Moving for Item {
    ghost use Rattle.klsm_schedules.specs.declared.step.Event.TheVariants.{Flush};

    ghost event = { Flush };
}

/// A stealing from the member with this number.
#[derive(Drop)]
pub(crate) struct Stealing {
    pub victim: u32,
}

impl Moving for Stealing {
    ghost use Rattle.klsm_schedules.specs.declared.step.Event.TheVariants.{Steal};

    ghost event = { λ about moved. Steal about.victim moved };
}

/// A sharing of own items.
pub(crate) struct Sharing;

impl Moving for Sharing {
    ghost use Rattle.klsm_schedules.specs.declared.step.Event.TheVariants.{Share};

    ghost event = { λ _ moved. Share moved };
}

/// A spying on the member with this number.
impl Moving for u32 {
    ghost use Rattle.klsm_schedules.specs.declared.step.Event.TheVariants.{Spy};

    ghost event = { Spy };
}

/// Commits an event by which items moved, and releases the part that was acquired last. The caller
/// learns of the items that its list names that their moving leaves what the seat carried.
pub(crate) fn commit_moving<S: Holding, T: Moving>(
    table: &Locks<S>,
    seat: &mut MemberSeat<S>,
    part: usize,
    thread: usize,
    about: &T,
)
    requires seat { IsSeatOf seat.old.table_id table.now.table_id table.now.key thread }
    requires part { part ≤ table.now.key.threads }
    requires room { (moved : List Item)
        → QuotaAllows table.now.key.quota (mine seat.old.me.0) (T.event about.now moved) }
    requires leaves { (moved : List Item)
        → LeavesShared thread (hand_of thread (mine seat.old.me.0)) (T.event about.now moved) }
    requires work { (moved : List Item) → LeavesWork (T.event about.now moved) }
    requires out { (moved : List Item) × (left : List Item) × (hand : Hand)
        × CarriedOut S.content S.suits table.now.key thread (T.event about.now moved)
        ((part, left) ∷ hand) seat.old.me
        × (found_in hand part ≡ None) }
    ensures same { (seat.new.table_id ≡ seat.old.table_id) × (seat.new.id ≡ seat.old.id) }
    ensures others { rest_of seat.new.me.0 ≡ rest_of seat.old.me.0 }
    ensures released { (left : List Item) → (hand : Hand)
        → Carries S.content S.suits table.now.key thread ((part, left) ∷ hand) seat.old.me
        → found_in hand part ≡ None
        → Has S.content S.suits table.now.key thread hand seat.new.me }
    ensures list { (left : List Item) → (hand : Hand)
        → Carries S.content S.suits table.now.key thread ((part, left) ∷ hand) seat.old.me
        → (moved : List Item)
        × CarriedOut S.content S.suits table.now.key thread (T.event about.now moved)
        ((part, left) ∷ hand) seat.old.me
        × (mine seat.new.me.0
        ≡ mine seat.old.me.0 ++ Committed (T.event about.now moved) ∷ Released part ∷ []) }
{
    commit::<S, Brand, T>(table, seat, part, thread, about);
}

/// Commits an event by setting the front to what the event leaves it. The parts that the seat carries stay as they
/// are: what was done to them may be another event too, which is still to be committed.
pub(crate) fn commit_by_front<S: Holding>(
    table: &Locks<S>,
    seat: &mut MemberSeat<S>,
    threads: usize,
    thread: usize,
    front: u64,
    event: &Event,
)
    requires seat { IsSeatOf seat.old.table_id table.now.table_id table.now.key thread }
    requires threads { threads ≡ table.now.key.threads }
    requires view { IsMine seat.old.me.0 thread }
    requires room { QuotaAllows table.now.key.quota (mine seat.old.me.0) event.now }
    requires sets { SetsFront thread (hand_of thread (mine seat.old.me.0)) event.now front }
    requires may { MayCommit table.now.key.k thread (hand_of thread (mine seat.old.me.0))
        (length (inserted (mine seat.old.me.0))) event.now }
    ensures same { (seat.new.table_id ≡ seat.old.table_id) × (seat.new.id ≡ seat.old.id)
        × (seat.new.me ≡ (gain seat.old.me.0 (Committed event.now), seat.old.me.1)) }
    ensures reached { AreReached table.now.key thread seat.new.me.0 }
{
    store_front::<S, Brand, Event>(table, seat, threads, thread, front, event);
}

/// Commits the moving of the items that are on their way to the own part, by setting the front to what it leaves it.
/// They may be merged into that part later.
pub(crate) fn commit_refill<S: Holding>(
    table: &Locks<S>,
    seat: &mut MemberSeat<S>,
    threads: usize,
    thread: usize,
    front: u64,
)
    requires seat { IsSeatOf seat.old.table_id table.now.table_id table.now.key thread }
    requires threads { threads ≡ table.now.key.threads }
    requires view { IsMine seat.old.me.0 thread }
    requires sets { SetsFront thread (hand_of thread (mine seat.old.me.0))
        (Refill (last_arriving S.arriving seat.old.me.1)) front }
    requires may { MayCommit table.now.key.k thread (hand_of thread (mine seat.old.me.0))
        (length (inserted (mine seat.old.me.0)))
        (Refill (last_arriving S.arriving seat.old.me.1)) }
    ensures same { (seat.new.table_id ≡ seat.old.table_id) × (seat.new.id ≡ seat.old.id)
        × (seat.new.me ≡ (
          gain seat.old.me.0
              (Committed (Refill (last_arriving S.arriving seat.old.me.1))),
          seat.old.me.1,
        )) }
{
    store_front::<S, Brand, ()>(table, seat, threads, thread, front, &());
}

/// Commits an event by which items moved, by setting the front to what the event leaves it. The caller
/// learns of the items that its list names that their moving leaves what the seat carries.
pub(crate) fn commit_moving_by_front<S: Holding, T: Moving>(
    table: &Locks<S>,
    seat: &mut MemberSeat<S>,
    threads: usize,
    thread: usize,
    front: u64,
    about: &T,
)
    requires seat { IsSeatOf seat.old.table_id table.now.table_id table.now.key thread }
    requires threads { threads ≡ table.now.key.threads }
    requires room { (moved : List Item)
        → QuotaAllows table.now.key.quota (mine seat.old.me.0) (T.event about.now moved) }
    requires work { (moved : List Item) → LeavesWork (T.event about.now moved) }
    requires out { (moved : List Item) × (hand : Hand)
        × CarriedOut S.content S.suits table.now.key thread (T.event about.now moved) hand
        seat.old.me
        × SetsFront thread (hand_of thread (mine seat.old.me.0)) (T.event about.now moved) front }
    ensures same { (seat.new.table_id ≡ seat.old.table_id) × (seat.new.id ≡ seat.old.id) }
    ensures others { rest_of seat.new.me.0 ≡ rest_of seat.old.me.0 }
    ensures has { (hand : Hand) → Carries S.content S.suits table.now.key thread hand seat.old.me
        → Has S.content S.suits table.now.key thread hand seat.new.me }
    ensures list { (hand : Hand) → Carries S.content S.suits table.now.key thread hand seat.old.me
        → (moved : List Item)
        × CarriedOut S.content S.suits table.now.key thread (T.event about.now moved) hand
        seat.old.me
        × (mine seat.new.me.0
        ≡ mine seat.old.me.0 ++ Committed (T.event about.now moved) ∷ []) }
{
    store_front::<S, Brand, T>(table, seat, threads, thread, front, about);
}

/// Loads the front. Where the key of the least item of the own part is below it, the load commits the
/// deletion of that item, which is still to be taken out. Else the list notes the look.
pub(crate) fn look_at_front<S: Holding>(
    table: &Locks<S>,
    seat: &mut MemberSeat<S>,
    threads: usize,
    thread: usize,
    least: Item,
) -> u64
    requires seat { IsSeatOf seat.old.table_id table.now.table_id table.now.key thread }
    requires threads { threads ≡ table.now.key.threads }
    requires has { (own : List Item)
        × Has S.content S.suits table.now.key thread (own_in_hand thread own) seat.old.me
        × IsLeast least own }
    ensures same { (seat.new.table_id ≡ seat.old.table_id) × (seat.new.id ≡ seat.old.id) }
    ensures others { rest_of seat.new.me.0 ≡ rest_of seat.old.me.0 }
    ensures looked { looked least table.now.key thread
        (step table.now.table_id.slots (place (threads + 1)) 0 0 none) seat.old.me result
        seat.new.me }
{
    load_front::<S, Brand>(table, seat, threads, thread, least)
}

/// Loads the front, and the list notes that.
pub(crate) fn see_front<S: Holding>(
    table: &Locks<S>,
    seat: &mut MemberSeat<S>,
    threads: usize,
    thread: usize,
) -> u64
    requires seat { IsSeatOf seat.old.table_id table.now.table_id table.now.key thread }
    requires threads { threads ≡ table.now.key.threads }
    requires view { IsMine seat.old.me.0 thread }
    ensures same { (seat.new.table_id ≡ seat.old.table_id) × (seat.new.id ≡ seat.old.id) }
    ensures others { rest_of seat.new.me.0 ≡ rest_of seat.old.me.0 }
    ensures still { (hand : Hand) → Stands S.content S.suits table.now.key thread hand seat.old.me
        → Has S.content S.suits table.now.key thread hand seat.new.me }
    ensures list { mine seat.new.me.0 ≡ mine seat.old.me.0 ++ Looked result ∷ [] }
    ensures known { HasFront table.now.key thread seat.old.me.0 result }
{
    load_front_alone::<S, Brand>(table, seat, threads, thread)
}

/// Brings the thread's list to the front of those that the seat knows, and tells that they all are of one
/// world.
pub(crate) fn turn_to<S: Holding>(table: &Locks<S>, seat: &mut MemberSeat<S>, thread: usize)
    requires seat { IsSeatOf seat.old.table_id table.now.table_id table.now.key thread }
    requires has { HasList seat.old.me.0.lists thread }
    ensures same { (seat.new.table_id ≡ seat.old.table_id) × (seat.new.id ≡ seat.old.id) }
    ensures turned { seat.new.me ≡ (view (turned thread seat.old.me.0.lists), seat.old.me.1) }
    ensures reached { AreReached table.now.key thread seat.new.me.0 }
{
    load_turning::<S, Brand>(table, seat, thread);
}
