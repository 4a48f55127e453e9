//! The parts as the slots of a board have them.
ghost use Rattle.std.specs.Prelude.{◌≡◌, false, None, ℕ, ◌<◌, ◌≤◌, ◌+◌, ◌↔◌, List, [], length, max, slice_get, ◌++◌, IsOk, IfErr, IfOk, OnOk, vec_len, vec_capacity, OnErr, IsErrAnd, MatchBool, MatchOption, IfSome};
ghost use Rattle.std.specs.List.{Contains};
ghost use Rattle.klsm_run.specs.declared.item.Item.{Item};
ghost use Rattle.klsm_run.specs.Capacity.{IsCapacity, heap_room};
ghost use Rattle.klsm_run.specs.Content.{ShareNone, sorted};
ghost use Rattle.klsm_parts.specs.Limit.{IsLevelCount, limit_of};
ghost use Rattle.klsm_parts.specs.Parts.{items_in};
ghost use Rattle.klsm_parts.specs.Flushing.{IsLargest};
ghost use Rattle.klsm_parts.specs.Least.{IsLeast};
ghost use Rattle.klsm_parts.specs.Events.{MayPut, MayFlush, MayTake, MayFindNothing, MaySpy, MayRefill, own_after_put, own_after_flush, shared_after_flush, own_after_take, shared_after_take, own_after_early, own_after_spy, victim_after_spy, own_after_refill, shared_after_refill, front_of};
ghost use Rattle.klsm_parts.specs.Refilling.{refill_of};
ghost use Rattle.klsm_parts.specs.Stealing.{MaySteal, own_after_steal, victim_after_steal, steal_of};
ghost use Rattle.klsm_parts.specs.Sharing.{MayShare, own_after_share, shared_after_share};
ghost use Rattle.klsm_schedules.specs.OwnSteps.{own_part, shared_part};
ghost use Rattle.klsm_board.specs.Choosing.{Chooses};

use crate::boxed::Boxed;
use crate::rule::Holding;
use klsm_parts::{
    Local, LsmError, Picker, Shared, SharedRun, Unions, fetch, flush_prepared, put, share_prepared,
    spy, steal, take, take_least,
};
use klsm_run::Item;
use std::alloc::{AllocError, Global};

/// What the calls of a board do to the parts in its slots.
///
/// It says of contents alone what `klsm_parts` says of parts, so that whoever acquires locks need not
/// know how a part is made.
pub trait PartSlot: Holding + Drop {
    /// How many levels the shared part has.
    ghost levels: { ℕ };

    // What the sizes of the parts' types have to meet.
    ghost is_sized: { Type 0 };

    // It has no part.
    ghost is_vacant: { Self → Type 0 };

    /// What stands in a slot for as long as its part is in the hands of a call.
    fn vacant() -> Self
        ensures { is_vacant result };

    /// Drops what stood in for a part.
    fn discard(self)
        requires { is_vacant self };

    /// The number of items.
    fn len(&self) -> usize
        ensures { result ≡ length (Self.content self.now) };

    /// The least item, if there is one.
    fn least(&self) -> Option<Item>
        ensures is { result ≡ slice_get (Self.content self.now) 0 }
        ensures least { IfSome result (λ x. IsLeast x (Self.content self.now)) };

    /// The least item of an own part, if there is one, as `least`. The next deletion need then not search for it.
    fn find_least(&mut self) -> Option<Item>
        requires own { (k : ℕ) × (t : ℕ) × Self.suits k (own_part t) self.old }
        ensures kind { (k t : ℕ) → Self.suits k (own_part t) self.old
            → Self.suits k (own_part t) self.new }
        ensures same { Self.content self.new ≡ Self.content self.old }
        ensures least { MatchOption result (Self.content self.old ≡ [])
            (λ x. IsLeast x (Self.content self.old)) };

    /// Appends the items to a list.
    fn append_to(&self, all: &mut Vec<Item>) -> Result<(), AllocError>
        ensures items { OnOk result ((items : List Item) × (sorted items ≡ Self.content self.now)
            × (all.new.items ≡ all.old.items ++ items)) }
        ensures capacity { vec_capacity all.old ≤ vec_capacity all.new }
        ensures succeeds { vec_len all.old + length (Self.content self.now) ≤ vec_capacity all.old
            → IsOk result };

    /// Puts an item into an own part, if it has room: then the answer is true.
    fn put(&mut self, item: Item) -> bool
        requires sized { is_sized }
        requires own { (k : ℕ) × (t : ℕ) × Self.suits k (own_part t) self.old }
        requires new { ¬ Contains (Self.content self.old) item }
        ensures kind { (k t : ℕ) → Self.suits k (own_part t) self.old
            → Self.suits k (own_part t) self.new }
        ensures done { (k t : ℕ) → Self.suits k (own_part t) self.old → MatchBool result
            (MayPut k (Self.content self.old)
            × (Self.content self.new ≡ own_after_put (Self.content self.old) item))
            ((length (Self.content self.old) ≡ k)
            × (Self.content self.new ≡ Self.content self.old)) };

    /// Puts an item into an own part that has k items, some of which move to the shared part.
    fn flush(&mut self, shared: &mut Self, item: Item) -> Result<(), LsmError>
        requires sized { is_sized }
        requires parts { (k : ℕ) × (t : ℕ) × Self.suits k (own_part t) self.old
            × Self.suits k shared_part shared.old × (length (Self.content self.old) ≡ k) }
        requires apart { ShareNone (Self.content self.old) (Self.content shared.old) }
        requires new_to_own { ¬ Contains (Self.content self.old) item }
        requires new_to_shared { ¬ Contains (Self.content shared.old) item }
        ensures kind { (k t : ℕ) → Self.suits k (own_part t) self.old
            → Self.suits k (own_part t) self.new }
        ensures shared_kind { (k : ℕ) → Self.suits k shared_part shared.old
            → Self.suits k shared_part shared.new }
        ensures done { OnOk result ((k t : ℕ) → Self.suits k (own_part t) self.old
            → (moved : List Item) × MayFlush k (Self.content self.old) item moved
            × (Self.content self.new ≡ own_after_flush (Self.content self.old) item moved)
            × (Self.content shared.new ≡ shared_after_flush (Self.content shared.old) moved)
            × (length (Self.content shared.old) + length moved ≤ limit_of levels heap_room)) }
        ensures unchanged { OnErr result ((Self.content self.new ≡ Self.content self.old)
            × (Self.content shared.new ≡ Self.content shared.old)) }
        ensures full { IfErr result (λ why. why ≡ LsmError.Full
            → (k t : ℕ) → Self.suits k (own_part t) self.old
            → limit_of levels heap_room < length (Self.content shared.old) + max 1 k) }
        ensures memory { IfErr result (λ why. why ≡ LsmError.NoMemory
            → length (Self.content shared.old) < limit_of levels heap_room) };

    /// The front of the shared part: the key of its least item, and the greatest number where it is
    /// empty.
    fn front(&self) -> u64
        requires { (k : ℕ) × Self.suits k shared_part self.now }
        ensures { result ≡ front_of (Self.content self.now) };

    /// Takes the least item out of an own part that has one.
    fn take_least(&mut self) -> Item
        requires own { (k : ℕ) × (t : ℕ) × Self.suits k (own_part t) self.old }
        requires some { (x : Item) × IsLeast x (Self.content self.old) }
        ensures kind { (k t : ℕ) → Self.suits k (own_part t) self.old
            → Self.suits k (own_part t) self.new }
        ensures least { IsLeast result (Self.content self.old) }
        ensures left { Self.content self.new ≡ own_after_early (Self.content self.old) result };

    /// Takes an item out of an own part and the shared one, for the member of this number. `None` where
    /// both are empty.
    fn take<P: Picker>(&mut self, owner: u32, shared: &mut Self, picker: &mut P) -> Option<Item>
        requires sized { is_sized }
        requires parts { (k : ℕ) × (t : ℕ) × Self.suits k (own_part t) self.old
            × Self.suits k shared_part shared.old }
        requires apart { ShareNone (Self.content self.old) (Self.content shared.old) }
        ensures kind { (k t : ℕ) → Self.suits k (own_part t) self.old
            → Self.suits k (own_part t) self.new }
        ensures shared_kind { (k : ℕ) → Self.suits k shared_part shared.old
            → Self.suits k shared_part shared.new }
        ensures done { (k t : ℕ) → Self.suits k (own_part t) self.old → MatchOption result
            (MayFindNothing (Self.content self.old) (Self.content shared.old)
            × (Self.content self.new ≡ Self.content self.old)
            × (Self.content shared.new ≡ Self.content shared.old)
            × (picker.new ≡ picker.old))
            (λ item. MayTake k owner (Self.content self.old) (Self.content shared.old) item
            × (Self.content self.new ≡ own_after_take (Self.content self.old) item)
            × (Self.content shared.new
            ≡ shared_after_take (Self.content self.old) (Self.content shared.old) item)
            × Chooses P.may_pick picker.old picker.new k owner (Self.content self.old)
            (Self.content shared.old) item) };

    /// Moves items from a victim's part to an own one that is empty: true where some moved.
    fn spy(&mut self, victim: &mut Self) -> bool
        requires sized { is_sized }
        requires parts { (k : ℕ) × (t : ℕ) × (v : ℕ) × Self.suits k (own_part t) self.old
            × Self.suits k (own_part v) victim.old }
        requires empty { Self.content self.old ≡ [] }
        ensures kind { (k t : ℕ) → Self.suits k (own_part t) self.old
            → Self.suits k (own_part t) self.new }
        ensures victim_kind { (k t : ℕ) → Self.suits k (own_part t) victim.old
            → Self.suits k (own_part t) victim.new }
        ensures done { MatchBool result
            ((moved : List Item) × MaySpy (Self.content self.old) (Self.content victim.old) moved
            × (Self.content self.new ≡ own_after_spy moved)
            × (Self.content victim.new ≡ victim_after_spy (Self.content victim.old) moved))
            ((Self.content victim.old ≡ []) × (Self.content self.new ≡ Self.content self.old)
            × (Self.content victim.new ≡ Self.content victim.old)) };

    /// Moves the least items of the shared part to places beside an own one, which stays as it is: at most
    /// `most`, as many as there are, and as half the room of the own part is for. True where some moved:
    /// they are on their way to it.
    fn fetch(&mut self, shared: &mut Self, most: usize) -> bool
        requires sized { is_sized }
        requires parts { (k : ℕ) × (t : ℕ) × Self.suits k (own_part t) self.old
            × Self.suits k shared_part shared.old }
        ensures kind { (k t : ℕ) → Self.suits k (own_part t) self.old
            → Self.suits k (own_part t) self.new }
        ensures shared_kind { (k : ℕ) → Self.suits k shared_part shared.old
            → Self.suits k shared_part shared.new }
        ensures same { Self.content self.new ≡ Self.content self.old }
        ensures done { (k t : ℕ) → Self.suits k (own_part t) self.old → MatchBool result
            (MayRefill k (Self.content self.old) (Self.content shared.old)
            (refill_of most k (Self.content self.old) (Self.content shared.old))
            × (Self.arriving self.new
            ≡ refill_of most k (Self.content self.old) (Self.content shared.old))
            × (Self.content shared.new ≡ shared_after_refill (Self.content shared.old)
            (refill_of most k (Self.content self.old) (Self.content shared.old))))
            ((refill_of most k (Self.content self.old) (Self.content shared.old) ≡ [])
            × (Self.content shared.new ≡ Self.content shared.old)) };

    /// Merges the items that are on their way to an own part into it.
    fn take_in(&mut self)
        requires sized { is_sized }
        requires own { (k : ℕ) × (t : ℕ) × (shared : List Item)
            × Self.suits k (own_part t) self.old
            × MayRefill k (Self.content self.old) shared (Self.arriving self.old) }
        requires apart { ShareNone (Self.content self.old) (Self.arriving self.old) }
        ensures kind { (k t : ℕ) → Self.suits k (own_part t) self.old
            → Self.suits k (own_part t) self.new }
        ensures joined { Self.content self.new
            ≡ own_after_refill (Self.content self.old) (Self.arriving self.old) };

    /// Moves the least items of a victim's part to an own one: at most `most`, as half of what the victim has, and as many
    /// as the own part has room for. True where some moved.
    fn steal(&mut self, victim: &mut Self, most: usize) -> bool
        requires sized { is_sized }
        requires parts { (k : ℕ) × (t : ℕ) × (v : ℕ) × Self.suits k (own_part t) self.old
            × Self.suits k (own_part v) victim.old }
        requires apart { ShareNone (Self.content self.old) (Self.content victim.old) }
        ensures kind { (k t : ℕ) → Self.suits k (own_part t) self.old
            → Self.suits k (own_part t) self.new }
        ensures victim_kind { (k t : ℕ) → Self.suits k (own_part t) victim.old
            → Self.suits k (own_part t) victim.new }
        ensures done { (k t : ℕ) → Self.suits k (own_part t) self.old → MatchBool result
            (MaySteal k (Self.content self.old) (Self.content victim.old)
            (steal_of most k (Self.content self.old) (Self.content victim.old))
            × (Self.content self.new ≡ own_after_steal (Self.content self.old)
            (steal_of most k (Self.content self.old) (Self.content victim.old)))
            × (Self.content victim.new ≡ victim_after_steal (Self.content victim.old)
            (steal_of most k (Self.content self.old) (Self.content victim.old))))
            ((steal_of most k (Self.content self.old) (Self.content victim.old) ≡ [])
            × (Self.content self.new ≡ Self.content self.old)
            × (Self.content victim.new ≡ Self.content victim.old)) };

    /// Prepares a sharing of an own part before the shared one is acquired: it carries the member's union on, and
    /// answers a copy of all items, if there are some and memory for it.
    fn prepare_sharing(&mut self) -> Option<SharedRun<Global>>
        requires sized { is_sized }
        requires own { (k : ℕ) × (t : ℕ) × Self.suits k (own_part t) self.old }
        ensures kind { (k t : ℕ) → Self.suits k (own_part t) self.old
            → Self.suits k (own_part t) self.new }
        ensures same { Self.content self.new ≡ Self.content self.old }
        ensures copy { IfSome result (λ run. run ≡ Self.content self.old) };

    /// Moves all items of an own part that has some to the shared part: the copy of them, if there is one. It answers
    /// how many moved.
    fn share(
        &mut self,
        shared: &mut Self,
        copy: Option<SharedRun<Global>>,
    ) -> Result<usize, LsmError>
        requires sized { is_sized }
        requires parts { (k : ℕ) × (t : ℕ) × Self.suits k (own_part t) self.old
            × Self.suits k shared_part shared.old }
        requires apart { ShareNone (Self.content self.old) (Self.content shared.old) }
        requires some { 0 < length (Self.content self.old) }
        requires copy { IfSome copy (λ run. run ≡ Self.content self.old) }
        ensures kind { (k t : ℕ) → Self.suits k (own_part t) self.old
            → Self.suits k (own_part t) self.new }
        ensures shared_kind { (k : ℕ) → Self.suits k shared_part shared.old
            → Self.suits k shared_part shared.new }
        ensures count { IfOk result (λ count. count ≡ length (Self.content self.old)) }
        ensures done { OnOk result (MayShare (Self.content self.old) (Self.content self.old)
            × (Self.content self.new
            ≡ own_after_share (Self.content self.old) (Self.content self.old))
            × (Self.content shared.new
            ≡ shared_after_share (Self.content shared.old) (Self.content self.old))) }
        ensures unchanged { OnErr result ((Self.content self.new ≡ Self.content self.old)
            × (Self.content shared.new ≡ Self.content shared.old)) }
        ensures full { IsErrAnd result (λ why. why ≡ LsmError.Full)
            ↔ (limit_of levels heap_room
            < length (Self.content shared.old) + length (Self.content self.old)) };
}

/// The part of one member, and beside it places for items on their way to it.
#[derive(Drop)]
pub struct Home<L> {
    pub part: L,
    // The first `count` of them have left the shared part and are still to be merged into this one,
    // between a refill and the release of the own part. At other times what lies here is of no meaning.
    pub places: Vec<Item>,
    pub count: usize,
    // The union that the member carries out while it holds its own part.
    pub unions: Unions,
    // A copy of the block that the next flush moves, if one was made since the part last changed.
    pub copy: Option<SharedRun<Global>>,
}

/// A part on the heap, so that a call that acquires it moves a tag and a pointer.
#[derive(Drop)]
pub enum Slot<L, S> {
    /// The part of one member.
    Own(Boxed<Home<L>>),
    /// The part that all members share.
    Common(Boxed<S>),
    /// No part.
    Vacant,
}

/// A slot of a board.
pub(crate) type BoardSlot<const CAP: usize, const LEVELS: usize> = Slot<Local<CAP>, Shared<LEVELS>>;

impl<const CAP: usize, const LEVELS: usize> Holding for BoardSlot<CAP, LEVELS> {
    ghost use Rattle.klsm_board.specs.Slots.{slot_content, slot_arriving, IsSlotOf};

    ghost content = { slot_content };

    ghost suits = { IsSlotOf };

    ghost arriving = { slot_arriving };
}

impl<const CAP: usize, const LEVELS: usize> PartSlot for BoardSlot<CAP, LEVELS> {
    ghost use Rattle.klsm_board.specs.declared.slot.Slot.TheVariants.{Vacant};

    ghost levels = { LEVELS };

    ghost is_sized = { IsCapacity CAP × IsLevelCount LEVELS };

    ghost is_vacant = { λ slot. slot ≡ Vacant };

    #[inline]
    fn vacant() -> Self {
        Slot::Vacant
    }

    #[inline]
    fn discard(self) {
        let Slot::Vacant = self else {
            unreachable!();
        };
    }

    fn len(&self) -> usize {
        match self {
            Slot::Own(own) => own.get().part.len(),
            Slot::Common(shared) => shared.get().len(),
            Slot::Vacant => 0,
        }
    }

    fn least(&self) -> Option<Item> {
        match self {
            Slot::Own(own) => own.get().part.least(),
            Slot::Common(shared) => shared.get().least(),
            Slot::Vacant => None,
        }
    }

    #[inline]
    fn find_least(&mut self) -> Option<Item> {
        match self {
            Slot::Own(own) => {
                let home = own.get_mut();
                home.unions.carry_on_in_place();
                home.part.find_least()
            }
            _ => unreachable!(),
        }
    }

    fn append_to(&self, all: &mut Vec<Item>) -> Result<(), AllocError> {
        match self {
            Slot::Own(own) => own.get().part.append_to(all),
            Slot::Common(shared) => shared.get().append_to(all),
            Slot::Vacant => Ok(()),
        }
    }

    #[inline]
    fn put(&mut self, item: Item) -> bool {
        match self {
            Slot::Own(own) => {
                let home = own.get_mut();
                let is_put = put_where_room(&mut home.part, item);
                keep_up(&mut home.unions, is_put);
                renew(&mut home.copy, &home.unions, &home.part, is_put);
                is_put
            }
            _ => unreachable!(),
        }
    }

    #[inline]
    fn flush(&mut self, shared: &mut Self, item: Item) -> Result<(), LsmError> {
        match (self, shared) {
            (Slot::Own(own), Slot::Common(shared)) => {
                let home = own.get_mut();
                let common = shared.get_mut();
                let copy = home.copy.take();
                let answer = flush_prepared(&mut home.part, common, item, copy);
                home.unions.exchange(common);
                answer
            }
            _ => unreachable!(),
        }
    }

    #[inline]
    fn front(&self) -> u64 {
        match self {
            Slot::Common(shared) => shared.get().front(),
            _ => unreachable!(),
        }
    }

    #[inline]
    fn take_least(&mut self) -> Item {
        match self {
            Slot::Own(own) => {
                let home = own.get_mut();
                forget(&mut home.copy);
                take_least(&mut home.part)
            }
            _ => unreachable!(),
        }
    }

    #[inline]
    fn take<P: Picker>(&mut self, owner: u32, shared: &mut Self, picker: &mut P) -> Option<Item> {
        match (self, shared) {
            (Slot::Own(own), Slot::Common(shared)) => {
                let home = own.get_mut();
                forget(&mut home.copy);
                take(owner, &mut home.part, shared.get_mut(), picker)
            }
            _ => unreachable!(),
        }
    }

    #[inline]
    fn spy(&mut self, victim: &mut Self) -> bool {
        match (self, victim) {
            (Slot::Own(own), Slot::Own(victim)) => {
                let home = own.get_mut();
                forget(&mut home.copy);
                let other = victim.get_mut();
                forget(&mut other.copy);
                spy(&mut home.part, &mut other.part) != 0
            }
            _ => unreachable!(),
        }
    }

    #[inline]
    fn fetch(&mut self, shared: &mut Self, most: usize) -> bool {
        match (self, shared) {
            (Slot::Own(own), Slot::Common(shared)) => {
                let home = own.get_mut();
                home.count = fetch(
                    &home.part,
                    shared.get_mut(),
                    most,
                    home.places.as_mut_slice(),
                );
                home.count != 0
            }
            _ => unreachable!(),
        }
    }

    #[inline]
    fn take_in(&mut self) {
        match self {
            Slot::Own(own) => {
                let home = own.get_mut();
                forget(&mut home.copy);
                home.part.take_in(&home.places.as_slice()[..home.count]);
            }
            _ => unreachable!(),
        }
    }

    #[inline]
    fn steal(&mut self, victim: &mut Self, most: usize) -> bool {
        match (self, victim) {
            (Slot::Own(own), Slot::Own(victim)) => {
                let home = own.get_mut();
                forget(&mut home.copy);
                let other = victim.get_mut();
                forget(&mut other.copy);
                steal(&mut home.part, &mut other.part, most) != 0
            }
            _ => unreachable!(),
        }
    }

    fn prepare_sharing(&mut self) -> Option<SharedRun<Global>> {
        match self {
            Slot::Own(own) => {
                let home = own.get_mut();
                home.unions.prepare();
                home.unions.copy_of_all(&home.part)
            }
            _ => unreachable!(),
        }
    }

    #[inline]
    fn share(
        &mut self,
        shared: &mut Self,
        copy: Option<SharedRun<Global>>,
    ) -> Result<usize, LsmError> {
        match (self, shared) {
            (Slot::Own(own), Slot::Common(shared)) => {
                let home = own.get_mut();
                let common = shared.get_mut();
                forget(&mut home.copy);
                let answer = share_prepared(&mut home.part, common, copy);
                home.unions.exchange(common);
                answer
            }
            _ => unreachable!(),
        }
    }
}

// Puts an item into an own part that has fewer than k.
#[inline]
fn put_where_room<const CAP: usize>(own: &mut Local<CAP>, item: Item) -> bool
    requires capacity { IsCapacity CAP }
    requires new { ¬ Contains (items_in own.old) item }
    ensures k { own.new.k ≡ own.old.k }
    ensures done { MatchBool result
        (MayPut own.old.k (items_in own.old)
        × (items_in own.new ≡ own_after_put (items_in own.old) item))
        ((length (items_in own.old) ≡ own.old.k) × (own.new ≡ own.old)) }
{
    if own.len() == own.k() {
        return false;
    }
    put(own, item);
    true
}

// Carries a member's union on. If its own part has no room, the shared one is acquired next.
#[inline]
fn keep_up(unions: &mut Unions, is_put: bool) {
    if is_put {
        unions.carry_on();
    } else {
        unions.prepare();
    }
}

// The copy of a part's largest block goes, as the part changes.
#[inline]
fn forget(copy: &mut Option<SharedRun<Global>>)
    ensures { copy.new ≡ None }
{
    let _old = copy.take();
}

// After a try to put an item into a part the copy goes, if the part has changed. Else there is one, if there is memory.
#[inline]
fn renew<const CAP: usize>(
    copy: &mut Option<SharedRun<Global>>,
    unions: &Unions,
    part: &Local<CAP>,
    is_put: bool,
)
    requires capacity { IsCapacity CAP }
    requires copy { is_put ≡ false → IfSome copy.old (λ run. IsLargest run part.now.blocks) }
    ensures { IfSome copy.new (λ run. IsLargest run part.now.blocks) }
{
    if is_put {
        *copy = None;
    } else if copy.is_none() {
        *copy = unions.copy_of(part);
    }
}
