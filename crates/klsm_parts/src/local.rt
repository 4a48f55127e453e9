//! The part of one member.
ghost use Rattle.std.specs.Prelude.{ℕ, ◌≡◌, ◌<◌, ◌≤◌, ◌↔◌, ◌∷◌, [], length, slice_get, slice_index_or, Some, IsTrue, ◌+◌, ◌++◌, IsOk, OnOk, vec_len, vec_capacity, min, option_map};
ghost use Rattle.std.specs.List.{Contains};
ghost use Rattle.std.specs.Option.{option_to_list};
ghost use Rattle.klsm_run.specs.Capacity.{IsCapacity};
ghost use Rattle.klsm_run.specs.Content.{IsAscending, ShareNone};
ghost use Rattle.klsm_lsm.specs.Lsm.{content, IsLsm};
ghost use Rattle.klsm_lsm.specs.Adding.{add};
ghost use Rattle.klsm_lsm.specs.Spying.{spied, left_by_spy};
ghost use Rattle.klsm_parts.specs.Least.{IsLeast};
ghost use Rattle.klsm_parts.specs.LeastPlaces.{IsLeastPlace};
ghost use Rattle.klsm_parts.specs.Parts.{PartState, IsOwn, HasLeastFirst, items_in, least_in};
ghost use Rattle.klsm_parts.specs.Events.{MayPut, MayTake, MayTakeEarly, own_after_put, own_after_take, own_after_early, own_after_refill};
ghost use Rattle.klsm_parts.specs.Flushing.{kept};
ghost use Rattle.klsm_parts.specs.Taking.{IsCutFrom};

use crate::appending::append_blocks;
use crate::places::{Place, first_of, item_of, least_place};
use klsm_lsm::Lsm;
use klsm_run::{FixedRun, Item, OWN_LEVELS};
use std::alloc::{AllocError, Allocator};
use std::fmt;
use std::marker::Model;

/// The part of one member: an LSM of at most k items, which never takes memory.
#[derive(Drop)]
pub struct Local<const CAP: usize> {
    lsm: Lsm<FixedRun<CAP>, OWN_LEVELS>,
    k: usize,
    // The block of the least item. `None`: there is no item, or the block has not been searched for.
    found: Option<usize>,
}

impl<const CAP: usize> Model for Local<CAP> {
    ghost Value = { PartState };

    ghost view = { λ own. record { k = own.k; blocks = own.lsm } };

    ghost invariant = { λ own. IsOwn CAP (record { k = own.k; blocks = own.lsm }) own.found };
}

impl<const CAP: usize> Local<CAP> {
    /// The part with no item, which is to hold at most `k`.
    pub fn new(k: usize) -> Self
        requires capacity { IsCapacity CAP }
        requires k { k ≤ CAP }
        ensures { result ≡ record { k = k; blocks = [] } }
    {
        Local {
            lsm: Lsm::new(),
            k,
            found: None,
        }
    }

    /// The greatest number of items. It is within what one run can hold.
    #[inline]
    pub fn k(&self) -> usize
        ensures k { result ≡ self.now.k }
        ensures within { self.now.k ≤ CAP }
    {
        // For the proof: without a look at the items rattle does not find their type.
        let _known = self.lsm.len();
        self.k
    }

    /// The number of items. Every own part is a lawful LSM of at most k items.
    #[inline]
    pub fn len(&self) -> usize
        ensures len { result ≡ length (content self.now.blocks) }
        ensures few { length (content self.now.blocks) ≤ self.now.k }
        ensures lawful { IsLsm self.now.blocks }
    {
        self.lsm.len()
    }

    /// Whether there is no item.
    #[inline]
    pub fn is_empty(&self) -> bool
        ensures { IsTrue result ↔ (items_in self.now ≡ []) }
    {
        self.len() == 0
    }

    /// The least item, if there is one. Each change keeps its place or searches for it, so that this reads one item.
    pub fn least(&self) -> Option<Item>
        ensures { result ≡ least_in self.now }
    {
        item_of(self.least_place())
    }

    /// The items, as an LSM.
    #[inline]
    pub fn lsm(&self) -> &Lsm<FixedRun<CAP>, OWN_LEVELS>
        ensures { result.now ≡ self.now.blocks }
    {
        &self.lsm
    }

    /// Appends the items to a list, block after block. It takes no memory where the list has room.
    pub fn append_to<B: Allocator>(&self, all: &mut Vec<Item, B>) -> Result<(), AllocError>
        ensures items { OnOk result (all.new.items ≡ all.old.items ++ content self.now.blocks) }
        ensures capacity { vec_capacity all.old ≤ vec_capacity all.new }
        ensures succeeds { vec_len all.old + length (content self.now.blocks) ≤ vec_capacity all.old
            → IsOk result }
    {
        append_blocks(&self.lsm, all)
    }

    // Puts an item in the place of the largest block, which has gone to the shared part. Where
    // there is none, as k is 0, the item has gone there. Then it searches for the least item.
    pub(crate) fn replace_largest(&mut self, item: Item)
        requires capacity { IsCapacity CAP }
        requires lawful { IsLsm self.old.blocks }
        requires new { ¬ Contains (content self.old.blocks) item }
        ensures { self.new ≡ record { k = self.old.k; blocks = kept self.old.blocks item } }
    {
        if self.lsm.blocks() == 0 {
            return;
        }
        self.lsm.discard_largest();
        let Ok(()) = self.lsm.insert(item) else {
            unreachable!();
        };
        self.found = self.lsm.least_block();
    }

    /// The least item, if there is one, as `least`. If its place was not known, it is known from then on.
    pub fn find_least(&mut self) -> Option<Item>
        ensures least { result ≡ least_in self.old }
        ensures same { self.new ≡ self.old }
    {
        let place = self.least_place()?;
        self.found = Some(place.block);
        Some(place.item)
    }

    // The least item, and where it stands, if there is one.
    #[inline]
    pub(crate) fn least_place(&self) -> Option<Place>
        ensures { IsLeastPlace self.now.blocks result }
    {
        match self.found {
            Some(block) => Some(first_of(&self.lsm, block)),
            None => least_place(&self.lsm),
        }
    }

    // The block of the least item if an item stood behind the others as a block of its own. `None`: not known.
    #[inline]
    fn place_with(&self, item: Item) -> Option<usize>
        ensures { (at : ℕ) → result ≡ Some at
            → HasLeastFirst (self.now.blocks ++ (item ∷ []) ∷ []) at }
    {
        let count = self.lsm.blocks();
        if count == 0 {
            return Some(0);
        }
        let found = self.found?;
        let least = first_of(&self.lsm, found).item;
        if item.is_before(&least) {
            return Some(count);
        }
        Some(found)
    }

    // Takes the least item out, which is item `index` of block `block`, and searches for the next one.
    pub(crate) fn remove(&mut self, block: usize, index: usize) -> Item
        requires block { block < length self.old.blocks }
        requires index { index < length (slice_index_or self.old.blocks block []) }
        requires least { slice_get (slice_index_or self.old.blocks block []) index
            ≡ least_in self.old }
        ensures least { IsLeast result (content self.old.blocks) }
        ensures cut { IsCutFrom result self.old.blocks self.new.blocks }
        ensures k { self.new.k ≡ self.old.k }
        ensures event { ((owner : ℕ) → MayTake self.old.k owner (items_in self.old) [] result)
            × (items_in self.new ≡ own_after_take (items_in self.old) result) }
    {
        let taken = self.lsm.remove(block, index);
        self.found = self.lsm.least_block();
        taken
    }

    /// Merges ascending items in, for which there is room. It takes no memory, and costs one merge and one comparison a block,
    /// by which the least item is found.
    ///
    /// With what `fetch` moved out of the shared part it carries the event Refill out. It asks nothing of the shared
    /// part, which may be in other hands by then.
    pub fn take_in(&mut self, items: &[Item])
        requires capacity { IsCapacity CAP }
        requires some { 0 < length items.now }
        requires ascending { IsAscending items.now }
        requires apart { ShareNone (content self.old.blocks) items.now }
        requires room { length (content self.old.blocks) + length items.now ≤ self.old.k }
        ensures k { self.new.k ≡ self.old.k }
        ensures blocks { self.new.blocks ≡ add self.old.blocks items.now }
        ensures items { items_in self.new ≡ own_after_refill (items_in self.old) items.now }
    {
        let Ok(()) = self.lsm.absorb_items(items) else {
            unreachable!();
        };
        self.found = self.lsm.least_block();
    }

    // Loses all items.
    pub(crate) fn clear(&mut self)
        ensures { self.new ≡ record { k = self.old.k; blocks = [] } }
    {
        self.found = None;
        self.lsm.clear();
    }

    // Takes what goes to a member that spies from a victim, and searches both parts for their least items.
    pub(crate) fn spy_from(&mut self, victim: &mut Self) -> usize
        requires same_k { self.old.k ≡ victim.old.k }
        requires empty { self.old.blocks ≡ [] }
        ensures own { self.new
            ≡ record { k = self.old.k; blocks = option_to_list (spied victim.old.blocks) } }
        ensures victim { victim.new
            ≡ record { k = victim.old.k; blocks = left_by_spy victim.old.blocks } }
        ensures count { result ≡ length (content self.new.blocks) }
    {
        // For the proof: the victim has at most k items.
        let _known = victim.len();
        let count = self.lsm.spy(&mut victim.lsm);
        self.found = self.lsm.least_block();
        victim.found = victim.lsm.least_block();
        count
    }
}

/// It prints what its calls show: `k`, and the items as an LSM.
impl<const CAP: usize> fmt::Debug for Local<CAP> {
    fn fmt<W: fmt::Write>(&self, f: &mut fmt::Formatter<W>) -> fmt::Result {
        f.debug_struct("Local")
            .field("k", &self.k)
            .field("lsm", &self.lsm)
            .finish()
    }
}

/// Puts an item into an own part that has room. It takes no memory. If the place of the least item was known, one comparison with
/// that item keeps it known.
#[inline]
pub fn put<const CAP: usize>(own: &mut Local<CAP>, item: Item)
    requires capacity { IsCapacity CAP }
    requires room { length (content own.old.blocks) < own.old.k }
    requires new { ¬ Contains (content own.old.blocks) item }
    ensures blocks { own.new ≡ record { k = own.old.k; blocks = add own.old.blocks (item ∷ []) } }
    ensures event { MayPut own.old.k (items_in own.old)
        × (items_in own.new ≡ own_after_put (items_in own.old) item) }
{
    // For the proof: the LSM is lawful.
    let _known = own.len();
    let place = own.place_with(item);
    let Ok(()) = own.lsm.insert(item) else {
        unreachable!();
    };

    // The item is the last block, or has become one with blocks up to it. Those before are as they were.
    own.found = at_most(place, own.lsm.blocks() - 1);
}

// The block of a place, or the last block if that is before it.
#[inline]
fn at_most(place: Option<usize>, last: usize) -> Option<usize>
    ensures { result ≡ option_map (λ block. min block last) place }
{
    place.map(|block| block.min(last))
}

/// Takes the least item out of an own part that is not empty. It takes no memory, and costs one comparison a block, by which the
/// next least one is found.
///
/// Where its key is below the front of the shared part, that is a deletion which looks at no shared item.
#[inline]
pub fn take_least<const CAP: usize>(own: &mut Local<CAP>) -> Item
    requires { 0 < length (content own.old.blocks) }
    ensures least { IsLeast result (content own.old.blocks) }
    ensures cut { IsCutFrom result own.old.blocks own.new.blocks }
    ensures k { own.new.k ≡ own.old.k }

    // What takes effect on the contents, where its key is below the front of the shared part.
    ensures early { (front : ℕ) → result.key < front
        → MayTakeEarly (items_in own.old) result front
        × (items_in own.new ≡ own_after_early (items_in own.old) result) }

    // And where the shared part is empty.
    ensures event { ((owner : ℕ) → MayTake own.old.k owner (items_in own.old) [] result)
        × (items_in own.new ≡ own_after_take (items_in own.old) result) }
{
    let Some(place) = own.least_place() else {
        unreachable!();
    };
    own.remove(place.block, place.index)
}
