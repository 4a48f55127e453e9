//! The part that all members share.
ghost use Rattle.std.specs.Prelude.{◌≡◌, ◌≢◌, ◌+◌, ◌<◌, ◌≤◌, ◌↔◌, [], length, min, slice_get, slice_index_or, Some, IsTrue, IsOk, IfOk, IfErr, OnOk, OnErr, IsErrAnd, ◌++◌, take, drop, vec_len, vec_capacity};
ghost use Rattle.klsm_run.specs.Capacity.{heap_room};
ghost use Rattle.klsm_run.specs.declared.limits.TheConstants.{MOST_K};
ghost use Rattle.klsm_run.specs.Content.{sorted, ShareNone};
ghost use Rattle.klsm_lsm.specs.Lsm.{content, IsLsm};
ghost use Rattle.klsm_lsm.specs.Limit.{IsLevelCount, limit_of};
ghost use Rattle.klsm_lsm.specs.Adding.{add};
ghost use Rattle.klsm_pile.specs.Leaving.{count_in_least, cut_least};
ghost use Rattle.klsm_parts.specs.Pivots.{IsPivotAt};
ghost use Rattle.klsm_parts.specs.Events.{front_of};
ghost use Rattle.klsm_parts.specs.Taking.{own_first, IsCutFrom};
ghost use Rattle.klsm_parts.specs.Parts.{PartState, IsShared, items_in, least_in, candidates_of};

use klsm_lsm::{Lsm, LsmError};
use klsm_pile::Pile;
use klsm_run::{HeapRun, Item, Run};
use klsm_union::{SharedRun, Spent, UnionBlank, Work};
use std::alloc::{AllocError, Allocator, Global};
use std::fmt;
use std::marker::Model;

/// The part that all members share: an LSM whose blocks take memory. The least k+1 of its items, or
/// all where there are fewer, are the candidates of a deletion, and a block's pivot is how many of
/// them it has. They lie side by side, in their order.
#[derive(Drop)]
pub struct Shared<const LEVELS: usize, A: Allocator + Copy = Global> {
    // Its `reach` is k+1.
    pile: Pile<LEVELS, A>,
    k: usize,
    alloc: A,
}

impl<const LEVELS: usize, A: Allocator + Copy> Model for Shared<LEVELS, A> {
    ghost Value = { PartState };

    ghost view = { λ shared. record { k = shared.k; blocks = shared.pile.blocks } };

    ghost invariant = { λ shared. IsShared LEVELS shared.k shared.pile };
}

impl<const LEVELS: usize, A: Allocator + Copy> Shared<LEVELS, A> {
    /// The part with no item, of which `k` items may be skipped. `alloc` is what its blocks will
    /// take memory from.
    pub fn new(alloc: A, k: usize) -> Self
        requires levels { IsLevelCount LEVELS }
        requires k { k ≤ MOST_K }
        ensures { result ≡ record { k = k; blocks = [] } }
    {
        Shared {
            pile: Pile::new(alloc, k + 1),
            k,
            alloc,
        }
    }

    /// How many items a deletion may skip.
    #[inline]
    pub fn k(&self) -> usize
        ensures k { result ≡ self.now.k }
        ensures within { self.now.k ≤ MOST_K }
    {
        self.k
    }

    /// The number of items. Every shared part is a lawful LSM within its limit.
    #[inline]
    pub fn len(&self) -> usize
        ensures len { result ≡ length (content self.now.blocks) }
        ensures limit { length (content self.now.blocks) ≤ limit_of LEVELS heap_room }
        ensures lawful { IsLsm self.now.blocks }
    {
        self.pile.len()
    }

    /// Whether there is no item.
    #[inline]
    pub fn is_empty(&self) -> bool
        ensures { IsTrue result ↔ (items_in self.now ≡ []) }
    {
        self.len() == 0
    }

    /// The least item, if there is one. It costs one access.
    #[inline]
    pub fn least(&self) -> Option<Item>
        ensures { result ≡ least_in self.now }
    {
        self.pile.least()
    }

    /// The front: the key of the least item, and the greatest number where there is no item. It costs
    /// one access.
    #[inline]
    pub fn front(&self) -> u64
        ensures { result ≡ front_of (items_in self.now) }
    {
        match self.pile.least() {
            Some(item) => item.key,
            None => u64::MAX,
        }
    }

    /// Appends the items to a list, block after block. It takes no memory where the list has room.
    pub fn append_to<B: Allocator>(&self, all: &mut Vec<Item, B>) -> Result<(), AllocError>
        ensures items { OnOk result (all.new.items ≡ all.old.items ++ content self.now.blocks) }
        ensures capacity { vec_capacity all.old ≤ vec_capacity all.new }
        ensures succeeds { vec_len all.old + length (content self.now.blocks) ≤ vec_capacity all.old
            → IsOk result }
    {
        self.pile.append_to(all)
    }

    /// Item `index`, counted block after block, the greatest level first. It is searched for, by one pass over the pieces
    /// for each item of its block up to it.
    pub fn item_at(&self, index: usize) -> Item
        requires { index < length (content self.now.blocks) }
        ensures { slice_get (content self.now.blocks) index ≡ Some result }
    {
        self.pile.item_at(index)
    }

    /// The items as an LSM of its own, in memory of `alloc`, which is made at each call: the blocks lie in pieces. It is
    /// refused only for want of memory.
    pub fn lsm<B: Allocator + Copy>(&self, alloc: B) -> Result<Lsm<HeapRun<B>, LEVELS>, AllocError>
        ensures { IfOk result (λ lsm. lsm ≡ self.now.blocks) }
    {
        self.pile.lsm(alloc)
    }

    /// The number of blocks.
    pub fn blocks(&self) -> usize
        ensures { result ≡ length self.now.blocks }
    {
        self.pile.blocks()
    }

    /// How many candidates block `block` has. They are its first items. They are counted at each call, at
    /// a look at each candidate: no other call needs it.
    pub fn pivot(&self, block: usize) -> usize
        requires { block < length self.now.blocks }
        ensures exact { IsPivotAt (self.now.k + 1) self.now.blocks block result }
        ensures counts { result ≡ count_in_least (self.now.k + 1) (content self.now.blocks)
            (slice_index_or self.now.blocks block []) }
    {
        // For the proof: the blocks are lawful.
        let _known = self.pile.len();
        self.pile.pivot(block)
    }

    /// How many items of block `block` are candidates, counted anew. So does `pivot`, of which this is another name.
    pub fn pivot_anew(&self, block: usize) -> usize
        requires { block < length self.now.blocks }
        ensures counts { result ≡ count_in_least (self.now.k + 1) (content self.now.blocks)
            (slice_index_or self.now.blocks block []) }
    {
        self.pivot(block)
    }

    /// The number of candidates.
    pub fn candidates(&self) -> usize
        ensures { result ≡ length (candidates_of self.now) }
    {
        (self.k + 1).min(self.pile.len())
    }

    /// Candidate `index`, counted from the least. It costs one access.
    pub fn candidate(&self, index: usize) -> Item
        requires { index < length (candidates_of self.now) }
        ensures { slice_get (candidates_of self.now) index ≡ Some result }
    {
        self.pile.item(index)
    }

    // Of the candidates up to one, the first that an owner inserted, or that one where there is none, and its index. It costs
    // a look at each up to it.
    pub(crate) fn own_first(&self, owner: u32, index: usize) -> (Item, usize)
        requires { index < length (candidates_of self.now) }
        ensures first { result.1 ≡ own_first owner index (candidates_of self.now) }
        ensures candidate { slice_get (candidates_of self.now) result.1 ≡ Some result.0 }
    {
        for earlier in 0..index {
            let item = self.candidate(earlier);
            if item.stamp.owner == owner {
                return (item, earlier);
            }
        }
        (self.candidate(index), index)
    }

    // Puts a run in.
    pub(crate) fn absorb(&mut self, run: SharedRun<A>) -> Result<(), LsmError>
        requires some { 0 < length run }
        requires apart { ShareNone (content self.old.blocks) run }
        ensures added { OnOk result (self.new
            ≡ record { k = self.old.k; blocks = add self.old.blocks run }) }
        ensures full { IsErrAnd result (λ why. why ≡ LsmError.Full)
            ↔ (limit_of LEVELS heap_room < length (content self.old.blocks) + length run) }
        ensures unchanged { OnErr result (self.new ≡ self.old) }
    {
        if run.len() > self.pile.limit() - self.pile.len() {
            return Err(LsmError::Full);
        }
        absorb_run(&mut self.pile, run)
    }

    // Puts a copy of a run in. What can be refused comes first, and Full before a growth.
    pub(crate) fn absorb_copy<R: Run>(&mut self, run: &R) -> Result<(), LsmError>
        requires some { 0 < length (R.items run.now) }
        requires apart { ShareNone (content self.old.blocks) (R.items run.now) }
        ensures added { OnOk result (self.new
            ≡ record { k = self.old.k; blocks = add self.old.blocks (R.items run.now) }) }
        ensures full { IsErrAnd result (λ why. why ≡ LsmError.Full)
            ↔ (limit_of LEVELS heap_room
            < length (content self.old.blocks) + length (R.items run.now)) }
        ensures unchanged { OnErr result (self.new ≡ self.old) }
    {
        if run.len() > self.pile.limit() - self.pile.len() {
            return Err(LsmError::Full);
        }
        match HeapRun::copy_of(self.alloc, run) {
            Ok(copy) => absorb(&mut self.pile, self.alloc, copy),
            Err(_) => Err(LsmError::NoMemory),
        }
    }

    // Puts a copy of all items of an LSM in, as one run. What can be refused comes first, and Full before a growth.
    pub(crate) fn absorb_all<R: Run, const OTHERS: usize>(
        &mut self,
        others: &Lsm<R, OTHERS>,
    ) -> Result<(), LsmError>
        requires some { 0 < length (content others.now) }
        requires apart { ShareNone (content self.old.blocks) (content others.now) }
        ensures added { OnOk result (self.new ≡ record {
          k = self.old.k;
          blocks = add self.old.blocks (sorted (content others.now));
        }) }
        ensures full { IsErrAnd result (λ why. why ≡ LsmError.Full)
            ↔ (limit_of LEVELS heap_room
            < length (content self.old.blocks) + length (content others.now)) }
        ensures unchanged { OnErr result (self.new ≡ self.old) }
    {
        if others.len() > self.pile.limit() - self.pile.len() {
            return Err(LsmError::Full);
        }
        match others.to_run(self.alloc) {
            Ok(copy) => absorb(&mut self.pile, self.alloc, copy),
            Err(_) => Err(LsmError::NoMemory),
        }
    }

    // Takes the least items out, as many as there are places, and puts them there in their order.
    pub(crate) fn take_least(&mut self, places: &mut [Item])
        requires some { 0 < length places.old }
        requires there { length places.old ≤ length (candidates_of self.old) }
        ensures k { self.new.k ≡ self.old.k }
        ensures taken { places.new ≡ take (length places.old) (items_in self.old) }
        ensures blocks { self.new.blocks ≡ cut_least (length places.old) self.old.blocks }
        ensures left { items_in self.new ≡ drop (length places.old) (items_in self.old) }
    {
        self.pile.take_least(places);
    }

    // Takes the candidate of a rank out.
    pub(crate) fn remove(&mut self, rank: usize) -> Item
        requires { rank < length (candidates_of self.old) }
        ensures item { slice_get (candidates_of self.old) rank ≡ Some result }
        ensures cut { IsCutFrom result self.old.blocks self.new.blocks }
        ensures k { self.new.k ≡ self.old.k }
    {
        self.pile.remove(rank)
    }

    // The work that makes one run of two pieces of a block. The blank comes back if there are no two, and nothing if a run
    // has too many owners.
    pub(crate) fn hand_out(
        &mut self,
        blank: UnionBlank<A>,
    ) -> Result<Work<A>, Option<UnionBlank<A>>>
        ensures { self.new ≡ self.old }
    {
        self.pile.hand_out(blank)
    }

    // Takes over a union that was handed in, if there is one: what may be freed then.
    pub(crate) fn collect(&mut self) -> Option<Spent<A>>
        ensures { self.new ≡ self.old }
    {
        self.pile.collect()
    }
}

/// It prints what its calls show: `k`, and the items as an LSM.
impl<const LEVELS: usize, A: Allocator + Copy> fmt::Debug for Shared<LEVELS, A> {
    fn fmt<W: fmt::Write>(&self, f: &mut fmt::Formatter<W>) -> fmt::Result {
        f.debug_struct("Shared")
            .field("k", &self.k)
            .field("lsm", &self.pile)
            .finish()
    }
}

// Puts a run in, for which there is room.
fn absorb<const LEVELS: usize, A: Allocator + Copy>(
    pile: &mut Pile<LEVELS, A>,
    alloc: A,
    run: HeapRun<A>,
) -> Result<(), LsmError>
    requires some { 0 < length run.items }
    requires apart { ShareNone (content pile.old.blocks) run.items }
    requires limit { length (content pile.old.blocks) + length run.items ≤ limit_of LEVELS heap_room }
    ensures added { OnOk result (pile.new
        ≡ record { blocks = add pile.old.blocks run.items; reach = pile.old.reach }) }
    ensures memory { IfErr result (λ why. why ≡ LsmError.NoMemory) }
    ensures unchanged { OnErr result (pile.new ≡ pile.old) }
{
    let Ok(shared) = SharedRun::new(alloc, run) else {
        return Err(LsmError::NoMemory);
    };
    absorb_run(pile, shared)
}

// The same of a run that is shared already.
fn absorb_run<const LEVELS: usize, A: Allocator + Copy>(
    pile: &mut Pile<LEVELS, A>,
    run: SharedRun<A>,
) -> Result<(), LsmError>
    requires some { 0 < length run }
    requires apart { ShareNone (content pile.old.blocks) run }
    requires limit { length (content pile.old.blocks) + length run ≤ limit_of LEVELS heap_room }
    ensures added { OnOk result (pile.new
        ≡ record { blocks = add pile.old.blocks run; reach = pile.old.reach }) }
    ensures memory { IfErr result (λ why. why ≡ LsmError.NoMemory) }
    ensures unchanged { OnErr result (pile.new ≡ pile.old) }
{
    match pile.absorb(run) {
        Ok(()) => Ok(()),
        Err(AllocError) => Err(LsmError::NoMemory),
    }
}
