//! Piles.
ghost use Rattle.std.specs.Prelude.{◌≡◌, ◌+◌, ◌<◌, ◌≤◌, ◌++◌, [], length, take, drop, slice_get, slice_index_or, Some, IsOk, IfOk, OnOk, OnErr, vec_len, vec_capacity};
ghost use Rattle.klsm_run.specs.Capacity.{heap_room};
ghost use Rattle.klsm_run.specs.declared.limits.TheConstants.{MOST_K};
ghost use Rattle.klsm_run.specs.Content.{sorted, ShareNone};
ghost use Rattle.klsm_lsm.specs.Adding.{add};
ghost use Rattle.klsm_lsm.specs.Limit.{IsLevelCount, limit_of};
ghost use Rattle.klsm_lsm.specs.Lsm.{content, IsLsm};
ghost use Rattle.klsm_pile.specs.Front.{parts};
ghost use Rattle.klsm_pile.specs.Leaving.{count_in_least, cut_least};
ghost use Rattle.klsm_pile.specs.Pieces.{blocks_below};
ghost use Rattle.klsm_pile.specs.Piles.{PileState, IsPile, IsItemCut, batch_of, front_places};

use crate::absorbing::absorb;
use crate::copying::copy_blocks;
use crate::front::Front;
use crate::handing::{collect, hand_out};
use crate::leaving::take_first;
use crate::levels::remove_at;
use crate::listing::item_listed;
use crate::piece::Piece;
use crate::pivots::{count_blocks, count_first, level_of_block};
use crate::printing::print_blocks;
use crate::reading::append_blocks;
use crate::refilling::refill;
use crate::reserving::reserve;
use arrayvec::ArrayVec;
use klsm_lsm::Lsm;
use klsm_run::{HeapRun, Item, MOST_SHARED};
use klsm_union::{SharedRun, Spent, UnionBlank, Work};
use std::alloc::{AllocError, Allocator};
use std::fmt;
use std::marker::Model;

// How many items more than needed are fetched to the front at once, at least.
const BATCH: usize = 64;

/// An LSM whose blocks are numbers: the items of a block lie in pieces, each with the level of its block, and the least
/// items of all blocks side by side in the front. Blocks become one by their numbers, and no item moves.
///
/// The `reach` least items can be looked at and taken out, or all if there are fewer.
#[derive(Drop)]
pub struct Pile<const LEVELS: usize, A: Allocator + Copy> {
    // The least items in their order: `reach` at least, or all.
    front: Front<A>,
    pieces: Vec<Piece<A>, A>,
    // How many items each level has.
    counts: ArrayVec<usize, LEVELS>,
    len: usize,
    reach: usize,
}

impl<const LEVELS: usize, A: Allocator + Copy> Model for Pile<LEVELS, A> {
    ghost Value = { PileState };

    ghost view = { λ pile. record {
      blocks = blocks_below LEVELS (parts pile.front.items pile.pieces.items);
      reach = pile.reach;
    } };

    ghost invariant = { λ pile. IsPile LEVELS pile.reach pile.len pile.front.items pile.pieces.items
        pile.counts.items (pile.front.capacity) };
}

impl<const LEVELS: usize, A: Allocator + Copy> Pile<LEVELS, A> {
    /// The pile with no item, of which `reach` items can be looked at. `alloc` is what it will take memory from.
    pub fn new(alloc: A, reach: usize) -> Self
        requires levels { IsLevelCount LEVELS }
        requires some { 1 ≤ reach }
        requires reach { reach ≤ MOST_K + 1 }
        ensures { result ≡ record { blocks = []; reach = reach } }
    {
        Pile {
            front: Front::new(alloc),
            pieces: Vec::new(alloc),
            counts: ArrayVec::from_array_in((), [0; LEVELS]),
            len: 0,
            reach,
        }
    }

    /// How many of the least items can be looked at.
    #[inline]
    pub fn reach(&self) -> usize
        ensures reach { result ≡ self.now.reach }
        ensures range { (1 ≤ self.now.reach) × (self.now.reach ≤ MOST_K + 1) }
    {
        self.reach
    }

    /// The number of items. Every pile is a lawful LSM within its limit.
    #[inline]
    pub fn len(&self) -> usize
        ensures len { result ≡ length (content self.now.blocks) }
        ensures limit { length (content self.now.blocks) ≤ limit_of LEVELS heap_room }
        ensures lawful { IsLsm self.now.blocks }
    {
        self.len
    }

    /// The greatest number of items.
    pub fn limit(&self) -> usize
        ensures { result ≡ limit_of LEVELS heap_room }
    {
        // For the proof: by the invariant, which a look at a field brings in, LEVELS is in its range.
        let _known = self.len;
        (1 << (LEVELS - 1)).min(MOST_SHARED)
    }

    /// The item of a rank, counted from the least.
    #[inline]
    pub fn item(&self, rank: usize) -> Item
        requires reach { rank < self.now.reach }
        requires there { rank < length (content self.now.blocks) }
        ensures { slice_get (sorted (content self.now.blocks)) rank ≡ Some result }
    {
        self.front.at(rank).item
    }

    /// The least item, if there is one.
    #[inline]
    pub fn least(&self) -> Option<Item>
        ensures { result ≡ slice_get (sorted (content self.now.blocks)) 0 }
    {
        if self.front.len() == 0 {
            return None;
        }
        Some(self.front.at(0).item)
    }

    /// Appends the items to a list, block after block. It takes no memory if the list has room.
    pub fn append_to<B: Allocator>(&self, all: &mut Vec<Item, B>) -> Result<(), AllocError>
        ensures items { OnOk result (all.new.items ≡ all.old.items ++ content self.now.blocks) }
        ensures capacity { vec_capacity all.old ≤ vec_capacity all.new }
        ensures succeeds { vec_len all.old + length (content self.now.blocks) ≤ vec_capacity all.old
            → IsOk result }
    {
        append_blocks(&self.front, self.pieces.as_slice(), LEVELS, all)
    }

    /// The number of blocks.
    pub fn blocks(&self) -> usize
        ensures { result ≡ length self.now.blocks }
    {
        count_blocks(self.counts.as_slice())
    }

    /// How many items of block `block` are among the `reach` least ones. They are its first items. It costs a look at
    /// each of the `reach` least.
    pub fn pivot(&self, block: usize) -> usize
        requires { block < length self.now.blocks }
        ensures { result ≡ count_in_least self.now.reach (content self.now.blocks)
            (slice_index_or self.now.blocks block []) }
    {
        let level = level_of_block(self.counts.as_slice(), block);
        count_first(&self.front, level, self.reach)
    }

    /// Item `index`, counted block after block, the greatest level first. It is searched for, by one pass over the
    /// front and the pieces for each item of its block up to it.
    pub fn item_at(&self, index: usize) -> Item
        requires { index < length (content self.now.blocks) }
        ensures { slice_get (content self.now.blocks) index ≡ Some result }
    {
        item_listed(
            &self.front,
            self.pieces.as_slice(),
            self.counts.as_slice(),
            index,
        )
    }

    /// The blocks as an LSM of their own, in memory of `alloc`.
    pub fn lsm<B: Allocator + Copy>(&self, alloc: B) -> Result<Lsm<HeapRun<B>, LEVELS>, AllocError>
        ensures { IfOk result (λ lsm. lsm ≡ self.now.blocks) }
    {
        copy_blocks(
            &self.front,
            self.pieces.as_slice(),
            self.counts.as_slice(),
            alloc,
        )
    }

    /// Takes the item of a rank out. It takes no memory.
    pub fn remove(&mut self, rank: usize) -> Item
        requires reach { rank < self.old.reach }
        requires there { rank < length (content self.old.blocks) }
        ensures item { slice_get (sorted (content self.old.blocks)) rank ≡ Some result }
        ensures cut { IsItemCut result self.old.blocks self.new.blocks }
        ensures reach { self.new.reach ≡ self.old.reach }
    {
        let item = remove_at(
            &mut self.front,
            &mut self.pieces,
            self.counts.as_mut_slice(),
            rank,
        );
        self.len -= 1;
        refill(
            &mut self.front,
            &mut self.pieces,
            self.reach,
            self.reach + batch_for(self.reach),
        );
        item
    }

    /// Takes the least items out, as many as there are places, and puts them there in their order. It takes no memory.
    pub fn take_least(&mut self, places: &mut [Item])
        requires some { 0 < length places.old }
        requires reach { length places.old ≤ self.old.reach }
        requires there { length places.old ≤ length (content self.old.blocks) }
        ensures taken { places.new ≡ take (length places.old) (sorted (content self.old.blocks)) }
        ensures blocks { self.new.blocks ≡ cut_least (length places.old) self.old.blocks }
        ensures left { sorted (content self.new.blocks)
            ≡ drop (length places.old) (sorted (content self.old.blocks)) }
        ensures reach { self.new.reach ≡ self.old.reach }
    {
        let count = places.len();
        take_first(
            &mut self.front,
            &mut self.pieces,
            self.counts.as_mut_slice(),
            places,
        );
        self.len -= count;
        refill(
            &mut self.front,
            &mut self.pieces,
            self.reach,
            self.reach + batch_for(self.reach),
        );
    }

    /// Puts a run in. It is refused only for want of memory.
    pub fn absorb(&mut self, run: SharedRun<A>) -> Result<(), AllocError>
        requires some { 0 < length run }
        requires apart { ShareNone (content self.old.blocks) run }
        requires limit { length (content self.old.blocks) + length run ≤ limit_of LEVELS heap_room }
        ensures added { OnOk result (self.new
            ≡ record { blocks = add self.old.blocks run; reach = self.old.reach }) }
        ensures unchanged { OnErr result (self.new ≡ self.old) }
    {
        let places = places_for(self.reach);
        reserve(&mut self.front, &mut self.pieces, LEVELS, places)?;
        let added = run.len();
        absorb(
            &mut self.front,
            &mut self.pieces,
            self.counts.as_mut_slice(),
            run,
            self.reach,
            places,
        )?;
        self.len += added;
        refill(
            &mut self.front,
            &mut self.pieces,
            self.reach,
            self.reach + batch_for(self.reach),
        );
        Ok(())
    }

    /// The work that makes one run of two pieces of one block, for a member to carry out while it holds no lock. It
    /// takes no memory. If no two pieces are worth it, the blank comes back. If a run has too many owners, nothing
    /// does.
    pub fn hand_out(&mut self, blank: UnionBlank<A>) -> Result<Work<A>, Option<UnionBlank<A>>>
        ensures { self.new ≡ self.old }
    {
        hand_out(&mut self.pieces, blank)
    }

    /// Takes over a union that was handed in, if there is one: what may be freed then. Pieces whose worker is gone are
    /// two again. It takes no memory.
    pub fn collect(&mut self) -> Option<Spent<A>>
        ensures { self.new ≡ self.old }
    {
        collect(&mut self.pieces)
    }
}

/// It prints as the list of its blocks, the greatest level first, each as the list of its items.
impl<const LEVELS: usize, A: Allocator + Copy> fmt::Debug for Pile<LEVELS, A> {
    fn fmt<W: fmt::Write>(&self, f: &mut fmt::Formatter<W>) -> fmt::Result {
        print_blocks(
            &self.front,
            self.pieces.as_slice(),
            self.counts.as_slice(),
            f,
        )
    }
}

// How many items more than needed are fetched to the front at once.
fn batch_for(reach: usize) -> usize
    ensures { result ≡ batch_of reach }
{
    BATCH.max(reach / 2)
}

// How many items the front has room for.
fn places_for(reach: usize) -> usize
    requires { reach ≤ MOST_K + 1 }
    ensures { result ≡ front_places reach }
{
    3 * reach + batch_for(reach)
}
