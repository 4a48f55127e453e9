//! A run in a fixed store, which never takes memory.
ghost use Rattle.std.specs.Prelude.{◌≡◌, ◌+◌, ◌/◌, ◌<◌, ◌≤◌, ◌∷◌, ◌++◌, [], List, length, take, drop, true};
ghost use Rattle.std.specs.List.{Contains};
ghost use Rattle.klsm_run.specs.declared.item.Item.{Item};
ghost use Rattle.klsm_run.specs.Content.{sorted, IsAscending};
ghost use Rattle.klsm_run.specs.Capacity.{IsCapacity};
ghost use Rattle.klsm_run.specs.Stores.{spanned, IsFixedRun};

use crate::run::level_of;
use crate::span::{Span, put_first};
use crate::{Item, Run, RunError};
use arrayvec::ArrayVec;
use std::fmt;
use std::marker::Model;

/// A run of at most `CAP` items, which lie in the value itself. `CAP` is 1 to `MOST_K`.
#[derive(Drop)]
pub struct FixedRun<const CAP: usize> {
    // The store is always full. It is written whole where it is made, and nowhere else.
    items: ArrayVec<Item, CAP>,
    span: Span,
}

impl<const CAP: usize> Model for FixedRun<CAP> {
    ghost Value = { List Item };

    ghost view = { λ run. spanned run.span run.items.items };

    ghost invariant = { λ run. IsFixedRun CAP run.span run.items.items };
}

impl<const CAP: usize> FixedRun<CAP> {
    /// The run with no item. It writes the whole store.
    pub fn empty() -> Self
        requires { IsCapacity CAP }
        ensures { result ≡ [] }
    {
        FixedRun {
            items: ArrayVec::from_array_in((), [Item::default(); CAP]),
            span: Span::first(0),
        }
    }

    /// The run of one item.
    pub fn single(item: Item) -> Self
        requires { IsCapacity CAP }
        ensures { result ≡ item ∷ [] }
    {
        FixedRun {
            items: ArrayVec::from_array_in((), [item; CAP]),
            span: Span::first(1),
        }
    }

    /// How many items the store has places for: what `Run::capacity` returns, `CAP`.
    #[inline]
    pub fn room(&self) -> usize
        ensures { result ≡ CAP }
    {
        self.capacity()
    }

    /// Has these items in place of its own. It costs one copy of each.
    pub fn set(&mut self, items: &[Item])
        requires ascending { IsAscending items.now }
        requires room { length items.now ≤ CAP }
        ensures { self.new ≡ items.now }
    {
        put_first(self.items.as_mut_slice(), items);
        self.span = Span::first(items.len());
    }

    /// Puts an item in that the run does not hold. The greater ones move by one place.
    pub fn insert(&mut self, item: Item)
        requires room { length self.old < CAP }
        requires new { ¬ Contains self.old item }
        ensures { self.new ≡ sorted (self.old ++ item ∷ []) }
    {
        self.span.unite(self.items.as_mut_slice(), &[item]);
    }

    /// Keeps the least items, so many of them. No item moves.
    #[inline]
    pub fn truncate(&mut self, count: usize)
        requires { count ≤ length self.old }
        ensures { self.new ≡ take count self.old }
    {
        self.span.end = self.span.start + count;
    }

    /// The greatest half of the items, rounded up.
    pub fn upper_half(&self) -> Self
        ensures { result ≡ drop (length self.now / 2) self.now }
    {
        let items = self.span.of(self.items.as_slice());
        let mut half = FixedRun::empty();
        half.set(&items[items.len() / 2..]);
        half
    }

    /// The other items: the least half, rounded down.
    pub fn lower_half(&self) -> Self
        ensures { result ≡ take (length self.now / 2) self.now }
    {
        let items = self.span.of(self.items.as_slice());
        let mut half = FixedRun::empty();
        half.set(&items[..items.len() / 2]);
        half
    }
}

/// It prints as the list of its items.
impl<const CAP: usize> fmt::Debug for FixedRun<CAP> {
    fn fmt<W: fmt::Write>(&self, f: &mut fmt::Formatter<W>) -> fmt::Result {
        f.debug_list().entries(self.as_slice()).finish()
    }
}

impl<const CAP: usize> Run for FixedRun<CAP> {
    const ROOM: usize = CAP;

    ghost ROOM = { CAP };

    ghost items = { λ run. run };

    ghost capacity = { λ run. CAP };

    ghost may_reserve = { λ count capacity. capacity ≡ CAP };

    ghost is_fixed = { true };

    #[inline]
    fn len(&self) -> usize {
        self.span.len()
    }

    #[inline]
    fn capacity(&self) -> usize {
        self.items.capacity()
    }

    #[inline]
    fn as_slice(&self) -> &[Item] {
        self.span.of(self.items.as_slice())
    }

    #[inline]
    fn item_at(&self, index: usize) -> Item {
        self.items.as_slice()[self.span.start + index]
    }

    #[inline]
    fn level(&self) -> usize {
        level_of(self.span.len())
    }

    #[inline]
    fn remove_at(&mut self, index: usize) -> Item {
        self.span.remove_at(self.items.as_mut_slice(), index)
    }

    #[inline]
    fn remove_first(&mut self, count: usize) {
        self.span.start += count;
    }

    fn unite(&mut self, other: &Self) {
        self.span.unite(self.items.as_mut_slice(), other.as_slice());
    }

    // The store is a part of the value itself, so the items are copied.
    fn take_from(&mut self, other: &mut Self) {
        self.set(other.as_slice());
        other.span = Span::first(0);
    }

    fn copy_for(&self, _count: usize) -> Result<Self, RunError> {
        let items = self.span.of(self.items.as_slice());
        let mut copy = FixedRun::empty();
        copy.set(items);
        Ok(copy)
    }
}
