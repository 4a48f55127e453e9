//! The least items of a pile, side by side.
ghost use Rattle.std.specs.Prelude.{ℕ, List, ◌≡◌, ◌+◌, ◌-◌, ◌<◌, ◌≤◌, ◌++◌, [], ◌∷◌, length, map, take, slice_index_or, slice_set, OnOk};
ghost use Rattle.std.specs.List.{remove};
ghost use Rattle.klsm_pile.specs.declared.fetched.Fetched.{Fetched};
ghost use Rattle.klsm_pile.specs.Front.{fetched};
ghost use Rattle.klsm_pile.specs.Settling.{regrouped_level, relabelled};

use crate::fetched::Fetched;
use klsm_run::Item;
use std::alloc::{AllocError, Allocator};
use std::collections::VecDeque;
use std::marker::Model;

/// The least items in their order, each with the level of the block that it belongs to.
///
/// The levels lie apart from the items: where blocks become one, levels of the whole front change, and no item does.
#[derive(Drop)]
pub struct Front<A: Allocator + Copy> {
    items: VecDeque<Item, A>,
    levels: VecDeque<usize, A>,
}

impl<A: Allocator + Copy> Model for Front<A> {
    ghost use Rattle.std.specs.Prelude.{◌≡◌, length, min};
    ghost use Rattle.std.specs.VecDeque.{deque_capacity};
    ghost use Rattle.klsm_pile.specs.Labels.{FrontState, labelled};

    ghost Value = { FrontState };

    ghost view = { λ front. record {
      items = labelled front.items.items front.levels.items;
      capacity = min (deque_capacity front.items) (deque_capacity front.levels);
    } };

    ghost invariant = { λ front. length front.items.items ≡ length front.levels.items };
}

impl<A: Allocator + Copy> Front<A> {
    /// The front with no item, whose memory will be taken from `alloc`.
    pub(crate) fn new(alloc: A) -> Self
        ensures { result.items ≡ [] }
    {
        Front {
            items: VecDeque::new(alloc),
            levels: VecDeque::new(alloc),
        }
    }

    /// The number of items.
    #[inline]
    pub(crate) fn len(&self) -> usize
        ensures { result ≡ length self.now.items }
    {
        self.items.len()
    }

    /// The item of a rank, counted from the least, with its level.
    #[inline]
    pub(crate) fn at(&self, index: usize) -> Fetched
        requires { index < length self.now.items }
        ensures { result ≡ slice_index_or self.now.items index result }
    {
        Fetched {
            item: self.items[index],
            level: self.levels[index],
        }
    }

    /// Sets the item of a rank, and its level.
    #[inline]
    pub(crate) fn set(&mut self, index: usize, fetched: Fetched)
        requires { index < length self.old.items }
        ensures items { self.new.items ≡ slice_set self.old.items index fetched }
        ensures capacity { self.new.capacity ≡ self.old.capacity }
    {
        self.items[index] = fetched.item;
        self.levels[index] = fetched.level;
    }

    /// Items of a level go behind those of the front.
    pub(crate) fn append(&mut self, items: &[Item], level: usize)
        requires room { length self.old.items + length items.now ≤ self.old.capacity }
        ensures items { self.new.items ≡ self.old.items ++ fetched level items.now }
        ensures capacity { self.new.capacity ≡ self.old.capacity }
    {
        for item in items {
            self.push(*item, level);
        }
    }

    // One item of a level goes behind those of the front.
    #[inline]
    fn push(&mut self, item: Item, level: usize)
        requires { length self.old.items < self.old.capacity }
        ensures items { self.new.items ≡ self.old.items ++ record { item = item; level = level } ∷ [] }
        ensures capacity { self.new.capacity ≡ self.old.capacity }
    {
        self.items.push_back_reserved(item);
        self.levels.push_back_reserved(level);
    }

    /// Takes the least item out.
    #[inline]
    pub(crate) fn remove_first(&mut self) -> Fetched
        requires { 0 < length self.old.items }
        ensures items { self.old.items ≡ result ∷ self.new.items }
        ensures capacity { self.new.capacity ≡ self.old.capacity }
    {
        let (Some(item), Some(level)) = (self.items.pop_front(), self.levels.pop_front()) else {
            unreachable!();
        };
        Fetched { item, level }
    }

    /// Takes the item of a rank out.
    pub(crate) fn remove(&mut self, index: usize) -> Fetched
        requires { index < length self.old.items }
        ensures value { result ≡ slice_index_or self.old.items index result }
        ensures items { self.new.items ≡ remove self.old.items index }
        ensures len { length self.new.items + 1 ≡ length self.old.items }
        ensures capacity { self.new.capacity ≡ self.old.capacity }
    {
        let Some(item) = self.items.remove(index) else {
            unreachable!();
        };
        let Some(level) = self.levels.remove(index) else {
            unreachable!();
        };
        Fetched { item, level }
    }

    /// Keeps so many of the least items.
    pub(crate) fn truncate(&mut self, keep: usize)
        ensures items { self.new.items ≡ take keep self.old.items }
        ensures capacity { self.new.capacity ≡ self.old.capacity }
    {
        self.items.truncate(keep);
        self.levels.truncate(keep);
    }

    /// Takes memory for so many items in all. A refusal changes nothing that is seen.
    pub(crate) fn reserve(&mut self, places: usize) -> Result<(), AllocError>
        requires { length self.old.items ≤ places }
        ensures items { self.new.items ≡ self.old.items }
        ensures room { OnOk result (places ≤ self.new.capacity) }
        ensures capacity { self.old.capacity ≤ self.new.capacity }
    {
        let more = places - self.items.len();
        self.items.reserve_exact(more)?;
        self.levels.reserve_exact(more)
    }

    /// The items of the levels from one to another are of one of these levels from now on.
    pub(crate) fn relabel(&mut self, low: usize, high: usize, to: usize)
        ensures items { self.new.items ≡ relabelled low high to self.old.items }
        ensures capacity { self.new.capacity ≡ self.old.capacity }
    {
        relabel_all(self.levels.make_contiguous(), low, high, to);
    }
}

// What becomes of these levels.
fn relabel_all(levels: &mut [usize], low: usize, high: usize, to: usize)
    ensures { levels.new ≡ map (regrouped_level low high to) levels.old }
{
    for level in levels.iter_mut() {
        *level = level_within(*level, low, high, to);
    }
}

/// What becomes of a level.
#[inline]
pub(crate) fn level_within(level: usize, low: usize, high: usize, to: usize) -> usize
    ensures { result ≡ regrouped_level low high to level }
{
    if level < low || high < level {
        level
    } else {
        to
    }
}
