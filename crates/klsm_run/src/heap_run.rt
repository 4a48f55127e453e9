//! A run in a store of the heap, of the least power of two that holds its items when it is made.
ghost use Rattle.std.specs.Prelude.{◌≡◌, ◌+◌, ◌≤◌, ◌++◌, List, [], length, take, drop, min, max, false, IfOk, vec_capacity};
ghost use Rattle.klsm_run.specs.declared.item.Item.{Item};
ghost use Rattle.klsm_run.specs.Content.{sorted, IsAscending, ShareNone};
ghost use Rattle.klsm_run.specs.Capacity.{heap_room, IsPowerFor, IsRunCapacity};
ghost use Rattle.klsm_run.specs.Stores.{spanned, HeapState, IsHeapRun};

use crate::appending::{clear_behind, push_all, push_least};
use crate::run::level_of;
use crate::span::Span;
use crate::{Item, MOST_SHARED, Run, RunError};
use std::alloc::{Allocator, Global};
use std::marker::Model;
use std::{fmt, mem};

/// A run of at most `MOST_SHARED` items, which lie in one block of memory.
#[derive(Drop)]
pub struct HeapRun<A: Allocator + Copy = Global> {
    // The store has what was written once, and is filled further only where a union needs it.
    items: Vec<Item, A>,
    // For how many items room was reserved.
    places: usize,
    span: Span,
}

impl<A: Allocator + Copy> Model for HeapRun<A> {
    ghost Value = { HeapState };

    ghost view = { λ run.
        record { items = spanned run.span run.items.items; capacity = run.places } };

    ghost invariant = { λ run.
        IsHeapRun run.span run.places (vec_capacity run.items) run.items.items };
}

impl<A: Allocator + Copy> HeapRun<A> {
    /// A run of the same items. It costs one growth, of the least power of two that holds them, and
    /// one copy of each.
    pub fn copy_of<R: Run>(alloc: A, run: &R) -> Result<Self, RunError>
        requires { length (R.items run.now) ≤ heap_room }
        ensures items { IfOk result (λ copy. copy.items ≡ R.items run.now) }
        ensures reserved { IfOk result (λ copy.
            IsPowerFor (length (R.items run.now)) copy.capacity) }
    {
        HeapRun::copy_of_for(alloc, run, run.len())
    }

    /// A run of the same items, with room for `count`. It costs one growth, of the least power of
    /// two that is at least `count`, and one copy of each item.
    pub fn copy_of_for<R: Run>(alloc: A, run: &R, count: usize) -> Result<Self, RunError>
        requires holds { length (R.items run.now) ≤ count }
        requires room { count ≤ heap_room }
        ensures items { IfOk result (λ copy. copy.items ≡ R.items run.now) }
        ensures reserved { IfOk result (λ copy. IsPowerFor count copy.capacity) }
    {
        stored_for(alloc, run.as_slice(), count)
    }

    /// A run of no item, with room for `count`. It costs one growth, of the least power of two that is at
    /// least `count`.
    pub fn empty_for(alloc: A, count: usize) -> Result<Self, RunError>
        requires room { count ≤ heap_room }
        ensures empty { IfOk result (λ run. run.items ≡ []) }
        ensures reserved { IfOk result (λ run. IsPowerFor count run.capacity) }
    {
        stored_for(alloc, &[], count)
    }

    /// What its store takes memory from.
    #[inline]
    pub fn allocator(&self) -> A {
        *self.items.allocator()
    }

    /// How many items the store has places for: what `Run::capacity` returns.
    #[inline]
    pub fn room(&self) -> usize
        ensures room { result ≡ self.now.capacity }
        ensures lawful { IsRunCapacity heap_room (length self.now.items) self.now.capacity }
    {
        self.capacity()
    }

    /// Puts the items of a list in, in place, as `unite` does with those of a run. It takes no memory.
    pub fn unite_items(&mut self, joining: &[Item])
        requires ascending { IsAscending joining.now }
        requires apart { ShareNone self.old.items joining.now }
        requires room { length self.old.items + length joining.now ≤ self.old.capacity }
        ensures union { self.new.items ≡ sorted (self.old.items ++ joining.now) }
        ensures capacity { self.new.capacity ≡ self.old.capacity }
    {
        let end = (self.span.end + joining.len()).min(self.places);
        fill_up(&mut self.items, end, joining);
        self.span.unite(self.items.as_mut_slice(), joining);
    }

    /// Puts items behind all others, in place, at one copy of each. It takes no memory.
    pub fn append(&mut self, joining: &[Item])
        requires ascending { IsAscending (self.old.items ++ joining.now) }
        requires room { length self.old.items + length joining.now ≤ self.old.capacity }
        ensures items { self.new.items ≡ self.old.items ++ joining.now }
        ensures capacity { self.new.capacity ≡ self.old.capacity }
    {
        self.span = clear_behind(&mut self.items, self.span, self.places, joining.len());
        push_all(&mut self.items, joining);
        self.span.end = self.items.len();
    }

    /// Puts the least items of two ascending lists behind all others, in place: `most` of them or all. It answers how
    /// many of each list these are. An item costs one comparison and one copy, and it takes no memory.
    pub fn append_least(&mut self, left: &[Item], right: &[Item], most: usize) -> (usize, usize)
        requires left { IsAscending left.now }
        requires right { IsAscending right.now }
        requires ascending { IsAscending (self.old.items ++ sorted (left.now ++ right.now)) }
        requires room { length self.old.items + length left.now + length right.now
            ≤ self.old.capacity }
        ensures within { (result.0 ≤ length left.now) × (result.1 ≤ length right.now) }
        ensures count { result.0 + result.1 ≡ min most (length left.now + length right.now) }
        ensures items { self.new.items ++ sorted (drop result.0 left.now ++ drop result.1 right.now)
            ≡ self.old.items ++ sorted (left.now ++ right.now) }
        ensures capacity { self.new.capacity ≡ self.old.capacity }
    {
        let more = left.len() + right.len();
        self.span = clear_behind(&mut self.items, self.span, self.places, more);
        let counts = push_least(&mut self.items, left, right, most);
        self.span.end = self.items.len();
        counts
    }
}

// The least power of two that is at least so many.
fn power_for(count: usize) -> usize
    requires { count ≤ heap_room }
    ensures power { IsPowerFor count result }
    ensures room { result ≤ heap_room }
{
    if count == 0 {
        return 1;
    }
    1 << level_of(count)
}

// A run of these items, with room for `count`.
fn stored_for<A: Allocator + Copy>(
    alloc: A,
    items: &[Item],
    count: usize,
) -> Result<HeapRun<A>, RunError>
    requires ascending { IsAscending items.now }
    requires holds { length items.now ≤ count }
    requires room { count ≤ heap_room }
    ensures items { IfOk result (λ run. run.items ≡ items.now) }
    ensures reserved { IfOk result (λ run. IsPowerFor count run.capacity) }
{
    let places = power_for(count);
    Ok(HeapRun {
        items: stored(alloc, items, places)?,
        places,
        span: Span::first(items.len()),
    })
}

// A store of these items, with so many places reserved.
fn stored<A: Allocator>(alloc: A, items: &[Item], places: usize) -> Result<Vec<Item, A>, RunError>
    ensures items { IfOk result (λ store. store.items ≡ items.now) }
    ensures reserved { IfOk result (λ store. places ≤ vec_capacity store) }
{
    let Ok(mut store) = Vec::with_capacity(alloc, places) else {
        return Err(RunError::NoMemory);
    };
    let Ok(()) = store.extend_from_slice(items) else {
        return Err(RunError::NoMemory);
    };
    Ok(store)
}

// Fills a store up to `end` with the first of some items, as far as it is not filled yet. These are
// the items that a union will put there or near: what it reads anyway.
fn fill_up<A: Allocator>(store: &mut Vec<Item, A>, end: usize, items: &[Item])
    requires reserved { end ≤ vec_capacity store.old }
    requires enough { end ≤ length store.old.items + length items.now }
    ensures kept { take (length store.old.items) store.new.items ≡ store.old.items }
    ensures filled { length store.new.items ≡ max (length store.old.items) end }
    ensures reserved { vec_capacity store.old ≤ vec_capacity store.new }
{
    if end <= store.len() {
        return;
    }
    let Ok(()) = store.extend_from_slice(&items[..end - store.len()]) else {
        unreachable!();
    };
}

/// It prints as the list of its items.
impl<A: Allocator + Copy> fmt::Debug for HeapRun<A> {
    fn fmt<W: fmt::Write>(&self, f: &mut fmt::Formatter<W>) -> fmt::Result {
        f.debug_list().entries(self.as_slice()).finish()
    }
}

impl<A: Allocator + Copy> Run for HeapRun<A> {
    const ROOM: usize = MOST_SHARED;

    ghost ROOM = { heap_room };

    ghost items = { λ run. run.items };

    ghost capacity = { λ run. run.capacity };

    ghost may_reserve = { IsPowerFor };

    ghost is_fixed = { false };

    #[inline]
    fn len(&self) -> usize {
        self.span.len()
    }

    #[inline]
    fn capacity(&self) -> usize {
        self.places
    }

    #[inline]
    fn as_slice(&self) -> &[Item] {
        self.span.of(self.items.as_slice())
    }

    #[inline]
    fn item_at(&self, index: usize) -> Item {
        self.items.as_slice()[self.span.start + index]
    }

    #[inline]
    fn level(&self) -> usize {
        level_of(self.span.len())
    }

    #[inline]
    fn remove_at(&mut self, index: usize) -> Item {
        self.span.remove_at(self.items.as_mut_slice(), index)
    }

    #[inline]
    fn remove_first(&mut self, count: usize) {
        self.span.start += count;
    }

    fn unite(&mut self, other: &Self) {
        self.unite_items(other.as_slice());
    }

    // The stores change places.
    fn take_from(&mut self, other: &mut Self) {
        mem::swap(self, other);
        other.span = Span::first(0);
    }

    fn copy_for(&self, count: usize) -> Result<Self, RunError> {
        stored_for(self.allocator(), self.span.of(self.items.as_slice()), count)
    }
}
