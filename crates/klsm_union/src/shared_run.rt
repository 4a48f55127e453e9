//! A run that several owners read, less its first items.
ghost use Rattle.std.specs.Prelude.{◌≡◌, ◌≤◌, length, drop, slice_get, IfOk, IfErr};
ghost use Rattle.klsm_run.specs.Capacity.{heap_room};
ghost use Rattle.klsm_run.specs.Content.{IsAscending};

use klsm_run::{HeapRun, Item, Run};
use std::alloc::{AllocError, Allocator};
use std::marker::Model;
use std::sync::Arc;

/// A run on the heap that its owners share. Items leave for one owner alone.
#[derive(Drop)]
pub struct SharedRun<A: Allocator + Copy> {
    run: Arc<HeapRun<A>, A>,
    // Where the items begin that have not left, and how many they are.
    start: usize,
    len: usize,
}

impl<A: Allocator + Copy> Model for SharedRun<A> {
    ghost use Rattle.std.specs.Prelude.{List, drop};
    ghost use Rattle.klsm_run.specs.declared.item.Item.{Item};
    ghost use Rattle.klsm_union.specs.SharedRuns.{IsSharedRun};

    ghost Value = { List Item };

    ghost view = { λ shared. drop shared.start shared.run.value.items };

    ghost invariant = { λ shared. IsSharedRun shared.start shared.len shared.run.value.items };
}

impl<A: Allocator + Copy> SharedRun<A> {
    /// A run of its own as one that can be shared. If memory is refused, the run comes back.
    pub fn new(alloc: A, run: HeapRun<A>) -> Result<Self, HeapRun<A>>
        ensures items { IfOk result (λ shared. shared ≡ run.items) }
        ensures back { IfErr result (λ back. back ≡ run) }
    {
        match Arc::new(alloc, run) {
            Ok(run) => Ok(SharedRun::starting_at(run, 0)),
            Err(refused) => Err(refused.value),
        }
    }

    /// The items of a run from place `start` on.
    pub(crate) fn starting_at(run: Arc<HeapRun<A>, A>, start: usize) -> Self
        requires { start ≤ length run.value.items }
        ensures { result ≡ drop start run.value.items }
    {
        let len = run.len() - start;
        SharedRun { run, start, len }
    }

    /// Another owner of the same items.
    pub(crate) fn try_clone(&self) -> Result<Self, AllocError>
        ensures items { IfOk result (λ other. other ≡ self.now) }
        ensures ascending { IsAscending self.now }
    {
        Ok(SharedRun {
            run: Arc::try_clone(&self.run)?,
            start: self.start,
            len: self.len,
        })
    }

    /// What the run takes memory from.
    pub(crate) fn allocator(&self) -> A {
        self.run.allocator()
    }

    /// The number of items.
    #[inline]
    pub fn len(&self) -> usize
        ensures len { result ≡ length self.now }
        ensures room { length self.now ≤ heap_room }
    {
        self.len
    }

    /// The items, the least first.
    #[inline]
    pub fn as_slice(&self) -> &[Item]
        ensures items { result.now ≡ self.now }
        ensures ascending { IsAscending self.now }
    {
        &self.run.as_slice()[self.start..]
    }

    /// The least item, if there is one.
    #[inline]
    pub fn first(&self) -> Option<Item>
        ensures first { result ≡ slice_get self.now 0 }
        ensures ascending { IsAscending self.now }
    {
        if self.len == 0 {
            return None;
        }
        Some(self.run.item_at(self.start))
    }

    /// The least items leave, so many of them. No item moves.
    #[inline]
    pub fn remove_first(&mut self, count: usize)
        requires { count ≤ length self.old }
        ensures { self.new ≡ drop count self.old }
    {
        self.start += count;
        self.len -= count;
    }
}
