//! How items and blocks leave an LSM. No call takes memory.
ghost use Rattle.std.specs.Prelude.{◌≡◌, ◌+◌, ◌<◌, ◌≤◌, ◌↔◌, [], length, drop, slice_get, slice_index_or, Some, IsTrue};
ghost use Rattle.std.specs.Option.{option_map};
ghost use Rattle.klsm_lsm.specs.Adding.{cut, cut_items};
ghost use Rattle.klsm_lsm.specs.Places.{JoinsNext};

use crate::Lsm;
use crate::slots::{close_gap, remove_in_slot, remove_in_slot_and_unite};
use klsm_run::{Item, Run};

impl<R: Run, const LEVELS: usize> Lsm<R, LEVELS> {
    /// Takes item `index` of block `block` out, as `remove_items` does.
    pub fn remove(&mut self, block: usize, index: usize) -> Item
        requires block { block < length self.old }
        requires index { index < length (slice_index_or self.old block []) }
        ensures item { slice_get (slice_index_or self.old block []) index ≡ Some result }
        ensures rest { self.new ≡ cut self.old block index }
    {
        let item = self.block(block).item_at(index);
        let _joins = self.remove_items(block, index, 1);
        item
    }

    /// Takes `count` items of block `block` out, from place `from` on: one item, or the first ones. It
    /// answers whether what is left became one with the next block: where that is of no lesser level.
    /// No item moves but of these two, and the blocks behind a block that is no more move by one slot.
    #[inline]
    pub fn remove_items(&mut self, block: usize, from: usize, count: usize) -> bool
        requires block { block < length self.old }
        requires within { from + count ≤ length (slice_index_or self.old block []) }
        requires one { 0 < from → count ≡ 1 }
        ensures joins { IsTrue result ↔ JoinsNext self.old block count }
        ensures rest { self.new ≡ cut_items self.old block from count }
    {
        if self.joins_next(block, count) {
            self.remove_and_join(block, from, count);
            true
        } else {
            self.remove_alone(block, from, count);
            false
        }
    }

    // Takes items out of a block that becomes one with the next.
    fn remove_and_join(&mut self, block: usize, from: usize, count: usize)
        requires joins { JoinsNext self.old block count }
        requires within { from + count ≤ length (slice_index_or self.old block []) }
        requires one { 0 < from → count ≡ 1 }
        ensures { self.new ≡ cut_items self.old block from count }
    {
        self.len -= count;
        let slots = self.slots.as_mut_slice();
        remove_in_slot_and_unite(slots, block, from, count);
        close_gap(slots, block + 1, self.count);
        self.count -= 1;
    }

    // Takes items out of another block, which goes with all of them.
    #[inline]
    fn remove_alone(&mut self, block: usize, from: usize, count: usize)
        requires block { block < length self.old }
        requires within { from + count ≤ length (slice_index_or self.old block []) }
        requires one { 0 < from → count ≡ 1 }
        requires alone { ¬ JoinsNext self.old block count }
        ensures { self.new ≡ cut_items self.old block from count }
    {
        let len = self.block(block).len();
        self.len -= count;
        let slots = self.slots.as_mut_slice();
        remove_in_slot(slots, block, from, count);
        if len == count {
            close_gap(slots, block, self.count);
            self.count -= 1;
        }
    }

    /// Takes the block of the greatest level out, if there is one, with its store.
    pub fn take_largest(&mut self) -> Option<R>
        ensures block { option_map R.items result ≡ slice_get self.old 0 }
        ensures rest { self.new ≡ drop 1 self.old }
    {
        if self.count == 0 {
            return None;
        }
        let largest = self.slots.remove(0);
        let Some(run) = &largest else {
            unreachable!();
        };
        self.len -= run.len();
        self.count -= 1;
        largest
    }

    /// Takes the block of the greatest level away. Its store stays.
    pub fn discard_largest(&mut self)
        requires { 0 < length self.old }
        ensures { self.new ≡ drop 1 self.old }
    {
        self.len -= self.block(0).len();
        close_gap(self.slots.as_mut_slice(), 0, self.count);
        self.count -= 1;
    }

    /// Takes all blocks away. Their stores stay.
    pub fn clear(&mut self)
        ensures { self.new ≡ [] }
    {
        self.count = 0;
        self.len = 0;
    }
}
