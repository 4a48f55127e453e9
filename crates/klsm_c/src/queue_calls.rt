//! The calls of one member of a queue, for a caller that has the whole queue.
ghost use Rattle.std.specs.Prelude.{◌≡◌, ◌<◌};
ghost use Rattle.klsm_run.specs.declared.limits.TheConstants.{MOST_THREADS};
ghost use Rattle.klsm_c.specs.Calls.{BoundsBySlot, CallsSlot, DeletesAloneBySlot, DeletesBySlot, InsertsBySlot, LooksAt, RestsBySlot, SharesBySlot, deleted_in, inserted_in};

use crate::bounding::{PlainBound, klsm_try_bound};
use crate::calls::{klsm_deleted, klsm_front, klsm_inserted, klsm_try_delete_min, klsm_try_insert};
use crate::item::PlainItem;
use crate::queue::Queue;
use crate::resting::klsm_try_rest;
use crate::sharing::{klsm_try_delete_min_alone, klsm_try_share};

impl Queue {
    /// Inserts by the member of this number, as C does by a pointer to its slot. The members stay those of
    /// one board.
    pub fn try_insert(&mut self, number: usize, key: u64, load: u64) -> i32
        requires { number < MOST_THREADS }
        ensures { CallsSlot number self.old.slots self.new.slots
            (λ before after. InsertsBySlot before after key load result) }
    {
        klsm_try_insert(&mut self.slots[number], key, load)
    }

    /// Deletes a small item by the member of this number, as C does by a pointer to its slot. The members
    /// stay those of one board.
    pub fn try_delete_min(&mut self, number: usize, item: &mut PlainItem) -> i32
        requires { number < MOST_THREADS }
        ensures { CallsSlot number self.old.slots self.new.slots
            (λ before after. DeletesBySlot before after item.old item.new result) }
    {
        klsm_try_delete_min(&mut self.slots[number], item)
    }

    /// Deletes a small item by the member of this number, and no items move to its own part behind it, as C does by a
    /// pointer to its slot. The members stay those of one board.
    pub fn try_delete_min_alone(&mut self, number: usize, item: &mut PlainItem) -> i32
        requires { number < MOST_THREADS }
        ensures { CallsSlot number self.old.slots self.new.slots
            (λ before after. DeletesAloneBySlot before after item.old item.new result) }
    {
        klsm_try_delete_min_alone(&mut self.slots[number], item)
    }

    /// Moves all items of the own part of the member of this number to the part that all share, as C does by a pointer to
    /// its slot. The members stay those of one board.
    pub fn try_share(&mut self, number: usize, moved: &mut u64) -> i32
        requires { number < MOST_THREADS }
        ensures { CallsSlot number self.old.slots self.new.slots
            (λ before after. SharesBySlot before after moved.old moved.new result) }
    {
        klsm_try_share(&mut self.slots[number], moved)
    }

    /// Reads all parts at one moment by the member of this number, as C does by a pointer to its slot. The members stay
    /// those of one board.
    pub fn try_bound(&mut self, number: usize, bound: &mut PlainBound) -> i32
        requires { number < MOST_THREADS }
        ensures { CallsSlot number self.old.slots self.new.slots
            (λ before after. BoundsBySlot before after bound.old bound.new result) }
    {
        klsm_try_bound(&mut self.slots[number], bound)
    }

    /// Says that the member of this number has done with the item that it deleted last, as C does by a pointer to its
    /// slot. The members stay those of one board.
    pub fn try_rest(&mut self, number: usize) -> i32
        requires { number < MOST_THREADS }
        ensures { CallsSlot number self.old.slots self.new.slots
            (λ before after. RestsBySlot before after result) }
    {
        klsm_try_rest(&mut self.slots[number])
    }

    /// The front, as C asks for it by a pointer to this slot. The members stay those of one board.
    pub fn front(&mut self, number: usize) -> u64
        requires { number < MOST_THREADS }
        ensures { CallsSlot number self.old.slots self.new.slots
            (λ before after. LooksAt before after result) }
    {
        klsm_front(&mut self.slots[number])
    }

    /// How many insertions the member of this number has made, and 0 where it is not open.
    pub fn inserted(&mut self, number: usize) -> u64
        requires { number < MOST_THREADS }
        ensures { CallsSlot number self.old.slots self.new.slots
            (λ before after. (result ≡ inserted_in before) × (after ≡ before)) }
    {
        klsm_inserted(&mut self.slots[number])
    }

    /// How many items it has deleted, and 0 where it is not open.
    pub fn deleted(&mut self, number: usize) -> u64
        requires { number < MOST_THREADS }
        ensures { CallsSlot number self.old.slots self.new.slots
            (λ before after. (result ≡ deleted_in before) × (after ≡ before)) }
    {
        klsm_deleted(&mut self.slots[number])
    }
}
