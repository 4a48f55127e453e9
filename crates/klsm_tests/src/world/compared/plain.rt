//! The plain world: the definitions over one list of items, as slow as they read. It calls nothing
//! of the code under test.

use klsm_run::{Item, Stamp};
use klsm_schedules::{Event, Step};
use klsm_world::StepError;
use std::alloc::Global;

/// A live item, and the part that it is in.
#[derive(Clone, Copy)]
struct Placed {
    part: u32,
    item: Item,
}

/// The live items, who holds each part, and what was inserted and deleted.
#[derive(Drop)]
pub(super) struct Plain {
    pub threads: u32,
    pub k: usize,
    // Ascending.
    placed: Vec<Placed>,
    holders: Vec<Option<u32>>,
    // For each thread the key of the item that it works at, or the greatest number.
    work: Vec<u64>,
    pub inserted: Vec<Item>,
    pub deleted: Vec<Item>,
    // How many of them by the front.
    pub early: usize,
    // How often the key of an item was marked, and seen.
    pub marked: usize,
    pub seen: usize,
    // How often items moved from the shared part to an own one, and back.
    pub refilled: usize,
    pub given: usize,
    pub most: usize,
}

impl Plain {
    /// All parts are empty and free.
    pub(super) fn new(alloc: Global, threads: u32, k: usize) -> Option<Self> {
        let parts = threads.saturating_add(1) as usize;
        Some(Plain {
            threads,
            k,
            placed: Vec::new(alloc),
            holders: Vec::from_elem(alloc, None, parts).ok()?,
            work: Vec::from_elem(alloc, u64::MAX, threads as usize).ok()?,
            inserted: Vec::new(alloc),
            deleted: Vec::new(alloc),
            early: 0,
            marked: 0,
            seen: 0,
            refilled: 0,
            given: 0,
            most: 0,
        })
    }

    /// Whether these are the live items, ascending.
    pub(super) fn shows(&self, items: &[Item]) -> bool {
        for (placed, item) in self.placed.iter().zip(items) {
            if placed.item != *item {
                return false;
            }
        }
        items.len() == self.placed.len()
    }

    // Whether items ascend and are all in a part.
    fn has_all(&self, part: u32, items: &[Item]) -> bool {
        for item in items {
            if !self.has(part, *item) {
                return false;
            }
        }
        ascends(items)
    }

    // Whether an item is in a part.
    fn has(&self, part: u32, item: Item) -> bool {
        for placed in &self.placed {
            if placed.part == part && placed.item == item {
                return true;
            }
        }
        false
    }

    // How many live items are smaller than an item.
    fn rank(&self, item: Item) -> usize {
        let mut rank: usize = 0;
        for placed in &self.placed {
            if placed.item < item {
                rank = rank.saturating_add(1);
            }
        }
        rank
    }

    /// How many items a part has.
    pub(super) fn count(&self, part: u32) -> usize {
        let mut count: usize = 0;
        for placed in &self.placed {
            if placed.part == part {
                count = count.saturating_add(1);
            }
        }
        count
    }

    /// The item of a part at an index.
    pub(super) fn nth(&self, part: u32, index: usize) -> Option<Item> {
        let mut left = index;
        for placed in &self.placed {
            if placed.part == part {
                if left == 0 {
                    return Some(placed.item);
                }
                left = left.saturating_sub(1);
            }
        }
        None
    }

    /// Who holds a part.
    pub(super) fn holder(&self, part: u32) -> Option<u32> {
        match self.holders.get(part as usize) {
            Some(holder) => *holder,
            None => None,
        }
    }

    /// The key of the item that a thread works at, and the greatest number where it works at none.
    pub(super) fn work(&self, thread: u32) -> u64 {
        match self.work.get(thread as usize) {
            Some(key) => *key,
            None => u64::MAX,
        }
    }

    fn set_work(&mut self, thread: u32, key: u64) {
        if let Some(work) = self.work.get_mut(thread as usize) {
            *work = key;
        }
    }

    /// The stamp of a thread's next insertion.
    pub(super) fn next_stamp(&self, thread: u32) -> Stamp {
        let mut number: u64 = 0;
        for item in &self.inserted {
            if item.stamp.owner == thread {
                number = number.saturating_add(1);
            }
        }
        Stamp {
            owner: thread,
            number,
        }
    }

    /// Why a step is refused, where it is.
    pub(super) fn refusal(&self, step: &Step) -> Option<StepError> {
        match step {
            Step::Acquire { thread, part } => self.refusal_of_acquire(*thread, *part),
            Step::Release { thread, part } => self.refusal_of_release(*thread, *part),
            Step::Miss { thread, part } => self.refusal_of_miss(*thread, *part),
            Step::Look { thread } => self.refusal_of_look(*thread),
            Step::Mark { thread, key } => self.refusal_of_mark(*thread, *key),
            Step::See { thread, of } => self.refusal_of_see(*thread, *of),
            Step::Commit { thread, event } => self.refusal_of_event(*thread, event),
        }
    }

    // Whether a thread or a part is not there.
    fn lacks(&self, thread: u32, part: u32) -> bool {
        thread >= self.threads || part > self.threads
    }

    fn refusal_of_acquire(&self, thread: u32, part: u32) -> Option<StepError> {
        if self.lacks(thread, part) {
            return Some(StepError::NoSuchPart);
        }
        match self.holder(part) {
            Some(by) => Some(StepError::Held(by)),
            None => None,
        }
    }

    fn refusal_of_release(&self, thread: u32, part: u32) -> Option<StepError> {
        if self.lacks(thread, part) {
            return Some(StepError::NoSuchPart);
        }
        match self.holder(part) {
            Some(by) if by == thread => None,
            _ => Some(StepError::NotHeld),
        }
    }

    fn refusal_of_miss(&self, thread: u32, part: u32) -> Option<StepError> {
        if self.lacks(thread, part) {
            return Some(StepError::NoSuchPart);
        }
        match self.holder(part) {
            Some(by) if by != thread => None,
            _ => Some(StepError::WrongEvent),
        }
    }

    fn refusal_of_look(&self, thread: u32) -> Option<StepError> {
        if self.lacks(thread, 0) {
            return Some(StepError::NoSuchPart);
        }
        None
    }

    fn refusal_of_mark(&self, thread: u32, key: u64) -> Option<StepError> {
        if self.lacks(thread, 0) {
            return Some(StepError::NoSuchPart);
        }
        if self.holder(own(thread)) != Some(thread) {
            return Some(StepError::NotHeld);
        }
        if key == self.work(thread) || key == u64::MAX {
            None
        } else {
            Some(StepError::WrongEvent)
        }
    }

    fn refusal_of_see(&self, thread: u32, of: u32) -> Option<StepError> {
        if self.lacks(thread, 0) || self.lacks(of, 0) {
            return Some(StepError::NoSuchPart);
        }
        match self.holder(own(of)) {
            Some(by) if by == thread => None,
            _ => Some(StepError::NotHeld),
        }
    }

    fn refusal_of_event(&self, thread: u32, event: &Event) -> Option<StepError> {
        let other = other_part(thread, event);
        if self.lacks(thread, other) {
            return Some(StepError::NoSuchPart);
        }
        if self.holder(own(thread)) != Some(thread) || self.holder(other) != Some(thread) {
            return Some(StepError::NotHeld);
        }
        if self.may(thread, event) {
            None
        } else {
            Some(StepError::WrongEvent)
        }
    }

    // Whether an event may happen.
    fn may(&self, thread: u32, event: &Event) -> bool {
        let part = own(thread);
        match event {
            Event::Put(item) => item.stamp == self.next_stamp(thread) && self.count(part) < self.k,
            Event::Flush { item, moved } => {
                item.stamp == self.next_stamp(thread)
                    && self.may_flush(part, *item, moved.as_slice())
            }
            Event::Take(item) => {
                self.may_take(part, *item) && self.keeps_order(thread, part, *item)
            }
            Event::Early { item, front } => {
                self.nth(part, 0) == Some(*item) && item.key < *front && *front == self.front()
            }
            Event::Nothing => self.count(part) == 0 && self.count(0) == 0,
            Event::Spy { victim, moved } => {
                self.count(part) == 0
                    && !moved.as_slice().is_empty()
                    && self.has_all(own(*victim), moved.as_slice())
            }
            Event::Refill { moved } => self.may_refill(part, moved.as_slice()),
            Event::Share { moved } => {
                !moved.as_slice().is_empty() && self.has_all(part, moved.as_slice())
            }
            Event::Steal { victim, moved } => {
                !moved.as_slice().is_empty()
                    && self.has_all(own(*victim), moved.as_slice())
                    && self.count(part).saturating_add(moved.as_slice().len()) <= self.k
            }
        }
    }

    // Whether items of the part and the item may leave it, and leave at most k.
    fn may_flush(&self, part: u32, item: Item, moved: &[Item]) -> bool {
        for one in moved {
            if *one != item && !self.has(part, *one) {
                return false;
            }
        }
        ascends(moved) && self.count(part) < self.k.saturating_add(moved.len())
    }

    // Whether shared items may move to the part, and leave at most k in it.
    fn may_refill(&self, part: u32, moved: &[Item]) -> bool {
        !moved.is_empty()
            && self.has_all(0, moved)
            && self.count(part).saturating_add(moved.len()) <= self.k
    }

    // Some candidate gives the item as the lesser of it and the least own item.
    fn may_take(&self, part: u32, item: Item) -> bool {
        let least = self.nth(part, 0);
        for index in 0..self.count(0).min(self.k.saturating_add(1)) {
            if let Some(candidate) = self.nth(0, index)
                && lesser(candidate, least) == item
            {
                return true;
            }
        }
        self.count(0) == 0 && least == Some(item)
    }

    // No item of the part and the shared one that the thread inserted is smaller.
    fn keeps_order(&self, thread: u32, part: u32, item: Item) -> bool {
        for placed in &self.placed {
            if (placed.part == part || placed.part == 0)
                && placed.item.stamp.owner == thread
                && placed.item < item
            {
                return false;
            }
        }
        true
    }

    /// The key of the least item of the shared part, and the greatest number where it is empty.
    pub(super) fn front(&self) -> u64 {
        match self.nth(0, 0) {
            Some(item) => item.key,
            None => u64::MAX,
        }
    }

    /// Takes a step that is not refused.
    pub(super) fn take_step(&mut self, step: &Step) -> Option<()> {
        match step {
            Step::Acquire { thread, part } => self.set_holder(*part, Some(*thread)),
            Step::Release { thread: _, part } => self.set_holder(*part, None),
            Step::Miss { .. } | Step::Look { .. } => {}
            Step::Mark { thread, key } => self.mark(*thread, *key),
            Step::See { thread: _, of } => self.see(*of),
            Step::Commit { thread, event } => self.take_event(*thread, event)?,
        }
        Some(())
    }

    fn mark(&mut self, thread: u32, key: u64) {
        if key < u64::MAX {
            self.marked = self.marked.saturating_add(1);
        }
        self.set_work(thread, key);
    }

    fn see(&mut self, of: u32) {
        if self.work(of) < u64::MAX {
            self.seen = self.seen.saturating_add(1);
        }
    }

    fn set_holder(&mut self, part: u32, by: Option<u32>) {
        if let Some(holder) = self.holders.get_mut(part as usize) {
            *holder = by;
        }
    }

    fn take_event(&mut self, thread: u32, event: &Event) -> Option<()> {
        match event {
            Event::Put(item) => self.insert(own(thread), *item)?,
            Event::Flush { item, moved } => {
                self.insert(own(thread), *item)?;
                self.move_all(0, moved.as_slice());
            }
            Event::Take(item) => self.delete(thread, *item)?,
            Event::Early { item, front: _ } => {
                self.early = self.early.saturating_add(1);
                self.delete(thread, *item)?;
            }
            Event::Nothing => self.set_work(thread, u64::MAX),
            Event::Spy { victim: _, moved } | Event::Steal { victim: _, moved } => {
                self.move_all(own(thread), moved.as_slice());
            }
            Event::Refill { moved } => {
                self.refilled = self.refilled.saturating_add(1);
                self.move_all(own(thread), moved.as_slice());
            }
            Event::Share { moved } => {
                self.given = self.given.saturating_add(1);
                self.move_all(0, moved.as_slice());
            }
        }
        Some(())
    }

    fn insert(&mut self, part: u32, item: Item) -> Option<()> {
        self.inserted.push(item).ok()?;
        let at = self.rank(item).min(self.placed.len());
        self.placed.insert(at, Placed { part, item }).ok()
    }

    fn delete(&mut self, thread: u32, item: Item) -> Option<()> {
        self.set_work(thread, item.key);
        self.most = self.most.max(self.rank(item));
        self.placed.retain(|placed| placed.item != item);
        self.deleted.push(item).ok()
    }

    // Moves live items to a part.
    fn move_all(&mut self, part: u32, items: &[Item]) {
        for placed in self.placed.iter_mut() {
            if items.contains(&placed.item) {
                placed.part = part;
            }
        }
    }
}

// A thread's own part.
fn own(thread: u32) -> u32 {
    thread.saturating_add(1)
}

// The part that an event needs beside the thread's own one, or that one. That of a spy on the
// thread itself, or of a steal from it, is not there.
fn other_part(thread: u32, event: &Event) -> u32 {
    match event {
        Event::Spy { victim, moved: _ } if *victim == thread => u32::MAX,
        Event::Steal { victim, moved: _ } if *victim == thread => u32::MAX,
        Event::Spy { victim, moved: _ } | Event::Steal { victim, moved: _ } => own(*victim),
        Event::Put(_) | Event::Early { .. } => own(thread),
        _ => 0,
    }
}

// The lesser of an item and another, where there is one.
fn lesser(item: Item, other: Option<Item>) -> Item {
    match other {
        Some(other) if other < item => other,
        _ => item,
    }
}

// Whether each item is smaller than the next.
fn ascends(items: &[Item]) -> bool {
    let mut last = None;
    for item in items {
        if last >= Some(*item) {
            return false;
        }
        last = Some(*item);
    }
    true
}
