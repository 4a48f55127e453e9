//! What is measured: the queue for one thread, and a binary heap of the same items.

use klsm_parts::Queue;
use klsm_run::{Item, Stamp};
use std::alloc::Global;
use std::cmp::Reverse;
use std::collections::BinaryHeap;

/// The greatest k that is measured, which the queue's own part has places for.
pub(crate) const GREATEST_K: usize = 128;

/// A priority queue, as one thread uses it.
pub(crate) trait Contender {
    /// Puts an item in. `None` where there is no memory or no room.
    fn insert(&mut self, key: u64, load: u64) -> Option<()>;

    /// Takes an item out, if there is one.
    fn delete(&mut self) -> Option<Item>;
}

/// A binary heap. A deletion gives the least item.
#[derive(Drop)]
pub(crate) struct Heap {
    heap: BinaryHeap<Reverse<Item>>,
    inserted: u64,
}

impl Heap {
    /// The heap with no item.
    pub(crate) fn new(alloc: Global) -> Self {
        Heap {
            heap: BinaryHeap::new(alloc),
            inserted: 0,
        }
    }
}

impl Contender for Heap {
    #[inline]
    fn insert(&mut self, key: u64, load: u64) -> Option<()> {
        let stamp = Stamp {
            owner: 0,
            number: self.inserted,
        };
        self.inserted = self.inserted.wrapping_add(1);
        self.heap.push(Reverse(Item { key, stamp, load })).ok()
    }

    #[inline]
    fn delete(&mut self) -> Option<Item> {
        let Reverse(item) = self.heap.pop()?;
        Some(item)
    }
}

impl Contender for Queue<GREATEST_K, 21> {
    fn insert(&mut self, key: u64, load: u64) -> Option<()> {
        Queue::insert(self, key, load).ok()?;
        Some(())
    }

    fn delete(&mut self) -> Option<Item> {
        self.delete_min()
    }
}
