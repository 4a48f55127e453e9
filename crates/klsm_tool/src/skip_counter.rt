//! A counter of skips: the live items of a priority queue, apart from the queue.
ghost use Rattle.std.specs.Prelude.{◌≡◌, ◌<◌, ◌^◌, ◌∷◌, [], false, IsTrue, OnOk, position};
ghost use Rattle.klsm_run.specs.ItemOrder.{is_same};
ghost use Rattle.klsm_run.specs.Content.{sorted, skipped, without};

use klsm_run::Item;
use std::alloc::{AllocError, Global};
use std::collections::BTreeSet;

/// The live items of a priority queue, by which the skips of its deletions are counted.
///
/// They ascend, so that a deletion goes over those alone that it skips.
#[derive(Drop)]
pub(crate) struct SkipCounter {
    ascending: BTreeSet<Item, Global>,
    // Items that the set did not take: it had no memory for them, or has them already.
    apart: Vec<Item>,
}

impl SkipCounter {
    ghost use Rattle.klsm_tool.specs.SkipCounters.{live_content, HasRoomForOne};

    /// No items.
    pub(crate) fn new(alloc: Global) -> Self
        ensures { live_content result ≡ [] }
    {
        SkipCounter {
            ascending: BTreeSet::new(alloc),
            apart: Vec::new(alloc),
        }
    }

    /// Reserves room for one more item.
    pub(crate) fn reserve(&mut self) -> Result<(), AllocError>
        ensures content { live_content self.new ≡ live_content self.old }
        ensures room { OnOk result (HasRoomForOne self.new) }
    {
        self.apart.reserve(1)
    }

    /// Adds an item, for which room was reserved.
    pub(crate) fn insert(&mut self, item: Item)
        requires { HasRoomForOne self.old }
        ensures { sorted (live_content self.new) ≡ sorted (item ∷ live_content self.old) }
    {
        if !adds(&mut self.ascending, item) {
            self.apart.push_reserved(item);
        }
    }

    /// Takes an item out, where it is there, and answers how many items are smaller. It goes over
    /// these, and takes no memory. Mostly there are none.
    pub(crate) fn remove(&mut self, item: Item) -> usize
        ensures skip { result ≡ skipped (live_content self.old) item }
        ensures content { sorted (live_content self.new)
            ≡ without item (sorted (live_content self.old)) }
    {
        if self.takes_least(item) {
            return 0;
        }
        self.remove_anywhere(item)
    }

    // Takes an item out, where it is the least of all, and answers whether it was.
    fn takes_least(&mut self, item: Item) -> bool
        ensures skip { IsTrue result → skipped (live_content self.old) item ≡ 0 }
        ensures taken { IsTrue result → sorted (live_content self.new)
            ≡ without item (sorted (live_content self.old)) }
        ensures left { result ≡ false → live_content self.new ≡ live_content self.old }
    {
        if !self.apart.is_empty() {
            return false;
        }
        takes_first(&mut self.ascending, item)
    }

    // Takes any item out, where it is there, and answers how many are smaller.
    fn remove_anywhere(&mut self, item: Item) -> usize
        ensures skip { result ≡ skipped (live_content self.old) item }
        ensures content { sorted (live_content self.new)
            ≡ without item (sorted (live_content self.old)) }
    {
        let skip = smaller_in(&self.ascending, item) + count_smaller(&self.apart, item);
        if !self.ascending.remove(&item) {
            take_first(&mut self.apart, item);
        }
        skip
    }
}

// Adds an item to a set, and answers whether it could.
fn adds(items: &mut BTreeSet<Item, Global>, item: Item) -> bool
    ensures added { IsTrue result → sorted items.new.keys ≡ sorted (item ∷ items.old.keys) }
    ensures refused { result ≡ false → items.new.keys ≡ items.old.keys }
{
    match items.insert(item) {
        Ok(is_new) => is_new,
        Err(_) => false,
    }
}

// Takes an item out of a set, where it is the least there, and answers whether it was.
fn takes_first(items: &mut BTreeSet<Item, Global>, item: Item) -> bool
    ensures taken { IsTrue result → items.old.keys ≡ item ∷ items.new.keys }
    ensures least { IsTrue result → skipped items.old.keys item ≡ 0 }
    ensures left { result ≡ false → items.new.keys ≡ items.old.keys }
{
    if items.first() != Some(&item) {
        return false;
    }
    items.pop_first().is_some()
}

// How many items of a set are smaller than one.
fn smaller_in(items: &BTreeSet<Item, Global>, item: Item) -> usize
    ensures skipped { result ≡ skipped items.now.keys item }
    ensures small { result < 2 ^ 63 }
{
    items.iter().take_while(|other| **other < item).count()
}

// How many items are smaller than one.
fn count_smaller(items: &[Item], item: Item) -> usize
    ensures skipped { result ≡ skipped items.now item }
    ensures small { result < 2 ^ 63 }
{
    items.iter().filter(|other| **other < item).count()
}

// Takes an item out, where it is there. The order of the others does not matter.
fn take_first(items: &mut Vec<Item>, item: Item)
    ensures { sorted items.new.items ≡ sorted (without item items.old.items) }
{
    if let Some(at) = position_of(items, item) {
        items.swap_remove(at);
    }
}

// Where an item is first.
fn position_of(items: &[Item], item: Item) -> Option<usize>
    ensures { result ≡ position (λ other. is_same item other) items.now }
{
    items.iter().position(|other| *other == item)
}
