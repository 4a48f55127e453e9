//! A queue for one thread and the plain program, which take the same steps.
ghost use Rattle.std.specs.Prelude.{◌≤◌};

use super::plain::{Plain, marked};
use klsm_lsm::Lsm;
use klsm_parts::{Local, Queue, Shared};
use klsm_run::{Item, Run, Stamp};
use klsm_test_support::Rationed;
use std::alloc::Global;

/// A queue of own parts of at most 64 items, whose growths are rationed.
pub(super) type RationedQueue<'a> = Queue<64, 21, &'a Rationed<Global>>;

/// A shared part whose growths are rationed.
pub(super) type RationedShared<'a> = Shared<21, &'a Rationed<Global>>;

/// Both, and what they allocate by.
#[derive(Drop)]
pub(super) struct Both<'a> {
    pub heap: &'a Rationed<Global>,
    pub queue: RationedQueue<'a>,
    pub plain: Plain,
}

/// The item of a key, inserted after `number` others.
pub(super) fn item(key: u64, number: u64) -> Item {
    Item {
        key,
        stamp: Stamp { owner: 0, number },
        load: 0,
    }
}

/// Both at this k, with no item.
pub(super) fn both_at<'a>(alloc: Global, heap: &'a Rationed<Global>, k: usize) -> Both<'a>
    requires { k ≤ 64 }
{
    Both {
        heap,
        queue: Queue::new(heap, k),
        plain: Plain::new(alloc, k),
    }
}

/// Inserts the item of a key into both. `None` where they then differ.
pub(super) fn insert(both: &mut Both, key: u64) -> Option<()> {
    let item = item(key, both.queue.inserted());
    both.plain.insert(item).ok()?;
    let answer = both.queue.insert(key, 0);
    if answer != Ok(item) || !are_same(&both.queue, &both.plain)? {
        return None;
    }
    Some(())
}

/// Inserts the items of these keys in turn.
pub(super) fn insert_all(both: &mut Both, keys: &[u64]) -> Option<()> {
    for key in keys {
        insert(both, *key)?;
    }
    Some(())
}

/// Deletes the least item from both, if there is one. `None` where they then differ.
pub(super) fn delete(both: &mut Both) -> Option<Option<Item>> {
    let want = both.plain.delete_least().ok()?;
    let least = both.queue.least();
    let answer = both.queue.delete_min();
    if least != want || answer != want || !are_same(&both.queue, &both.plain)? {
        return None;
    }
    Some(answer)
}

/// Whether both show the same blocks, pivots and candidates.
pub(super) fn are_same(queue: &RationedQueue, plain: &Plain) -> Option<bool> {
    show_same(queue.own(), queue.shared(), plain)
}

/// Whether an own part and a shared one show the blocks of the plain one, its pivots and candidates.
pub(super) fn show_same(own: &Local<64>, shared: &RationedShared, plain: &Plain) -> Option<bool> {
    let candidates = plain.candidates().ok()?;
    let lsm = shared.lsm(*plain.shared.allocator()).ok()?;
    Some(
        has_blocks(own.lsm(), plain.own.as_slice())
            && has_blocks(&lsm, plain.shared.as_slice())
            && has_shared(shared, plain.shared.as_slice(), candidates.as_slice()),
    )
}

fn has_shared(shared: &RationedShared, blocks: &[Vec<Item>], candidates: &[Item]) -> bool {
    has_pivots(shared, blocks, candidates)
        && has_candidates(shared, candidates)
        && has_least(shared, candidates.first().copied())
}

// Whether this is the least item, if there is one, and its key the front.
fn has_least(shared: &RationedShared, least: Option<Item>) -> bool {
    let front = match least {
        Some(item) => item.key,
        None => u64::MAX,
    };
    shared.least() == least && shared.front() == front
}

fn has_blocks<R: Run, const LEVELS: usize>(lsm: &Lsm<R, LEVELS>, blocks: &[Vec<Item>]) -> bool {
    if lsm.blocks() != blocks.len() {
        return false;
    }
    for (index, block) in blocks.iter().enumerate() {
        if lsm.block(index).as_slice() != block.as_slice() {
            return false;
        }
    }
    true
}

// Whether each pivot marks the block's candidates.
fn has_pivots(shared: &RationedShared, blocks: &[Vec<Item>], candidates: &[Item]) -> bool {
    if shared.blocks() != blocks.len() {
        return false;
    }
    for (index, block) in blocks.iter().enumerate() {
        let want = marked(block.as_slice(), candidates);
        if shared.pivot(index) != want {
            return false;
        }
    }
    true
}

fn has_candidates(shared: &RationedShared, candidates: &[Item]) -> bool {
    if shared.candidates() != candidates.len() {
        return false;
    }
    for (index, candidate) in candidates.iter().enumerate() {
        if shared.candidate(index) != *candidate {
            return false;
        }
    }
    true
}
