//! Items by their names, and runs of one owner's items.
ghost use Rattle.std.specs.Prelude.{◌≡◌, ◌<◌, ◌≤◌, length, IfSome, IsTrue};
ghost use Rattle.std.specs.List.{AllByRecursion};

use klsm_lsm::Lsm;
use klsm_run::{FixedRun, HeapRun, Item, Run, Stamp};
use std::alloc::Allocator;

/// The key, the owner and the number of an item.
pub type Name = (u64, u32, u64);

/// An owner's item with a key, inserted after `number` others. Its load is 0.
pub fn item(owner: u32, number: u64, key: u64) -> Item
    ensures owner { result.stamp.owner ≡ owner }
    ensures number { result.stamp.number ≡ number }
{
    Item {
        key,
        stamp: Stamp { owner, number },
        load: 0,
    }
}

/// The item of a name. Its load is 0.
pub fn named((key, owner, number): Name) -> Item {
    item(owner, number, key)
}

/// Whether items have these names, and the load 0.
pub fn are_named(items: &[Item], names: &[Name]) -> bool {
    for (found, name) in items.iter().zip(names) {
        if *found != named(*name) {
            return false;
        }
    }
    items.len() == names.len()
}

/// The run of an owner's items with these keys, inserted in this order.
pub fn run_of(owner: u32, keys: &[u64]) -> FixedRun<64>
    requires { length keys.now ≤ 64 }
    ensures len { length result ≡ length keys.now }
    ensures owner { AllByRecursion (λ x. x.stamp.owner ≡ owner) result }
{
    let mut run = FixedRun::empty();
    for index in 0..keys.len() {
        run.insert(item(owner, index as u64, keys[index]));
    }
    run
}

/// The same run on the heap.
pub fn heap_run_of<A: Allocator + Copy>(alloc: A, owner: u32, keys: &[u64]) -> Option<HeapRun<A>>
    requires { length keys.now ≤ 64 }
    ensures len { IfSome result (λ run. length run.items ≡ length keys.now) }
    ensures owner { IfSome result (λ run.
        AllByRecursion (λ x. x.stamp.owner ≡ owner) run.items) }
{
    let Ok(run) = HeapRun::copy_of(alloc, &run_of(owner, keys)) else {
        return None;
    };
    Some(run)
}

/// The merge of the items 1 and 3 with the item 2. `None` if memory is refused.
pub fn merged<A: Allocator + Copy>(alloc: A) -> Option<HeapRun<A>> {
    let run = heap_run_of(alloc, 0, &[1, 3])?;
    let other = heap_run_of(alloc, 1, &[2])?;
    run.merge(&other).ok()
}

/// Whether a run can have so many keys.
pub fn are_keys(keys: &[u64]) -> bool
    ensures some { IsTrue result → 0 < length keys.now }
    ensures few { IsTrue result → length keys.now ≤ 64 }
{
    !keys.is_empty() && keys.len() <= 64
}

/// Whether items have these keys.
pub fn are_of(items: &[Item], keys: &[u64]) -> bool {
    for (item, key) in items.iter().zip(keys) {
        if item.key != *key {
            return false;
        }
    }
    items.len() == keys.len()
}

/// Whether a run has these keys, read one by one and as a list.
pub fn has_keys<R: Run>(run: &R, keys: &[u64]) -> bool {
    if run.len() != keys.len() {
        return false;
    }
    for (index, key) in keys.iter().enumerate() {
        if run.item_at(index).key != *key {
            return false;
        }
    }
    are_of(run.as_slice(), keys)
}

/// Whether the blocks of an LSM have these keys.
pub fn has_blocks<R: Run, const LEVELS: usize>(lsm: &Lsm<R, LEVELS>, blocks: &[&[u64]]) -> bool {
    if lsm.blocks() != blocks.len() {
        return false;
    }
    for (index, keys) in blocks.iter().enumerate() {
        if !has_keys(lsm.block(index), keys) {
            return false;
        }
    }
    true
}
