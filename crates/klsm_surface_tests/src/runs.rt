//! Items and their order, runs in a fixed store, and runs on the heap.
ghost use Rattle.std.specs.Prelude.{◌≡◌, ◌+◌, ◌<◌, ◌≤◌, length};
ghost use Rattle.std.specs.List.{AllByRecursion};

use klsm_run::{FixedRun, HeapRun, Item, Run, RunError, Stamp};
use klsm_test_support::{has_keys, heap_run_of, item, merged, run_of};
use std::alloc::{Allocator, Global};

// The item of these fields.
fn item_of(key: u64, owner: u32, number: u64, load: u64) -> Item {
    let stamp = Stamp { owner, number };
    Item { key, stamp, load }
}

// Each is smaller than the next one. The key decides first, then the owner, the number and the load.
#[test]
fn items_are_ordered_field_by_field(rt: HostRuntime) {
    let least = item_of(1, 1, 1, 1);
    assert!(rt; least < item_of(1, 1, 1, 2) && item_of(1, 1, 1, 2) < item_of(1, 1, 2, 0));
    assert!(rt;
        item_of(1, 1, 2, 0) < item_of(1, 2, 0, 0) && item_of(1, 2, 0, 0) < item_of(2, 0, 0, 0)
    );
    assert!(rt; least == item_of(1, 1, 1, 1) && least != item_of(1, 1, 1, 2));
}

fn stamp_of(owner: u32, number: u64) -> Stamp {
    Stamp { owner, number }
}

#[test]
fn stamps_are_ordered_field_by_field(rt: HostRuntime) {
    assert!(rt; stamp_of(1, 2) < stamp_of(1, 3) && stamp_of(1, 3) < stamp_of(2, 0));
    assert!(rt; stamp_of(1, 2) == stamp_of(1, 2));
}

// The number of items of a run, its least key and its level. `None` if it has no item.
fn shown<R: Run>(run: &R) -> Option<(usize, u64, usize)> {
    if run.len() == 0 {
        return None;
    }
    Some((run.len(), run.item_at(0).key, run.level()))
}

// Whether a run of the first keys has this level.
fn has_level(keys: &[u64], count: usize, level: usize) -> bool {
    let first = keys.get(..count).unwrap_or(keys);
    first.len() <= 64 && shown(&run_of(0, first)) == Some((count, 1, level))
}

// A run of level l has at most 2^l items, and l is the least such level.
#[test]
fn levels_of_runs(rt: HostRuntime) {
    let keys = [1, 2, 3, 4, 5, 6, 7, 8, 9];
    for (count, level) in [(1, 0), (2, 1), (3, 2), (4, 2), (5, 3), (8, 3), (9, 4)] {
        assert!(rt; has_level(&keys, count, level));
    }
}

#[test]
fn stores_of_runs(rt: HostRuntime) {
    let empty: FixedRun<64> = FixedRun::empty();
    let single: FixedRun<64> = FixedRun::single(item(0, 0, 7));
    assert!(rt; empty.len() == 0 && shown(&empty) == None && empty.room() == 64);
    assert!(rt; shown(&single) == Some((1, 7, 0)) && single.room() == 64);
    assert!(rt; FixedRun::<64>::ROOM == 64 && HeapRun::<Global>::ROOM >= 1048576);
}

// The larger half of the items, rounded up, and the others.
#[test]
fn halves_of_a_run(rt: HostRuntime) {
    let five = run_of(0, &[5, 3, 1, 2, 4]);
    assert!(rt; has_keys(&five.upper_half(), &[3, 4, 5]));
    assert!(rt; has_keys(&five.lower_half(), &[1, 2]));
    assert!(rt; has_keys(&five, &[1, 2, 3, 4, 5]));
}

// The key of the item removed at an index, if there is one.
fn removed<R: Run>(run: &mut R, index: usize) -> Option<u64> {
    if index >= run.len() {
        return None;
    }
    Some(run.remove_at(index).key)
}

#[test]
fn an_item_is_removed_from_a_run(rt: HostRuntime) {
    let mut run = run_of(0, &[1, 2, 3]);
    assert!(rt; removed(&mut run, 1) == Some(2) && has_keys(&run, &[1, 3]));
    assert!(rt; run.room() == 64);
}

// Whether a copy on the heap of the fixed run 1, 3 has its items.
fn is_copied(alloc: Global) -> bool {
    match HeapRun::copy_of(alloc, &run_of(0, &[1, 3])) {
        Ok(copy) => has_keys(&copy, &[1, 3]) && copy.room() >= 2,
        Err(RunError::NoMemory) => false,
    }
}

#[test]
fn a_copy_has_the_items_of_its_run(rt: HostRuntime) {
    assert!(rt; is_copied(rt.alloc()));
}

// Whether the merge of two runs has room for a whole block of its level.
fn is_merged(alloc: Global) -> Option<bool> {
    let run = merged(alloc)?;
    Some(has_keys(&run, &[1, 2, 3]) && run.room() >= 4)
}

#[test]
fn a_merge_has_room_for_its_level(rt: HostRuntime) {
    assert!(rt; is_merged(rt.alloc()) == Some(true));
}

// Merges two runs to 1, 2 and 3, removes the least item, and unites the rest with a third run, of the item 4. Whether
// all of that happens in one store.
fn unites<R: Run>(one: &R, two: &R, three: &R) -> Option<bool>
    requires one { AllByRecursion (λ x. x.stamp.owner ≡ 0) (R.items one.now) }
    requires two { AllByRecursion (λ x. x.stamp.owner ≡ 1) (R.items two.now) }
    requires three { AllByRecursion (λ x. x.stamp.owner ≡ 2) (R.items three.now) }
    requires room { length (R.items one.now) + length (R.items two.now) ≤ R.ROOM }
{
    let mut run = one.merge(two).ok()?;
    let room = run.capacity();
    let merged = has_keys(&run, &[1, 2, 3]) && room >= 4;
    if run.len() == 0 || run.capacity() - run.len() < three.len() {
        return None;
    }
    let least = run.remove_at(0);
    run.unite(three);
    Some(merged && least.key == 1 && has_keys(&run, &[2, 3, 4]) && run.capacity() == room)
}

fn heap_runs_unite<A: Allocator + Copy>(alloc: A) -> Option<bool> {
    let one = heap_run_of(alloc, 0, &[1, 3])?;
    let two = heap_run_of(alloc, 1, &[2])?;
    let three = heap_run_of(alloc, 2, &[4])?;
    unites(&one, &two, &three)
}

fn fixed_runs_unite() -> Option<bool> {
    unites(&run_of(0, &[1, 3]), &run_of(1, &[2]), &run_of(2, &[4]))
}

#[test]
fn runs_unite_in_place(rt: HostRuntime) {
    assert!(rt; heap_runs_unite(rt.alloc()) == Some(true));
    assert!(rt; fixed_runs_unite() == Some(true));
}
