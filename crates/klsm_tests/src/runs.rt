//! Runs on the heap: what a copy's store has places for, and the one growth of a copy or a merge
//! refused.
ghost use Rattle.std.specs.Prelude.{◌≡◌, ◌+◌, ◌<◌, ◌≤◌, length};

use klsm_run::{HeapRun, Run};
use klsm_test_support::{Rationed, has_keys, merged, run_of};
use std::alloc::{Allocator, Global};

// The capacity and the level of a run. `None` where it has other keys than these, or none.
fn shape_of<R: Run>(run: &R, keys: &[u64]) -> Option<(usize, usize)> {
    if run.is_empty() || !has_keys(run, keys) {
        return None;
    }
    Some((run.capacity(), run.level()))
}

// The shape of a copy.
fn copied<A: Allocator + Copy>(alloc: A, keys: &[u64]) -> Option<(usize, usize)>
    requires { length keys.now ≤ 64 }
{
    shape_of(&HeapRun::copy_of(alloc, &run_of(0, keys)).ok()?, keys)
}

// The shape of a copy with room for 9.
fn copied_for_nine<A: Allocator + Copy>(alloc: A, keys: &[u64]) -> Option<(usize, usize)>
    requires { length keys.now ≤ 9 }
{
    shape_of(
        &HeapRun::copy_of_for(alloc, &run_of(0, keys), 9).ok()?,
        keys,
    )
}

// The shape of the merge of two runs.
fn merged_shape<A: Allocator + Copy>(alloc: A) -> Option<(usize, usize)> {
    shape_of(&merged(alloc)?, &[1, 2, 3])
}

// Whether copies of these keys are refused without a growth, and have this level with one, and this
// capacity or room for 9.
fn are_copied(heap: &Rationed<Global>, keys: &[u64], capacity: usize, level: usize) -> bool
    requires { length keys.now ≤ 9 }
{
    heap.allow(0);
    let are_refused = copied(heap, keys).is_none() && copied_for_nine(heap, keys).is_none();
    heap.allow(1);
    let is_copied = copied(heap, keys) == Some((capacity, level));
    heap.allow(1);
    are_refused && is_copied && copied_for_nine(heap, keys) == Some((16, level))
}

#[test]
fn copies_and_merges(rt: HostRuntime) {
    let heap = Rationed::new(rt.alloc());
    let keys = [1, 2, 3, 4, 5];
    for (count, capacity, level) in [(1, 1, 0), (2, 2, 1), (3, 4, 2), (4, 4, 2), (5, 8, 3)] {
        assert!(rt; are_copied(&heap, &keys[..count], capacity, level));
    }
    // Each of the two runs takes a growth, and their merge takes one.
    heap.allow(2);
    assert!(rt; merged_shape(&heap).is_none());
    heap.allow(3);
    assert!(rt; merged_shape(&heap) == Some((4, 2)));
}
