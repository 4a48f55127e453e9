//! Blocks of equal levels that merge, items and blocks that are removed, and predictions of both.

use klsm_lsm::{Cascade, Lsm, LsmError};
use klsm_run::{FixedRun, Run};
use klsm_test_support::{FixedGrown, Grown, HeapGrown, has_blocks, has_keys};
use std::alloc::Global;

// Inserts the keys 1 to 7 one by one, and then the key 8, which merges all blocks to one of level 3.
fn merges_all_blocks(grown: &mut FixedGrown) -> Option<bool> {
    grown.insert_all(&[1, 2, 3, 4, 5, 6, 7])?;
    let seven = has_blocks(&grown.lsm, &[&[1, 2, 3, 4], &[5, 6], &[7]]);
    grown.insert_all(&[8])?;
    let eight = has_blocks(&grown.lsm, &[&[1, 2, 3, 4, 5, 6, 7, 8]]);
    Some(seven && eight && has_levels(&grown.lsm, &[3]))
}

// Whether the blocks have these levels.
fn has_levels<R: Run, const LEVELS: usize>(lsm: &Lsm<R, LEVELS>, levels: &[usize]) -> bool {
    if lsm.blocks() != levels.len() {
        return false;
    }
    for (index, level) in levels.iter().enumerate() {
        if lsm.block(index).level() != *level {
            return false;
        }
    }
    true
}

#[test]
fn keys_inserted_one_by_one(rt: HostRuntime) {
    let mut grown: FixedGrown = Grown::new();
    assert!(rt; merges_all_blocks(&mut grown) == Some(true));
}

// An LSM that absorbed the run 1, 2, 3 and the run 4, 5.
fn fixed_of_two() -> Option<FixedGrown> {
    let mut grown: FixedGrown = Grown::new();
    grown.absorb_keys(&[1, 2, 3])?.ok()?;
    grown.absorb_keys(&[4, 5])?.ok()?;
    Some(grown)
}

// The same over runs on the heap.
fn on_heap_of_two(alloc: Global) -> Option<HeapGrown> {
    let mut grown: HeapGrown = Grown::new();
    grown.absorb_keys_of(alloc, &[1, 2, 3])?.ok()?;
    grown.absorb_keys_of(alloc, &[4, 5])?.ok()?;
    Some(grown)
}

// Whether the least item is removed, and what is left of its block merges with the next block.
fn merges_at_a_removal<R: Run, const LEVELS: usize>(grown: &mut Grown<R, LEVELS>) -> Option<bool> {
    let two = has_levels(&grown.lsm, &[2, 1]);
    let item = grown.remove(0, 0)?;
    let one = has_blocks(&grown.lsm, &[&[2, 3, 4, 5]]) && has_levels(&grown.lsm, &[2]);
    Some(two && item.key == 1 && one)
}

fn fixed_runs_merge() -> Option<bool> {
    let mut grown = fixed_of_two()?;
    merges_at_a_removal(&mut grown)
}

fn heap_runs_merge(alloc: Global) -> Option<bool> {
    let mut grown = on_heap_of_two(alloc)?;
    merges_at_a_removal(&mut grown)
}

#[test]
fn two_blocks_merge_when_an_item_is_removed(rt: HostRuntime) {
    assert!(rt; fixed_runs_merge() == Some(true));
    assert!(rt; heap_runs_merge(rt.alloc()) == Some(true));
}

// For each level, the first block that a run of that level merges with, and the number of blocks that it merges with.
const CASCADES: [(usize, usize); 4] = [(2, 0), (0, 2), (0, 1), (0, 0)];

// Whether an LSM with a block of level 2 and one of level 1 predicts what merges.
fn predicts_merges<R: Run, const LEVELS: usize>(lsm: &Lsm<R, LEVELS>) -> bool {
    for (level, (first, count)) in CASCADES.iter().enumerate() {
        let cascade = lsm.cascade(level);
        let want = Cascade {
            first: *first,
            count: *count,
        };
        if cascade != want {
            return false;
        }
    }
    lsm.blocks() == 2 && lsm.partner(0) == Some(1) && lsm.partner(1) == None
}

fn fixed_runs_predict() -> Option<bool> {
    let grown = fixed_of_two()?;
    Some(predicts_merges(&grown.lsm))
}

fn heap_runs_predict(alloc: Global) -> Option<bool> {
    let grown = on_heap_of_two(alloc)?;
    Some(predicts_merges(&grown.lsm))
}

#[test]
fn merges_are_predicted(rt: HostRuntime) {
    assert!(rt; fixed_runs_predict() == Some(true));
    assert!(rt; heap_runs_predict(rt.alloc()) == Some(true));
}

// The number of items of an LSM, and the least key, if there is an item.
fn shown<R: Run, const LEVELS: usize>(lsm: &Lsm<R, LEVELS>) -> (usize, Option<u64>) {
    let key = match lsm.least() {
        Some(item) => Some(item.key),
        None => None,
    };
    (lsm.len(), key)
}

#[test]
fn a_new_lsm_has_no_item(rt: HostRuntime) {
    let lsm: Lsm<FixedRun<64>, 8> = Lsm::new();
    assert!(rt; shown(&lsm) == (0, None) && lsm.blocks() == 0 && lsm.limit() == 64);
}

// Whether the largest block has these keys and is taken out, and these blocks are left.
fn takes_largest(lsm: &mut Lsm<FixedRun<64>, 8>, keys: &[u64], left: &[&[u64]]) -> bool {
    match lsm.take_largest() {
        Some(run) => has_keys(&run, keys) && has_blocks(lsm, left),
        None => false,
    }
}

// Takes the largest of two blocks, and then the only one.
fn loses_its_blocks(lsm: &mut Lsm<FixedRun<64>, 8>) -> bool {
    shown(lsm) == (5, Some(1))
        && takes_largest(lsm, &[1, 2, 3], &[&[4, 5]])
        && shown(lsm) == (2, Some(4))
        && takes_largest(lsm, &[4, 5], &[])
        && lsm.take_largest().is_none()
}

// Whether a spy takes these keys, and these blocks are left.
fn is_split(lsm: &mut Lsm<FixedRun<64>, 8>, keys: &[u64], left: &[&[u64]]) -> bool {
    match lsm.split_for_spy() {
        Some(run) => has_keys(&run, keys) && has_blocks(lsm, left),
        None => false,
    }
}

// A spy takes the largest of two blocks, and then half of the only one, rounded up.
fn is_split_for_spies(lsm: &mut Lsm<FixedRun<64>, 8>) -> bool {
    is_split(lsm, &[1, 2, 3], &[&[4, 5]])
        && is_split(lsm, &[5], &[&[4]])
        && is_split(lsm, &[4], &[])
        && lsm.split_for_spy().is_none()
}

fn all_are_taken() -> Option<bool> {
    let grown = fixed_of_two()?;
    let mut lsm = grown.lsm;
    Some(loses_its_blocks(&mut lsm))
}

fn all_are_split() -> Option<bool> {
    let grown = fixed_of_two()?;
    let mut lsm = grown.lsm;
    Some(is_split_for_spies(&mut lsm))
}

#[test]
fn blocks_are_taken_out(rt: HostRuntime) {
    assert!(rt; all_are_taken() == Some(true));
    assert!(rt; all_are_split() == Some(true));
}

// As many keys as the LSM has room for.
const SIXTY_FOUR: [u64; 64] = [
    1, 2, 3, 4, 5, 6, 7, 8, 9, 10, 11, 12, 13, 14, 15, 16, 17, 18, 19, 20, 21, 22, 23, 24, 25, 26,
    27, 28, 29, 30, 31, 32, 33, 34, 35, 36, 37, 38, 39, 40, 41, 42, 43, 44, 45, 46, 47, 48, 49, 50,
    51, 52, 53, 54, 55, 56, 57, 58, 59, 60, 61, 62, 63, 64,
];

// Whether a full LSM refuses a run and an item, returns the run, and does not change.
fn stays_full(grown: &mut FixedGrown) -> Option<bool> {
    grown.absorb_keys(&SIXTY_FOUR)?.ok()?;
    let run = grown.absorb_keys(&[65, 66])?;
    let item = grown.insert(65)?;
    let full = Err(LsmError::Full);
    Some(run == full && item == full && has_blocks(&grown.lsm, &[&SIXTY_FOUR]))
}

#[test]
fn a_full_lsm_returns_a_refused_run(rt: HostRuntime) {
    let mut grown: FixedGrown = Grown::new();
    assert!(rt; stays_full(&mut grown) == Some(true));
}
