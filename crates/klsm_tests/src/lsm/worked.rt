//! Worked examples: each call with the blocks that it leaves, over runs on the heap, and removals over
//! fixed runs too. Own parts have those of insertions into fixed runs and of spies.
use klsm_lsm::{Cascade, Lsm};
use klsm_run::{FixedRun, HeapRun, Run};
use klsm_test_support::{FixedGrown, Grown, How, Rationed, RationedGrown, has_blocks, has_keys};
use std::alloc::Global;

// Runs, and the blocks of the LSM that takes them in turn: a run goes between others, or becomes
// one with the block of its level, and that with the next one.
const ADDED: &[(&[&[u64]], &[&[u64]])] = &[
    (&[&[3, 1, 2], &[9], &[5, 4]], &[&[1, 2, 3], &[4, 5], &[9]]),
    (&[&[6, 2], &[4, 1]], &[&[1, 2, 4, 6]]),
    (
        &[&[5, 6, 7, 8], &[2, 9], &[4], &[3]],
        &[&[2, 3, 4, 5, 6, 7, 8, 9]],
    ),
];

// Whether an LSM of each row has these blocks.
fn are_added<'a>(
    heap: &'a Rationed<Global>,
    grown: &mut RationedGrown<'a>,
    how: How,
) -> Option<bool> {
    for (runs, blocks) in ADDED {
        grown.refill(heap, how, runs)?;
        if !grown.has(blocks) {
            return Some(false);
        }
    }
    Some(true)
}

/// Runs, a block and an index, the key of the item there, and the blocks without it.
type Removal = (
    &'static [&'static [u64]],
    usize,
    usize,
    u64,
    &'static [&'static [u64]],
);

// A block stays at its level; it falls to one that no other has; it goes with its only item.
const REMOVED: &[Removal] = &[
    (&[&[1, 2, 3, 7], &[4, 5]], 0, 3, 7, &[&[1, 2, 3], &[4, 5]]),
    (&[&[1, 2, 3], &[4]], 0, 1, 2, &[&[1, 3], &[4]]),
    (&[&[1, 2, 3], &[4]], 1, 0, 4, &[&[1, 2, 3]]),
];

// Whether a row's item leaves so.
fn is_removed<R: Run, const LEVELS: usize>(
    grown: &mut Grown<R, LEVELS>,
    (_, block, index, key, left): &Removal,
) -> Option<bool> {
    let item = grown.remove(*block, *index)?;
    Some(item.key == *key && has_blocks(&grown.lsm, left))
}

// Whether each row's item does, over runs on the heap.
fn are_removed<'a>(heap: &'a Rationed<Global>, grown: &mut RationedGrown<'a>) -> Option<bool> {
    for row in REMOVED {
        grown.refill(heap, How::Run, row.0)?;
        if !is_removed(grown, row)? {
            return Some(false);
        }
    }
    Some(true)
}

// The same over fixed runs.
fn are_removed_from_fixed(grown: &mut FixedGrown) -> Option<bool> {
    for row in REMOVED {
        grown.refill_fixed(row.0)?;
        if !is_removed(grown, row)? {
            return Some(false);
        }
    }
    Some(true)
}

// Whether an LSM without blocks tells that a run of the first two levels stays as it is.
fn foretells_nothing<R: Run, const LEVELS: usize>(lsm: &Lsm<R, LEVELS>) -> bool {
    let none = Cascade { first: 0, count: 0 };
    lsm.blocks() == 0 && lsm.cascade(0) == none && lsm.cascade(1) == none
}

// Runs, the number of their items, the least key, and its block.
const LEAST: &[(&[&[u64]], usize, Option<u64>, Option<usize>)] = &[
    (&[], 0, None, None),
    (&[&[6, 5, 7], &[9, 1], &[8]], 6, Some(1), Some(1)),
    (&[&[6, 5, 7], &[9, 8], &[4]], 6, Some(4), Some(2)),
];

// Whether an LSM has so many items, this least key, and it in this block.
fn shows<R: Run, const LEVELS: usize>(
    lsm: &Lsm<R, LEVELS>,
    len: usize,
    least: Option<u64>,
    block: Option<usize>,
) -> bool {
    let key = match lsm.least() {
        Some(item) => Some(item.key),
        None => None,
    };
    lsm.len() == len && lsm.is_empty() == (len == 0) && key == least && lsm.least_block() == block
}

// Whether the LSM of each row does.
fn are_shown<'a>(heap: &'a Rationed<Global>, grown: &mut RationedGrown<'a>) -> Option<bool> {
    for (runs, len, least, block) in LEAST {
        grown.refill(heap, How::Run, runs)?;
        if !shows(&grown.lsm, *len, *least, *block) {
            return Some(false);
        }
    }
    Some(true)
}

// Whether the largest block has these keys, and these blocks stay.
fn gives_largest<R: Run, const LEVELS: usize>(
    lsm: &mut Lsm<R, LEVELS>,
    keys: &[u64],
    left: &[&[u64]],
) -> bool {
    let Some(run) = lsm.take_largest() else {
        return false;
    };
    has_keys(&run, keys) && has_blocks(lsm, left)
}

// Whether these blocks stay where the largest is discarded.
fn discards_largest<R: Run, const LEVELS: usize>(
    lsm: &mut Lsm<R, LEVELS>,
    left: &[&[u64]],
) -> bool {
    if lsm.blocks() == 0 {
        return false;
    }
    lsm.discard_largest();
    has_blocks(lsm, left)
}

// Whether an LSM that takes these runs and is cut loses its blocks, largest first.
fn loses_blocks<R: Run, const LEVELS: usize>(lsm: &mut Lsm<R, LEVELS>) -> bool {
    gives_largest(lsm, &[1, 2, 3], &[&[4, 5], &[6]])
        && discards_largest(lsm, &[&[6]])
        && gives_largest(lsm, &[6], &[])
        && lsm.take_largest().is_none()
}

// Whether all rows are right.
fn are_right<'a>(heap: &'a Rationed<Global>, grown: &mut RationedGrown<'a>) -> Option<bool> {
    Some(
        are_added(heap, grown, How::Run)?
            && are_added(heap, grown, How::Copy)?
            && are_removed(heap, grown)?
            && are_shown(heap, grown)?,
    )
}

#[test]
fn blocks_of_each_call(rt: HostRuntime) {
    let heap = Rationed::new(rt.alloc());
    let mut grown: RationedGrown = Grown::new();
    assert!(rt; are_right(&heap, &mut grown) == Some(true));
}

#[test]
fn removals_from_fixed_runs(rt: HostRuntime) {
    let mut grown: FixedGrown = Grown::new();
    assert!(rt; are_removed_from_fixed(&mut grown) == Some(true));
}

// The same of an LSM of three blocks that loses them.
fn are_lost(heap: &Rationed<Global>) -> Option<bool> {
    let mut grown: RationedGrown = Grown::new();
    grown.refill(heap, How::Run, &[&[1, 2, 3], &[4, 5], &[6]])?;
    let mut lsm = grown.lsm;
    Some(loses_blocks(&mut lsm))
}

#[test]
fn largest_blocks(rt: HostRuntime) {
    let heap = Rationed::new(rt.alloc());
    assert!(rt; are_lost(&heap) == Some(true));
}

#[test]
fn an_lsm_without_blocks_foretells_nothing(rt: HostRuntime) {
    let lsm: Lsm<FixedRun<64>, 4> = Lsm::new();
    assert!(rt; foretells_nothing(&lsm));
}

// The lesser of what one run can hold and of one block of the greatest level.
#[test]
fn limits(rt: HostRuntime) {
    let small = Lsm::<FixedRun<64>, 3>::new().limit();
    let fixed = Lsm::<FixedRun<64>, 8>::new().limit();
    let on_heap = Lsm::<HeapRun, 21>::new().limit();
    assert!(rt; (small, fixed, on_heap) == (4, 64, 1048576));
}
