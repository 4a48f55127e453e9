//! Keys that are put into an own part of at most two items or flushed. Then deletions take the candidate of a picker,
//! the first of the caller's own items before it, or the least own item without a look at the shared part.
use super::pair::{Pair, pair_at};
use klsm_lsm::Lsm;
use klsm_parts::{First, Last, Shared};
use klsm_run::{FixedRun, HeapRun, Item, OWN_LEVELS};
use klsm_test_support::{has_blocks, item};
use std::alloc::Global;

// Keys that owner 0 inserts in turn.
const SEVEN: [u64; 7] = [5, 1, 4, 2, 3, 9, 8];

fn insert_all(pair: &mut Pair, keys: &[u64]) -> Option<()> {
    for (number, key) in keys.iter().enumerate() {
        pair.insert(item(0, number as u64, *key))?;
    }
    Some(())
}

// The keys of the own blocks and of the shared ones, the pivots, and the keys of the candidates.
#[derive(Clone, Copy)]
struct Shown {
    own: &'static [&'static [u64]],
    shared: &'static [&'static [u64]],
    pivots: &'static [usize],
    candidates: &'static [u64],
}

// Whether each block has this many candidates, also if they are counted anew.
fn has_pivots(shared: &Shared<21>, pivots: &[usize]) -> bool {
    if shared.blocks() != pivots.len() {
        return false;
    }
    for (block, pivot) in pivots.iter().enumerate() {
        if shared.pivot(block) != *pivot || shared.pivot_anew(block) != *pivot {
            return false;
        }
    }
    true
}

// Whether the candidates have these keys.
fn has_candidates(shared: &Shared<21>, keys: &[u64]) -> bool {
    if shared.candidates() != keys.len() {
        return false;
    }
    for (index, key) in keys.iter().enumerate() {
        if shared.candidate(index).key != *key {
            return false;
        }
    }
    true
}

fn shows(pair: &Pair, shown: Shown) -> Option<bool> {
    let shared = pair.shared.lsm(pair.alloc).ok()?;
    Some(
        has_blocks(pair.own.lsm(), shown.own)
            && has_blocks(&shared, shown.shared)
            && has_pivots(&pair.shared, shown.pivots)
            && has_candidates(&pair.shared, shown.candidates),
    )
}

const OF_SEVEN: Shown = Shown {
    own: &[&[8]],
    shared: &[&[1, 2, 4, 5], &[3, 9]],
    pivots: &[2, 1],
    candidates: &[1, 2, 3],
};

const WITHOUT_THREE: Shown = Shown {
    own: &[&[8]],
    shared: &[&[1, 2, 4, 5], &[9]],
    pivots: &[3, 0],
    candidates: &[1, 2, 4],
};

const WITHOUT_ONE: Shown = Shown {
    own: &[&[8]],
    shared: &[&[2, 4, 5], &[3, 9]],
    pivots: &[2, 1],
    candidates: &[2, 3, 4],
};

const WITHOUT_EIGHT: Shown = Shown {
    own: &[],
    shared: &[&[1, 2, 4, 5], &[3, 9]],
    pivots: &[2, 1],
    candidates: &[1, 2, 3],
};

// The parts after the seven insertions.
fn of_seven(alloc: Global) -> Option<Pair> {
    let mut pair = pair_at(alloc, 2);
    insert_all(&mut pair, &SEVEN)?;
    Some(pair)
}

fn has_seven(alloc: Global) -> Option<bool> {
    let pair = of_seven(alloc)?;
    Some(shows(&pair, OF_SEVEN)? && pair.shared.front() == 1)
}

// Whether an owner's deletion that picks the largest candidate takes the item with a key, and leaves these parts.
fn takes(alloc: Global, owner: u32, key: u64, left: Shown) -> Option<bool> {
    let mut pair = of_seven(alloc)?;
    let taken = pair.take(owner, &mut Last)??;
    Some(taken.key == key && shows(&pair, left)?)
}

fn takes_least(alloc: Global) -> Option<bool> {
    let mut pair = of_seven(alloc)?;
    let taken = pair.take_least()?;
    Some(taken.key == 8 && shows(&pair, WITHOUT_EIGHT)?)
}

#[test]
fn keys_are_put_or_flushed(rt: HostRuntime) {
    assert!(rt; has_seven(rt.alloc()) == Some(true));
}

#[test]
fn a_deletion_takes_the_picked_candidate_of_others(rt: HostRuntime) {
    assert!(rt; takes(rt.alloc(), 1, 3, WITHOUT_THREE) == Some(true));
}

#[test]
fn a_deletion_takes_the_first_of_the_callers_own_items(rt: HostRuntime) {
    assert!(rt; takes(rt.alloc(), 0, 1, WITHOUT_ONE) == Some(true));
}

#[test]
fn the_least_own_item_is_taken_without_the_shared_part(rt: HostRuntime) {
    assert!(rt; takes_least(rt.alloc()) == Some(true));
}

// Each part reports its k, the number of its items and the least item.
fn reports_of_seven(alloc: Global) -> Option<bool> {
    let pair = of_seven(alloc)?;
    let own = (pair.own.k(), pair.own.len(), pair.own.least());
    let shared = (pair.shared.k(), pair.shared.len(), pair.shared.least());
    Some(own == (2, 1, Some(item(0, 6, 8))) && shared == (2, 6, Some(item(0, 1, 1))))
}

#[test]
fn parts_report_their_items(rt: HostRuntime) {
    assert!(rt; reports_of_seven(rt.alloc()) == Some(true));
}

// A deletion finds nothing, and the front is the largest number.
fn finds_nothing(alloc: Global) -> Option<bool> {
    let mut pair = pair_at(alloc, 2);
    let answer: Option<Item> = pair.take(0, &mut First)?;
    Some(answer == None && pair.shared.front() == u64::MAX && pair.shared.candidates() == 0)
}

#[test]
fn empty_parts_have_nothing(rt: HostRuntime) {
    assert!(rt; finds_nothing(rt.alloc()) == Some(true));
}

fn have_blocks(alloc: Global) -> Option<bool> {
    let pair = of_seven(alloc)?;
    let own: &Lsm<FixedRun<64>, OWN_LEVELS> = pair.own.lsm();
    let shared: Lsm<HeapRun, 21> = pair.shared.lsm(alloc).ok()?;
    Some(own.blocks() == 1 && shared.blocks() == 2)
}

#[test]
fn parts_show_their_blocks(rt: HostRuntime) {
    assert!(rt; have_blocks(rt.alloc()) == Some(true));
}
