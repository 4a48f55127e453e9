//! Allocations that are refused. An insertion that is refused for that is made again, and uses the same number.
//! Deletions take no memory. With ample memory no allocation is refused. A run in which one allocation after the other
//! fails refuses each of them.

use klsm_board::{MakeError, TryInsertError};
use klsm_parts::First;
use klsm_run::Stamp;
use klsm_test_support::{Crew, loaded};
use std::alloc::Global;

// A board of one member with k = 0. If an allocation is refused, it is made again.
fn board_of_one(alloc: Global) -> Option<Crew<21>> {
    match Crew::new(alloc, 1, 0, 100) {
        Err(MakeError::NoMemory) => Crew::new(alloc, 1, 0, 100).ok(),
        made => made.ok(),
    }
}

// The result of an insertion whose load is one more than its number.
fn insert(crew: &mut Crew<21>, key: u64, number: u64) -> Option<Result<Stamp, TryInsertError>> {
    crew.try_insert(0, key, number.saturating_add(1))
}

// Whether a key is inserted with this number, at the second try if an allocation is refused.
fn inserts(crew: &mut Crew<21>, key: u64, number: u64) -> Option<bool> {
    let want = Ok(Stamp { owner: 0, number });
    match insert(crew, key, number)? {
        Err(TryInsertError::NoMemory) => {
            Some(crew.counts(0)? == (number, 0) && insert(crew, key, number)? == want)
        }
        answer => Some(answer == want),
    }
}

// Whether the keys are inserted in their order.
fn all_inserted(crew: &mut Crew<21>, keys: &[u64]) -> Option<bool> {
    for (number, key) in keys.iter().enumerate() {
        if !inserts(crew, *key, number as u64)? {
            return Some(false);
        }
    }
    Some(true)
}

// Whether they are deleted in the same order, and then nothing is left.
fn all_deleted(crew: &mut Crew<21>, keys: &[u64]) -> Option<bool> {
    for (number, key) in keys.iter().enumerate() {
        let want = loaded((*key, 0, number as u64));
        if crew.deleted(0, &mut First)? != want {
            return Some(false);
        }
    }
    Some(crew.try_delete_min(0, &mut First)? == Ok(None))
}

fn goes_through(alloc: Global) -> Option<bool> {
    let keys = [1, 2, 3, 4, 5];
    let mut crew = board_of_one(alloc)?;
    Some(all_inserted(&mut crew, &keys)? && all_deleted(&mut crew, &keys)?)
}

#[test]
fn deletions_take_no_memory(rt: HostRuntime) {
    assert!(rt; goes_through(rt.alloc()) == Some(true));
}
