//! Own parts of as many items as any may have, and refills as great.

use klsm_board::SizesError;
use klsm_run::MOST_K;
use klsm_test_support::WideCrew;
use rand_core::{Rng, SeedableRng};
use rand_pcg::Pcg32;
use std::alloc::Global;

// The key of the least shared item after a member of a new board inserted so many, the greatest keys first.
fn front_after(alloc: Global, k: usize, count: u64) -> Option<u64> {
    let mut crew = WideCrew::new(alloc, 1, k, 0).ok()?;
    for number in 0..count {
        crew.try_insert(0, count - number, number)?.ok()?;
    }
    crew.front(0)
}

#[test]
fn an_own_part_keeps_k_items(rt: HostRuntime) {
    assert!(rt; front_after(rt.alloc(), MOST_K, 1024) == Some(u64::MAX));
    assert!(rt; front_after(rt.alloc(), MOST_K, 1025) != Some(u64::MAX));
    assert!(rt; front_after(rt.alloc(), 1000, 1000) == Some(u64::MAX));
    assert!(rt; front_after(rt.alloc(), 1000, 1001) != Some(u64::MAX));
}

#[test]
fn none_is_greater(rt: HostRuntime) {
    let greater = WideCrew::new(rt.alloc(), 1, MOST_K + 1, 0);
    assert!(rt; greater.err() == Some(SizesError::BadK));
    let refilled = WideCrew::new(rt.alloc(), 1, MOST_K, MOST_K + 1);
    assert!(rt; refilled.err() == Some(SizesError::BadRefill));
}

// Whether one member gets its items back in order, though they move between the parts.
fn are_in_order(alloc: Global, k: usize, refill: usize, count: u64) -> Option<bool> {
    let mut crew = WideCrew::new(alloc, 1, k, refill).ok()?;
    let mut keys = Pcg32::seed_from_u64(count);
    for number in 0..count {
        crew.try_insert(0, u64::from(keys.next_u32()), number)?
            .ok()?;
    }
    let mut last = 0;
    for _ in 0..count {
        let item = crew.try_delete_min(0)?.ok()??;
        if item.key < last {
            return Some(false);
        }
        last = item.key;
    }
    Some(crew.try_delete_min(0)?.ok()?.is_none())
}

#[test]
fn one_member_deletes_in_order(rt: HostRuntime) {
    assert!(rt; are_in_order(rt.alloc(), MOST_K, 0, 5000) == Some(true));
    assert!(rt; are_in_order(rt.alloc(), MOST_K, 1, 5000) == Some(true));
    assert!(rt; are_in_order(rt.alloc(), MOST_K, MOST_K, 5000) == Some(true));
    assert!(rt; are_in_order(rt.alloc(), 256, 64, 5000) == Some(true));
}

// Whether one member of two deletes all items that the other inserted, and then finds none.
fn are_found_by_another(alloc: Global, k: usize, refill: usize, count: u64) -> Option<bool> {
    let mut crew = WideCrew::new(alloc, 2, k, refill).ok()?;
    for number in 0..count {
        crew.try_insert(0, number.wrapping_mul(7) % 1009, number)?
            .ok()?;
    }
    for _ in 0..count {
        let _item = crew.try_delete_min(1)?.ok()??;
    }
    Some(crew.try_delete_min(1)?.ok()?.is_none())
}

#[test]
fn another_member_finds_all(rt: HostRuntime) {
    assert!(rt; are_found_by_another(rt.alloc(), MOST_K, 0, 1024) == Some(true));
    assert!(rt; are_found_by_another(rt.alloc(), MOST_K, MOST_K, 5000) == Some(true));
}
