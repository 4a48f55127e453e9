//! The things of an instance, and the bounds of its nodes.

use klsm_knapsack::Instance;
use std::alloc::Global;

/// Four things, of which 1 and 2 are a best selection.
pub(super) const FOUR_THINGS: &[u8] = b"capacity,10\n60,5\n50,4\n70,6\n30,3\n";

/// The instance of the four things.
pub(super) fn of_four(alloc: Global) -> Option<Instance> {
    Instance::read(alloc, FOUR_THINGS).ok()
}

// The value and the weight of each thing.
const THINGS: [(u64, u64); 4] = [(60, 5), (50, 4), (70, 6), (30, 3)];

// Whether an instance has these things.
fn has_things(instance: &Instance, things: &[(u64, u64)]) -> bool {
    if instance.len() != things.len() {
        return false;
    }
    for (index, (value, weight)) in things.iter().enumerate() {
        if instance.value(index) != *value || instance.weight(index) != *weight {
            return false;
        }
    }
    true
}

fn reports_things(alloc: Global) -> Option<bool> {
    let instance = of_four(alloc)?;
    Some(instance.capacity() == 10 && has_things(&instance, &THINGS))
}

#[test]
fn an_instance_reports_its_things(rt: HostRuntime) {
    assert!(rt; reports_things(rt.alloc()) == Some(true));
}

// The bound of a node, if it is one.
fn bound_of(instance: &Instance, level: usize, picks: u64) -> Option<u64> {
    if level <= instance.len()
        && picks >> level == 0
        && instance.totals(picks).weight <= instance.capacity()
    {
        Some(instance.bound(level, picks))
    } else {
        None
    }
}

// The level and the picks of a node, and its bound. The last node has no thing left, so its bound is the value that it
// takes.
const BOUNDS: [(usize, u64, u64); 4] = [(0, 0, 125), (1, 1, 122), (2, 3, 121), (4, 3, 110)];

fn has_bounds(alloc: Global) -> Option<bool> {
    let instance = of_four(alloc)?;
    for (level, picks, bound) in BOUNDS {
        if bound_of(&instance, level, picks) != Some(bound) {
            return Some(false);
        }
    }
    Some(true)
}

#[test]
fn bounds_of_nodes(rt: HostRuntime) {
    assert!(rt; has_bounds(rt.alloc()) == Some(true));
}
