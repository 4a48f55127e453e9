//! Schedules of two threads, with at most one item in an own part: the trace of a run, and the world after the same
//! steps one by one.

use super::steps::{Row, steps_of, world_after};
use klsm_test_support::{Name, are_named, named};
use klsm_world::{Items, Trace, World, WorldError, run};
use std::alloc::Global;

pub(super) const THREE: Name = (3, 1, 0);

/// Thread 1 inserts 3 and is done, and thread 0 acquires its own part and the shared one and finds nothing.
pub(super) const EMPTIED: &[Row] = &[
    Row::Acquire(1, 2),
    Row::Put(1, THREE),
    Row::Release(1, 2),
    Row::Acquire(0, 1),
    Row::Acquire(0, 0),
    Row::Nothing(0),
];

/// Thread 1 flushes 3 and 2, which both are candidates, and keeps 9. Thread 0 keeps 1 in a part that it holds. Thread 1
/// deletes the smaller of its own two shared items.
pub(super) const IN_OWN_ORDER: &[Row] = &[
    Row::Acquire(1, 2),
    Row::Acquire(1, 0),
    Row::Put(1, THREE),
    Row::Flush(1, (2, 1, 1), THREE),
    Row::Flush(1, (9, 1, 2), (2, 1, 1)),
    Row::Release(1, 2),
    Row::Release(1, 0),
    Row::Acquire(0, 1),
    Row::Put(0, (1, 0, 0)),
    Row::Acquire(1, 2),
    Row::Acquire(1, 0),
    Row::Take(1, (2, 1, 1)),
];

/// Thread 1 deletes its own item by the front of the empty shared part, which thread 0 holds.
pub(super) const EARLY: &[Row] = &[
    Row::Acquire(1, 2),
    Row::Put(1, THREE),
    Row::Acquire(0, 1),
    Row::Acquire(0, 0),
    Row::Early(1, THREE, u64::MAX),
];

/// There thread 0 inserts two items instead, of which 2 moves to the shared part.
pub(super) const TWO_AT_THE_FRONT: &[Row] = &[
    Row::Acquire(1, 2),
    Row::Put(1, THREE),
    Row::Acquire(0, 1),
    Row::Acquire(0, 0),
    Row::Put(0, (2, 0, 0)),
    Row::Flush(0, (5, 0, 1), (2, 0, 0)),
];

/// Thread 1 keeps 1 in a part that it holds. Thread 0 has 3 in the shared part, and deletes 2 by the front with its own
/// part alone.
pub(super) const EARLY_SKIPPING: &[Row] = &[
    Row::Acquire(1, 2),
    Row::Put(1, (1, 1, 0)),
    Row::Acquire(0, 1),
    Row::Acquire(0, 0),
    Row::Put(0, (3, 0, 0)),
    Row::Flush(0, (2, 0, 1), (3, 0, 0)),
    Row::Release(0, 0),
    Row::Early(0, (2, 0, 1), 3),
];

// Thread 0 fills the shared part, and keeps an item in a part that it holds. Thread 1 tries that part in vain, and a
// deletion skips both smaller items, none of which is its own.
const SKIPPING: &[Row] = &[
    Row::Acquire(0, 1),
    Row::Acquire(0, 0),
    Row::Put(0, (3, 0, 0)),
    Row::Flush(0, (2, 0, 1), (3, 0, 0)),
    Row::Flush(0, (1, 0, 2), (2, 0, 1)),
    Row::Release(0, 0),
    Row::Miss(1, 1),
    Row::Acquire(1, 2),
    Row::Acquire(1, 0),
    Row::Take(1, (3, 0, 0)),
];

// After thread 0 has found nothing, thread 1 tries the part of thread 0 in vain.
const MISSED: &[Row] = &[
    Row::Acquire(1, 2),
    Row::Put(1, THREE),
    Row::Release(1, 2),
    Row::Acquire(0, 1),
    Row::Acquire(0, 0),
    Row::Nothing(0),
    Row::Miss(1, 1),
];

// Thread 0, whose part is empty, spies the item of thread 1.
const SPIED: &[Row] = &[
    Row::Acquire(1, 2),
    Row::Put(1, THREE),
    Row::Release(1, 2),
    Row::Acquire(0, 1),
    Row::Acquire(0, 0),
    Row::Acquire(0, 2),
    Row::Spy(0, 1, THREE),
    Row::Take(0, THREE),
];

// A schedule, the items that it inserts and deletes, in the order of the steps, the most live items that a deletion
// skips, the items that are left, ascending, and the front at the end.
struct Outcome {
    rows: &'static [Row],
    inserted: &'static [Name],
    deleted: &'static [Name],
    most: usize,
    live: &'static [Name],
    front: u64,
}

const OUTCOMES: &[Outcome] = &[
    Outcome {
        rows: EMPTIED,
        inserted: &[THREE],
        deleted: &[],
        most: 0,
        live: &[THREE],
        front: u64::MAX,
    },
    Outcome {
        rows: MISSED,
        inserted: &[THREE],
        deleted: &[],
        most: 0,
        live: &[THREE],
        front: u64::MAX,
    },
    Outcome {
        rows: IN_OWN_ORDER,
        inserted: &[THREE, (2, 1, 1), (9, 1, 2), (1, 0, 0)],
        deleted: &[(2, 1, 1)],
        most: 1,
        live: &[(1, 0, 0), THREE, (9, 1, 2)],
        front: 3,
    },
    Outcome {
        rows: EARLY,
        inserted: &[THREE],
        deleted: &[THREE],
        most: 0,
        live: &[],
        front: u64::MAX,
    },
    Outcome {
        rows: TWO_AT_THE_FRONT,
        inserted: &[THREE, (2, 0, 0), (5, 0, 1)],
        deleted: &[],
        most: 0,
        live: &[(2, 0, 0), THREE, (5, 0, 1)],
        front: 2,
    },
    Outcome {
        rows: EARLY_SKIPPING,
        inserted: &[(1, 1, 0), (3, 0, 0), (2, 0, 1)],
        deleted: &[(2, 0, 1)],
        most: 1,
        live: &[(1, 1, 0), (3, 0, 0)],
        front: 3,
    },
    Outcome {
        rows: SKIPPING,
        inserted: &[(3, 0, 0), (2, 0, 1), (1, 0, 2)],
        deleted: &[(3, 0, 0)],
        most: 2,
        live: &[(1, 0, 2), (2, 0, 1)],
        front: 2,
    },
    Outcome {
        rows: SPIED,
        inserted: &[THREE],
        deleted: &[THREE],
        most: 0,
        live: &[],
        front: u64::MAX,
    },
];

// Whether a run of the schedule has this trace.
fn has_trace(alloc: Global, outcome: &Outcome) -> Option<bool> {
    let steps = steps_of(alloc, outcome.rows)?;
    let Trace {
        inserted,
        deleted,
        most,
        live,
    } = run(alloc, 2, 1, steps.as_slice()).ok()?;
    Some(
        are_named(inserted.as_slice(), outcome.inserted)
            && are_named(deleted.as_slice(), outcome.deleted)
            && most == outcome.most
            && are_named(live.as_slice(), outcome.live),
    )
}

// Whether each item skips those that stand before it, and no others.
fn are_ranked(world: &World, names: &[Name]) -> bool {
    for (rank, name) in names.iter().enumerate() {
        if world.skipped(named(*name)) != rank {
            return false;
        }
    }
    true
}

// Whether the world after the steps has these live items and this front.
fn has_world(alloc: Global, outcome: &Outcome) -> Option<bool> {
    let world = world_after(alloc, outcome.rows)?;
    let answer: Result<Items, WorldError> = world.live(alloc);
    let live = answer.ok()?;
    Some(
        are_named(live.as_slice(), outcome.live)
            && are_ranked(&world, outcome.live)
            && world.front() == outcome.front,
    )
}

#[test]
fn schedules_as_a_run(rt: HostRuntime) {
    for outcome in OUTCOMES {
        assert!(rt; has_trace(rt.alloc(), outcome) == Some(true));
    }
}

#[test]
fn schedules_step_by_step(rt: HostRuntime) {
    for outcome in OUTCOMES {
        assert!(rt; has_world(rt.alloc(), outcome) == Some(true));
    }
}
