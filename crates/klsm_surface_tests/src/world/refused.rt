//! Steps and runs that are refused, and why.

use super::schedules::{EARLY, EARLY_SKIPPING, EMPTIED, IN_OWN_ORDER, THREE, TWO_AT_THE_FRONT};
use super::steps::{Row, step_of, steps_of, world_after};
use klsm_test_support::are_named;
use klsm_world::{StepError, World, WorldError, run};
use std::alloc::Global;

// Threads and k, and why a run of one step is refused. The step misses a part that is free.
const LIMITS: [(u32, usize, WorldError); 5] = [
    (0, 129, WorldError::BadThreads),
    (17, 0, WorldError::BadThreads),
    (1, 129, WorldError::BadK),
    (1, 128, WorldError::At(0, StepError::WrongEvent)),
    (16, 0, WorldError::At(0, StepError::WrongEvent)),
];

// Why a run of these steps and a last one is refused, if it is.
fn refusal(alloc: Global, threads: u32, k: usize, rows: &[Row], last: Row) -> Option<WorldError> {
    let mut steps = steps_of(alloc, rows)?;
    steps.push(step_of(alloc, last)?).ok()?;
    run(alloc, threads, k, steps.as_slice()).err()
}

// Why there is no world of so many threads and this k, if there is none.
fn refused_world(alloc: Global, threads: u32, k: usize) -> Option<WorldError> {
    World::new(alloc, threads, k).err()
}

#[test]
fn threads_are_judged_before_k(rt: HostRuntime) {
    for (threads, k, why) in LIMITS {
        assert!(rt; refusal(rt.alloc(), threads, k, &[], Row::Miss(0, 0)) == Some(why));
    }
    assert!(rt; refused_world(rt.alloc(), 0, 129) == Some(WorldError::BadThreads));
    assert!(rt; refused_world(rt.alloc(), 1, 129) == Some(WorldError::BadK));
    assert!(rt; refused_world(rt.alloc(), 16, 128) == None);
}

// Thread 0 has an item in the shared part, and another of the same key in its own.
const EQUAL_KEYS: &[Row] = &[
    Row::Acquire(0, 1),
    Row::Acquire(0, 0),
    Row::Put(0, (4, 0, 0)),
    Row::Flush(0, (4, 0, 1), (4, 0, 0)),
];

// A schedule, the number of its steps that are taken, the step after them, and why that is refused.
const WRONG: &[(&[Row], usize, Row, StepError)] = &[
    (EMPTIED, 4, Row::Nothing(0), StepError::NotHeld),
    (EMPTIED, 6, Row::Take(0, THREE), StepError::WrongEvent),
    (EMPTIED, 6, Row::Acquire(1, 1), StepError::Held(0)),
    (EMPTIED, 6, Row::Acquire(0, 3), StepError::NoSuchPart),
    (EMPTIED, 6, Row::Miss(1, 2), StepError::WrongEvent),
    (IN_OWN_ORDER, 11, Row::Take(1, THREE), StepError::WrongEvent),
    (EARLY, 4, Row::Early(1, THREE, 4), StepError::WrongEvent),
    (EARLY, 4, Row::Take(1, THREE), StepError::NotHeld),
    (
        TWO_AT_THE_FRONT,
        6,
        Row::Early(1, THREE, 2),
        StepError::WrongEvent,
    ),
    (
        EARLY_SKIPPING,
        7,
        Row::Early(0, (2, 0, 1), 4),
        StepError::WrongEvent,
    ),
    (
        EQUAL_KEYS,
        4,
        Row::Early(0, (4, 0, 1), 4),
        StepError::WrongEvent,
    ),
];

#[test]
fn the_first_refused_step_of_a_run(rt: HostRuntime) {
    for (rows, at, last, why) in WRONG {
        let first = rows.get(..*at).unwrap_or(rows);
        let want = Some(WorldError::At(*at, *why));
        assert!(rt; refusal(rt.alloc(), 2, 1, first, *last) == want);
    }
}

// Whether a world refuses the last step for this cause, and has the same live items as before.
fn is_unchanged(alloc: Global, rows: &[Row], last: Row, why: StepError) -> Option<bool> {
    let mut world = world_after(alloc, rows)?;
    let before = world.live(alloc).ok()?;
    let answer = world.step(&step_of(alloc, last)?);
    let after = world.live(alloc).ok()?;
    Some(answer == Err(why) && before == after)
}

#[test]
fn a_refused_step_changes_nothing(rt: HostRuntime) {
    for (rows, at, last, why) in WRONG {
        let first = rows.get(..*at).unwrap_or(rows);
        assert!(rt; is_unchanged(rt.alloc(), first, *last, *why) == Some(true));
    }
}

// The live items before 2 is deleted. Thread 0 holds the part of 1.
fn has_all_live(alloc: Global) -> Option<bool> {
    let rows = IN_OWN_ORDER.get(..11)?;
    let world = world_after(alloc, rows)?;
    let live = world.live(alloc).ok()?;
    Some(are_named(live.as_slice(), &[(1, 0, 0), (2, 1, 1), THREE, (9, 1, 2)]))
}

#[test]
fn items_in_held_parts_are_live(rt: HostRuntime) {
    assert!(rt; has_all_live(rt.alloc()) == Some(true));
}
