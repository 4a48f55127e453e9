//! Each growth refused in turn: nothing changes, and the same call goes through later.

use super::steps::{Moved, Row, steps_of, world_after};
use klsm_schedules::{Items, Step};
use klsm_test_support::{Name, Rationed};
use klsm_world::{StepError, World, WorldError, run};
use std::alloc::Global;

const FIVE: Name = (5, 1, 0);

const TWO: Name = (2, 1, 1);

const NINE: Name = (9, 1, 2);

const THREE: Name = (3, 1, 3);

// A schedule with each kind of step and each event.
const ALL_KINDS: &[Row] = &[
    Row::Acquire(1, 2),
    Row::Put(1, FIVE),
    Row::Miss(0, 2),
    Row::Look(0),
    Row::Acquire(1, 0),
    Row::Flush(1, TWO, Moved::One(FIVE)),
    Row::Put(1, NINE),
    Row::Early(1, TWO, 5),
    Row::Refill(1, Moved::One(FIVE)),
    Row::Take(1, FIVE),
    Row::Mark(1, 5),
    Row::Release(1, 2),
    Row::Release(1, 0),
    Row::Acquire(0, 1),
    Row::Mark(0, u64::MAX),
    Row::Acquire(0, 0),
    Row::Nothing(0),
    Row::Acquire(0, 2),
    Row::See(0, 1),
    Row::Spy(0, 1, Moved::One(NINE)),
    Row::Release(0, 2),
    Row::Acquire(1, 2),
    Row::Put(1, THREE),
    Row::Release(1, 2),
    Row::Acquire(0, 2),
    Row::Steal(0, 1, Moved::One(THREE)),
    Row::Share(0, Moved::One(NINE)),
    Row::Take(0, THREE),
    Row::Take(0, NINE),
];

// What came of a call with so many growths granted: it went through and none was refused, or it was
// refused for want of memory and nothing changed, or else.
enum Attempt {
    Through,
    Refused,
    Wrong,
}

// The attempt of a call that was refused a growth or none, with this answer, after which all was
// the same or not.
fn attempt_of(has_refused: bool, answer: Result<(), StepError>, is_same: bool) -> Attempt {
    match (has_refused, answer) {
        (false, Ok(())) => Attempt::Through,
        (true, Err(StepError::NoMemory)) if is_same => Attempt::Refused,
        _ => Attempt::Wrong,
    }
}

// Takes a step with so many growths granted.
fn step_within(
    alloc: Global,
    heap: &Rationed<Global>,
    world: &mut World<&Rationed<Global>>,
    step: &Step,
    growths: u64,
) -> Attempt {
    let Ok(before) = world.live(alloc) else {
        return Attempt::Wrong;
    };
    heap.allow(growths);
    let answer = world.step(step);
    attempt_of(heap.has_refused(), answer, shows(alloc, world, &before))
}

// Whether these items live.
fn shows(alloc: Global, world: &World<&Rationed<Global>>, items: &Items) -> bool {
    match world.live(alloc) {
        Ok(live) => live == *items,
        Err(_) => false,
    }
}

// Takes a step with each number of growths in turn, and answers whether it went through at last.
fn goes_through(
    alloc: Global,
    heap: &Rationed<Global>,
    world: &mut World<&Rationed<Global>>,
    step: &Step,
) -> bool {
    for growths in 0..u64::MAX {
        match step_within(alloc, heap, world, step, growths) {
            Attempt::Through => return true,
            Attempt::Refused => {}
            Attempt::Wrong => return false,
        }
    }
    false
}

// Takes each step of the schedule so, and answers whether all went through and no item is left.
fn all_go_through(alloc: Global, heap: &Rationed<Global>) -> Option<bool> {
    let steps = steps_of(alloc, ALL_KINDS)?;
    heap.allow(u64::MAX);
    let mut world = World::new(heap, 2, 2).ok()?;
    for step in &steps {
        if !goes_through(alloc, heap, &mut world, step) {
            return Some(false);
        }
    }
    Some(shows(alloc, &world, &Items::new(Vec::new(alloc))))
}

// Why there is no world with so many growths granted.
fn refusal_within(heap: &Rationed<Global>, growths: u64) -> Option<WorldError> {
    heap.allow(growths);
    World::new(heap, 2, 2).err()
}

// Whether the live items, which are one, are given with one growth, and refused without.
fn is_live_refused(alloc: Global, heap: &Rationed<Global>) -> Option<bool> {
    let one = (1, 0, 0);
    let world = world_after(alloc, 1, 1, &[Row::Acquire(0, 1), Row::Put(0, one)])?;
    heap.allow(0);
    let refusal = world.live(heap).err();
    heap.allow(1);
    Some(refusal == Some(WorldError::NoMemory) && world.live(heap).is_ok())
}

// Runs steps with so many growths granted. A run that goes through deletes four items and skips
// none.
fn run_within(heap: &Rationed<Global>, steps: &[Step], growths: u64) -> Attempt {
    heap.allow(growths);
    match run(heap, 2, 2, steps) {
        Ok(trace) => {
            let is_right = trace.deleted.len() == 4 && trace.most == 0;
            attempt_of(heap.has_refused() || !is_right, Ok(()), true)
        }
        Err(WorldError::NoMemory) => attempt_of(heap.has_refused(), Err(StepError::NoMemory), true),
        Err(_) => Attempt::Wrong,
    }
}

// Runs steps with each number of growths in turn, and answers whether they went through at last.
fn run_goes_through(heap: &Rationed<Global>, steps: &[Step]) -> bool {
    for growths in 0..u64::MAX {
        match run_within(heap, steps, growths) {
            Attempt::Through => return true,
            Attempt::Refused => {}
            Attempt::Wrong => return false,
        }
    }
    false
}

// A refused growth is want of memory, and never a fault of the steps.
fn schedule_goes_through(alloc: Global, heap: &Rationed<Global>) -> Option<bool> {
    let steps = steps_of(alloc, ALL_KINDS)?;
    Some(run_goes_through(heap, steps.as_slice()))
}

#[test]
fn each_growth(rt: HostRuntime) {
    let heap = Rationed::new(rt.alloc());
    for growths in 0..3 {
        assert!(rt; refusal_within(&heap, growths) == Some(WorldError::NoMemory));
    }
    assert!(rt; refusal_within(&heap, 3).is_none());
    assert!(rt; all_go_through(rt.alloc(), &heap) == Some(true));
    assert!(rt; is_live_refused(rt.alloc(), &heap) == Some(true));
    assert!(rt; schedule_goes_through(rt.alloc(), &heap) == Some(true));
}
