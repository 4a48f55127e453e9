//! Steps of each kind that are refused, with each reason for which they can be, among legal ones.

use super::steps::{Moved, Row, step_of};
use klsm_test_support::{Name, named};
use klsm_world::{StepError, World};
use std::alloc::Global;

const TWO: Name = (2, 1, 0);

const FOUR: Name = (4, 1, 1);

const SEVEN: Name = (7, 1, 2);

// Steps of three threads with at most one item in an own part, and why those are refused that are.
// After the opening thread 0 holds its own part, which is empty, and the shared part with the items
// 2 and 4; thread 1 holds its own part with 7, and has inserted three items; thread 2 holds
// nothing. At the end thread 0 holds thread 1's part too.
const STEPS: &[(Row, Option<StepError>)] = &[
    (Row::Acquire(1, 2), None),
    (Row::Acquire(1, 0), None),
    (Row::Put(1, TWO), None),
    (Row::Flush(1, FOUR, Moved::One(TWO)), None),
    (Row::Flush(1, SEVEN, Moved::One(FOUR)), None),
    (Row::Release(1, 0), None),
    (Row::Acquire(0, 1), None),
    (Row::Acquire(0, 0), None),
    (Row::Acquire(3, 0), Some(StepError::NoSuchPart)),
    (Row::Acquire(0, 4), Some(StepError::NoSuchPart)),
    (
        Row::Acquire(u32::MAX, u32::MAX),
        Some(StepError::NoSuchPart),
    ),
    (Row::Acquire(0, 0), Some(StepError::Held(0))),
    (Row::Acquire(1, 1), Some(StepError::Held(0))),
    (Row::Acquire(0, 2), Some(StepError::Held(1))),
    (Row::Release(3, 0), Some(StepError::NoSuchPart)),
    (Row::Release(0, 4), Some(StepError::NoSuchPart)),
    (Row::Release(0, 2), Some(StepError::NotHeld)),
    (Row::Release(1, 0), Some(StepError::NotHeld)),
    (Row::Miss(3, 0), Some(StepError::NoSuchPart)),
    (Row::Miss(1, 4), Some(StepError::NoSuchPart)),
    (Row::Miss(0, 0), Some(StepError::WrongEvent)),
    (Row::Miss(1, 2), Some(StepError::WrongEvent)),
    (Row::Look(3), Some(StepError::NoSuchPart)),
    (Row::Look(2), None),
    (Row::Mark(3, u64::MAX), Some(StepError::NoSuchPart)),
    (Row::Mark(2, u64::MAX), Some(StepError::NotHeld)),
    (Row::Mark(2, 0), Some(StepError::NotHeld)),
    (Row::Mark(1, 7), Some(StepError::WrongEvent)),
    (Row::Mark(1, u64::MAX - 1), Some(StepError::WrongEvent)),
    (Row::Mark(1, u64::MAX), None),
    (Row::See(3, 0), Some(StepError::NoSuchPart)),
    (Row::See(0, 3), Some(StepError::NoSuchPart)),
    (Row::See(0, u32::MAX), Some(StepError::NoSuchPart)),
    (Row::See(2, 2), Some(StepError::NotHeld)),
    (Row::See(0, 1), Some(StepError::NotHeld)),
    (Row::See(1, 0), Some(StepError::NotHeld)),
    (Row::See(1, 1), None),
    (Row::Put(3, (1, 3, 0)), Some(StepError::NoSuchPart)),
    (Row::Put(2, (1, 2, 0)), Some(StepError::NotHeld)),
    (Row::Put(1, (1, 1, 3)), Some(StepError::WrongEvent)),
    (Row::Put(0, (1, 1, 0)), Some(StepError::WrongEvent)),
    (Row::Put(0, (1, 0, 1)), Some(StepError::WrongEvent)),
    (
        Row::Flush(3, (1, 3, 0), Moved::None),
        Some(StepError::NoSuchPart),
    ),
    (
        Row::Flush(2, (1, 2, 0), Moved::None),
        Some(StepError::NotHeld),
    ),
    (
        Row::Flush(1, (1, 1, 3), Moved::One((1, 1, 3))),
        Some(StepError::NotHeld),
    ),
    (
        Row::Flush(0, (1, 0, 1), Moved::One((1, 0, 1))),
        Some(StepError::WrongEvent),
    ),
    (
        Row::Flush(0, (1, 0, 0), Moved::One(TWO)),
        Some(StepError::WrongEvent),
    ),
    (
        Row::Flush(0, (1, 0, 0), Moved::Two((1, 0, 0), (1, 0, 0))),
        Some(StepError::WrongEvent),
    ),
    (Row::Take(3, SEVEN), Some(StepError::NoSuchPart)),
    (Row::Take(2, SEVEN), Some(StepError::NotHeld)),
    (Row::Take(1, SEVEN), Some(StepError::NotHeld)),
    (Row::Take(0, SEVEN), Some(StepError::WrongEvent)),
    (Row::Take(0, (2, 1, 1)), Some(StepError::WrongEvent)),
    (Row::Early(3, SEVEN, 2), Some(StepError::NoSuchPart)),
    (Row::Early(2, SEVEN, 2), Some(StepError::NotHeld)),
    (Row::Early(1, SEVEN, 2), Some(StepError::WrongEvent)),
    (Row::Early(1, SEVEN, 8), Some(StepError::WrongEvent)),
    (Row::Early(1, TWO, 4), Some(StepError::WrongEvent)),
    (Row::Early(0, TWO, 2), Some(StepError::WrongEvent)),
    (Row::Refill(3, Moved::One(TWO)), Some(StepError::NoSuchPart)),
    (Row::Refill(2, Moved::One(TWO)), Some(StepError::NotHeld)),
    (Row::Refill(1, Moved::One(TWO)), Some(StepError::NotHeld)),
    (Row::Refill(0, Moved::None), Some(StepError::WrongEvent)),
    (
        Row::Refill(0, Moved::One(SEVEN)),
        Some(StepError::WrongEvent),
    ),
    (
        Row::Refill(0, Moved::Two(TWO, FOUR)),
        Some(StepError::WrongEvent),
    ),
    (Row::Share(3, Moved::One(TWO)), Some(StepError::NoSuchPart)),
    (Row::Share(2, Moved::One(TWO)), Some(StepError::NotHeld)),
    (Row::Share(1, Moved::One(SEVEN)), Some(StepError::NotHeld)),
    (Row::Share(0, Moved::None), Some(StepError::WrongEvent)),
    (Row::Share(0, Moved::One(TWO)), Some(StepError::WrongEvent)),
    (
        Row::Share(0, Moved::One(SEVEN)),
        Some(StepError::WrongEvent),
    ),
    (Row::Nothing(3), Some(StepError::NoSuchPart)),
    (Row::Nothing(2), Some(StepError::NotHeld)),
    (Row::Nothing(1), Some(StepError::NotHeld)),
    (Row::Nothing(0), Some(StepError::WrongEvent)),
    (
        Row::Spy(3, 0, Moved::One(SEVEN)),
        Some(StepError::NoSuchPart),
    ),
    (
        Row::Spy(0, 3, Moved::One(SEVEN)),
        Some(StepError::NoSuchPart),
    ),
    (
        Row::Spy(0, 0, Moved::One(SEVEN)),
        Some(StepError::NoSuchPart),
    ),
    (Row::Spy(0, 1, Moved::One(SEVEN)), Some(StepError::NotHeld)),
    (Row::Spy(1, 0, Moved::One(SEVEN)), Some(StepError::NotHeld)),
    (
        Row::Steal(3, 0, Moved::One(SEVEN)),
        Some(StepError::NoSuchPart),
    ),
    (
        Row::Steal(0, 3, Moved::One(SEVEN)),
        Some(StepError::NoSuchPart),
    ),
    (
        Row::Steal(0, 0, Moved::One(SEVEN)),
        Some(StepError::NoSuchPart),
    ),
    (
        Row::Steal(0, 1, Moved::One(SEVEN)),
        Some(StepError::NotHeld),
    ),
    (
        Row::Steal(1, 0, Moved::One(SEVEN)),
        Some(StepError::NotHeld),
    ),
    (Row::Release(1, 2), None),
    (Row::Acquire(0, 2), None),
    (Row::Mark(1, u64::MAX), Some(StepError::NotHeld)),
    (Row::See(1, 1), Some(StepError::NotHeld)),
    (Row::See(0, 1), None),
    (Row::Steal(0, 1, Moved::None), Some(StepError::WrongEvent)),
    (
        Row::Steal(0, 1, Moved::One(TWO)),
        Some(StepError::WrongEvent),
    ),
    (
        Row::Steal(0, 1, Moved::Two(SEVEN, SEVEN)),
        Some(StepError::WrongEvent),
    ),
    (Row::Spy(0, 1, Moved::None), Some(StepError::WrongEvent)),
    (Row::Spy(0, 1, Moved::One(TWO)), Some(StepError::WrongEvent)),
    (
        Row::Spy(0, 1, Moved::Two(SEVEN, SEVEN)),
        Some(StepError::WrongEvent),
    ),
    (Row::Spy(0, 1, Moved::One(SEVEN)), None),
    (
        Row::Share(0, Moved::Two(SEVEN, SEVEN)),
        Some(StepError::WrongEvent),
    ),
    (
        Row::Spy(0, 1, Moved::One(SEVEN)),
        Some(StepError::WrongEvent),
    ),
    (
        Row::Steal(0, 1, Moved::One(SEVEN)),
        Some(StepError::WrongEvent),
    ),
];

// Why a step is refused, where it is.
fn refusal(alloc: Global, world: &mut World, row: Row) -> Option<Option<StepError>> {
    let step = step_of(alloc, row)?;
    Some(world.step(&step).err())
}

// The first step with another answer.
fn first_other(alloc: Global, world: &mut World) -> Option<usize> {
    for (index, (row, why)) in STEPS.iter().enumerate() {
        if refusal(alloc, world, *row) != Some(*why) {
            return Some(index);
        }
    }
    None
}

// Whether each step has its answer, and the three items live then.
fn are_answered(alloc: Global) -> Option<bool> {
    let mut world = World::new(alloc, 3, 1).ok()?;
    let other = first_other(alloc, &mut world);
    let live = world.live(alloc).ok()?;
    let three = [named(TWO), named(FOUR), named(SEVEN)];
    Some(other.is_none() && live.as_slice() == three.as_slice())
}

#[test]
fn steps_of_each_kind(rt: HostRuntime) {
    assert!(rt; are_answered(rt.alloc()) == Some(true));
}
