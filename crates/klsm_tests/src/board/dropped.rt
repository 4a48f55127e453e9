//! Members that are dropped, one of them with a part in its hand.

use klsm_board::{Busy, FinishError, HoldError, TryInsertError};
use klsm_test_support::{Calls, Crew, Step, all_go, refused};
use std::alloc::Global;
use std::sync::Wait;

// What one is answered who needs the shared part, which member 1 held when it was dropped.
const BY_ONE: Busy = Busy { lock: 0, by: 1 };

// The own part of a dropped member stays on the board, and others may hold it and spy on it.
const WITH_ITEMS: &[Step] = &[
    Step::Inserts((3, 1, 0)),
    Step::DropsMember,
    Step::Holds(0, 2, 1, Some((3, 1, 0))),
    Step::PutsBack,
    Step::Deletes(0, Some((3, 1, 0))),
    Step::Holds(0, 2, 0, None),
    Step::PutsBack,
];

// The part in its hand stays taken for good. What needs no other lock than the own one goes on.
const WITH_THE_SHARED_PART: &[Step] = &[
    Step::Inserts((5, 0, 0)),
    Step::Holds(1, 0, 0, None),
    Step::DropsHeld,
    Step::IsRefused(0, 6, TryInsertError::Busy(BY_ONE)),
    Step::Deletes(0, Some((5, 0, 0))),
    Step::Misses(0, BY_ONE),
    Step::CannotHold(0, HoldError::Busy(BY_ONE)),
    Step::Inserts((7, 0, 1)),
];

// Whether the steps go as they have to, and the board of two members then misses member 1.
fn misses_one(rt: &impl Wait, alloc: Global, steps: &[Step]) -> bool {
    let Ok(mut crew) = Crew::<21>::new(alloc, 2, 1, 10) else {
        return false;
    };
    all_go(rt, &mut crew, Calls::Trying, steps)
        && refused(alloc, crew, FinishError::Missing(1), &[0]).is_some()
}

#[test]
fn members_that_are_dropped(rt: HostRuntime) {
    assert!(rt; misses_one(&rt, rt.alloc(), WITH_ITEMS));
    assert!(rt; misses_one(&rt, rt.alloc(), WITH_THE_SHARED_PART));
}
