//! Worked runs of scripts that are not in the tests of the public surface.

use klsm_board::TryInsertError;
use klsm_test_support::{MANY, Script, Step, passes};

// With k = 0 all items are shared ones, and leave in order until there is none.
const ALL_SHARED: Script = Script {
    threads: 1,
    k: 0,
    quota: MANY,
    steps: &[
        Step::Inserts((1, 0, 0)),
        Step::Inserts((2, 0, 1)),
        Step::Inserts((3, 0, 2)),
        Step::Inserts((4, 0, 3)),
        Step::Inserts((5, 0, 4)),
        Step::Deletes(0, Some((1, 0, 0))),
        Step::Deletes(0, Some((2, 0, 1))),
        Step::Deletes(0, Some((3, 0, 2))),
        Step::Deletes(0, Some((4, 0, 3))),
        Step::Deletes(0, Some((5, 0, 4))),
        Step::Deletes(0, None),
    ],
};

#[test]
fn shared_items_leave_in_order(rt: HostRuntime) {
    assert!(rt; passes::<21>(&rt, rt.alloc(), &ALL_SHARED));
}

// An own part of three items moves two of them. The shared part of three levels takes 4, so it has room for
// them twice, though after the first time not for three.
const FULL_FOR_THREE: Script = Script {
    threads: 1,
    k: 3,
    quota: MANY,
    steps: &[
        Step::Inserts((1, 0, 0)),
        Step::Inserts((2, 0, 1)),
        Step::Inserts((3, 0, 2)),
        Step::Inserts((4, 0, 3)),
        Step::Inserts((5, 0, 4)),
        Step::Inserts((6, 0, 5)),
        Step::Inserts((7, 0, 6)),
        Step::IsRefused(0, 8, TryInsertError::Full),
        Step::Counts(0, 7, 0),
        Step::Deletes(0, Some((1, 0, 0))),
        Step::Deletes(0, Some((2, 0, 1))),
        Step::Inserts((8, 0, 7)),
        Step::Counts(0, 8, 2),
    ],
};

#[test]
fn full_shared_parts(rt: HostRuntime) {
    assert!(rt; passes::<3>(&rt, rt.alloc(), &FULL_FOR_THREE));
}
