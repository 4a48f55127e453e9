//! Shared parts that are full, and quotas that are spent. A refused insertion uses no number.

use klsm_board::TryInsertError;
use klsm_test_support::{MANY, Script, Step, passes};

// A shared part of four levels has room for 8 items. With k = 0 there is no own item.
const FULL: Script = Script {
    threads: 1,
    k: 0,
    quota: MANY,
    steps: &[
        Step::Inserts((1, 0, 0)),
        Step::Inserts((2, 0, 1)),
        Step::Inserts((3, 0, 2)),
        Step::Inserts((4, 0, 3)),
        Step::Inserts((5, 0, 4)),
        Step::Inserts((6, 0, 5)),
        Step::Inserts((7, 0, 6)),
        Step::Inserts((8, 0, 7)),
        Step::IsRefused(0, 9, TryInsertError::Full),
        Step::Counts(0, 8, 0),
        Step::Deletes(0, Some((1, 0, 0))),
        Step::Inserts((9, 0, 8)),
    ],
};

#[test]
fn a_full_shared_part_without_own_parts(rt: HostRuntime) {
    assert!(rt; passes::<4>(&rt, rt.alloc(), &FULL));
}

const SPENT: Script = Script {
    threads: 1,
    k: 4,
    quota: 2,
    steps: &[
        Step::Inserts((1, 0, 0)),
        Step::Inserts((2, 0, 1)),
        Step::IsRefused(0, 3, TryInsertError::Spent),
        Step::Counts(0, 2, 0),
        Step::Deletes(0, Some((1, 0, 0))),
        Step::IsRefused(0, 3, TryInsertError::Spent),
    ],
};

#[test]
fn a_spent_quota_stays_spent(rt: HostRuntime) {
    assert!(rt; passes::<21>(&rt, rt.alloc(), &SPENT));
}

/// A shared part of two levels has room for 2 items. With k = 2 a flush moves 2 items, so it needs all of the room.
pub(super) const FULL_FOR_TWO: &[Step] = &[
    Step::Inserts((1, 0, 0)),
    Step::Inserts((2, 0, 1)),
    Step::Inserts((3, 0, 2)),
    Step::Inserts((4, 0, 3)),
    Step::IsRefused(0, 5, TryInsertError::Full),
    Step::Deletes(0, Some((1, 0, 0))),
    Step::IsRefused(0, 5, TryInsertError::Full),
    Step::Deletes(0, Some((2, 0, 1))),
    Step::Inserts((5, 0, 4)),
];

/// A member that may not insert at all.
pub(super) const NO_QUOTA: &[Step] = &[
    Step::IsRefused(0, 1, TryInsertError::Spent),
    Step::Deletes(0, None),
    Step::Counts(0, 0, 0),
];

const FULL_FOR_TWO_ITEMS: Script = Script {
    threads: 1,
    k: 2,
    quota: MANY,
    steps: FULL_FOR_TWO,
};

const WITHOUT_QUOTA: Script = Script {
    threads: 1,
    k: 1,
    quota: 0,
    steps: NO_QUOTA,
};

#[test]
fn a_shared_part_without_room_for_a_flush(rt: HostRuntime) {
    assert!(rt; passes::<2>(&rt, rt.alloc(), &FULL_FOR_TWO_ITEMS));
}

#[test]
fn a_member_without_quota(rt: HostRuntime) {
    assert!(rt; passes::<21>(&rt, rt.alloc(), &WITHOUT_QUOTA));
}
