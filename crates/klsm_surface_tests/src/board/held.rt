//! Parts that a member holds while another calls. A call that needs the part is refused, and each other call goes on.

use klsm_board::{Busy, HoldError, TryInsertError};
use klsm_test_support::{MANY, Script, Step, passes};

// Member 1 holds its own part, with one item in it. Member 0 does not need it, and passes it over when it spies.
const VICTIM_HELD: Script = Script {
    threads: 2,
    k: 4,
    quota: MANY,
    steps: &[
        Step::Inserts((5, 1, 0)),
        Step::Holds(1, 2, 1, Some((5, 1, 0))),
        Step::Inserts((7, 0, 0)),
        Step::Deletes(0, Some((7, 0, 0))),
        Step::Deletes(0, None),
        Step::PutsBack,
        Step::Deletes(0, Some((5, 1, 0))),
        Step::Counts(0, 1, 2),
        Step::Counts(1, 1, 0),
    ],
};

#[test]
fn a_victim_whose_part_is_held_is_passed_over(rt: HostRuntime) {
    assert!(rt; passes::<21>(&rt, rt.alloc(), &VICTIM_HELD));
}

// Member 1 holds the shared part, or the part of member 0.
const SHARED_BY_ONE: Busy = Busy { lock: 0, by: 1 };

const OWN_BY_ONE: Busy = Busy { lock: 1, by: 1 };

// Member 1 holds the shared part, and then the own part of member 0.
const EACH_IN_TURN: Script = Script {
    threads: 2,
    k: 1,
    quota: MANY,
    steps: &[
        Step::Holds(1, 0, 0, None),
        Step::Misses(0, SHARED_BY_ONE),
        Step::Inserts((1, 0, 0)),
        Step::IsRefused(0, 2, TryInsertError::Busy(SHARED_BY_ONE)),
        Step::Counts(0, 1, 0),
        Step::CannotHold(0, HoldError::Busy(SHARED_BY_ONE)),
        Step::CannotHold(3, HoldError::NoSuchLock),
        Step::PutsBack,
        Step::Inserts((2, 0, 1)),
        Step::Holds(1, 1, 1, Some((2, 0, 1))),
        Step::IsRefused(0, 3, TryInsertError::Busy(OWN_BY_ONE)),
        Step::Misses(0, OWN_BY_ONE),
        Step::PutsBack,
        Step::Deletes(0, Some((1, 0, 0))),
    ],
};

#[test]
fn calls_that_need_a_held_part_are_refused(rt: HostRuntime) {
    assert!(rt; passes::<21>(&rt, rt.alloc(), &EACH_IN_TURN));
}

// A deletion below the front of an empty shared part does not need that part.
const BELOW_THE_FRONT: Script = Script {
    threads: 2,
    k: 4,
    quota: MANY,
    steps: &[
        Step::Inserts((5, 0, 0)),
        Step::Holds(1, 0, 0, None),
        Step::Deletes(0, Some((5, 0, 0))),
        Step::Misses(0, SHARED_BY_ONE),
    ],
};

#[test]
fn a_deletion_by_the_front_needs_its_own_part_alone(rt: HostRuntime) {
    assert!(rt; passes::<21>(&rt, rt.alloc(), &BELOW_THE_FRONT));
}

// The least own item has the key of the front, so the deletion needs the shared part, and takes the shared item. After
// that the shared part is empty.
const AT_THE_FRONT: Script = Script {
    threads: 2,
    k: 1,
    quota: MANY,
    steps: &[
        Step::Inserts((4, 0, 0)),
        Step::Inserts((4, 0, 1)),
        Step::Holds(1, 0, 1, Some((4, 0, 0))),
        Step::Misses(0, SHARED_BY_ONE),
        Step::PutsBack,
        Step::Deletes(0, Some((4, 0, 0))),
        Step::Holds(1, 0, 0, None),
        Step::Deletes(0, Some((4, 0, 1))),
    ],
};

// The largest key equals the front of an empty shared part.
const LARGEST_KEY_AT_THE_FRONT: Script = Script {
    threads: 2,
    k: 1,
    quota: MANY,
    steps: &[
        Step::Inserts((18446744073709551615, 0, 0)),
        Step::Holds(1, 0, 0, None),
        Step::Misses(0, SHARED_BY_ONE),
        Step::PutsBack,
        Step::Deletes(0, Some((18446744073709551615, 0, 0))),
    ],
};

#[test]
fn a_key_equal_to_the_front_needs_the_shared_part(rt: HostRuntime) {
    assert!(rt; passes::<21>(&rt, rt.alloc(), &AT_THE_FRONT));
    assert!(rt; passes::<21>(&rt, rt.alloc(), &LARGEST_KEY_AT_THE_FRONT));
}

// Member 2 holds the shared part, or the part of member 0.
const SHARED_BY_TWO: Busy = Busy { lock: 0, by: 2 };

const OWN_BY_TWO: Busy = Busy { lock: 1, by: 2 };

// Members 0 and 1 have one item each, and member 2 holds one of the four parts: the shared one, that of member 0, that
// of member 1, and its own.
const HELD_BY_TWO: &[Script] = &[
    Script {
        threads: 3,
        k: 1,
        quota: MANY,
        steps: &[
            Step::Inserts((6, 0, 0)),
            Step::Inserts((4, 1, 0)),
            Step::Holds(2, 0, 0, None),
            Step::Deletes(0, Some((6, 0, 0))),
            Step::Misses(0, SHARED_BY_TWO),
            Step::Inserts((8, 0, 1)),
            Step::IsRefused(0, 9, TryInsertError::Busy(SHARED_BY_TWO)),
        ],
    },
    Script {
        threads: 3,
        k: 1,
        quota: MANY,
        steps: &[
            Step::Inserts((6, 0, 0)),
            Step::Inserts((4, 1, 0)),
            Step::Holds(2, 1, 1, Some((6, 0, 0))),
            Step::Misses(0, OWN_BY_TWO),
            Step::IsRefused(0, 8, TryInsertError::Busy(OWN_BY_TWO)),
        ],
    },
    Script {
        threads: 3,
        k: 1,
        quota: MANY,
        steps: &[
            Step::Inserts((6, 0, 0)),
            Step::Inserts((4, 1, 0)),
            Step::Holds(2, 2, 1, Some((4, 1, 0))),
            Step::Deletes(0, Some((6, 0, 0))),
            Step::Deletes(0, None),
        ],
    },
    Script {
        threads: 3,
        k: 1,
        quota: MANY,
        steps: &[
            Step::Inserts((6, 0, 0)),
            Step::Inserts((4, 1, 0)),
            Step::Holds(2, 3, 0, None),
            Step::Deletes(0, Some((6, 0, 0))),
            Step::Deletes(0, Some((4, 1, 0))),
            Step::Deletes(0, None),
        ],
    },
];

#[test]
fn each_of_the_parts_of_three_members_is_held(rt: HostRuntime) {
    for script in HELD_BY_TWO {
        assert!(rt; passes::<21>(&rt, rt.alloc(), script));
    }
}
