//! Boards of one member, which deletes its items in their order, with their loads, until nothing is left.

use klsm_test_support::{MANY, Script, Step, passes};

const NOTHING_INSERTED: Script = Script {
    threads: 1,
    k: 64,
    quota: MANY,
    steps: &[Step::Deletes(0, None), Step::Counts(0, 0, 0)],
};

// Items of one key, with the loads 1, 2 and 3.
const EQUAL_KEYS: Script = Script {
    threads: 1,
    k: 64,
    quota: MANY,
    steps: &[
        Step::Inserts((7, 0, 0)),
        Step::Inserts((7, 0, 1)),
        Step::Inserts((7, 0, 2)),
        Step::Deletes(0, Some((7, 0, 0))),
        Step::Deletes(0, Some((7, 0, 1))),
        Step::Deletes(0, Some((7, 0, 2))),
    ],
};

const SMALLEST_AND_LARGEST_KEY: Script = Script {
    threads: 1,
    k: 64,
    quota: MANY,
    steps: &[
        Step::Inserts((18446744073709551615, 0, 0)),
        Step::Inserts((0, 0, 1)),
        Step::Deletes(0, Some((0, 0, 1))),
        Step::Deletes(0, Some((18446744073709551615, 0, 0))),
        Step::Deletes(0, None),
    ],
};

#[test]
fn a_new_board_has_no_item(rt: HostRuntime) {
    assert!(rt; passes::<21>(&rt, rt.alloc(), &NOTHING_INSERTED));
}

#[test]
fn equal_keys_leave_in_the_order_in_which_they_came(rt: HostRuntime) {
    assert!(rt; passes::<21>(&rt, rt.alloc(), &EQUAL_KEYS));
}

#[test]
fn the_smallest_and_the_largest_key(rt: HostRuntime) {
    assert!(rt; passes::<21>(&rt, rt.alloc(), &SMALLEST_AND_LARGEST_KEY));
}
