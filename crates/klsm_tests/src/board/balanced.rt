//! Which items a balance moves, and where it moves none.

use klsm_board::Busy;
use klsm_test_support::{Script, Step, passes};

const MANY: u64 = 1000;

const BALANCED: &[Script] = &[
    // Half of five items, rounded up, and the least of them, where more may move. Then the least item of the
    // victim is greater than the own ones, and none moves. What moved is deleted by the member that has it now.
    Script {
        threads: 2,
        k: 8,
        quota: MANY,
        steps: &[
            Step::Inserts((5, 0, 0)),
            Step::Inserts((4, 0, 1)),
            Step::Inserts((3, 0, 2)),
            Step::Inserts((2, 0, 3)),
            Step::Inserts((1, 0, 4)),
            Step::Inserts((9, 1, 0)),
            Step::Balances(1, 0, 100, true),
            Step::Balances(1, 0, 100, false),
            Step::Holds(1, 2, 4, Some((1, 0, 4))),
            Step::PutsBack,
            Step::Holds(1, 1, 2, Some((4, 0, 1))),
            Step::PutsBack,
            Step::Deletes(1, Some((1, 0, 4))),
            Step::Deletes(0, Some((4, 0, 1))),
            Step::Counts(0, 5, 1),
            Step::Counts(1, 1, 1),
        ],
    },
    // No more than are asked for, and no more than there is room for. Of two equal keys that of the lesser owner
    // is smaller.
    Script {
        threads: 3,
        k: 2,
        quota: MANY,
        steps: &[
            Step::Inserts((1, 0, 0)),
            Step::Inserts((2, 0, 1)),
            Step::Balances(2, 0, 0, false),
            Step::Balances(2, 1, 9, false),
            Step::Inserts((1, 1, 0)),
            Step::Inserts((3, 1, 1)),
            Step::Balances(1, 0, 9, false),
            Step::Balances(2, 1, 9, true),
            Step::Balances(2, 0, 9, true),
            Step::Holds(2, 3, 2, Some((1, 0, 0))),
            Step::PutsBack,
            Step::Balances(0, 2, 9, true),
            Step::Holds(2, 1, 2, Some((1, 0, 0))),
        ],
    },
    // The victim's least item is not below the front: a key that is the front is not.
    Script {
        threads: 2,
        k: 1,
        quota: MANY,
        steps: &[
            Step::Inserts((4, 0, 0)),
            Step::Inserts((4, 0, 1)),
            Step::Balances(1, 0, 9, false),
            Step::Deletes(1, Some((4, 0, 0))),
            Step::Balances(1, 0, 9, true),
            Step::Balances(1, 0, 9, false),
            Step::Balances(0, 1, 9, true),
        ],
    },
    // A victim whose part is held is not waited for. The own part has to be free, and the shared one need not be.
    Script {
        threads: 3,
        k: 4,
        quota: MANY,
        steps: &[
            Step::Inserts((4, 0, 0)),
            Step::Holds(2, 1, 1, Some((4, 0, 0))),
            Step::Balances(1, 0, 9, false),
            Step::CannotBalance(0, 1, Busy { lock: 1, by: 2 }),
            Step::PutsBack,
            Step::Holds(2, 0, 0, None),
            Step::Balances(1, 0, 9, true),
        ],
    },
];

#[test]
fn what_balances_move(rt: HostRuntime) {
    for script in BALANCED {
        assert!(rt; passes::<21>(&rt, rt.alloc(), script));
    }
}
