//! `klsm knapsack`: the line of a best selection, and rows that are refused.

use super::words::{Expected, runs_as};

const KNAPSACK: &[&str] = &["klsm", "knapsack"];

/// An instance of four things, and its line.
pub(super) const INSTANCE: &[u8] = b"capacity,10\n60,5\n50,4\n70,6\n30,3\n";

pub(super) const LINE: &[u8] = b"value 120 weight 10 picks 1 2\n";

const NOTHING: &[u8] = b"value 0 weight 0 picks\n";

const SOLVED: &[Expected] = &[
    (KNAPSACK, INSTANCE, 0, LINE),
    (
        KNAPSACK,
        b"capacity,0\n60,5\n50,4\n70,6\n30,3\n",
        0,
        NOTHING,
    ),
    (KNAPSACK, b"capacity,10\n", 0, NOTHING),
];

#[test]
fn best_selections(rt: HostRuntime) {
    for row in SOLVED {
        assert!(rt; runs_as(&rt, *row));
    }
}

// One thing more than the 32 that an instance may have.
const THIRTY_THREE: &[u8] = b"\
capacity,10
1,1\n1,1\n1,1\n1,1\n1,1\n1,1\n1,1\n1,1\n1,1\n1,1\n1,1
1,1\n1,1\n1,1\n1,1\n1,1\n1,1\n1,1\n1,1\n1,1\n1,1\n1,1
1,1\n1,1\n1,1\n1,1\n1,1\n1,1\n1,1\n1,1\n1,1\n1,1\n1,1
";

const REFUSED: &[(&[u8], &[u8])] = &[
    (b"", b"refused row 1: fields\n"),
    (b"cap,10", b"refused row 1: fields\n"),
    (b"capacity,x", b"refused row 1: number\n"),
    (b"capacity,10\n0,5", b"refused row 2: range\n"),
    (b"capacity,10\n5", b"refused row 2: fields\n"),
    (THIRTY_THREE, b"refused row 34: items\n"),
];

#[test]
fn rows_that_are_refused(rt: HostRuntime) {
    for (instance, text) in REFUSED {
        assert!(rt; runs_as(&rt, (KNAPSACK, instance, 1, text)));
    }
}
