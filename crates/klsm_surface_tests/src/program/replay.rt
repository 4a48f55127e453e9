//! `klsm replay`: the answer to each row, in the order of the file, and the largest skip.

use super::words::{Expected, runs_as};

const REPLAY: &[&str] = &["klsm", "replay"];

/// A script of one thread, and its answers.
pub(super) const SCRIPT: &[u8] = b"\
0,i,5,50
0,i,3,30
0,i,9,90
0,d,,
0,d,,
0,d,,
0,d,,
";

pub(super) const ANSWERS: &[u8] = b"\
0 i 5 0.0
0 i 3 0.1
0 i 9 0.2
0 d 3 0.1 load 30 skip 0
0 d 5 0.0 load 50 skip 0
0 d 9 0.2 load 90 skip 0
0 d none
max skip 0 bound 64
";

#[test]
fn one_thread_deletes_in_order(rt: HostRuntime) {
    assert!(rt; runs_as(&rt, (REPLAY, SCRIPT, 0, ANSWERS)));
}

/// Two threads with at most one own item each. The shared part has 2 and 3, and thread 0 has 1 in its own part. Thread
/// 1 picks 3, but its deletion takes 2, which it inserted too.
pub(super) const OWN_ORDER: &[u8] = b"\
1,i,3,0
1,i,2,0
1,i,9,0
0,i,1,0
1,d,,
";

pub(super) const OWN_ORDER_ANSWERS: &[u8] = b"\
1 i 3 1.0
1 i 2 1.1
1 i 9 1.2
0 i 1 0.0
1 d 2 1.1 load 0 skip 1
max skip 1 bound 2
";

// The words of two threads that pick the largest candidate, with at most one own item each.
const LAST_OF_TWO: &[&str] = &[
    "klsm",
    "replay",
    "--threads",
    "2",
    "--k",
    "1",
    "--pick",
    "last",
];

#[test]
fn a_deletion_skips_no_item_of_its_own_thread(rt: HostRuntime) {
    assert!(rt; runs_as(&rt, (LAST_OF_TWO, OWN_ORDER, 0, OWN_ORDER_ANSWERS)));
}

// With k = 0 there is one candidate, the least shared item.
const WITHOUT_OWN_PARTS: Expected = (
    &[
        "klsm",
        "replay",
        "--threads",
        "4",
        "--k",
        "0",
        "--pick",
        "last",
    ],
    b"\
2,i,5,0
0,i,4,0
3,d,,
1,d,,
1,d,,
",
    0,
    b"\
2 i 5 2.0
0 i 4 0.0
3 d 4 0.0 load 0 skip 0
1 d 5 2.0 load 0 skip 0
1 d none
max skip 0 bound 0
",
);

// Thread 1 has no item, and spies the larger of the two items of thread 0.
const SPIED: Expected = (
    &["klsm", "replay", "--threads", "2", "--k", "4"],
    b"\
0,i,10,0
0,i,20,0
1,d,,
0,d,,
1,d,,
",
    0,
    b"\
0 i 10 0.0
0 i 20 0.1
1 d 20 0.1 load 0 skip 1
0 d 10 0.0 load 0 skip 0
1 d none
max skip 1 bound 8
",
);

#[test]
fn threads_without_own_items(rt: HostRuntime) {
    assert!(rt; runs_as(&rt, WITHOUT_OWN_PARTS));
    assert!(rt; runs_as(&rt, SPIED));
}

// Thread 1 picks the largest candidate, and no candidate is its own.
const ITEMS_OF_ANOTHER: Expected = (
    LAST_OF_TWO,
    b"\
0,i,3,0
0,i,2,0
0,i,1,0
1,d,,
",
    0,
    b"\
0 i 3 0.0
0 i 2 0.1
0 i 1 0.2
1 d 3 0.0 load 0 skip 2
max skip 2 bound 2
",
);

// One thread picks the largest candidate, and takes its least item each time, since each is its own.
const ITEMS_OF_ITS_OWN: Expected = (
    &["klsm", "replay", "--k", "1", "--pick", "last"],
    b"\
0,i,3,0
0,i,2,0
0,i,1,0
0,d,,
0,d,,
0,d,,
",
    0,
    b"\
0 i 3 0.0
0 i 2 0.1
0 i 1 0.2
0 d 1 0.2 load 0 skip 0
0 d 2 0.1 load 0 skip 0
0 d 3 0.0 load 0 skip 0
max skip 0 bound 1
",
);

#[test]
fn the_largest_candidate_is_taken_if_none_is_the_threads_own(rt: HostRuntime) {
    assert!(rt; runs_as(&rt, ITEMS_OF_ANOTHER));
    assert!(rt; runs_as(&rt, ITEMS_OF_ITS_OWN));
}

// A script, the status, and all that is written.
const ROWS: &[(&[u8], u8, &[u8])] = &[
    (b"0,x,1,2", 1, b"refused row 1: operation\n"),
    (b"2,i,1,2", 1, b"refused row 1: thread\n"),
    (b"0,i,18446744073709551616,0", 1, b"refused row 1: key\n"),
    (b"0,i,5", 1, b"refused row 1: fields\n"),
    (b"0,i,5,", 1, b"refused row 1: load\n"),
    (b"0,d,1,", 1, b"refused row 1: key\n"),
    (
        b"0,i,5,0\n0,q,,",
        1,
        b"0 i 5 0.0\nrefused row 2: operation\n",
    ),
    (
        b"0,i,18446744073709551615,0",
        0,
        b"0 i 18446744073709551615 0.0\nmax skip 0 bound 8\n",
    ),
    (b"", 0, b"max skip 0 bound 8\n"),
];

#[test]
fn rows_that_are_refused_and_the_end_of_the_input(rt: HostRuntime) {
    let words = &["klsm", "replay", "--threads", "2", "--k", "4"];
    for (script, status, text) in ROWS {
        assert!(rt; runs_as(&rt, (words, script, *status, text)));
    }
}
