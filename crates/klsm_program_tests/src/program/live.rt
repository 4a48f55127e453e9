//! Scripts whose rows are run by threads: the line of each run, what becomes of a script that is not
//! run, that threads run side by side, and that each passes the gate once.

use super::{Told, all_go};
use crate::crowd::Crowd;
use klsm_test_support::Counting;
use klsm_tool::{End, Listeners, Pick, Report, ScriptSettings, Silent, live_with};

/// The words of a process that lets threads run a script.
pub(super) const LIVE: &[&[u8]] = &[b"klsm", b"live"];

const LIVE_OF_TWO: &[&[u8]] = &[b"klsm", b"live", b"--threads", b"2"];

const LIVE_BALANCED: &[&[u8]] = &[b"klsm", b"live", b"--threads", b"4", b"--balance", b"1"];

/// The line of the script of one thread.
pub(super) const TOTALS: &[u8] = b"inserted 3 deleted 3 left 0\n";

// What each thread does does not depend on the others here, or not how many items are deleted: one thread, insertions
// alone, one item that one of four threads deletes, whichever comes first, or a script that is not run.
const WORKED: &[Told] = &[
    (LIVE, b"", 0, b"inserted 0 deleted 0 left 0\n"),
    (
        LIVE,
        b"0,d,,\n0,i,1,0\n0,i,2,0",
        0,
        b"inserted 2 deleted 0 left 2\n",
    ),
    (
        LIVE_OF_TWO,
        b"1,i,1,0\n1,d,,\n1,d,,\n",
        0,
        b"inserted 1 deleted 1 left 0\n",
    ),
    (
        LIVE_BALANCED,
        b"0,i,1,0\n0,i,2,0\n1,i,3,0\n3,i,4,0\n",
        0,
        b"inserted 4 deleted 0 left 4\n",
    ),
    (
        LIVE_BALANCED,
        b"2,i,1,0\n2,d,,\n2,i,2,0\n",
        0,
        b"inserted 2 deleted 1 left 1\n",
    ),
    (
        LIVE_BALANCED,
        b"0,i,1,0\n0,d,,\n1,d,,\n",
        0,
        b"inserted 1 deleted 1 left 0\n",
    ),
    (
        LIVE,
        b"0,i,5,0\n0,q,,\n0,d\n",
        1,
        b"refused row 2: operation\n",
    ),
    (LIVE, b"0,i,5,0\n1,i,5,0\n", 1, b"refused row 2: thread\n"),
];

#[test]
fn scripts_are_run_by_threads(rt: HostRuntime) {
    assert!(rt; all_go(&rt, rt.alloc(), WORKED));
}

const OF_THREE: ScriptSettings = ScriptSettings {
    threads: 3,
    k: 64,
    refill: 0,
    balance: 0,
    pick: Pick::First,
    seed: 1,
};

// Two threads at a time would do for a meeting of two.
#[test]
fn three_threads_run_side_by_side(rt: HostRuntime) {
    let gate = Crowd::of_three();
    let mut text = Vec::new(rt.alloc());
    let script: &[u8] = b"0,i,1,0\n1,i,2,0\n2,i,3,0\n";
    let listeners = Listeners {
        gate: &gate,
        progress: &Silent,
    };
    let report = live_with(&rt, script, &mut text, &OF_THREE, &listeners);
    assert!(rt; text.as_slice() == b"inserted 3 deleted 0 left 3\n".as_slice());
    assert!(rt; report.end == End::Done && gate.took_place());
}

const OF_SIXTEEN: ScriptSettings = ScriptSettings {
    threads: 16,
    k: 64,
    refill: 0,
    balance: 0,
    pick: Pick::First,
    seed: 1,
};

// Most of the sixteen have no row.
#[test]
fn sixteen_threads_pass_the_gate_side_by_side(rt: HostRuntime) {
    let gate = Crowd::of_sixteen();
    let mut text = Vec::new(rt.alloc());
    let script: &[u8] = b"0,i,1,0\n15,i,2,0\n7,d,,\n";
    let listeners = Listeners {
        gate: &gate,
        progress: &Silent,
    };
    let report = live_with(&rt, script, &mut text, &OF_SIXTEEN, &listeners);
    assert!(rt; report.end == End::Done && gate.took_place());
}

// Three threads, of which the last has no row.
#[test]
fn each_thread_passes_the_gate_once(rt: HostRuntime) {
    let gate = Counting::new();
    let mut text = Vec::new(rt.alloc());
    let script: &[u8] = b"0,i,1,0\n1,i,2,0\n0,i,3,0\n";
    let listeners = Listeners {
        gate: &gate,
        progress: &Silent,
    };
    let report = live_with(&rt, script, &mut text, &OF_THREE, &listeners);
    assert!(rt; text.as_slice() == b"inserted 3 deleted 0 left 3\n".as_slice());
    assert!(rt; report.end == End::Done && gate.passed() == [1, 1, 1]);
}
