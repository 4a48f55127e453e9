//! `klsm live`: the totals of threads that run the rows of a script.

use super::replay::SCRIPT;
use super::words::{Expected, runs_as};
use klsm_test_support::Meeting;
use klsm_tool::{End, Pick, Report, Settings, live_over};

const LIVE: &[&str] = &["klsm", "live"];

/// The totals of the script of one thread.
pub(super) const TOTALS: &[u8] = b"inserted 3 deleted 3 left 0\n";

// One thread; two threads that insert; and a script that is refused, so that no thread runs it.
const ROWS: &[Expected] = &[
    (LIVE, SCRIPT, 0, TOTALS),
    (
        &["klsm", "live", "--threads", "2"],
        b"0,i,1,0\n1,i,2,0\n",
        0,
        b"inserted 2 deleted 0 left 2\n",
    ),
    (LIVE, b"0,x,1,2", 1, b"refused row 1: operation\n"),
];

#[test]
fn totals_of_threads(rt: HostRuntime) {
    for row in ROWS {
        assert!(rt; runs_as(&rt, *row));
    }
}

const OF_TWO: Settings = Settings {
    threads: 2,
    k: 64,
    pick: Pick::First,
    seed: 1,
};

#[test]
fn two_threads_run_side_by_side(rt: HostRuntime) {
    let meeting = Meeting::new();
    let mut text = Vec::new(rt.alloc());
    let script: &[u8] = b"0,i,1,0\n1,i,2,0\n";
    let report = live_over(&rt, script, &mut text, &OF_TWO, &meeting);
    let want = Report {
        end: End::Done,
        written: 28,
    };
    assert!(rt; text.as_slice() == b"inserted 2 deleted 0 left 2\n".as_slice() && report == want);
    assert!(rt; meeting.took_place());
}
