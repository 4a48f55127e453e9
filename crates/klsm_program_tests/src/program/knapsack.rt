//! Instances of the knapsack problem: the line of each, and its status.
ghost use Rattle.std.specs.Prelude.{◌≤◌};

use super::{Told, all_go};
use klsm_board::Open;
use klsm_tool::{End, Listeners, Search, Silent, knapsack_with};
use std::alloc::Global;
use std::sync::Wait;
use std::thread::Threads;

/// The words of a process that solves an instance.
pub(super) const KNAPSACK: &[&[u8]] = &[b"klsm", b"knapsack"];

const BY_FOUR: &[&[u8]] = &[
    b"klsm",
    b"knapsack",
    b"--threads",
    b"4",
    b"--k",
    b"1",
    b"--idle",
    b"0",
];

pub(super) const INSTANCE: &[u8] = b"capacity,10\n60,5\n50,4\n70,6\n30,3\n";

pub(super) const LINE: &[u8] = b"value 120 weight 10 picks 1 2\n";

// One row more than the 32 things.
const THIRTY_THREE: &[u8] = b"\
capacity,10
1,1\n1,1\n1,1\n1,1\n1,1\n1,1\n1,1\n1,1\n1,1\n1,1\n1,1
1,1\n1,1\n1,1\n1,1\n1,1\n1,1\n1,1\n1,1\n1,1\n1,1\n1,1
1,1\n1,1\n1,1\n1,1\n1,1\n1,1\n1,1\n1,1\n1,1\n1,1\n1,1
";

// 28 things in the order in which they were drawn, of which one selection is best. In this order more
// nodes would wait than the board of a search has room for.
const DRAWN: &[u8] = b"\
capacity,7018
282,237\n1062,967\n129,164\n246,220\n894,879\n649,583\n441,488
220,196\n128,129\n598,543\n976,880\n180,102\n524,556\n796,838
631,705\n332,425\n28,122\n803,765\n106,109\n757,802\n617,532
164,129\n422,327\n574,548\n625,666\n412,453\n749,793\n896,879
";

const DRAWN_LINE: &[u8] = b"\
value 7795 weight 7017 picks 0 1 3 5 7 9 10 11 17 18 20 21 22 23 27
";

const WORKED: &[Told] = &[
    (KNAPSACK, INSTANCE, 0, LINE),
    (BY_FOUR, INSTANCE, 0, LINE),
    // The steepest thing stands last.
    (
        KNAPSACK,
        b"capacity,5\n1,5\n2,4\n60,5",
        0,
        b"value 60 weight 5 picks 2\n",
    ),
    (KNAPSACK, DRAWN, 0, DRAWN_LINE),
    (
        KNAPSACK,
        b"capacity,0\n60,5",
        0,
        b"value 0 weight 0 picks\n",
    ),
    (KNAPSACK, b"capacity,10\n", 0, b"value 0 weight 0 picks\n"),
    (KNAPSACK, b"", 1, b"refused row 1: fields\n"),
    (KNAPSACK, b"cap,10", 1, b"refused row 1: fields\n"),
    (KNAPSACK, b"capacity,x", 1, b"refused row 1: number\n"),
    (
        KNAPSACK,
        b"capacity,1000000001",
        1,
        b"refused row 1: range\n",
    ),
    (
        KNAPSACK,
        b"capacity,10\n0,5\n",
        1,
        b"refused row 2: range\n",
    ),
    (KNAPSACK, b"capacity,10\n5\n", 1, b"refused row 2: fields\n"),
    (KNAPSACK, THIRTY_THREE, 1, b"refused row 34: items\n"),
];

#[test]
fn instances_are_solved_or_refused(rt: HostRuntime) {
    assert!(rt; all_go(&rt, rt.alloc(), WORKED));
}

/// What a search writes that solves its instance.
fn line_of(
    rt: &(impl AllocGlobal + Wait + Threads + Sync),
    instance: &[u8],
    search: &Search,
) -> Option<Vec<u8>>
    requires some_thread { 1 ≤ search.now.threads }
    requires threads { search.now.threads ≤ 16 }
    requires k { search.now.k ≤ 64 }
{
    let mut text = Vec::new(rt.alloc());
    let listeners = Listeners {
        gate: &Open,
        progress: &Silent,
    };
    let report = knapsack_with(rt, instance, &mut text, search, &listeners);
    if report.end == End::Done {
        Some(text)
    } else {
        None
    }
}

/// Whether four workers find a selection of this value and this weight.
fn finds(rt: &(impl AllocGlobal + Wait + Threads + Sync), instance: &[u8], head: &[u8]) -> bool {
    let search = Search {
        threads: 4,
        k: 16,
        idle: 8,
    };
    matches!(line_of(rt, instance, &search), Some(line) if line.as_slice().starts_with(head))
}

// Of things that are all as steep as each other many selections are best, and any may be answered.
#[test]
fn things_that_are_as_steep(rt: HostRuntime) {
    let even = b"capacity,17\n1,1\n2,2\n3,3\n4,4\n5,5\n6,6\n7,7\n8,8\n9,9\n2,2\n3,3\n";
    assert!(rt; finds(&rt, even, b"value 17 weight 17 picks "));
    let odd = b"capacity,11\n4,4\n6,6\n8,8\n2,2\n4,4\n1,3\n2,6\n";
    assert!(rt; finds(&rt, odd, b"value 10 weight 10 picks "));
}

/// Whether one worker that ends after so many answers "nothing" leads to this line.
fn leads_to(
    rt: &(impl AllocGlobal + Wait + Threads + Sync),
    instance: &[u8],
    idle: u32,
    line: &[u8],
) -> bool {
    let search = Search {
        threads: 1,
        k: 0,
        idle,
    };
    matches!(line_of(rt, instance, &search), Some(found) if found.as_slice() == line)
}

// Of two selections that are best, a worker that is never idle finds the one last. One that is idle
// at once takes no node, and then the search, depth first, finds the other.
#[test]
fn a_worker_ends_when_it_is_idle(rt: HostRuntime) {
    let twins = b"capacity,5\n60,5\n60,5\n";
    assert!(rt; leads_to(&rt, twins, 0, b"value 60 weight 5 picks 0\n"));
    assert!(rt; leads_to(&rt, twins, 1, b"value 60 weight 5 picks 1\n"));
}
