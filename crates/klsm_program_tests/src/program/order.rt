//! What comes before what: words are judged before any input is read, no thread runs where a row or an
//! instance is refused, and each worker passes its gate before its first row.

use super::knapsack::{INSTANCE, LINE};
use super::repeated::repeated;
use super::run;
use crate::crowd::Crowd;
use klsm_board::Gate;
use klsm_test_support::{Counting, Input, Meeting, Output};
use klsm_tool::{
    Counted, End, Listeners, Pick, Progress, ScriptSettings, Search, Silent, knapsack_with,
    live_with,
};
use std::alloc::Global;
use std::cell::Cell;
use std::io;
use std::io::Read;
use std::sync::Wait;
use std::sync::atomic::{AtomicU64, Ordering};
use std::thread::Threads;

/// Notes how often an input is asked for bytes.
#[derive(Drop)]
struct Noting<'a> {
    input: Input<'a>,
    reads: &'a Cell<u64>,
}

impl Read for Noting<'_> {
    fn read(&mut self, buf: &mut [u8]) -> io::Result<usize> {
        self.reads.set(self.reads.get().saturating_add(1));
        self.input.read(buf)
    }
}

/// How often a process of these words asks for input.
fn reads_of(rt: &(impl Wait + Threads + Sync), alloc: Global, words: &[&[u8]]) -> u64 {
    let reads = Cell::new(0);
    let input = Noting {
        input: Input::whole(b"0,d,,\n"),
        reads: &reads,
    };
    run(rt, alloc, words, input, &mut Output::ample(alloc));
    reads.get()
}

/// Words that ask for a run.
const RUNS: &[&[&[u8]]] = &[
    &[b"klsm", b"replay"],
    &[b"klsm", b"live"],
    &[b"klsm", b"knapsack"],
];

/// Words that ask for none: they name no command, or an option does not let its value through, or its
/// value is no pick, or they ask for help, or one is not UTF-8.
const OTHERS: &[&[&[u8]]] = &[
    &[b"klsm"],
    &[b"klsm", b"lives"],
    &[b"klsm", b"replay", b"more"],
    &[b"klsm", b"replay", b"--threads", b"17"],
    &[b"klsm", b"live", b"--k", b"65"],
    &[b"klsm", b"knapsack", b"--idle", b"1000001"],
    &[b"klsm", b"replay", b"--pick", b"least"],
    &[b"klsm", b"live", b"--pick", b"least"],
    &[b"klsm", b"--help"],
    &[b"klsm", b"replay", b"--help"],
    &[b"klsm", b"live", b"--help"],
    &[b"klsm", b"help", b"knapsack"],
    &[b"klsm", b"\xff"],
    &[b"klsm", b"replay", b"\xc3"],
    &[b"klsm", b"knapsack", b"--idle", b"\xff"],
];

#[test]
fn words_are_judged_before_any_input_is_read(rt: HostRuntime) {
    for words in RUNS {
        assert!(rt; reads_of(&rt, rt.alloc(), words) > 0);
    }
    for words in OTHERS {
        assert!(rt; reads_of(&rt, rt.alloc(), words) == 0);
    }
}

const OF_TWO: ScriptSettings = ScriptSettings {
    threads: 2,
    k: 64,
    refill: 0,
    balance: 0,
    pick: Pick::First,
    seed: 1,
};

const OF_THREE: ScriptSettings = ScriptSettings {
    threads: 3,
    k: 64,
    refill: 0,
    balance: 0,
    pick: Pick::First,
    seed: 1,
};

/// How often each of three threads passes the gate, and how the run ends, over this input.
fn passed_over(rt: &(impl AllocGlobal + Wait + Threads + Sync), input: Input) -> ([u64; 3], End) {
    let gate = Counting::new();
    let mut text = Vec::new(rt.alloc());
    let listeners = Listeners {
        gate: &gate,
        progress: &Silent,
    };
    let report = live_with(rt, input, &mut text, &OF_THREE, &listeners);
    (gate.passed(), report.end)
}

/// Scripts of which a row is refused, behind rows that each thread might run.
const REFUSED: &[&[u8]] = &[
    b"0,q,,\n",
    b"0,i,1,0\n1,i,2,0\n2,i,3,0\n3,d,,\n",
    b"0,i,1,0\n1,i,2,0\n2,d,1,\n0,d,,\n",
];

#[test]
fn no_thread_runs_where_a_row_is_refused(rt: HostRuntime) {
    let whole = Input::whole(b"0,i,1,0\n1,d,,\n");
    assert!(rt; passed_over(&rt, whole) == ([1, 1, 1], End::Done));
    for script in REFUSED {
        let found = passed_over(&rt, Input::whole(script));
        assert!(rt; found == ([0, 0, 0], End::Refused));
    }
}

#[test]
fn no_thread_runs_where_reading_fails(rt: HostRuntime) {
    let failing = Input {
        left: b"0,i,1,0\n1,i,2,0\n2,d,,\n",
        at_a_time: 4096,
        fails: true,
    };
    assert!(rt; passed_over(&rt, failing) == ([0, 0, 0], End::ReadFault));
}

/// How often each of three workers passes the gate, and how the search ends, over this instance.
fn passed_by_workers(
    rt: &(impl AllocGlobal + Wait + Threads + Sync),
    instance: &[u8],
) -> ([u64; 3], End) {
    let gate = Counting::new();
    let mut text = Vec::new(rt.alloc());
    let listeners = Listeners {
        gate: &gate,
        progress: &Silent,
    };
    let search = Search {
        threads: 3,
        k: 1,
        idle: 8,
    };
    let report = knapsack_with(rt, instance, &mut text, &search, &listeners);
    (gate.passed(), report.end)
}

#[test]
fn each_worker_of_a_search_passes_the_gate_once(rt: HostRuntime) {
    let found = passed_by_workers(&rt, b"capacity,10\n60,5\n50,4\n70,6\n30,3\n");
    assert!(rt; found == ([1, 1, 1], End::Done));
    let found = passed_by_workers(&rt, b"capacity,10\n60,5\n50,0\n");
    assert!(rt; found == ([0, 0, 0], End::Refused));
}

// Five threads in the place of sixteen would not do.
#[test]
fn sixteen_workers_of_a_search_pass_the_gate_side_by_side(rt: HostRuntime) {
    let gate = Crowd::of_sixteen();
    let mut text = Vec::new(rt.alloc());
    let listeners = Listeners {
        gate: &gate,
        progress: &Silent,
    };
    let search = Search {
        threads: 16,
        k: 1,
        idle: 8,
    };
    let report = knapsack_with(&rt, INSTANCE, &mut text, &search, &listeners);
    assert!(rt; text.as_slice() == LINE && report.end == End::Done);
    assert!(rt; gate.took_place());
}

/// So many rows a thread runs before it tells of them.
const STRIDE: usize = 4096;

/// A gate at which two workers meet, and at which each notes how many rows it has heard of by then.
#[derive(Drop)]
struct Hall {
    meeting: Meeting,
    /// How many rows were run, as far as it was told.
    rows: AtomicU64,
    heard: [AtomicU64; 2],
}

impl Hall {
    fn new() -> Self {
        Hall {
            meeting: Meeting::new(),
            rows: AtomicU64::new(0),
            heard: [AtomicU64::new(0), AtomicU64::new(0)],
        }
    }
}

impl Progress for Hall {
    fn begins(&self, _total: Option<u64>) {
        self.rows.store(0, Ordering::SeqCst);
    }

    fn went_on(&self, _counted: Counted, more: u64) {
        self.rows.fetch_add(more, Ordering::SeqCst);
    }

    fn ended(&self) {}
}

impl Gate for Hall {
    fn pass(&self, worker: usize) {
        if let Some(heard) = self.heard.get(worker) {
            heard.store(self.rows.load(Ordering::SeqCst), Ordering::SeqCst);
        }
        self.meeting.pass(worker);
    }
}

/// Whether each of two threads, which have rows enough to tell of, came to the gate before any row was
/// run, and told of its rows behind it.
fn come_before_rows(rt: &(impl AllocGlobal + Wait + Threads + Sync)) -> Option<bool> {
    let script = repeated(rt.alloc(), b"0,d,,\n1,d,,\n", STRIDE)?;
    let hall = Hall::new();
    let mut text = Vec::new(rt.alloc());
    let listeners = Listeners {
        gate: &hall,
        progress: &hall,
    };
    let report = live_with(rt, script.as_slice(), &mut text, &OF_TWO, &listeners);
    let [first, second] = &hall.heard;
    let heard = (first.load(Ordering::SeqCst), second.load(Ordering::SeqCst));
    let rows = hall.rows.load(Ordering::SeqCst);
    let met = hall.meeting.took_place();
    Some(report.end == End::Done && met && heard == (0, 0) && rows == 2 * STRIDE as u64)
}

#[test]
fn each_worker_passes_the_gate_before_its_first_row(rt: HostRuntime) {
    assert!(rt; come_before_rows(&rt) == Some(true));
}
