//! Workers that are held up at the gate: by each other, so that they run side by side, or until one of them has told
//! how far the search has come.

use super::worked::{BEST, worked};
use crate::crowd::Crowd;
use klsm_board::Gate;
use klsm_knapsack::{Best, Instance, Listeners, SearchOptions, solve_to_the_end};
use klsm_test_support::LOOKS;
use klsm_tool::{Counted, Progress, Silent};
use std::alloc::Global;
use std::sync::Wait;
use std::sync::atomic::{AtomicBool, AtomicU64, Ordering};
use std::thread::Threads;

// What workers that pass this gate find of the worked instance.
fn found_behind<G: Gate>(
    rt: &(impl Threads + Wait + Sync),
    alloc: Global,
    gate: &G,
    options: &SearchOptions,
) -> Option<Best> {
    let instance = worked(alloc)?;
    let listeners = Listeners {
        gate,
        progress: &Silent,
    };
    solve_to_the_end::<_, _, 21>(rt, alloc, &instance, options, &listeners).ok()
}

#[test]
fn three_workers_run_side_by_side(rt: HostRuntime) {
    let gate = Crowd::of_three();
    let answer = found_behind(&rt, rt.alloc(), &gate, &SearchOptions::new(3, 1, 8));
    assert!(rt; answer == Some(BEST));
    assert!(rt; gate.took_place());
}

// Lets one of three workers pass, and holds the two others until it has told of nodes. Then that one waits
// until another one has told of some.
#[derive(Drop)]
struct Listening {
    first: usize,
    nodes: AtomicU64,
    /// How many of the others heard of nodes while they waited.
    heard: AtomicU64,
    /// Whether the first one heard of theirs.
    joined: AtomicBool,
}

impl Gate for Listening {
    fn pass(&self, worker: usize) {
        if worker == self.first {
            return;
        }
        for _ in 0..LOOKS {
            if self.nodes.load(Ordering::SeqCst) > 0 {
                self.heard.fetch_add(1, Ordering::SeqCst);
                return;
            }
        }
    }
}

impl Progress for Listening {
    fn begins(&self, _total: Option<u64>) {}

    fn went_on(&self, _counted: Counted, more: u64) {
        if self.nodes.fetch_add(more, Ordering::SeqCst) > 0 {
            return;
        }
        for _ in 0..LOOKS {
            if self.nodes.load(Ordering::SeqCst) > more {
                self.joined.store(true, Ordering::SeqCst);
                return;
            }
        }
    }

    fn ended(&self) {}
}

// Things of the value of their weight, of which no selection fills the knapsack: tens of thousands of nodes.
const THINGS: &[u8] = b"\
capacity,15
2,2\n2,2\n2,2\n2,2\n2,2\n2,2\n2,2\n2,2\n2,2\n2,2\n2,2\n2,2\n2,2\n2,2\n2,2\n2,2
";

// The value that three workers find, how many of them waited until the first one told of nodes, and whether that
// one then heard of theirs.
fn heard_of(
    rt: &(impl Threads + Wait + Sync),
    alloc: Global,
    first: usize,
) -> Option<(u64, u64, bool)> {
    let instance = Instance::read(alloc, THINGS).ok()?;
    let listening = Listening {
        first,
        nodes: AtomicU64::new(0),
        heard: AtomicU64::new(0),
        joined: AtomicBool::new(false),
    };
    let listeners = Listeners {
        gate: &listening,
        progress: &listening,
    };
    let options = SearchOptions::new(3, 1, 8);
    let best = solve_to_the_end::<_, _, 21>(rt, alloc, &instance, &options, &listeners).ok()?;
    let heard = listening.heard.load(Ordering::SeqCst);
    Some((best.value, heard, listening.joined.load(Ordering::SeqCst)))
}

#[test]
fn nodes_are_told_of_while_the_other_workers_wait(rt: HostRuntime) {
    for first in 0..3 {
        assert!(rt; heard_of(&rt, rt.alloc(), first) == Some((14, 2, true)));
    }
}
