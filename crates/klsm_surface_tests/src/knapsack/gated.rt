//! Workers that are held at a gate: two until both have come, and one until the three others have passed.

use super::instance::of_four;
use super::solved::BEST;
use klsm_board::Gate;
use klsm_knapsack::{Best, SolveError, solve};
use klsm_test_support::{LOOKS, Meeting};
use std::alloc::Global;
use std::sync::Wait;
use std::sync::atomic::{AtomicU64, Ordering};
use std::thread::Threads;

// The result of a search whose workers pass this gate.
fn solved_behind<G: Gate>(
    rt: &(impl Threads + Wait + Sync),
    alloc: Global,
    (threads, k, idle): (usize, usize, u32),
    gate: &G,
) -> Option<Result<Best, SolveError>> {
    let instance = of_four(alloc)?;
    Some(solve::<21>(rt, alloc, &instance, threads, k, idle, gate))
}

#[test]
fn two_workers_run_side_by_side(rt: HostRuntime) {
    let meeting = Meeting::new();
    assert!(rt; solved_behind(&rt, rt.alloc(), (2, 1, 8), &meeting) == Some(Ok(BEST)));
    assert!(rt; meeting.took_place());
}

// Holds worker 3 until three others have passed.
#[derive(Drop)]
struct LastOfFour {
    passed: AtomicU64,
}

impl Gate for LastOfFour {
    fn pass(&self, worker: usize) {
        if worker < 3 {
            self.passed.fetch_add(1, Ordering::SeqCst);
            return;
        }
        for _ in 0..LOOKS {
            if self.passed.load(Ordering::SeqCst) == 3 {
                return;
            }
        }
    }
}

#[test]
fn a_late_worker_changes_no_result(rt: HostRuntime) {
    let late = LastOfFour {
        passed: AtomicU64::new(0),
    };
    assert!(rt; solved_behind(&rt, rt.alloc(), (4, 16, 1), &late) == Some(Ok(BEST)));
    assert!(rt; late.passed.load(Ordering::SeqCst) == 3);
}
