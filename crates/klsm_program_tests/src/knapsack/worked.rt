//! The worked instance, and sizes for which no search begins.

use klsm_board::Open;
use klsm_knapsack::{Best, Instance, Listeners, SearchError, SearchOptions, solve_with};
use klsm_tool::Silent;
use std::alloc::Global;
use std::sync::Wait;
use std::thread::Threads;

const WORKED: &[u8] = b"capacity,10\n60,5\n50,4\n70,6\n30,3\n";

pub(super) const BEST: Best = Best {
    value: 120,
    picks: 6,
};

/// The worked instance.
pub(super) fn worked(alloc: Global) -> Option<Instance> {
    Instance::read(alloc, WORKED).ok()
}

// How a search of the worked instance ends.
fn solved(
    rt: &(impl Threads + Wait + Sync),
    alloc: Global,
    threads: usize,
    k: usize,
) -> Option<Result<Best, SearchError>> {
    let instance = worked(alloc)?;
    let listeners = Listeners {
        gate: &Open,
        progress: &Silent,
    };
    let options = SearchOptions::new(threads, k, 1);
    Some(solve_with::<_, _, 21>(rt, alloc, &instance, &options, &listeners))
}

#[test]
fn threads_are_judged_before_k(rt: HostRuntime) {
    let bad_threads = Some(Err(SearchError::BadThreads));
    assert!(rt; solved(&rt, rt.alloc(), 0, 0) == bad_threads);
    assert!(rt; solved(&rt, rt.alloc(), 65, 65) == bad_threads);
    assert!(rt; solved(&rt, rt.alloc(), 1, 65) == Some(Err(SearchError::BadK)));
}
