//! Searches of one instance: the same result for each number of workers and each k, and boards that are full.
ghost use Rattle.klsm_parts.specs.Limit.{IsLevelCount};

use super::instance::of_four;
use klsm_board::Open;
use klsm_knapsack::{Best, Instance, SolveError, solve, solve_in_turn};
use std::alloc::Global;
use std::sync::Wait;
use std::thread::Threads;

/// The best selection: things 1 and 2.
pub(super) const BEST: Best = Best {
    value: 120,
    picks: 6,
};

// The result of a search.
fn solved<const LEVELS: usize>(
    rt: &(impl Threads + Wait + Sync),
    alloc: Global,
    threads: usize,
    k: usize,
    idle: u32,
) -> Option<Result<Best, SolveError>>
    requires { IsLevelCount LEVELS }
{
    let instance = of_four(alloc)?;
    Some(solve::<LEVELS>(rt, alloc, &instance, threads, k, idle, &Open))
}

// What a search in one thread finds.
fn solved_in_turn(alloc: Global) -> Option<Best> {
    let instance = of_four(alloc)?;
    Some(solve_in_turn(&instance))
}

#[test]
fn one_result_for_each_number_of_workers(rt: HostRuntime) {
    assert!(rt; solved_in_turn(rt.alloc()) == Some(BEST));
    for threads in [1, 2, 4] {
        for k in [0, 1, 16] {
            assert!(rt; solved::<21>(&rt, rt.alloc(), threads, k, 8) == Some(Ok(BEST)));
        }
    }
}

#[test]
fn workers_that_take_no_node_change_no_result(rt: HostRuntime) {
    assert!(rt; solved::<21>(&rt, rt.alloc(), 4, 16, 0) == Some(Ok(BEST)));
}

// The root fills a board of one level, and the second of its two children finds no room. A board of two levels is full
// at the second node, and a board of three levels at the fifth.
#[test]
fn small_boards_are_full(rt: HostRuntime) {
    let full = Some(Err(SolveError::Full));
    assert!(rt; solved::<1>(&rt, rt.alloc(), 1, 0, 1) == full);
    assert!(rt; solved::<2>(&rt, rt.alloc(), 1, 0, 1) == full);
    assert!(rt; solved::<3>(&rt, rt.alloc(), 1, 0, 1) == full);
    assert!(rt; solved::<4>(&rt, rt.alloc(), 1, 0, 1) == Some(Ok(BEST)));
}

#[test]
fn workers_are_judged_before_k(rt: HostRuntime) {
    let bad_threads = Some(Err(SolveError::BadThreads));
    assert!(rt; solved::<21>(&rt, rt.alloc(), 0, 0, 1) == bad_threads);
    assert!(rt; solved::<21>(&rt, rt.alloc(), 17, 65, 1) == bad_threads);
    assert!(rt; solved::<21>(&rt, rt.alloc(), 1, 65, 1) == Some(Err(SolveError::BadK)));
}

// The best selection of another instance, in one thread and by two workers.
fn both_find(rt: &(impl Threads + Wait + Sync), alloc: Global, text: &[u8]) -> Option<[Best; 2]> {
    let instance = Instance::read(alloc, text).ok()?;
    let by_two = solve::<21>(rt, alloc, &instance, 2, 1, 8, &Open).ok()?;
    Some([solve_in_turn(&instance), by_two])
}

#[test]
fn nothing_is_taken_if_nothing_fits(rt: HostRuntime) {
    let nothing = Best { value: 0, picks: 0 };
    let no_capacity = b"capacity,0\n60,5\n50,4\n70,6\n30,3\n";
    assert!(rt; both_find(&rt, rt.alloc(), no_capacity) == Some([nothing, nothing]));
    assert!(rt; both_find(&rt, rt.alloc(), b"capacity,10\n") == Some([nothing, nothing]));
}
