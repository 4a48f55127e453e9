//! Searches for which the board has no room, so that workers go on alone.
ghost use Rattle.klsm_parts.specs.Limit.{IsLevelCount};

use super::worked::{BEST, worked};
use klsm_board::Open;
use klsm_knapsack::{Best, Instance, Listeners, SearchOptions, UnsolvedError, solve_to_the_end};
use klsm_tool::{Counted, Progress, Silent};
use std::alloc::Global;
use std::sync::Wait;
use std::sync::atomic::{AtomicU64, Ordering};
use std::thread::Threads;

// How a search of the worked instance ends.
fn solved<const LEVELS: usize>(
    rt: &(impl Threads + Wait + Sync),
    alloc: Global,
    threads: usize,
    k: usize,
) -> Option<Result<Best, UnsolvedError>>
    requires { IsLevelCount LEVELS }
{
    let instance = worked(alloc)?;
    let listeners = Listeners {
        gate: &Open,
        progress: &Silent,
    };
    let options = SearchOptions::new(threads, k, 4);
    Some(solve_to_the_end::<_, _, LEVELS>(rt, alloc, &instance, &options, &listeners))
}

#[test]
fn small_boards_are_no_hindrance(rt: HostRuntime) {
    for threads in [1, 2, 4] {
        for k in [0, 1, 64] {
            assert!(rt; solved::<1>(&rt, rt.alloc(), threads, k) == Some(Ok(BEST)));
            assert!(rt; solved::<2>(&rt, rt.alloc(), threads, k) == Some(Ok(BEST)));
            assert!(rt; solved::<3>(&rt, rt.alloc(), threads, k) == Some(Ok(BEST)));
        }
    }
}

// How a search with this refill ends.
fn refilled(
    rt: &(impl Threads + Wait + Sync),
    alloc: Global,
    threads: usize,
    k: usize,
    refill: usize,
) -> Option<Result<Best, UnsolvedError>> {
    let instance = worked(alloc)?;
    let listeners = Listeners {
        gate: &Open,
        progress: &Silent,
    };
    let options = SearchOptions {
        refill,
        ..SearchOptions::new(threads, k, 4)
    };
    Some(solve_to_the_end::<_, _, 2>(rt, alloc, &instance, &options, &listeners))
}

#[test]
fn arguments_are_judged(rt: HostRuntime) {
    let bad_threads = Some(Err(UnsolvedError::BadThreads));
    assert!(rt; refilled(&rt, rt.alloc(), 0, 65, 66) == bad_threads);
    assert!(rt; refilled(&rt, rt.alloc(), 65, 65, 66) == bad_threads);
    assert!(rt; refilled(&rt, rt.alloc(), 1, 65, 66) == Some(Err(UnsolvedError::BadK)));
    assert!(rt; refilled(&rt, rt.alloc(), 1, 4, 5) == Some(Err(UnsolvedError::BadRefill)));
    assert!(rt; refilled(&rt, rt.alloc(), 1, 4, 4) == Some(Ok(BEST)));
}

/// Sums how many nodes were told of.
#[derive(Drop)]
struct Examined(AtomicU64);

impl Progress for Examined {
    fn begins(&self, _total: Option<u64>) {}

    fn went_on(&self, _counted: Counted, more: u64) {
        self.0.fetch_add(more, Ordering::SeqCst);
    }

    fn ended(&self) {}
}

// Things of the value of their weight, of which no selection fills the knapsack, and no two are the same.
const THINGS: &[u8] = b"\
capacity,401
30,30\n32,32\n34,34\n36,36\n38,38\n40,40\n42,42\n44,44\n46,46
48,48\n50,50\n52,52\n54,54\n56,56\n58,58\n60,60\n62,62\n64,64
";

// The value that one worker finds on a board with room for one node, and how many nodes it told of.
fn searched_alone(rt: &(impl Threads + Wait + Sync), alloc: Global) -> Option<(u64, u64)> {
    let instance = Instance::read(alloc, THINGS).ok()?;
    let examined = Examined(AtomicU64::new(0));
    let listeners = Listeners {
        gate: &Open,
        progress: &examined,
    };
    let options = SearchOptions::new(1, 0, 1);
    let best = solve_to_the_end::<_, _, 1>(rt, alloc, &instance, &options, &listeners).ok()?;
    Some((best.value, examined.0.load(Ordering::SeqCst)))
}

#[test]
fn a_worker_that_searches_alone_tells_how_far_it_has_come(rt: HostRuntime) {
    let told = searched_alone(&rt, rt.alloc());
    assert!(rt; matches!(told, Some((400, nodes)) if nodes >= 4096 && nodes % 4096 == 0));
}
