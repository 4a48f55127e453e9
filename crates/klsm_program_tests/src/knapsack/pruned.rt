//! Searches by one worker on boards that are full where it closes nodes later than it could.
ghost use Rattle.klsm_parts.specs.Limit.{IsLevelCount};

use klsm_board::Open;
use klsm_knapsack::{Best, Instance, Listeners, SearchError, SearchOptions, solve_with};
use klsm_tool::Silent;
use std::alloc::Global;
use std::sync::Wait;
use std::thread::Threads;

// How a search of these rows ends, by one worker that takes the least node first and ends at the
// first answer "nothing".
fn solved<const LEVELS: usize>(
    rt: &(impl Threads + Wait + Sync),
    alloc: Global,
    text: &[u8],
) -> Option<Result<Best, SearchError>>
    requires { IsLevelCount LEVELS }
{
    let instance = Instance::read(alloc, text).ok()?;
    let listeners = Listeners {
        gate: &Open,
        progress: &Silent,
    };
    let options = SearchOptions::new(1, 0, 1);
    Some(solve_with::<_, _, LEVELS>(rt, alloc, &instance, &options, &listeners))
}

// Where only selections of the last level raise the incumbent, more nodes are open at once.
#[test]
fn each_node_raises_the_incumbent(rt: HostRuntime) {
    let text = b"capacity,12\n90,9\n12,3\n18,9\n72,4\n";
    let best = Best {
        value: 102,
        picks: 3,
    };
    assert!(rt; solved::<3>(&rt, rt.alloc(), text) == Some(Ok(best)));
}

// Where a node is closed only by its own value, more nodes are open at once.
#[test]
fn a_node_is_closed_by_the_incumbent(rt: HostRuntime) {
    let text = b"capacity,12\n58,3\n36,8\n86,1\n58,3\n68,4\n52,4\n6,2\n";
    assert!(rt; matches!(solved::<4>(&rt, rt.alloc(), text), Some(Ok(_))));
}
