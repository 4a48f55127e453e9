//! The search that no want of room ends.
ghost use Rattle.std.specs.Prelude.{◌≡◌, ◌≤◌, ◌<◌, ◌⊎◌, ◌↔◌, List, IfOk, IsErrAnd};
ghost use Rattle.klsm_run.specs.declared.limits.TheConstants.{MOST_THREADS, PROGRAM_K};
ghost use Rattle.klsm_parts.specs.Limit.{IsLevelCount};
ghost use Rattle.klsm_instance.specs.Answers.{IsBestAnswer};
ghost use Rattle.klsm_schedules.specs.declared.step.Entry.{Entry};
ghost use Rattle.klsm_knapsack.specs.Searches.{HasSearched};

use crate::errors::{SearchError, UnsolvedError};
use crate::options::SearchOptions;
use crate::search_state::{Listeners, NoRoom};
use crate::solving::solve_on_board;
use klsm_board::Gate;
use klsm_instance::{Best, Instance};
use klsm_progress::Progress;
use std::alloc::Global;
use std::sync::Wait;
use std::thread::Threads;

/// A best selection, also where the board has no room for all open nodes.
///
/// The workers search as those of `solve`, until a child finds no room. The worker that wanted to
/// insert it then searches the node depth first, without memory, and so it does with each node that it
/// takes from the board from then on. What it finds raises the incumbent at once. The root always finds room.
pub fn solve_to_the_end<G: Gate, P: Progress, const LEVELS: usize>(
    rt: &(impl Threads + Wait + Sync),
    alloc: Global,
    instance: &Instance,
    options: &SearchOptions,
    listeners: &Listeners<G, P>,
) -> Result<Best, UnsolvedError>
    requires levels { IsLevelCount LEVELS }
    ensures best { IfOk result (λ best. IsBestAnswer instance.now best) }
    ensures ran { IfOk result (λ _. (lists : List (List Entry)) × HasSearched LEVELS options.now lists) }
    ensures bad_threads { IsErrAnd result (λ why. why ≡ UnsolvedError.BadThreads)
        ↔ ((options.now.threads ≡ 0) ⊎ (MOST_THREADS < options.now.threads)) }
    ensures bad_k { IsErrAnd result (λ why. why ≡ UnsolvedError.BadK)
        ↔ ((1 ≤ options.now.threads) × (options.now.threads ≤ MOST_THREADS) × (PROGRAM_K < options.now.k)) }
    ensures bad_refill { IsErrAnd result (λ why. why ≡ UnsolvedError.BadRefill)
        ↔ ((1 ≤ options.now.threads) × (options.now.threads ≤ MOST_THREADS) × (options.now.k ≤ PROGRAM_K)
        × (options.now.k < options.now.refill)) }
{
    let no_room = NoRoom::SearchesAlone;
    match solve_on_board::<G, P, LEVELS>(rt, alloc, instance, options, listeners, no_room) {
        Ok(best) => Ok(best),
        Err(SearchError::BadThreads) => Err(UnsolvedError::BadThreads),
        Err(SearchError::BadK) => Err(UnsolvedError::BadK),
        Err(SearchError::BadRefill) => Err(UnsolvedError::BadRefill),
        Err(SearchError::Full) => unreachable!(),
        Err(SearchError::NoMemory) => Err(UnsolvedError::NoMemory),
    }
}
