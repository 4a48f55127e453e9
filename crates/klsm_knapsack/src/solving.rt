//! The whole search.
ghost use Rattle.std.specs.Prelude.{All, ◌≡◌, ◌≢◌, ◌≤◌, ◌<◌, ◌⊎◌, ◌↔◌, List, IfOk, IfErr, IsErrAnd, length};
ghost use Rattle.klsm_run.specs.declared.limits.TheConstants.{MOST_THREADS, PROGRAM_K, PROGRAM_THREADS};
ghost use Rattle.klsm_parts.specs.Limit.{IsLevelCount};
ghost use Rattle.klsm_board.specs.Members.{sizes_of};
ghost use Rattle.klsm_board.specs.Boards.{AreMembersOf, AreNewMembersOf, IsOf};
ghost use Rattle.klsm_board.specs.Finishing.{AreListsAtEnd, lists_of};
ghost use Rattle.klsm_instance.specs.Answers.{IsBestAnswer};
ghost use Rattle.klsm_schedules.specs.declared.step.Entry.{Entry};
ghost use Rattle.klsm_knapsack.specs.Refusals.{RefusesSearch, RefusesSolve, error_of};
ghost use Rattle.klsm_knapsack.specs.Searches.{HasSearched, usual_options};

use crate::crew::{join_workers, make_workers, search};
use crate::ending::conclude;
use crate::errors::{Refusal, SearchError, SolveError};
use crate::incumbent::Incumbent;
use crate::options::SearchOptions;
use crate::search_state::{Listeners, NoRoom, SearchState};
use klsm_board::{Board, Gate, MOST_INSERTIONS, Member, SizesError};
use klsm_instance::{Best, Instance};
use klsm_progress::{Progress, Silent};
use klsm_run::{PROGRAM_K, PROGRAM_THREADS};
use std::alloc::Global;
use std::sync::Wait;
use std::thread::Threads;

/// A best selection, found by 1 to 16 workers over a board with own parts of at most k nodes, which is 64 at most.
///
/// Each worker passes the gate and then takes nodes from the board, until it was answered "nothing" `idle` times in a
/// row, or met a refusal. The nodes that are left at last are searched depth first. Where several selections are best,
/// any of them may be the answer. Where workers are refused, the answer is the refusal of the least numbered one of
/// them.
pub fn solve<const LEVELS: usize>(
    rt: &(impl Threads + Wait + Sync),
    alloc: Global,
    instance: &Instance,
    threads: usize,
    k: usize,
    idle: u32,
    gate: &impl Gate,
) -> Result<Best, SolveError>
    requires levels { IsLevelCount LEVELS }
    ensures best { IfOk result (λ best. IsBestAnswer instance.now best) }
    ensures ran { IfOk result (λ _. (lists : List (List Entry))
        × HasSearched LEVELS (usual_options threads k idle) lists) }
    ensures refused { IfErr result (RefusesSolve LEVELS threads k) }
    ensures bad_threads { IsErrAnd result (λ why. why ≡ SolveError.BadThreads)
        ↔ ((threads ≡ 0) ⊎ (PROGRAM_THREADS < threads)) }
    ensures bad_k { IsErrAnd result (λ why. why ≡ SolveError.BadK)
        ↔ ((1 ≤ threads) × (threads ≤ PROGRAM_THREADS) × (PROGRAM_K < k)) }
{
    if threads == 0 || threads > PROGRAM_THREADS {
        return Err(SolveError::BadThreads);
    }
    let options = SearchOptions::new(threads, k, idle);
    let listeners = Listeners {
        gate,
        progress: &Silent,
    };
    match solve_with::<_, _, LEVELS>(rt, alloc, instance, &options, &listeners) {
        Ok(best) => Ok(best),
        Err(SearchError::BadK) => Err(SolveError::BadK),
        Err(SearchError::BadThreads | SearchError::BadRefill) => unreachable!(),
        Err(SearchError::Full) => Err(SolveError::Full),
        Err(SearchError::NoMemory) => Err(SolveError::NoMemory),
    }
}

/// The same with all options, for 1 to 64 workers, and with a progress, which is told how many nodes were examined. A
/// worker gives the others what its own part still has before it ends.
pub fn solve_with<G: Gate, P: Progress, const LEVELS: usize>(
    rt: &(impl Threads + Wait + Sync),
    alloc: Global,
    instance: &Instance,
    options: &SearchOptions,
    listeners: &Listeners<G, P>,
) -> Result<Best, SearchError>
    requires levels { IsLevelCount LEVELS }
    ensures best { IfOk result (λ best. IsBestAnswer instance.now best) }
    ensures ran { IfOk result (λ _. (lists : List (List Entry)) × HasSearched LEVELS options.now lists) }
    ensures refused { IfErr result (λ why.
        RefusesSearch LEVELS options.now.threads options.now.k options.now.refill why) }
    ensures bad_threads { IsErrAnd result (λ why. why ≡ SearchError.BadThreads)
        ↔ ((options.now.threads ≡ 0) ⊎ (MOST_THREADS < options.now.threads)) }
    ensures bad_k { IsErrAnd result (λ why. why ≡ SearchError.BadK)
        ↔ ((1 ≤ options.now.threads) × (options.now.threads ≤ MOST_THREADS) × (PROGRAM_K < options.now.k)) }
    ensures bad_refill { IsErrAnd result (λ why. why ≡ SearchError.BadRefill)
        ↔ ((1 ≤ options.now.threads) × (options.now.threads ≤ MOST_THREADS) × (options.now.k ≤ PROGRAM_K)
        × (options.now.k < options.now.refill)) }
{
    let no_room = NoRoom::Refuses;
    solve_on_board::<G, P, LEVELS>(rt, alloc, instance, options, listeners, no_room)
}

/// The same, where workers do this with a node that finds no room.
pub(crate) fn solve_on_board<G: Gate, P: Progress, const LEVELS: usize>(
    rt: &(impl Threads + Wait + Sync),
    alloc: Global,
    instance: &Instance,
    options: &SearchOptions,
    listeners: &Listeners<G, P>,
    no_room: NoRoom,
) -> Result<Best, SearchError>
    requires levels { IsLevelCount LEVELS }
    ensures best { IfOk result (λ best. IsBestAnswer instance.now best) }
    ensures ran { IfOk result (λ _. (lists : List (List Entry)) × HasSearched LEVELS options.now lists) }
    ensures refused { IfErr result (λ why. no_room ≡ NoRoom.Refuses
        → RefusesSearch LEVELS options.now.threads options.now.k options.now.refill why) }
    ensures never_full { IfErr result (λ why. no_room ≡ NoRoom.SearchesAlone → why ≢ SearchError.Full) }
    ensures bad_threads { IsErrAnd result (λ why. why ≡ SearchError.BadThreads)
        ↔ ((options.now.threads ≡ 0) ⊎ (MOST_THREADS < options.now.threads)) }
    ensures bad_k { IsErrAnd result (λ why. why ≡ SearchError.BadK)
        ↔ ((1 ≤ options.now.threads) × (options.now.threads ≤ MOST_THREADS) × (PROGRAM_K < options.now.k)) }
    ensures bad_refill { IsErrAnd result (λ why. why ≡ SearchError.BadRefill)
        ↔ ((1 ≤ options.now.threads) × (options.now.threads ≤ MOST_THREADS) × (options.now.k ≤ PROGRAM_K)
        × (options.now.k < options.now.refill)) }
{
    let SearchOptions {
        threads,
        k,
        refill,
        idle,
    } = *options;
    let (board, members) = board_for::<LEVELS>(alloc, threads, k, refill)?;
    let Ok((incumbent, mut first)) = Incumbent::new(alloc, instance) else {
        return Err(SearchError::NoMemory);
    };
    // The members come back into this, so that no growth stands between a refusal and its answer.
    let Ok(mut back) = Vec::with_capacity(alloc, threads) else {
        return Err(SearchError::NoMemory);
    };
    let Ok(mut crew) = make_workers(alloc, &incumbent, &mut first, members) else {
        return Err(SearchError::NoMemory);
    };
    let state = SearchState {
        board,
        incumbent,
        no_room,
    };
    search(rt, &state, instance, crew.as_mut_slice(), idle, listeners);
    if let Err(why) = join_workers(&state.incumbent, &mut first, crew, &mut back) {
        return Err(error_in_one_hand(&state.board, back, no_room, why));
    }
    let SearchState {
        board,
        incumbent,
        ..
    } = state;
    let number = incumbent.finish(first);
    let Ok(account) = board.finish(alloc, back) else {
        return Err(SearchError::NoMemory);
    };
    Ok(conclude(instance, number, account.left.as_slice()))
}

// The board of a search, and its members.
fn board_for<const LEVELS: usize>(
    alloc: Global,
    threads: usize,
    k: usize,
    refill: usize,
) -> Result<(Board<PROGRAM_K, LEVELS>, Vec<Member<PROGRAM_K, LEVELS>>), SearchError>
    requires levels { IsLevelCount LEVELS }
    ensures sizes { IfOk result (λ made. made.0.sizes
        ≡ record (sizes_of threads k) { refill = refill }) }
    ensures in_range { IfOk result (λ _. (1 ≤ threads) × (threads ≤ MOST_THREADS) × (k ≤ PROGRAM_K)) }
    ensures refill { IfOk result (λ _. refill ≤ k) }
    ensures of { IfOk result (λ made. All (λ member. IsOf member made.0) made.1.items) }
    ensures count { IfOk result (λ made. length made.1.items ≡ threads) }
    ensures crew { IfOk result (λ made. AreNewMembersOf made.0 made.1.items) }
    ensures refused { IfErr result (λ why. RefusesSearch LEVELS threads k refill why) }
    ensures never_full { IfErr result (λ why. why ≢ SearchError.Full) }
    ensures bad_threads { IsErrAnd result (λ why. why ≡ SearchError.BadThreads)
        ↔ ((threads ≡ 0) ⊎ (MOST_THREADS < threads)) }
    ensures bad_k { IsErrAnd result (λ why. why ≡ SearchError.BadK)
        ↔ ((1 ≤ threads) × (threads ≤ MOST_THREADS) × (PROGRAM_K < k)) }
    ensures bad_refill { IsErrAnd result (λ why. why ≡ SearchError.BadRefill)
        ↔ ((1 ≤ threads) × (threads ≤ MOST_THREADS) × (k ≤ PROGRAM_K) × (k < refill)) }
{
    match Board::with_refill(alloc, threads, k, MOST_INSERTIONS, refill) {
        Ok(made) => Ok(made),
        Err(SizesError::BadThreads) => Err(SearchError::BadThreads),
        Err(SizesError::BadK) => Err(SearchError::BadK),
        Err(SizesError::BadQuota) => unreachable!(),
        Err(SizesError::BadRefill) => Err(SearchError::BadRefill),
        Err(SizesError::NoMemory) => Err(SearchError::NoMemory),
    }
}

// The error of a search of which a worker was refused for this reason. Workers that go on without room did not
// lack it.
fn error_in_one_hand<const LEVELS: usize>(
    board: &Board<PROGRAM_K, LEVELS>,
    members: Vec<Member<PROGRAM_K, LEVELS>>,
    no_room: NoRoom,
    why: Refusal,
) -> SearchError
    requires crew { AreMembersOf board.now members.items }
    requires room { no_room ≡ NoRoom.SearchesAlone → why ≡ Refusal.Full
        → ¬ (AreListsAtEnd board.now.sizes (lists_of board.now.sizes.threads members.items)) }
    ensures error { result ≡ error_of why }
    ensures never_full { no_room ≡ NoRoom.SearchesAlone → result ≢ SearchError.Full }
{
    match no_room {
        NoRoom::Refuses => why.error(),
        NoRoom::SearchesAlone => memory_in_one_hand(board, members, why),
    }
}

// Why a worker was refused that goes on without room: memory was wanted. Once all members are in one hand, their
// lists are those of one schedule, by which the root, the first item of its board, found room.
fn memory_in_one_hand<const LEVELS: usize>(
    board: &Board<PROGRAM_K, LEVELS>,
    members: Vec<Member<PROGRAM_K, LEVELS>>,
    why: Refusal,
) -> SearchError
    requires crew { AreMembersOf board.now members.items }
    requires room { why ≡ Refusal.Full
        → ¬ (AreListsAtEnd board.now.sizes (lists_of board.now.sizes.threads members.items)) }
    ensures error { result ≡ error_of why }
    ensures memory { result ≡ SearchError.NoMemory }
{
    // All members are back.
    let Ok(_all) = board.gather(members) else {
        unreachable!();
    };
    match why {
        Refusal::Full => unreachable!(),
        Refusal::NoMemory => SearchError::NoMemory,
    }
}
