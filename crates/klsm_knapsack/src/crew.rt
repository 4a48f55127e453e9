//! All workers: how they are made, run, and joined.
ghost use Rattle.std.specs.Prelude.{ℕ, ◌≡◌, ◌≤◌, ◌<◌, [], None, Some, IfOk, IfErr, All, map, length, slice_index_or, vec_len, vec_capacity};
ghost use Rattle.klsm_parts.specs.Generators.{generator_of};
ghost use Rattle.klsm_board.specs.declared.board.Member.{Member};
ghost use Rattle.klsm_board.specs.Boards.{own_steps};
ghost use Rattle.klsm_schedules.specs.OwnSteps.{inserted};
ghost use Rattle.klsm_knapsack.specs.declared.search_state.Worker.{Worker};
ghost use Rattle.klsm_knapsack.specs.IncumbentSeats.{IsSeatAt, found_by, problem_of};
ghost use Rattle.klsm_knapsack.specs.Ends.{first_refusal};
ghost use Rattle.klsm_knapsack.specs.Workers.{GoOnWithoutRoom, HasRun, HaveEndedSo, HaveWorked, IsAtWork, AreWorkersOf, HasNotBegun, IsWorkerOf};

use crate::errors::Refusal;
use crate::incumbent::{Incumbent, IncumbentSeat};
use crate::search_state::{Listeners, SearchState, Worker};
use klsm_board::{Gate, Member};
use klsm_instance::Instance;
use klsm_parts::random_of;
use klsm_progress::{Counted, Pace, Progress};
use klsm_run::PROGRAM_K;
use std::alloc::{AllocError, Global};
use std::sync::Wait;
use std::thread;
use std::thread::Threads;

/// A worker for each member, with a seat of its own at the incumbent, and picks of its own.
pub(crate) fn make_workers<const LEVELS: usize>(
    alloc: Global,
    incumbent: &Incumbent,
    first: &mut IncumbentSeat,
    members: Vec<Member<PROGRAM_K, LEVELS>>,
) -> Result<Vec<Worker<LEVELS>>, AllocError>
    requires { IsSeatAt incumbent.now first.old }
    ensures first { IsSeatAt incumbent.now first.new }
    ensures members { IfOk result (λ crew.
        map (λ w. w.member) crew.items ≡ members.entry.items) }
    ensures seats { IfOk result (λ crew. All (λ w. IsSeatAt incumbent.now w.seat
        × (found_by w.seat ≡ 0) × (w.refused ≡ None)) crew.items) }
    ensures pickers { IfOk result (λ crew.
        All (λ w. w.picker ≡ generator_of w.member.number) crew.items) }
{
    let mut crew = Vec::new(alloc);
    for member in members {
        let picker = random_of(member.number() as u64);
        let seat = incumbent.split(first);
        let worker = Worker {
            member,
            seat,
            picker,
            pace: Pace::new(Counted::NodesExamined),
            is_alone: false,
            refused: None,
        };
        if crew.push(worker).is_err() {
            return Err(AllocError);
        }
    }
    Ok(crew)
}

/// Lets the first worker insert the root, and then all workers run, each in a thread of its own.
pub(crate) fn search<R: Threads + Wait + Sync, G: Gate, P: Progress, const LEVELS: usize>(
    rt: &R,
    state: &SearchState<LEVELS>,
    instance: &Instance,
    crew: &mut [Worker<LEVELS>],
    idle: u32,
    listeners: &Listeners<G, P>,
)
    requires problem { problem_of state.now.incumbent ≡ instance.now }
    requires crew { AreWorkersOf state.now crew.old }
    requires new { All HasNotBegun crew.old }
    requires room { 2 ≤ state.now.board.sizes.quota }
    requires pickers { All (λ w. w.picker ≡ generator_of w.member.number) crew.old }
    ensures crew { AreWorkersOf state.now crew.new }
    ensures ended { HaveEndedSo state.now.no_room idle crew.new }
    ensures room { GoOnWithoutRoom state.now.no_room crew.new }
    ensures worked { All (λ w. w.refused ≡ None) crew.new → HaveWorked instance.now crew.new }
{
    if crew[0].begin(rt, state, instance) {
        run_all(rt, state, instance, crew, idle, listeners);
    }
}

// Runs each worker in a thread of its own, which are started by halves, and waits for all.
fn run_all<R: Threads + Wait + Sync, G: Gate, P: Progress, const LEVELS: usize>(
    rt: &R,
    state: &SearchState<LEVELS>,
    instance: &Instance,
    crew: &mut [Worker<LEVELS>],
    idle: u32,
    listeners: &Listeners<G, P>,
)
    requires problem { problem_of state.now.incumbent ≡ instance.now }
    requires some { 0 < length crew.old }
    requires ready { All (λ w. IsWorkerOf state.now w
        × IsAtWork state.now.no_room instance.now w) crew.old }
    ensures { (i : ℕ) (d : Worker LEVELS) → i < length crew.old
        → HasRun state.now.no_room instance.now idle
        (slice_index_or crew.old i d) (slice_index_or crew.new i d) }
{
    let threads = crew.len();
    thread::for_each_mut(
        rt,
        crew,
        threads,
        &|_, worker: &mut Worker<LEVELS>|
            requires { IsWorkerOf state.now worker.now
                × (problem_of state.now.incumbent ≡ instance.now)
                × IsAtWork state.now.no_room instance.now worker.now }
            ensures { HasRun state.entry.now.no_room instance.entry.now idle
                worker.entry.now worker.exit.now }
        { worker.run(rt, state, instance, idle, listeners) },
    );
}

/// Joins the workers: their members go to `back`, which has room for them, and what all seats found, the
/// first one then knows. Where workers were refused, the answer is the refusal of the
/// first of them.
pub(crate) fn join_workers<const LEVELS: usize>(
    incumbent: &Incumbent,
    first: &mut IncumbentSeat,
    crew: Vec<Worker<LEVELS>>,
    back: &mut Vec<Member<PROGRAM_K, LEVELS>>,
) -> Result<(), Refusal>
    requires first { IsSeatAt incumbent.now first.old }
    requires seats { All (λ w. IsSeatAt incumbent.now w.seat) crew.items }
    requires empty { back.old.items ≡ [] }
    requires room { length crew.items ≤ vec_capacity back.old }
    ensures first { IsSeatAt incumbent.now first.new }
    ensures members { back.new.items ≡ map (λ w. w.member) crew.entry.items }
    ensures found { IfOk result (λ _.
        All (λ w. found_by w.seat ≤ found_by first.new) crew.entry.items) }
    ensures none { IfOk result (λ _.
        first_refusal (map (λ w. w.refused) crew.entry.items) ≡ None) }
    ensures refused { IfErr result (λ why.
        first_refusal (map (λ w. w.refused) crew.entry.items) ≡ Some why) }
{
    let mut refused = None;
    for worker in crew {
        refused = refused.or(worker.refused);
        incumbent.join(first, worker.seat);
        let Ok(()) = back.push(worker.member) else {
            unreachable!();
        };
    }
    match refused {
        Some(why) => Err(why),
        None => Ok(()),
    }
}
