//! `klsm knapsack`: a best selection of the things of an instance.
ghost use Rattle.std.specs.Prelude.{◌≡◌, ◌≤◌, Option, ℕ, List, IfErr, IfOk};
ghost use Rattle.klsm_run.specs.declared.limits.TheConstants.{PROGRAM_K, PROGRAM_THREADS};
ghost use Rattle.klsm_instance.specs.Answers.{IsBestAnswer};
ghost use Rattle.klsm_instance.specs.Format.{IsProblemIn, RefusesInput};
ghost use Rattle.klsm_tool.specs.Knapsack.{IsSearchedBy, Solves, SolvesProblem, RefusesIn, WritesBest};

use crate::advising::advise_on_instance;
use klsm_board::Gate;
use klsm_knapsack::{
    Best, Instance, Listeners, ReadError, SearchOptions, UnsolvedError, solve_to_the_end,
};
use klsm_progress::Progress;
use klsm_run::PROGRAM_LEVELS;
use klsm_text::{End, NO_MEMORY, Report, refusal_text, selection_text, write_last};
use klsm_words::Search;
use std::alloc::Global;
use std::io::{Read, Write};
use std::sync::Wait;
use std::thread::Threads;

/// Reads an instance, solves it with workers in threads of their own, and writes a best selection.
///
/// Each worker passes the gate first, and ends after `idle` answers "nothing" in a row. A long search is told
/// of while it lasts.
pub fn knapsack_with<
    P: AllocGlobal + Wait + Threads + Sync,
    R: Read + Drop,
    W: Write,
    G: Gate,
    H: Progress,
>(rt: &P, reader: R, writer: &mut W, search: &Search, listeners: &Listeners<G, H>) -> Report
    requires some_thread { 1 ≤ search.now.threads }
    requires threads { search.now.threads ≤ PROGRAM_THREADS }
    requires k { search.now.k ≤ PROGRAM_K }
    ensures { Solves search.now (R.remaining reader) (W.contents writer.old) (W.contents writer.new) result }
{
    match Instance::read(rt.alloc(), reader) {
        Ok(instance) => solve_read(rt, writer, &instance, search, listeners),
        Err(why) => {
            let report = refuse(writer, why);
            advise_on_instance(listeners.progress, why);
            report
        }
    }
}

// Solves an instance, and writes a best selection or why there is none.
fn solve_read<P: AllocGlobal + Wait + Threads + Sync, W: Write, G: Gate, H: Progress>(
    rt: &P,
    writer: &mut W,
    instance: &Instance,
    search: &Search,
    listeners: &Listeners<G, H>,
) -> Report
    requires some_thread { 1 ≤ search.now.threads }
    requires threads { search.now.threads ≤ PROGRAM_THREADS }
    requires k { search.now.k ≤ PROGRAM_K }
    ensures { SolvesProblem search.now instance.now (W.contents writer.old) (W.contents writer.new) result }
{
    match solve_reordered(rt, instance, search, listeners) {
        Ok(best) => write_selection(rt.alloc(), writer, instance, &best),
        Err(_) => write_last(writer, NO_MEMORY, 0, End::NoMemory),
    }
}

// Solves an instance, whatever the order of its things: the search goes over them with those of the
// greatest value for their weight first, since bounds are closer then.
fn solve_reordered<P: AllocGlobal + Wait + Threads + Sync, G: Gate, H: Progress>(
    rt: &P,
    instance: &Instance,
    search: &Search,
    listeners: &Listeners<G, H>,
) -> Result<Best, UnsolvedError>
    requires some_thread { 1 ≤ search.now.threads }
    requires threads { search.now.threads ≤ PROGRAM_THREADS }
    requires k { search.now.k ≤ PROGRAM_K }
    ensures best { IfOk result (λ best. IsBestAnswer instance.now best) }
    ensures ran { IfOk result (λ _. IsSearchedBy search.now) }
    ensures memory { IfErr result (λ why. why ≡ UnsolvedError.NoMemory) }
{
    let Ok(steepest) = instance.steepest_first(rt.alloc()) else {
        return Err(UnsolvedError::NoMemory);
    };
    let best = solve_heard(rt, steepest.instance(), search, listeners)?;
    Ok(steepest.restored(best))
}

// Solves an instance. Who hears of it is told when it begins and ends, so that no line stands before the
// answer.
fn solve_heard<P: AllocGlobal + Wait + Threads + Sync, G: Gate, H: Progress>(
    rt: &P,
    instance: &Instance,
    search: &Search,
    listeners: &Listeners<G, H>,
) -> Result<Best, UnsolvedError>
    ensures best { IfOk result (λ best. IsBestAnswer instance.now best) }
    ensures ran { IfOk result (λ _. IsSearchedBy search.now) }
    ensures memory { 1 ≤ search.now.threads → search.now.threads ≤ PROGRAM_THREADS → search.now.k ≤ PROGRAM_K
        → IfErr result (λ why. why ≡ UnsolvedError.NoMemory) }
{
    listeners.progress.begins(None);
    let options = SearchOptions::new(search.threads, search.k, search.idle);
    let answer = solve_to_the_end::<G, H, PROGRAM_LEVELS>(
        rt,
        rt.alloc(),
        instance,
        &options,
        listeners,
    );
    listeners.progress.ended();
    answer
}

// Writes why no instance was read.
fn refuse<W: Write>(writer: &mut W, why: ReadError) -> Report
    ensures { RefusesIn (W.contents writer.old) (W.contents writer.new) why result }
{
    let end = match why {
        ReadError::ReadFault => End::ReadFault,
        ReadError::NoMemory => End::NoMemory,
        _ => End::Refused,
    };
    write_last(writer, refusal_text(why).as_bytes(), 0, end)
}

// Writes a selection, or that there is no memory for its line.
fn write_selection<W: Write>(
    alloc: Global,
    writer: &mut W,
    instance: &Instance,
    best: &Best,
) -> Report
    ensures { WritesBest (W.contents writer.old) (W.contents writer.new) instance.now best.now
        result }
{
    match selection_text(alloc, instance, best) {
        Ok(text) => write_last(writer, text.as_slice(), 0, End::Done),
        Err(_) => write_last(writer, NO_MEMORY, 0, End::NoMemory),
    }
}
