//! The run that measures.
ghost use Rattle.std.specs.Prelude.{◌≤◌, ◌<◌};
ghost use Rattle.klsm_bench.specs.declared.contenders.TheConstants.{GREATEST_K};

use crate::contenders::GREATEST_K;
use crate::own;
use crate::pair::Pair;
use crate::rounds::{Calls, ROUNDS, Rounds};
use crate::workloads::{WORKLOADS, Workload};
use rand_core::SeedableRng;
use rand_pcg::Pcg32;
use std::alloc::Global;
use std::io;
use std::sync::Wait;
use std::time::Clock;

// Insertions and deletions in turn, in one round.
const PAIRS: usize = 20_000;

// How often an own part is filled and emptied in one round.
const FILLINGS: usize = 500;

/// Prints a line for each workload, number of items and k; for insertions alone; and for own parts that are
/// filled and emptied, of a queue for one thread and then of a board of one member too.
pub(crate) fn print<R: Print + Clock + AllocGlobal + Wait>(rt: &R) -> io::Result<()> {
    println!(rt; "medians of five, in tenths of nanoseconds an operation:")?;
    println!(rt; "workload items k heap queue")?;
    for items in [1_000, 100_000, 1_000_000] {
        print_workloads(rt, items)?;
    }
    for items in [1_000, 100_000, 1_000_000] {
        print_insertions(rt, items, 64)?;
    }
    for k in [8, 64, GREATEST_K] {
        print_own(rt, k)?;
    }
    println!(rt; "calls k queue board")?;
    own::print(rt, 64)
}

fn print_workloads<R: Print + Clock + AllocGlobal>(rt: &R, items: usize) -> io::Result<()> {
    for workload in WORKLOADS {
        for k in [8, 64, GREATEST_K] {
            print_workload(rt, *workload, items, k)?;
        }
    }
    Ok(())
}

// The two that are measured, and the generator of their keys.
#[derive(Drop)]
struct Bench {
    pair: Pair,
    draws: Pcg32,
}

impl Bench {
    // Empty ones of this k. The keys are the same in each run.
    fn new(alloc: Global, k: usize) -> Self
        requires { k ≤ GREATEST_K }
    {
        Bench {
            pair: Pair::new(alloc, k),
            draws: Pcg32::seed_from_u64(42),
        }
    }

    // Empty ones of this k. The keys go on.
    fn empty(&mut self, alloc: Global, k: usize)
        requires { k ≤ GREATEST_K }
    {
        self.pair = Pair::new(alloc, k);
    }

    // Adds to a round the times of the insertions of so many keys. Whether there was room for all.
    fn time_fill<R: Clock + AllocGlobal>(
        &mut self,
        rt: &R,
        rounds: &mut Rounds,
        round: usize,
        workload: Workload,
        items: usize,
    ) -> io::Result<bool>
        requires { round < 5 }
    {
        let keys = workload.keys(rt.alloc(), &mut self.draws, 0, items)?;
        let answer = rounds.add(rt, round, &mut self.pair, Calls::Fill(keys.as_slice()))?;
        Ok(answer.is_some())
    }

    // The same of a workload, with keys that follow those of before.
    fn time_run<R: Clock + AllocGlobal>(
        &mut self,
        rt: &R,
        rounds: &mut Rounds,
        round: usize,
        workload: Workload,
        before: u64,
    ) -> io::Result<bool>
        requires { round < 5 }
    {
        let keys = workload.keys(rt.alloc(), &mut self.draws, before, PAIRS)?;
        let calls = Calls::Run(workload, keys.as_slice());
        let answer = rounds.add(rt, round, &mut self.pair, calls)?;
        Ok(answer.is_some())
    }
}

// Prints the medians, or that one of the two had no room.
fn print_timed<R: Print>(
    rt: &R,
    name: &str,
    items: usize,
    k: usize,
    operations: usize,
    rounds: Option<Rounds>,
) -> io::Result<()> {
    match rounds {
        Some(rounds) => rounds.print(rt, name, items, k, operations),
        None => println!(rt; "{name} {items} {k}: no room"),
    }
}

fn print_workload<R: Print + Clock + AllocGlobal>(
    rt: &R,
    workload: Workload,
    items: usize,
    k: usize,
) -> io::Result<()>
    requires { k ≤ GREATEST_K }
{
    let rounds = time_workload(rt, &mut Bench::new(rt.alloc(), k), workload, items)?;
    print_timed(rt, workload.name(), items, k, 2 * PAIRS, rounds)
}

// Fills both, and measures a workload on them. `None` where one of them had no room.
fn time_workload<R: Clock + AllocGlobal>(
    rt: &R,
    bench: &mut Bench,
    workload: Workload,
    items: usize,
) -> io::Result<Option<Rounds>> {
    let mut untimed = Rounds::new();
    bench.time_fill(rt, &mut untimed, 0, workload, items)?;
    let mut rounds = Rounds::new();
    for round in 0..ROUNDS {
        let before = items.wrapping_add(round * PAIRS) as u64;
        if !bench.time_run(rt, &mut rounds, round, workload, before)? {
            return Ok(None);
        }
    }
    Ok(Some(rounds))
}

fn print_insertions<R: Print + Clock + AllocGlobal>(
    rt: &R,
    items: usize,
    k: usize,
) -> io::Result<()>
    requires { k ≤ GREATEST_K }
{
    let rounds = time_insertions(rt, &mut Bench::new(rt.alloc(), k), items, k)?;
    print_timed(rt, "insertions", items, k, items, rounds)
}

// Measures insertions into empty ones. `None` where one of them had no room.
fn time_insertions<R: Clock + AllocGlobal>(
    rt: &R,
    bench: &mut Bench,
    items: usize,
    k: usize,
) -> io::Result<Option<Rounds>>
    requires { k ≤ GREATEST_K }
{
    let mut rounds = Rounds::new();
    for round in 0..ROUNDS {
        bench.empty(rt.alloc(), k);
        if !bench.time_fill(rt, &mut rounds, round, Workload::Uniform, items)? {
            return Ok(None);
        }
    }
    Ok(Some(rounds))
}

// Prints what insertions into an own part cost that has room for them, and the deletions of its items.
fn print_own<R: Print + Clock + AllocGlobal>(rt: &R, k: usize) -> io::Result<()>
    requires { k ≤ GREATEST_K }
{
    let own = time_own(rt, &mut Bench::new(rt.alloc(), k), k)?;
    own.inserted
        .print(rt, "own-insertions", k, k, FILLINGS * k)?;
    own.deleted.print(rt, "own-deletions", k, k, FILLINGS * k)
}

// An own part's insertions and deletions.
#[derive(Clone, Copy)]
struct Own {
    inserted: Rounds,
    deleted: Rounds,
}

// Measures them.
fn time_own<R: Clock + AllocGlobal>(rt: &R, bench: &mut Bench, k: usize) -> io::Result<Own> {
    let mut inserted = Rounds::new();
    let mut deleted = Rounds::new();
    for round in 0..ROUNDS {
        for _ in 0..FILLINGS {
            bench.time_fill(rt, &mut inserted, round, Workload::Uniform, k)?;
            deleted.add(rt, round, &mut bench.pair, Calls::Drain(k))?;
        }
    }
    Ok(Own { inserted, deleted })
}
