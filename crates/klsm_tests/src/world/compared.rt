//! Random steps, legal ones and others, compared at each step with a plain program written from the
//! definitions.

mod plain;
mod proposed;

use crate::queues::same_items;
use klsm_run::Item;
use klsm_schedules::Step;
use klsm_world::{StepError, Trace, World, WorldError, run};
use plain::Plain;
use proposed::proposed;
use rand_core::SeedableRng;
use rand_pcg::Pcg32;
use std::alloc::Global;

// A world, the plain one beside it, and the steps that both took.
#[derive(Drop)]
struct Both {
    world: World,
    plain: Plain,
    taken: Vec<Step>,
}

fn both_of(alloc: Global, threads: u32, k: usize) -> Option<Both> {
    Some(Both {
        world: World::new(alloc, threads, k).ok()?,
        plain: Plain::new(alloc, threads, k)?,
        taken: Vec::new(alloc),
    })
}

// Takes a step in both worlds, and answers whether they gave the same answer.
fn answer_same(both: &mut Both, step: Step) -> Option<bool> {
    let refusal = both.plain.refusal(&step);
    let answer = both.world.step(&step).err();
    if refusal.is_none() {
        both.plain.take_step(&step)?;
        both.taken.push(step).ok()?;
    }
    Some(answer == refusal)
}

// Whether both show the same front and the same live items, with the same ranks.
fn show_same(alloc: Global, both: &Both) -> Option<bool> {
    let live = both.world.live(alloc).ok()?;
    let same_front = both.world.front() == both.plain.front();
    Some(same_front && both.plain.shows(live.as_slice()) && has_ranks(&both.world, live.as_slice()))
}

// Whether each item has its index as its rank.
fn has_ranks(world: &World, items: &[Item]) -> bool {
    for (rank, item) in items.iter().enumerate() {
        if world.skipped(*item) != rank {
            return false;
        }
    }
    true
}

// Whether both answer and show the same at each of 2,000 random steps.
fn step_same(alloc: Global, mix: &mut Pcg32, both: &mut Both) -> Option<bool> {
    for _ in 0..2000 {
        let step = proposed(alloc, mix, &both.plain)?;
        if !answer_same(both, step)? || !show_same(alloc, both)? {
            return Some(false);
        }
    }
    Some(true)
}

// Whether all steps as one run tell what the plain world did, and are not all of one kind.
fn run_same(alloc: Global, both: &Both) -> Option<bool> {
    let (threads, k) = (both.plain.threads, both.plain.k);
    let trace = run(alloc, threads, k, both.taken.as_slice()).ok()?;
    Some(
        are_many(both)
            && tells_same(&trace, &both.plain)
            && both.plain.shows(trace.live.as_slice()),
    )
}

// Whether there are many steps, many deletions of each kind, and many keys marked and seen. With k = 0
// no item is an own one, so that none goes by the front, and none moves to an own part or back.
fn are_many(both: &Both) -> bool {
    let deleted = both.plain.deleted.len();
    let early = both.plain.early;
    both.taken.len() > 300
        && deleted.saturating_sub(early) > 20
        && both.plain.marked > 3
        && both.plain.seen > 3
        && (early > 3) == (both.plain.k > 0)
        && (both.plain.refilled > 0) == (both.plain.k > 0)
        && (both.plain.given > 0) == (both.plain.k > 0)
}

fn tells_same(trace: &Trace, plain: &Plain) -> bool {
    same_items(trace.inserted.as_slice(), plain.inserted.as_slice())
        && same_items(trace.deleted.as_slice(), plain.deleted.as_slice())
        && trace.most == plain.most
}

// Adds a step that is refused to those taken, and answers why it is.
fn add_wrong(alloc: Global, mix: &mut Pcg32, both: &mut Both) -> Option<StepError> {
    for _ in 0..1000 {
        let step = proposed(alloc, mix, &both.plain)?;
        if let Some(why) = both.plain.refusal(&step) {
            both.taken.push(step).ok()?;
            return Some(why);
        }
    }
    None
}

// Whether all steps and a wrong one behind them, as one run, are refused for that one.
fn refuse_same(alloc: Global, mix: &mut Pcg32, both: &mut Both) -> Option<bool> {
    let at = both.taken.len();
    let why = add_wrong(alloc, mix, both)?;
    let (threads, k) = (both.plain.threads, both.plain.k);
    let answer = run(alloc, threads, k, both.taken.as_slice()).err();
    Some(answer == Some(WorldError::At(at, why)))
}

// Whether both are the same step by step, as a run, and as a run that is refused.
fn all_same(alloc: Global, both: &mut Both) -> Option<bool> {
    let mut mix = Pcg32::seed_from_u64(11);
    Some(
        step_same(alloc, &mut mix, both)?
            && run_same(alloc, both)?
            && refuse_same(alloc, &mut mix, both)?,
    )
}

// Whether the worlds of so many threads and this k are the same.
fn are_same(alloc: Global, threads: u32, k: usize) -> Option<bool> {
    all_same(alloc, &mut both_of(alloc, threads, k)?)
}

#[test]
fn the_same_worlds(rt: HostRuntime) {
    for threads in 1..=4 {
        for k in 0..=3 {
            assert!(rt; are_same(rt.alloc(), threads, k) == Some(true));
        }
    }
}
