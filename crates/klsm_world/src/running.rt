//! A list of steps, run from the first world.
ghost use Rattle.std.specs.Prelude.{◌≡◌, ◌≢◌, ◌++◌, [], ◌∷◌, IfErr, IfOk, OnOk, option_to_list};
ghost use Rattle.std.specs.List.{flat_map, sum_by};
ghost use Rattle.klsm_run.specs.Content.{skipped};
ghost use Rattle.klsm_schedules.specs.OwnSteps.{inserted_by, deleted_by};
ghost use Rattle.klsm_schedules.specs.RelaxedQueue.{event_of};
ghost use Rattle.klsm_world.specs.Traces.{IsTrace, RefusesRun};
ghost use Rattle.klsm_schedules.specs.Worlds.{limits_of, live};

use crate::errors::{StepError, WorldError};
use crate::world::World;
use klsm_run::Item;
use klsm_schedules::{Event, Items, Step};
use std::alloc::{Allocator, Global};

/// What a run did, and what it left.
#[derive(Drop)]
#[derive_where(Debug, PartialEq, Eq)]
pub struct Trace<A: Allocator = Global> {
    /// The items inserted, in the order of their steps.
    pub inserted: Items<A>,
    /// The items deleted, in the order of their steps.
    pub deleted: Items<A>,
    /// The most live items that a deletion skipped, and 0 without a deletion.
    pub most: usize,
    /// The items left, ascending.
    pub live: Items<A>,
}

/// Runs steps in a world of `threads` threads, with at most `k` items in an own part, from the
/// first world on. Its cost is that of the steps, and a look at each live item for each deletion.
pub fn run<A: Allocator + Copy>(
    alloc: A,
    threads: u32,
    k: usize,
    steps: &[Step],
) -> Result<Trace<A>, WorldError>
    ensures trace { IfOk result (λ trace. IsTrace (limits_of threads k) steps.now
        trace.inserted trace.deleted trace.most trace.live) }
    ensures refused { IfErr result (λ why. RefusesRun (limits_of threads k) steps.now why) }
{
    let mut world = World::new(alloc, threads, k)?;
    let mut inserted = Vec::new(alloc);
    let mut deleted = Vec::new(alloc);
    let mut most = 0;
    for index in 0..steps.len() {
        let step = &steps[index];
        let skip = skip_of(&world, step);
        if let Err(why) = world.step(step) {
            return Err(refused_at(index, why));
        }
        push_some(&mut inserted, inserted_item(step))?;
        push_some(&mut deleted, deleted_item(step))?;
        most = most.max(skip);
    }
    let live = world.live(alloc)?;
    Ok(Trace {
        inserted: Items::new(inserted),
        deleted: Items::new(deleted),
        most,
        live,
    })
}

// Why a run is refused whose step at `index` was.
fn refused_at(index: usize, why: StepError) -> WorldError
    ensures no_memory { why ≡ StepError.NoMemory → result ≡ WorldError.NoMemory }
    ensures at_step { why ≢ StepError.NoMemory → result ≡ WorldError.At index why }
{
    match why {
        StepError::NoMemory => WorldError::NoMemory,
        _ => WorldError::At(index, why),
    }
}

// The item that a step inserts.
fn inserted_item(step: &Step) -> Option<Item>
    ensures { option_to_list result ≡ flat_map inserted_by (event_of step.now) }
{
    match step {
        Step::Commit { thread: _, event } => match event {
            Event::Put(item) => Some(*item),
            Event::Flush { item, moved: _ } => Some(*item),
            _ => None,
        },
        _ => None,
    }
}

// The item that a step deletes.
fn deleted_item(step: &Step) -> Option<Item>
    ensures { option_to_list result ≡ flat_map deleted_by (event_of step.now) }
{
    match step {
        Step::Commit { thread: _, event } => match event {
            Event::Take(item) => Some(*item),
            Event::Early { item, front: _ } => Some(*item),
            _ => None,
        },
        _ => None,
    }
}

// How many live items a step skips, before it is taken.
fn skip_of<A: Allocator + Copy>(world: &World<A>, step: &Step) -> usize
    ensures { result
        ≡ sum_by (skipped (live world.now.world)) (flat_map deleted_by (event_of step.now)) }
{
    match deleted_item(step) {
        Some(item) => world.skipped(item),
        None => 0,
    }
}

// Adds an item, where there is one.
fn push_some<A: Allocator>(items: &mut Vec<Item, A>, item: Option<Item>) -> Result<(), WorldError>
    ensures pushed { OnOk result (items.new.items ≡ items.old.items ++ option_to_list item) }
    ensures refused { IfErr result (λ why. why ≡ WorldError.NoMemory) }
{
    let Some(item) = item else {
        return Ok(());
    };
    let Ok(()) = items.push(item) else {
        return Err(WorldError::NoMemory);
    };
    Ok(())
}
