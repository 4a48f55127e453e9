//! Steps as the tables of the tests have them.

use klsm_test_support::{Name, named};
use klsm_world::{Event, Items, Step, World};
use std::alloc::Global;

/// A step of a thread. Its part, its item, the item that moves, its victim or the front follow.
#[derive(Clone, Copy)]
pub(super) enum Row {
    Acquire(u32, u32),
    Release(u32, u32),
    Miss(u32, u32),
    Put(u32, Name),
    Flush(u32, Name, Name),
    Take(u32, Name),
    Early(u32, Name, u64),
    Nothing(u32),
    Spy(u32, u32, Name),
}

/// The step of a row. `None` if memory is refused.
pub(super) fn step_of(alloc: Global, row: Row) -> Option<Step> {
    Some(match row {
        Row::Acquire(thread, part) => Step::Acquire { thread, part },
        Row::Release(thread, part) => Step::Release { thread, part },
        Row::Miss(thread, part) => Step::Miss { thread, part },
        Row::Put(thread, name) => commit(thread, Event::Put(named(name))),
        Row::Flush(thread, name, moved) => commit(thread, flush(name, one(alloc, moved)?)),
        Row::Take(thread, name) => commit(thread, Event::Take(named(name))),
        Row::Early(thread, name, front) => commit(thread, early(name, front)),
        Row::Nothing(thread) => commit(thread, Event::Nothing),
        Row::Spy(thread, victim, moved) => commit(thread, spy(victim, one(alloc, moved)?)),
    })
}

fn commit(thread: u32, event: Event) -> Step {
    Step::Commit { thread, event }
}

fn flush(name: Name, moved: Items) -> Event {
    let item = named(name);
    Event::Flush { item, moved }
}

fn early(name: Name, front: u64) -> Event {
    let item = named(name);
    Event::Early { item, front }
}

fn spy(victim: u32, moved: Items) -> Event {
    Event::Spy { victim, moved }
}

// The list of one item.
fn one(alloc: Global, name: Name) -> Option<Items> {
    Some(Items::new([named(name)].to_vec(alloc).ok()?))
}

/// The steps of a table.
pub(super) fn steps_of(alloc: Global, rows: &[Row]) -> Option<Vec<Step>> {
    let mut steps = Vec::new(alloc);
    for row in rows {
        steps.push(step_of(alloc, *row)?).ok()?;
    }
    Some(steps)
}

/// The world of two threads, with at most one item in an own part, after the steps of a table.
pub(super) fn world_after(alloc: Global, rows: &[Row]) -> Option<World> {
    let mut world = World::new(alloc, 2, 1).ok()?;
    for row in rows {
        let step = step_of(alloc, *row)?;
        world.step(&step).ok()?;
    }
    Some(world)
}
