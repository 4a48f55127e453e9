//! Steps as tables have them. A helper of these tests answers `None` where a call was
//! refused that should not be.

use klsm_run::Item;
use klsm_schedules::{Event, Items, Step};
use klsm_test_support::{Name, named};
use klsm_world::World;
use std::alloc::Global;

/// The items that move at a flush, a spy, a refill, a steal or a sharing.
#[derive(Clone, Copy)]
pub(super) enum Moved {
    None,
    One(Name),
    Two(Name, Name),
}

/// A step: its thread, and then the part, the key, the thread seen, the items, the victim or the front.
#[derive(Clone, Copy)]
pub(super) enum Row {
    Acquire(u32, u32),
    Release(u32, u32),
    Miss(u32, u32),
    Look(u32),
    Mark(u32, u64),
    See(u32, u32),
    Put(u32, Name),
    Flush(u32, Name, Moved),
    Take(u32, Name),
    Early(u32, Name, u64),
    Nothing(u32),
    Spy(u32, u32, Moved),
    Refill(u32, Moved),
    Steal(u32, u32, Moved),
    Share(u32, Moved),
}

/// The step of a row.
pub(super) fn step_of(alloc: Global, row: Row) -> Option<Step> {
    Some(match row {
        Row::Acquire(thread, part) => Step::Acquire { thread, part },
        Row::Release(thread, part) => Step::Release { thread, part },
        Row::Miss(thread, part) => Step::Miss { thread, part },
        Row::Look(thread) => Step::Look { thread },
        Row::Mark(thread, key) => Step::Mark { thread, key },
        Row::See(thread, of) => Step::See { thread, of },
        Row::Put(thread, name) => commit(thread, Event::Put(named(name))),
        Row::Flush(thread, name, moved) => flush(thread, named(name), moved_items(alloc, moved)?),
        Row::Take(thread, name) => commit(thread, Event::Take(named(name))),
        Row::Early(thread, name, front) => early(thread, named(name), front),
        Row::Nothing(thread) => commit(thread, Event::Nothing),
        Row::Spy(thread, victim, moved) => spy(thread, victim, moved_items(alloc, moved)?),
        Row::Refill(thread, moved) => refill(thread, moved_items(alloc, moved)?),
        Row::Steal(thread, victim, moved) => steal(thread, victim, moved_items(alloc, moved)?),
        Row::Share(thread, moved) => share(thread, moved_items(alloc, moved)?),
    })
}

/// A commit of the event.
pub(super) fn commit(thread: u32, event: Event) -> Step {
    Step::Commit { thread, event }
}

/// A deletion of the item by the front.
pub(super) fn early(thread: u32, item: Item, front: u64) -> Step {
    commit(thread, Event::Early { item, front })
}

/// A flush of the item.
pub(super) fn flush(thread: u32, item: Item, moved: Items) -> Step {
    commit(thread, Event::Flush { item, moved })
}

/// A spy on the victim.
pub(super) fn spy(thread: u32, victim: u32, moved: Items) -> Step {
    commit(thread, Event::Spy { victim, moved })
}

/// A refill.
pub(super) fn refill(thread: u32, moved: Items) -> Step {
    commit(thread, Event::Refill { moved })
}

/// A steal from the victim.
pub(super) fn steal(thread: u32, victim: u32, moved: Items) -> Step {
    commit(thread, Event::Steal { victim, moved })
}

/// A sharing.
pub(super) fn share(thread: u32, moved: Items) -> Step {
    commit(thread, Event::Share { moved })
}

fn moved_items(alloc: Global, moved: Moved) -> Option<Items> {
    match moved {
        Moved::None => items_of(alloc, &[]),
        Moved::One(name) => items_of(alloc, &[named(name)]),
        Moved::Two(name, other) => items_of(alloc, &[named(name), named(other)]),
    }
}

// A list of items.
fn items_of(alloc: Global, items: &[Item]) -> Option<Items> {
    Some(Items::new(items.to_vec(alloc).ok()?))
}

/// The steps of a table.
pub(super) fn steps_of(alloc: Global, rows: &[Row]) -> Option<Vec<Step>> {
    let mut steps = Vec::new(alloc);
    for row in rows {
        steps.push(step_of(alloc, *row)?).ok()?;
    }
    Some(steps)
}

/// The world of so many threads and this k, after the steps of a table.
pub(super) fn world_after(alloc: Global, threads: u32, k: usize, rows: &[Row]) -> Option<World> {
    let mut world = World::new(alloc, threads, k).ok()?;
    for row in rows {
        take_row(alloc, &mut world, *row)?;
    }
    Some(world)
}

fn take_row(alloc: Global, world: &mut World, row: Row) -> Option<()> {
    let step = step_of(alloc, row)?;
    world.step(&step).ok()
}
