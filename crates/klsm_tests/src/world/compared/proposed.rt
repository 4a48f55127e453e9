//! Random steps, legal ones and others.

use super::super::steps::{Moved, Row, commit, early, flush, refill, share, spy, steal, step_of};
use super::plain::Plain;
use klsm_run::Item;
use klsm_schedules::{Event, Items, Step};
use rand_core::Rng;
use rand_pcg::Pcg32;
use std::alloc::Global;

// A number below `bound`, or 0.
fn below(mix: &mut Pcg32, bound: usize) -> usize {
    mix.next_u32() as usize % bound.max(1)
}

// A thread, of so many.
fn any_of(mix: &mut Pcg32, threads: u32) -> u32 {
    mix.next_u32() % threads.max(1)
}

/// A step that is often legal in this world, and sometimes has something wrong.
pub(super) fn proposed(alloc: Global, mix: &mut Pcg32, plain: &Plain) -> Option<Step> {
    let thread = proposed_thread(mix, plain);
    if below(mix, 5) == 0 {
        return spoilt(alloc, mix, plain.threads);
    }
    match proposed_row(mix, plain, thread) {
        Some(row) => step_of(alloc, row),
        None => proposed_event(alloc, mix, plain, thread),
    }
}

// A thread: as often as not the one that holds the shared part, which can do most.
fn proposed_thread(mix: &mut Pcg32, plain: &Plain) -> u32 {
    let anyone = any_of(mix, plain.threads);
    match plain.holder(0) {
        Some(holder) if below(mix, 2) == 0 => holder,
        _ => anyone,
    }
}

// A step that takes a part, gives one back, tries one in vain, looks at the front, marks a key or sees
// one. `None` stands for an event.
fn proposed_row(mix: &mut Pcg32, plain: &Plain, thread: u32) -> Option<Row> {
    let own_part = thread.saturating_add(1);
    let any_part = any_of(mix, plain.threads.saturating_add(1));
    let has_own = plain.holder(own_part) == Some(thread);
    let has_shared = plain.holder(0) == Some(thread);
    match below(mix, 13) {
        0 => Some(Row::Release(thread, own_part)),
        1 => Some(Row::Release(thread, any_part)),
        2 => Some(Row::Miss(thread, any_part)),
        3 => Some(Row::Acquire(thread, any_part)),
        4 => Some(Row::Look(thread)),
        5 => Some(Row::Mark(thread, proposed_key(mix, plain, thread))),
        6 => Some(Row::See(thread, any_of(mix, plain.threads))),
        _ if !has_own => Some(Row::Acquire(thread, own_part)),
        7 | 8 if !has_shared => Some(Row::Acquire(thread, 0)),
        _ => None,
    }
}

// A key to be marked, which is mostly that of the item that the thread works at.
fn proposed_key(mix: &mut Pcg32, plain: &Plain, thread: u32) -> u64 {
    match below(mix, 6) {
        0 => u64::MAX,
        1 => below(mix, 20) as u64,
        _ => plain.work(thread),
    }
}

// An event that is often legal where the thread holds its own part and the shared one.
fn proposed_event(alloc: Global, mix: &mut Pcg32, plain: &Plain, thread: u32) -> Option<Step> {
    let item = Item {
        key: below(mix, 20) as u64,
        stamp: plain.next_stamp(thread),
        load: 0,
    };
    match below(mix, 18) {
        0..=2 => Some(commit(thread, Event::Put(item))),
        3..=5 => proposed_flush(alloc, mix, plain, thread, item),
        6 => Some(commit(thread, Event::Nothing)),
        7 => proposed_spy(alloc, mix, plain, thread),
        8 | 9 => Some(proposed_early(mix, plain, thread, item)),
        10 | 11 => proposed_refill(alloc, mix, plain, thread),
        12 => proposed_steal(alloc, mix, plain, thread),
        13 => proposed_share(alloc, mix, plain, thread),
        _ => {
            let item = proposed_take(mix, plain, thread, item);
            Some(commit(thread, Event::Take(item)))
        }
    }
}

// A flush of the item that moves some of the own items, and it as often as not.
fn proposed_flush(
    alloc: Global,
    mix: &mut Pcg32,
    plain: &Plain,
    thread: u32,
    item: Item,
) -> Option<Step> {
    let mut moved = some_of(alloc, mix, plain, thread.saturating_add(1))?;
    if below(mix, 2) == 0 {
        moved.push(item).ok()?;
        moved.sort_unstable();
    }
    Some(flush(thread, item, Items::new(moved)))
}

// A spy that moves some of another's items.
fn proposed_spy(alloc: Global, mix: &mut Pcg32, plain: &Plain, thread: u32) -> Option<Step> {
    let victim = any_of(mix, plain.threads);
    let moved = some_of(alloc, mix, plain, victim.saturating_add(1))?;
    Some(spy(thread, victim, Items::new(moved)))
}

// A refill that moves some of the shared items, mostly no more than there is room for.
fn proposed_refill(alloc: Global, mix: &mut Pcg32, plain: &Plain, thread: u32) -> Option<Step> {
    let room = plain
        .k
        .saturating_sub(plain.count(thread.saturating_add(1)));
    let mut moved = some_of(alloc, mix, plain, 0)?;
    if below(mix, 4) > 0 {
        moved.truncate(room);
    }
    Some(refill(thread, Items::new(moved)))
}

// A steal that moves some of another's items, mostly no more than there is room for.
fn proposed_steal(alloc: Global, mix: &mut Pcg32, plain: &Plain, thread: u32) -> Option<Step> {
    let victim = any_of(mix, plain.threads);
    let room = plain
        .k
        .saturating_sub(plain.count(thread.saturating_add(1)));
    let mut moved = some_of(alloc, mix, plain, victim.saturating_add(1))?;
    if below(mix, 4) > 0 {
        moved.truncate(room);
    }
    Some(steal(thread, victim, Items::new(moved)))
}

// A sharing that moves some of the own items.
fn proposed_share(alloc: Global, mix: &mut Pcg32, plain: &Plain, thread: u32) -> Option<Step> {
    let moved = some_of(alloc, mix, plain, thread.saturating_add(1))?;
    Some(share(thread, Items::new(moved)))
}

// Some items of a part, ascending: each or none of them more often than not.
fn some_of(alloc: Global, mix: &mut Pcg32, plain: &Plain, part: u32) -> Option<Vec<Item>> {
    let eighths = below(mix, 9);
    let mut some = Vec::new(alloc);
    for index in 0..plain.count(part) {
        if below(mix, 8) < eighths {
            some.push(plain.nth(part, index)?).ok()?;
        }
    }
    Some(some)
}

// The item of a take: the lesser of the least own item and a shared one, or `item` where there is
// none.
fn proposed_take(mix: &mut Pcg32, plain: &Plain, thread: u32, item: Item) -> Item {
    let candidate = proposed_candidate(mix, plain, thread).unwrap_or(item);
    match plain.nth(thread.saturating_add(1), 0) {
        Some(least) => candidate.min(least),
        None => candidate,
    }
}

// A shared item, which is mostly a candidate: any one or, more often than not, the one that goes by
// the thread's own order where this is picked.
fn proposed_candidate(mix: &mut Pcg32, plain: &Plain, thread: u32) -> Option<Item> {
    let at = below(mix, plain.count(0).min(plain.k.saturating_add(2)));
    let keeps_order = below(mix, 3) > 0;
    for index in 0..at {
        let smaller = plain.nth(0, index)?;
        if keeps_order && smaller.stamp.owner == thread {
            return Some(smaller);
        }
    }
    plain.nth(0, at)
}

// A deletion of the least own item by the front, or of `item` where there is none, and sometimes by
// another front.
fn proposed_early(mix: &mut Pcg32, plain: &Plain, thread: u32, item: Item) -> Step {
    let least = plain.nth(thread.saturating_add(1), 0);
    let front = match below(mix, 8) {
        0 => below(mix, 20) as u64,
        _ => plain.front(),
    };
    early(thread, least.unwrap_or(item), front)
}

// A step with something wrong.
fn spoilt(alloc: Global, mix: &mut Pcg32, threads: u32) -> Option<Step> {
    let wrong = (3, 0, 99);
    let moved = Moved::One(wrong);
    let row = match below(mix, 16) {
        0 => Row::Acquire(threads, 0),
        1 => Row::Release(0, threads.saturating_add(1)),
        2 => Row::Put(0, wrong),
        3 => Row::Flush(0, wrong, moved),
        4 => Row::Take(0, wrong),
        5 => Row::Spy(0, 0, moved),
        6 => Row::Spy(0, threads, moved),
        7 => Row::Refill(0, moved),
        8 => Row::Steal(0, 0, moved),
        9 => Row::Steal(0, threads, moved),
        10 => Row::Look(threads),
        11 => Row::Share(0, moved),
        12 => Row::Mark(threads, u64::MAX),
        13 => Row::See(threads, 0),
        14 => Row::See(0, threads),
        _ => Row::Nothing(threads),
    };
    step_of(alloc, row)
}
