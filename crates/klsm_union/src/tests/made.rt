//! Random runs, the unions of them, and what these show.
ghost use Rattle.std.specs.Prelude.{◌≡◌, false, IsTrue};
ghost use Rattle.std.specs.List.{Contains};
ghost use Rattle.klsm_run.specs.Content.{ShareNone};

use crate::{SharedRun, Union, UnionBlank, Work};
use klsm_run::{HeapRun, Item, MOST_SHARED, Run, Stamp};
use std::alloc::Allocator;

/// Random numbers, good enough for a test.
#[derive(Drop)]
pub(super) struct Draws(pub(super) u64);

impl Draws {
    fn next(&mut self) -> u64 {
        self.0 ^= self.0 << 13;
        self.0 ^= self.0 >> 7;
        self.0 ^= self.0 << 17;
        self.0
    }
}

/// A run of random items of one owner. `None` if memory is refused.
pub(super) fn random_run<A: Allocator + Copy>(
    alloc: A,
    owner: u32,
    count: usize,
    draws: &mut Draws,
) -> Option<HeapRun<A>> {
    let mut run = HeapRun::empty_for(alloc, count.min(MOST_SHARED)).ok()?;
    for number in 0..count {
        let item = Item {
            key: draws.next() % 1000,
            stamp: Stamp {
                owner,
                number: number as u64,
            },
            load: 0,
        };
        put(&mut run, item);
    }
    Some(run)
}

// Puts an item in, unless it is there or there is no room.
fn put<A: Allocator + Copy>(run: &mut HeapRun<A>, item: Item) {
    if run.len() == run.room() || has(run.as_slice(), &item) {
        return;
    }
    run.unite_items(&[item]);
}

/// The items of two runs in order, sorted by other code than that of a union.
pub(super) fn sorted_items<A: Allocator + Copy>(
    alloc: A,
    left: &HeapRun<A>,
    right: &HeapRun<A>,
) -> Option<Vec<Item, A>> {
    let mut items = Vec::new(alloc);
    items.extend_from_slice(left.as_slice()).ok()?;
    items.extend_from_slice(right.as_slice()).ok()?;
    items.sort().ok()?;
    Some(items)
}

/// What may go to another thread.
pub(super) fn may_cross<T: Send>(value: T) -> T {
    value
}

/// The union of two runs that share no item. `None` if they do, or if memory is refused.
pub(super) fn begun<A: Allocator + Copy>(
    alloc: A,
    left: HeapRun<A>,
    right: HeapRun<A>,
) -> Option<(Union<A>, Work<A>)> {
    let left = SharedRun::new(alloc, left).ok()?;
    let right = SharedRun::new(alloc, right).ok()?;
    if left.len() + right.len() > MOST_SHARED {
        return None;
    }
    if !share_none(left.as_slice(), right.as_slice()) {
        return None;
    }
    let blank = UnionBlank::<A>::new(alloc).ok()?;
    Union::begin(left, right, blank).ok()
}

/// The union of the two runs of another union.
pub(super) fn begun_again<A: Allocator + Copy>(
    alloc: A,
    union: Union<A>,
) -> Option<(Union<A>, Work<A>)> {
    let (left, right) = union.split();
    let blank = UnionBlank::<A>::new(alloc).ok()?;
    Union::begin(left, right, blank).ok()
}

/// Does all of the work, in steps of `most`.
pub(super) fn all_done<A: Allocator + Copy>(work: Work<A>, most: usize) {
    let mut work = Some(work);
    for _ in 0..MOST_SHARED {
        let Some(now) = work else {
            return;
        };
        work = now.carry_on(most);
    }
}

/// Whether a union shows the last of all items, as many as it has.
pub(super) fn is_shown<A: Allocator + Copy>(union: &Union<A>, all: &[Item]) -> bool {
    let rest = rest_of(all, union.len());
    let (left, right) = union.both();
    if left.len() + right.len() != rest.len() || union.first() != rest.first().copied() {
        return false;
    }
    let (head, next) = union.head();
    let count = count_before(head, next);
    head.get(..count) == rest.get(..count) && (count > 0 || rest.is_empty())
}

// How many of the first items come before another one.
fn count_before(items: &[Item], next: Option<Item>) -> usize {
    let Some(next) = next else {
        return items.len();
    };
    for index in 0..items.len() {
        if !items[index].is_before(&next) {
            return index;
        }
    }
    items.len()
}

/// Whether a union has become one run of the last of all items. `None` if its worker is gone and gave nothing, and the
/// union shows the items as ever.
pub(super) fn is_collected<A: Allocator + Copy>(mut union: Union<A>, all: &[Item]) -> Option<bool> {
    let rest = rest_of(all, union.len());
    let is_given_up = union.is_given_up();
    match union.collect() {
        Ok((run, spent)) => {
            drop(spent);
            Some(run.as_slice() == rest)
        }
        Err(union) => {
            if is_given_up && is_shown(&union, all) {
                return None;
            }
            Some(false)
        }
    }
}

// The last items, so many of them.
fn rest_of(all: &[Item], count: usize) -> &[Item] {
    &all[all.len().saturating_sub(count)..]
}

// Whether no item is in both lists.
fn share_none(items: &[Item], others: &[Item]) -> bool
    ensures { IsTrue result → ShareNone items.now others.now }
{
    for item in items {
        if has(others, item) {
            return false;
        }
    }
    true
}

// Whether an item is in a list.
fn has(items: &[Item], item: &Item) -> bool
    ensures { result ≡ false → ¬ Contains items.now item.now }
{
    items.contains(item)
}
