//! Worked runs: steps of the parts and the plain program together, and what the latter then has.
ghost use Rattle.std.specs.Prelude.{◌≤◌};

use super::both::{Both, both_at, insert_all, item};
use super::taken::{Parts, parts_at};
use crate::queues::same_item;
use crate::rules::Pick;
use klsm_lsm::LsmError;
use klsm_parts::{Last, Queue};
use klsm_run::Item;
use klsm_test_support::Rationed;
use std::alloc::Global;

// Inserts the items of these keys in turn, numbered from 0.
fn insert_parts(parts: &mut Parts, keys: &[u64]) -> Option<()> {
    for (number, key) in keys.iter().enumerate() {
        parts.insert(item(*key, number as u64))?;
    }
    Some(())
}

// Whether an owner's deletions, which pick the greatest candidate, answer these in turn.
fn takes(parts: &mut Parts, owner: u32, want: &[Option<Item>]) -> Option<bool> {
    for want in want {
        if !same_item(parts.take(owner, &mut Last, Pick::Last)?, *want) {
            return Some(false);
        }
    }
    Some(true)
}

// Whether the least own item is taken, and is this.
fn takes_least(parts: &mut Parts, want: Option<Item>) -> Option<bool> {
    Some(same_item(parts.take_least()?, want))
}

// Whether this is the least own item, and a search finds it.
fn finds(parts: &mut Parts, want: Item) -> Option<bool> {
    Some(same_item(parts.find_least()?, Some(want)))
}

// What two parts have, as the plain program shows it: the own blocks, the shared ones, their pivots and
// the candidates.
type Shown = (
    &'static [&'static [u64]],
    &'static [&'static [u64]],
    &'static [usize],
    &'static [u64],
);

fn shows(parts: &Parts, (own, shared, pivots, candidates): &Shown) -> Option<bool> {
    parts.plain.shows(own, shared, pivots, candidates)
}

// Own items go that are the least of both parts, or less than the candidate; or a candidate that is
// less than the least own one.
fn own_items_go(parts: &mut Parts) -> Option<bool> {
    insert_parts(parts, &[7, 2, 5])?;
    let two = takes(parts, 1, &[Some(item(5, 2)), Some(item(7, 0))])?;
    parts.insert(item(1, 3))?;
    Some(two && takes(parts, 1, &[Some(item(1, 3)), Some(item(2, 1)), None])?)
}

const THREE_SHARED: Shown = (&[], &[&[1, 3], &[2]], &[1, 0], &[1]);

// With k = 0 each item goes to the shared part, and the least one is the only candidate.
fn all_shared(parts: &mut Parts) -> Option<bool> {
    insert_parts(parts, &[3, 1, 2])?;
    Some(shows(parts, &THREE_SHARED)? && takes(parts, 1, &[Some(item(1, 1))])?)
}

// A search for the least own item, of two blocks, is void once a lesser item is put in, and once the
// item that it found is gone.
fn finds_anew(parts: &mut Parts) -> Option<bool> {
    insert_parts(parts, &[7, 6, 5])?;
    let five = finds(parts, item(5, 2))?;
    parts.insert(item(4, 3))?;
    let four = takes_least(parts, Some(item(4, 3)))?;
    let same_five = finds(parts, item(5, 2))?;
    let goes = takes(parts, 0, &[Some(item(5, 2)), Some(item(6, 1))])?;
    Some(five && four && same_five && goes)
}

// What is done with new parts.
#[derive(Clone, Copy)]
enum Steps {
    OwnItemsGo,
    AllShared,
    FindsAnew,
}

fn go(parts: &mut Parts, steps: Steps) -> Option<bool> {
    match steps {
        Steps::OwnItemsGo => own_items_go(parts),
        Steps::AllShared => all_shared(parts),
        Steps::FindsAnew => finds_anew(parts),
    }
}

// Whether they go as they have to, at this k.
fn all_go(alloc: Global, k: usize, steps: Steps) -> bool
    requires { k ≤ 64 }
{
    let heap = Rationed::new(alloc);
    let mut parts = parts_at(alloc, &heap, k);
    go(&mut parts, steps) == Some(true)
}

#[test]
fn own_items_and_none(rt: HostRuntime) {
    assert!(rt; all_go(rt.alloc(), 1, Steps::OwnItemsGo));
    assert!(rt; all_go(rt.alloc(), 0, Steps::AllShared));
}

#[test]
fn a_remembered_place_is_forgotten(rt: HostRuntime) {
    assert!(rt; all_go(rt.alloc(), 8, Steps::FindsAnew));
}

// Eight keys in turn, which all stay in an own part.
fn keys_in_turn(both: &mut Both) -> Option<bool> {
    insert_all(both, &[1, 2, 3, 4, 5, 6, 7])?;
    let seven = both
        .plain
        .shows(&[&[1, 2, 3, 4], &[5, 6], &[7]], &[], &[], &[])?;
    insert_all(both, &[8])?;
    let eight = both
        .plain
        .shows(&[&[1, 2, 3, 4, 5, 6, 7, 8]], &[], &[], &[])?;
    Some(seven && eight)
}

#[test]
fn own_blocks(rt: HostRuntime) {
    let heap = Rationed::new(rt.alloc());
    let mut both = both_at(rt.alloc(), &heap, 8);
    assert!(rt; keys_in_turn(&mut both) == Some(true));
}

// A shared part of three levels holds at most 4 items, and at k = 1 there is one own item. What
// comes then is refused.
fn full(alloc: Global) -> Option<bool> {
    let mut queue: Queue<64, 3> = Queue::new(alloc, 1);
    for key in 1..6 {
        queue.insert(key, 0).ok()?;
    }
    let answer = queue.insert(6, 0);
    Some(answer == Err(LsmError::Full) && queue.len() == 5)
}

#[test]
fn full_shared_part(rt: HostRuntime) {
    assert!(rt; full(rt.alloc()) == Some(true));
}
