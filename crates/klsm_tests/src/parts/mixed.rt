//! Mixed steps beside the plain program: of a queue, whose deletions are exact, and then deletions
//! alone where no growth is granted; and of an own part and a shared one, from which items are taken
//! for several owners by several pickers.
ghost use Rattle.std.specs.Prelude.{◌≤◌};

use super::both::{Both, both_at, delete, insert};
use super::taken::{Parts, parts_at};
use crate::rules::Pick;
use klsm_parts::Random;
use klsm_test_support::{Rationed, item};
use rand_core::{Rng, SeedableRng};
use rand_pcg::Pcg32;
use std::alloc::Global;

// Inserts an item into both, or deletes the least one. Keys are few, so that equal ones occur, and
// insertions somewhat more than deletions.
fn step(both: &mut Both, mix: &mut Pcg32) -> Option<()> {
    if mix.next_u32() % 9 < 5 {
        return insert(both, mix.next_u64() % 100);
    }
    let _item = delete(both)?;
    Some(())
}

// Makes 2,000 steps.
fn mix_steps(both: &mut Both, mix: &mut Pcg32) -> Option<()> {
    for _ in 0..2000 {
        step(both, mix)?;
    }
    Some(())
}

// Takes so many items out.
fn take_out(both: &mut Both, count: usize) -> Option<()> {
    for _ in 0..count {
        let _item = delete(both)??;
    }
    Some(())
}

// Takes all items out with no growth granted, and answers whether there were many and none was
// asked for.
fn empties(both: &mut Both) -> Option<bool> {
    let count = both.queue.len();
    both.heap.allow(0);
    take_out(both, count)?;
    Some(count > 100 && both.queue.is_empty() && !both.heap.has_refused())
}

// Whether both are the same at this k, all along.
fn same_at(alloc: Global, k: usize) -> Option<bool>
    requires { k ≤ 64 }
{
    let heap = Rationed::new(alloc);
    let mut both = both_at(alloc, &heap, k);
    let mut mix = Pcg32::seed_from_u64(8);
    mix_steps(&mut both, &mut mix)?;
    empties(&mut both)
}

#[test]
fn the_same_at_each_k(rt: HostRuntime) {
    for k in [0, 1, 2, 5, 16, 64] {
        assert!(rt; same_at(rt.alloc(), k) == Some(true));
    }
}

// The number that a generator gives next.
fn next_of(mix: &Pcg32) -> Option<u64> {
    let mut copy = mix.clone().ok()?;
    Some(copy.next_u64())
}

// Inserts an item, of one of three owners. Keys are few here too.
fn insert_some(parts: &mut Parts, mix: &mut Pcg32, number: u64) -> Option<()> {
    let owner = mix.next_u32() % 3;
    parts.insert(item(owner, number, mix.next_u64() % 100))
}

// Takes an item for one of four owners, of which the last has none: the greatest candidate is picked,
// or one at random. Where the least own item is below the front, it goes as often as not by that.
fn take_some(parts: &mut Parts, mix: &mut Pcg32) -> Option<()> {
    let owner = mix.next_u32() % 4;
    let way = mix.next_u32() % 4;
    let least = if way < 3 { parts.find_least()? } else { None };
    let _item = match least {
        Some(own) if way == 0 && own.key < parts.shared.front() => parts.take_least()?,
        _ if way == 1 => parts.take(owner, &mut Pick::Last, Pick::Last)?,
        _ => {
            let pick = Pick::Nth(next_of(mix)?);
            parts.take(owner, &mut Random::new(mix), pick)?
        }
    };
    Some(())
}

// Makes 500 such steps.
fn mix_parts(parts: &mut Parts, mix: &mut Pcg32) -> Option<()> {
    for number in 0..500 {
        if mix.next_u32() % 9 < 5 {
            insert_some(parts, mix, number)?;
        } else {
            take_some(parts, mix)?;
        }
    }
    Some(())
}

// Whether both are the same at this k after each of them.
fn same_for_owners(alloc: Global, k: usize) -> Option<bool>
    requires { k ≤ 64 }
{
    let heap = Rationed::new(alloc);
    let mut parts = parts_at(alloc, &heap, k);
    mix_parts(&mut parts, &mut Pcg32::seed_from_u64(9))?;
    Some(!parts.shared.is_empty())
}

#[test]
fn the_same_for_each_owner(rt: HostRuntime) {
    for k in [0, 1, 4, 16] {
        assert!(rt; same_for_owners(rt.alloc(), k) == Some(true));
    }
}
