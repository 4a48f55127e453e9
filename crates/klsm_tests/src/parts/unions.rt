//! A queue whose shared part has large blocks, so that unions are handed out and carried out in steps, beside a heap.
ghost use Rattle.std.specs.Prelude.{◌≤◌};

use crate::queues::same_item;
use klsm_parts::{LsmError, Queue};
use klsm_run::Item;
use klsm_test_support::Rationed;
use rand_core::{Rng, SeedableRng};
use rand_pcg::Pcg32;
use std::alloc::Global;
use std::cmp::Reverse;
use std::collections::BinaryHeap;

// A queue, and a heap of the same items.
#[derive(Drop)]
struct Beside<'a> {
    queue: Queue<1024, 21, &'a Rationed<Global>>,
    heap: BinaryHeap<Reverse<Item>>,
}

// Both at this k, with no item.
fn beside_at<'a>(alloc: Global, growths: &'a Rationed<Global>, k: usize) -> Beside<'a>
    requires { k ≤ 1024 }
{
    Beside {
        queue: Queue::new(growths, k),
        heap: BinaryHeap::new(alloc),
    }
}

// Inserts an item into both. If the queue is refused memory, neither gets it.
fn insert(beside: &mut Beside, key: u64) -> Option<()> {
    match beside.queue.insert(key, 0) {
        Ok(item) => beside.heap.push(Reverse(item)).ok(),
        Err(LsmError::NoMemory) => Some(()),
        Err(LsmError::Full) => None,
    }
}

// Deletes the least item of both. `None` if they differ.
fn delete(beside: &mut Beside) -> Option<()> {
    let want = match beside.heap.pop() {
        Some(least) => Some(least.0),
        None => None,
    };
    same_item(beside.queue.delete_min(), want).then_some(())
}

// So many calls at random, of which `insertions` in nine are insertions.
fn mix(beside: &mut Beside, random: &mut Pcg32, insertions: u32, calls: usize) -> Option<()> {
    for _ in 0..calls {
        if random.next_u32() % 9 < insertions {
            insert(beside, random.next_u64() % 100_000)?;
        } else {
            delete(beside)?;
        }
    }
    Some(())
}

// Takes all items out, and answers whether none was left.
fn empties(beside: &mut Beside) -> Option<bool> {
    for _ in 0..beside.queue.len() {
        delete(beside)?;
    }
    Some(beside.queue.is_empty() && beside.heap.len() == 0)
}

// Whether both are the same at this k while items come and go, and deletions take no memory.
fn same_at(alloc: Global, k: usize) -> Option<bool>
    requires { k ≤ 1024 }
{
    let growths = Rationed::new(alloc);
    let mut beside = beside_at(alloc, &growths, k);
    let mut random = Pcg32::seed_from_u64(7);
    mix(&mut beside, &mut random, 7, 20_000)?;
    mix(&mut beside, &mut random, 4, 20_000)?;
    growths.allow(0);
    Some(empties(&mut beside)? && !growths.has_refused())
}

#[test]
fn large_blocks_beside_a_heap(rt: HostRuntime) {
    for k in [3, 64, 700, 1024] {
        assert!(rt; same_at(rt.alloc(), k) == Some(true));
    }
}

// Whether a growth was refused of so many calls, of which the first `grants` growths are granted. Both are the same in any
// case.
fn refused_after(alloc: Global, grants: u64) -> Option<bool> {
    let growths = Rationed::new(alloc);
    let mut beside = beside_at(alloc, &growths, 1024);
    let mut random = Pcg32::seed_from_u64(11);
    mix(&mut beside, &mut random, 8, 9_000)?;
    growths.allow(grants);
    mix(&mut beside, &mut random, 8, 4_000)?;
    let was_refused = growths.has_refused();
    growths.allow(u64::MAX);
    mix(&mut beside, &mut random, 4, 4_000)?;
    empties(&mut beside)?.then_some(was_refused)
}

// How many growths these calls need.
fn growths_needed(alloc: Global) -> Option<u64> {
    for grants in 0..100 {
        if !refused_after(alloc, grants)? {
            return Some(grants);
        }
    }
    None
}

#[test]
fn each_growth_of_large_blocks_refused(rt: HostRuntime) {
    assert!(rt; growths_needed(rt.alloc()).is_some());
}
