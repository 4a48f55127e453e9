//! How many smaller items deletions pass over where the members take turns, in one thread: each deletes
//! an item and inserts one of a greater key.

use klsm_parts::First;
use klsm_run::Item;
use klsm_test_support::Crew;
use rand_core::{Rng, SeedableRng};
use rand_pcg::Pcg32;
use std::alloc::Global;

const MEMBERS: usize = 4;

const K: usize = 64;

// How many items there are all the time.
const ITEMS: usize = 1000;

// A board, its items, ascending, and how many the last deletions passed over at most.
#[derive(Drop)]
struct Hold {
    crew: Crew<21>,
    live: Vec<Item>,
    mix: Pcg32,
    most: usize,
}

fn hold_of(alloc: Global, refill: usize) -> Option<Hold> {
    Some(Hold {
        crew: Crew::with_refill(alloc, MEMBERS, K, 100_000, refill).ok()?,
        live: Vec::new(alloc),
        mix: Pcg32::seed_from_u64(7),
        most: 0,
    })
}

impl Hold {
    // How many items are smaller than one.
    fn rank(&self, item: Item) -> usize {
        self.live.partition_point(|other| *other < item)
    }

    fn insert(&mut self, member: usize, key: u64) -> Option<()> {
        let stamp = self.crew.try_insert(member, key, 0)?.ok()?;
        let item = Item {
            key,
            stamp,
            load: 0,
        };
        let at = self.rank(item).min(self.live.len());
        self.live.insert(at, item).ok()
    }

    // Deletes an item and inserts one of a greater key. What was deleted has to be one of the items.
    fn turn(&mut self, member: usize) -> Option<()> {
        let item = self.crew.deleted(member, &mut First)?;
        let rank = self.rank(item);
        if rank >= self.live.len() || self.live.remove(rank) != item {
            return None;
        }
        self.most = self.most.max(rank);
        let step = self.mix.next_u64() % 100_000;
        self.insert(member, item.key.saturating_add(step))
    }

    // The members insert all items by turns.
    fn fill(&mut self) -> Option<()> {
        for number in 0..ITEMS {
            let key = self.mix.next_u64() % 100_000;
            self.insert(number % MEMBERS, key)?;
        }
        Some(())
    }
}

// How many smaller items the deletions pass over at most, with this refill.
fn most_skipped(alloc: Global, refill: usize) -> Option<usize> {
    let mut hold = hold_of(alloc, refill)?;
    hold.fill()?;
    for number in 0..4 * ITEMS {
        hold.turn(number % MEMBERS)?;
    }
    Some(hold.most)
}

#[test]
fn skips_are_within_the_bound(rt: HostRuntime) {
    for refill in [0, 1, 8, 16, K] {
        let most = most_skipped(rt.alloc(), refill);
        assert!(rt; most.is_some_and(|most| most <= MEMBERS * K));
    }
}

// What a refill moved waits for its member, while the others delete.
#[test]
fn a_refill_lets_deletions_skip(rt: HostRuntime) {
    let most = most_skipped(rt.alloc(), 16);
    assert!(rt; most.is_some_and(|most| most > (MEMBERS - 1) * 16 / 2));
}
