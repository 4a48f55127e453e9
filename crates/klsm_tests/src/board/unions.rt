//! Unions that stay half made since their members stop: the others go on, and find each item once.

use klsm_parts::First;
use klsm_test_support::Crew;
use std::alloc::Global;

// A member inserts so many items, of which none has a key of another.
fn inserts(crew: &mut Crew<21>, member: usize, from: u64, count: u64) -> Option<()> {
    for number in from..from.saturating_add(count) {
        crew.try_insert(member, number.wrapping_mul(7919) % 1_000_003, number)?
            .ok()?;
    }
    Some(())
}

// Member 0 inserts so many items and stops. Member 1 inserts a great many more, and deletes all.
fn goes_on(alloc: Global, first: u64, more: u64) -> Option<bool> {
    let mut crew = Crew::with_refill(alloc, 2, 64, 1_000_000, 16).ok()?;
    inserts(&mut crew, 0, 0, first)?;
    inserts(&mut crew, 1, first, more)?;
    for _ in 0..first.saturating_add(more) {
        crew.deleted(1, &mut First)?;
    }
    Some(crew.deleted(1, &mut First).is_none())
}

#[test]
fn a_member_stops_with_a_union_half_made(rt: HostRuntime) {
    for first in [2_100, 2_400, 3_300, 4_500] {
        assert!(rt; goes_on(rt.alloc(), first, 250_000) == Some(true));
    }
}

// The items that come back, by their loads, which are all below the length.
#[derive(Drop)]
struct Seen(Vec<bool>);

impl Seen {
    // A list for so many, of which none was seen.
    fn none_of(alloc: Global, count: u64) -> Option<Self> {
        let mut seen = Vec::new(alloc);
        for _ in 0..count {
            seen.push(false).ok()?;
        }
        Some(Seen(seen))
    }

    // Notes an item, unless it was seen before or was never there.
    fn note(&mut self, load: u64) -> Option<()> {
        let seen = self.0.get_mut(usize::try_from(load).ok()?)?;
        if *seen {
            return None;
        }
        *seen = true;
        Some(())
    }
}

// A member inserts so many items, each greater than those before.
fn appends(crew: &mut Crew<21>, member: usize, from: u64, count: u64) -> Option<()> {
    for number in from..from.saturating_add(count) {
        crew.try_insert(member, number, number)?.ok()?;
    }
    Some(())
}

// Each member inserts so many items and stops. The first one goes on, and deletes all.
fn all_stop(alloc: Global, members: usize, each: u64, more: u64) -> Option<bool> {
    let mut crew = Crew::with_refill(alloc, members, 64, 1_000_000, 0).ok()?;
    let mut next: u64 = 0;
    for member in 0..members {
        appends(&mut crew, member, next, each)?;
        next = next.saturating_add(each);
    }
    appends(&mut crew, 0, next, more)?;
    let count = next.saturating_add(more);
    let mut seen = Seen::none_of(alloc, count)?;
    for _ in 0..count {
        seen.note(crew.deleted(0, &mut First)?.load)?;
    }
    Some(crew.deleted(0, &mut First).is_none())
}

// With k = 64 each 64th insertion after the first moves 64 items, so the 32nd of these makes two pieces of 1,024 items, and
// its member stops with their union. Of 64 members there are as many pieces as lie in a list before two become one at once.
#[test]
fn each_of_the_most_members_stops_with_a_union(rt: HostRuntime) {
    for each in [2_049, 2_113, 4_097] {
        assert!(rt; all_stop(rt.alloc(), 64, each, 10_000) == Some(true));
    }
}
