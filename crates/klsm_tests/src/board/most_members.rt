//! As many members as a board can have, and what no board is made for.

use klsm_board::{Board, SizesError};
use klsm_parts::Last;
use klsm_run::Item;
use klsm_test_support::{Crew, loaded};
use std::alloc::Global;

// Members, k, quota and refill of a board, and why there is none.
const CAUSES: &[(usize, usize, u64, usize, Option<SizesError>)] = &[
    (0, 0, 1, 1, Some(SizesError::BadThreads)),
    (0, 65, 281_474_976_710_657, 0, Some(SizesError::BadThreads)),
    (65, 65, 1, 66, Some(SizesError::BadThreads)),
    (65, 64, 281_474_976_710_657, 0, Some(SizesError::BadThreads)),
    (16, 65, 1, 66, Some(SizesError::BadK)),
    (2, 65, 281_474_976_710_657, 0, Some(SizesError::BadK)),
    (16, 64, 281_474_976_710_657, 65, Some(SizesError::BadQuota)),
    (16, 64, 281_474_976_710_656, 65, Some(SizesError::BadRefill)),
    (1, 0, 0, 1, Some(SizesError::BadRefill)),
    (16, 64, 281_474_976_710_656, 64, None),
    (64, 64, 281_474_976_710_656, 64, None),
    (2, 64, 281_474_976_710_656, 16, None),
    (2, 64, 281_474_976_710_656, 0, None),
    (1, 0, 0, 0, None),
];

// Whether a board has these sizes, and its members are numbered in turn and have done nothing.
fn is_new(crew: &Crew<21>, threads: usize, k: usize, quota: u64, refill: usize) -> bool {
    for (number, member) in crew.members.iter().enumerate() {
        let counts = (member.inserted_count(), member.deleted_count());
        if member.number() as usize != number || counts != (0, 0) {
            return false;
        }
    }
    let board = &crew.board;
    (board.threads(), board.k(), board.quota()) == (threads, k, quota)
        && board.refill() == refill
        && crew.members.len() == threads
}

// Whether there is such a board, or none for this cause.
fn is_made(
    made: Result<Crew<21>, SizesError>,
    threads: usize,
    k: usize,
    quota: u64,
    refill: usize,
    cause: Option<SizesError>,
) -> bool {
    match made {
        Ok(crew) => cause.is_none() && is_new(&crew, threads, k, quota, refill),
        Err(why) => cause == Some(why),
    }
}

#[test]
fn causes_in_their_order(rt: HostRuntime) {
    for (threads, k, quota, refill, cause) in CAUSES {
        let made = Crew::with_refill(rt.alloc(), *threads, *k, *quota, *refill);
        assert!(rt; is_made(made, *threads, *k, *quota, *refill, *cause));
    }
}

// Whether a board that was asked for no refill has none.
fn has_no_refill(alloc: Global) -> Option<bool> {
    let crew = Crew::<21>::new(alloc, 2, 64, 1).ok()?;
    Some(is_new(&crew, 2, 64, 1, 0))
}

#[test]
fn none_moves_where_none_was_asked_for(rt: HostRuntime) {
    assert!(rt; has_no_refill(rt.alloc()) == Some(true));
}

// How many members there are, and how many items each of them inserts.
const MEMBERS: u32 = 64;

const EACH: u64 = 5;

// The item that a member inserts after so many. Keys of all members mix, and some are equal.
fn nth_item(member: u32, number: u64) -> Item {
    let key = (u64::from(member) * 7 + number % EACH * 5) % 31;
    loaded((key, member, number))
}

// Each member inserts an item.
fn insert_round(crew: &mut Crew<21>, number: u64) -> Option<()> {
    for member in 0..MEMBERS {
        let item = nth_item(member, number);
        crew.try_insert(member as usize, item.key, item.load)?.ok()?;
    }
    Some(())
}

// Each member deletes an item.
fn delete_round(crew: &mut Crew<21>, deleted: &mut Vec<Item>) -> Option<()> {
    for member in 0..MEMBERS {
        let item = crew.deleted(member as usize, &mut Last)?;
        deleted.push(item).ok()?;
    }
    Some(())
}

// What all members insert, ascending.
fn all_items(alloc: Global) -> Option<Vec<Item>> {
    let mut items = Vec::new(alloc);
    for number in 0..EACH {
        for member in 0..MEMBERS {
            items.push(nth_item(member, number)).ok()?;
        }
    }
    items.sort_unstable();
    Some(items)
}

// Each member inserts its items.
fn insert_all(crew: &mut Crew<21>) -> Option<()> {
    for number in 0..EACH {
        insert_round(crew, number)?;
    }
    Some(())
}

// What all members delete, ascending.
fn all_deleted(alloc: Global, crew: &mut Crew<21>) -> Option<Vec<Item>> {
    let mut deleted = Vec::new(alloc);
    for _ in 0..EACH {
        delete_round(crew, &mut deleted)?;
    }
    deleted.sort_unstable();
    Some(deleted)
}

// Whether they delete what they insert.
fn delete_all(alloc: Global, crew: &mut Crew<21>) -> Option<bool> {
    insert_all(crew)?;
    let deleted = all_deleted(alloc, crew)?;
    Some(deleted.as_slice() == all_items(alloc)?.as_slice())
}

// The same on a new board.
fn find_all_once(alloc: Global, k: usize) -> Option<bool> {
    let mut crew = Crew::with_refill(alloc, MEMBERS as usize, k, EACH, 0).ok()?;
    delete_all(alloc, &mut crew)
}

#[test]
fn all_members_find_all_items_once(rt: HostRuntime) {
    for k in [0, 1, 3, 64] {
        assert!(rt; find_all_once(rt.alloc(), k) == Some(true));
    }
}
