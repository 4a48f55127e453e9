//! Calls that are refused a growth, made again: nothing has changed, and they go through. With ample
//! memory none is refused; a run that fails one allocation after another refuses each growth here.

use klsm_board::{MakeError, TryInsertError};
use klsm_parts::First;
use klsm_run::{Item, Stamp};
use klsm_test_support::Crew;
use std::alloc::Global;

// What can be seen of a part: how many items it has, and the least.
type Sight = (usize, Option<Item>);

// What a member sees of a part that it holds and puts back.
fn sight(crew: &mut Crew<21>, lock: usize) -> Option<Sight> {
    crew.try_hold(lock)?.ok()?;
    let seen = crew.seen()?;
    crew.put_back()?;
    Some(seen)
}

// What can be seen of the parts of a board of two members.
fn sights(crew: &mut Crew<21>) -> Option<[Sight; 3]> {
    let mut sights = [(0, None); 3];
    for (lock, seen) in sights.iter_mut().enumerate() {
        *seen = sight(crew, lock)?;
    }
    Some(sights)
}

// How many insertions and deletions each of the two has made.
fn all_counts(crew: &Crew<21>) -> Option<[(u64, u64); 2]> {
    Some([crew.counts(0)?, crew.counts(1)?])
}

// What can be seen of the board and of both.
fn state(crew: &mut Crew<21>) -> Option<([Sight; 3], [(u64, u64); 2])> {
    Some((sights(crew)?, all_counts(crew)?))
}

// A board of two members. Where a growth is refused, it is made again.
fn board_of_two(alloc: Global, k: usize) -> Option<Crew<21>> {
    match Crew::new(alloc, 2, k, 1000) {
        Err(MakeError::NoMemory) => Crew::new(alloc, 2, k, 1000).ok(),
        made => made.ok(),
    }
}

// A member inserts a key. Where a growth is refused, nothing changes, and it inserts it again.
fn insert(crew: &mut Crew<21>, owner: u32, key: u64) -> Option<bool> {
    let before = state(crew)?;
    let member = owner as usize;
    let number = crew.counts(member)?.0;
    match crew.try_insert(member, key, number.saturating_add(1))? {
        Err(TryInsertError::NoMemory) => {
            Some(state(crew)? == before && inserts(crew, owner, key, number)?)
        }
        answer => Some(answer == Ok(Stamp { owner, number })),
    }
}

// Whether a member that has inserted so many items inserts a key, and the item gets that number.
fn inserts(crew: &mut Crew<21>, owner: u32, key: u64, number: u64) -> Option<bool> {
    let answer = crew.try_insert(owner as usize, key, number.saturating_add(1))?;
    Some(answer == Ok(Stamp { owner, number }))
}

// How many items each of the two members inserts.
const EACH: u64 = 250;

// How many they insert together.
const ALL: usize = 2 * EACH as usize;

// The key of a member's item of this number. Keys rise and fall, and each is one of both members.
fn key_of(number: u64) -> u64 {
    number % EACH * 107 % EACH
}

// Both insert their items, in turn.
fn insert_all(crew: &mut Crew<21>) -> Option<bool> {
    for number in 0..EACH {
        for member in 0..2 {
            if !insert(crew, member, key_of(number))? {
                return Some(false);
            }
        }
    }
    Some(true)
}

// Whether an item is one of theirs that was not found before. It is found now.
fn is_next(found: &mut [bool], item: Item) -> Option<bool> {
    let number = item.stamp.number;
    let index = u64::from(item.stamp.owner) % 2 * EACH + number % EACH;
    let place = found.get_mut(index as usize)?;
    let was_found = *place;
    *place = true;
    Some(!was_found && item.key == key_of(number) && item.load == number.saturating_add(1))
}

// Whether the two delete each item once, in turn.
fn each_is_deleted(crew: &mut Crew<21>) -> Option<bool> {
    let mut found = [false; ALL];
    for turn in 0..ALL {
        let item = crew.deleted(turn % 2, &mut First)?;
        if !is_next(&mut found, item)? {
            return Some(false);
        }
    }
    Some(true)
}

// Whether they do, and both find nothing then.
fn delete_all(crew: &mut Crew<21>) -> Option<bool> {
    Some(each_is_deleted(crew)? && finds_nothing(crew, 0)? && finds_nothing(crew, 1)?)
}

fn finds_nothing(crew: &mut Crew<21>, member: usize) -> Option<bool> {
    Some(crew.try_delete_min(member, &mut First)? == Ok(None))
}

// Whether all insertions go through, at the second try where a growth is refused, and then all
// deletions.
fn goes_through(alloc: Global, k: usize) -> Option<bool> {
    let mut crew = board_of_two(alloc, k)?;
    Some(insert_all(&mut crew)? && delete_all(&mut crew)?)
}

#[test]
fn refused_calls_go_through_later(rt: HostRuntime) {
    for k in [0, 1, 4] {
        assert!(rt; goes_through(rt.alloc(), k) == Some(true));
    }
}
