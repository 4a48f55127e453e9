//! Deletions by the front, which go through while another member holds the shared part, and those
//! that have to look at it; and which items a flush and a spy move.

use klsm_board::{Busy, TryInsertError};
use klsm_test_support::{Crew, Script, Step, loaded, passes};
use std::alloc::Global;
use std::sync::Wait;

const MANY: u64 = 1000;

// What one is answered who needs the shared part while member 1 holds it.
const BY_ONE: Busy = Busy { lock: 0, by: 1 };

const BY_THE_FRONT: &[Script] = &[
    // The front is that of the last change: a flush sets it to 3 and the next to 2, and a deletion of
    // the shared 2 to 3 again. An own 2 is below it then, and an own 3 is not.
    Script {
        threads: 2,
        k: 1,
        quota: MANY,
        steps: &[
            Step::Inserts((3, 0, 0)),
            Step::Inserts((2, 0, 1)),
            Step::Inserts((9, 0, 2)),
            Step::Holds(1, 0, 2, Some((2, 0, 1))),
            Step::Misses(0, BY_ONE),
            Step::PutsBack,
            Step::Deletes(0, Some((2, 0, 1))),
            Step::Inserts((2, 0, 3)),
            Step::Holds(1, 0, 2, Some((3, 0, 0))),
            Step::Deletes(0, Some((2, 0, 3))),
            Step::Inserts((3, 0, 4)),
            Step::Misses(0, BY_ONE),
            Step::PutsBack,
            Step::Deletes(0, Some((3, 0, 0))),
            Step::Deletes(0, Some((3, 0, 4))),
            Step::Deletes(0, Some((9, 0, 2))),
            Step::Deletes(0, None),
        ],
    },
    // Neither an insertion into a full own part nor a deletion of a shared item goes through while
    // the shared part is held; one into an own part with room does.
    Script {
        threads: 2,
        k: 1,
        quota: MANY,
        steps: &[
            Step::Inserts((7, 0, 0)),
            Step::Inserts((8, 0, 1)),
            Step::Holds(1, 0, 1, Some((7, 0, 0))),
            Step::IsRefused(0, 1, TryInsertError::Busy(BY_ONE)),
            Step::Misses(0, BY_ONE),
            Step::PutsBack,
            Step::Deletes(0, Some((7, 0, 0))),
            Step::Deletes(0, Some((8, 0, 1))),
            Step::Holds(1, 0, 0, None),
            Step::Inserts((1, 0, 2)),
            Step::Deletes(0, Some((1, 0, 2))),
            Step::Counts(0, 3, 3),
        ],
    },
];

#[test]
fn deletions_by_the_front(rt: HostRuntime) {
    for script in BY_THE_FRONT {
        assert!(rt; passes::<21>(&rt, rt.alloc(), script));
    }
}

// As many members as a board can have.
const MEMBERS: u32 = 16;

const LAST: u32 = MEMBERS - 1;

// Each member inserts a key, for which its own part has room.
fn insert_each(crew: &mut Crew<21>) -> Option<()> {
    for member in 0..MEMBERS {
        crew.try_insert(member as usize, 9, 1)?.ok()?;
    }
    Some(())
}

// Whether the member at a place, which is this one, deletes what it inserted, by the call that may wait.
fn deletes_own(rt: &impl Wait, crew: &mut Crew<21>, place: usize, member: u32) -> bool {
    crew.delete_min(rt, place) == Some(Some(loaded((9, member, 0))))
}

// Whether all but the last do so while that one holds the shared part.
fn all_others_delete(rt: &impl Wait, crew: &mut Crew<21>) -> Option<bool> {
    crew.try_hold(0)?.ok()?;
    for member in 0..LAST {
        if !deletes_own(rt, crew, member as usize, member) {
            return Some(false);
        }
    }
    crew.put_back()?;
    Some(true)
}

// Whether the last does so while the one before it holds the shared part.
fn the_last_deletes(rt: &impl Wait, crew: &mut Crew<21>) -> Option<bool> {
    crew.leave()?;
    crew.try_hold(0)?.ok()?;
    crew.relieve();
    Some(deletes_own(rt, crew, 0, LAST))
}

fn each_goes_by_the_front(rt: &impl Wait, alloc: Global) -> Option<bool> {
    let mut crew = Crew::new(alloc, MEMBERS as usize, 4, MANY).ok()?;
    insert_each(&mut crew)?;
    Some(all_others_delete(rt, &mut crew)? && the_last_deletes(rt, &mut crew)?)
}

#[test]
fn each_of_sixteen_goes_by_the_front(rt: HostRuntime) {
    assert!(rt; each_goes_by_the_front(&rt, rt.alloc()) == Some(true));
}

const MOVED: &[Script] = &[
    // Three own items are a block of two and one of one: the former moves to the shared part.
    Script {
        threads: 2,
        k: 3,
        quota: MANY,
        steps: &[
            Step::Inserts((6, 0, 0)),
            Step::Inserts((5, 0, 1)),
            Step::Inserts((7, 0, 2)),
            Step::Inserts((8, 0, 3)),
            Step::Holds(1, 0, 2, Some((5, 0, 1))),
            Step::PutsBack,
            Step::Holds(1, 1, 2, Some((7, 0, 2))),
        ],
    },
    // Five own items are a block of four and one of one: the former moves to a member that finds
    // nothing, which deletes the least of them. Of three items in one block the greater two move.
    Script {
        threads: 2,
        k: 8,
        quota: MANY,
        steps: &[
            Step::Inserts((1, 0, 0)),
            Step::Inserts((2, 0, 1)),
            Step::Inserts((3, 0, 2)),
            Step::Inserts((4, 0, 3)),
            Step::Inserts((0, 0, 4)),
            Step::Deletes(1, Some((1, 0, 0))),
            Step::Holds(1, 1, 1, Some((0, 0, 4))),
            Step::PutsBack,
            Step::Holds(1, 2, 3, Some((2, 0, 1))),
            Step::PutsBack,
            Step::Deletes(0, Some((0, 0, 4))),
            Step::Deletes(0, Some((3, 0, 2))),
            Step::Holds(1, 1, 1, Some((4, 0, 3))),
            Step::PutsBack,
            Step::Holds(1, 2, 1, Some((2, 0, 1))),
        ],
    },
    // Of two items, which are one block, the greater moves.
    Script {
        threads: 2,
        k: 8,
        quota: MANY,
        steps: &[
            Step::Inserts((1, 0, 0)),
            Step::Inserts((2, 0, 1)),
            Step::Deletes(1, Some((2, 0, 1))),
            Step::Holds(1, 1, 1, Some((1, 0, 0))),
            Step::PutsBack,
            Step::Holds(1, 2, 0, None),
        ],
    },
];

#[test]
fn what_flushes_and_spies_move(rt: HostRuntime) {
    for script in MOVED {
        assert!(rt; passes::<21>(&rt, rt.alloc(), script));
    }
}
