//! Members that share their items, so that others find them, and deletions behind which none move.
ghost use Rattle.std.specs.Prelude.{All};
ghost use Rattle.klsm_board.specs.Boards.{IsOf};

use klsm_board::{Busy, MakeError, StandardBoard, StandardMember, TryShareError};
use klsm_parts::First;
use klsm_test_support::{Calls, Crew, Script, Step, all_go, passes};
use std::alloc::Global;
use std::sync::Wait;
use std::thread;
use std::thread::Threads;

const MANY: u64 = 1000;

const SHARED: &[Script] = &[
    // What a member shares the others find in order, and the own items above it do not go before.
    Script {
        threads: 2,
        k: 8,
        quota: MANY,
        steps: &[
            Step::Shares(0, 0),
            Step::Inserts((5, 0, 0)),
            Step::Inserts((1, 0, 1)),
            Step::Inserts((3, 0, 2)),
            Step::Inserts((4, 1, 0)),
            Step::Shares(0, 3),
            Step::Shares(0, 0),
            Step::Deletes(1, Some((1, 0, 1))),
            Step::Deletes(1, Some((3, 0, 2))),
            Step::Deletes(1, Some((4, 1, 0))),
            Step::Deletes(1, Some((5, 0, 0))),
            Step::Deletes(1, None),
            Step::Counts(0, 3, 0),
            Step::Counts(1, 1, 4),
        ],
    },
    // While the shared part or the own one is held nothing is shared, and a member without items has no need of the
    // former.
    Script {
        threads: 3,
        k: 4,
        quota: MANY,
        steps: &[
            Step::Inserts((5, 0, 0)),
            Step::Holds(2, 0, 0, None),
            Step::KeepsAll(0, TryShareError::Busy(Busy { lock: 0, by: 2 })),
            Step::Shares(1, 0),
            Step::PutsBack,
            Step::Holds(2, 1, 1, Some((5, 0, 0))),
            Step::KeepsAll(0, TryShareError::Busy(Busy { lock: 1, by: 2 })),
            Step::PutsBack,
            Step::Shares(0, 1),
            Step::Holds(2, 0, 1, Some((5, 0, 0))),
            Step::PutsBack,
            Step::Holds(2, 1, 0, None),
        ],
    },
    // Several blocks leave as one, which becomes one with a shared block, and the front is that of all.
    Script {
        threads: 2,
        k: 3,
        quota: MANY,
        steps: &[
            Step::Inserts((6, 0, 0)),
            Step::Inserts((8, 0, 1)),
            Step::Inserts((7, 0, 2)),
            Step::Inserts((9, 0, 3)),
            Step::Inserts((2, 0, 4)),
            Step::Shares(0, 3),
            Step::Holds(1, 0, 5, Some((2, 0, 4))),
            Step::PutsBack,
            Step::Holds(1, 1, 0, None),
            Step::PutsBack,
            Step::Deletes(1, Some((2, 0, 4))),
            Step::Deletes(0, Some((6, 0, 0))),
            Step::Deletes(1, Some((7, 0, 2))),
            Step::Deletes(0, Some((8, 0, 1))),
            Step::Deletes(1, Some((9, 0, 3))),
        ],
    },
    // Without own parts there is nothing to share.
    Script {
        threads: 1,
        k: 0,
        quota: MANY,
        steps: &[
            Step::Inserts((6, 0, 0)),
            Step::Shares(0, 0),
            Step::DeletesAlone(0, Some((6, 0, 0))),
            Step::DeletesAlone(0, None),
        ],
    },
];

#[test]
fn what_members_share(rt: HostRuntime) {
    for script in SHARED {
        assert!(rt; passes::<21>(&rt, rt.alloc(), script));
    }
}

// A shared part of one level has room for one item.
const FULL: Script = Script {
    threads: 2,
    k: 4,
    quota: MANY,
    steps: &[
        Step::Inserts((5, 0, 0)),
        Step::Inserts((6, 0, 1)),
        Step::KeepsAll(0, TryShareError::Full),
        Step::Holds(1, 1, 2, Some((5, 0, 0))),
        Step::PutsBack,
        Step::Holds(1, 0, 0, None),
        Step::PutsBack,
        Step::Deletes(0, Some((5, 0, 0))),
        Step::Shares(0, 1),
        Step::Deletes(0, Some((6, 0, 1))),
    ],
};

#[test]
fn what_has_no_room_is_not_shared(rt: HostRuntime) {
    assert!(rt; passes::<1>(&rt, rt.alloc(), &FULL));
}

// Behind a deletion alone no items move, and behind another one two do.
const ALONE: &[Step] = &[
    Step::Inserts((1, 0, 0)),
    Step::Inserts((2, 0, 1)),
    Step::Inserts((3, 0, 2)),
    Step::Inserts((4, 0, 3)),
    Step::Shares(0, 4),
    Step::DeletesAlone(1, Some((1, 0, 0))),
    Step::Holds(1, 2, 0, None),
    Step::PutsBack,
    Step::Deletes(1, Some((2, 0, 1))),
    Step::Holds(1, 2, 2, Some((3, 0, 2))),
    Step::PutsBack,
    Step::DeletesAlone(1, Some((3, 0, 2))),
    Step::Shares(1, 1),
    Step::DeletesAlone(0, Some((4, 0, 3))),
    Step::DeletesAlone(0, None),
];

// Whether all goes so where a deletion moves two items at most.
fn brings_nothing_home(rt: &impl Wait, alloc: Global, calls: Calls) -> Option<bool> {
    let mut crew = Crew::<21>::with_refill(alloc, 2, 8, MANY, 2).ok()?;
    Some(all_go(rt, &mut crew, calls, ALONE))
}

#[test]
fn a_deletion_alone_brings_nothing_home(rt: HostRuntime) {
    for calls in [Calls::Trying, Calls::Waiting] {
        assert!(rt; brings_nothing_home(&rt, rt.alloc(), calls) == Some(true));
    }
}

// Member 0 shares its items. Where a growth is refused they stay where they are, as the last member sees, and it shares
// them again.
fn share(crew: &mut Crew<21>, count: usize) -> Option<bool> {
    match crew.try_share(0)? {
        Err(TryShareError::NoMemory) => {
            let stay = sees(crew, 1, count)?;
            Some(stay && crew.try_share(0)? == Ok(count))
        }
        answer => Some(answer == Ok(count)),
    }
}

// Whether a part has so many items.
fn sees(crew: &mut Crew<21>, lock: usize, count: usize) -> Option<bool> {
    crew.try_hold(lock)?.ok()?;
    let (len, _) = crew.seen()?;
    crew.put_back()?;
    Some(len == count)
}

// How many items are shared at once.
const EACH: u64 = 7;

// A board of two members. Where a growth is refused, it is made again.
fn board_of_two(alloc: Global) -> Option<Crew<21>> {
    match Crew::new(alloc, 2, 8, MANY) {
        Err(MakeError::NoMemory) => Crew::new(alloc, 2, 8, MANY).ok(),
        made => made.ok(),
    }
}

// Whether items go to the shared part in turn, and all are there then.
fn all_are_shared(alloc: Global) -> Option<bool> {
    let mut crew = board_of_two(alloc)?;
    for turn in 0..20 {
        for number in 0..EACH {
            let _stamp = crew.try_insert(0, number * 20 + turn, 0)?.ok()?;
        }
        if !share(&mut crew, EACH as usize)? {
            return Some(false);
        }
    }
    sees(&mut crew, 0, 20 * EACH as usize)
}

#[test]
fn what_finds_no_memory_is_not_shared(rt: HostRuntime) {
    assert!(rt; all_are_shared(rt.alloc()) == Some(true));
}

// As many items as fit an own part.
const ITEMS: u64 = 64;

// A member inserts these items, which no other sees, and then shares them: whether all went so.
fn gives(rt: &impl Wait, board: &StandardBoard, member: &mut StandardMember) -> bool
    requires { IsOf member.old board.now }
    ensures { IsOf member.new board.now }
{
    for key in 0..ITEMS {
        if member.insert(rt, board, key, 0).is_err() {
            return false;
        }
    }
    member.share(rt, board) == Ok(ITEMS as usize)
}

// A member waits until items are shared.
fn see_shared(rt: &impl Wait, board: &StandardBoard, member: &mut StandardMember)
    requires { IsOf member.old board.now }
    ensures { IsOf member.new board.now }
{
    for _ in rt.forever() {
        if member.front(board) != u64::MAX {
            return;
        }
    }
}

// A member deletes these items in order, once they are shared: whether all went so.
fn finds(rt: &impl Wait, board: &StandardBoard, member: &mut StandardMember) -> bool
    requires { IsOf member.old board.now }
    ensures { IsOf member.new board.now }
{
    see_shared(rt, board, member);
    for key in 0..ITEMS {
        let found = member.delete_min(rt, board, &mut First);
        if found.map(|item| item.key) != Some(key) {
            return false;
        }
    }
    true
}

// What a member does by its number.
fn plays(rt: &impl Wait, board: &StandardBoard, mut member: StandardMember) -> bool
    requires { IsOf member board.now }
{
    if member.number() == 0 {
        gives(rt, board, &mut member)
    } else {
        finds(rt, board, &mut member)
    }
}

// Lets each member play in a thread of its own.
fn play_all<R: Threads + Wait + Sync>(
    rt: &R,
    board: &StandardBoard,
    members: Vec<StandardMember>,
) -> Option<Vec<bool>>
    requires { All (λ member. IsOf member board.now) members.items }
{
    thread::map_vec(
        rt,
        members,
        &|member| -> bool
            requires { IsOf member board.now }
        { plays(rt, board, member) },
    )
    .ok()
}

// Whether one of two members in threads of their own shares items, and the other finds them.
fn are_found<R: Threads + Wait + Sync>(rt: &R, alloc: Global) -> Option<bool> {
    let (board, members) = StandardBoard::new(alloc, 2, ITEMS as usize, MANY).ok()?;
    let all = play_all(rt, &board, members)?;
    Some(all.iter().all(|went| *went))
}

#[test]
fn one_thread_shares_and_another_finds(rt: HostRuntime) {
    assert!(rt; are_found(&rt, rt.alloc()) == Some(true));
}
