//! All members of a board in one hand, who go by turns and come back as they were.
ghost use Rattle.std.specs.Prelude.{All};
ghost use Rattle.klsm_board.specs.Boards.{IsOf};
ghost use Rattle.klsm_board.specs.Together.{AreOf};

use klsm_board::{AllStandardMembers, Bound, GatherRefused, StandardBoard, StandardMember};
use klsm_parts::First;

// The most insertions of a member.
const MANY: u64 = 1_000_000;

// Whether the member of this number inserts a key.
fn inserts(board: &StandardBoard, all: &mut AllStandardMembers, number: u32, key: u64) -> bool
    requires of { AreOf all.old board.now }
    ensures of { AreOf all.new board.now }
{
    (number as usize) < all.threads() && all.insert(board, number, key, 7).is_ok()
}

// Whether the member of this number deletes this key, or finds nothing.
fn deletes(
    board: &StandardBoard,
    all: &mut AllStandardMembers,
    number: u32,
    key: Option<u64>,
) -> bool
    requires of { AreOf all.old board.now }
    ensures of { AreOf all.new board.now }
{
    if number as usize >= all.threads() {
        return false;
    }
    let found = all.delete_min(board, number, &mut First);
    found.map(|item| item.key) == key
}

// Whether the member of this number balances with a victim, and items move then, or none.
fn balances(
    board: &StandardBoard,
    all: &mut AllStandardMembers,
    number: u32,
    victim: u32,
    most: usize,
    moves: bool,
) -> bool
    requires of { AreOf all.old board.now }
    ensures of { AreOf all.new board.now }
{
    let threads = all.threads();
    if number as usize >= threads || victim as usize >= threads || victim == number {
        return false;
    }
    all.balance(board, number, victim, most) == moves
}

// Whether the front that they see is this key.
fn sees(board: &StandardBoard, all: &mut AllStandardMembers, front: u64) -> bool
    requires of { AreOf all.old board.now }
    ensures of { AreOf all.new board.now }
{
    all.front(board) == front
}

// Whether this is the bound of what is left, and of what the members work at.
fn bounds(board: &StandardBoard, all: &mut AllStandardMembers, bound: Bound) -> bool
    requires of { AreOf all.old board.now }
    ensures of { AreOf all.new board.now }
{
    all.bound(board) == bound
}

// Whether the bound is this once the member of this number rests.
fn rests(board: &StandardBoard, all: &mut AllStandardMembers, number: u32, bound: Bound) -> bool
    requires of { AreOf all.old board.now }
    ensures of { AreOf all.new board.now }
{
    if number as usize >= all.threads() {
        return false;
    }
    all.rest(board, number);
    bounds(board, all, bound)
}

// A bound: the least key of what is left, that of what the members work at, and how many items are left.
fn bound_of(queue: u64, work: u64, items: usize) -> Bound {
    Bound { queue, work, items }
}

// Whether two members who keep one item each go by turns: one deletes what the other inserted, and who has
// nothing spies. The one that is shared meanwhile is the front. Each works at what it deleted last.
fn go_by_turns(board: &StandardBoard, all: &mut AllStandardMembers) -> bool
    requires of { AreOf all.old board.now }
    ensures of { AreOf all.new board.now }
{
    bounds(board, all, bound_of(u64::MAX, u64::MAX, 0))
        && inserts(board, all, 0, 5)
        && sees(board, all, u64::MAX)
        && inserts(board, all, 0, 3)
        && inserts(board, all, 1, 9)
        && sees(board, all, 5)
        && bounds(board, all, bound_of(3, u64::MAX, 3))
        && deletes(board, all, 1, Some(5))
        && sees(board, all, u64::MAX)
        && deletes(board, all, 0, Some(3))
        && bounds(board, all, bound_of(9, 3, 1))
        && deletes(board, all, 0, Some(9))
        && deletes(board, all, 1, None)
        && inserts(board, all, 1, 4)
        && bounds(board, all, bound_of(4, 9, 1))
        && rests(board, all, 1, bound_of(4, 9, 1))
        && rests(board, all, 0, bound_of(4, u64::MAX, 1))
}

// Whether two members who keep four items each balance by turns: half of what the other one has comes over, rounded
// up, and no more than are asked for. None comes while the least own item is smaller.
fn balance_by_turns(board: &StandardBoard, all: &mut AllStandardMembers) -> bool
    requires of { AreOf all.old board.now }
    ensures of { AreOf all.new board.now }
{
    inserts(board, all, 0, 5)
        && inserts(board, all, 0, 3)
        && inserts(board, all, 0, 1)
        && inserts(board, all, 1, 9)
        && balances(board, all, 1, 0, 4, true)
        && deletes(board, all, 1, Some(1))
        && balances(board, all, 1, 0, 4, false)
        && deletes(board, all, 0, Some(5))
        && balances(board, all, 0, 1, 0, false)
        && balances(board, all, 0, 1, 1, true)
        && deletes(board, all, 0, Some(3))
        && deletes(board, all, 1, Some(9))
        && balances(board, all, 1, 0, 4, false)
        && deletes(board, all, 0, None)
}

// Whether this member has this number and these counts.
fn is(members: &[StandardMember], number: u32, inserted: u64, deleted: u64) -> bool {
    match members.get(number as usize) {
        Some(member) => {
            member.number() == number
                && member.inserted_count() == inserted
                && member.deleted_count() == deleted
        }
        None => false,
    }
}

#[test]
fn members_come_back_with_what_they_did(rt: HostRuntime) {
    let Ok((board, members)) = StandardBoard::new(rt.alloc(), 2, 1, MANY) else {
        panic!(rt; "no memory");
    };
    let Ok(mut all) = board.gather(members) else {
        panic!(rt; "a member is missing");
    };
    assert!(rt; all.threads() == 2);
    assert!(rt; go_by_turns(&board, &mut all));
    let members = all.spread(&board);
    assert!(rt; members.len() == 2);
    assert!(rt; is(members.as_slice(), 0, 2, 2));
    assert!(rt; is(members.as_slice(), 1, 2, 1));
}

#[test]
fn members_balance_by_turns(rt: HostRuntime) {
    let Ok((board, members)) = StandardBoard::new(rt.alloc(), 2, 4, MANY) else {
        panic!(rt; "no memory");
    };
    let Ok(mut all) = board.gather(members) else {
        panic!(rt; "a member is missing");
    };
    assert!(rt; balance_by_turns(&board, &mut all));
    let members = all.spread(&board);
    assert!(rt; is(members.as_slice(), 0, 3, 2));
    assert!(rt; is(members.as_slice(), 1, 1, 2));
}

#[test]
fn the_least_missing_member_is_named(rt: HostRuntime) {
    let Ok((board, mut members)) = StandardBoard::new(rt.alloc(), 3, 1, MANY) else {
        panic!(rt; "no memory");
    };
    let Some(last) = members.pop() else {
        panic!(rt; "no member");
    };
    let Err(
        GatherRefused {
            missing,
            mut members,
        },
    ) = board.gather(members)
    else {
        panic!(rt; "a member is not missed");
    };
    assert!(rt; missing == 2 && members.len() == 2);
    assert!(rt; members.push(last).is_ok());
    assert!(rt; board.gather(members).is_ok());
}
