//! Each call of a board, of a member and of a member that holds a part, by its arguments and its results.
ghost use Rattle.std.specs.Prelude.{All, IfOk};
ghost use Rattle.klsm_board.specs.Boards.{IsOf};

use klsm_board::{
    Account, Board, Busy, FinishError, FinishRefused, Gate, HoldError, HoldRefused, InsertError,
    MakeError, Open, StandardBoard, StandardMember, TryInsertError,
};
use klsm_parts::First;
use klsm_run::{Item, Stamp};
use klsm_test_support::Made;
use std::alloc::Global;
use std::sync::Wait;

// A board of two members, with at most four items in an own part, and ten insertions for each.
fn board_of_two(alloc: Global) -> Result<Made, MakeError>
    ensures { IfOk result (λ made. All (λ member. IsOf member made.board) made.members.items) }
{
    let (board, members) = Board::new(alloc, 2, 4, 10)?;
    Ok(Made { board, members })
}

// The item of these fields.
fn item_of(owner: u32, number: u64, key: u64, load: u64) -> Item {
    let stamp = Stamp { owner, number };
    Item { key, stamp, load }
}

// Whether a member inserts a key and deletes it, by the calls that may wait.
fn waits(rt: &impl Wait, board: &StandardBoard, member: &mut StandardMember) -> bool
    requires { IsOf member.old board.now }
    ensures { IsOf member.new board.now }
{
    let stamp: Result<Stamp, InsertError> = member.insert(rt, board, 5, 50);
    let item: Option<Item> = member.delete_min(rt, board, &mut First);
    let want = item_of(0, 0, 5, 50);
    stamp == Ok(want.stamp) && item == Some(want)
}

// Whether it inserts another key and deletes that, by the calls that wait for nobody.
fn tries(board: &StandardBoard, member: &mut StandardMember) -> bool
    requires { IsOf member.old board.now }
    ensures { IsOf member.new board.now }
{
    let stamp: Result<Stamp, TryInsertError> = member.try_insert(board, 6, 60);
    let item: Result<Option<Item>, Busy> = member.try_delete_min(board, &mut First);
    let want = item_of(0, 1, 6, 60);
    stamp == Ok(want.stamp) && item == Ok(Some(want))
}

fn calls_of_a_member(rt: &impl Wait, alloc: Global) -> Option<bool> {
    let Ok(mut made) = board_of_two(alloc) else {
        return None;
    };
    let member = made.members.get_mut(0)?;
    let done = waits(rt, &made.board, member) && tries(&made.board, member);
    let counts: (u32, u64, u64) = (
        member.number(),
        member.inserted_count(),
        member.deleted_count(),
    );
    Some(done && counts == (0, 2, 2))
}

#[test]
fn a_member_inserts_and_deletes(rt: HostRuntime) {
    assert!(rt; calls_of_a_member(&rt, rt.alloc()) == Some(true));
}

// The lock, the member, the number of items and the least item.
type Seen = (usize, u32, usize, Option<Item>);

// What a member sees of a part that it holds and then puts back.
fn seen_by(board: &StandardBoard, member: StandardMember, lock: usize) -> Result<Seen, HoldError>
    requires { IsOf member board.now }
{
    match member.try_hold(board, lock) {
        Ok(held) => {
            let seen = (held.lock(), held.number(), held.len(), held.least());
            let _member: StandardMember = held.put_back(board);
            Ok(seen)
        }
        Err(HoldRefused { why, member }) => {
            let _member: StandardMember = member;
            Err(why)
        }
    }
}

// What the last member sees of a part, after member 0 has inserted a key.
fn seen_of(alloc: Global, lock: usize) -> Option<Result<Seen, HoldError>> {
    let Ok(mut made) = board_of_two(alloc) else {
        return None;
    };
    let last = made.members.pop()?;
    let first = made.members.get_mut(0)?;
    let _stamp = first.try_insert(&made.board, 7, 70).ok()?;
    Some(seen_by(&made.board, last, lock))
}

#[test]
fn a_member_holds_a_part_and_puts_it_back(rt: HostRuntime) {
    assert!(rt; seen_of(rt.alloc(), 0) == Some(Ok((0, 1, 0, None))));
    let seven = item_of(0, 0, 7, 70);
    assert!(rt; seen_of(rt.alloc(), 1) == Some(Ok((1, 1, 1, Some(seven)))));
    assert!(rt; seen_of(rt.alloc(), 3) == Some(Err(HoldError::NoSuchLock)));
}

// The account of a board, or why there is none.
fn account_of(
    alloc: Global,
    board: StandardBoard,
    members: Vec<StandardMember>,
) -> Result<Account, FinishError>
    requires { All (λ member. IsOf member board) members.items }
{
    match board.finish(alloc, members) {
        Ok(account) => Ok(account),
        Err(
            FinishRefused {
                why,
                board,
                members,
            },
        ) => {
            let _made = Made { board, members };
            Err(why)
        }
    }
}

// The numbers of items that are inserted, deleted and left in the account of a new board.
fn account_of_new(alloc: Global) -> Option<(u64, u64, usize)> {
    let Ok((board, members)) = Board::new(alloc, 2, 4, 10) else {
        return None;
    };
    let Account {
        inserted,
        deleted,
        left,
    } = account_of(alloc, board, members).ok()?;
    Some((inserted, deleted, left.len()))
}

#[test]
fn a_new_board_has_an_empty_account(rt: HostRuntime) {
    assert!(rt; account_of_new(rt.alloc()) == Some((0, 0, 0)));
}

fn pass(gate: &impl Gate, worker: usize) {
    gate.pass(worker);
}

#[test]
fn the_open_gate_holds_nobody() {
    pass(&Open, 0);
    pass(&Open, 15);
}
