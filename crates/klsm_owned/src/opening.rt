//! How a board is opened for members that own it.
ghost use Rattle.std.specs.Prelude.{All, ◌≡◌, ◌<◌, ◌≤◌, ◌↔◌, ◌⊎◌, ℕ, length, map, IfOk, IsErrAnd};
ghost use Rattle.std.specs.Arc.{arc_value};
ghost use Rattle.klsm_run.specs.declared.limits.TheConstants.{MOST_K, MOST_THREADS};
ghost use Rattle.klsm_board.specs.Boards.{IsOf};
ghost use Rattle.klsm_owned.specs.Owned.{AreAllOfTheirBoard, AreNew, BalanceEach, PickBy, members_of};

use crate::owned::OwnedMember;
use klsm_board::{Balancing, Board, MOST_INSERTIONS, SizesError, WideBoard, WideMember};
use klsm_parts::{Choice, Pick};
use std::alloc::{AllocError, Global};
use std::sync::Arc;

/// A new board of empty parts, and its members in the order of their numbers, each in a box of its own.
///
/// Member `t` picks with the seed `seed + t`, by the remainder of 2^64. A deletion that took a shared item
/// moves at most `refill` of the least shared items to its member's own part. Before each `balance`-th of its
/// deletions a member balances with another one, in turn; with 0 never.
pub fn open_board(
    alloc: Global,
    threads: usize,
    k: usize,
    pick: Pick,
    seed: u64,
    refill: usize,
    balance: u32,
) -> Result<Vec<Box<OwnedMember, Global>>, SizesError>
    ensures count { IfOk result (λ boxes. length boxes.items ≡ threads) }
    ensures new { IfOk result (λ boxes.
        AreNew threads k pick seed refill balance (map (λ b. b.value) boxes.items)) }
    ensures whole { IfOk result (λ boxes.
        AreAllOfTheirBoard (members_of (map (λ b. b.value) boxes.items))) }
    ensures bad_threads { IsErrAnd result (λ why. why ≡ SizesError.BadThreads)
        ↔ ((threads ≡ 0) ⊎ (MOST_THREADS < threads)) }
    ensures bad_k { IsErrAnd result (λ why. why ≡ SizesError.BadK)
        ↔ ((1 ≤ threads) × (threads ≤ MOST_THREADS) × (MOST_K < k)) }
    ensures bad_refill { IsErrAnd result (λ why. why ≡ SizesError.BadRefill)
        ↔ ((1 ≤ threads) × (threads ≤ MOST_THREADS) × (k ≤ MOST_K) × (k < refill)) }
    ensures bad_quota { IsErrAnd result (λ why. why ≡ SizesError.BadQuota) ↔ ⊥ }
{
    let (board, members) = Board::with_refill(alloc, threads, k, MOST_INSERTIONS, refill)?;
    let Ok(board) = Arc::new(alloc, board) else {
        return Err(SizesError::NoMemory);
    };
    let Ok(boxes) = box_members(alloc, &board, members, pick, seed, balance) else {
        return Err(SizesError::NoMemory);
    };
    Ok(boxes)
}

// Each member of a new board in a box, with a share of the board and a picker of its own.
fn box_members(
    alloc: Global,
    board: &Arc<WideBoard, Global>,
    mut members: Vec<WideMember>,
    pick: Pick,
    seed: u64,
    balance: u32,
) -> Result<Vec<Box<OwnedMember, Global>>, AllocError>
    requires of { All (λ member. IsOf member (arc_value board.now)) members.items }
    ensures count { IfOk result (λ boxes. length boxes.items ≡ length members.items) }
    ensures members { IfOk result (λ boxes.
        members_of (map (λ b. b.value) boxes.items) ≡ members.items) }
    ensures pickers { IfOk result (λ boxes. PickBy pick seed (map (λ b. b.value) boxes.items)) }
    ensures balancings { IfOk result (λ boxes.
        BalanceEach balance (map (λ b. b.value) boxes.items)) }
{
    let count = members.len();
    let mut boxes = Vec::with_capacity(alloc, count)?;
    for number in 0..count {
        let owned = OwnedMember {
            board: Arc::try_clone(board)?,
            member: members.remove(0),
            choice: Choice::of(pick, seed.wrapping_add(number as u64)),
            balancing: Balancing::each(balance),
            room: [0; 16],
        };
        boxes.push(Box::new(alloc, owned)?)?;
    }
    Ok(boxes)
}
