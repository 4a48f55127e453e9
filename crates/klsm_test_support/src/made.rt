//! A board and its members side by side, for calls that take both, or all members in one hand.
ghost use Rattle.std.specs.Prelude.{◌≡◌, length, All, IfOk};
ghost use Rattle.klsm_board.specs.Boards.{AreNewMembersOf, IsOf};

use klsm_board::{AllStandardMembers, Board, SizesError, StandardBoard, StandardMember};
use std::alloc::Global;

/// A board and all its members.
pub struct Made {
    pub board: StandardBoard,
    pub members: Vec<StandardMember>,
}

// Written out for the same reason as that of a crew.
impl Drop for Made {
    fn drop(self) {
        let Made {
            board: _board,
            members: _members,
        } = self;
    }
}

impl Made {
    /// A new board with a refill.
    pub fn with_refill(
        alloc: Global,
        threads: usize,
        k: usize,
        quota: u64,
        refill: usize,
    ) -> Result<Self, SizesError>
        ensures sizes { IfOk result (λ made. made.board.sizes
            ≡ record { threads = threads; k = k; quota = quota; refill = refill }) }
        ensures of { IfOk result (λ made. All (λ member. IsOf member made.board) made.members.items) }
        ensures count { IfOk result (λ made. length made.members.items ≡ threads) }
        ensures crew { IfOk result (λ made. AreNewMembersOf made.board made.members.items) }
    {
        let (board, members) = Board::with_refill(alloc, threads, k, quota, refill)?;
        Ok(Made { board, members })
    }
}

/// A board with all its members in one hand.
pub struct InOneHand {
    pub board: StandardBoard,
    pub all: AllStandardMembers,
}

// Written out for the same reason.
impl Drop for InOneHand {
    fn drop(self) {
        let InOneHand {
            board: _board,
            all: _all,
        } = self;
    }
}

impl InOneHand {
    ghost use Rattle.klsm_board.specs.Together.{AreOf};

    /// How many items each member has inserted and deleted. `None` for want of memory.
    pub fn counts(self, alloc: Global) -> Option<Vec<(u64, u64)>>
        requires { AreOf self.all self.board }
    {
        let InOneHand { board, all } = self;
        let members = all.spread(&board);
        let mut counts = Vec::with_capacity(alloc, members.len()).ok()?;
        for member in &members {
            let of_member = (member.inserted_count(), member.deleted_count());
            counts.push(of_member).ok()?;
        }
        Some(counts)
    }
}
