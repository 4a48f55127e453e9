//! A board whose own parts may have as many items as any.
ghost use Rattle.std.specs.Prelude.{All};
ghost use Rattle.klsm_board.specs.Boards.{IsOf};

use klsm_board::{Board, Busy, SizesError, TryInsertError, WideBoard, WideMember};
use klsm_parts::First;
use klsm_run::{Item, Stamp};
use std::alloc::Global;

/// The board and its members.
pub struct WideCrew {
    board: WideBoard,
    members: Vec<WideMember>,
    ghost members_are_of: { All (λ member. IsOf member board) members.items },
}

// Written out, as that of a crew.
impl Drop for WideCrew {
    fn drop(self) {
        let WideCrew {
            board: _board,
            members: _members,
        } = self;
    }
}

impl WideCrew {
    /// A new board, and all its members.
    pub fn new(alloc: Global, threads: usize, k: usize, refill: usize) -> Result<Self, SizesError> {
        let (board, members) = Board::with_refill(alloc, threads, k, 1 << 40, refill)?;
        Ok(WideCrew { board, members })
    }

    /// How a member's insertion ends that never blocks.
    pub fn try_insert(
        &mut self,
        member: usize,
        key: u64,
        load: u64,
    ) -> Option<Result<Stamp, TryInsertError>> {
        let member = self.members.get_mut(member)?;
        Some(member.try_insert(&self.board, key, load))
    }

    /// How a member's deletion ends that never blocks.
    pub fn try_delete_min(&mut self, member: usize) -> Option<Result<Option<Item>, Busy>> {
        let member = self.members.get_mut(member)?;
        Some(member.try_delete_min(&self.board, &mut First))
    }

    /// The key of the least shared item, as a member sees it.
    pub fn front(&mut self, member: usize) -> Option<u64> {
        let member = self.members.get_mut(member)?;
        Some(member.front(&self.board))
    }
}
