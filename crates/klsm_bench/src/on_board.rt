//! A board of one member, as a contender.
ghost use Rattle.std.specs.Prelude.{IfSome};
ghost use Rattle.klsm_board.specs.Boards.{IsOf};

use crate::contenders::Contender;
use klsm_board::{Board, StandardBoard, StandardMember};
use klsm_parts::Picker;
use klsm_run::Item;
use std::alloc::Global;
use std::sync::Wait;

// More insertions than a member makes.
const QUOTA: u64 = 1 << 32;

/// A board of one member, and that member.
pub(crate) fn board_of_one(alloc: Global, k: usize) -> Option<(StandardBoard, StandardMember)>
    ensures { IfSome result (λ made. IsOf made.1 made.0) }
{
    let Ok((board, mut members)) = Board::new(alloc, 1, k, QUOTA) else {
        return None;
    };
    let Some(member) = members.pop() else {
        return None;
    };
    Some((board, member))
}

/// A member of a board, with its picker.
#[derive(Drop)]
pub(crate) struct OnBoard<'a, R, P> {
    pub(crate) rt: &'a R,
    pub(crate) board: &'a StandardBoard,
    pub(crate) member: StandardMember,
    pub(crate) picker: P,
    pub(crate) ghost of: { IsOf member board.now },
}

impl<R: Wait, P: Picker> Contender for OnBoard<'_, R, P> {
    fn insert(&mut self, key: u64, load: u64) -> Option<()> {
        self.member.insert(self.rt, self.board, key, load).ok()?;
        Some(())
    }

    fn delete(&mut self) -> Option<Item> {
        self.member
            .delete_min(self.rt, self.board, &mut self.picker)
    }
}
