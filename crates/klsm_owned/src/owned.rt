//! A member that owns a share of its board.
ghost use Rattle.std.specs.Arc.{arc_value};
ghost use Rattle.klsm_board.specs.Boards.{IsOf};

use klsm_board::{Balancing, WideBoard, WideMember};
use klsm_parts::Choice;
use std::alloc::Global;
use std::sync::Arc;

/// A member, its picker, when it balances, and a share of the board that it is a member of.
#[derive(Drop)]
pub struct OwnedMember {
    pub(crate) board: Arc<WideBoard, Global>,
    pub(crate) member: WideMember,
    pub(crate) choice: Choice,
    pub(crate) balancing: Balancing,
    // What one member changes at each call lies two lines of the cache off what the next one changes.
    pub(crate) room: [u64; 16],
    pub ghost fits: { IsOf member (arc_value board) },
}
