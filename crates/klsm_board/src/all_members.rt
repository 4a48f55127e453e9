//! All members of a board in one hand.
ghost use Rattle.std.specs.Prelude.{◌≡◌, ◌≤◌, []};
ghost use Rattle.std.specs.Vec.{vec_capacity};
ghost use Rattle.klsm_board.specs.Knowing.{IsWhole};

use crate::board::Member;
use crate::tally::Tally;
use klsm_run::{PROGRAM_K, PROGRAM_LEVELS};

/// All members of a board in one hand, for one thread that makes the calls of all.
///
/// Nothing happens to the board between two of its calls. So a deletion passes over at most T·k of the items that
/// the calls before it inserted and did not delete, at most (T-1)·k where it went by the front; and where it answers
/// `None`, at most (T-1)·k are left. It costs a load of a word more than a member's own call, where the member is
/// another than that of the call before.
#[derive(Drop)]
pub struct AllMembers<const CAP: usize, const LEVELS: usize> {
    // The member whose turn it is. Its seat knows the lists of all.
    pub(crate) acting: Member<CAP, LEVELS>,
    // What each other member inserted and deleted.
    pub(crate) tally: Tally,
    // The list that they came in, to which they go back.
    pub(crate) room: Vec<Member<CAP, LEVELS>>,
    pub ghost whole: { IsWhole acting.sizes acting.number acting.seat.me.0.lists
        tally.inserted tally.deleted },
    pub ghost empty: { room.items ≡ [] },
    pub ghost roomy: { acting.sizes.threads ≤ vec_capacity room },
}

/// All members of a `StandardBoard`.
pub type AllStandardMembers = AllMembers<PROGRAM_K, PROGRAM_LEVELS>;

/// Which member is missing, and the members.
#[derive(Drop)]
pub struct GatherRefused<const CAP: usize, const LEVELS: usize> {
    /// The least number that no member has.
    pub missing: u32,
    /// The members, as they were.
    pub members: Vec<Member<CAP, LEVELS>>,
}
