//! What the workers of a search share, and what each has for itself.
use crate::errors::Refusal;
use crate::incumbent::{Incumbent, IncumbentSeat};
use klsm_board::{Board, Member};
use klsm_parts::Random;
use klsm_progress::Pace;
use klsm_run::PROGRAM_K;
use rand_pcg::Pcg32;

/// What a worker does with a node of which a child finds no room on the board.
#[derive(Clone, Copy, PartialEq, Eq)]
pub(crate) enum NoRoom {
    /// It ends, and the search is refused.
    Refuses,
    /// It searches the node depth first, and then each node that it takes from the board.
    SearchesAlone,
}

/// What all workers share: the board that has the open nodes, the incumbent, and what they do where the
/// board has no room.
#[derive(Drop)]
pub(crate) struct SearchState<const LEVELS: usize> {
    pub board: Board<PROGRAM_K, LEVELS>,
    pub incumbent: Incumbent,
    pub no_room: NoRoom,
}

/// Who hears of a search: the gate, which each worker passes before its first node, and the progress,
/// which is told how many nodes were examined.
#[derive(Drop)]
pub struct Listeners<'a, G, P> {
    pub gate: &'a G,
    pub progress: &'a P,
}

/// A worker: a member of the board, a seat at the incumbent, how its deletions choose, how many nodes it
/// has told of, whether it goes on without the board's room, and why it ended early, if it did.
#[derive(Drop)]
pub(crate) struct Worker<const LEVELS: usize> {
    pub member: Member<PROGRAM_K, LEVELS>,
    pub seat: IncumbentSeat,
    pub picker: Random<Pcg32>,
    pub pace: Pace,
    pub is_alone: bool,
    pub refused: Option<Refusal>,
}
