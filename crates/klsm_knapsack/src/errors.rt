//! Why searches are refused.

use thiserror::Error;

/// Why `solve` has no answer. The causes are tried in this order.
#[derive(Clone, Copy, Debug, PartialEq, Eq, Error)]
pub enum SolveError {
    /// Not 1 to 16 workers.
    #[error("the number of workers is not 1 to 16")]
    BadThreads,
    /// More than 64 items in a member's own part.
    #[error("an own part cannot hold k items")]
    BadK,
    /// The shared part of the board had no room for a node.
    #[error("the board is full")]
    Full,
    /// An allocation was refused.
    #[error("out of memory")]
    NoMemory,
}

/// Why `solve_with` has no answer. The causes are tried in this order.
#[derive(Clone, Copy, Debug, PartialEq, Eq, Error)]
pub enum SearchError {
    /// Not 1 to `MOST_THREADS` workers.
    #[error("the number of workers is not 1 to 64")]
    BadThreads,
    /// More than `PROGRAM_K` items in a member's own part.
    #[error("an own part cannot hold k items")]
    BadK,
    /// More items to move than k.
    #[error("a deletion cannot move more than k items")]
    BadRefill,
    /// The shared part of the board had no room for a node.
    #[error("the board is full")]
    Full,
    /// A growth was refused.
    #[error("out of memory")]
    NoMemory,
}

/// Why a search that no want of room can end has no answer. The causes are tried in this order.
#[derive(Clone, Copy, Debug, PartialEq, Eq, Error)]
pub enum UnsolvedError {
    /// Not 1 to `MOST_THREADS` workers.
    #[error("the number of workers is not 1 to 64")]
    BadThreads,
    /// More than `PROGRAM_K` items in a member's own part.
    #[error("an own part cannot hold k items")]
    BadK,
    /// More items to move than k.
    #[error("a deletion cannot move more than k items")]
    BadRefill,
    /// A growth was refused.
    #[error("out of memory")]
    NoMemory,
}

/// Why a worker ended before it was idle.
#[derive(Clone, Copy, PartialEq, Eq)]
pub(crate) enum Refusal {
    /// The shared part had no room.
    Full,
    /// A growth was refused.
    NoMemory,
}

impl Refusal {
    ghost use Rattle.std.specs.Prelude.{◌≡◌};
    ghost use Rattle.klsm_knapsack.specs.Refusals.{error_of};

    /// The error that a search answers for it.
    pub(crate) fn error(self) -> SearchError
        ensures { result ≡ error_of self }
    {
        match self {
            Refusal::Full => SearchError::Full,
            Refusal::NoMemory => SearchError::NoMemory,
        }
    }
}
