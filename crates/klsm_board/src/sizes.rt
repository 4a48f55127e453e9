//! What a board is made for.

/// The numbers of a board, fixed when it is made.
#[derive(Clone, Copy, Debug, PartialEq, Eq, Drop)]
pub struct Sizes {
    /// How many members there are.
    pub threads: usize,
    /// How many items an own part may have.
    pub k: usize,
    /// How many insertions a member may make.
    pub quota: u64,
    /// How many shared items a deletion that took one moves to the own part, at most.
    pub refill: usize,
}
