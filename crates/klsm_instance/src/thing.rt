//! What may be taken.

/// A thing that may be taken, by its value and its weight. Also the totals of a selection.
#[derive(Clone, Copy, Debug, Default, Drop, PartialEq, Eq)]
pub struct Thing {
    /// What it is worth.
    pub value: u64,
    /// How much of the capacity it takes.
    pub weight: u64,
}
