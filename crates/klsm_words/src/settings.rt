//! How a script is run, and how an instance is solved.

use klsm_parts::Pick;

/// How a script is run.
#[derive(Clone, Copy, Debug, PartialEq, Eq)]
pub struct ScriptSettings {
    /// How many threads the rows may name, 1 to 16.
    pub threads: usize,
    /// How many items a thread keeps for itself, at most 64.
    pub k: usize,
    /// How many shared items a deletion that took one moves to its thread's own, at most k.
    pub refill: usize,
    /// Before each so-manyth of its deletions a thread balances, with the other threads in turn. With 0 never.
    pub balance: u32,
    /// How deletions pick a candidate.
    pub pick: Pick,
    /// The seed of thread 0's random picks. Each further thread has a seed that is greater by one.
    pub seed: u64,
}

/// How an instance is solved.
#[derive(Clone, Copy, Debug, PartialEq, Eq)]
pub struct Search {
    /// How many workers there are, 1 to 16.
    pub threads: usize,
    /// How many nodes a worker keeps for itself, at most 64.
    pub k: usize,
    /// After how many answers "nothing" in a row a worker ends.
    pub idle: u32,
}
