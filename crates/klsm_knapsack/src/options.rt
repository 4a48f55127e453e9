//! What a search is made with.
ghost use Rattle.std.specs.Prelude.{◌≡◌};
ghost use Rattle.klsm_knapsack.specs.Searches.{usual_options};

/// How many nodes a deletion of a shared one moves to its worker's own at most, where the caller does not
/// say.
const REFILL: usize = 16;

/// How many workers a search has, over which board, and when they end. The answer is a best selection with any
/// options that are in range.
#[derive(Clone, Copy, PartialEq, Eq, Debug)]
pub struct SearchOptions {
    /// How many workers there are, 1 to 64.
    pub threads: usize,
    /// How many nodes a worker keeps for itself at most, 0 to 64.
    pub k: usize,
    /// How many nodes a deletion of a shared one moves to its worker's own at most, 0 to k.
    pub refill: usize,
    /// After how many answers "nothing" in a row a worker ends. With 0 none begins.
    pub idle: u32,
}

impl SearchOptions {
    /// With a refill of 16, or of k where that is less.
    pub fn new(threads: usize, k: usize, idle: u32) -> Self
        ensures { result ≡ usual_options threads k idle }
    {
        let refill = k.min(REFILL);
        SearchOptions {
            threads,
            k,
            refill,
            idle,
        }
    }
}
