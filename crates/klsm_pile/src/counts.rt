//! How many items the levels have.
ghost use Rattle.std.specs.Prelude.{ℕ, List, ◌≡◌, ◌+◌, ◌-◌, ◌<◌, ◌≤◌, ◌⊎◌, length, slice_index_or, slice_set};
ghost use Rattle.klsm_run.specs.Capacity.{heap_room};
ghost use Rattle.klsm_pile.specs.Piece.{PieceState};
ghost use Rattle.klsm_pile.specs.Pieces.{items_between, every_item};
ghost use Rattle.klsm_pile.specs.Counting.{AreCounts, IsNextBelow};
ghost use Rattle.klsm_pile.specs.Settling.{regrouped};

/// All items of the levels from one to another are of one of these levels from now on.
pub(crate) fn gather(counts: &mut [usize], low: usize, high: usize, to: usize)
    requires order { low ≤ to }
    requires within { to ≤ high }
    requires fits { high < length counts.old }
    requires counted { (ps : List PieceState) × AreCounts counts.old ps
        × (length (every_item ps) ≤ heap_room) }
    ensures counted { (ps : List PieceState) → AreCounts counts.old ps
        → AreCounts counts.new (regrouped low high to ps) }
    ensures len { length counts.new ≡ length counts.old }
{
    let sum = clear_between(counts, low, high);
    counts[to] = sum;
}

// Sets the counts from one to another to 0, and answers their sum.
fn clear_between(counts: &mut [usize], low: usize, high: usize) -> usize
    requires order { low ≤ high }
    requires fits { high < length counts.old }
    requires counted { (ps : List PieceState) × AreCounts counts.old ps
        × (length (every_item ps) ≤ heap_room) }
    ensures sum { (ps : List PieceState) → AreCounts counts.old ps
        → result ≡ length (items_between low (high + 1) ps) }
    ensures cleared { (l : ℕ) → low ≤ l → l ≤ high → slice_index_or counts.new l 0 ≡ 0 }
    ensures kept { (l : ℕ) → (l < low) ⊎ (high < l)
        → slice_index_or counts.new l 0 ≡ slice_index_or counts.old l 0 }
    ensures len { length counts.new ≡ length counts.old }
{
    let mut sum = 0;
    for level in low..high + 1 {
        sum += counts[level];
        counts[level] = 0;
    }
    sum
}

/// The next level below one that has items.
pub(crate) fn next_below(counts: &[usize], level: usize) -> Option<usize>
    requires { level ≤ length counts.now }
    ensures { IsNextBelow counts.now level result }
{
    let mut at = level;
    while at > 0 {
        at -= 1;
        if counts[at] != 0 {
            return Some(at);
        }
    }
    None
}

/// The least level from one on that has no item.
pub(crate) fn landing(counts: &[usize], from: usize) -> usize
    requires { from ≤ length counts.now }
    ensures order { from ≤ result }
    ensures within { result ≤ length counts.now }
    ensures taken { (l : ℕ) → from ≤ l → l < result → 0 < slice_index_or counts.now l 0 }
    ensures free { result < length counts.now → slice_index_or counts.now result 0 ≡ 0 }
{
    let mut to = from;
    while to < counts.len() && counts[to] != 0 {
        to += 1;
    }
    to
}

/// Items leave a level, so many of them.
pub(crate) fn take_from(counts: &mut [usize], level: usize, count: usize)
    requires level { level < length counts.old }
    requires count { count ≤ slice_index_or counts.old level 0 }
    ensures { counts.new ≡ slice_set counts.old level (slice_index_or counts.old level 0 - count) }
{
    counts[level] -= count;
}

/// Items come to a level, so many of them.
pub(crate) fn add_to(counts: &mut [usize], level: usize, count: usize)
    requires level { level < length counts.old }
    requires count { slice_index_or counts.old level 0 + count ≤ heap_room }
    ensures { counts.new ≡ slice_set counts.old level (slice_index_or counts.old level 0 + count) }
{
    counts[level] += count;
}
