//! Of which run the least items of two are.
ghost use Rattle.std.specs.Prelude.{◌≡◌, ◌+◌, ◌≤◌, ◌++◌, length, take, drop, slice_get, IsTrue};
ghost use Rattle.std.specs.List.{AllByRecursion};
ghost use Rattle.klsm_run.specs.Content.{sorted, IsAscending};
ghost use Rattle.klsm_union.specs.Heads;

use klsm_run::Item;

/// Whether the first list begins with the least item of both.
pub(crate) fn precedes(left: &[Item], right: &[Item]) -> bool
    ensures { result ≡ Heads.precedes left.now right.now }
{
    if right.is_empty() {
        return true;
    }
    !left.is_empty() && !right[0].is_before(&left[0])
}

/// How many of the first `count` items of both lists are of the one, and how many of the other. It costs two
/// comparisons if all are of one list.
pub(crate) fn shares(left: &[Item], right: &[Item], count: usize) -> (usize, usize)
    requires left { IsAscending left.now }
    requires right { IsAscending right.now }
    requires count { count ≤ length left.now + length right.now }
    ensures within { (result.0 ≤ length left.now) × (result.1 ≤ length right.now) }
    ensures rest { sorted (drop result.0 left.now ++ drop result.1 right.now)
        ≡ drop count (sorted (left.now ++ right.now)) }
{
    if leads(left, right, count) {
        return (count, 0);
    }
    if leads(right, left, count) {
        return (0, count);
    }
    shares_by_steps(left, right, count)
}

// Whether the first `count` items of a list come before all of another one.
fn leads(one: &[Item], other: &[Item], count: usize) -> bool
    requires { IsAscending one.now }
    ensures within { IsTrue result → count ≤ length one.now }
    ensures before { IsTrue result → AllByRecursion (Heads.IsBefore (slice_get other.now 0)) (take count one.now) }
{
    if count > one.len() {
        return false;
    }
    if count == 0 || other.is_empty() {
        return true;
    }
    one[count - 1].is_before(&other[0])
}

// The same for any items, one after another.
fn shares_by_steps(left: &[Item], right: &[Item], count: usize) -> (usize, usize)
    requires left { IsAscending left.now }
    requires right { IsAscending right.now }
    requires count { count ≤ length left.now + length right.now }
    ensures within { (result.0 ≤ length left.now) × (result.1 ≤ length right.now) }
    ensures rest { sorted (drop result.0 left.now ++ drop result.1 right.now)
        ≡ drop count (sorted (left.now ++ right.now)) }
{
    let mut i = 0;
    let mut j = 0;
    while i + j < count {
        if precedes(&left[i..], &right[j..]) {
            i += 1;
        } else {
            j += 1;
        }
    }
    (i, j)
}
