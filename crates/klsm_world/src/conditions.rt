//! Whether events may happen, on contents of parts.
ghost use Rattle.std.specs.Prelude.{◌≡◌, ◌+◌, ◌≤◌, ◌<◌, ◌↔◌, ◌∷◌, [], IsTrue, length};
ghost use Rattle.klsm_world.specs.declared.world.TheConstants.{WORLD_K};
ghost use Rattle.klsm_run.specs.Content.{sorted, IsAscending};
ghost use Rattle.klsm_parts.specs.Events.{times, IsWithin, IsInReach, SkipsNoneOf, MayFlush, MayTake, MayTakeEarly, MaySpy, MayRefill};
ghost use Rattle.klsm_parts.specs.Stealing.{MaySteal};
ghost use Rattle.klsm_parts.specs.Sharing.{MayShare};

use klsm_run::Item;

/// Whether an item is among others.
pub(crate) fn has(items: &[Item], item: Item) -> bool
    ensures { IsTrue result ↔ (0 < times item items.now) }
{
    items.contains(&item)
}

/// Whether each item is smaller than all that come after it.
pub(crate) fn is_ascending(items: &[Item]) -> bool
    ensures { IsTrue result ↔ IsAscending items.now }
{
    for next in 1..items.len() {
        if items[next - 1] >= items[next] {
            return false;
        }
    }
    true
}

/// Whether ascending items are all among others.
pub(crate) fn are_within(moved: &[Item], items: &[Item]) -> bool
    requires { IsAscending moved.now }
    ensures { IsTrue result ↔ IsWithin moved.now items.now }
{
    for item in moved {
        if !has(items, *item) {
            return false;
        }
    }
    true
}

/// Whether these items may move at a flush of an item from a part with these.
pub(crate) fn may_flush(k: usize, own: &[Item], item: Item, moved: &[Item]) -> bool
    requires { k ≤ WORLD_K }
    ensures { IsTrue result ↔ MayFlush k own.now item moved.now }
{
    if !is_ascending(moved) {
        return false;
    }
    for one in moved {
        if *one != item && !has(own, *one) {
            return false;
        }
    }
    own.len() < k + moved.len()
}

/// Whether no item that an owner inserted is smaller than one.
pub(crate) fn skips_none_of(owner: u32, items: &[Item], item: Item) -> bool
    ensures { IsTrue result ↔ SkipsNoneOf owner items.now item }
{
    for other in items {
        if other.stamp.owner == owner && *other < item {
            return false;
        }
    }
    true
}

/// Whether a thread may take an item from two ascending parts.
pub(crate) fn may_take(k: usize, owner: u32, own: &[Item], shared: &[Item], item: Item) -> bool
    requires own_sorted { sorted own.now ≡ own.now }
    requires shared_sorted { sorted shared.now ≡ shared.now }
    requires k_in_range { k ≤ WORLD_K }
    ensures { IsTrue result ↔ MayTake k owner own.now shared.now item }
{
    // No own item is smaller than one in reach.
    is_in_reach(k, own, shared, item) && skips_none_of(owner, shared, item)
}

/// Whether an item is the least of a part, and its key is below a front.
pub(crate) fn may_take_early(own: &[Item], item: Item, front: u64) -> bool
    requires { sorted own.now ≡ own.now }
    ensures { IsTrue result ↔ MayTakeEarly own.now item front }
{
    let Some(least) = own.first() else {
        return false;
    };
    *least == item && item.key < front
}

// Whether an item is in reach of a deletion from two ascending parts. It looks at the least own item
// and at the candidates.
fn is_in_reach(k: usize, own: &[Item], shared: &[Item], item: Item) -> bool
    requires own_sorted { sorted own.now ≡ own.now }
    requires shared_sorted { sorted shared.now ≡ shared.now }
    requires k_in_range { k ≤ WORLD_K }
    ensures { IsTrue result ↔ IsInReach k own.now shared.now item }
{
    let candidates = &shared[..shared.len().min(k + 1)];
    let Some(least) = own.first() else {
        return has(candidates, item);
    };
    // The least own item goes where some candidate is not smaller, and a candidate where no own
    // item is smaller.
    if *least == item {
        return match candidates {
            [] => true,
            [.., greatest] => item <= *greatest,
        };
    }
    item < *least && has(candidates, item)
}

/// Whether items may move from a victim's part to another.
pub(crate) fn may_spy(own: &[Item], victim: &[Item], moved: &[Item]) -> bool
    ensures { IsTrue result ↔ MaySpy own.now victim.now moved.now }
{
    own.is_empty() && !moved.is_empty() && is_ascending(moved) && are_within(moved, victim)
}

/// Whether items may move from the shared part to another, which is to hold at most `k`.
pub(crate) fn may_refill(k: usize, own: &[Item], shared: &[Item], moved: &[Item]) -> bool
    ensures { IsTrue result ↔ MayRefill k own.now shared.now moved.now }
{
    if moved.is_empty() || !is_ascending(moved) {
        return false;
    }
    if !are_within(moved, shared) {
        return false;
    }
    own.len() + moved.len() <= k
}

/// Whether items may move from a victim's part to another, which is to hold at most `k`.
pub(crate) fn may_steal(k: usize, own: &[Item], victim: &[Item], moved: &[Item]) -> bool
    ensures { IsTrue result ↔ MaySteal k own.now victim.now moved.now }
{
    // A refill asks the same of the shared part.
    may_refill(k, own, victim, moved)
}

/// Whether items may move from an own part to the shared one.
pub(crate) fn may_share(own: &[Item], moved: &[Item]) -> bool
    ensures { IsTrue result ↔ MayShare own.now moved.now }
{
    if moved.is_empty() || !is_ascending(moved) {
        return false;
    }
    are_within(moved, own)
}
