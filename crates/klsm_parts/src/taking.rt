//! The deletion from an own part and the shared one.
ghost use Rattle.std.specs.Prelude.{◌≡◌, ◌+◌, ◌<◌, ◌≤◌, ◌↔◌, ◌++◌, [], false, length, slice_get, slice_index_or, option_map, Some, None, IsTrue, MatchOption, IfSome};
ghost use Rattle.klsm_run.specs.Content.{ShareNone, skipped};
ghost use Rattle.klsm_run.specs.ItemOrder.{is_smaller};
ghost use Rattle.klsm_lsm.specs.Lsm.{content};
ghost use Rattle.klsm_parts.specs.Parts.{items_in, least_in, candidates_of};
ghost use Rattle.klsm_parts.specs.Events.{MayTake, MayFindNothing, own_after_take, shared_after_take};
ghost use Rattle.klsm_parts.specs.Taking.{own_first, picks, lesser_of, unless_smaller, IsPicked, Leaves};

use crate::places::item_of;
use crate::{Local, Picker, Shared};
use klsm_run::Item;
use std::alloc::Allocator;

/// Takes an item out of the two parts: the least own one where it is the least of both parts, else
/// the lesser of the least own one and a candidate. That is the one which the picker answers, or the
/// first before it that `owner` inserted, if there is one. `None` where both parts are empty.
///
/// What it takes skips at most k items of the two parts, and none that `owner` inserted. It takes no
/// memory. It costs one comparison a block of the own part and, where a shared item goes, a look at each candidate before
/// that one, and at each that is kept side by side with them, which moves up. Some hundreds of deletions find them so; then
/// as many more are fetched, at a few comparisons for each run of items of one piece.
pub fn take<const CAP: usize, const LEVELS: usize, A: Allocator + Copy, P: Picker>(
    owner: u32,
    own: &mut Local<CAP>,
    shared: &mut Shared<LEVELS, A>,
    picker: &mut P,
) -> Option<Item>
    requires same_k { own.old.k ≡ shared.old.k }
    requires apart { ShareNone (content own.old.blocks) (content shared.old.blocks) }

    // The picker is asked, once, exactly where the least of both parts is a shared item. Of the candidates up to the one
    // that it answers, the first that the owner inserted counts, or that one.
    ensures unasked { picks (least_in own.old) (least_in shared.old) ≡ false
        → (picker.new ≡ picker.old) × (result ≡ least_in own.old) }
    ensures asked { IsTrue (picks (least_in own.old) (least_in shared.old))
        → IsPicked P.may_pick picker.old picker.new owner (candidates_of shared.old)
        (λ candidate. result ≡ Some (lesser_of candidate (least_in own.old))) }

    // The item leaves its part.
    ensures left { MatchOption result
        ((own.new ≡ own.old) × (shared.new ≡ shared.old))
        (λ item. Leaves item own.old own.new shared.old shared.new) }

    // What takes effect on the contents.
    ensures nothing { (result ≡ None) ↔ MayFindNothing (items_in own.old) (items_in shared.old) }
    ensures event { IfSome result (λ item.
        MayTake own.old.k owner (items_in own.old) (items_in shared.old) item
        × (items_in own.new ≡ own_after_take (items_in own.old) item)
        × (items_in shared.new ≡ shared_after_take (items_in own.old) (items_in shared.old) item)) }
    ensures skips { IfSome result (λ item.
        skipped (items_in own.old ++ items_in shared.old) item ≤ own.old.k) }
{
    // Each part is searched once.
    let least_own = own.least_place();
    match choose(owner, item_of(least_own), shared, picker) {
        Some((item, rank)) => {
            shared.remove(rank);
            Some(item)
        }
        None => {
            let least = least_own?;
            Some(own.remove(least.block, least.index))
        }
    }
}

// The candidate to take, and how many candidates are smaller. `None` where the least own item is to be taken, if there is one.
fn choose<const LEVELS: usize, A: Allocator + Copy, P: Picker>(
    owner: u32,
    least_own: Option<Item>,
    shared: &Shared<LEVELS, A>,
    picker: &mut P,
) -> Option<(Item, usize)>
    ensures unasked { picks least_own (least_in shared.now) ≡ false
        → (picker.new ≡ picker.old) × (result ≡ None) }
    ensures asked { IsTrue (picks least_own (least_in shared.now))
        → IsPicked P.may_pick picker.old picker.new owner (candidates_of shared.now)
        (λ candidate. option_map (λ chosen. chosen.0) result
        ≡ unless_smaller candidate least_own) }
    ensures candidate { IfSome result (λ chosen.
        slice_get (candidates_of shared.now) chosen.1 ≡ Some chosen.0) }
{
    let least = shared.least()?;
    if is_smaller_own(least_own, least) {
        return None;
    }
    let index = picker.pick(shared.candidates());
    let (candidate, rank) = shared.own_first(owner, index);
    if is_smaller_own(least_own, candidate) {
        return None;
    }
    Some((candidate, rank))
}

// Whether the least own item, if there is one, is smaller than another item.
pub(crate) fn is_smaller_own(least_own: Option<Item>, item: Item) -> bool
    ensures { MatchOption least_own (result ≡ false) (λ own. result ≡ is_smaller own item) }
{
    least_own.is_some_and(|own| own.is_before(&item))
}
