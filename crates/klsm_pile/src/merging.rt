//! How items of one level are merged into the front.
ghost use Rattle.std.specs.Prelude.{◌≡◌, ◌+◌, ◌≤◌, ◌++◌, length, take};
ghost use Rattle.klsm_run.specs.Content.{IsAscending, ShareNone};
ghost use Rattle.klsm_pile.specs.Front.{fetched, front_items};
ghost use Rattle.klsm_pile.specs.Merging.{IsMerged};

use crate::fetched::Fetched;
use crate::front::Front;
use klsm_run::Item;
use std::alloc::Allocator;

/// Puts items of a level into the front, where they belong. The greatest of both goes first, to the end of the places that
/// both need, so no more items of the front move than those behind the least of the others.
pub(crate) fn merge_in<A: Allocator + Copy>(front: &mut Front<A>, items: &[Item], level: usize)
    requires room { length front.old.items + length items.now ≤ front.old.capacity }
    requires ascending { IsAscending (front_items front.old.items) }
    requires items_ascending { IsAscending items.now }
    requires apart { ShareNone (front_items front.old.items) items.now }
    ensures merged { IsMerged level items.now front.old.items front.new.items }
    ensures capacity { front.new.capacity ≡ front.old.capacity }
{
    let mut left = front.len();
    let mut right = items.len();
    front.append(items, level);
    // For the proof: the number of both fits.
    let _known = front.len();
    while right > 0 {
        let item = items[right - 1];
        if left > 0 && item.is_before(&front.at(left - 1).item) {
            front.set(left + right - 1, front.at(left - 1));
            left -= 1;
        } else {
            front.set(left + right - 1, Fetched { item, level });
            right -= 1;
        }
    }
}
