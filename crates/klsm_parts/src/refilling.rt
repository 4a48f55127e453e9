//! What a member that has both parts in hand moves to its own one, so that its next deletions do not need
//! the shared one. It fetches the items while it has both, and takes them in when it has given the shared one back.
ghost use Rattle.std.specs.Prelude.{◌≡◌, ◌+◌, ◌<◌, ◌≤◌, length, take, drop};
ghost use Rattle.klsm_lsm.specs.Lsm.{IsLsm};
ghost use Rattle.klsm_parts.specs.Parts.{items_in};
ghost use Rattle.klsm_parts.specs.Events.{MayRefill, shared_after_refill};
ghost use Rattle.klsm_pile.specs.Leaving.{cut_least};
ghost use Rattle.klsm_parts.specs.Refilling.{refill_count, refill_of};

use crate::{Local, Shared};
use klsm_run::Item;
use std::alloc::Allocator;

/// Moves the least items of the shared part to places, in their order: at most `most`, as many as there are, and
/// as half the room of the own part, rounded up, is for. The answer is how many moved. `take_in` brings them to the
/// own part, which is as it was until then.
///
/// It takes no memory. Items leave the shared part at once, at one comparison a block of it for each.
pub fn fetch<const CAP: usize, const LEVELS: usize, A: Allocator + Copy>(
    own: &Local<CAP>,
    shared: &mut Shared<LEVELS, A>,
    most: usize,
    places: &mut [Item],
) -> usize
    requires enough { own.now.k ≤ length places.old }
    ensures count { result
        ≡ refill_count most own.now.k (items_in own.now) (items_in shared.old) }
    ensures within { result ≤ own.now.k }
    ensures shared_k { shared.new.k ≡ shared.old.k }
    ensures unchanged { result ≡ 0 → shared.new ≡ shared.old }
    ensures fetched { take result places.new
        ≡ refill_of most own.now.k (items_in own.now) (items_in shared.old) }

    // What takes effect on the shared content, and on the own one by `take_in`.
    ensures event { 0 < result → MayRefill own.now.k (items_in own.now) (items_in shared.old)
        (refill_of most own.now.k (items_in own.now) (items_in shared.old))
        × (items_in shared.new ≡ shared_after_refill (items_in shared.old)
        (refill_of most own.now.k (items_in own.now) (items_in shared.old))) }

    // Which blocks that leaves, where no more items move than are candidates, as where the two parts have one k.
    ensures blocks { 0 < result → result ≤ shared.old.k + 1
        → shared.new.blocks ≡ cut_least result shared.old.blocks }
{
    let count = count_to_move(own, shared, most);
    if count == 0 {
        return 0;
    }
    move_least(shared, &mut places[..count]);
    count
}

// How many items may move.
fn count_to_move<const CAP: usize, const LEVELS: usize, A: Allocator + Copy>(
    own: &Local<CAP>,
    shared: &Shared<LEVELS, A>,
    most: usize,
) -> usize
    ensures count { result ≡ refill_count most own.now.k (items_in own.now) (items_in shared.now) }
    ensures few { length (items_in own.now) ≤ own.now.k }
    ensures lawful { IsLsm shared.now.blocks }
{
    let room = own.k() - own.len();
    most.min(room - room / 2).min(shared.len())
}

// Moves the least shared items to places, in their order: as many at a time as are candidates, so that
// one turn does where the two parts have one k.
fn move_least<const LEVELS: usize, A: Allocator + Copy>(
    shared: &mut Shared<LEVELS, A>,
    places: &mut [Item],
)
    requires { length places.old ≤ length (items_in shared.old) }
    ensures shared_k { shared.new.k ≡ shared.old.k }
    ensures moved { places.new ≡ take (length places.old) (items_in shared.old) }
    ensures left { items_in shared.new ≡ drop (length places.old) (items_in shared.old) }
    ensures blocks { 0 < length places.old → length places.old ≤ shared.old.k + 1
        → shared.new.blocks ≡ cut_least (length places.old) shared.old.blocks }
{
    let mut done = 0;
    while done < places.len() {
        let count = (places.len() - done).min(shared.candidates());
        shared.take_least(&mut places[done..done + count]);
        done += count;
    }
}
