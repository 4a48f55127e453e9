//! What a member that has room takes from another's part, so that no part keeps small items for long.
ghost use Rattle.std.specs.Prelude.{◌≡◌, ◌<◌, ◌≤◌, length, take, drop};
ghost use Rattle.klsm_run.specs.Capacity.{IsCapacity};
ghost use Rattle.klsm_run.specs.Content.{ShareNone};
ghost use Rattle.klsm_lsm.specs.Lsm.{IsLsm};
ghost use Rattle.klsm_lsm.specs.Adding.{add};
ghost use Rattle.klsm_parts.specs.Parts.{items_in};
ghost use Rattle.klsm_parts.specs.Events.{plus};
ghost use Rattle.klsm_parts.specs.Stealing.{MaySteal, AreCutFrom, own_after_steal, victim_after_steal, steal_count, steal_of, with_each};

use crate::{Local, put, take_least};

/// Moves the least items of a victim's part to the own one: at most `most`, as half of what the victim
/// has, rounded up, and as many as the own part has room for. The answer is how many moved.
///
/// It takes no memory. Each item costs one comparison a block of the victim's, and an insertion.
pub fn steal<const CAP: usize>(own: &mut Local<CAP>, victim: &mut Local<CAP>, most: usize) -> usize
    requires capacity { IsCapacity CAP }
    requires apart { ShareNone (items_in own.old) (items_in victim.old) }
    ensures count { result
        ≡ steal_count most own.old.k (items_in own.old) (items_in victim.old) }
    ensures own_k { own.new.k ≡ own.old.k }
    ensures victim_k { victim.new.k ≡ victim.old.k }
    ensures unchanged { result ≡ 0 → (own.new ≡ own.old) × (victim.new ≡ victim.old) }

    // Each item is cut out of its block, and added as a run of its own.
    ensures own { own.new.blocks ≡ with_each own.old.blocks
        (steal_of most own.old.k (items_in own.old) (items_in victim.old)) }
    ensures victim { AreCutFrom (steal_of most own.old.k (items_in own.old) (items_in victim.old))
        victim.old.blocks victim.new.blocks }

    // What takes effect on the contents.
    ensures event { 0 < result → MaySteal own.old.k (items_in own.old) (items_in victim.old)
        (steal_of most own.old.k (items_in own.old) (items_in victim.old))
        × (items_in own.new ≡ own_after_steal (items_in own.old)
        (steal_of most own.old.k (items_in own.old) (items_in victim.old)))
        × (items_in victim.new ≡ victim_after_steal (items_in victim.old)
        (steal_of most own.old.k (items_in own.old) (items_in victim.old))) }
{
    let count = count_to_steal(own, victim, most);
    if count == 0 {
        return 0;
    }
    let mut done = 0;
    while done < count {
        steal_least(own, victim);
        done += 1;
    }
    count
}

// How many items may move.
fn count_to_steal<const CAP: usize>(own: &Local<CAP>, victim: &Local<CAP>, most: usize) -> usize
    ensures count { result ≡ steal_count most own.now.k (items_in own.now) (items_in victim.now) }
    ensures few { length (items_in own.now) ≤ own.now.k }
    ensures lawful { IsLsm victim.now.blocks }
{
    let size = victim.len();
    let room = own.k() - own.len();
    most.min(size - size / 2).min(room)
}

// Moves the least item.
fn steal_least<const CAP: usize>(own: &mut Local<CAP>, victim: &mut Local<CAP>)
    requires capacity { IsCapacity CAP }
    requires some { 0 < length (items_in victim.old) }
    requires room { length (items_in own.old) < own.old.k }
    requires apart { ShareNone (items_in own.old) (items_in victim.old) }
    ensures own_k { own.new.k ≡ own.old.k }
    ensures victim_k { victim.new.k ≡ victim.old.k }
    ensures own { items_in own.new ≡ plus (items_in own.old) (take 1 (items_in victim.old)) }
    ensures victim { items_in victim.new ≡ drop 1 (items_in victim.old) }
    ensures own_blocks { own.new.blocks ≡ add own.old.blocks (take 1 (items_in victim.old)) }
    ensures victim_blocks { AreCutFrom (take 1 (items_in victim.old))
        victim.old.blocks victim.new.blocks }
{
    let least = take_least(victim);
    put(own, least);
}
