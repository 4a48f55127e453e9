//! What a member that finds its own part empty takes from another's.
ghost use Rattle.std.specs.Prelude.{◌≡◌, ◌↔◌, [], length, IfSome};
ghost use Rattle.std.specs.Option.{option_to_list};
ghost use Rattle.klsm_lsm.specs.Spying.{spied, left_by_spy};
ghost use Rattle.klsm_parts.specs.Parts.{items_in};
ghost use Rattle.klsm_parts.specs.Events.{MaySpy, own_after_spy, victim_after_spy};

use crate::Local;

/// Moves the victim's largest block to the own part, which is empty, or its greatest half, rounded
/// up, where it is the only block. The answer is the number of items that moved.
///
/// It takes no memory, and costs one copy of what moves.
pub fn spy<const CAP: usize>(own: &mut Local<CAP>, victim: &mut Local<CAP>) -> usize
    requires same_k { own.old.k ≡ victim.old.k }
    requires empty { items_in own.old ≡ [] }
    ensures own { own.new
        ≡ record { k = own.old.k; blocks = option_to_list (spied victim.old.blocks) } }
    ensures victim { victim.new
        ≡ record { k = victim.old.k; blocks = left_by_spy victim.old.blocks } }
    ensures count { result ≡ length (items_in own.new) }
    ensures none { (result ≡ 0) ↔ (items_in victim.old ≡ []) }
    ensures unchanged { (result ≡ 0) → (own.new ≡ own.old) × (victim.new ≡ victim.old) }

    // What takes effect on the contents.
    ensures event { IfSome (spied victim.old.blocks) (λ moved.
        MaySpy (items_in own.old) (items_in victim.old) moved
        × (items_in own.new ≡ own_after_spy moved)
        × (items_in victim.new ≡ victim_after_spy (items_in victim.old) moved)) }
{
    // For the proof: an own part without items has no block, and the victim's is lawful.
    prove!(own.len() == 0);
    let _known = victim.len();
    own.spy_from(victim)
}
