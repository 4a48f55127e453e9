//! What a member that has both parts in hand gives back, so that others find it.
ghost use Rattle.std.specs.Prelude.{◌≡◌, ◌+◌, ◌<◌, ◌↔◌, [], length, IfSome, IfOk, OnOk, OnErr, IsErrAnd};
ghost use Rattle.klsm_run.specs.Capacity.{IsCapacity, heap_room};
ghost use Rattle.klsm_run.specs.Content.{ShareNone};
ghost use Rattle.klsm_lsm.specs.Lsm.{content};
ghost use Rattle.klsm_lsm.specs.Limit.{limit_of};
ghost use Rattle.klsm_lsm.specs.Adding.{add};
ghost use Rattle.klsm_parts.specs.Parts.{items_in};
ghost use Rattle.klsm_parts.specs.Sharing.{MayShare, own_after_share, shared_after_share};

use crate::{Local, Shared};
use klsm_lsm::LsmError;
use klsm_union::SharedRun;
use std::alloc::Allocator;

/// Moves all items of the own part to the shared one. The answer is how many moved.
///
/// They leave as one run: it costs a merge of the own blocks in the store of that, which copies an item twice on
/// average at most, and a merge of the least of it into the least shared items. A refusal comes before anything
/// changes, and `Full` before the growths.
pub fn share<const CAP: usize, const LEVELS: usize, A: Allocator + Copy>(
    own: &mut Local<CAP>,
    shared: &mut Shared<LEVELS, A>,
) -> Result<usize, LsmError>
    requires capacity { IsCapacity CAP }
    requires apart { ShareNone (content own.old.blocks) (content shared.old.blocks) }
    ensures count { IfOk result (λ count. count ≡ length (items_in own.old)) }
    ensures own { OnOk result (own.new ≡ record { k = own.old.k; blocks = [] }) }
    ensures shared_k { shared.new.k ≡ shared.old.k }
    ensures none { IfOk result (λ count. count ≡ 0 → shared.new ≡ shared.old) }

    // What takes effect on the contents.
    ensures event { IfOk result (λ count. 0 < count
        → MayShare (items_in own.old) (items_in own.old)
        × (items_in own.new ≡ own_after_share (items_in own.old) (items_in own.old))
        × (items_in shared.new ≡ shared_after_share (items_in shared.old) (items_in own.old))
        × (shared.new.blocks ≡ add shared.old.blocks (items_in own.old))) }

    // A refusal changes nothing. It is for want of room exactly where there is none, and else for
    // want of memory.
    ensures full { IsErrAnd result (λ why. why ≡ LsmError.Full)
        ↔ (limit_of LEVELS heap_room
        < length (content shared.old.blocks) + length (content own.old.blocks)) }
    ensures unchanged { OnErr result ((own.new ≡ own.old) × (shared.new ≡ shared.old)) }
{
    share_prepared(own, shared, None)
}

/// The same as `share`, where a copy of all own items may be there: then the own blocks are not merged, and no memory
/// is taken for their items.
pub fn share_prepared<const CAP: usize, const LEVELS: usize, A: Allocator + Copy>(
    own: &mut Local<CAP>,
    shared: &mut Shared<LEVELS, A>,
    copy: Option<SharedRun<A>>,
) -> Result<usize, LsmError>
    requires capacity { IsCapacity CAP }
    requires apart { ShareNone (content own.old.blocks) (content shared.old.blocks) }
    requires copy { IfSome copy (λ run. run ≡ items_in own.old) }
    ensures count { IfOk result (λ count. count ≡ length (items_in own.old)) }
    ensures own { OnOk result (own.new ≡ record { k = own.old.k; blocks = [] }) }
    ensures shared_k { shared.new.k ≡ shared.old.k }
    ensures none { IfOk result (λ count. count ≡ 0 → shared.new ≡ shared.old) }
    ensures event { IfOk result (λ count. 0 < count
        → MayShare (items_in own.old) (items_in own.old)
        × (items_in own.new ≡ own_after_share (items_in own.old) (items_in own.old))
        × (items_in shared.new ≡ shared_after_share (items_in shared.old) (items_in own.old))
        × (shared.new.blocks ≡ add shared.old.blocks (items_in own.old))) }
    ensures full { IsErrAnd result (λ why. why ≡ LsmError.Full)
        ↔ (limit_of LEVELS heap_room
        < length (content shared.old.blocks) + length (content own.old.blocks)) }
    ensures unchanged { OnErr result ((own.new ≡ own.old) × (shared.new ≡ shared.old)) }
{
    // For the proof: the shared part is within its limit.
    let _known = shared.len();
    let count = own.len();
    if count == 0 {
        return Ok(0);
    }
    match absorb_own(own, shared, copy) {
        Ok(()) => {
            own.clear();
            Ok(count)
        }
        Err(why) => Err(why),
    }
}

/// A copy of all items of an own part, as one run, if there are some and memory for it. It costs the merge of the own
/// blocks that `share` would do, and needs no shared part.
pub fn copy_to_share<const CAP: usize, A: Allocator + Copy>(
    own: &Local<CAP>,
    alloc: A,
) -> Option<SharedRun<A>>
    requires capacity { IsCapacity CAP }
    ensures { IfSome result (λ run. run ≡ items_in own.now) }
{
    if own.len() == 0 {
        return None;
    }
    // For the proof: k is in its range.
    let _known = own.k();
    let copy = own.lsm().to_run(alloc).ok()?;
    SharedRun::new(alloc, copy).ok()
}

// Puts all own items, of which there are some, into the shared part: the copy, if there is one.
fn absorb_own<const CAP: usize, const LEVELS: usize, A: Allocator + Copy>(
    own: &Local<CAP>,
    shared: &mut Shared<LEVELS, A>,
    copy: Option<SharedRun<A>>,
) -> Result<(), LsmError>
    requires capacity { IsCapacity CAP }
    requires some { 0 < length (content own.now.blocks) }
    requires apart { ShareNone (content own.now.blocks) (content shared.old.blocks) }
    requires copy { IfSome copy (λ run. run ≡ items_in own.now) }
    ensures added { OnOk result (shared.new
        ≡ record { k = shared.old.k; blocks = add shared.old.blocks (items_in own.now) }) }
    ensures full { IsErrAnd result (λ why. why ≡ LsmError.Full)
        ↔ (limit_of LEVELS heap_room
        < length (content shared.old.blocks) + length (content own.now.blocks)) }
    ensures unchanged { OnErr result (shared.new ≡ shared.old) }
{
    match copy {
        Some(prepared) => shared.absorb(prepared),
        None => shared.absorb_all(own.lsm()),
    }
}
