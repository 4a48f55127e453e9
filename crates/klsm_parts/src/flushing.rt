//! The insertion into a full own part.
ghost use Rattle.std.specs.Prelude.{◌≡◌, ◌+◌, ◌<◌, ◌↔◌, length, IfSome, OnOk, OnErr, IsErrAnd};
ghost use Rattle.std.specs.List.{Contains};
ghost use Rattle.klsm_run.specs.Capacity.{IsCapacity, heap_room};
ghost use Rattle.klsm_run.specs.Content.{ShareNone};
ghost use Rattle.klsm_lsm.specs.Lsm.{content, IsLsm};
ghost use Rattle.klsm_lsm.specs.Limit.{limit_of};
ghost use Rattle.klsm_lsm.specs.Adding.{add};
ghost use Rattle.klsm_parts.specs.Parts.{items_in};
ghost use Rattle.klsm_parts.specs.Events.{MayFlush, own_after_flush, shared_after_flush};
ghost use Rattle.klsm_parts.specs.Flushing.{moved, kept, IsLargest};

use crate::{Local, Shared};
use klsm_lsm::LsmError;
use klsm_run::{FixedRun, HeapRun, Item};
use klsm_union::SharedRun;
use std::alloc::Allocator;

/// Puts an item into an own part that holds k items: its largest block moves to the shared part.
/// With k = 0 the item itself goes there.
///
/// It costs one copy of what moves and a merge of the least of it into the least shared items. After a refusal the blocks of
/// both parts are as they were.
pub fn flush<const CAP: usize, const LEVELS: usize, A: Allocator + Copy>(
    own: &mut Local<CAP>,
    shared: &mut Shared<LEVELS, A>,
    item: Item,
) -> Result<(), LsmError>
    requires capacity { IsCapacity CAP }
    requires full { length (content own.old.blocks) ≡ own.old.k }
    requires apart { ShareNone (content own.old.blocks) (content shared.old.blocks) }
    requires new_to_own { ¬ Contains (content own.old.blocks) item }
    requires new_to_shared { ¬ Contains (content shared.old.blocks) item }
    ensures own { OnOk result (own.new
        ≡ record { k = own.old.k; blocks = kept own.old.blocks item }) }
    ensures shared { OnOk result (shared.new
        ≡ record { k = shared.old.k; blocks = add shared.old.blocks (moved own.old.blocks item) }) }
    ensures event { OnOk result (
        MayFlush own.old.k (items_in own.old) item (moved own.old.blocks item)
        × (items_in own.new ≡ own_after_flush (items_in own.old) item (moved own.old.blocks item))
        × (items_in shared.new
        ≡ shared_after_flush (items_in shared.old) (moved own.old.blocks item))) }
    ensures moves { 0 < length (moved own.old.blocks item) }

    // A refusal changes nothing. It is for want of room exactly where there is none, and else for
    // want of memory.
    ensures full { IsErrAnd result (λ why. why ≡ LsmError.Full)
        ↔ (limit_of LEVELS heap_room
        < length (content shared.old.blocks) + length (moved own.old.blocks item)) }
    ensures unchanged { OnErr result ((own.new ≡ own.old) × (shared.new ≡ shared.old)) }
{
    flush_prepared(own, shared, item, None)
}

/// The same as `flush`, where a copy of the block that moves may be there: then nothing is copied.
pub fn flush_prepared<const CAP: usize, const LEVELS: usize, A: Allocator + Copy>(
    own: &mut Local<CAP>,
    shared: &mut Shared<LEVELS, A>,
    item: Item,
    copy: Option<SharedRun<A>>,
) -> Result<(), LsmError>
    requires capacity { IsCapacity CAP }
    requires full { length (content own.old.blocks) ≡ own.old.k }
    requires apart { ShareNone (content own.old.blocks) (content shared.old.blocks) }
    requires new_to_own { ¬ Contains (content own.old.blocks) item }
    requires new_to_shared { ¬ Contains (content shared.old.blocks) item }
    requires copy { IfSome copy (λ run. IsLargest run own.old.blocks) }
    ensures own { OnOk result (own.new
        ≡ record { k = own.old.k; blocks = kept own.old.blocks item }) }
    ensures shared { OnOk result (shared.new
        ≡ record { k = shared.old.k; blocks = add shared.old.blocks (moved own.old.blocks item) }) }
    ensures event { OnOk result (
        MayFlush own.old.k (items_in own.old) item (moved own.old.blocks item)
        × (items_in own.new ≡ own_after_flush (items_in own.old) item (moved own.old.blocks item))
        × (items_in shared.new
        ≡ shared_after_flush (items_in shared.old) (moved own.old.blocks item))) }
    ensures moves { 0 < length (moved own.old.blocks item) }
    ensures full { IsErrAnd result (λ why. why ≡ LsmError.Full)
        ↔ (limit_of LEVELS heap_room
        < length (content shared.old.blocks) + length (moved own.old.blocks item)) }
    ensures unchanged { OnErr result ((own.new ≡ own.old) × (shared.new ≡ shared.old)) }
{
    match absorb_prepared(own, shared, item, copy) {
        Ok(()) => {
            own.replace_largest(item);
            Ok(())
        }
        Err(why) => Err(why),
    }
}

/// A copy of the block that the next flush moves, if there is one and memory for it.
pub fn copy_to_move<const CAP: usize, A: Allocator + Copy>(
    own: &Local<CAP>,
    alloc: A,
) -> Option<SharedRun<A>>
    requires capacity { IsCapacity CAP }
    ensures { IfSome result (λ run. IsLargest run own.now.blocks) }
{
    if own.len() == 0 {
        return None;
    }
    // For the proof: k is in its range.
    let _known = own.k();
    let copy = HeapRun::copy_of(alloc, own.lsm().block(0)).ok()?;
    SharedRun::new(alloc, copy).ok()
}

// Puts what moves into the shared part: the copy, if there is one.
fn absorb_prepared<const CAP: usize, const LEVELS: usize, A: Allocator + Copy>(
    own: &Local<CAP>,
    shared: &mut Shared<LEVELS, A>,
    item: Item,
    copy: Option<SharedRun<A>>,
) -> Result<(), LsmError>
    requires capacity { IsCapacity CAP }
    requires apart { ShareNone (content own.now.blocks) (content shared.old.blocks) }
    requires new { ¬ Contains (content shared.old.blocks) item }
    requires copy { IfSome copy (λ run. IsLargest run own.now.blocks) }
    ensures lawful { IsLsm own.now.blocks }
    ensures added { OnOk result (shared.new
        ≡ record { k = shared.old.k; blocks = add shared.old.blocks (moved own.now.blocks item) }) }
    ensures full { IsErrAnd result (λ why. why ≡ LsmError.Full)
        ↔ (limit_of LEVELS heap_room
        < length (content shared.old.blocks) + length (moved own.now.blocks item)) }
    ensures unchanged { OnErr result (shared.new ≡ shared.old) }
{
    let Some(prepared) = copy else {
        return absorb_moved(own, shared, item);
    };
    // For the proof: the own part is lawful.
    let _known = own.len();
    shared.absorb(prepared)
}

// Puts what moves into the shared part: a copy of the own part's largest block, or the item where
// there is none. It is kept apart from the insertions that need none of it.
#[inline(never)]
fn absorb_moved<const CAP: usize, const LEVELS: usize, A: Allocator + Copy>(
    own: &Local<CAP>,
    shared: &mut Shared<LEVELS, A>,
    item: Item,
) -> Result<(), LsmError>
    requires capacity { IsCapacity CAP }
    requires apart { ShareNone (content own.now.blocks) (content shared.old.blocks) }
    requires new { ¬ Contains (content shared.old.blocks) item }
    ensures lawful { IsLsm own.now.blocks }
    ensures added { OnOk result (shared.new
        ≡ record { k = shared.old.k; blocks = add shared.old.blocks (moved own.now.blocks item) }) }
    ensures full { IsErrAnd result (λ why. why ≡ LsmError.Full)
        ↔ (limit_of LEVELS heap_room
        < length (content shared.old.blocks) + length (moved own.now.blocks item)) }
    ensures unchanged { OnErr result (shared.new ≡ shared.old) }
{
    if own.len() == 0 {
        shared.absorb_copy(&FixedRun::<1>::single(item))
    } else {
        shared.absorb_copy(own.lsm().block(0))
    }
}
