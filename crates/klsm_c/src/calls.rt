//! The calls of one slot. None of them waits.
ghost use Rattle.std.specs.Prelude.{◌≡◌, ◌≤◌};
ghost use Rattle.klsm_board.specs.Members.{most_deletions, most_insertions};
ghost use Rattle.klsm_c.specs.Calls.{DeletesBySlot, InsertsBySlot, LooksAt, deleted_in, inserted_in};

use crate::codes::{BUSY, FULL, NO_MEMORY, NOT_OPEN, NOTHING, OK, SPENT};
use crate::item::PlainItem;
use crate::slot::Slot;
use klsm_board::{Busy, TryInsertError};

/// Inserts a key with a load by the slot's member.
#[unsafe(no_mangle)]
pub extern "C" fn klsm_try_insert(slot: &mut Slot, key: u64, load: u64) -> i32
    ensures { InsertsBySlot slot.old.handle.held slot.new.handle.held key load result }
{
    let Some(member) = slot.member_mut() else {
        return NOT_OPEN;
    };
    match member.try_insert(key, load) {
        Ok(_) => OK,
        Err(TryInsertError::Busy(_)) => BUSY,
        Err(TryInsertError::Full) => FULL,
        Err(TryInsertError::NoMemory) => NO_MEMORY,
        Err(TryInsertError::Spent) => SPENT,
    }
}

/// Deletes a small item by the slot's member, and writes it.
#[unsafe(no_mangle)]
pub extern "C" fn klsm_try_delete_min(slot: &mut Slot, item: &mut PlainItem) -> i32
    ensures { DeletesBySlot slot.old.handle.held slot.new.handle.held item.old item.new result }
{
    let Some(member) = slot.member_mut() else {
        return NOT_OPEN;
    };
    match member.try_delete_min() {
        Ok(Some(found)) => {
            *item = PlainItem::of(found);
            OK
        }
        Ok(None) => NOTHING,
        Err(Busy { .. }) => BUSY,
    }
}

/// The front, the key of the least shared item of the slot's queue. The greatest number where no item is shared,
/// and where the slot is not open.
#[unsafe(no_mangle)]
pub extern "C" fn klsm_front(slot: &mut Slot) -> u64
    ensures { LooksAt slot.old.handle.held slot.new.handle.held result }
{
    let Some(member) = slot.member_mut() else {
        return u64::MAX;
    };
    member.front()
}

/// How many insertions the slot's member has made, and 0 where the slot is not open.
#[unsafe(no_mangle)]
pub extern "C" fn klsm_inserted(slot: &mut Slot) -> u64
    ensures count { result ≡ inserted_in slot.old.handle.held }
    ensures within { result ≤ most_insertions }
    ensures same { slot.new.handle.held ≡ slot.old.handle.held }
{
    let Some(member) = slot.member_mut() else {
        return 0;
    };
    member.inserted_count()
}

/// How many items it has deleted, and 0 where the slot is not open.
#[unsafe(no_mangle)]
pub extern "C" fn klsm_deleted(slot: &mut Slot) -> u64
    ensures count { result ≡ deleted_in slot.old.handle.held }
    ensures within { result ≤ most_deletions }
    ensures same { slot.new.handle.held ≡ slot.old.handle.held }
{
    let Some(member) = slot.member_mut() else {
        return 0;
    };
    member.deleted_count()
}
