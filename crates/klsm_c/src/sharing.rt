//! The calls by which a member leaves its items to others. None of them waits.
ghost use Rattle.klsm_c.specs.Calls.{DeletesAloneBySlot, SharesBySlot};

use crate::codes::{BUSY, FULL, NO_MEMORY, NOT_OPEN, NOTHING, OK};
use crate::item::PlainItem;
use crate::slot::Slot;
use klsm_board::{Busy, TryShareError};

/// Moves all items of the own part of the slot's member to the part that all share, and writes how many moved.
#[unsafe(no_mangle)]
pub extern "C" fn klsm_try_share(slot: &mut Slot, moved: &mut u64) -> i32
    ensures { SharesBySlot slot.old.handle.held slot.new.handle.held moved.old moved.new result }
{
    let Some(member) = slot.member_mut() else {
        return NOT_OPEN;
    };
    match member.try_share() {
        Ok(count) => {
            *moved = count as u64;
            OK
        }
        Err(TryShareError::Busy(_)) => BUSY,
        Err(TryShareError::Full) => FULL,
        Err(TryShareError::NoMemory) => NO_MEMORY,
    }
}

/// Deletes a small item by the slot's member, and writes it. No items move to the member's own part behind it,
/// whatever the queue was opened with.
#[unsafe(no_mangle)]
pub extern "C" fn klsm_try_delete_min_alone(slot: &mut Slot, item: &mut PlainItem) -> i32
    ensures { DeletesAloneBySlot slot.old.handle.held slot.new.handle.held item.old item.new
        result }
{
    let Some(member) = slot.member_mut() else {
        return NOT_OPEN;
    };
    match member.try_delete_min_alone() {
        Ok(Some(found)) => {
            *item = PlainItem::of(found);
            OK
        }
        Ok(None) => NOTHING,
        Err(Busy { .. }) => BUSY,
    }
}
