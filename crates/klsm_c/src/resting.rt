//! The call by which a member works at no item any more. It does not wait.
ghost use Rattle.klsm_c.specs.Calls.{RestsBySlot};

use crate::codes::{BUSY, NOT_OPEN, OK};
use crate::slot::Slot;
use klsm_board::Busy;

/// Says that the slot's member has done with the item that it deleted last: it works at none until its next deletion.
#[unsafe(no_mangle)]
pub extern "C" fn klsm_try_rest(slot: &mut Slot) -> i32
    ensures { RestsBySlot slot.old.handle.held slot.new.handle.held result }
{
    let Some(member) = slot.member_mut() else {
        return NOT_OPEN;
    };
    match member.try_rest() {
        Ok(()) => OK,
        Err(Busy { .. }) => BUSY,
    }
}
