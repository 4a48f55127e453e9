//! The call by which a program learns the least key of all that is open. It does not wait.
ghost use Rattle.std.specs.Prelude.{◌≡◌};
ghost use Rattle.klsm_c.specs.Calls.{BoundsBySlot};
ghost use Rattle.klsm_c.specs.Items.{plain_bound_of};

use crate::codes::{BUSY, NOT_OPEN, OK};
use crate::slot::Slot;
use klsm_board::{Bound, Busy};

/// A bound, laid out as C lays it.
#[repr(C)]
#[derive(Clone, Copy, Debug, Default, PartialEq, Eq)]
pub struct PlainBound {
    /// The least key of all live items, and the greatest number where none lives.
    pub queue: u64,
    /// The least key of the items that members work at, and the greatest number where none works.
    pub work: u64,
    /// How many items live.
    pub items: u64,
}

impl PlainBound {
    /// The same bound.
    #[inline]
    pub fn of(bound: Bound) -> PlainBound
        ensures { result ≡ plain_bound_of bound }
    {
        PlainBound {
            queue: bound.queue,
            work: bound.work,
            items: bound.items as u64,
        }
    }
}

/// Reads all parts of the queue at one moment by the slot's member, and writes the least key of all live items, that of
/// the items that members work at, and how many live.
#[unsafe(no_mangle)]
pub extern "C" fn klsm_try_bound(slot: &mut Slot, bound: &mut PlainBound) -> i32
    ensures { BoundsBySlot slot.old.handle.held slot.new.handle.held bound.old bound.new result }
{
    let Some(member) = slot.member_mut() else {
        return NOT_OPEN;
    };
    match member.try_bound() {
        Ok(found) => {
            *bound = PlainBound::of(found);
            OK
        }
        Err(Busy { .. }) => BUSY,
    }
}
