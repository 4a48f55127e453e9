//! The memory of a queue.
ghost use Rattle.std.specs.Prelude.{◌≡◌, []};
ghost use Rattle.klsm_run.specs.declared.limits.TheConstants.{MOST_THREADS};
ghost use Rattle.klsm_owned.specs.Owned.{AreAllOfTheirBoard, members_of};
ghost use Rattle.klsm_c.specs.Slots.{owned_in};

use crate::slot::Slot;
use klsm_run::MOST_THREADS;

/// The slots of all members. All bytes 0 is a closed queue. The members in its open slots are all those
/// of one board, in the order of their numbers.
#[repr(C)]
#[derive(Drop)]
pub struct Queue {
    pub slots: [Slot; MOST_THREADS],
    pub ghost whole: { AreAllOfTheirBoard (members_of (owned_in slots)) },
}

impl Queue {
    /// A queue as C begins with it.
    pub fn closed() -> Queue
        ensures { owned_in result.slots ≡ [] }
    {
        Queue {
            slots: std::array::from_fn(|_| Slot::closed()),
        }
    }
}
