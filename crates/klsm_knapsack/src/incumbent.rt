//! The incumbent, and the seats at it.
ghost use Rattle.std.specs.Prelude.{◌≡◌, []};

use crate::rule::{Highest, View};
use atomic_table::{Seat, Table};
use klsm_instance::Instance;
use std::alloc::Global;

/// The best selection that any thread found so far, as one word: its value times 2^32, plus its
/// picks. It is raised and never lowered.
#[derive(Drop)]
pub struct Incumbent {
    pub(crate) table: Table<(), View, Instance, Highest, Global>,
    pub ghost one_word: { table.shared.table_id.words ≡ 1 },
    pub ghost no_slots: { table.shared.table_id.slots ≡ 0 },
}

/// One thread's seat at the incumbent.
#[derive(Drop)]
pub struct IncumbentSeat {
    pub(crate) table_seat: Seat<(), View>,
    pub ghost empty_handed: { table_seat.me.1 ≡ [] },
}
