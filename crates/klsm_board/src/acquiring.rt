//! How a member acquires a part: by one try.
ghost use Rattle.std.specs.Prelude.{◌≡◌, ◌≤◌, ◌++◌, [], ◌∷◌, List, IfErr, OnOk, None};
ghost use Rattle.klsm_run.specs.declared.item.Item.{Item};
ghost use Rattle.klsm_schedules.specs.declared.step.Entry.TheVariants.{Acquired, Missed};
ghost use Rattle.klsm_schedules.specs.OwnSteps.{Hand, found_in};
ghost use Rattle.klsm_board.specs.Steps.{HasHolder, mine, rest_of};
ghost use Rattle.klsm_board.specs.Seats.{Stands, Has, IsSeatOf};

use crate::errors::Busy;
use crate::rule::{Holding, Locks, MemberSeat};
use crate::steps::acquire_part;

/// Acquires a part, if it is free.
#[inline]
pub(crate) fn try_acquire<S: Holding>(
    table: &Locks<S>,
    seat: &mut MemberSeat<S>,
    part: usize,
    thread: usize,
) -> Result<(), Busy>
    requires seat { IsSeatOf seat.old.table_id table.now.table_id table.now.key thread }
    requires part { part ≤ table.now.key.threads }
    requires has { (hand : Hand) × Stands S.content S.suits table.now.key thread hand seat.old.me
        × (found_in hand part ≡ None) }
    ensures same { seat.new.table_id ≡ seat.old.table_id }
    ensures others { rest_of seat.new.me.0 ≡ rest_of seat.old.me.0 }
    ensures ok { OnOk result ((hand : Hand)
        → Stands S.content S.suits table.now.key thread hand seat.old.me
        → (found : List Item)
        × Has S.content S.suits table.now.key thread ((part, found) ∷ hand) seat.new.me
        × (mine seat.new.me.0 ≡ mine seat.old.me.0 ++ Acquired part found ∷ [])) }
    ensures busy { IfErr result (λ busy. (busy.lock ≡ part)
        × ((hand : Hand) → Stands S.content S.suits table.now.key thread hand seat.old.me
        → Has S.content S.suits table.now.key thread hand seat.new.me)
        × (mine seat.new.me.0 ≡ mine seat.old.me.0 ++ Missed part busy.by ∷ [])) }
    ensures holder { IfErr result (λ busy.
        HasHolder table.now.key thread seat.old.me.0 part busy.by) }
{
    let found = acquire_part(table, seat, part, thread);
    if found == 0 {
        Ok(())
    } else {
        Err(Busy {
            lock: part,
            by: (found - 1) as u32,
        })
    }
}
