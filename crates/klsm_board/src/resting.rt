//! The rest of a member, by which it works at no item any more.
ghost use Rattle.std.specs.Prelude.{◌≡◌, [], IfErr, OnOk};
ghost use Rattle.klsm_board.specs.Steps.{mine, rest_of};
ghost use Rattle.klsm_board.specs.Seats.{Stands, Has, IsSeatOf};
ghost use Rattle.klsm_board.specs.Effects.{MeetsHolder};
ghost use Rattle.klsm_board.specs.Resting.{Rests, MissesRest};

use crate::acquiring::try_acquire;
use crate::errors::Busy;
use crate::marking::release_marked;
use crate::rule::{Holding, Locks, MemberSeat};

/// Marks that the thread works at no item, if its own lock is free.
pub(crate) fn rest_now<S: Holding>(
    table: &Locks<S>,
    seat: &mut MemberSeat<S>,
    thread: usize,
) -> Result<(), Busy>
    requires seat { IsSeatOf seat.old.table_id table.now.table_id table.now.key thread }
    requires stands { Stands S.content S.suits table.now.key thread [] seat.old.me }
    ensures same { seat.new.table_id ≡ seat.old.table_id }
    ensures others { rest_of seat.new.me.0 ≡ rest_of seat.old.me.0 }
    ensures has { Has S.content S.suits table.now.key thread [] seat.new.me }
    ensures ok { OnOk result (Rests thread (mine seat.old.me.0) (mine seat.new.me.0)) }
    ensures busy { IfErr result (MissesRest thread (mine seat.old.me.0) (mine seat.new.me.0)) }
    ensures holder { IfErr result (MeetsHolder table.now.key thread (rest_of seat.old.me.0)
        (mine seat.new.me.0)) }
{
    try_acquire(table, seat, thread + 1, thread)?;
    release_marked(table, seat, thread, u64::MAX);
    Ok(())
}
