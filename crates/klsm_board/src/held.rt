//! How a member holds a part, in order to look at it.
ghost use Rattle.std.specs.Prelude.{◌≡◌, ◌<◌, ◌≤◌, ◌++◌, ◌↔◌, ◌∷◌, [], List, length, slice_get, IfOk, IfErr, IfSome, IsErrAnd, IsTrue};
ghost use Rattle.klsm_run.specs.declared.item.Item.{Item};
ghost use Rattle.klsm_schedules.specs.declared.step.Entry.TheVariants.{Acquired, Released, Missed};
ghost use Rattle.klsm_parts.specs.Least.{IsLeast};
ghost use Rattle.klsm_schedules.specs.OwnSteps.{Hand, inserted, deleted};
ghost use Rattle.klsm_schedules.specs.Worlds.{World, content_of, steps_of};
ghost use Rattle.klsm_schedules.specs.LawfulWorlds.{IsLawful};
ghost use Rattle.klsm_board.specs.Rule.{IsReached, world_limits};
ghost use Rattle.klsm_board.specs.declared.errors.Busy.{Busy};
ghost use Rattle.klsm_board.specs.Seats.{Carries};
ghost use Rattle.klsm_board.specs.Boards.{IsHeldBy, IsHeldOf, IsOf, IsSame, RefusesHold, held_content, held_steps, own_steps};

use crate::acquiring::try_acquire;
use crate::board::{Board, Held, HoldRefused, Member};
use crate::errors::HoldError;
use crate::rule::{Locks, MemberSeat};
use crate::slot::PartSlot;
use crate::steps::release_part;
use klsm_run::Item;

impl<const CAP: usize, const LEVELS: usize> Member<CAP, LEVELS> {
    /// Acquires any one part, in order to look at it: lock 0 has the shared part, and lock `t + 1` has
    /// member t's own. It never blocks.
    pub fn try_hold(
        self,
        board: &Board<CAP, LEVELS>,
        lock: usize,
    ) -> Result<Held<CAP, LEVELS>, HoldRefused<CAP, LEVELS>>
        requires { IsOf self board.now }
        ensures ok { IfOk result (λ held. IsHeldBy self.entry held × (held.lock ≡ lock)
            × (held_steps held ≡ own_steps self.entry ++ Acquired lock (held_content held) ∷ [])) }
        ensures refused { IfErr result (λ refused. IsSame self.entry refused.member
            × RefusesHold lock (own_steps self.entry) (own_steps refused.member) refused.why) }
        ensures no_such_lock { IsErrAnd result (λ refused. refused.why ≡ HoldError.NoSuchLock)
            ↔ (self.entry.sizes.threads < lock) }
    {
        if lock > self.sizes.threads {
            return Err(HoldRefused {
                why: HoldError::NoSuchLock,
                member: self,
            });
        }
        self.hold(board, lock)
    }

    // The same for a lock that there is.
    fn hold(
        mut self,
        board: &Board<CAP, LEVELS>,
        lock: usize,
    ) -> Result<Held<CAP, LEVELS>, HoldRefused<CAP, LEVELS>>
        requires board { IsOf self board.now }
        requires lock { lock ≤ self.sizes.threads }
        ensures ok { IfOk result (λ held. IsHeldBy self.entry held × (held.lock ≡ lock)
            × (held_steps held ≡ own_steps self.entry ++ Acquired lock (held_content held) ∷ [])) }
        ensures refused { IfErr result (λ refused. IsSame self.entry refused.member
            × ((busy : Busy) × (refused.why ≡ HoldError.Busy busy) × (busy.lock ≡ lock)
            × (own_steps refused.member ≡ own_steps self.entry ++ Missed lock busy.by ∷ []))) }
    {
        let table = &board.table.shared;
        let thread = self.number as usize;
        if let Err(busy) = try_acquire(table, &mut self.seat, lock, thread) {
            return Err(HoldRefused {
                why: HoldError::Busy(busy),
                member: self,
            });
        }
        let Member {
            number,
            sizes,
            inserted,
            deleted,
            mut seat,
        } = self;
        let (len, least) = look(table, &mut seat, lock, thread);
        Ok(Held {
            lock,
            number,
            sizes,
            inserted,
            deleted,
            len,
            least,
            seat,
        })
    }
}

impl<const CAP: usize, const LEVELS: usize> Held<CAP, LEVELS> {
    /// The number of the lock. In each lawful world with this list its part has the content that is shown here.
    #[inline]
    pub fn lock(&self) -> usize
        ensures lock { result ≡ self.now.lock }
        ensures in_range { self.now.lock ≤ self.now.sizes.threads }
        ensures content { (w : World) → IsLawful (world_limits self.now.sizes) w
            → steps_of w self.now.number ≡ held_steps self.now
            → content_of w self.now.lock ≡ held_content self.now }
    {
        self.lock
    }

    /// The number of the member that holds it.
    #[inline]
    pub fn number(&self) -> u32
        ensures number { result ≡ self.now.number }
        ensures thread { self.now.number < self.now.sizes.threads }
        ensures rule { ∥ IsReached self.now.sizes self.now.number (held_steps self.now) ∥₁ }
    {
        self.number
    }

    /// The number of items of the part.
    #[inline]
    pub fn len(&self) -> usize
        ensures { result ≡ length (held_content self.now) }
    {
        self.len
    }

    /// Whether the part has no item.
    #[inline]
    pub fn is_empty(&self) -> bool
        ensures { IsTrue result ↔ (held_content self.now ≡ []) }
    {
        self.len() == 0
    }

    /// The least item of the part, if there is one.
    #[inline]
    pub fn least(&self) -> Option<Item>
        ensures { result ≡ slice_get (held_content self.now) 0 }
    {
        self.least
    }

    /// Releases the part, as it was.
    pub fn put_back(self, board: &Board<CAP, LEVELS>) -> Member<CAP, LEVELS>
        requires { IsHeldOf self board.now }
        ensures same { IsHeldBy result self.entry }
        ensures steps { own_steps result ≡ held_steps self.entry ++ Released self.entry.lock ∷ [] }
    {
        let Held {
            lock,
            number,
            sizes,
            inserted,
            deleted,
            len: _,
            least: _,
            mut seat,
        } = self;
        release_part(&board.table.shared, &mut seat, lock, number as usize);
        Member {
            number,
            sizes,
            inserted,
            deleted,
            seat,
        }
    }
}

// How many items the part has that the seat acquired last, and the least of them.
pub(crate) fn look<S: PartSlot>(
    table: &Locks<S>,
    seat: &mut MemberSeat<S>,
    lock: usize,
    thread: usize,
) -> (usize, Option<Item>)
    requires seat { seat.old.table_id ≡ table.now.table_id }
    requires carries { (found : List Item) × (hand : Hand)
        × Carries S.content S.suits table.now.key thread ((lock, found) ∷ hand) seat.old.me }
    ensures same { (seat.new.table_id ≡ seat.old.table_id) × (seat.new.me.0 ≡ seat.old.me.0) }
    ensures looked { (found : List Item) → (hand : Hand)
        → Carries S.content S.suits table.now.key thread ((lock, found) ∷ hand) seat.old.me
        → Carries S.content S.suits table.now.key thread ((lock, found) ∷ hand) seat.new.me
        × (result.0 ≡ length found) × (result.1 ≡ slice_get found 0)
        × IfSome result.1 (λ x. IsLeast x found) }
{
    // For the proof: the contract alone names the thread.
    let _ = thread;
    let slot = seat.slot_mut(table, lock);
    (slot.len(), slot.least())
}
