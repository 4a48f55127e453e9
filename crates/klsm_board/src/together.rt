//! What all members of a board do in one hand.
ghost use Rattle.std.specs.Prelude.{All, ◌≡◌, ◌≢◌, ◌<◌, ◌≤◌, ◌∷◌, ◌++◌, ◌↔◌, ◌+◌, max, ℕ, List, [], length, IfOk, IfErr, IsErrAnd, OnErr};
ghost use Rattle.std.specs.Option.{option_to_list};
ghost use Rattle.klsm_run.specs.declared.limits.TheConstants.{MOST_THREADS};
ghost use Rattle.klsm_run.specs.Capacity.{heap_room};
ghost use Rattle.klsm_parts.specs.Events.{plus};
ghost use Rattle.klsm_parts.specs.Limit.{limit_of};
ghost use mathlib.Core.Option.{some};
ghost use lib.ListN.{get_elem?};
ghost use Rattle.klsm_schedules.specs.Account.{account};
ghost use Rattle.klsm_schedules.specs.OwnSteps.{inserted};
ghost use Rattle.klsm_schedules.specs.declared.step.Entry.TheVariants.{Looked};
ghost use Rattle.klsm_board.specs.Boards.{AreMembersOf, Gains, IsOf, own_steps};
ghost use Rattle.klsm_board.specs.Inserting.{Inserts, RefusesInsert, as_tried, stamp_of, stamped};
ghost use Rattle.klsm_board.specs.Deleting.{AnswersDeletion};
ghost use Rattle.klsm_board.specs.Bounding.{Bounds, IsBoundOf};
ghost use Rattle.klsm_board.specs.Stealing.{Balances};
ghost use Rattle.klsm_board.specs.Resting.{Rests};
ghost use Rattle.klsm_board.specs.Sharing.{RefusesShare, Shares, as_tried_share};
ghost use Rattle.klsm_board.specs.Finishing.{AreAll, AreListsAtEnd, IsLeastAbsent, lists_of};
ghost use Rattle.klsm_board.specs.Knowing.{AreCounted, IsAtRest};
ghost use Rattle.klsm_board.specs.Rule.{view};
ghost use Rattle.klsm_board.specs.Together.{ActsFor, AreOf, IsFrontOf, PassesFewLeft, all_lists, left_after, left_of, sizes_of_all, steps_for, turn_of};
ghost use Rattle.klsm_board.specs.Turning.{HasList, left_behind, steps_known, turned};

use crate::all_members::{AllMembers, GatherRefused};
use crate::board::{Board, Member};
use crate::bounding::Bound;
use crate::errors::{Busy, InsertError, ShareError, TryInsertError, TryShareError};
use crate::finishing::{counts_of, join_all};
use crate::making::First;
use crate::rule::MemberSeat;
use crate::slot::BoardSlot;
use crate::steps::turn_to;
use crate::tally::Tally;
use klsm_parts::Picker;
use klsm_run::{Item, Stamp};

impl<const CAP: usize, const LEVELS: usize> Board<CAP, LEVELS> {
    /// Takes all members into one hand, between two of their calls. Their lists of own steps are then those of
    /// one schedule of legal steps. It changes nothing on the board, and takes no memory.
    pub fn gather(
        &self,
        mut members: Vec<Member<CAP, LEVELS>>,
    ) -> Result<AllMembers<CAP, LEVELS>, GatherRefused<CAP, LEVELS>>
        requires of { All (λ member. IsOf member self.now) members.items }
        ensures of { IfOk result (λ all. AreOf all self.now) }
        ensures same { IfOk result (λ all. AreAll members.entry.items self.now.sizes.threads
            × (all_lists all ≡ lists_of self.now.sizes.threads members.entry.items)) }
        ensures lists { IfOk result (λ all. AreListsAtEnd self.now.sizes (all_lists all)) }
        ensures turn { IfOk result (λ all. turn_of all ≡ 0) }
        ensures missing { (number : ℕ) → IsErrAnd result (λ refused. refused.missing ≡ number)
            ↔ IsLeastAbsent members.entry.items self.now.sizes.threads number }
        ensures refused { IfErr result (λ refused. refused.members.items ≡ members.entry.items) }
    {
        let tally = match tally_of(members.as_slice(), self.sizes.threads) {
            Ok(tally) => tally,
            Err(missing) => return Err(GatherRefused { missing, members }),
        };
        let mut seat = join_all(&self.table.shared, &mut members);
        turn_to(&self.table.shared, &mut seat, 0);
        let acting = Member {
            number: 0,
            sizes: self.sizes,
            inserted: tally.inserted[0],
            deleted: tally.deleted[0],
            seat,
        };
        let room = members;
        Ok(AllMembers {
            acting,
            tally,
            room,
        })
    }
}

impl<const CAP: usize, const LEVELS: usize> AllMembers<CAP, LEVELS> {
    /// How many they are. Their lists of own steps are at all times those of one schedule of legal steps.
    #[inline]
    pub fn threads(&self) -> usize
        ensures threads { result ≡ (sizes_of_all self.now).threads }
        ensures rule { ∥ AreListsAtEnd (sizes_of_all self.now) (all_lists self.now) ∥₁ }
    {
        self.acting.sizes.threads
    }

    /// Inserts a key with a load as the member of this number does, and answers the item's stamp. It is never
    /// refused for a lock, as no other member is within a call.
    pub fn insert(
        &mut self,
        board: &Board<CAP, LEVELS>,
        number: u32,
        key: u64,
        load: u64,
    ) -> Result<Stamp, InsertError>
        requires of { AreOf self.old board.now }
        requires number { number < (sizes_of_all self.old).threads }
        ensures same { ActsFor number self.old self.new }
        ensures turn { turn_of self.new ≡ number }
        ensures stamp { IfOk result (λ stamp.
            stamp ≡ stamp_of number (length (inserted (steps_for self.old number)))) }
        ensures ok { IfOk result (λ stamp. Inserts LEVELS (sizes_of_all self.old).k number
            (steps_for self.old number) (steps_for self.new number) (stamped key stamp load)) }
        ensures adds { IfOk result (λ stamp. Gains (steps_for self.old number)
            (steps_for self.new number) (stamped key stamp load ∷ []) []) }
        ensures left { IfOk result (λ stamp.
            left_of self.new ≡ plus (left_of self.old) (stamped key stamp load ∷ [])) }
        ensures left_alone { OnErr result (left_of self.new ≡ left_of self.old) }
        ensures counts { IfOk result (λ stamp. (account (all_lists self.new)).inserted
            ≡ (account (all_lists self.old)).inserted + 1) }
        ensures counts_alone { OnErr result ((account (all_lists self.new)).inserted
            ≡ (account (all_lists self.old)).inserted) }
        ensures refused { IfErr result (λ why.
            Gains (steps_for self.old number) (steps_for self.new number) [] []
            × RefusesInsert
            (length (inserted (steps_for self.old number)) ≡ (sizes_of_all self.old).quota) LEVELS
            (sizes_of_all self.old).k number (steps_for self.old number)
            (steps_for self.new number) (as_tried why)) }
        ensures spent { IsErrAnd result (λ why. why ≡ InsertError.Spent)
            ↔ (length (inserted (steps_for self.old number)) ≡ (sizes_of_all self.old).quota) }
        ensures full { IsErrAnd result (λ why. why ≡ InsertError.Full) → limit_of LEVELS heap_room
            < (account (all_lists self.old)).inserted + max 1 (sizes_of_all self.old).k }
    {
        self.call(board, number);
        match self.acting.try_insert(board, key, load) {
            Ok(stamp) => Ok(stamp),
            Err(why) => Err(refusal_of(why)),
        }
    }

    /// Deletes a small item as the member of this number does, and answers it. It meets no lock that is held.
    pub fn delete_min<P: Picker>(
        &mut self,
        board: &Board<CAP, LEVELS>,
        number: u32,
        picker: &mut P,
    ) -> Option<Item>
        requires of { AreOf self.old board.now }
        requires number { number < (sizes_of_all self.old).threads }
        ensures same { ActsFor number self.old self.new }
        ensures turn { turn_of self.new ≡ number }
        ensures ok { AnswersDeletion P.may_pick picker.old picker.new (sizes_of_all self.old) number
            (steps_for self.old number) (steps_for self.new number) result }
        ensures adds { Gains (steps_for self.old number) (steps_for self.new number) []
            (option_to_list result) }
        ensures left { left_of self.new ≡ left_after (left_of self.old) result }
        ensures counts { (account (all_lists self.new)).inserted
            ≡ (account (all_lists self.old)).inserted }
        ensures few { PassesFewLeft (sizes_of_all self.old) (all_lists self.old)
            (steps_for self.new number) result }
    {
        self.call(board, number);
        let Ok(answer) = self.acting.try_delete_min(board, picker) else {
            unreachable!();
        };
        answer
    }

    /// Balances with a victim as the member of this number does (`Member::try_balance`), and answers whether items
    /// moved. It meets no lock that is held.
    pub fn balance(
        &mut self,
        board: &Board<CAP, LEVELS>,
        number: u32,
        victim: u32,
        most: usize,
    ) -> bool
        requires of { AreOf self.old board.now }
        requires number { number < (sizes_of_all self.old).threads }
        requires victim { (victim < (sizes_of_all self.old).threads) × (victim ≢ number) }
        ensures same { ActsFor number self.old self.new }
        ensures turn { turn_of self.new ≡ number }
        ensures ok { Balances (sizes_of_all self.old) number most victim
            (steps_for self.old number) (steps_for self.new number) result }
        ensures adds { Gains (steps_for self.old number) (steps_for self.new number) [] [] }
        ensures left { left_of self.new ≡ left_of self.old }
        ensures counts { (account (all_lists self.new)).inserted
            ≡ (account (all_lists self.old)).inserted }
    {
        self.call(board, number);
        let Ok(moved) = self.acting.try_balance(board, victim, most) else {
            unreachable!();
        };
        moved
    }

    /// Moves all items of an own part to the shared one, as the member of this number does (`Member::try_share`), and answers
    /// how many moved. It is never refused for a lock, as no other member is within a call.
    pub fn share(&mut self, board: &Board<CAP, LEVELS>, number: u32) -> Result<usize, ShareError>
        requires of { AreOf self.old board.now }
        requires number { number < (sizes_of_all self.old).threads }
        ensures same { ActsFor number self.old self.new }
        ensures turn { turn_of self.new ≡ number }
        ensures ok { IfOk result (λ count. Shares LEVELS number (steps_for self.old number)
            (steps_for self.new number) count) }
        ensures adds { Gains (steps_for self.old number) (steps_for self.new number) [] [] }
        ensures left { left_of self.new ≡ left_of self.old }
        ensures counts { (account (all_lists self.new)).inserted
            ≡ (account (all_lists self.old)).inserted }
        ensures refused { IfErr result (λ why. RefusesShare LEVELS number
            (steps_for self.old number) (steps_for self.new number) (as_tried_share why)) }
    {
        self.call(board, number);
        match self.acting.try_share(board) {
            Ok(count) => Ok(count),
            Err(why) => Err(share_refusal_of(why)),
        }
    }

    /// Works at no item any more, as the member of this number (`Member::try_rest`). It meets no lock that is held.
    pub fn rest(&mut self, board: &Board<CAP, LEVELS>, number: u32)
        requires of { AreOf self.old board.now }
        requires number { number < (sizes_of_all self.old).threads }
        ensures same { ActsFor number self.old self.new }
        ensures turn { turn_of self.new ≡ number }
        ensures ok { Rests number (steps_for self.old number) (steps_for self.new number) }
        ensures adds { Gains (steps_for self.old number) (steps_for self.new number) [] [] }
        ensures left { left_of self.new ≡ left_of self.old }
        ensures counts { (account (all_lists self.new)).inserted
            ≡ (account (all_lists self.old)).inserted }
    {
        self.call(board, number);
        let Ok(()) = self.acting.try_rest(board) else {
            unreachable!();
        };
    }

    /// The front that a member's own `front` would see now: the key of the least shared item, or the greatest number
    /// where no item is shared. The list of the member whose turn it is notes the look, and nothing else changes. It
    /// is the turn of the member that acted last, and at first of member 0.
    #[inline]
    pub fn front(&mut self, board: &Board<CAP, LEVELS>) -> u64
        requires of { AreOf self.old board.now }
        ensures of { AreOf self.new board.now }
        ensures same { ActsFor (turn_of self.old) self.old self.new }
        ensures turn { turn_of self.new ≡ turn_of self.old }
        ensures steps { steps_for self.new (turn_of self.old)
            ≡ steps_for self.old (turn_of self.old) ++ Looked result ∷ [] }
        ensures left { left_of self.new ≡ left_of self.old }
        ensures counts { (account (all_lists self.new)).inserted
            ≡ (account (all_lists self.old)).inserted }
        ensures front { IsFrontOf (sizes_of_all self.old) (all_lists self.old) result }
    {
        self.acting.front(board)
    }

    /// The least key of the items that are left, or the greatest number where none is, and how many are left. It is
    /// `Member::try_bound` of the member whose turn it is, which meets no lock that is held.
    pub fn bound(&mut self, board: &Board<CAP, LEVELS>) -> Bound
        requires of { AreOf self.old board.now }
        ensures of { AreOf self.new board.now }
        ensures same { ActsFor (turn_of self.old) self.old self.new }
        ensures turn { turn_of self.new ≡ turn_of self.old }
        ensures ok { Bounds (sizes_of_all self.old).threads (steps_for self.old (turn_of self.old))
            (steps_for self.new (turn_of self.old)) result }
        ensures left { left_of self.new ≡ left_of self.old }
        ensures counts { (account (all_lists self.new)).inserted
            ≡ (account (all_lists self.old)).inserted }
        ensures bound { IsBoundOf (left_of self.old) result }
    {
        let Ok(bound) = self.acting.try_bound(board) else {
            unreachable!();
        };
        bound
    }

    /// Gives the members back, in the order of their numbers, between two of their calls. It changes nothing on
    /// the board, and takes no memory.
    pub fn spread(self, board: &Board<CAP, LEVELS>) -> Vec<Member<CAP, LEVELS>>
        requires of { AreOf self board.now }
        ensures of { All (λ member. IsOf member board.now) result.items }
        ensures count { length result.items ≡ (sizes_of_all self.entry).threads }
        ensures crew { AreMembersOf board.now result.items }
        ensures steps { (i : ℕ) (member : Member CAP LEVELS)
            → get_elem? result.items i ≡ some member → own_steps member ≡ steps_for self.entry i }
    {
        let AllMembers {
            acting,
            mut tally,
            room: mut members,
        } = self;
        let Member {
            number,
            sizes,
            inserted,
            deleted,
            mut seat,
        } = acting;
        tally.note(number as usize, inserted, deleted);
        for number in 0..sizes.threads {
            let inserted = tally.inserted[number];
            let deleted = tally.deleted[number];
            let member = member_of(board, &mut seat, number as u32, inserted, deleted);
            let Ok(()) = members.push(member) else {
                unreachable!();
            };
        }
        members
    }

    // It is the turn of the member of this number.
    #[inline]
    fn call(&mut self, board: &Board<CAP, LEVELS>, number: u32)
        requires of { AreOf self.old board.now }
        requires number { number < (sizes_of_all self.old).threads }
        ensures of { IsOf self.new.acting board.now }
        ensures sizes { sizes_of_all self.new ≡ sizes_of_all self.old }
        ensures turn { self.new.acting.number ≡ number }
        ensures lists { (u : ℕ) → steps_for self.new u ≡ steps_for self.old u }
    {
        if self.acting.number == number {
            return;
        }
        self.tally.note(
            self.acting.number as usize,
            self.acting.inserted,
            self.acting.deleted,
        );
        let next = number as usize;
        let inserted = self.tally.inserted[next];
        let deleted = self.tally.deleted[next];
        hand_on(&mut self.acting, board, number, inserted, deleted);
    }
}

// Why an insertion is refused, where no lock was held.
fn refusal_of(why: TryInsertError) -> InsertError
    requires free { (busy : Busy) → why ≢ TryInsertError.Busy busy }
    ensures { as_tried result ≡ why }
{
    match why {
        TryInsertError::Spent => InsertError::Spent,
        TryInsertError::Busy(_) => unreachable!(),
        TryInsertError::Full => InsertError::Full,
        TryInsertError::NoMemory => InsertError::NoMemory,
    }
}

// Why items are not shared, where no lock was held.
fn share_refusal_of(why: TryShareError) -> ShareError
    requires free { (busy : Busy) → why ≢ TryShareError.Busy busy }
    ensures { as_tried_share result ≡ why }
{
    match why {
        TryShareError::Busy(_) => unreachable!(),
        TryShareError::Full => ShareError::Full,
        TryShareError::NoMemory => ShareError::NoMemory,
    }
}

// The turn goes to the thread of this number, which has inserted and deleted so many items.
fn hand_on<const CAP: usize, const LEVELS: usize>(
    acting: &mut Member<CAP, LEVELS>,
    board: &Board<CAP, LEVELS>,
    number: u32,
    inserted: u64,
    deleted: u64,
)
    requires of { IsOf acting.old board.now }
    requires number { number < board.now.sizes.threads }
    requires has { HasList acting.old.seat.me.0.lists number }
    requires rests { IsAtRest acting.old.sizes number
        (steps_known acting.old.seat.me.0.lists number) inserted deleted }
    ensures of { IsOf acting.new board.now }
    ensures turn { acting.new.number ≡ number }
    ensures lists { acting.new.seat.me.0 ≡ view (turned number acting.old.seat.me.0.lists) }
{
    turn_to(&board.table.shared, &mut acting.seat, number as usize);
    acting.number = number;
    acting.inserted = inserted;
    acting.deleted = deleted;
}

// The member of this number, which has inserted and deleted so many items. Its list leaves the seat that knows it.
fn member_of<const CAP: usize, const LEVELS: usize>(
    board: &Board<CAP, LEVELS>,
    seat: &mut MemberSeat<BoardSlot<CAP, LEVELS>>,
    number: u32,
    inserted: u64,
    deleted: u64,
) -> Member<CAP, LEVELS>
    requires table { seat.old.table_id ≡ board.now.table.shared.table_id }
    requires number { number < board.now.sizes.threads }
    requires none { seat.old.me.1 ≡ [] }
    requires has { HasList seat.old.me.0.lists number }
    requires rests { IsAtRest board.now.sizes number (steps_known seat.old.me.0.lists number)
        inserted deleted }
    ensures table { seat.new.table_id ≡ seat.old.table_id }
    ensures left { seat.new.me ≡ (view (left_behind number seat.old.me.0.lists), []) }
    ensures member { (result.number ≡ number) × IsOf result board.now
        × (own_steps result ≡ steps_known seat.old.me.0.lists number) }
{
    turn_to(&board.table.shared, seat, number as usize);
    Member {
        number,
        sizes: board.sizes,
        inserted,
        deleted,
        seat: board.table.shared.split_seat::<First>(seat),
    }
}

// How many items each member inserted and deleted, or the least number that no member has.
fn tally_of<const CAP: usize, const LEVELS: usize>(
    members: &[Member<CAP, LEVELS>],
    threads: usize,
) -> Result<Tally, u32>
    requires threads { threads ≤ MOST_THREADS }
    ensures ok { IfOk result (λ tally. AreCounted members.now threads tally.inserted
        tally.deleted) }
    ensures missing { IfErr result (λ number. IsLeastAbsent members.now threads number) }
{
    let mut tally = Tally::new();
    for number in 0..threads {
        let Some(counts) = counts_of(members, number as u32) else {
            return Err(number as u32);
        };
        tally.note(number, counts.inserted, counts.deleted);
    }
    Ok(tally)
}
