//! How a board ends: the account of all its members.
ghost use Rattle.std.specs.Prelude.{All, ◌≡◌, ◌<◌, ◌≤◌, ◌+◌, ◌++◌, ◌∷◌, ◌↔◌, ℕ, List, [], length, IfOk, IfErr, IsErrAnd, IfSome, None, false, vec_len, vec_capacity, slice_index_or};
ghost use Rattle.std.specs.Mem.Slots.{slots_items, slots_filled, slots_len, IsFull};
ghost use Rattle.klsm_run.specs.declared.item.Item.{Item};
ghost use Rattle.std.specs.List.{flat_map};
ghost use Rattle.klsm_run.specs.declared.limits.TheConstants.{MOST_THREADS};
ghost use mathlib.Core.Option.{some};
ghost use lib.ListN.{get_elem?};
ghost use Rattle.klsm_run.specs.Content.{sorted};
ghost use Rattle.klsm_schedules.specs.OwnSteps.{inserted, deleted};
ghost use Rattle.klsm_schedules.specs.Account.{account};
ghost use Rattle.klsm_board.specs.Members.{most_deletions, most_insertions};
ghost use Rattle.klsm_board.specs.Boards.{IsOf, own_steps};
ghost use Rattle.klsm_board.specs.Finishing.{AreAll, AreEachOnce, AreListsAtEnd, IsLeastAbsent, HasMember, Knows, lists_of, steps_among};

use crate::board::{Board, Member};
use crate::errors::FinishError;
use crate::rule::{Law, Locks, MemberSeat, View};
use crate::sizes::Sizes;
use crate::slot::{BoardSlot, PartSlot};
use atomic_table::{Closed, Join};
use klsm_run::Item;
use std::alloc::Global;

/// What all members of a board did, and what is left.
#[derive(Drop)]
pub struct Account {
    /// How many items were inserted.
    pub inserted: u64,
    /// How many were deleted.
    pub deleted: u64,
    /// The items that are left, in ascending order.
    pub left: Vec<Item>,
}

/// Why a board is not finished, with the board and the members in the order given.
#[derive(Drop)]
pub struct FinishRefused<const CAP: usize, const LEVELS: usize> {
    /// Why.
    pub why: FinishError,
    /// The board, which goes on as it was.
    pub board: Board<CAP, LEVELS>,
    /// The members, which go on as they were.
    pub members: Vec<Member<CAP, LEVELS>>,
}

impl<const CAP: usize, const LEVELS: usize> Board<CAP, LEVELS> {
    /// Ends the board, once all its members are back, and gives the account of what they did.
    ///
    /// It makes one growth, for the items that are left, before anything else. After a refusal it
    /// may be called again.
    pub fn finish(
        self,
        alloc: Global,
        members: Vec<Member<CAP, LEVELS>>,
    ) -> Result<Account, FinishRefused<CAP, LEVELS>>
        requires { All (λ member. IsOf member self) members.items }
        ensures ok { IfOk result (λ answer. AreAll members.entry.items self.entry.sizes.threads
            × AreListsAtEnd self.entry.sizes (lists_of self.entry.sizes.threads members.entry.items)
            × (answer.inserted ≡ (account (lists_of self.entry.sizes.threads members.entry.items)).inserted)
            × (answer.deleted ≡ (account (lists_of self.entry.sizes.threads members.entry.items)).deleted)
            × (answer.left.items ≡ (account (lists_of self.entry.sizes.threads members.entry.items)).left)) }
        ensures each_once { IfOk result (λ answer.
            AreEachOnce (lists_of self.entry.sizes.threads members.entry.items)) }
        ensures missing { (number : ℕ) → IsErrAnd result (λ refused. refused.why ≡ FinishError.Missing number)
            ↔ IsLeastAbsent members.entry.items self.entry.sizes.threads number }
        ensures refused { IfErr result (λ refused. (refused.board ≡ self.entry)
            × (refused.members.items ≡ members.entry.items)) }
    {
        let totals = match totals_of(members.as_slice(), self.sizes.threads) {
            Ok(totals) => totals,
            Err(number) => {
                return Err(FinishRefused {
                    why: FinishError::Missing(number),
                    board: self,
                    members,
                });
            }
        };
        let count = totals.inserted.saturating_sub(totals.deleted);
        let Ok(left) = Vec::with_capacity(alloc, count as usize) else {
            return Err(FinishRefused {
                why: FinishError::NoMemory,
                board: self,
                members,
            });
        };
        Ok(self.close(members, totals, left))
    }

    /// Ends the board as `finish` does, with an empty list for the items that are left, which was made
    /// before. So it takes no memory, and is refused only where a member is missing.
    ///
    /// The list has to have room for them: for as many items as all members inserted, less those that they
    /// deleted. After a refusal it is gone, while board and members are given back.
    pub fn finish_into(
        self,
        members: Vec<Member<CAP, LEVELS>>,
        left: Vec<Item>,
    ) -> Result<Account, FinishRefused<CAP, LEVELS>>
        requires of { All (λ member. IsOf member self) members.items }
        requires empty { left.items ≡ [] }
        requires room { length (flat_map inserted (lists_of self.sizes.threads members.items))
            ≤ length (flat_map deleted (lists_of self.sizes.threads members.items))
            + vec_capacity left }
        ensures ok { IfOk result (λ answer. AreAll members.entry.items self.entry.sizes.threads
            × AreListsAtEnd self.entry.sizes (lists_of self.entry.sizes.threads members.entry.items)
            × (answer.inserted ≡ (account (lists_of self.entry.sizes.threads members.entry.items)).inserted)
            × (answer.deleted ≡ (account (lists_of self.entry.sizes.threads members.entry.items)).deleted)
            × (answer.left.items ≡ (account (lists_of self.entry.sizes.threads members.entry.items)).left)) }
        ensures each_once { IfOk result (λ answer.
            AreEachOnce (lists_of self.entry.sizes.threads members.entry.items)) }
        ensures missing { IfErr result (λ refused. (number : ℕ)
            × (refused.why ≡ FinishError.Missing number)
            × IsLeastAbsent members.entry.items self.entry.sizes.threads number) }
        ensures refused { IfErr result (λ refused. (refused.board ≡ self.entry)
            × (refused.members.items ≡ members.entry.items)) }
    {
        match totals_of(members.as_slice(), self.sizes.threads) {
            Ok(totals) => Ok(self.close(members, totals, left)),
            Err(number) => Err(FinishRefused {
                why: FinishError::Missing(number),
                board: self,
                members,
            }),
        }
    }

    // Ends the board, whose members are all there and have these totals, and lists what is left.
    fn close(
        self,
        mut members: Vec<Member<CAP, LEVELS>>,
        totals: Totals,
        mut left: Vec<Item>,
    ) -> Account
        requires of { All (λ member. IsOf member self) members.items }
        requires all { AreAll members.items self.sizes.threads }
        requires inserted { totals.inserted
            ≡ length (flat_map inserted (lists_of self.sizes.threads members.items)) }
        requires deleted { totals.deleted
            ≡ length (flat_map deleted (lists_of self.sizes.threads members.items)) }
        requires empty { left.items ≡ [] }
        requires room { totals.inserted ≤ totals.deleted + vec_capacity left }
        ensures at_end { AreListsAtEnd self.entry.sizes
            (lists_of self.entry.sizes.threads members.entry.items) }
        ensures inserted { result.inserted
            ≡ (account (lists_of self.entry.sizes.threads members.entry.items)).inserted }
        ensures deleted { result.deleted
            ≡ (account (lists_of self.entry.sizes.threads members.entry.items)).deleted }
        ensures left { result.left.items
            ≡ (account (lists_of self.entry.sizes.threads members.entry.items)).left }
        ensures each_once { AreEachOnce (lists_of self.entry.sizes.threads members.entry.items) }
    {
        let Board { table, sizes } = self;
        let seat = join_all(&table.shared, &mut members);
        let mut closed = table.close_with(seat);
        list_parts(&mut closed, sizes.threads + 1, &mut left);
        closed.free();
        left.sort_unstable();
        Account {
            inserted: totals.inserted,
            deleted: totals.deleted,
            left,
        }
    }
}

/// How many items some members inserted and deleted.
#[derive(Drop)]
pub(crate) struct Totals {
    pub(crate) inserted: u64,
    pub(crate) deleted: u64,
}

// The sums over members 0 to `threads - 1`, or the least of these numbers that no member has.
fn totals_of<const CAP: usize, const LEVELS: usize>(
    members: &[Member<CAP, LEVELS>],
    threads: usize,
) -> Result<Totals, u32>
    requires threads { threads ≤ MOST_THREADS }
    ensures ok { IfOk result (λ totals. AreAll members.now threads
        × (totals.inserted ≡ length (flat_map inserted (lists_of threads members.now)))
        × (totals.deleted ≡ length (flat_map deleted (lists_of threads members.now)))) }
    ensures missing { IfErr result (λ number. IsLeastAbsent members.now threads number) }
{
    let mut totals = Totals {
        inserted: 0,
        deleted: 0,
    };
    for number in 0..threads {
        let Some(counts) = counts_of(members, number as u32) else {
            return Err(number as u32);
        };
        totals.inserted += counts.inserted;
        totals.deleted += counts.deleted;
    }
    Ok(totals)
}

/// How many items the first member with this number inserted and deleted.
pub(crate) fn counts_of<const CAP: usize, const LEVELS: usize>(
    members: &[Member<CAP, LEVELS>],
    number: u32,
) -> Option<Totals>
    ensures found { IfSome result (λ counts. HasMember members.now number
        × (counts.inserted ≡ length (inserted (steps_among members.now number)))
        × (counts.deleted ≡ length (deleted (steps_among members.now number)))
        × (counts.inserted ≤ most_insertions) × (counts.deleted ≤ most_deletions)) }
    ensures none { result ≡ None → HasMember members.now number → ⊥ }
{
    for member in members {
        if member.number == number {
            return Some(Totals {
                inserted: member.inserted,
                deleted: member.deleted,
            });
        }
    }
    None
}

// One seat takes in the lists of another.
struct Gather;

impl Join<View> for Gather {
    ghost use Rattle.std.specs.Prelude.{◌++◌};
    ghost use Rattle.klsm_board.specs.Rule.{view};

    ghost both = { λ v w. view (v.lists ++ w.lists) };

    ghost spent = { view [] };
}

/// One seat that knows the lists of all these members, which leave their list.
pub(crate) fn join_all<const CAP: usize, const LEVELS: usize>(
    table: &Locks<BoardSlot<CAP, LEVELS>>,
    members: &mut Vec<Member<CAP, LEVELS>>,
) -> MemberSeat<BoardSlot<CAP, LEVELS>>
    requires of { (i : ℕ) (member : Member CAP LEVELS) → get_elem? members.old.items i ≡ some member
        → member.seat.table_id ≡ table.now.table_id }
    requires words { 0 < table.now.table_id.words }
    requires some { 0 < length members.old.items }
    ensures empty { members.new.items ≡ [] }
    ensures room { vec_capacity members.new ≡ vec_capacity members.old }
    ensures table { result.table_id ≡ table.now.table_id }
    ensures none { result.me.1 ≡ [] }
    ensures knows { (i : ℕ) (member : Member CAP LEVELS) → get_elem? members.old.items i ≡ some member
        → Knows result.me.0 member }
{
    let Some(Member { mut seat, .. }) = members.pop() else {
        unreachable!();
    };
    while let Some(member) = members.pop() {
        table.join_seat::<Gather>(&mut seat, member.seat);
    }
    seat
}

// Takes all parts out of a closed table, and lists their items.
fn list_parts<S: PartSlot>(closed: &mut Closed<S, Global>, parts: usize, all: &mut Vec<Item>)
    requires full { IsFull closed.old.slots × (slots_len closed.old.slots ≡ parts) }
    requires empty { all.old.items ≡ [] }
    requires room { length (flat_map S.content (slots_items closed.old.slots))
        ≤ vec_capacity all.old }
    ensures taken { (part : ℕ) → part < slots_len closed.new.slots
        → slice_index_or (slots_filled closed.new.slots) part false ≡ false }
    ensures items { sorted all.new.items
        ≡ sorted (flat_map S.content (slots_items closed.old.slots)) }
{
    for part in 0..parts {
        let Ok(()) = closed.take(part).append_to(all) else {
            unreachable!();
        };
    }
}
