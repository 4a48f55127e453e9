//! The calls of a member that owns a share of its board. None of them waits.
ghost use Rattle.std.specs.Prelude.{◌≡◌, ◌≤◌, length};
ghost use Rattle.std.specs.Arc.{arc_value};
ghost use Rattle.klsm_schedules.specs.OwnSteps.{inserted, deleted};
ghost use Rattle.klsm_board.specs.Boards.{IsOf, own_steps};
ghost use Rattle.klsm_board.specs.Members.{most_deletions, most_insertions};
ghost use Rattle.klsm_owned.specs.Owned.{IsSameOwned, board_of, member_of};
ghost use Rattle.klsm_owned.specs.Trying.{BalancesFirst, LooksAtFront, TriesBound, TriesInsert, TriesDelete, TriesDeleteAlone, TriesRest, TriesShare};

use crate::owned::OwnedMember;
use klsm_board::{
    Bound, Busy, MOST_BALANCED, TryInsertError, TryShareError, WideBoard, WideMember,
};
use klsm_run::{Item, Stamp};
use std::alloc::Global;
use std::sync::Arc;

impl OwnedMember {
    /// Inserts a key with a load, as `Member::try_insert` of `klsm_board`.
    #[inline]
    pub fn try_insert(&mut self, key: u64, load: u64) -> Result<Stamp, TryInsertError>
        ensures same { IsSameOwned self.old self.new }
        ensures tries { TriesInsert self.old self.new key load result }
    {
        self.member.try_insert(&self.board, key, load)
    }

    /// Deletes a small item, as `Member::try_delete_min`, by the member's own picker. Where it is time the member
    /// balances first.
    #[inline]
    pub fn try_delete_min(&mut self) -> Result<Option<Item>, Busy>
        ensures same { IsSameOwned self.old self.new }
        ensures tries { TriesDelete self.old self.new result }
    {
        self.balance();
        let choice = &mut self.choice;
        let answer = self.member.try_delete_min(&self.board, choice)?;
        self.balancing.count_deletion();
        Ok(answer)
    }

    /// Deletes a small item, as `try_delete_min`, but no items move to the own part behind it, whatever the board was made
    /// for (`Member::try_delete_min_alone`).
    #[inline]
    pub fn try_delete_min_alone(&mut self) -> Result<Option<Item>, Busy>
        ensures same { IsSameOwned self.old self.new }
        ensures tries { TriesDeleteAlone self.old self.new result }
    {
        self.balance();
        let picker = &mut self.choice;
        let answer = self.member.try_delete_min_alone(&self.board, picker)?;
        self.balancing.count_deletion();
        Ok(answer)
    }

    /// Moves all items of the own part to the shared one, as `Member::try_share`, and answers how many moved.
    #[inline]
    pub fn try_share(&mut self) -> Result<usize, TryShareError>
        ensures same { IsSameOwned self.old self.new }
        ensures tries { TriesShare self.old self.new result }
    {
        self.member.try_share(&self.board)
    }

    /// The least key of all live items and that of the items in work, and how many live, as `Member::try_bound`.
    #[inline]
    pub fn try_bound(&mut self) -> Result<Bound, Busy>
        ensures same { IsSameOwned self.old self.new }
        ensures tries { TriesBound self.old self.new result }
    {
        self.member.try_bound(&self.board)
    }

    /// Is done with the item that it deleted last, and works at none any more, as `Member::try_rest`.
    #[inline]
    pub fn try_rest(&mut self) -> Result<(), Busy>
        ensures same { IsSameOwned self.old self.new }
        ensures tries { TriesRest self.old self.new result }
    {
        self.member.try_rest(&self.board)
    }

    // Balances with the member whose turn it is, where it is time. One whose lock is held is passed over.
    #[inline]
    fn balance(&mut self)
        ensures same { IsSameOwned self.old self.new }
        ensures balances { BalancesFirst self.old self.new }
    {
        let number = self.member.number();
        let threads = self.board.threads();
        let Some(victim) = self.balancing.next_victim(number, threads) else {
            return;
        };
        let _moved = self.member.try_balance(&self.board, victim, MOST_BALANCED);
    }

    /// The front, the key of the least shared item, as `Member::front`.
    #[inline]
    pub fn front(&mut self) -> u64
        ensures same { IsSameOwned self.old self.new }
        ensures looks { LooksAtFront self.old self.new result }
    {
        self.member.front(&self.board)
    }

    /// How many insertions the member has made.
    #[inline]
    pub fn inserted_count(&self) -> u64
        ensures count { result ≡ length (inserted (own_steps (member_of self.now))) }
        ensures within { result ≤ most_insertions }
    {
        self.member.inserted_count()
    }

    /// How many items it has deleted.
    #[inline]
    pub fn deleted_count(&self) -> u64
        ensures count { result ≡ length (deleted (own_steps (member_of self.now))) }
        ensures within { result ≤ most_deletions }
    {
        self.member.deleted_count()
    }

    /// The share of the board, and the member.
    pub fn into_parts(self) -> (Arc<WideBoard, Global>, WideMember)
        ensures board { arc_value result.0 ≡ board_of self }
        ensures member { result.1 ≡ member_of self }
        ensures fits { IsOf result.1 (arc_value result.0) }
    {
        let OwnedMember { board, member, .. } = self;
        (board, member)
    }
}
