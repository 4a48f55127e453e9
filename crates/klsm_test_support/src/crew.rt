//! A board with its members, one of which may hold a part, and some of which may be away.
ghost use Rattle.std.specs.Prelude.{◌≡◌, All, IfSome};
ghost use Rattle.std.proofs.Props.{props};
ghost use Rattle.klsm_parts.specs.Limit.{IsLevelCount};
ghost use Rattle.klsm_board.specs.Boards.{IsOf, IsHeldOf};

use klsm_board::{
    Account, Board, Bound, Busy, FinishError, FinishRefused, Held, HoldError, HoldRefused,
    InsertError, MakeError, Member, ShareError, SizesError, TryInsertError, TryShareError,
};
use klsm_parts::{First, Picker};
use klsm_run::{Item, Stamp};
use std::alloc::Global;
use std::mem;
use std::sync::Wait;

/// A board, those of its members that hold no part, the one that holds one, and those that are away.
pub struct Crew<const LEVELS: usize> {
    pub board: Board<64, LEVELS>,
    pub members: Vec<Member<64, LEVELS>>,
    pub held: Option<Held<64, LEVELS>>,
    away: Vec<Member<64, LEVELS>>,
    ghost members_are_of: { All (λ member. IsOf member board) members.items },
    ghost held_is_of: { IfSome held (λ held. IsHeldOf held board) } by { Prim.hlevel props },
    ghost away_are_of: { All (λ member. IsOf member board) away.items },
}

// Written out, so that who lets a crew go calls this, and no other crate proves how a board is let go.
impl<const LEVELS: usize> Drop for Crew<LEVELS> {
    fn drop(self) {
        let Crew {
            board: _board,
            members: _members,
            held: _held,
            away: _away,
        } = self;
    }
}

impl<const LEVELS: usize> Crew<LEVELS> {
    /// A new board without a refill, and all its members.
    pub fn new(alloc: Global, threads: usize, k: usize, quota: u64) -> Result<Self, MakeError>
        requires { IsLevelCount LEVELS }
    {
        let (board, members) = Board::new(alloc, threads, k, quota)?;
        Ok(Crew::of(alloc, board, members))
    }

    /// The same with a refill.
    pub fn with_refill(
        alloc: Global,
        threads: usize,
        k: usize,
        quota: u64,
        refill: usize,
    ) -> Result<Self, SizesError>
        requires { IsLevelCount LEVELS }
    {
        let (board, members) = Board::with_refill(alloc, threads, k, quota, refill)?;
        Ok(Crew::of(alloc, board, members))
    }

    fn of(alloc: Global, board: Board<64, LEVELS>, members: Vec<Member<64, LEVELS>>) -> Self
        requires { All (λ member. IsOf member board) members.items }
    {
        Crew {
            board,
            members,
            held: None,
            away: Vec::new(alloc),
        }
    }

    /// How a member's insertion ends that never blocks.
    pub fn try_insert(
        &mut self,
        member: usize,
        key: u64,
        load: u64,
    ) -> Option<Result<Stamp, TryInsertError>> {
        let member = self.members.get_mut(member)?;
        Some(member.try_insert(&self.board, key, load))
    }

    /// How a member's insertion ends that may wait.
    pub fn insert(
        &mut self,
        rt: &impl Wait,
        member: usize,
        key: u64,
        load: u64,
    ) -> Option<Result<Stamp, InsertError>> {
        let member = self.members.get_mut(member)?;
        Some(member.insert(rt, &self.board, key, load))
    }

    /// How a member's deletion ends that never blocks.
    pub fn try_delete_min<P: Picker>(
        &mut self,
        member: usize,
        picker: &mut P,
    ) -> Option<Result<Option<Item>, Busy>> {
        let member = self.members.get_mut(member)?;
        Some(member.try_delete_min(&self.board, picker))
    }

    /// The item that a member deletes by the call that never blocks, where it finds one.
    pub fn deleted<P: Picker>(&mut self, member: usize, picker: &mut P) -> Option<Item> {
        self.try_delete_min(member, picker)?.ok()?
    }

    /// How a member's deletion of the first candidate ends that may wait.
    pub fn delete_min(&mut self, rt: &impl Wait, member: usize) -> Option<Option<Item>> {
        let member = self.members.get_mut(member)?;
        Some(member.delete_min(rt, &self.board, &mut First))
    }

    /// How a member's deletion ends that never blocks, and behind which no items move.
    pub fn try_delete_min_alone<P: Picker>(
        &mut self,
        member: usize,
        picker: &mut P,
    ) -> Option<Result<Option<Item>, Busy>> {
        let member = self.members.get_mut(member)?;
        Some(member.try_delete_min_alone(&self.board, picker))
    }

    /// How one of the first candidate ends that may wait, and behind which no items move.
    pub fn delete_min_alone(&mut self, rt: &impl Wait, member: usize) -> Option<Option<Item>> {
        let member = self.members.get_mut(member)?;
        Some(member.delete_min_alone(rt, &self.board, &mut First))
    }

    /// How a member's sharing of its items ends that never blocks.
    pub fn try_share(&mut self, member: usize) -> Option<Result<usize, TryShareError>> {
        let member = self.members.get_mut(member)?;
        Some(member.try_share(&self.board))
    }

    /// How one ends that may wait.
    pub fn share(&mut self, rt: &impl Wait, member: usize) -> Option<Result<usize, ShareError>> {
        let member = self.members.get_mut(member)?;
        Some(member.share(rt, &self.board))
    }

    /// How a member's bound ends that never blocks.
    pub fn try_bound(&mut self, member: usize) -> Option<Result<Bound, Busy>> {
        let member = self.members.get_mut(member)?;
        Some(member.try_bound(&self.board))
    }

    /// What one comes to that may wait.
    pub fn bound(&mut self, rt: &impl Wait, member: usize) -> Option<Bound> {
        let member = self.members.get_mut(member)?;
        Some(member.bound(rt, &self.board))
    }

    /// How a member's rest ends that never blocks.
    pub fn try_rest(&mut self, member: usize) -> Option<Result<(), Busy>> {
        let member = self.members.get_mut(member)?;
        Some(member.try_rest(&self.board))
    }

    /// A member rests, and may wait.
    pub fn rest(&mut self, rt: &impl Wait, member: usize) -> Option<()> {
        let member = self.members.get_mut(member)?;
        member.rest(rt, &self.board);
        Some(())
    }

    /// How a member's balance with a victim ends, where that is another member of the board.
    pub fn try_balance(
        &mut self,
        member: usize,
        victim: u32,
        most: usize,
    ) -> Option<Result<bool, Busy>> {
        let member = self.members.get_mut(member)?;
        if victim as usize >= self.board.threads() || victim == member.number() {
            return None;
        }
        Some(member.try_balance(&self.board, victim, most))
    }

    /// How many insertions and deletions a member has made.
    pub fn counts(&self, member: usize) -> Option<(u64, u64)> {
        let member = self.members.get(member)?;
        Some((member.inserted_count(), member.deleted_count()))
    }

    /// The last member that holds no part tries to hold one.
    pub fn try_hold(&mut self, lock: usize) -> Option<Result<(), HoldError>> {
        let member = self.members.pop()?;
        match member.try_hold(&self.board, lock) {
            Ok(held) => {
                self.held = Some(held);
                Some(Ok(()))
            }
            Err(HoldRefused { why, member }) => {
                self.members.push(member).ok()?;
                Some(Err(why))
            }
        }
    }

    /// Whether a member holds a part, of so many items and with this least one.
    pub fn holds(&self, member: u32, lock: usize, len: usize, least: Option<Item>) -> bool {
        let Some(held) = &self.held else {
            return false;
        };
        held.number() == member
            && held.lock() == lock
            && held.len() == len
            && held.is_empty() == (len == 0)
            && held.least() == least
    }

    /// How many items the part has that is held, and the least.
    pub fn seen(&self) -> Option<(usize, Option<Item>)> {
        let held = self.held.as_ref()?;
        Some((held.len(), held.least()))
    }

    /// The member that holds a part puts it back.
    pub fn put_back(&mut self) -> Option<()> {
        let held = self.held.take()?;
        self.members.push(held.put_back(&self.board)).ok()
    }

    /// The last member that holds no part is dropped.
    pub fn drop_member(&mut self) -> Option<()> {
        let _dropped = self.members.pop()?;
        Some(())
    }

    /// The member that holds a part is dropped, with the part in its hand.
    pub fn drop_held(&mut self) -> Option<()> {
        let _dropped = self.held.take()?;
        Some(())
    }

    /// The last member that holds no part goes away.
    pub fn leave(&mut self) -> Option<()> {
        let member = self.members.pop()?;
        self.away.push(member).ok()
    }

    /// Those that are away come back, in their order, and those that are here go away.
    pub fn relieve(&mut self) {
        mem::swap(&mut self.members, &mut self.away);
    }

    /// Takes all members out that hold no part and are not away.
    pub fn take_members(&mut self, alloc: Global) -> Vec<Member<64, LEVELS>>
        ensures board { self.new.board ≡ self.old.board }
        ensures of { All (λ member. IsOf member self.old.board) result.items }
    {
        mem::replace(&mut self.members, Vec::new(alloc))
    }

    /// One of them comes back.
    pub fn come_back(&mut self, member: Member<64, LEVELS>) -> Option<()>
        requires { IsOf member self.old.board }
        ensures { self.new.board ≡ self.old.board }
    {
        self.members.push(member).ok()
    }

    /// Whether the members that hold no part and are not away have these numbers, in this order.
    pub fn are(&self, numbers: &[u32]) -> bool {
        self.members.len() == numbers.len()
            && self
                .members
                .iter()
                .zip(numbers)
                .all(|(member, number)| member.number() == *number)
    }

    /// Ends the board, with the members that hold no part and are not away.
    pub fn finish(self, alloc: Global) -> Result<Account, (FinishError, Self)> {
        let Crew {
            board,
            members,
            held,
            away,
        } = self;
        match board.finish(alloc, members) {
            Ok(account) => Ok(account),
            Err(
                FinishRefused {
                    why,
                    board,
                    members,
                },
            ) => Err((
                why,
                Crew {
                    board,
                    members,
                    held,
                    away,
                },
            )),
        }
    }
}

/// The board and the members that come back, in the order given, where it is not finished for this
/// cause.
pub fn refused(
    alloc: Global,
    crew: Crew<21>,
    cause: FinishError,
    numbers: &[u32],
) -> Option<Crew<21>> {
    let (why, crew) = crew.finish(alloc).err()?;
    (why == cause && crew.are(numbers)).then_some(crew)
}
