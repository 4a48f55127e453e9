//! What the members of a board do.
ghost use Rattle.std.specs.Prelude.{◌≡◌, ◌≢◌, ◌<◌, ◌≤◌, ◌+◌, ◌++◌, ◌↔◌, ℕ, List, [], ◌∷◌, length, IfOk, IfErr, OnOk, IsErrAnd, None};
ghost use Rattle.std.specs.Option.{option_to_list};
ghost use Rattle.klsm_run.specs.declared.item.Item.{Item};
ghost use Rattle.klsm_schedules.specs.declared.step.Entry.TheVariants.{Looked};
ghost use Rattle.klsm_schedules.specs.OwnSteps.{inserted, deleted};
ghost use Rattle.klsm_board.specs.Rule.{IsReached, own, view};
ghost use Rattle.klsm_board.specs.Steps.{HasFront};
ghost use Rattle.klsm_board.specs.Members.{most_deletions};
ghost use Rattle.klsm_board.specs.Boards.{Adds, IsOf, IsSame, known_of_others, own_steps};
ghost use Rattle.klsm_board.specs.Effects.{MeetsHolder, TakesEffect};
ghost use Rattle.klsm_board.specs.Inserting.{Inserts, InsertsWaiting, MissesOwn, RefusesInsert, RefusesInsertWaiting, stamp_of, stamped};
ghost use Rattle.klsm_board.specs.Deleting.{AnswersDeletion, AnswersWaiting, MissesDeletion, moving_at_most};
ghost use Rattle.klsm_board.specs.Sharing.{Shares, SharesWaiting, RefusesShare, RefusesShareWaiting};
ghost use Rattle.klsm_board.specs.Stealing.{Balances};
ghost use Rattle.klsm_board.specs.Bounding.{Bounds, BoundsWaiting, MissesSome, SeesAllLive};
ghost use Rattle.klsm_board.specs.Resting.{MissesRest, Rests, RestsWaiting};

use crate::board::{Board, Member};
use crate::bounding::{Bound, bound_now};
use crate::deleting::delete_now;
use crate::errors::{Busy, InsertError, ShareError, TryInsertError, TryShareError};
use crate::inserting::insert_now;
use crate::pausing::Pause;
use crate::resting::rest_now;
use crate::sharing::share_now;
use crate::stealing::balance_now;
use crate::steps::see_front;
use klsm_parts::Picker;
use klsm_run::{Item, Stamp};
use std::sync::Wait;

impl<const CAP: usize, const LEVELS: usize> Member<CAP, LEVELS> {
    /// The member's number.
    #[inline]
    pub fn number(&self) -> u32
        ensures number { result ≡ self.now.number }
        ensures thread { self.now.number < self.now.sizes.threads }
        ensures rule { ∥ IsReached self.now.sizes self.now.number (own_steps self.now) ∥₁ }
    {
        self.number
    }

    /// How many insertions it has made. They are at most the quota.
    #[inline]
    pub fn inserted_count(&self) -> u64
        ensures count { result ≡ length (inserted (own_steps self.now)) }
        ensures within { result ≤ self.now.sizes.quota }
    {
        self.inserted
    }

    /// How many items it has deleted. They are at most 2^52, as many as all members may insert.
    #[inline]
    pub fn deleted_count(&self) -> u64
        ensures count { result ≡ length (deleted (own_steps self.now)) }
        ensures within { result ≤ most_deletions }
    {
        self.deleted
    }

    /// The front: the key of the least shared item, and the greatest number where no item is shared. The items in
    /// members' own parts may have lesser keys. It takes no lock, never blocks, and changes no part. The member's
    /// list notes the look.
    ///
    /// The clauses say so of a lawful world in which the lists that the member knows are what they were. And by
    /// `laws::looks_tell_fronts` of `klsm_schedules` no schedule leads to a list with a look that notes another number
    /// than the front just before it.
    #[inline]
    pub fn front(&mut self, board: &Board<CAP, LEVELS>) -> u64
        requires { IsOf self.old board.now }
        ensures same { IsSame self.old self.new }
        ensures others { known_of_others self.new ≡ known_of_others self.old }
        ensures steps { own_steps self.new ≡ own_steps self.old ++ Looked result ∷ [] }
        ensures adds { Adds self.old self.new [] [] }
        ensures known { HasFront self.old.sizes self.old.number
            (view (own self.old.number (own_steps self.old) ∷ known_of_others self.old)) result }
    {
        let thread = self.number as usize;
        see_front(
            &board.table.shared,
            &mut self.seat,
            self.sizes.threads,
            thread,
        )
    }

    // The item of its next insertion.
    #[inline]
    fn next_item(&self, key: u64, load: u64) -> Item
        ensures { result ≡ stamped key
            (stamp_of self.now.number (length (inserted (own_steps self.now)))) load }
    {
        let stamp = Stamp {
            owner: self.number,
            number: self.inserted,
        };
        Item { key, stamp, load }
    }

    /// Inserts a key with a load, and answers the item's stamp. It never blocks.
    ///
    /// An insertion acquires the own lock and, where the own part has k items, the shared one, which
    /// items then move to.
    pub fn try_insert(
        &mut self,
        board: &Board<CAP, LEVELS>,
        key: u64,
        load: u64,
    ) -> Result<Stamp, TryInsertError>
        requires { IsOf self.old board.now }
        ensures same { IsSame self.old self.new }
        ensures others { known_of_others self.new ≡ known_of_others self.old }
        ensures stamp { IfOk result (λ stamp.
            stamp ≡ stamp_of self.old.number (length (inserted (own_steps self.old)))) }
        ensures ok { IfOk result (λ stamp. Inserts LEVELS self.old.sizes.k self.old.number
            (own_steps self.old) (own_steps self.new) (stamped key stamp load)) }
        ensures adds { IfOk result (λ stamp. Adds self.old self.new
            (stamped key stamp load ∷ []) []) }
        ensures refused { IfErr result (λ why. Adds self.old self.new [] []
            × RefusesInsert (length (inserted (own_steps self.old)) ≡ self.old.sizes.quota) LEVELS
            self.old.sizes.k self.old.number (own_steps self.old) (own_steps self.new) why) }
        ensures spent { IsErrAnd result (λ why. why ≡ TryInsertError.Spent)
            ↔ (length (inserted (own_steps self.old)) ≡ self.old.sizes.quota) }
        ensures holder { (busy : Busy) → IsErrAnd result (λ why. why ≡ TryInsertError.Busy busy)
            → MeetsHolder self.old.sizes self.old.number (known_of_others self.old)
            (own_steps self.new) busy }
    {
        if self.inserted == self.sizes.quota {
            return Err(TryInsertError::Spent);
        }
        let item = self.next_item(key, load);
        let thread = self.number as usize;
        let threads = self.sizes.threads;
        insert_now(&board.table.shared, &mut self.seat, thread, threads, item)?;
        self.inserted += 1;
        Ok(item.stamp)
    }

    /// Inserts a key with a load, and answers the item's stamp. It may wait for a lock.
    ///
    /// It is `try_insert`, again and again, as long as that meets a lock that is held. Between two tries it looks
    /// away, longer each time, and then lets other threads run.
    pub fn insert(
        &mut self,
        rt: &impl Wait,
        board: &Board<CAP, LEVELS>,
        key: u64,
        load: u64,
    ) -> Result<Stamp, InsertError>
        requires { IsOf self.old board.now }
        ensures same { IsSame self.old self.new }
        ensures others { known_of_others self.new ≡ known_of_others self.old }
        ensures stamp { IfOk result (λ stamp.
            stamp ≡ stamp_of self.old.number (length (inserted (own_steps self.old)))) }
        ensures ok { IfOk result (λ stamp. InsertsWaiting LEVELS self.old.sizes.k self.old.number
            (own_steps self.old) (own_steps self.new) (stamped key stamp load)) }
        ensures adds { IfOk result (λ stamp. Adds self.old self.new
            (stamped key stamp load ∷ []) []) }
        ensures refused { IfErr result (λ why. Adds self.old self.new [] []
            × RefusesInsertWaiting (length (inserted (own_steps self.old)) ≡ self.old.sizes.quota)
            LEVELS self.old.sizes.k self.old.number (own_steps self.old) (own_steps self.new)
            why) }
        ensures spent { IsErrAnd result (λ why. why ≡ InsertError.Spent)
            ↔ (length (inserted (own_steps self.old)) ≡ self.old.sizes.quota) }
    {
        let mut pause = Pause::on(rt, &board.table.shared);
        for _ in rt.forever() {
            match self.try_insert(board, key, load) {
                Ok(stamp) => return Ok(stamp),
                Err(TryInsertError::Spent) => return Err(InsertError::Spent),
                Err(TryInsertError::Busy(busy)) => pause.wait(busy),
                Err(TryInsertError::Full) => return Err(InsertError::Full),
                Err(TryInsertError::NoMemory) => return Err(InsertError::NoMemory),
            }
        }
        unreachable!()
    }

    /// Deletes a small item and answers it. It never blocks. `None` where the own part, the
    /// shared one and each other part that could be looked into were empty.
    ///
    /// It acquires the own lock and, unless its least item has a key below the front, the shared one. At
    /// most T·k smaller items live then, in all parts together, at most (T-1)·k where the shared lock
    /// was not acquired, and none of its own in the two parts; where the answer is `None`, at most (T-1)·k
    /// items live.
    ///
    /// Where the item was a shared one, and the board was made to say so, some of the least shared items
    /// then move to the own part, before the shared lock is released.
    pub fn try_delete_min<P: Picker>(
        &mut self,
        board: &Board<CAP, LEVELS>,
        picker: &mut P,
    ) -> Result<Option<Item>, Busy>
        requires { IsOf self.old board.now }
        ensures same { IsSame self.old self.new }
        ensures others { known_of_others self.new ≡ known_of_others self.old }
        ensures ok { IfOk result (λ answer. AnswersDeletion P.may_pick picker.old picker.new
            self.old.sizes self.old.number (own_steps self.old) (own_steps self.new) answer) }
        ensures effect { IfOk result (TakesEffect self.old.sizes self.old.number
            (known_of_others self.old) (own_steps self.old) (own_steps self.new)) }
        ensures adds { IfOk result (λ answer. Adds self.old self.new [] (option_to_list answer)) }
        ensures busy { IfErr result (λ busy. Adds self.old self.new [] []
            × (picker.new ≡ picker.old)
            × MissesDeletion self.old.number (own_steps self.old) (own_steps self.new) busy) }
        ensures holder { IfErr result (MeetsHolder self.old.sizes self.old.number
            (known_of_others self.old) (own_steps self.new)) }
    {
        let refill = self.sizes.refill;
        self.try_delete(board, refill, picker)
    }

    /// Deletes a small item and answers it, as `try_delete_min` does, but no items move to the own part behind it, whatever
    /// the board was made for. So a member that then shares its items (`try_share`) gives none back that has just come.
    pub fn try_delete_min_alone<P: Picker>(
        &mut self,
        board: &Board<CAP, LEVELS>,
        picker: &mut P,
    ) -> Result<Option<Item>, Busy>
        requires { IsOf self.old board.now }
        ensures same { IsSame self.old self.new }
        ensures others { known_of_others self.new ≡ known_of_others self.old }
        ensures ok { IfOk result (λ answer. AnswersDeletion P.may_pick picker.old picker.new
            (moving_at_most 0 self.old.sizes) self.old.number (own_steps self.old)
            (own_steps self.new) answer) }
        ensures effect { IfOk result (TakesEffect self.old.sizes self.old.number
            (known_of_others self.old) (own_steps self.old) (own_steps self.new)) }
        ensures adds { IfOk result (λ answer. Adds self.old self.new [] (option_to_list answer)) }
        ensures busy { IfErr result (λ busy. Adds self.old self.new [] []
            × (picker.new ≡ picker.old)
            × MissesDeletion self.old.number (own_steps self.old) (own_steps self.new) busy) }
        ensures holder { IfErr result (MeetsHolder self.old.sizes self.old.number
            (known_of_others self.old) (own_steps self.new)) }
    {
        self.try_delete(board, 0, picker)
    }

    // A deletion by which at most `refill` items move to the own part.
    #[inline]
    fn try_delete<P: Picker>(
        &mut self,
        board: &Board<CAP, LEVELS>,
        refill: usize,
        picker: &mut P,
    ) -> Result<Option<Item>, Busy>
        requires { IsOf self.old board.now }
        ensures same { IsSame self.old self.new }
        ensures others { known_of_others self.new ≡ known_of_others self.old }
        ensures ok { IfOk result (λ answer. AnswersDeletion P.may_pick picker.old picker.new
            (moving_at_most refill self.old.sizes) self.old.number (own_steps self.old)
            (own_steps self.new) answer) }
        ensures effect { IfOk result (TakesEffect self.old.sizes self.old.number
            (known_of_others self.old) (own_steps self.old) (own_steps self.new)) }
        ensures adds { IfOk result (λ answer. Adds self.old self.new [] (option_to_list answer)) }
        ensures busy { IfErr result (λ busy. Adds self.old self.new [] []
            × (picker.new ≡ picker.old)
            × MissesDeletion self.old.number (own_steps self.old) (own_steps self.new) busy) }
        ensures holder { IfErr result (MeetsHolder self.old.sizes self.old.number
            (known_of_others self.old) (own_steps self.new)) }
    {
        let thread = self.number as usize;
        let threads = self.sizes.threads;
        let table = &board.table.shared;
        let answer = delete_now(table, &mut self.seat, thread, threads, refill, picker)?;
        if answer.is_some() {
            self.deleted += 1;
        }
        Ok(answer)
    }

    /// Deletes a small item and answers it. It is `try_delete_min`, again and again, as long as that meets a lock
    /// that is held, and it waits between two tries as `insert` does.
    pub fn delete_min<P: Picker>(
        &mut self,
        rt: &impl Wait,
        board: &Board<CAP, LEVELS>,
        picker: &mut P,
    ) -> Option<Item>
        requires { IsOf self.old board.now }
        ensures same { IsSame self.old self.new }
        ensures others { known_of_others self.new ≡ known_of_others self.old }
        ensures ok { AnswersWaiting P.may_pick picker.old picker.new self.old.sizes self.old.number
            (own_steps self.old) (own_steps self.new) result }
        ensures effect { TakesEffect self.old.sizes self.old.number (known_of_others self.old)
            (own_steps self.old) (own_steps self.new) result }
        ensures adds { Adds self.old self.new [] (option_to_list result) }
    {
        let refill = self.sizes.refill;
        self.delete(rt, board, refill, picker)
    }

    /// Deletes a small item and answers it, and no items move to the own part behind it. It is `try_delete_min_alone`,
    /// again and again, as long as that meets a lock that is held, and it waits between two tries as `insert` does.
    pub fn delete_min_alone<P: Picker>(
        &mut self,
        rt: &impl Wait,
        board: &Board<CAP, LEVELS>,
        picker: &mut P,
    ) -> Option<Item>
        requires { IsOf self.old board.now }
        ensures same { IsSame self.old self.new }
        ensures others { known_of_others self.new ≡ known_of_others self.old }
        ensures ok { AnswersWaiting P.may_pick picker.old picker.new
            (moving_at_most 0 self.old.sizes) self.old.number (own_steps self.old)
            (own_steps self.new) result }
        ensures effect { TakesEffect self.old.sizes self.old.number (known_of_others self.old)
            (own_steps self.old) (own_steps self.new) result }
        ensures adds { Adds self.old self.new [] (option_to_list result) }
    {
        self.delete(rt, board, 0, picker)
    }

    // A deletion by which at most `refill` items move to the own part, and which may wait.
    #[inline]
    fn delete<P: Picker>(
        &mut self,
        rt: &impl Wait,
        board: &Board<CAP, LEVELS>,
        refill: usize,
        picker: &mut P,
    ) -> Option<Item>
        requires { IsOf self.old board.now }
        ensures same { IsSame self.old self.new }
        ensures others { known_of_others self.new ≡ known_of_others self.old }
        ensures ok { AnswersWaiting P.may_pick picker.old picker.new
            (moving_at_most refill self.old.sizes) self.old.number (own_steps self.old)
            (own_steps self.new) result }
        ensures effect { TakesEffect self.old.sizes self.old.number (known_of_others self.old)
            (own_steps self.old) (own_steps self.new) result }
        ensures adds { Adds self.old self.new [] (option_to_list result) }
    {
        let mut pause = Pause::on(rt, &board.table.shared);
        for _ in rt.forever() {
            match self.try_delete(board, refill, picker) {
                Ok(answer) => return answer,
                Err(busy) => pause.wait(busy),
            }
        }
        unreachable!()
    }

    /// Moves all items of the own part to the shared one, where others find them, and answers how many moved. It never
    /// blocks.
    ///
    /// It acquires the own lock and, where the own part has an item, the shared one. It costs a merge of the own items
    /// to a run on the heap, made before the shared lock is tried and dropped where that is held, and then what a flush
    /// of them costs. Where it is refused no item has moved and no block has changed: `Busy` for a lock, `Full` where
    /// the shared part has no room for all of them, and else `NoMemory`. No bound changes: own parts have at most k
    /// items as before.
    pub fn try_share(&mut self, board: &Board<CAP, LEVELS>) -> Result<usize, TryShareError>
        requires { IsOf self.old board.now }
        ensures same { IsSame self.old self.new }
        ensures others { known_of_others self.new ≡ known_of_others self.old }
        ensures ok { IfOk result (Shares LEVELS self.old.number (own_steps self.old)
            (own_steps self.new)) }
        ensures adds { Adds self.old self.new [] [] }
        ensures refused { IfErr result (RefusesShare LEVELS self.old.number (own_steps self.old)
            (own_steps self.new)) }
        ensures holder { (busy : Busy) → IsErrAnd result (λ why. why ≡ TryShareError.Busy busy)
            → MeetsHolder self.old.sizes self.old.number (known_of_others self.old)
            (own_steps self.new) busy }
    {
        let thread = self.number as usize;
        let threads = self.sizes.threads;
        share_now(&board.table.shared, &mut self.seat, thread, threads)
    }

    /// Moves all items of the own part to the shared one. It is `try_share`, again and again, as long as that meets a lock
    /// that is held, and it waits between two tries as `insert` does.
    pub fn share(&mut self, rt: &impl Wait, board: &Board<CAP, LEVELS>) -> Result<usize, ShareError>
        requires { IsOf self.old board.now }
        ensures same { IsSame self.old self.new }
        ensures others { known_of_others self.new ≡ known_of_others self.old }
        ensures ok { IfOk result (SharesWaiting LEVELS self.old.number (own_steps self.old)
            (own_steps self.new)) }
        ensures adds { Adds self.old self.new [] [] }
        ensures refused { IfErr result (RefusesShareWaiting LEVELS self.old.number
            (own_steps self.old) (own_steps self.new)) }
    {
        let mut pause = Pause::on(rt, &board.table.shared);
        for _ in rt.forever() {
            match self.try_share(board) {
                Ok(count) => return Ok(count),
                Err(TryShareError::Busy(busy)) => pause.wait(busy),
                Err(TryShareError::Full) => return Err(ShareError::Full),
                Err(TryShareError::NoMemory) => return Err(ShareError::NoMemory),
            }
        }
        unreachable!()
    }

    /// The least key of all live items, in all parts together, and how many live. It never blocks.
    ///
    /// It acquires the own locks of all members, in the order of their numbers, and then the shared one; `Busy` names the
    /// first that was not free. So there is a moment in the call when the member has all parts in hand, and what it answers
    /// is exact for that moment. Each item that lives later was inserted since, or has a key of at least `queue`
    /// (`laws::least_keys_hold` of `klsm_schedules`). It changes no part and takes no memory. It costs T+1 acquires and
    /// releases, a load for each member, and a comparison for each block; as long as it has a part, nobody else can use
    /// that.
    ///
    /// An item that was deleted is in no part, however long its member still works at it: `work` is the least key of these.
    /// Where members insert nothing but what they made of the item that they work at, with keys no less than its own, no
    /// item that is deleted later has a key below the lesser of `queue` and `work` (`laws::work_holds` of `klsm_schedules`): the
    /// bound of a search in which children are inserted before the next deletion, or the `rest`, of their member.
    pub fn try_bound(&mut self, board: &Board<CAP, LEVELS>) -> Result<Bound, Busy>
        requires { IsOf self.old board.now }
        ensures same { IsSame self.old self.new }
        ensures others { known_of_others self.new ≡ known_of_others self.old }
        ensures ok { IfOk result (Bounds self.old.sizes.threads (own_steps self.old)
            (own_steps self.new)) }
        ensures live { IfOk result (SeesAllLive self.old.sizes self.old.number
            (known_of_others self.old) (own_steps self.old) (own_steps self.new)) }
        ensures adds { Adds self.old self.new [] [] }
        ensures busy { IfErr result (MissesSome self.old.sizes.threads (own_steps self.old)
            (own_steps self.new)) }
        ensures holder { IfErr result (MeetsHolder self.old.sizes self.old.number
            (known_of_others self.old) (own_steps self.new)) }
    {
        let thread = self.number as usize;
        let threads = self.sizes.threads;
        bound_now(&board.table.shared, &mut self.seat, thread, threads)
    }

    /// The least key of all live items, in all parts together, and how many live. It is `try_bound`, again and again, as
    /// long as that meets a lock that is held, and it waits between two tries as `insert` does.
    ///
    /// Each try needs all locks at once and keeps none for the next one, so other members may overtake it any number of
    /// times: where many of them do little but insert and delete, it may take long.
    pub fn bound(&mut self, rt: &impl Wait, board: &Board<CAP, LEVELS>) -> Bound
        requires { IsOf self.old board.now }
        ensures same { IsSame self.old self.new }
        ensures others { known_of_others self.new ≡ known_of_others self.old }
        ensures ok { BoundsWaiting self.old.sizes.threads (own_steps self.old) (own_steps self.new)
            result }
        ensures live { SeesAllLive self.old.sizes self.old.number (known_of_others self.old)
            (own_steps self.old) (own_steps self.new) result }
        ensures adds { Adds self.old self.new [] [] }
    {
        let mut pause = Pause::on(rt, &board.table.shared);
        for _ in rt.forever() {
            match self.try_bound(board) {
                Ok(bound) => return bound,
                Err(held) => pause.wait(held),
            }
        }
        unreachable!()
    }

    /// Works at no item any more: the one that it deleted last is done with, for whoever asks for a bound. It never
    /// blocks. An answer of nothing does the same, and a deletion sets another item in its place, so this is for a member
    /// that pauses or leaves, once it has inserted all that it made of its item.
    pub fn try_rest(&mut self, board: &Board<CAP, LEVELS>) -> Result<(), Busy>
        requires { IsOf self.old board.now }
        ensures same { IsSame self.old self.new }
        ensures others { known_of_others self.new ≡ known_of_others self.old }
        ensures ok { OnOk result (Rests self.old.number (own_steps self.old) (own_steps self.new)) }
        ensures adds { Adds self.old self.new [] [] }
        ensures busy { IfErr result (MissesRest self.old.number (own_steps self.old)
            (own_steps self.new)) }
        ensures holder { IfErr result (MeetsHolder self.old.sizes self.old.number
            (known_of_others self.old) (own_steps self.new)) }
    {
        let thread = self.number as usize;
        rest_now(&board.table.shared, &mut self.seat, thread)
    }

    /// Works at no item any more. It is `try_rest`, again and again, as long as another has the own part in hand, and it
    /// waits between two tries as `insert` does.
    pub fn rest(&mut self, rt: &impl Wait, board: &Board<CAP, LEVELS>)
        requires { IsOf self.old board.now }
        ensures same { IsSame self.old self.new }
        ensures others { known_of_others self.new ≡ known_of_others self.old }
        ensures ok { RestsWaiting self.old.number (own_steps self.old) (own_steps self.new) }
        ensures adds { Adds self.old self.new [] [] }
    {
        let mut pause = Pause::on(rt, &board.table.shared);
        for _ in rt.forever() {
            match self.try_rest(board) {
                Ok(()) => return,
                Err(taken) => pause.wait(taken),
            }
        }
        unreachable!()
    }

    /// Moves the least items of a victim's part to the own one, where the key of the least of them is below the
    /// front, and that item is smaller than the least own one: at most `most`, as half of what the victim has,
    /// rounded up, and as many as the own part has room for. True where some moved. It never blocks.
    ///
    /// It acquires the own lock, looks at the front, and tries the victim's lock once, without writing to it where a
    /// load finds it held. A member that calls it now and then, each time for the next other member, takes a share of
    /// the small items of all. No bound changes: own parts have at most k items as before. But the own order of a
    /// member speaks of the own part and the shared one, and an item that it inserted lies in neither once another has
    /// stolen it.
    pub fn try_balance(
        &mut self,
        board: &Board<CAP, LEVELS>,
        victim: u32,
        most: usize,
    ) -> Result<bool, Busy>
        requires board { IsOf self.old board.now }
        requires victim { (victim < self.old.sizes.threads) × (victim ≢ self.old.number) }
        ensures same { IsSame self.old self.new }
        ensures others { known_of_others self.new ≡ known_of_others self.old }
        ensures ok { IfOk result (Balances self.old.sizes self.old.number most victim
            (own_steps self.old) (own_steps self.new)) }
        ensures adds { Adds self.old self.new [] [] }
        ensures busy { IfErr result (MissesOwn self.old.number (own_steps self.old)
            (own_steps self.new)) }
        ensures holder { IfErr result (MeetsHolder self.old.sizes self.old.number
            (known_of_others self.old) (own_steps self.new)) }
    {
        let thread = self.number as usize;
        let threads = self.sizes.threads;
        balance_now(
            &board.table.shared,
            &mut self.seat,
            thread,
            threads,
            victim,
            most,
        )
    }
}
