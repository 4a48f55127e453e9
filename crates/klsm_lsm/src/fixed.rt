//! What an LSM over fixed runs offers beside. No call takes memory, and no store moves but in
//! `split_for_spy`.
ghost use Rattle.std.specs.Prelude.{◌≡◌, ◌+◌, ◌-◌, ◌<◌, ◌≤◌, ◌↔◌, ◌∷◌, ◌++◌, [], length, take, drop, slice_index_or, slice_set, IsOk, IfErr, OnOk, OnErr, Some};
ghost use Rattle.std.specs.Option.{option_to_list};
ghost use Rattle.std.specs.List.{AllByRecursion, Contains};
ghost use Rattle.arrayvec.specs.ArrayVec.{array_vec_len};
ghost use Rattle.klsm_run.specs.Capacity.{IsCapacity};
ghost use Rattle.klsm_run.specs.Content.{sorted, IsAscending, ShareNone};
ghost use Rattle.klsm_lsm.specs.Level.{level};
ghost use Rattle.klsm_lsm.specs.Lsm.{content, IsLsm};
ghost use Rattle.klsm_lsm.specs.Limit.{limit_of};
ghost use Rattle.klsm_lsm.specs.Adding.{add};
ghost use Rattle.klsm_lsm.specs.Slots.{block_in, blocks_in};
ghost use Rattle.klsm_lsm.specs.Spying.{spied, left_by_spy};

use crate::{Lsm, LsmError};
use arrayvec::ArrayVec;
use klsm_run::{FixedRun, Item, Run};

impl<const CAP: usize, const LEVELS: usize> Lsm<FixedRun<CAP>, LEVELS> {
    /// Puts an item in that the LSM does not hold.
    // As a call of its own it would read in one piece what its caller has just written in parts,
    // and wait for that.
    #[inline(always)]
    pub fn insert(&mut self, item: Item) -> Result<(), LsmError>
        requires capacity { IsCapacity CAP }
        requires new { ¬ Contains (content self.old) item }
        ensures added { OnOk result (self.new ≡ add self.old (item ∷ [])) }
        ensures room { IsOk result ↔ (length (content self.old) < limit_of LEVELS CAP) }
        ensures full { IfErr result (λ why. why ≡ LsmError.Full) }
        ensures unchanged { OnErr result (self.new ≡ self.old) }
    {
        if self.len >= self.limit() {
            return Err(LsmError::Full);
        }
        put_last(&mut self.slots, self.count, &[item]);
        self.count = carry(self.slots.as_mut_slice(), self.count) + 1;
        self.len += 1;
        Ok(())
    }

    /// Takes from a victim into this LSM, which is empty: the largest block or, where it is the
    /// only one, its greatest half, rounded up. It answers how many items came.
    pub fn spy(&mut self, victim: &mut Self) -> usize
        requires capacity { IsCapacity CAP }
        requires empty { self.old ≡ [] }
        ensures taken { self.new ≡ option_to_list (spied victim.old) }
        ensures rest { victim.new ≡ left_by_spy victim.old }
        ensures count { result ≡ length (content self.new) }
    {
        if victim.blocks() == 0 {
            return 0;
        }
        if victim.blocks() == 1 {
            return self.spy_half(victim);
        }
        // For the proof: the victim's items are within the limit.
        let _known = victim.len();
        self.fill(victim.block(0).as_slice());
        victim.discard_largest();
        self.len()
    }

    // Takes the greatest half of the victim's only block.
    fn spy_half(&mut self, victim: &mut Self) -> usize
        requires capacity { IsCapacity CAP }
        requires empty { self.old ≡ [] }
        requires only { length victim.old ≡ 1 }
        ensures taken { self.new ≡ option_to_list (spied victim.old) }
        ensures rest { victim.new ≡ left_by_spy victim.old }
        ensures count { result ≡ length (content self.new) }
    {
        // For the proof: the victim's items are within the limit.
        let _known = victim.len();
        let items = victim.block(0).as_slice();
        self.fill(&items[items.len() / 2..]);
        victim.lose_half();
        self.len()
    }

    // Puts items into an LSM that has none.
    fn fill(&mut self, items: &[Item])
        requires capacity { IsCapacity CAP }
        requires empty { self.old ≡ [] }
        requires some { 0 < length items.now }
        requires ascending { IsAscending items.now }
        requires limit { length items.now ≤ limit_of LEVELS CAP }
        ensures { self.new ≡ items.now ∷ [] }
    {
        put_last(&mut self.slots, 0, items);
        self.count = 1;
        self.len = items.len();
    }

    // Keeps the least items of the only block.
    fn keep_least(&mut self, kept: usize)
        requires only { length self.old ≡ 1 }
        requires some { 0 < kept }
        requires within { kept ≤ length (slice_index_or self.old 0 []) }
        ensures { self.new ≡ take kept (slice_index_or self.old 0 []) ∷ [] }
    {
        truncate_slot(&mut self.slots.as_mut_slice()[0], kept);
        self.len = kept;
    }

    /// Takes the largest block out or, where it is the only one, its greatest half, rounded up. Its
    /// store moves.
    pub fn split_for_spy(&mut self) -> Option<FixedRun<CAP>>
        ensures given { result ≡ spied self.old }
        ensures rest { self.new ≡ left_by_spy self.old }
    {
        if self.blocks() != 1 {
            return self.take_largest();
        }
        let upper = self.block(0).upper_half();
        self.lose_half();
        Some(upper)
    }

    // Leaves the least half of the only block, rounded down.
    fn lose_half(&mut self)
        requires { length self.old ≡ 1 }
        ensures { self.new ≡ left_by_spy self.old }
    {
        let kept = self.block(0).len() / 2;
        if kept == 0 {
            self.discard_largest();
        } else {
            self.keep_least(kept);
        }
    }
}

// Puts items into the slot behind the blocks.
fn put_last<const CAP: usize, const LEVELS: usize>(
    slots: &mut ArrayVec<Option<FixedRun<CAP>>, LEVELS>,
    count: usize,
    items: &[Item],
)
    requires capacity { IsCapacity CAP }
    requires within { count ≤ array_vec_len slots.old }
    requires levels { count < LEVELS }
    requires ascending { IsAscending items.now }
    requires room { length items.now ≤ CAP }
    ensures blocks { take (count + 1) (blocks_in (λ run. run) slots.new.items)
        ≡ take count (blocks_in (λ run. run) slots.old.items) ++ items.now ∷ [] }
    ensures within { count < array_vec_len slots.new }
{
    open_slot(slots, count);
    set_slot(&mut slots.as_mut_slice()[count], items);
}

// Sees to a slot behind the blocks.
#[inline]
pub(crate) fn open_slot<const CAP: usize, const LEVELS: usize>(
    slots: &mut ArrayVec<Option<FixedRun<CAP>>, LEVELS>,
    count: usize,
)
    requires within { count ≤ array_vec_len slots.old }
    requires levels { count < LEVELS }
    ensures kept { take count slots.new.items ≡ take count slots.old.items }
    ensures within { count < array_vec_len slots.new }
{
    if count == slots.len() {
        slots.push(None);
    }
}

// Puts items into a slot.
pub(crate) fn set_slot<const CAP: usize>(slot: &mut Option<FixedRun<CAP>>, items: &[Item])
    requires capacity { IsCapacity CAP }
    requires ascending { IsAscending items.now }
    requires room { length items.now ≤ CAP }
    ensures { block_in (λ run. run) slot.new ≡ items.now }
{
    if slot.is_none() {
        make_store(slot);
    }
    let Some(run) = slot else {
        unreachable!();
    };
    run.set(items);
}

// Puts a run with no item into a slot. It is kept apart, since a whole store then lies on the stack.
#[cold]
#[inline(never)]
fn make_store<const CAP: usize>(slot: &mut Option<FixedRun<CAP>>)
    requires capacity { IsCapacity CAP }
    ensures { slot.new ≡ Some [] }
{
    *slot = Some(FixedRun::empty());
}

// Keeps the least items in a slot.
fn truncate_slot<const CAP: usize>(slot: &mut Option<FixedRun<CAP>>, kept: usize)
    requires some { 0 < kept }
    requires within { kept ≤ length (block_in (λ run. run) slot.old) }
    ensures { block_in (λ run. run) slot.new ≡ take kept (block_in (λ run. run) slot.old) }
{
    let Some(run) = slot else {
        unreachable!();
    };
    run.truncate(kept);
}

// Carries the run in slot `last` up: while it is of the level of the one before, that one takes it
// in. It answers where the run has come to.
pub(crate) fn carry<const CAP: usize>(slots: &mut [Option<FixedRun<CAP>>], last: usize) -> usize
    requires within { last < length slots.old }
    requires lawful { IsLsm (take last (blocks_in (λ run. run) slots.old)) }
    requires some { 0 < length (slice_index_or (blocks_in (λ run. run) slots.old) last []) }
    requires apart { ShareNone (content (take last (blocks_in (λ run. run) slots.old)))
        (slice_index_or (blocks_in (λ run. run) slots.old) last []) }
    requires room { length (content (take last (blocks_in (λ run. run) slots.old)))
        + length (slice_index_or (blocks_in (λ run. run) slots.old) last []) ≤ CAP }
    requires above { AllByRecursion
        (λ b. level (slice_index_or (blocks_in (λ run. run) slots.old) last []) ≤ level b)
        (take last (blocks_in (λ run. run) slots.old)) }
    ensures within { result ≤ last }
    ensures len { length slots.new ≡ length slots.old }
    ensures added { take (result + 1) (blocks_in (λ run. run) slots.new)
        ≡ add (take last (blocks_in (λ run. run) slots.old))
        (slice_index_or (blocks_in (λ run. run) slots.old) last []) }
    ensures rest { drop (last + 1) (blocks_in (λ run. run) slots.new)
        ≡ drop (last + 1) (blocks_in (λ run. run) slots.old) }
{
    let mut at = last;
    while at > 0 {
        if level_in(slots, at - 1) != level_in(slots, at) {
            break;
        }
        unite_next(slots, at - 1);
        at -= 1;
    }
    at
}

// The level of the run in a slot.
#[inline]
fn level_in<const CAP: usize>(slots: &[Option<FixedRun<CAP>>], at: usize) -> usize
    requires within { at < length slots.now }
    requires some { 0 < length (slice_index_or (blocks_in (λ run. run) slots.now) at []) }
    ensures { result ≡ level (slice_index_or (blocks_in (λ run. run) slots.now) at []) }
{
    let Some(run) = &slots[at] else {
        unreachable!();
    };
    run.level()
}

// Unites the run of a slot with that of the next one, in place. The next slot keeps what it has.
fn unite_next<const CAP: usize>(slots: &mut [Option<FixedRun<CAP>>], at: usize)
    requires within { at + 1 < length slots.old }
    requires some { 0 < length (slice_index_or (blocks_in (λ run. run) slots.old) at []) }
    requires some_next { 0
        < length (slice_index_or (blocks_in (λ run. run) slots.old) (at + 1) []) }
    requires apart { ShareNone (slice_index_or (blocks_in (λ run. run) slots.old) at [])
        (slice_index_or (blocks_in (λ run. run) slots.old) (at + 1) []) }
    requires room { length (slice_index_or (blocks_in (λ run. run) slots.old) at [])
        + length (slice_index_or (blocks_in (λ run. run) slots.old) (at + 1) []) ≤ CAP }
    ensures united { blocks_in (λ run. run) slots.new
        ≡ slice_set (blocks_in (λ run. run) slots.old) at
        (sorted (slice_index_or (blocks_in (λ run. run) slots.old) at []
        ++ slice_index_or (blocks_in (λ run. run) slots.old) (at + 1) [])) }
    ensures len { length slots.new ≡ length slots.old }
{
    let (front, back) = slots.split_at_mut(at + 1);
    let Some(greater) = &mut front[at] else {
        unreachable!();
    };
    let Some(lesser) = &back[0] else {
        unreachable!();
    };
    greater.unite(lesser);
}
