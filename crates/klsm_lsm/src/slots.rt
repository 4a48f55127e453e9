//! The slots in which an LSM stores its blocks.
ghost use Rattle.std.specs.Prelude.{ℕ, ◌≡◌, ◌+◌, ◌-◌, ◌<◌, ◌≤◌, ◌∷◌, ◌++◌, ◌^◌, [], min, length, take, drop, remove, slice_set, slice_index_or, Some, None};
ghost use Rattle.std.specs.Ordering.{ord_min};
ghost use Rattle.arrayvec.specs.ArrayVec.{array_vec_len};
ghost use Rattle.klsm_run.specs.Block.{HasLevel};
ghost use Rattle.klsm_run.specs.Content.{sorted, ShareNone};
ghost use Rattle.klsm_run.specs.ItemOrder.{item_cmp};
ghost use Rattle.klsm_lsm.specs.Lsm.{IsLsm};
ghost use Rattle.klsm_lsm.specs.Adding.{without_items};
ghost use Rattle.klsm_lsm.specs.Slots.{block_in, blocks_in};

use arrayvec::ArrayVec;
use klsm_run::Run;

// The run in a slot of a lawful LSM, none of which is empty.
#[inline]
pub(crate) fn held<R: Run>(slots: &[Option<R>], index: usize) -> &R
    requires lawful { IsLsm (blocks_in R.items slots.now) }
    requires index { index < length slots.now }
    ensures block { R.items result.now ≡ slice_index_or (blocks_in R.items slots.now) index [] }
    ensures some { 0 < length (R.items result.now) }
{
    let Some(run) = &slots[index] else {
        unreachable!();
    };
    run
}

// Puts a run in the place of the blocks from `start` up to `end`.
pub(crate) fn replace<R: Run, const LEVELS: usize>(
    slots: &mut ArrayVec<Option<R>, LEVELS>,
    start: usize,
    end: usize,
    run: R,
)
    requires order { start ≤ end }
    requires within { end ≤ array_vec_len slots.old }
    requires room { start + (array_vec_len slots.old - end) < LEVELS }
    ensures { slots.new.items ≡ take start slots.old.items ++ Some run ∷ drop end slots.old.items }
{
    let mut last = end;
    while start < last {
        last -= 1;
        let _merged = slots.remove(last);
    }
    slots.insert(start, Some(run));
}

// Takes items out of the run in a slot.
#[inline]
pub(crate) fn remove_in_slot<R: Run>(slots: &mut [Option<R>], at: usize, from: usize, count: usize)
    requires at { at < length slots.old }
    requires some { 0 < length (slice_index_or (blocks_in R.items slots.old) at []) }
    requires within { from + count ≤ length (slice_index_or (blocks_in R.items slots.old) at []) }
    requires one { 0 < from → count ≡ 1 }
    ensures { blocks_in R.items slots.new ≡ slice_set (blocks_in R.items slots.old) at
        (without_items (slice_index_or (blocks_in R.items slots.old) at []) from count) }
{
    let Some(run) = &mut slots[at] else {
        unreachable!();
    };
    remove_from(run, from, count);
}

// Takes items out of the run in a slot, and unites it with that of the next slot, in place.
pub(crate) fn remove_in_slot_and_unite<R: Run>(
    slots: &mut [Option<R>],
    at: usize,
    from: usize,
    count: usize,
)
    requires at { at + 1 < length slots.old }
    requires within { from + count ≤ length (slice_index_or (blocks_in R.items slots.old) at []) }
    requires one { 0 < from → count ≡ 1 }
    requires left { count < length (slice_index_or (blocks_in R.items slots.old) at []) }
    requires some { 0 < length (slice_index_or (blocks_in R.items slots.old) (at + 1) []) }
    requires apart { ShareNone (slice_index_or (blocks_in R.items slots.old) at [])
        (slice_index_or (blocks_in R.items slots.old) (at + 1) []) }
    requires room { (l : ℕ)
        → HasLevel l (length (slice_index_or (blocks_in R.items slots.old) at []))
        → length (slice_index_or (blocks_in R.items slots.old) at []) - count
        + length (slice_index_or (blocks_in R.items slots.old) (at + 1) []) ≤ min R.ROOM (2 ^ l) }
    ensures { blocks_in R.items slots.new ≡ slice_set (blocks_in R.items slots.old) at
        (sorted (without_items (slice_index_or (blocks_in R.items slots.old) at []) from count
        ++ slice_index_or (blocks_in R.items slots.old) (at + 1) [])) }
{
    let (front, back) = slots.split_at_mut(at + 1);
    let Some(run) = &mut front[at] else {
        unreachable!();
    };
    let Some(next) = &back[0] else {
        unreachable!();
    };
    remove_and_unite(run, from, count, next);
}

// Takes items out of a run, and unites it with the next block, which is of no lesser level than what
// is left.
fn remove_and_unite<R: Run>(run: &mut R, from: usize, count: usize, next: &R)
    requires within { from + count ≤ length (R.items run.old) }
    requires one { 0 < from → count ≡ 1 }
    requires left { count < length (R.items run.old) }
    requires apart { ShareNone (R.items run.old) (R.items next.now) }
    requires room { (l : ℕ) → HasLevel l (length (R.items run.old))
        → length (R.items run.old) - count + length (R.items next.now) ≤ min R.ROOM (2 ^ l) }
    ensures { R.items run.new
        ≡ sorted (without_items (R.items run.old) from count ++ R.items next.now) }
{
    // For the proof: the store has room for a whole block of the level before, so for both.
    let _known = run.level();
    let _known = run.capacity();
    remove_from(run, from, count);
    run.unite(next);
}

// Takes items out of a run, from a place on: the first ones, which is a matter of where the run
// starts, or one.
#[inline]
fn remove_from<R: Run>(run: &mut R, from: usize, count: usize)
    requires within { from + count ≤ length (R.items run.old) }
    requires one { 0 < from → count ≡ 1 }
    ensures rest { R.items run.new ≡ without_items (R.items run.old) from count }
    ensures capacity { R.capacity run.new ≡ R.capacity run.old }
{
    if from == 0 {
        run.remove_first(count);
    } else {
        let _item = run.remove_at(from);
    }
}

// Closes the gap of a block that is gone: each block behind it moves to the slot before.
pub(crate) fn close_gap<R: Run>(slots: &mut [Option<R>], at: usize, count: usize)
    requires at { at < count }
    requires within { count ≤ length slots.old }
    ensures moved { take (count - 1) (blocks_in R.items slots.new)
        ≡ remove (take count (blocks_in R.items slots.old)) at }
    ensures len { length slots.new ≡ length slots.old }
{
    close_up(slots, at + 1, at, count - 1 - at);
}

// Moves so many runs from a place on to the slots from another on, which is not behind it.
pub(crate) fn close_up<R: Run>(slots: &mut [Option<R>], from: usize, to: usize, count: usize)
    requires order { to ≤ from }
    requires within { from + count ≤ length slots.old }
    ensures moved { take (to + count) (blocks_in R.items slots.new)
        ≡ take to (blocks_in R.items slots.old)
        ++ take count (drop from (blocks_in R.items slots.old)) }
    ensures len { length slots.new ≡ length slots.old }
{
    if to == from {
        return;
    }
    for moved in 0..count {
        move_to(slots, from + moved, to + moved);
    }
}

// Moves the run of a slot to the next one.
pub(crate) fn move_on<R: Run>(slots: &mut [Option<R>], at: usize)
    requires { at + 1 < length slots.old }
    ensures moved { blocks_in R.items slots.new
        ≡ slice_set (slice_set (blocks_in R.items slots.old) at []) (at + 1)
        (slice_index_or (blocks_in R.items slots.old) at []) }
    ensures len { length slots.new ≡ length slots.old }
{
    let (front, back) = slots.split_at_mut(at + 1);
    take_run(&mut back[0], &mut front[at]);
}

// Moves the run of a slot to one before it.
fn move_to<R: Run>(slots: &mut [Option<R>], from: usize, to: usize)
    requires order { to < from }
    requires within { from < length slots.old }
    ensures moved { blocks_in R.items slots.new
        ≡ slice_set (slice_set (blocks_in R.items slots.old) to
        (slice_index_or (blocks_in R.items slots.old) from [])) from [] }
    ensures len { length slots.new ≡ length slots.old }
{
    let (front, back) = slots.split_at_mut(from);
    take_run(&mut front[to], &mut back[0]);
}

// Moves what is in a slot to another one. It is kept apart, since a whole store may then lie on the stack.
#[cold]
#[inline(never)]
fn move_store<R: Run>(slot: &mut Option<R>, other: &mut Option<R>)
    ensures moved { slot.new ≡ other.old }
    ensures none { other.new ≡ None }
{
    *slot = other.take();
}

// Takes the run of another slot. Where both have stores, these stay.
fn take_run<R: Run>(slot: &mut Option<R>, other: &mut Option<R>)
    ensures taken { block_in R.items slot.new ≡ block_in R.items other.old }
    ensures emptied { block_in R.items other.new ≡ [] }
{
    if slot.is_none() || other.is_none() {
        move_store(slot, other);
        return;
    }
    let Some(run) = slot else {
        unreachable!();
    };
    let Some(given) = other else {
        unreachable!();
    };
    run.take_from(given);
}
