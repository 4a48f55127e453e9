//! What every run offers, whatever its store.
ghost use Rattle.std.specs.Prelude.{◌≡◌, ℕ, ◌+◌, ◌<◌, ◌≤◌, ◌↔◌, ◌^◌, ◌++◌, Bool, List, [], length, drop, remove, slice_get, Some, IsTrue, IsOk, IfOk};
ghost use Rattle.klsm_run.specs.declared.item.Item.{Item};
ghost use Rattle.klsm_run.specs.Content.{sorted, IsAscending, ShareNone};
ghost use Rattle.klsm_run.specs.Block.{IsBlock, HasLevel};
ghost use Rattle.klsm_run.specs.Capacity.{heap_room, IsRunCapacity};

use crate::Item;
use thiserror::Error;

/// Why a run was not made.
#[derive(Clone, Copy, Debug, PartialEq, Eq, Error)]
pub enum RunError {
    /// A growth was refused.
    #[error("out of memory")]
    NoMemory,
}

/// A run: a list of items, ascending without repeats, of at most `ROOM` items.
pub trait Run: Drop {
    /// How many items one run can hold.
    const ROOM: usize;

    ghost ROOM: { ℕ };

    /// The run as a list.
    ghost items: { Self → List Item };

    /// How many items its store has places for.
    ghost capacity: { Self → ℕ };

    /// Which capacity a run may have that was made to hold so many items.
    ghost may_reserve: { ℕ → ℕ → Type 0 };

    /// Whether the store is fixed, so that no call takes memory.
    ghost is_fixed: { Bool };

    /// The number of items. Every run is ascending and within its room, which is `MOST_SHARED` at most.
    fn len(&self) -> usize
        ensures len { result ≡ length (items self.now) }
        ensures room { length (items self.now) ≤ ROOM }
        ensures most { ROOM ≤ heap_room }
        ensures ascending { IsAscending (items self.now) };

    /// Whether there is no item.
    #[inline]
    fn is_empty(&self) -> bool
        ensures { IsTrue result ↔ (items self.now ≡ []) }
    {
        self.len() == 0
    }

    /// How many items its store has places for: `ROOM` or a power of two, and enough for a block of
    /// its level.
    fn capacity(&self) -> usize
        ensures capacity { result ≡ capacity self.now }
        ensures lawful { IsRunCapacity ROOM (length (items self.now)) (capacity self.now) };

    /// The items, the least first.
    fn as_slice(&self) -> &[Item]
        ensures items { result.now ≡ items self.now }
        ensures ascending { IsAscending (items self.now) }
        ensures room { length (items self.now) ≤ ROOM };

    /// Item `index`, counted from the least. It costs one access.
    fn item_at(&self, index: usize) -> Item
        requires { index < length (items self.now) }
        ensures { slice_get (items self.now) index ≡ Some result };

    /// The level of a run that is not empty: the least `l` such that the run has at most `2^l`
    /// items.
    fn level(&self) -> usize
        requires { 0 < length (items self.now) }
        ensures enough { length (items self.now) ≤ 2 ^ result }
        ensures least { (l : ℕ) → length (items self.now) ≤ 2 ^ l → result ≤ l }
        ensures block { IsBlock result (items self.now) };

    /// Takes item `index` out. The items on the shorter side of it move, so that the least leaves
    /// with no move.
    fn remove_at(&mut self, index: usize) -> Item
        requires { index < length (items self.old) }
        ensures item { slice_get (items self.old) index ≡ Some result }
        ensures rest { items self.new ≡ remove (items self.old) index }
        ensures capacity { capacity self.new ≡ capacity self.old };

    /// Takes the least items out, so many of them. No item moves.
    fn remove_first(&mut self, count: usize)
        requires { count ≤ length (items self.old) }
        ensures rest { items self.new ≡ drop count (items self.old) }
        ensures capacity { capacity self.new ≡ capacity self.old };

    /// Puts the items of another run in, in place. It takes no memory, and stops at the least item
    /// of the other run.
    fn unite(&mut self, other: &Self)
        requires apart { ShareNone (items self.old) (items other.now) }
        requires room { length (items self.old) + length (items other.now) ≤ capacity self.old }
        ensures union { items self.new ≡ sorted (items self.old ++ items other.now) }
        ensures capacity { capacity self.new ≡ capacity self.old };

    /// Takes all items of another run in place of its own. It takes no memory.
    fn take_from(&mut self, other: &mut Self)
        ensures items { items self.new ≡ items other.old }
        ensures emptied { items other.new ≡ [] }
        ensures capacity { capacity self.new ≡ capacity other.old }
        ensures given { capacity other.new ≡ capacity self.old };

    /// A run of the same items that can hold `count`. It costs one copy of each item, and one
    /// growth where the store is not fixed.
    fn copy_for(&self, count: usize) -> Result<Self, RunError>
    where
        Self: Sized,
        requires holds { length (items self.now) ≤ count }
        requires room { count ≤ ROOM }
        ensures items { IfOk result (λ copy. items copy ≡ items self.now) }
        ensures reserved { IfOk result (λ copy. may_reserve count (capacity copy)) }
        ensures enough { IfOk result (λ copy. count ≤ capacity copy) }
        ensures fixed { IsTrue is_fixed → IsOk result };

    /// The items of both runs, in order, in a store of their own. It costs one copy of each item,
    /// and one growth where the store is not fixed.
    fn merge(&self, other: &Self) -> Result<Self, RunError>
    where
        Self: Sized,
        requires apart { ShareNone (items self.now) (items other.now) }
        requires room { length (items self.now) + length (items other.now) ≤ ROOM }
        ensures union { IfOk result (λ both.
            items both ≡ sorted (items self.now ++ items other.now)) }
        ensures reserved { IfOk result (λ both.
            may_reserve (length (items self.now) + length (items other.now)) (capacity both)) }
        ensures fixed { IsTrue is_fixed → IsOk result }
    {
        let mut both = self.copy_for(self.len() + other.len())?;
        both.unite(other);
        Ok(both)
    }
}

/// The level of a block of `len` items.
pub fn level_of(len: usize) -> usize
    requires { 0 < len }
    ensures enough { len ≤ 2 ^ result }
    ensures least { (l : ℕ) → len ≤ 2 ^ l → result ≤ l }
    ensures level { HasLevel result len }
{
    if len == 1 {
        return 0;
    }
    (len - 1).ilog2() as usize + 1
}
