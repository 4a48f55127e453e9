//! The queue for one thread.
ghost use Rattle.std.specs.Prelude.{◌≡◌, ◌+◌, ◌-◌, ◌<◌, ◌≤◌, ◌^◌, ◌↔◌, ◌∷◌, [], length, Some, None, IsTrue, IsOk, IfOk, OnOk, OnErr, IsErrAnd, IfSome, MatchOption};
ghost use Rattle.std.specs.List.{All, Contains};
ghost use Rattle.klsm_run.specs.Capacity.{IsCapacity, heap_room};
ghost use Rattle.klsm_run.specs.Content.{sorted, IsAscending, ShareNone};
ghost use Rattle.klsm_lsm.specs.Lsm.{content, IsLsm};
ghost use Rattle.klsm_lsm.specs.Limit.{IsLevelCount, limit_of};
ghost use Rattle.klsm_parts.specs.Taking.{Leaves};
ghost use Rattle.klsm_parts.specs.Queues.{QueueState, IsNumbered, IsQueue, items_of, least_of, next_item, Joins, HaveNoPlace, IsFull};

use crate::taking::is_smaller_own;
use crate::{First, Local, Shared, Unions, flush, put, take};
use klsm_lsm::LsmError;
use klsm_run::{Item, Stamp};
use std::alloc::{Allocator, Global};
use std::fmt;
use std::marker::Model;

// The owner of all items of a queue.
const OWNER: u32 = 0;

/// A priority queue for one thread: an own part and a shared one, of which a deletion looks at both. Deletions are exact: each
/// gives the least item. `k` says how many items lie in the own part before some move to the shared one.
///
/// `CAP` is at least k, and at most `MOST_K`. `LEVELS` says how many items the shared part can hold:
/// `2^(LEVELS-1)`, so 1,048,576 with 21.
#[derive(Drop)]
pub struct Queue<const CAP: usize, const LEVELS: usize, A: Allocator + Copy = Global> {
    own: Local<CAP>,
    shared: Shared<LEVELS, A>,
    unions: Unions<A>,
    // How many items were inserted, which is the number of the next one.
    inserted: u64,
}

impl<const CAP: usize, const LEVELS: usize, A: Allocator + Copy> Model for Queue<CAP, LEVELS, A> {
    ghost Value = { QueueState };

    ghost view = { λ queue.
        record { own = queue.own; shared = queue.shared; inserted = queue.inserted } };

    ghost invariant = { λ queue. IsQueue CAP LEVELS
        (record { own = queue.own; shared = queue.shared; inserted = queue.inserted }) };
}

impl<const CAP: usize, const LEVELS: usize, A: Allocator + Copy> Queue<CAP, LEVELS, A> {
    /// The queue with no item, whose own part is to hold at most `k`. `alloc` is what the shared part will take memory from.
    pub fn new(alloc: A, k: usize) -> Self
        requires capacity { IsCapacity CAP }
        requires levels { IsLevelCount LEVELS }
        requires k { k ≤ CAP }
        ensures none { items_of result ≡ [] }
        ensures k { result.own.k ≡ k }
        ensures inserted { result.inserted ≡ 0 }
    {
        Queue {
            own: Local::new(k),
            shared: Shared::new(alloc, k),
            unions: Unions::new(alloc),
            inserted: 0,
        }
    }

    /// How many items the own part may hold.
    #[inline]
    pub fn k(&self) -> usize
        ensures k { result ≡ self.now.own.k }
        ensures same { self.now.shared.k ≡ self.now.own.k }
        ensures within { self.now.own.k ≤ CAP }
    {
        self.own.k()
    }

    /// How many items were inserted since the queue was made.
    #[inline]
    pub fn inserted(&self) -> u64
        ensures { result ≡ self.now.inserted }
    {
        self.inserted
    }

    /// The number of items. No item is there twice, and each bears a number that was given out
    /// before.
    #[inline]
    pub fn len(&self) -> usize
        ensures len { result ≡ length (items_of self.now) }
        ensures ascending { IsAscending (items_of self.now) }
        ensures numbered { All (IsNumbered self.now.inserted) (items_of self.now) }
    {
        self.own.len() + self.shared.len()
    }

    /// Whether there is no item.
    #[inline]
    pub fn is_empty(&self) -> bool
        ensures { IsTrue result ↔ (items_of self.now ≡ []) }
    {
        self.len() == 0
    }

    /// The least item, if there is one. It costs one comparison a block.
    pub fn least(&self) -> Option<Item>
        ensures { result ≡ least_of self.now }
    {
        let least_own = self.own.least();
        let Some(least_shared) = self.shared.least() else {
            return least_own;
        };
        if is_smaller_own(least_own, least_shared) {
            return least_own;
        }
        Some(least_shared)
    }

    /// The own part, of at most k items.
    #[inline]
    pub fn own(&self) -> &Local<CAP>
        ensures { result.now ≡ self.now.own }
    {
        &self.own
    }

    /// The shared part, with all other items.
    #[inline]
    pub fn shared(&self) -> &Shared<LEVELS, A>
        ensures { result.now ≡ self.now.shared }
    {
        &self.shared
    }

    /// Takes the queue apart.
    pub fn into_parts(self) -> (Local<CAP>, Shared<LEVELS, A>)
        ensures own { result.0 ≡ self.own }
        ensures shared { result.1 ≡ self.shared }
    {
        (self.own, self.shared)
    }

    /// Inserts an item of this key, which carries `load`, and answers it. Its stamp tells it from
    /// all other items of the queue: its owner is 0, and its number how many items were inserted
    /// before.
    ///
    /// Only an insertion that finds k items in the own part takes memory. It costs what `put` does,
    /// or else `flush`.
    pub fn insert(&mut self, key: u64, load: u64) -> Result<Item, LsmError>
        ensures item { IfOk result (λ item. item ≡ next_item self.old key load) }
        ensures items { OnOk result (items_of self.new
            ≡ sorted (next_item self.old key load ∷ items_of self.old)) }
        ensures count { OnOk result (length (items_of self.new) ≡ length (items_of self.old) + 1) }
        ensures inserted { OnOk result (self.new.inserted ≡ self.old.inserted + 1) }
        ensures k { self.new.own.k ≡ self.old.own.k }
        ensures parts { OnOk result
            (Joins (next_item self.old key load)
            self.old.own self.new.own self.old.shared self.new.shared) }

        // A refusal changes nothing. It is for want of room exactly where there is none, so never
        // while there are fewer items than the shared part can hold and numbers are left. Else it
        // is for want of memory, of which a put takes none.
        ensures full { IsErrAnd result (λ why. why ≡ LsmError.Full)
            ↔ IsFull LEVELS (next_item self.old key load) self.old }
        ensures room { length (items_of self.old) < limit_of LEVELS heap_room
            → self.old.inserted < 2 ^ 64 - 1
            → ¬ IsErrAnd result (λ why. why ≡ LsmError.Full) }
        ensures put { length (content self.old.own.blocks) < self.old.own.k
            → self.old.inserted < 2 ^ 64 - 1
            → IsOk result }
        ensures unchanged { OnErr result (self.new ≡ self.old) }
    {
        let Some(next) = self.inserted.checked_add(1) else {
            return Err(LsmError::Full);
        };
        let item = item_of(key, self.inserted, load);
        match put_or_flush(&mut self.own, &mut self.shared, &mut self.unions, item) {
            Ok(()) => {
                self.inserted = next;
                Ok(item)
            }
            Err(why) => Err(why),
        }
    }

    /// Deletes the least item and answers it. `None` where there is no item.
    ///
    /// All items of a queue have one owner, so a deletion by `take` skips none of them, whatever a picker says; this asks
    /// none. It takes no memory, and costs what `take` does.
    pub fn delete_min(&mut self) -> Option<Item>
        ensures least { result ≡ least_of self.old }
        ensures items { MatchOption result
            ((items_of self.old ≡ []) × (self.new ≡ self.old))
            (λ item. items_of self.old ≡ item ∷ items_of self.new) }
        ensures parts { IfSome result
            (λ item. Leaves item self.old.own self.new.own self.old.shared self.new.shared) }
        ensures k { self.new.own.k ≡ self.old.own.k }
        ensures inserted { self.new.inserted ≡ self.old.inserted }
    {
        self.unions.carry_on_in_place();
        take(OWNER, &mut self.own, &mut self.shared, &mut First)
    }
}

/// It prints both parts, and how many items were inserted.
impl<const CAP: usize, const LEVELS: usize, A: Allocator + Copy> fmt::Debug
    for Queue<CAP, LEVELS, A> {
    fn fmt<W: fmt::Write>(&self, f: &mut fmt::Formatter<W>) -> fmt::Result {
        f.debug_struct("Queue")
            .field("own", &self.own)
            .field("shared", &self.shared)
            .field("inserted", &self.inserted)
            .finish()
    }
}

// The item of a key and a load that is inserted after `number` others.
#[inline]
fn item_of(key: u64, number: u64, load: u64) -> Item
    ensures { result
        ≡ record { key = key; stamp = record { owner = 0; number = number }; load = load } }
{
    Item {
        key,
        stamp: Stamp {
            owner: OWNER,
            number,
        },
        load,
    }
}

// Puts an item into the own part, or flushes where that is full.
fn put_or_flush<const CAP: usize, const LEVELS: usize, A: Allocator + Copy>(
    own: &mut Local<CAP>,
    shared: &mut Shared<LEVELS, A>,
    unions: &mut Unions<A>,
    item: Item,
) -> Result<(), LsmError>
    requires capacity { IsCapacity CAP }
    requires apart { ShareNone (content own.old.blocks) (content shared.old.blocks) }
    requires new_to_own { ¬ Contains (content own.old.blocks) item }
    requires new_to_shared { ¬ Contains (content shared.old.blocks) item }
    ensures lawful { IsLsm own.old.blocks }
    ensures joins { OnOk result (Joins item own.old own.new shared.old shared.new) }
    ensures full { IsErrAnd result (λ why. why ≡ LsmError.Full)
        ↔ HaveNoPlace LEVELS item own.old shared.old }
    ensures put { length (content own.old.blocks) < own.old.k → IsOk result }
    ensures unchanged { OnErr result ((own.new ≡ own.old) × (shared.new ≡ shared.old)) }
{
    if own.len() < own.k() {
        put(own, item);
        unions.carry_on_in_place();
        return Ok(());
    }
    unions.prepare();
    let answer = flush(own, shared, item);
    unions.exchange(shared);
    unions.carry_on();
    answer
}
