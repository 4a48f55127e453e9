//! The plain board: the rules over lists of items, in one thread, as slow as they read. It calls
//! nothing of the code under test.

use crate::queues::same_items;
use crate::rules::{Blocks, Pick, add, chosen, remove, sorted, spied};
use klsm_board::{Account, Bound, Busy, HoldError};
use klsm_run::{Item, Stamp};
use std::alloc::Global;

/// What a member has for itself, how many items it inserted, and the key of the item that it works at: the one that it
// deleted last, unless it found none since, or rested. The greatest number stands for none.
#[derive(Drop)]
struct Own {
    blocks: Blocks,
    inserted: u64,
    work: u64,
}

/// The members' own parts, the shared part, and which lock is held, if one is.
#[derive(Drop)]
pub(super) struct Plain {
    alloc: Global,
    k: usize,
    refill: usize,
    owns: Vec<Own>,
    /// Ascending.
    shared: Vec<Item>,
    /// As those are answered who try the lock.
    pub held: Option<Busy>,
    deleted: u64,
    /// How many deletions there were by the front, while the shared part was held.
    pub early: u64,
    /// How often items moved from another member's part.
    pub spied: u64,
    /// How often they moved from the shared part.
    pub refilled: u64,
    /// How often they moved from another member's part at a balance.
    pub stolen: u64,
    /// How often they moved to the shared part at a sharing.
    pub given: u64,
    /// How often a member that worked at an item rested.
    pub rested: u64,
}

impl Plain {
    /// A board with no item.
    pub(super) fn new(alloc: Global, threads: u32, k: usize, refill: usize) -> Option<Self> {
        let mut owns = Vec::new(alloc);
        for _ in 0..threads {
            let blocks = Vec::new(alloc);
            owns.push(Own {
                blocks,
                inserted: 0,
                work: u64::MAX,
            })
            .ok()?;
        }
        Some(Plain {
            alloc,
            k,
            refill,
            owns,
            shared: Vec::new(alloc),
            held: None,
            deleted: 0,
            early: 0,
            spied: 0,
            refilled: 0,
            stolen: 0,
            given: 0,
            rested: 0,
        })
    }

    // What one who tries a lock is answered, if it is held.
    fn busy(&self, lock: usize) -> Option<Busy> {
        match self.held {
            Some(busy) if busy.lock == lock => Some(busy),
            _ => None,
        }
    }

    // The items of a member's own part, ascending.
    fn own_items(&self, member: u32) -> Option<Vec<Item>> {
        let own = self.owns.get(member as usize)?;
        sorted(self.alloc, &own.blocks).ok()
    }

    // The key of the least shared item, and the greatest number where there is none.
    fn front(&self) -> u64 {
        key_of(self.shared.first().copied())
    }

    /// How a member's insertion ends.
    pub(super) fn insert(
        &mut self,
        member: u32,
        key: u64,
        load: u64,
    ) -> Option<Result<Stamp, Busy>> {
        let is_full = self.own_items(member)?.len() >= self.k;
        if let Some(busy) = self.busy(own_lock(member)) {
            return Some(Err(busy));
        }
        if let Some(busy) = self.busy(0)
            && is_full
        {
            return Some(Err(busy));
        }
        let own = self.owns.get_mut(member as usize)?;
        let stamp = next_stamp(member, own);
        let item = Item { key, stamp, load };
        join(self.alloc, &mut own.blocks, &mut self.shared, is_full, item)?;
        Some(Ok(stamp))
    }

    /// How a member's deletion ends, by a picker that picks so.
    pub(super) fn delete(&mut self, member: u32, pick: Pick) -> Option<Result<Option<Item>, Busy>> {
        if let Some(busy) = self.busy(own_lock(member)) {
            return Some(Err(busy));
        }
        let least = self.least_own(member)?;
        if self.is_below_front(least) {
            return Some(Ok(self.take_early(member, least)?));
        }
        match self.busy(0) {
            Some(busy) => Some(Err(busy)),
            None => Some(Ok(self.take_any(member, least, pick)?)),
        }
    }

    /// The same by a deletion behind which no items move.
    pub(super) fn delete_alone(
        &mut self,
        member: u32,
        pick: Pick,
    ) -> Option<Result<Option<Item>, Busy>> {
        let refill = self.refill;
        self.refill = 0;
        let answer = self.delete(member, pick);
        self.refill = refill;
        answer
    }

    // The least item of a member's own part.
    fn least_own(&self, member: u32) -> Option<Option<Item>> {
        Some(self.own_items(member)?.first().copied())
    }

    // Whether there is such an item, and its key is below the front.
    fn is_below_front(&self, least: Option<Item>) -> bool {
        match least {
            Some(own) => own.key < self.front(),
            None => false,
        }
    }

    // Takes the least own item by the front.
    fn take_early(&mut self, member: u32, least: Option<Item>) -> Option<Option<Item>> {
        if self.busy(0).is_some() {
            self.early = self.early.saturating_add(1);
        }
        self.take_out(member, least)
    }

    // Takes an item with both parts in hand, after a spy where both are empty.
    fn take_any(&mut self, member: u32, least: Option<Item>, pick: Pick) -> Option<Option<Item>> {
        if least.is_none() && self.shared.is_empty() {
            self.spy(member)?;
        }
        self.take(member, pick)
    }

    // Takes what a deletion takes with both parts in hand, and moves more where that was shared.
    fn take(&mut self, member: u32, pick: Pick) -> Option<Option<Item>> {
        let least = self.least_own(member)?;
        let count = self.k.saturating_add(1).min(self.shared.len());
        let item = chosen(least, &self.shared[..count], member, pick);
        let before = self.shared.len();
        let taken = self.take_out(member, item)?;
        if self.shared.len() < before {
            self.refill_part(member)?;
        }
        Some(taken)
    }

    // Moves the least shared items to a member's part: as many as the board says, and as half the room
    // there is for.
    fn refill_part(&mut self, member: u32) -> Option<()> {
        let room = self.k.saturating_sub(self.own_items(member)?.len());
        let half = room.saturating_sub(room / 2);
        let count = self.refill.min(half).min(self.shared.len());
        if count == 0 {
            return Some(());
        }
        let moved = self.shared[..count].to_vec(self.alloc).ok()?;
        self.shared.retain(|item| !moved.contains(item));
        self.refilled = self.refilled.saturating_add(1);
        add(&mut self.owns.get_mut(member as usize)?.blocks, moved).ok()
    }

    // Takes an item out of the member's own part and the shared one, if there is one. The member then works at it.
    fn take_out(&mut self, member: u32, item: Option<Item>) -> Option<Option<Item>> {
        let own = self.owns.get_mut(member as usize)?;
        own.work = key_of(item);
        if let Some(item) = item {
            remove(&mut own.blocks, item).ok()?;
            self.shared.retain(|other| *other != item);
            self.deleted = self.deleted.saturating_add(1);
        }
        Some(item)
    }

    // Moves items to a member's part, which is empty, from the first of the others that has some and
    // is not held.
    fn spy(&mut self, member: u32) -> Option<()> {
        let threads = u32::try_from(self.owns.len()).ok()?;
        for step in 1..threads {
            let victim = member.saturating_add(step) % threads;
            if self.busy(own_lock(victim)).is_none() && self.spy_on(member, victim)? {
                return Some(());
            }
        }
        Some(())
    }

    // Moves items from a victim's part, if it has some.
    fn spy_on(&mut self, member: u32, victim: u32) -> Option<bool> {
        let from = self.owns.get_mut(victim as usize)?;
        let moved = spied(self.alloc, &mut from.blocks).ok()?;
        if moved.is_empty() {
            return Some(false);
        }
        self.owns.get_mut(member as usize)?.blocks.push(moved).ok()?;
        self.spied = self.spied.saturating_add(1);
        Some(true)
    }

    /// How a member's sharing of its items ends.
    pub(super) fn share(&mut self, member: u32) -> Option<Result<usize, Busy>> {
        if let Some(busy) = self.busy(own_lock(member)) {
            return Some(Err(busy));
        }
        let items = self.own_items(member)?;
        if items.is_empty() {
            return Some(Ok(0));
        }
        if let Some(busy) = self.busy(0) {
            return Some(Err(busy));
        }
        self.owns.get_mut(member as usize)?.blocks.clear();
        share(&mut self.shared, items.as_slice())?;
        self.given = self.given.saturating_add(1);
        Some(Ok(items.len()))
    }

    /// How a bound ends: the least key of all items, that of all items which members work at, and how many items there
    /// are. It needs all locks.
    pub(super) fn bound(&self) -> Option<Result<Bound, Busy>> {
        if let Some(busy) = self.held {
            return Some(Err(busy));
        }
        let mut queue = self.front();
        let mut work = u64::MAX;
        let mut count = self.shared.len();
        for own in self.owns.as_slice() {
            let owned = sorted(self.alloc, &own.blocks).ok()?;
            queue = queue.min(key_of(owned.first().copied()));
            work = work.min(own.work);
            count = count.saturating_add(owned.len());
        }
        Some(Ok(Bound {
            queue,
            work,
            items: count,
        }))
    }

    /// How a member's rest ends.
    pub(super) fn rest(&mut self, member: u32) -> Option<Result<(), Busy>> {
        if let Some(busy) = self.busy(own_lock(member)) {
            return Some(Err(busy));
        }
        let own = self.owns.get_mut(member as usize)?;
        if own.work < u64::MAX {
            own.work = u64::MAX;
            self.rested = self.rested.saturating_add(1);
        }
        Some(Ok(()))
    }

    /// How a member's balance with a victim ends that may move so many items.
    pub(super) fn balance(
        &mut self,
        member: u32,
        victim: u32,
        most: usize,
    ) -> Option<Result<bool, Busy>> {
        if let Some(busy) = self.busy(own_lock(member)) {
            return Some(Err(busy));
        }
        let from = self.own_items(victim)?;
        if self.busy(own_lock(victim)).is_some() || !self.gains(member, from.first().copied())? {
            return Some(Ok(false));
        }
        let half = from.len().saturating_sub(from.len() / 2);
        let room = self.k.saturating_sub(self.own_items(member)?.len());
        let count = most.min(half).min(room);
        for item in &from[..count] {
            self.steal(member, victim, *item)?;
        }
        self.stolen = self.stolen.saturating_add(u64::from(count > 0));
        Some(Ok(count > 0))
    }

    // Whether there is such an item of a victim, its key is below the front, and it is smaller than the least of the
    // member's own part.
    fn gains(&self, member: u32, theirs: Option<Item>) -> Option<bool> {
        let is_smaller = match (theirs, self.least_own(member)?) {
            (Some(item), Some(own)) => item < own,
            _ => true,
        };
        Some(is_smaller && self.is_below_front(theirs))
    }

    // Moves an item from a victim's part to a member's.
    fn steal(&mut self, member: u32, victim: u32, item: Item) -> Option<()> {
        remove(&mut self.owns.get_mut(victim as usize)?.blocks, item).ok()?;
        let own = self.owns.get_mut(member as usize)?;
        add(&mut own.blocks, [item].to_vec(self.alloc).ok()?).ok()
    }

    /// Whether a member cannot hold a part, and why.
    pub(super) fn hold(&mut self, member: u32, lock: usize) -> Result<(), HoldError> {
        if lock > self.owns.len() {
            return Err(HoldError::NoSuchLock);
        }
        if let Some(busy) = self.busy(lock) {
            return Err(HoldError::Busy(busy));
        }
        self.held = Some(Busy { lock, by: member });
        Ok(())
    }

    /// How many items a part has, and the least.
    pub(super) fn sight(&self, lock: usize) -> Option<(usize, Option<Item>)> {
        let Some(member) = lock.checked_sub(1) else {
            return Some((self.shared.len(), self.shared.first().copied()));
        };
        let items = self.own_items(u32::try_from(member).ok()?)?;
        Some((items.len(), items.first().copied()))
    }

    // The items of all parts, ascending.
    fn left(&self) -> Option<Vec<Item>> {
        let mut left = self.shared.clone().ok()?;
        for own in &self.owns {
            left.extend_from_slice(sorted(self.alloc, &own.blocks).ok()?.as_slice())
                .ok()?;
        }
        left.sort_unstable();
        Some(left)
    }

    // How many items were inserted.
    fn inserted(&self) -> u64 {
        let mut inserted: u64 = 0;
        for own in &self.owns {
            inserted = inserted.saturating_add(own.inserted);
        }
        inserted
    }

    /// Whether an account tells of its insertions and deletions, and of what is left.
    pub(super) fn has_account(&self, account: &Account) -> Option<bool> {
        let counts = account.inserted == self.inserted() && account.deleted == self.deleted;
        let left = self.left()?;
        Some(counts && same_items(account.left.as_slice(), left.as_slice()))
    }
}

// The lock of a member's own part.
fn own_lock(member: u32) -> usize {
    (member as usize).saturating_add(1)
}

// The key of an item, and the greatest number where there is none.
fn key_of(item: Option<Item>) -> u64 {
    match item {
        Some(item) => item.key,
        None => u64::MAX,
    }
}

// The stamp of a member's next insertion, which is counted.
fn next_stamp(owner: u32, own: &mut Own) -> Stamp {
    let number = own.inserted;
    own.inserted = number.saturating_add(1);
    Stamp { owner, number }
}

// Puts an item into an own part. Where that is full its largest block moves to the shared part
// before, or the item itself where it has no block.
fn join(
    alloc: Global,
    own: &mut Blocks,
    shared: &mut Vec<Item>,
    is_full: bool,
    item: Item,
) -> Option<()> {
    if is_full && own.is_empty() {
        return share(shared, &[item]);
    }
    if is_full {
        let largest = own.remove(0);
        share(shared, largest.as_slice())?;
    }
    add(own, [item].to_vec(alloc).ok()?).ok()
}

// Adds items to the shared ones.
fn share(shared: &mut Vec<Item>, moved: &[Item]) -> Option<()> {
    shared.extend_from_slice(moved).ok()?;
    shared.sort_unstable();
    Some(())
}
