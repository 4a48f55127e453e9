//! What a schedule consists of, and what a thread's own steps do.

use crate::items::Items;
use klsm_run::Item;

/// What takes effect at one step.
#[derive(Debug, PartialEq, Eq, Drop)]
pub enum Event {
    /// The item goes into the thread's own part, which has room.
    Put(Item),
    /// The item goes into the own part, and some items move from there to the shared part.
    Flush {
        /// The item inserted.
        item: Item,
        /// The items that move, ascending without repeats.
        moved: Items,
    },
    /// The item leaves the own part or the shared one. No smaller item of the two is one that the
    /// thread inserted.
    Take(Item),
    /// The least own item leaves its part, and no shared item is looked at.
    Early {
        /// The item, whose key is below the front.
        item: Item,
        /// The front of the shared part: the key of its least item, and the greatest number where
        /// it is empty.
        front: u64,
    },
    /// Both parts are empty.
    Nothing,
    /// Items move from another thread's part to the own one, which is empty.
    Spy {
        /// The thread whose part they leave.
        victim: u32,
        /// The items that move, ascending without repeats.
        moved: Items,
    },
    /// Items move from the shared part to the own one, which has room for them.
    Refill {
        /// The items that move, ascending without repeats.
        moved: Items,
    },
    /// Items move from another thread's part to the own one, which has room for them.
    Steal {
        /// The thread whose part they leave.
        victim: u32,
        /// The items that move, ascending without repeats.
        moved: Items,
    },
    /// Items move from the own part to the shared one.
    Share {
        /// The items that move, ascending without repeats.
        moved: Items,
    },
}

/// A step of one thread. Part 0 is the shared one, and part t + 1 is thread t's own.
#[derive(Debug, PartialEq, Eq, Drop)]
pub enum Step {
    /// The thread acquires a part that is free.
    Acquire {
        /// The thread that steps.
        thread: u32,
        /// The part that it acquires.
        part: u32,
    },
    /// An event takes effect on parts that the thread holds.
    Commit {
        /// The thread that steps.
        thread: u32,
        /// What takes effect.
        event: Event,
    },
    /// The thread releases a part.
    Release {
        /// The thread that steps.
        thread: u32,
        /// The part that it releases.
        part: u32,
    },
    /// The thread tries a part that another holds.
    Miss {
        /// The thread that steps.
        thread: u32,
        /// The part that it tries.
        part: u32,
    },
    /// The thread loads the front, and commits nothing by it.
    Look {
        /// The thread that steps.
        thread: u32,
    },
    /// The thread marks the key of the item that it works at, or that it works at none.
    Mark {
        /// The thread that steps.
        thread: u32,
        /// The key of the item that it deleted last, or the greatest number.
        key: u64,
    },
    /// The thread sees the key of the item that a thread works at, whose own part it holds.
    See {
        /// The thread that steps.
        thread: u32,
        /// The thread whose key it sees.
        of: u32,
    },
}

/// One of a thread's own steps, as its list has it.
#[derive(Debug, PartialEq, Eq, Drop)]
pub enum Entry {
    /// The part was acquired.
    Acquired {
        /// The part acquired.
        part: u32,
        /// Its content, ascending.
        found: Items,
    },
    /// The event took effect.
    Committed(Event),
    /// The part was released.
    Released(u32),
    /// The part was tried in vain.
    Missed {
        /// The part tried.
        part: u32,
        /// The thread that held it.
        by: u32,
    },
    /// The front was loaded, and was this.
    Looked(u64),
    /// This was marked as the key of the item that the thread works at.
    Marked(u64),
    /// This was seen as the key of the item that a thread works at.
    Saw {
        /// The thread that works at it.
        of: u32,
        /// The key, or the greatest number where that thread works at none.
        key: u64,
    },
}
